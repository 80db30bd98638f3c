//! Sample formats.

ghost use Rattle.std.specs.Prelude.{◌≡◌, ◌≤◌, ◌*◌, ◌++◌, ◌∷◌, [], length, slice_index, take, IfOk};
ghost use Rattle.sample_file.specs.Recording.{width as width_of, samples_of, samples_of_8, samples_in, sample_in};
ghost use Rattle.sample_file.specs.Recording.{component_of, centred};
ghost use Rattle.sample_file.specs.declared.form.SampleForm.TheVariants.{Ci16, Cu8};

use byteorder::{ByteOrder, LittleEndian};
use cs_num::Sample;
use std::alloc::AllocError;

/// The sample format of a recording's bytes. Each case's SigMF name is in parentheses. (own)
#[derive(Clone, Copy, Debug, PartialEq, Eq)]
pub enum SampleForm {
    /// Four bytes per sample: the real, then the imaginary component, each a signed 16-bit number, low byte first
    /// (`ci16_le`).
    Ci16,
    /// Two bytes per sample: the real, then the imaginary component, each `2v - 255` for its byte v (`cu8`).
    Cu8,
}

impl SampleForm {
    /// Returns the number of bytes per sample.
    pub fn width(self) -> usize
        ensures value { result ≡ width_of self }
        ensures some { 2 ≤ result }
        ensures few { result ≤ 4 }
    {
        match self {
            SampleForm::Ci16 => 4,
            SampleForm::Cu8 => 2,
        }
    }

    // Appends the complete samples in `bytes`. Fails only if an allocation fails.
    pub(crate) fn append_samples(
        self,
        bytes: &[u8],
        samples: &mut Vec<Sample>,
    ) -> Result<(), AllocError>
        ensures { IfOk result (λ _. samples.new.items ≡ samples.old.items ++ samples_in self bytes.now) }
    {
        match self {
            SampleForm::Ci16 => append_16_bits(bytes, samples),
            SampleForm::Cu8 => append_8_bits(bytes, samples),
        }
    }
}

// Appends one sample for each four bytes. Reserves memory first: if that fails, the call fails, whereas `extend` alone
// would retry with less.
fn append_16_bits(bytes: &[u8], samples: &mut Vec<Sample>) -> Result<(), AllocError>
    ensures { IfOk result (λ _. samples.new.items ≡ samples.old.items ++ samples_of bytes.now) }
{
    let (fours, _) = bytes.as_chunks::<4>();
    samples.reserve(fours.len())?;
    samples.extend(fours.iter().map(|four| sample_of_four(four)))
}

// Appends one sample for each two bytes. Reserves memory first, as `append_16_bits` does.
fn append_8_bits(bytes: &[u8], samples: &mut Vec<Sample>) -> Result<(), AllocError>
    ensures { IfOk result (λ _. samples.new.items ≡ samples.old.items ++ samples_of_8 bytes.now) }
{
    let (twos, _) = bytes.as_chunks::<2>();
    samples.reserve(twos.len())?;
    samples.extend(twos.iter().map(|two| sample_of_two(two)))
}

// Returns the sample in four bytes, in the format `Ci16`.
fn sample_of_four(bytes: &[u8; 4]) -> Sample
    ensures { result ≡ sample_in Ci16 bytes.now }
{
    Sample {
        re: component(&bytes[..2]),
        im: component(&bytes[2..4]),
    }
}

// Returns the sample in two bytes, in the format `Cu8`.
fn sample_of_two(bytes: &[u8; 2]) -> Sample
    ensures { result ≡ sample_in Cu8 bytes.now }
{
    Sample {
        re: centred(bytes[0]),
        im: centred(bytes[1]),
    }
}

// Returns the signed 16-bit component in two bytes, low byte first.
fn component(bytes: &[u8]) -> i16
    requires { length bytes.now ≡ 2 }
    ensures { result ≡ component_of (slice_index bytes.now 0) (slice_index bytes.now 1) }
{
    LittleEndian::read_i16(bytes)
}

// Returns the component that a byte v represents, `2v - 255`.
fn centred(byte: u8) -> i16
    ensures { result ≡ centred byte }
{
    2 * byte as i16 - 255
}
