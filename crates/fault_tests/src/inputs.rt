//! Valid inputs of command forms.

use lte_top::Status;
use run_support::{output_of, sent_by, with_four_ports, with_long_prefix, with_two_ports};
use std::alloc::{AllocError, Global};
use test_support::{certificate_of_zeros, description, silence};

// The gains of antenna ports 1 to 3, for four ports.
const OTHER_GAINS: &str = ", \"gain2\": [0, 1], \"gain3\": [1, 0], \"gain4\": [0, -1]";

/// The input of a form.
#[derive(Clone, Copy, Debug, PartialEq, Eq)]
pub enum Input {
    /// An empty input, for forms that read nothing.
    Nothing,
    /// The plain cell's recording in 16-bit samples.
    Cell16,
    /// The plain cell's recording in 8-bit samples.
    Cell8,
    /// Synthetic recording 90 with two antenna ports, in 16-bit samples.
    TwoPorts,
    /// Synthetic recording 90 with four antenna ports, in 16-bit samples.
    FourPorts,
    /// Synthetic recording 90 with the extended cyclic prefix.
    LongPrefix,
    /// The plain cell's description.
    Description,
    /// The plain cell's description with two antenna ports.
    TwoPortsDescription,
    /// The plain cell's description with four antenna ports.
    FourPortsDescription,
    /// The certificate for 120 zero soft values.
    ZeroCertificate,
    /// The certificates for the plain cell's recording.
    Certificates,
}

/// Returns the bytes of an input.
pub fn bytes_of(alloc: Global, input: Input) -> Result<Vec<u8>, AllocError> {
    match input {
        Input::Nothing => Ok(Vec::new(alloc)),
        Input::Cell16 => recording(alloc),
        Input::Cell8 => recording_of_8_bits(alloc),
        Input::TwoPorts => with_two_ports(alloc),
        Input::FourPorts => with_four_ports(alloc),
        Input::LongPrefix => with_long_prefix(alloc),
        Input::Description | Input::TwoPortsDescription | Input::FourPortsDescription => {
            description_with(alloc, input, "")
        }
        Input::ZeroCertificate => certificate_of_zeros(alloc),
        Input::Certificates => Ok(output_of(alloc, "certify", recording(alloc)?)?.written),
    }
}

/// Returns the plain cell's description.
pub fn plain_description(alloc: Global) -> Result<Vec<u8>, AllocError> {
    description_with(alloc, Input::Description, "")
}

/// Returns the description `input` with `change`, which begins with a comma.
pub fn description_with(alloc: Global, input: Input, change: &str) -> Result<Vec<u8>, AllocError> {
    let gains = match input {
        Input::TwoPortsDescription => ", \"gain2\": [0, 1]",
        Input::FourPortsDescription => OTHER_GAINS,
        _ => "",
    };
    let changes = format!(in alloc; "{gains}{change}")?;
    description(alloc, &changes, "")?.as_bytes().to_vec(alloc)
}

/// Returns a recording of 76,800 samples with 16 cells, one every 1,200 samples. Each cell has the plain cell's
/// synchronisation signals and MIB.
pub fn sixteen_cells(alloc: Global) -> Result<Vec<u8>, AllocError> {
    let one = recording(alloc)?;
    let mut bytes = silence(alloc, 2_240)?;
    for frame in 0..3_usize {
        let from = 76_800 * frame + 2_240;
        if let Some(part) = one.get(from..from + 4_800) {
            for _ in 0..16 {
                bytes.extend_from_slice(part)?;
            }
        }
    }
    bytes.resize(307_200, 0)?;
    Ok(bytes)
}

/// Returns the plain cell's recording in 16-bit samples, or no bytes if `transmit` fails.
pub fn recording(alloc: Global) -> Result<Vec<u8>, AllocError> {
    let sent = sent_by(alloc, "")?;
    match sent.status {
        Status::Done => Ok(sent.written),
        _ => Ok(Vec::new(alloc)),
    }
}

// Returns the plain cell's recording in 8-bit samples. Each byte is an eighth of a 16-bit component, plus 128.
fn recording_of_8_bits(alloc: Global) -> Result<Vec<u8>, AllocError> {
    let bytes = recording(alloc)?;
    let mut small = Vec::new(alloc);
    for i in 0..bytes.len() / 2 {
        let component = i16::from_le_bytes([bytes[2 * i], bytes[2 * i + 1]]);
        small.push(eighth(component))?;
    }
    Ok(small)
}

// Returns an eighth of a component, plus 128, as a byte.
fn eighth(component: i16) -> u8 {
    let [low, high] = (component.saturating_add(1_024).max(0) / 8).to_le_bytes();
    if high == 0 { low } else { 255 }
}
