//! The two constituent encoders and the codeword (TS 36.212 section 5.1.3.2).

ghost use Rattle.std.specs.Prelude.{◌≡◌, ◌+◌, ◌<◌, ◌≤◌, ◌∷◌, ◌++◌, [], false, length, take, drop};
ghost use Rattle.turbo_code.specs.Table.{IsAnyRow, IsAnySize, IsRow, IsSize, interleaver};
ghost use Rattle.finite.specs.Bits.{xor};
ghost use Rattle.turbo_code.specs.Encoder.{coded, interleaved, parities, stream, tail_x, tail_z};

use crate::Row;

/// A codeword: the block size K in `k`, and in `d` three streams of K bits and four tail bits each, padded with zeros.
#[derive(Clone, Copy, Drop)]
pub struct Coded {
    pub k: u16,
    pub d: [[bool; 1028]; 3],
}

/// An encoder's last three register bits: a(k - 1), a(k - 2), a(k - 3).
#[derive(Drop)]
struct Register {
    one: bool,
    two: bool,
    three: bool,
}

/// The systematic bits x and the parity bits z in an encoder's three tail steps.
#[derive(Drop)]
struct Tail {
    x: [bool; 3],
    z: [bool; 3],
}

/// One constituent encoder's output for a word: its parity bits, padded with zeros, and its tail.
#[derive(Drop)]
struct Constituent {
    parities: [bool; 1024],
    tail: Tail,
}

/// Shifts the input `bit` into the register, and returns the step's parity bit.
fn step(register: &mut Register, bit: bool) -> bool
    ensures last { register.new.one ≡ xor (xor bit register.old.two) register.old.three }
    ensures second { register.new.two ≡ register.old.one }
    ensures third { register.new.three ≡ register.old.two }
    ensures parity { result ≡ xor (xor register.new.one register.old.one) register.old.three }
{
    let last = bit ^ register.two ^ register.three;
    let parity = last ^ register.one ^ register.three;
    register.three = register.two;
    register.two = register.one;
    register.one = last;
    parity
}

/// Returns the bits of the three tail steps that lead the register back to zero.
fn tail_of(register: &Register) -> Tail
    ensures x { result.x ≡ xor register.now.two register.now.three
        ∷ xor register.now.one register.now.two ∷ xor false register.now.one ∷ [] }
    ensures z { result.z ≡ xor register.now.one register.now.three
        ∷ xor false register.now.two ∷ xor false register.now.one ∷ [] }
{
    Tail {
        x: [
            register.two ^ register.three,
            register.one ^ register.two,
            register.one,
        ],
        z: [register.one ^ register.three, register.two, register.one],
    }
}

/// Returns one constituent encoder's parity bits and tail bits for a word.
fn encoder_of(word: &[bool]) -> Constituent
    requires { length word.now ≤ 1024 }
    ensures parities { take (length word.now) result.parities ≡ parities word.now }
    ensures whole { length result.parities ≡ 1024 }
    ensures x { result.tail.x ≡ tail_x word.now 0 ∷ tail_x word.now 1 ∷ tail_x word.now 2 ∷ [] }
    ensures z { result.tail.z ≡ tail_z word.now 0 ∷ tail_z word.now 1 ∷ tail_z word.now 2 ∷ [] }
{
    let mut parities = [false; 1024];
    let mut register = Register {
        one: false,
        two: false,
        three: false,
    };
    for (k, bit) in word.iter().enumerate() {
        parities[k] = step(&mut register, *bit);
    }
    Constituent {
        parities,
        tail: tail_of(&register),
    }
}

/// Returns the index of the bit that the second encoder reads at step `i` (TS 36.212 section 5.1.3.2.3). `row` is a
/// row of either table; `i` and the result are below its K.
pub fn interleaver(row: &Row, i: usize) -> usize
    requires row { IsAnyRow row.now }
    requires inside { i < row.now.k }
    ensures bit { result ≡ interleaver row.now i }
    ensures inside { result < row.now.k }
{
    let f1 = row.f1 as usize;
    let f2 = row.f2 as usize;
    (f1 * i + f2 * i * i) % row.k as usize
}

/// Returns `word` in the second encoder's order, padded with zeros.
fn in_order(word: &[bool], row: &Row) -> [bool; 1024]
    requires row { IsAnyRow row.now }
    requires count { length word.now ≡ row.now.k }
    ensures word { take (length word.now) result ≡ interleaved row.now word.now }
    ensures whole { length result ≡ 1024 }
{
    let mut bits = [false; 1024];
    for i in 0..word.len() {
        bits[i] = word[interleaver(row, i)];
    }
    bits
}

/// Copies `bits` into `stream`, starting at `index`.
fn write_at(stream: &mut [bool], index: usize, bits: &[bool])
    requires { index + length bits.now ≤ length stream.old }
    ensures { stream.new ≡ take index stream.old ++ bits.now ++ drop (index + length bits.now) stream.old }
{
    stream[index..index + bits.len()].copy_from_slice(bits);
}

/// Returns a stream of the codeword: its bits, its four tail bits, and zeros up to the length 1,028.
fn stream_of(bits: &[bool], tail: &[bool; 4]) -> [bool; 1028]
    requires { length bits.now ≤ 1024 }
    ensures { result ≡ stream bits.now tail.now }
{
    let mut stream = [false; 1028];
    write_at(&mut stream, 0, bits);
    write_at(&mut stream, bits.len(), tail);
    stream
}

/// Encodes K bits (TS 36.212 section 5.1.3.2) to the word itself, the first encoder's parity bits, and the second
/// encoder's parity bits for the interleaved word. `row` is a row of either table; `bits` has K bits.
pub fn encode(bits: &[bool], row: Row) -> Coded
    requires row { IsAnyRow row }
    requires count { length bits.now ≡ row.k }
    ensures k { result.k ≡ row.k }
    ensures size { IsAnySize result.k }
    ensures size_in_use { IsRow row → IsSize result.k }
    ensures d { result.d ≡ coded row bits.now }
{
    let k = bits.len();
    let swapped = in_order(bits, &row);
    let first = encoder_of(bits);
    let second = encoder_of(&swapped[..k]);
    let a = &first.tail;
    let b = &second.tail;
    Coded {
        k: row.k,
        d: [
            stream_of(bits, &[a.x[0], a.z[1], b.x[0], b.z[1]]),
            stream_of(&first.parities[..k], &[a.z[0], a.x[2], b.z[0], b.x[2]]),
            stream_of(&second.parities[..k], &[a.x[1], a.z[2], b.x[1], b.z[2]]),
        ],
    }
}
