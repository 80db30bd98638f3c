//! MIBs from added frames. The rows are from `python/lte_reference/added_rows.py`, which makes the same frames.

ghost use Rattle.std.specs.Prelude.{◌<◌, ◌≤◌, ◌^◌, length, nat_abs};
ghost use Rattle.finite.specs.Sizes.{AllWithin, RowsWithin};

use added_master::{
    added_sums, coincidences_are_rare, count_matches, decode_added, one_answer, period_sums,
};
use arrayvec::ArrayVec;
use conv_code::{encode, match_out};
use cs_bits::{Bits, crc16};
use lte_types::{CellId, Mib};
use pbch::{CellScrambling, Received};
use std::test::Fail;
use tailbite::{Trellis, least};

// The 24 bits of the decoded MIB, or 0; its matching signs; and the matching signs at the next phase.
type Numbers = [u32; 3];

// The identity; the ports and the 24 bits of the sent MIB; phase and count of the frames; amplitude; level and seed of
// the noise; and what is decoded.
type Row = (u16, u8, u32, usize, usize, i16, u32, u32, Numbers);

const ROWS: [Row; 11] = [
    (7, 1, 4772260, 0, 17, 0, 20, 1, [0, 96, 91]),
    (7, 1, 4772260, 0, 17, 0, 0, 2, [0, 0, 0]),
    (7, 1, 4772260, 0, 17, 2, 20, 3, [4772260, 109, 95]),
    (271, 2, 7339008, 1, 17, 2, 20, 4, [7339008, 106, 86]),
    (503, 4, 263167, 2, 16, 2, 20, 5, [263167, 114, 94]),
    (100, 1, 9174562, 3, 17, 3, 20, 6, [9174562, 116, 88]),
    (33, 1, 4, 2, 3, 5, 20, 8, [4, 109, 88]),
    (33, 1, 986895, 3, 1, 100, 127, 9, [986895, 120, 90]),
    (33, 1, 74565, 0, 0, 9, 20, 10, [0, 0, 0]),
    (45, 1, 12582912, 0, 8, 9, 20, 11, [0, 120, 94]),
    (45, 1, 2386092, 1, 12, 127, 100, 12, [2386092, 120, 94]),
];

// How frames are sent: with an amplitude, in noise from -`level` to `level`.
#[derive(Drop)]
struct Sent {
    id: CellId,
    ports: u8,
    block: u32,
    phase: usize,
    amplitude: i16,
    level: u32,
}

// Returns the word of the MIB with these 24 bits.
fn word_of(block: u32, ports: u8) -> Bits<40> {
    let mask = match ports {
        1 => 0,
        2 => 0xffff,
        _ => 0x5555,
    };
    let check = crc16(Bits::<24>::of_number(block as u64).slice()) ^ mask;
    Bits::of_number(((block as u64) << 16) | check as u64)
}

// Returns the 24 bits of a MIB with `periods` added to its upper frame number bits.
fn counted_on(block: u32, periods: u32) -> u32 {
    let upper = (block >> 10).wrapping_add(periods) & 255;
    (block & 0xfc_03ff) | (upper << 10)
}

// Returns the next state of the generator in `python/lte_reference/wide_rows.py`.
fn next(state: u32) -> u32 {
    state.wrapping_mul(1_103_515_245).wrapping_add(12_345) & 0x7fff_ffff
}

// Returns a component of noise, -`level` to `level`.
fn noise(state: u32, level: u32) -> i16
    requires { level ≤ 1000 }
{
    (((state >> 16) % (2 * level + 1)) as i16).wrapping_sub(level as i16)
}

fn soft_value(bit: bool, amplitude: i16, noise: i16) -> i16
    ensures { nat_abs result ≤ 127 }
{
    let sent = if bit {
        0_i16.wrapping_sub(amplitude)
    } else {
        amplitude
    };
    sent.wrapping_add(noise).clamp(-127, 127)
}

// Returns the soft values of a frame with these coded bits, not scrambled.
fn plain_values(coded: &[[bool; 3]; 40], sent: &Sent, state: &mut u32) -> [i16; 480]
    ensures { AllWithin 127 result }
{
    let mut values = [0_i16; 480];
    for i in 0..480 {
        *state = next(*state);
        let noise = noise(*state, sent.level.min(1_000));
        values[i] = soft_value(match_out(coded, i), sent.amplitude, noise);
    }
    values
}

// Returns the scrambled soft values of frame `j`.
fn frame_of(sent: &Sent, j: usize, state: &mut u32) -> Received
    requires { j < 17 }
{
    let at = sent.phase % 4 + j;
    let word = word_of(counted_on(sent.block, (at / 4) as u32), sent.ports);
    let mut values = plain_values(&encode(&word), sent, state);
    CellScrambling::new(sent.id).descramble(480 * (at % 4), &mut values);
    Received::new(&values)
}

fn frames_of(sent: &Sent, count: usize, seed: u32) -> ArrayVec<Received, 17> {
    let mut state = seed;
    let mut frames = ArrayVec::new();
    for j in 0..count.min(17) {
        let _fits = frames.try_push(frame_of(sent, j, &mut state));
    }
    frames
}

fn block_of(mib: &Mib) -> u32 {
    ((mib.bandwidth.code() as u32) << 21)
        | ((mib.duration.code() as u32) << 20)
        | ((mib.resource.code() as u32) << 18)
        | ((mib.upper as u32) << 10)
        | mib.spare as u32
}

// Returns the 120 added sums at a phase, with the sent number.
fn sums_at(sent: &Sent, phase: usize, frames: &[Received]) -> [[i32; 3]; 40]
    requires { length frames.now ≤ 17 }
    ensures { RowsWithin (2 ^ 20) result }
{
    added_sums(
        &period_sums(sent.id, phase % 4, frames),
        (sent.block >> 10 & 255) as u8,
    )
}

// Returns how many signs match those of the word of minimum cost.
fn signs_of(sums: &[[i32; 3]; 40], work: &mut Trellis) -> u32
    requires { RowsWithin (2 ^ 20) sums.now }
{
    let (word, _) = least(sums, work);
    count_matches(sums, &word) as u32
}

// Returns the 24 bits of the MIB with the sent ports, phase and number, or 0.
fn block_in(sums: &[[i32; 3]; 40], sent: &Sent, work: &mut Trellis) -> u32
    requires { RowsWithin (2 ^ 20) sums.now }
{
    let upper = (sent.block >> 10 & 255) as u8;
    let found = match sent.ports {
        1 => decode_added(sums, 1, 0, upper, work),
        2 => decode_added(sums, 2, 0, upper, work),
        _ => decode_added(sums, 4, 0, upper, work),
    };
    match found {
        Some(master) => block_of(&master.mib),
        None => 0,
    }
}

fn found(sent: &Sent, count: usize, seed: u32, work: &mut Trellis) -> Numbers {
    let frames = frames_of(sent, count, seed);
    let sums = sums_at(sent, sent.phase, frames.as_slice());
    let others = sums_at(sent, sent.phase % 4 + 1, frames.as_slice());
    [
        block_in(&sums, sent, work),
        signs_of(&sums, work),
        signs_of(&others, work),
    ]
}

#[test]
fn added_frames_decode_as_in_the_reference(rt: HostRuntime) -> Result<(), Fail> {
    let mut work = Trellis::new(rt.alloc())?;
    for (id, ports, block, phase, count, amplitude, level, seed, expected) in ROWS {
        let sent = Sent {
            id: CellId::new(id).ok_or("identity")?,
            ports,
            block,
            phase,
            amplitude,
            level,
        };
        assert!(rt;
            found(&sent, count, seed, &mut work) == expected,
            "seed {seed}"
        );
    }
    one_answer();
    coincidences_are_rare();
    Ok(())
}
