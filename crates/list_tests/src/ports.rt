//! Fixtures for two and four antenna ports: a pseudorandom slot, the cells of synthetic recordings, and a cell's
//! samples by port.

ghost use Rattle.std.specs.Prelude.{◌≡◌, ◌*◌, ◌^◌, ◌<◌, All, IfOk, length};
ghost use Rattle.cs_num.specs.Complex.{IsWithin};

use capture_make::plan;
use cell_tx::{Cell, Port, Sender, sequence};
use cs_num::{Cpx, Sample};
use grid_map::Place;
use lte_types::{Carrier, Entry, Sfn, Timing};
use soft_bits::{ReadSlot, fill_slot};
use std::alloc::{AllocError, Global};
use test_support::silent;

// Returns the received value on subcarrier `k` in symbol `l`.
fn seen_at(l: u8, k: u8) -> Cpx
    requires l { l < 7 }
    requires k { k < 72 }
    ensures { IsWithin (2 ^ 25) result }
{
    Cpx {
        re: 64 * ((7 * l as i64 + 3 * k as i64) % 41 - 20),
        im: 64 * ((5 * l as i64 + 11 * k as i64) % 37 - 18),
    }
}

// Returns received symbol `l` of the pseudorandom slot.
fn symbol(l: u8) -> [Cpx; 72]
    requires { l < 7 }
    ensures { All (IsWithin (2 ^ 25)) result }
{
    let mut values = [Cpx::ZERO; 72];
    for k in 0..72_u8 {
        values[k as usize] = seen_at(l, k);
    }
    values
}

// Returns all symbols of the pseudorandom slot.
pub(crate) fn symbols() -> [[Cpx; 72]; 7]
    ensures { All (All (IsWithin (2 ^ 25))) result }
{
    [
        symbol(0),
        symbol(1),
        symbol(2),
        symbol(3),
        symbol(4),
        symbol(5),
        symbol(6),
    ]
}

// The first resource element of each pair, as symbol and subcarrier. The pair's second resource element is on the next
// subcarrier, modulo 72.
const PAIRS: [(u8, u8); 12] = [
    (1, 0),
    (2, 1),
    (3, 2),
    (6, 35),
    (5, 70),
    (2, 71),
    (1, 4),
    (3, 0),
    (0, 5),
    (4, 66),
    (4, 67),
    (6, 68),
];

// Returns the resource element in symbol `symbol` on subcarrier `k`, each reduced to its range.
fn place(symbol: u8, k: u8) -> Place
    ensures symbol { result.symbol < 14 }
    ensures k { result.k < 72 }
{
    Place {
        symbol: symbol % 7,
        k: k % 72,
    }
}

// Returns the resource elements of all pairs.
fn places() -> [Place; 24]
    ensures { All (λ p. (p.symbol < 14) × (p.k < 72)) result }
{
    let mut places = [place(0, 0); 24];
    for i in 0..12_usize {
        let (symbol, k) = PAIRS[i];
        places[2 * i] = place(symbol, k);
        places[2 * i + 1] = place(symbol, k.saturating_add(1));
    }
    places
}

// Returns the soft values of all pairs.
pub(crate) fn values_of<S: ReadSlot>(slot: &S) -> [i16; 48] {
    let mut values = [0; 48];
    fill_slot(slot, &places(), &mut values);
    values
}

// Returns whether pair `i` has the soft values `expected`.
pub(crate) fn is_pair(values: &[i16; 48], i: usize, expected: [i16; 4]) -> bool {
    i < 12 && &values[4 * i..4 * i + 4] == expected.as_slice()
}

// Returns whether an entry is synthetic recording `n`'s cell, apart from the SIB1.
pub(crate) fn is_of(entry: &Entry, n: u32, start: u32, sfn: u16, ports: u8) -> bool {
    let sent = plan(n);
    (entry.id.value(), entry.start, entry.sfn.value()) == (sent.identity, start, sfn)
        && entry.ports == ports
        && entry.mib.duration == sent.duration
        && entry.mib.resource == sent.resource
        && entry.mib.upper as u16 == sfn / 4
        && entry.mib.spare == sent.spare
}

// Returns 30 ms of one antenna port's samples, starting at frame 512.
pub(crate) fn of_port(
    alloc: Global,
    cell: &Cell,
    carrier: Carrier,
    number: u8,
) -> Result<Vec<Sample>, AllocError>
    ensures { IfOk result (λ samples. length samples.items ≡ 57600) }
{
    let mut samples = silent(alloc, 57_600)?;
    let sender = Sender {
        cell,
        port: Port { carrier, number },
        timing: Timing {
            sfn: Sfn::modulo(512),
            offset: 0,
        },
        load: None,
    };
    sequence(&sender, &mut samples);
    Ok(samples)
}

// Adds a port's sample times its gain to `sum`.
pub(crate) fn with_port(sum: (i64, i64), sample: Sample, gain: (i64, i64)) -> (i64, i64) {
    let ((re, im), (a, b)) = (sum, gain);
    let (x, y) = (sample.re as i64, sample.im as i64);
    (
        re.wrapping_add(a.wrapping_mul(x))
            .wrapping_sub(b.wrapping_mul(y)),
        im.wrapping_add(a.wrapping_mul(y))
            .wrapping_add(b.wrapping_mul(x)),
    )
}

// Moves a component by `error` against its sign.
fn off(component: i64, error: i16) -> i16 {
    let component = component.clamp(-32_000, 32_000) as i16;
    if component > 0 {
        component.saturating_sub(error)
    } else {
        component.saturating_add(error)
    }
}

// Returns `sum` as a sample, with each component moved by `error` against its sign.
pub(crate) fn opposed(sum: (i64, i64), error: i16) -> Sample {
    Sample {
        re: off(sum.0, error),
        im: off(sum.1, error),
    }
}
