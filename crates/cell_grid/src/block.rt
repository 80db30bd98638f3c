//! The broadcast channel (PBCH) of a cell.

ghost use Rattle.std.specs.Prelude.{◌≡◌, ◌+◌, ◌*◌, ◌<◌, ◌≤◌, false, length, slice_index_or};
ghost use Rattle.finite.specs.Lists.{values_below};
ghost use Rattle.finite.specs.Bits.{xor};
ghost use Rattle.conv_code.specs.Reading.{bit_of_item, item_of};
ghost use Rattle.grid_map.specs.Scrambling.{pbch_c_init as c_init_of};
ghost use Rattle.cell_grid.specs.Points.{point_of};
ghost use Rattle.cell_grid.specs.Block.{master_word as master_word_of, scrambled_bit, port_word, port_point};

use crate::Port;
use crate::bits::put_bits;
use cell_plan::Cell;
use conv_code::{encode, match_out};
use crs::point;
use cs_bits::{Bits, crc16};
use cs_num::Cpx;
use grid_map::pbch_c_init;
use lte_types::{Bandwidth, CellId, Duration, Resource, Sfn};

// Returns the MIB for 6 resource blocks, followed by its CRC masked with `mask` (TS 36.331 section 6.2.2, TS 36.212
// section 5.3.1.1).
fn master_word(mask: u16, duration: Duration, resource: Resource, sfn: Sfn, spare: u16) -> Bits<40>
    ensures { result ≡ master_word_of mask duration resource sfn spare }
{
    let mut bits = [false; 40];
    put_bits(&mut bits, 0, 3, Bandwidth::N6.code() as u64);
    put_bits(&mut bits, 3, 1, duration.code() as u64);
    put_bits(&mut bits, 4, 2, resource.code() as u64);
    put_bits(&mut bits, 6, 8, sfn.value() as u64 / 4);
    put_bits(&mut bits, 14, 10, spare as u64);
    let check = crc16(&bits[..24]) ^ mask;
    put_bits(&mut bits, 24, 16, check as u64);
    Bits::new(bits)
}

// Returns the MIB of the cell's plan in frame `sfn`, followed by its CRC masked for `port`.
fn word_of(cell: &Cell, port: Port, sfn: Sfn) -> Bits<40>
    ensures { result ≡ port_word port cell.now sfn }
{
    let plan = cell.plan();
    master_word(port.mask(), plan.duration, plan.resource, sfn, plan.spare)
}

// Returns bit `n` of the sequence after rate matching, scrambled with bit `n` of `scrambling`.
fn scrambled<const N: usize>(coded: &[[bool; 3]; N], scrambling: &[bool], n: usize) -> bool
    requires low { 6 ≤ N }
    requires high { N ≤ 64 }
    requires inside { n < length scrambling.now }
    ensures { result ≡ xor (bit_of_item coded.now (item_of N n)) (slice_index_or scrambling.now n false) }
{
    match_out(coded, n) != scrambling[n]
}

// Fills `points` with the QPSK symbols for the encoded, rate-matched and scrambled `word`, starting at bit `first` of
// the four-frame sequence (TS 36.212 section 5.3.1, TS 36.211 section 6.6).
fn fill_broadcast(id: CellId, word: &Bits<40>, first: usize, points: &mut [Cpx])
    requires { first + 2 * length points.old ≤ 1920 }
    ensures { points.new ≡ values_below (length points.old)
        (point_of (λ i. scrambled_bit (c_init_of id) word.now (first + i))) }
{
    let size = word.slice().len();
    prove!(size == 40);
    let coded = encode(word);
    let mut scrambling = [false; 1920];
    gold::fill(pbch_c_init(id), &mut scrambling);
    for i in 0..points.len() {
        points[i] = point(
            scrambled(&coded, &scrambling, first + 2 * i),
            scrambled(&coded, &scrambling, first + 2 * i + 1),
        );
    }
}

/// Returns the 240 PBCH symbols of frame `sfn` with the CRC mask for `port`. With the extended cyclic prefix only the
/// first 216 are transmitted.
pub(crate) fn broadcast_points(cell: &Cell, port: Port, sfn: Sfn) -> [Cpx; 240]
    ensures { result ≡ values_below 240 (port_point port cell.now sfn) }
{
    let mut points = [Cpx::ZERO; 240];
    let first = port.block_bits() * (sfn.value() % 4) as usize;
    fill_broadcast(cell.id(), &word_of(cell, port, sfn), first, &mut points);
    points
}
