// The receiver at six resource blocks and 1.92 million samples per second, against that of the cell search. Its table's
// entries are a sixteenth in magnitude: components differ by at most 4 for the drawn samples (computed with numpy).
ghost use Rattle.std.specs.Prelude.{◌<◌};

use crate::cells::cell_of;
use crate::samples::subframe;
use crate::slots::received;
use cs_num::Cpx;
use halving::narrowed;
use lte_types::Bandwidth;
use sample_file::Recording;
use std::test::Fail;
use tones::{Tones, wide_start};
use wide_slot::WideSlot;

fn is_near(one: Cpx, other: Cpx) -> bool {
    one.re.abs_diff(other.re) <= 4 && one.im.abs_diff(other.im) <= 4
}

// Returns how many values of a slot are near those of the cell search.
fn near_count(slot: &WideSlot, number: u8, narrow: &Recording) -> usize
    requires { number < 20 }
{
    let mut count: usize = 0;
    for symbol in 0..7_u8 {
        let start = wide_start(0, 0, number, symbol);
        if start <= narrow.len() && 128 <= narrow.len() - start {
            let values = observe::symbol(narrow, start);
            for (k, value) in values.iter().enumerate() {
                if is_near(slot.seen(symbol, k as u16), *value) {
                    count = count.wrapping_add(1);
                }
            }
        }
    }
    count
}

#[test]
fn six_blocks_are_received_as_in_the_cell_search(rt: HostRuntime) -> Result<(), Fail> {
    let tones = Tones::new(rt.alloc())?;
    let wide = subframe(rt.alloc(), 0)?.ok_or("a recording")?;
    let narrow = narrowed(rt.alloc(), &wide)?;
    let cell = cell_of(Bandwidth::N6, 1, 5).ok_or("a cell")?;
    for number in [10, 11] {
        let slot = received(rt.alloc(), &tones, &wide, &cell, number)?.ok_or("a slot")?;
        assert!(rt; near_count(&slot, number, &narrow) == 7 * 72);
    }
    Ok(())
}
