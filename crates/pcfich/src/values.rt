//! The PCFICH soft values.

ghost use Rattle.std.specs.Prelude.{◌≡◌, ◌≤◌};
ghost use Rattle.finite.specs.Sizes.{AllWithin};
ghost use Rattle.pcfich.specs.Values.{indicator_values_by};

use grid_map::{pcfich_c_init, pcfich_places};
use soft_bits::{ReadSlot, descramble, fill_slot};

// Returns the 32 descrambled PCFICH soft values in `slot`, a subframe's first.
pub(crate) fn received<S: ReadSlot>(slot: &S) -> [i16; 32]
    ensures values { result ≡ indicator_values_by S.values_by (S.seen_as slot.now) }
    ensures magnitudes { AllWithin 127 result }
{
    let places = pcfich_places(slot.cell());
    let mut values = [0; 32];
    fill_slot(slot, &places, &mut values);
    let c_init = pcfich_c_init(slot.cell(), slot.slot_number());
    descramble(c_init, 0, &mut values);
    values
}
