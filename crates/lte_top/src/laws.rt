//! Laws about the commands' answers and outputs.

ghost use Rattle.lte_top.specs.Applied.{WhatIsAppliedIsEstimated};
ghost use Rattle.lte_top.specs.Deep.{FirstFramesDecideDeep};
ghost use Rattle.lte_top.specs.Found.{WhatIsSentIsFound};
ghost use Rattle.lte_top.specs.Searching.{FirstFramesDecideEach};
ghost use Rattle.lte_top.specs.Making.{WhatIsMadeIsHeld};
ghost use Rattle.lte_top.specs.Run.{HasOneAnswer};
ghost use Rattle.lte_top.specs.Why.{EachLooksAtFirstFrames, FirstFramesDecideWhy};

use capture_make::numbers_are_clean;
use cell_tx::sum_is_clean;

/// A law: an input has at most one answer. Only failed allocations and counted faults give a run another answer.
pub fn an_input_has_one_answer()
    ensures { HasOneAnswer }
{}

/// A law: `search` lists every cell that `transmit` sends, with SIB1 if the scheme carries it. With four antenna ports,
/// each of the pairs 0, 2 and 1, 3 must have at least three eighths of the power.
pub fn what_is_sent_is_found()
    ensures { WhatIsSentIsFound }
{
    sum_is_clean();
}

/// A law: the line of `make N` ends in `held 1` for each transmission scheme and every 32-bit N, so the sent cell is
/// listed exactly once.
pub fn what_is_made_is_held()
    ensures { WhatIsMadeIsHeld }
{
    numbers_are_clean();
}

/// A law: two recordings that agree in their first 326,400 samples (17 frames) have the same list and the same reasons
/// under each transmission scheme, and the same `ids --deep`. `search` without `--cancel` therefore keeps no later
/// sample.
pub fn the_first_frames_decide_each_list()
    ensures each { FirstFramesDecideEach }
    ensures deep { FirstFramesDecideDeep }
    ensures receivers { EachLooksAtFirstFrames }
    ensures why { FirstFramesDecideWhy }
{}

/// A law: the output of `apply` is a valid recording, and has as many cells as `tell` reports.
pub fn what_is_applied_is_estimated()
    ensures { WhatIsAppliedIsEstimated }
{
    frequency_offset::turned_recordings();
    frequency_offset::the_turn_estimated();
}
