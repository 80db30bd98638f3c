//! Laws of runs, and of distributed blocks.

ghost use Rattle.wide_grant.specs.Laws.{RunsHaveValues, IsMatrixOrder, AreBlocksOfCell};

/// A law: each resource indication value that is read selects the run with this value, within the blocks (TS 36.213
/// section 7.1.6.3).
pub fn runs_have_values()
    ensures { RunsHaveValues }
{}

/// A law: distributed virtual resource blocks are interleaved by the matrix of TS 36.211 section 6.2.3.2, and each is a
/// resource block of the cell.
pub fn blocks_are_distributed()
    ensures matrix { IsMatrixOrder }
    ensures inside { AreBlocksOfCell }
{}
