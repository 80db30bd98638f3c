//! Consecutive resource blocks.

ghost use Rattle.std.specs.Prelude.{◌≡◌, ◌+◌, ◌≤◌, ◌<◌};
ghost use Rattle.wide_grant.specs.Runs.{run_count as run_count_of, run_of as run_with};

/// Consecutive resource blocks, or virtual resource blocks.
#[derive(Clone, Copy, Debug, PartialEq, Eq)]
pub struct Run {
    /// The first block.
    pub start: u16,
    /// The number of blocks, at least 1.
    pub blocks: u16,
}

// Returns the number of runs of consecutive blocks among `count` blocks.
pub(crate) fn run_count(count: u16) -> u16
    requires { count ≤ 100 }
    ensures value { result ≡ run_count_of count }
    ensures bound { result ≤ 5050 }
{
    count * (count + 1) / 2
}

// Returns the run, among `count` blocks, with a resource indication value (TS 36.213 section 7.1.6.3).
pub(crate) fn run_of(count: u16, value: u16) -> Run
    requires some { 1 ≤ count }
    requires few { count ≤ 100 }
    requires value { value < run_count_of count }
    ensures value { result ≡ run_with count value }
    ensures bounds { (result.start ≤ 100) × (result.blocks ≤ 102) }
{
    let (start, blocks) = (value % count, value / count + 1);
    if start + blocks <= count {
        Run { start, blocks }
    } else {
        Run {
            start: count - 1 - start,
            blocks: count + 2 - blocks,
        }
    }
}
