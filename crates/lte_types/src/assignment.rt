//! The resource allocation of SIB1.

ghost use Rattle.std.specs.Prelude.{◌≡◌, IsSome, IfSome, ◌↔◌};
ghost use Rattle.lte_types.specs.Assignment.{IsAssignment};

use crate::Cfi;
use std::marker::Model;

/// The allocation of the PDSCH that carries SIB1: contiguous resource blocks, at most six (TS 36.213 section 7.1.6.3),
/// after a control region whose control format indicator is 2 or 3 (TS 36.212 section 5.3.4). In contracts the value is
/// the indicator, the first block and the block count.
#[derive(Debug, Drop)]
pub struct Assignment {
    cfi: Cfi,
    start: u8,
    blocks: u8,
}

impl Model for Assignment {
    ghost use Rattle.lte_types.specs.Assignment.{Assigned, IsAssignment};

    ghost Value = { Assigned };

    ghost view = { λ a. record { cfi = a.cfi; start = a.start; blocks = a.blocks } };

    ghost invariant = { λ a. IsAssignment (record { cfi = a.cfi; start = a.start; blocks = a.blocks }) };
}

impl Assignment {
    /// Allocates `blocks` resource blocks from `start`. Returns `None` if the indicator is 1, `blocks` is 0, or
    /// `start` + `blocks` exceeds 6.
    pub fn new(cfi: Cfi, start: u8, blocks: u8) -> Option<Self>
        ensures valid { IsSome result ↔ IsAssignment (record { cfi = cfi; start = start; blocks = blocks }) }
        ensures value { IfSome result (λ a. a ≡ record { cfi = cfi; start = start; blocks = blocks }) }
    {
        if cfi.value() >= 2 && blocks >= 1 && start <= 6 && blocks <= 6 - start {
            Some(Assignment { cfi, start, blocks })
        } else {
            None
        }
    }

    /// Returns the control format indicator, 2 or 3.
    pub fn cfi(&self) -> Cfi
        ensures value { result ≡ self.now.cfi }
        ensures valid { IsAssignment self.now }
    {
        self.cfi
    }

    /// Returns the first resource block, 0 to 5.
    pub fn start(&self) -> u8
        ensures value { result ≡ self.now.start }
        ensures valid { IsAssignment self.now }
    {
        self.start
    }

    /// Returns the number of resource blocks, 1 to 6.
    pub fn blocks(&self) -> u8
        ensures value { result ≡ self.now.blocks }
        ensures valid { IsAssignment self.now }
    {
        self.blocks
    }
}
