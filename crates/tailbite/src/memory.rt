//! The working memory of a search.

ghost use Rattle.std.specs.Prelude.{◌≡◌, vec_len};

use crate::costs::StepCosts;
use crate::passes::CostRow;
use std::alloc::{AllocError, Global};

/// Working memory for words up to 64 bits long: a step cost table for each position, and two sets of minimum-cost rows
/// from each state, `free` to any end state and `rows` to a single one.
#[derive(Drop)]
pub struct Trellis {
    pub(crate) tables: Vec<StepCosts>,
    pub(crate) free: Vec<CostRow>,
    pub(crate) rows: Vec<CostRow>,
    ghost tables_size: { vec_len tables ≡ 64 },
    ghost free_size: { vec_len free ≡ 65 },
    ghost rows_size: { vec_len rows ≡ 65 },
}

impl Trellis {
    /// Allocates the memory. Fails only if an allocation fails.
    pub fn new(alloc: Global) -> Result<Trellis, AllocError> {
        let tables = vec![in alloc; [0; 64]; 64]?;
        let free = vec![in alloc; [0; 64]; 65]?;
        let rows = vec![in alloc; [0; 64]; 65]?;
        Ok(Trellis { tables, free, rows })
    }
}
