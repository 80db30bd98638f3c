//! Maximum-likelihood decoding of the tail-biting convolutional code (TS 36.212 section 5.1.3.1): finds, among all
//! words of 6 to 64 bits, the word with the minimum cost. A word's cost is the summed magnitude of the received values
//! that contradict its coded bits. If several words have the minimum cost, the first in lexicographic order is chosen.
//! The search covers the 64 encoder states in which a word may start and end, and leaves out the states for which a
//! bound shows that no word costs less. Single steps are also public: step costs, the next state, and a row of minimum
//! costs one step on.
//! Tests: the crate `code_tests`.
#![tactic(auto)]

mod costs;
mod laws;
mod memory;
mod passes;
mod search;
mod steps;

pub use costs::{StepCosts, cost_at, fill_costs};
pub use laws::{one_least_word, values_determine_the_word};
pub use memory::Trellis;
pub use passes::{CostRow, step_on};
pub use search::{free_at, least, least_by};
pub use steps::next;
