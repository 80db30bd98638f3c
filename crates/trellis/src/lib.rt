//! Paths through a trellis with numbered states, their minimum costs (Viterbi), and bit words in lexicographic order. A
//! step consumes one bit; the cost of the step depends on its index, the state and the bit. The definitions are in
//! `specs/`, their laws in `proofs/`; there is no code.
//! Tests: the crate `code_tests`, through `tailbite` and `turbo_dec`.
#![tactic(auto)]
