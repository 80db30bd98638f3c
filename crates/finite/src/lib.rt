//! Finite sums, lists and tests indexed by the natural numbers below n, and with them bits, counts, bounds on
//! magnitudes, tables of sums, and the ring laws of ℤ. The definitions are in `specs/`, their laws in `proofs/`;
//! there is no code.
//! Tests: the crate `low_tests`, through the crates that use the definitions.
#![tactic(auto)]
