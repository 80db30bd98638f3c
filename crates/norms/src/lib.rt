//! Inequalities for complex integers, without square roots: magnitudes of sums and products, the Cauchy–Schwarz
//! inequality for two terms and for finite sums, and weighted bounds on a sum. The definitions are in `specs/`, the
//! inequalities in `proofs/`; there is no code.
//! Tests: the crate `list_tests`, through `clean_air`.
#![tactic(auto)]
