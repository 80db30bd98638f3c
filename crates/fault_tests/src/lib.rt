//! Robustness tests of `lte_top` and `cs_outside`: each call of a source or sink fails once, pieces have one byte, a
//! writer accepts nothing, inputs are truncated, and samples have the largest magnitudes. The tests also check which
//! bytes a sink is offered in each call, and that no call follows a failed one.
#![tactic(auto)]

#[cfg(test)]
mod adapters;
#[cfg(test)]
mod cuts;
#[cfg(test)]
mod edge;
#[cfg(test)]
mod extremes;
#[cfg(test)]
mod faults;
#[cfg(test)]
mod forms;
#[cfg(test)]
mod inputs;
#[cfg(test)]
mod offered;
#[cfg(test)]
mod watched;
