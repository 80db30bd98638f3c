//! Tests of the detection accumulated over half-frames against the reference implementation,
//! `python/lte_reference/deep.py`.
#![tactic(auto)]

#[cfg(test)]
mod lists;
#[cfg(test)]
mod primary_candidates;
#[cfg(test)]
mod recordings;
#[cfg(test)]
mod secondary_signs;
