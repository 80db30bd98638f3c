//! Tests of the MIB from added frames against the reference implementation, `python/lte_reference/added_master.py`.
#![tactic(auto)]

#[cfg(test)]
mod masters;
