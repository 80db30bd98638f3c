//! Tests of decoding single slots and subframes (MIB, CFI, PDCCH candidates, PDSCH soft values, SIB1): `pbch`,
//! `pcfich`, `pdcch`, `pdsch`, `dci` and `sib1_reader`.
#![tactic(auto)]

#[cfg(test)]
mod control;
#[cfg(test)]
mod indicators;
#[cfg(test)]
mod masters;
#[cfg(test)]
mod seen;
#[cfg(test)]
mod shared;
#[cfg(test)]
mod system;
