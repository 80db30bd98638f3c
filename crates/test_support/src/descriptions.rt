//! The plain cell: its description, and its cell list. If a description repeats a key, the last value counts, so
//! appended keys override earlier ones.

use std::alloc::{AllocError, Global};

/// The keys of the plain cell's description, without braces and SIB1: identity 0, offset 0, 57,600 samples, and gain 1.
pub const PLAIN_KEYS: &str =
    "\"identity\": 0, \"sfn\": 0, \"offset\": 0, \"samples\": 57600, \"gain\": [1, 0], \
    \"duration\": \"normal\", \"resource\": \"one\", \"spare\": 0, \"cfi\": 2, \"start\": 0, \"blocks\": 6, \
    \"mcs\": 4, \"column\": 2";

// The keys of the SIB1 `plain_block`, without braces.
const BLOCK_KEYS: &str =
    "\"plmns\": [{\"mcc\": \"001\", \"mnc\": \"01\", \"reserved\": false}], \"tac\": 1, \"cell\": 1, \
    \"barred\": false, \"intra\": true, \"csg\": false, \"csg_identity\": null, \"q_rx\": -70, \"q_offset\": null, \
    \"p_max\": null, \"band\": 1, \"scheduling\": [{\"period\": 8, \"sibs\": []}], \"window\": 1, \"tag\": 0";

/// The text that `search` writes for the plain cell's recording.
pub const PLAIN_REPORT: &str = "cells 1
cell 0 at 0 sfn 0 ports 1 n6 phich normal one br 0 spare 0
sib1 tac 1 cell 1 open allowed csg 0 - rx -70 offset - pmax - band 1 window ms1 tag 0 tdd - extension 0
plmn 001 01 free
si rf8 -
";

/// Returns the plain cell's description, with the keys `change` appended, and the keys `block` appended to its SIB1.
/// Each is empty or starts with a comma.
pub fn description(alloc: Global, change: &str, block: &str) -> Result<String, AllocError> {
    format!(in alloc; "{{{PLAIN_KEYS}, \"sib1\": {{{BLOCK_KEYS}{block}}}{change}}}")
}
