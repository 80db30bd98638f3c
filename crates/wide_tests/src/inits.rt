//! The initial values of scrambling and reference signals against the reference implementation.

use crate::checksum::after_large;
use crs::{Pattern, c_init};
use grid_map::{pcfich_c_init, pdcch_c_init, pdsch_c_init};
use lte_types::CellId;
use std::test::Fail;

// Returns `c_init` of the PCFICH, the PDCCH and the PDSCH of SIB1 in slot 10, and of the reference signals in symbols
// 0, 1 and 4 of slots 10 and 11.
fn inits_of(id: CellId) -> [u32; 9] {
    let port = Pattern::FIRST_PORT;
    [
        pcfich_c_init(id, 10),
        pdcch_c_init(id, 10),
        pdsch_c_init(id, 10, 0xffff),
        c_init(port, id, 10, 0),
        c_init(port, id, 10, 1),
        c_init(port, id, 10, 4),
        c_init(port, id, 11, 0),
        c_init(port, id, 11, 1),
        c_init(port, id, 11, 4),
    ]
}

// The checksum of the nine initial values of 24 identities, in order.
const INITS: u64 = 2_337_745_772;

#[test]
fn initial_values_are_the_references(rt: HostRuntime) -> Result<(), Fail> {
    let mut sum = 0;
    for i in 0..24u16 {
        let id = CellId::new(21 * i + i % 3).ok_or("an identity")?;
        for number in inits_of(id) {
            sum = after_large(sum, number as u64);
        }
    }
    assert!(rt; sum == INITS);
    Ok(())
}
