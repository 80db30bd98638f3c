//! System information to send.

use lte_types::{Mnc, Plmn, Plmns, Schedule, SiMessage, Sib1, Sibs};

/// Returns a scheduling entry with period code `period` and SIB codes `codes`.
pub fn message(period: u8, codes: &[u8]) -> SiMessage {
    let mut sibs = Sibs::new();
    for code in codes {
        sibs.push(*code);
    }
    SiMessage { period, sibs }
}

/// Returns a SIB1 with network 001/01, no optional fields, and one scheduling entry, with period code `period` and no
/// SIBs.
pub fn information(period: u8) -> Sib1 {
    let mut plmns = Plmns::new();
    plmns.push(Plmn {
        mcc: Some([0, 0, 1]),
        mnc: Mnc::Two([0, 1]),
        reserved: false,
    });
    let mut scheduling = Schedule::new();
    scheduling.push(message(period, &[]));
    Sib1 {
        plmns,
        tac: 1,
        cell: 1,
        barred: false,
        intra: true,
        csg: false,
        csg_identity: None,
        q_rx: -70,
        q_offset: None,
        p_max: None,
        band: 1,
        scheduling,
        tdd: None,
        window: 0,
        tag: 0,
        extended: false,
    }
}

/// Returns the plain cell's SIB1, with a period of 8 frames.
pub fn plain_block() -> Sib1 {
    information(0)
}
