// The expected samples are from the reference implementation, `python/lte_reference/cell.py`.
ghost use Rattle.std.specs.Prelude.{◌≡◌, IfOk};

use cell_plan::accepted_are_sendable;
use cell_tx::{
    Cell, CellError, CellPlan, Transmission, frame, frames_stand, sample, send, send_all,
    sent_is_clean, sizes, symbols_stand,
};
use cs_num::Sample;
use lte_types::{Duration, Mnc, Plmn, Plmns, Resource, Schedule, Sfn, Sib1};
use std::test::Fail;
use test_support::{are_samples, message, plain_block, silent};

// Samples of the plain cell, starting at frame 0.
const ROW: [(u32, i16, i16); 52] = [
    (0, -99, 131),
    (9, -58, -3),
    (10, -67, -22),
    (137, -58, -3),
    (823, -89, 48),
    (832, 104, -72),
    (960, 33, 31),
    (967, 147, 24),
    (970, 23, 45),
    (1107, 90, -45),
    (1300, 0, -50),
    (9610, 45, -90),
    (9747, 180, -135),
    (9900, 253, 54),
    (10021, 0, 90),
    (10200, 150, -121),
    (10400, 9, -57),
    (10432, 104, -72),
    (10500, 3, 86),
    (10569, 74, -118),
    (10700, -38, -68),
    (10850, 125, -86),
    (11000, 135, 8),
    (11140, 41, 55),
    (11300, -186, -19),
    (11519, -57, -5),
    (19200, -99, 131),
    (19209, -58, -3),
    (19210, -67, -22),
    (19337, -58, -3),
    (20023, -89, 48),
    (20032, 104, -72),
    (20160, -22, 155),
    (20167, 97, -25),
    (20170, 113, 90),
    (20307, 68, -22),
    (20500, -71, -13),
    (48010, -22, 0),
    (48147, 90, 0),
    (48300, 50, -26),
    (48421, -67, 203),
    (48600, 143, 50),
    (48800, 9, -57),
    (48832, 104, -72),
    (48900, 3, 86),
    (48969, 84, 195),
    (49100, 133, 150),
    (49250, -118, 150),
    (49400, -16, -56),
    (49540, -51, -27),
    (49700, 82, 138),
    (49919, 109, -129),
];

// Samples of identity 503 with gain -11 + 23j, starting at sample 19,199 of frame 1023.
const TURNED: [(u32, i16, i16); 52] = [
    (1, 1349, 843),
    (10, -754, -728),
    (11, -1530, 540),
    (138, -754, -728),
    (824, 678, -1004),
    (833, 2740, -1770),
    (961, 880, 760),
    (968, 2595, 4915),
    (971, -574, -2818),
    (1108, 242, -506),
    (1301, 2931, 1967),
    (9611, 506, 242),
    (9748, 1575, 2025),
    (9901, -529, -253),
    (10022, -3049, 2357),
    (10201, 1353, 1721),
    (10401, 23, -3239),
    (10433, 2740, -1770),
    (10501, 1993, -149),
    (10570, -609, -2213),
    (10701, 990, -4670),
    (10851, 1886, 4802),
    (11001, -913, 1259),
    (11141, 2186, 452),
    (11301, 4448, -614),
    (11520, -2935, -2845),
    (38401, 1349, 843),
    (38410, -754, -728),
    (38411, -1530, 540),
    (38538, -754, -728),
    (39224, 678, -1004),
    (39233, 2740, -1770),
    (39361, 1735, -2505),
    (39368, 1073, 2661),
    (39371, 956, -3358),
    (39508, -3589, 827),
    (39701, -2027, -5039),
    (48011, 3071, 197),
    (48148, -1530, 540),
    (48301, -3492, -2744),
    (48422, -484, 2312),
    (48601, -3630, -210),
    (48801, 23, -3239),
    (48833, 2740, -1770),
    (48901, 1993, -149),
    (48970, 1765, 2455),
    (49101, -2674, 332),
    (49251, 2295, 815),
    (49401, -3333, -2131),
    (49541, 4862, 234),
    (49701, -1166, -812),
    (49920, -1353, 4129),
];

// Samples of identity 301 in frame 6.
const FRAME: [(u32, i16, i16); 26] = [
    (0, 59, -27),
    (9, 70, -40),
    (10, 45, -22),
    (137, 70, -40),
    (823, -47, 7),
    (832, -109, 68),
    (960, -26, -83),
    (967, -27, 48),
    (970, 23, -22),
    (1107, 68, -22),
    (1300, 27, 54),
    (9610, 90, -45),
    (9747, 23, -45),
    (9900, -92, 23),
    (10021, 0, 0),
    (10200, 37, 122),
    (10400, -33, -36),
    (10432, -109, 68),
    (10500, -39, 68),
    (10569, 10, -172),
    (10700, 0, 6),
    (10850, -79, 56),
    (11000, -17, 118),
    (11140, 28, 45),
    (11300, -33, -8),
    (11519, 82, 19),
];

// Returns a typical SIB1, 163 bits long.
fn usual_block() -> Sib1 {
    let mut plmns = Plmns::new();
    plmns.push(Plmn {
        mcc: Some([2, 6, 2]),
        mnc: Mnc::Two([0, 1]),
        reserved: false,
    });
    let mut scheduling = Schedule::new();
    scheduling.push(message(0, &[]));
    scheduling.push(message(1, &[0]));
    scheduling.push(message(2, &[1]));
    scheduling.push(message(3, &[2, 3]));
    Sib1 {
        plmns,
        tac: 0x1234,
        cell: 0x123_4567,
        q_rx: -64,
        p_max: Some(23),
        band: 20,
        scheduling,
        window: 5,
        tag: 9,
        ..plain_block()
    }
}

// Returns the plain cell's plan.
fn plain_plan() -> CellPlan {
    CellPlan {
        identity: 0,
        duration: Duration::Normal,
        resource: Resource::One,
        spare: 0,
        cfi: 2,
        start: 0,
        blocks: 6,
        mcs: 4,
        column: 2,
        sib1: plain_block(),
    }
}

// Builds a plan's cell.
fn cell_of(plan: CellPlan) -> Result<Cell, CellError> {
    if plan.sib1.valid() {
        Cell::new(plan)
    } else {
        Err(CellError::Sib1Range)
    }
}

// Returns the error for which a plan is refused, if it is.
fn refusal(plan: CellPlan) -> Option<CellError> {
    cell_of(plan).err()
}

fn is_refused(plan: CellPlan, cause: CellError) -> bool {
    refusal(plan) == Some(cause)
}

fn is_accepted(plan: CellPlan) -> bool {
    refusal(plan) == None
}

// Returns the transmission behind `TURNED`: identity 503 from sample 19,199 of frame 1023.
fn turned() -> Result<Transmission, CellError>
    ensures { IfOk result (λ t. t.samples ≡ 57600) }
{
    let cell = cell_of(CellPlan {
        identity: 503,
        duration: Duration::Extended,
        resource: Resource::OneSixth,
        spare: 677,
        cfi: 3,
        start: 1,
        blocks: 5,
        mcs: 2,
        column: 3,
        sib1: plain_block(),
    })?;
    Ok(Transmission {
        cell,
        sfn: Sfn::modulo(1023),
        offset: 19_199,
        samples: 57_600,
        gain: (-11, 23),
    })
}

#[test]
fn refusals_by_numbers(rt: HostRuntime) {
    let identity = CellPlan {
        identity: 504,
        spare: 1024,
        ..plain_plan()
    };
    assert!(rt; is_refused(identity, CellError::Identity));
    let spare = CellPlan {
        spare: 1024,
        cfi: 1,
        ..plain_plan()
    };
    assert!(rt; is_refused(spare, CellError::Spare));
    let cfi = CellPlan {
        cfi: 1,
        blocks: 0,
        ..plain_plan()
    };
    assert!(rt; is_refused(cfi, CellError::Cfi));
    let assignment = CellPlan {
        start: 1,
        column: 4,
        ..plain_plan()
    };
    assert!(rt; is_refused(assignment, CellError::Assignment));
    let mcs = CellPlan {
        mcs: 17,
        column: 3,
        ..plain_plan()
    };
    assert!(rt; is_refused(mcs, CellError::Mcs));
    accepted_are_sendable();
}

// Returns the plain cell's plan with another MCS index, CFI and number of resource blocks.
fn sized_plan(mcs: u8, cfi: u8, blocks: u8) -> CellPlan {
    CellPlan {
        mcs,
        cfi,
        blocks,
        ..plain_plan()
    }
}

// Returns the plain cell's plan with K = 416, which sends 1,224 of its 1,260 coded bits.
fn punctured_plan(sib1: Sib1) -> CellPlan {
    CellPlan {
        mcs: 8,
        column: 3,
        sib1,
        ..plain_plan()
    }
}

#[test]
fn punctured_blocks_have_to_be_resolvable(rt: HostRuntime) {
    // A block of K = 400 has 1,212 coded bits, and 1,224 are sent. A block of K = 416 is resolvable although 36 coded
    // bits are not sent, and a block of K = 400 if only 1,080 are sent.
    assert!(rt; is_accepted(sized_plan(11, 2, 6)));
    assert!(rt; is_accepted(punctured_plan(plain_block())));
    assert!(rt; is_accepted(sized_plan(11, 3, 6)));
    // 204 coded bits cannot determine a block of 1,024 bits. With K = 320 and 540 coded bits from redundancy version 2,
    // the first iteration leaves 38 bits unresolved. All 38 bits are 0, so the hard decision passes the CRC before
    // every bit is settled.
    assert!(rt; is_refused(sized_plan(21, 2, 1), CellError::Punctured));
    assert!(rt; is_refused(sized_plan(9, 3, 3), CellError::Punctured));
}

#[test]
fn punctured_plans_without_a_block_are_punctured(rt: HostRuntime) {
    let duplex = punctured_plan(Sib1 {
        tdd: Some((1, 2)),
        ..plain_block()
    });
    assert!(rt; is_refused(duplex, CellError::Punctured));
    let extension = punctured_plan(Sib1 {
        extended: true,
        ..plain_block()
    });
    assert!(rt; is_refused(extension, CellError::Punctured));
    // A SIB1 of 113 bits in a block of 104; 360 of its 396 coded bits are sent.
    assert!(rt; is_refused(sized_plan(3, 3, 2), CellError::Punctured));
}

// Returns whether the plan is answered as its letter in `ANSWERS` says: accepted for `w` or `r`, refused as punctured
// for `p`, and refused as too long for `l`.
fn is_answer(cfi: u8, blocks: u8, column: u8, mcs: u8, letter: u8) -> bool {
    let plan = CellPlan {
        cfi,
        blocks,
        column,
        mcs,
        ..plain_plan()
    };
    match refusal(plan) {
        None => letter == b'w' || letter == b'r',
        Some(CellError::Punctured) => letter == b'p',
        Some(CellError::Sib1Long) => letter == b'l',
        _ => false,
    }
}

// Returns whether the answers for each MCS index, from 0, are `letters`.
fn are_answers(cfi: u8, blocks: u8, column: u8, letters: &str) -> bool {
    let mut all = true;
    let mut mcs = 0_u8;
    for letter in letters.bytes() {
        all &= is_answer(cfi, blocks, column, mcs, letter);
        mcs = mcs.saturating_add(1);
    }
    all
}

// Output of `python/lte_reference/punctured_table.py`: CFI, resource blocks, column and letters.
const ANSWERS: [(u8, u8, u8, &str); 24] = [
    (2, 1, 2, "lppppppppppppppppppppp"),
    (2, 2, 2, "llllrrrrpppppppppppppp"),
    (2, 3, 2, "llllwwwrrrrrpppppppppp"),
    (2, 4, 2, "llllwwwwrrrrrrpppppppp"),
    (2, 5, 2, "llllwwwwwwrrrrrrpppppp"),
    (2, 6, 2, "llllwwwwwwwwrrrrrprppp"),
    (2, 1, 3, "ppppppppppppppppp"),
    (2, 2, 3, "llrrprppppppppppp"),
    (2, 3, 3, "llwwrrrrppppppppp"),
    (2, 4, 3, "llwwwwrrrprpppppp"),
    (2, 5, 3, "llwwwwwrrrrrppppp"),
    (2, 6, 3, "llwwwwwwrrrrrrppp"),
    (3, 1, 2, "lppppppppppppppppppppp"),
    (3, 2, 2, "lllprrrppppppppppppppp"),
    (3, 3, 2, "llllwwrrrppppppppppppp"),
    (3, 4, 2, "llllwwwrrrrrrppppppppp"),
    (3, 5, 2, "llllwwwwwrrrrrpppppppp"),
    (3, 6, 2, "llllwwwwwwwrrrrrrppppp"),
    (3, 1, 3, "ppppppppppppppppp"),
    (3, 2, 3, "llrrrpppppppppppp"),
    (3, 3, 3, "llwrrrrpppppppppp"),
    (3, 4, 3, "llwwwrrrrpppppppp"),
    (3, 5, 3, "llwwwwwrrrrpppppp"),
    (3, 6, 3, "llwwwwwwrrrrrpppp"),
];

#[test]
fn answers_by_indicator_blocks_and_column(rt: HostRuntime) {
    for (cfi, blocks, column, letters) in ANSWERS {
        assert!(rt;
            are_answers(cfi, blocks, column, letters),
            "{cfi} {blocks} {column}"
        );
    }
}

#[test]
fn refusals_by_the_block(rt: HostRuntime) {
    let duplex = CellPlan {
        sib1: Sib1 {
            tdd: Some((1, 2)),
            extended: true,
            ..plain_block()
        },
        ..plain_plan()
    };
    assert!(rt; is_refused(duplex, CellError::Duplex));
    let extension = CellPlan {
        mcs: 0,
        sib1: Sib1 {
            extended: true,
            ..plain_block()
        },
        ..plain_plan()
    };
    assert!(rt; is_refused(extension, CellError::Extension));
}

// Returns whether a plan is accepted, and keeps MCS index `mcs`.
fn has_scheme(plan: CellPlan, mcs: u8) -> bool {
    match cell_of(plan) {
        Ok(cell) => cell.plan().mcs == mcs,
        Err(_) => false,
    }
}

// A SIB1 of 113 bits fits a transport block of 120 bits but not of 104; a SIB1 of 163 bits fits 176 but not 144.
#[test]
fn a_text_has_to_fit_its_block(rt: HostRuntime) {
    let long = CellPlan {
        mcs: 3,
        ..plain_plan()
    };
    assert!(rt; is_refused(long, CellError::Sib1Long));
    assert!(rt; is_accepted(plain_plan()));
    let usual = CellPlan {
        mcs: 5,
        sib1: usual_block(),
        ..plain_plan()
    };
    assert!(rt; is_refused(usual, CellError::Sib1Long));
    let fits = CellPlan {
        mcs: 6,
        sib1: usual_block(),
        ..plain_plan()
    };
    assert!(rt; has_scheme(fits, 6));
}

#[test]
fn samples_of_a_sequence(rt: HostRuntime) -> Result<(), Fail> {
    let cell = cell_of(plain_plan())?;
    assert!(rt; are_samples(&ROW, |i| Some(sample(&cell, Sfn::modulo(0), i as u64))));
    frames_stand();
    sent_is_clean();
    Ok(())
}

// Returns sample `i` of a transmission, or `None` past its end.
fn sent_at(transmission: &Transmission, i: u32) -> Option<Sample> {
    if i < transmission.samples {
        Some(send(transmission, i))
    } else {
        None
    }
}

#[test]
fn samples_of_a_transmission(rt: HostRuntime) -> Result<(), Fail> {
    let transmission = turned()?;
    assert!(rt; are_samples(&TURNED, |i| sent_at(&transmission, i)));
    sizes();
    Ok(())
}

#[test]
fn a_whole_frame(rt: HostRuntime) -> Result<(), Fail> {
    let cell = cell_of(CellPlan {
        identity: 301,
        resource: Resource::Two,
        spare: 1023,
        start: 2,
        blocks: 4,
        mcs: 6,
        sib1: usual_block(),
        ..plain_plan()
    })?;
    let mut out = silent(rt.alloc(), 19_200)?;
    frame(&cell, Sfn::modulo(6), &mut out);
    assert!(rt; are_samples(&FRAME, |i| out.get(i as usize).copied()));
    symbols_stand();
    Ok(())
}

#[test]
fn a_whole_transmission(rt: HostRuntime) -> Result<(), Fail> {
    let transmission = turned()?;
    let mut out = silent(rt.alloc(), 57_600)?;
    send_all(&transmission, &mut out);
    assert!(rt; are_samples(&TURNED, |i| out.get(i as usize).copied()));
    Ok(())
}
