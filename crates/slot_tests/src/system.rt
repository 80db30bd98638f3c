ghost use Rattle.std.specs.Prelude.{◌≡◌};

use crate::control::mib_of;
use crate::seen::{SlotRows, subframe_of};
use dci::Grant;
use lte_types::{Duration, Resource, Sib1Reason};
use sib1_reader::{Attempt, Decoders, attempt_in, decoded_in, one_answer, read};
use soft_bits::Slot;
use std::process::Abort;
use std::test::Fail;
use test_support::{EMPTY, Rows};

// Instances of slots 10 and 11 with system information, from `python/lte_reference/subframe.py`.

// Symbols 0 to 2 of slot 10.
type ControlRows = [&'static [u8; 72]; 3];

// Symbols 3 and 4 of slot 10, and all of slot 11.
type BlockRows = [&'static [u8; 72]; 9];

// Identity 0, CFI 2, PHICH duration normal and resource one; SIB1 in all six resource blocks.
const PLAIN_CONTROL: ControlRows = [
    b"020.111.....120.31332.003.....213.02211.32021.111.....230.30033.33130.11",
    b"0313131123113130....2210320133112132....01203100101003121102100130013121",
    b"301301022230100232000121....233132021023302121030311....222101123011....",
];

const PLAIN_BLOCK: BlockRows = [
    b"133203023213122031212230032112000000302113322213111211022202020210212131",
    b"230303121030301111322213103111110322321311210331323220330020221210112010",
    b"212133001033030323002231012112212013031111031032013000231320300301031100",
    b"003023013220220011233211001301303233333120302222210000121122322112132320",
    b"212000021113310010112331330130130003100312332323110132203003230213320220",
    b"303030310123210231012003120210001120233100021033123300101332233013220220",
    b"003110201321230210021210033213322023131120231223000311003231322100131221",
    b"112232002222100131001030313321131210002001202123213330132203103321311310",
    b"202033130030302301222120001120300212102233130103011312111031220030133132",
];

// Identity 503, CFI 3, PHICH duration extended and resource two; redundancy version 2 in resource blocks 1 to 5.
const FULL_10: Rows = [
    b".....123.33122.311.....201.33223.020.....310.13303.31133.000.....023.021",
    b"....................32030303201112212031....33123203....3023203322032132",
    b"120233110032........220332233231....................2122....33011121....",
    b"31130212111331200031............21003321103330301121....0132........0211",
    b"..2.....1...123300202230320030032320110010300032212020100010101202111313",
];

const FULL_11: SlotRows = [
    b".....2.....1333130101303233132301031003211100113201103002301120320201320",
    b"............213313203323313231133003003010123121330323231032320211200020",
    b"............223011131233223133030302031000331010113112303232130001330000",
    b"............113213232202322232032231110230312033222020300233121221302203",
    b"..0.....3...312211022021113313301331321010122332231213232000300103013121",
    b"............002121000121133230202333300113020023130030220312231012310101",
    b"............102230313022022333020013302321100122300130213133213102032330",
];

// A slot with CFI 1 and no PDCCH.
const ONE_SYMBOL: ControlRows = [
    b"011.321.....1.....320.313.....2.....232.200.....1.....201.130.....1.....",
    EMPTY,
    EMPTY,
];

// A DCI message whose CRC is not masked with the SI-RNTI.
const NO_CHECK: ControlRows = [
    b"020.111.....112.13332.003.....211.00211.32003.001.....230.30033.13110.31",
    b"0132321001222021....3202222120003030....22113000310023020030310020230020",
    b"313102200033122112311032....323010202033322330012112....003011002000....",
];

// A DCI message whose flag selects format 0.
const ANOTHER_FORMAT: ControlRows = [
    b"020.111.....100.13332.003.....212.20211.32023.311.....230.30033.31102.13",
    b"0332132021232021....3210321323002030....20003110321023130132300121011130",
    b"301103000030102132010032....123110202322302130120332....000200003011....",
];

// A DCI message with a distributed assignment.
const DISTRIBUTED: ControlRows = [
    b"020.111.....132.31332.003.....201.22211.32003.201.....230.30033.33112.13",
    b"1133100123221131....2202332330111032....20303100330003120120102121230021",
    b"200300222233100130020132....033002022122312130022110....002311113211....",
];

// A DCI message with resource indication value 21.
const VALUE_21: ControlRows = [
    b"020.111.....112.13332.003.....200.23211.32031.111.....230.30003.13102.03",
    b"0130102101202000....3311133320003020....23101000101011020010323110012101",
    b"201102202010122130011033....222130300320210023012211....323103121313....",
];

// A DCI message with MCS index 27.
const SCHEME_27: ControlRows = [
    b"020.111.....100.32332.003.....203.02211.32031.131.....230.30032.30130.03",
    b"0323311113310230....1001030103102013....03233313103103333003223110113313",
    b"030113023132230001233331....201001221020010020011220....203122311312....",
];

// A DCI message with MCS index 22, which has no transport block size in column 2.
const SCHEME_22: ControlRows = [
    b"020.111.....102.01332.003.....201.00211.32000.011.....230.30023.02111.01",
    b"1222101011201100....2312332102030211....02321022011121003021123332212000",
    b"100313210211332122021233....332122100001211130032013....002013031331....",
];

// A transport block with the last bit of its CRC inverted.
const BAD_CHECK: BlockRows = [
    b"133203023213122031212230032112000000302113322213111211022203020210212313",
    b"030301103030101133100213123133110302303323230311103220112020201230332030",
    b"210111021231020123022213032310210213031311013232033220211200322101033111",
    b"003122302320230110232310101301303233333120302222210000121122322112132320",
    b"212000021113310011112331330312330023320332310101110330003023212133122202",
    b"303212310321232211032221100000201320011120223233121302321312013212022000",
    b"001111301320223201121211023203333022031120231223000311003231322100131221",
    b"112232002222100131001030313321131211002001202301013310312223121103311112",
    b"002013112310100323222302001322322232122011110313211112333011022230131130",
];

// A message that is not SIB1: bits 0 and 1 are 0.
const OTHER_MESSAGE: BlockRows = [
    b"123203022211122031212220032313002000202111302333110211002003020230212322",
    b"320320012030111121011233313113012331312321000310032210213030203200121022",
    b"211120002012023201023021032220221320013303022022023011223330333031010132",
    b"223112301122232233131320321300313233332122302222210010121323320112032322",
    b"232120020113330211112311330323020232230333302010312032013210203111222311",
    b"233113210302213103022133222303123332331133212300301221200302222133323113",
    b"022113023320123202323211211230303012211120330223000310001231322100131231",
    b"112033000222000133021110312321111011002021202330303101202222133012113210",
    b"012220103332200230312003101301303120132303232010133100013002013303311013",
];

// A SIB1 whose country code has 11 as its first digit.
const DIGIT_11: BlockRows = [
    b"121223023211122031210230112312000000302311302213311211022003020210312113",
    b"210323123013303111320233121131130300121311212331103222110022031210322030",
    b"232113001033010303002233012311210223033231011332011102213322300103010110",
    b"112022212332220011321301101300311213333122302222212000001322322112132122",
    b"232000221113310211112331230112110203122012132321310310201021030213300202",
    b"301210332023233211212203120230021120213120323203100102131330331233200200",
    b"222111210331222211133210033212203033031120330203200311001231322100111221",
    b"032032002222100333021030113321131011002001302101233130110103303323111132",
    b"200011330030322323220300023020323232302033130123031312131011122200110330",
];

// Returns slots 10 and 11 with the symbols in `control` and `block`, for identity 0.
fn slots_of(rt: &impl Abort, control: ControlRows, block: BlockRows) -> (Slot, Slot)
    ensures first { result.0.number ≡ 10 }
    ensures second { result.1.number ≡ 11 }
    ensures cell { result.1.identity ≡ result.0.identity }
{
    let first = [control[0], control[1], control[2], block[0], block[1]];
    let second = [
        block[2], block[3], block[4], block[5], block[6], block[7], block[8],
    ];
    subframe_of(rt, 0, first, second)
}

// Returns the reason why slots 10 and 11 have no system information, if there is one.
fn reason_of(
    rt: &impl Abort,
    work: &mut Decoders,
    control: ControlRows,
    block: BlockRows,
) -> Option<Sib1Reason> {
    let (first, second) = slots_of(rt, control, block);
    let mib = mib_of(rt, Duration::Normal, Resource::One);
    read(&first, &second, mib, work).err()
}

// Returns whether an attempt decoded CFI `cfi` and the grant `granted`.
fn has_grant(attempt: &Attempt, cfi: u8, granted: Grant) -> bool {
    attempt.cfi.value() == cfi && attempt.grant == Some(granted)
}

// Returns whether an attempt decoded the plain SIB1.
fn reads_plain_block(attempt: &Attempt) -> bool {
    match &attempt.answer {
        Ok(fields) => {
            fields.tac == 1
                && fields.cell == 1
                && fields.q_rx == -70
                && fields.band == 1
                && fields.window == 0
                && fields.tag == 0
                && fields.tdd == None
        }
        Err(_) => false,
    }
}

// Returns whether an attempt decoded the full SIB1.
fn reads_full_block(attempt: &Attempt) -> bool {
    match &attempt.answer {
        Ok(fields) => {
            fields.tac == 0x1a2b
                && fields.cell == 0x0abcdef
                && fields.q_rx == -61
                && fields.p_max == Some(-30)
                && fields.tdd == Some((6, 8))
                && fields.plmns.slice().len() == 2
                && fields.scheduling.slice().len() == 2
        }
        Err(_) => false,
    }
}

// The grants of the plain SIB1 and, with redundancy version 2 in resource blocks 1 to 5, of the full SIB1.
const PLAIN_GRANT: Grant = Grant {
    start: 0,
    blocks: 6,
    mcs: 4,
    column: 2,
    rv: 0,
    size: 120,
};

const FULL_GRANT: Grant = Grant {
    start: 1,
    blocks: 5,
    mcs: 5,
    column: 3,
    rv: 2,
    size: 224,
};

// The bytes of the plain SIB1's transport block.
const PLAIN_BYTES: [u8; 15] = [
    0x40, 0x40, 0x04, 0x03, 0x00, 0x01, 0x00, 0x00, 0x00, 0x18, 0x00, 0x00, 0x00, 0x00, 0x00,
];

// Returns whether `block` has the bits of `bytes`, the highest bit of each byte first.
fn has_bytes(block: &[bool], bytes: &[u8; 15]) -> bool {
    for i in 0..120 {
        let bit = bytes[i / 8] >> (7 - i % 8) & 1 == 1;
        if block.get(i) != Some(&bit) {
            return false;
        }
    }
    block.len() == 120
}

#[test]
fn the_block_of_the_fields_is_kept(rt: HostRuntime) -> Result<(), Fail> {
    let mut work = Decoders::new(rt.alloc())?;
    let mib = mib_of(&rt, Duration::Normal, Resource::One);
    let (first, second) = slots_of(&rt, PLAIN_CONTROL, PLAIN_BLOCK);
    let decoded = decoded_in(&first, &second, mib, &mut work);
    assert!(rt; has_bytes(decoded.block.as_slice(), &PLAIN_BYTES));
    let (first, second) = slots_of(&rt, PLAIN_CONTROL, OTHER_MESSAGE);
    let decoded = decoded_in(&first, &second, mib, &mut work);
    assert!(rt; decoded.block.is_empty());
    Ok(())
}

#[test]
fn the_fields_are_read(rt: HostRuntime) -> Result<(), Fail> {
    let mut work = Decoders::new(rt.alloc())?;
    let (first, second) = slots_of(&rt, PLAIN_CONTROL, PLAIN_BLOCK);
    let mib = mib_of(&rt, Duration::Normal, Resource::One);
    let attempt = attempt_in(&first, &second, mib, &mut work);
    assert!(rt; has_grant(&attempt, 2, PLAIN_GRANT));
    assert!(rt; reads_plain_block(&attempt));
    let (first, second) = subframe_of(&rt, 503, FULL_10, FULL_11);
    let mib = mib_of(&rt, Duration::Extended, Resource::Two);
    let attempt = attempt_in(&first, &second, mib, &mut work);
    assert!(rt; has_grant(&attempt, 3, FULL_GRANT));
    assert!(rt; reads_full_block(&attempt));
    one_answer();
    Ok(())
}

#[test]
fn refusals_of_the_control_information(rt: HostRuntime) -> Result<(), Fail> {
    let mut work = Decoders::new(rt.alloc())?;
    for (control, reason) in [
        (ONE_SYMBOL, Sib1Reason::NoSearchSpace(2)),
        (NO_CHECK, Sib1Reason::NoControl),
        (ANOTHER_FORMAT, Sib1Reason::NotFormat1A),
        (DISTRIBUTED, Sib1Reason::Distributed),
        (VALUE_21, Sib1Reason::BadRiv(21)),
        (SCHEME_27, Sib1Reason::ReservedMcs(27)),
        (SCHEME_22, Sib1Reason::BlockTooLarge),
    ] {
        assert!(rt; reason_of(&rt, &mut work, control, PLAIN_BLOCK) == Some(reason));
    }
    Ok(())
}

#[test]
fn refusals_of_the_block(rt: HostRuntime) -> Result<(), Fail> {
    let mut work = Decoders::new(rt.alloc())?;
    for (block, reason) in [
        (PLAIN_BLOCK, None),
        (BAD_CHECK, Some(Sib1Reason::NotDecoded)),
        (OTHER_MESSAGE, Some(Sib1Reason::NotSib1)),
        (DIGIT_11, Some(Sib1Reason::BadFields(10))),
    ] {
        assert!(rt; reason_of(&rt, &mut work, PLAIN_CONTROL, block) == reason);
    }
    Ok(())
}
