// The expected samples and sums are from the reference implementation, `python/lte_reference/cell.py`.
use cell_json::{JsonError, read_by};
use cell_tx::{Cell, CellError, CellPlan, Emission, emit, sum_is_clean};
use lte_types::Carrier;
use sample_file::Recording;
use std::alloc::{AllocError, Global};
use std::test::Fail;
use test_support::{are_samples, description, has_sums, plain_block, silent};

// The cells of the sample tables, as changes of the plain cell's keys.
const TURNED_KEYS: &str =
    ", \"identity\": 503, \"sfn\": 1023, \"offset\": 19199, \"gain\": [-11, 23], \
    \"duration\": \"extended\", \"spare\": 677, \"resource\": \"oneSixth\", \"cfi\": 3, \"start\": 1, \"blocks\": 5, \
    \"mcs\": 2, \"column\": 3";

const TWO_PORTS_KEYS: &str =
    ", \"identity\": 302, \"sfn\": 1022, \"offset\": 9595, \"gain\": [-9, 12], \
    \"gain2\": [4, 11], \"spare\": 341, \"resource\": \"two\", \"mcs\": 5";

const FOUR_PORTS_KEYS: &str =
    ", \"identity\": 59, \"sfn\": 1022, \"offset\": 10000, \"gain\": [-5, 4], \
    \"gain2\": [6, -2], \"gain3\": [3, 7], \"gain4\": [-7, -1], \"duration\": \"extended\", \"spare\": 682, \
    \"resource\": \"oneSixth\"";

const LONG_PREFIX_KEYS: &str =
    ", \"identity\": 167, \"sfn\": 511, \"offset\": 18000, \"gain\": [5, -27], \
    \"duration\": \"extended\", \"spare\": 1023, \"resource\": \"half\"";

// Samples that `transmit --load 4294967295` writes, starting at sample 19,199 of frame 1023.
const LOADED: [(u32, i16, i16); 48] = [
    (0, -880, 5740),
    (1, -108, 3594),
    (874, 2695, 3465),
    (1035, -3887, -1209),
    (1387, -3587, 291),
    (9466, 2578, 3296),
    (9570, -1509, 1087),
    (9611, -1024, 782),
    (9767, 2616, 3512),
    (10079, 1696, 1122),
    (10576, -2118, 4074),
    (10978, -2823, 1589),
    (11096, 288, 1466),
    (12486, 751, -3343),
    (12494, -3088, 134),
    (13992, -592, -594),
    (14019, 4259, 3563),
    (15504, -2853, -6621),
    (15545, 4198, 86),
    (19200, -1169, 7467),
    (19201, 3492, 2094),
    (19894, 1733, -1319),
    (19953, -4407, -3549),
    (20105, 171, -4553),
    (20266, -1966, -912),
    (20618, -2453, 1229),
    (21397, 1125, -875),
    (21479, -3455, -1285),
    (36071, -2700, 1450),
    (36102, -684, 662),
    (37583, -1221, 1903),
    (37628, 1069, 5033),
    (38400, -178, 2204),
    (38401, -346, 1728),
    (41973, 1741, -863),
    (42036, 1239, 6923),
    (43476, 2157, -1201),
    (43562, 2033, 2131),
    (44987, -2668, 5224),
    (45087, 1655, 2685),
    (46499, -1513, 859),
    (46613, -1021, -1647),
    (48001, -2961, -427),
    (48011, 3611, 1727),
    (48167, 3938, 2816),
    (48479, 1038, -1934),
    (48976, -2517, -469),
    (57599, -3923, -5211),
];

const LOADED_SUMS: (i64, i64) = (-16_643_093, 301_783_149);

// Samples from `transmit --ports 2`.
const TWO_PORTS: [(u32, i16, i16); 49] = [
    (0, 0, 0),
    (5, -408, -994),
    (15, -1564, 695),
    (171, 370, -288),
    (281, 260, 3260),
    (363, -456, -718),
    (483, 140, -1143),
    (831, -819, 1842),
    (931, 186, 2352),
    (980, 1702, -442),
    (1107, -458, 2113),
    (1152, -2770, 4244),
    (1382, -1443, 2180),
    (1500, 1011, -1775),
    (1657, 4032, 1864),
    (1720, -3199, 1490),
    (9604, 0, 0),
    (9605, -613, 1605),
    (10478, 1155, 2310),
    (10639, -340, 1339),
    (10991, 1687, 317),
    (22090, -982, 82),
    (22098, 630, -745),
    (23596, 931, 117),
    (23623, 459, 272),
    (28804, 0, 0),
    (28805, -613, 1605),
    (29709, 624, -2607),
    (29870, -3405, 1536),
    (30222, 783, -363),
    (38415, -1924, 785),
    (38548, 1898, -1713),
    (38571, -93, 2029),
    (38589, 413, -348),
    (38823, -410, 867),
    (38883, 2675, -1891),
    (38937, 257, -570),
    (39098, -1209, -63),
    (39157, 597, 279),
    (39380, -670, 1018),
    (39640, 1726, -577),
    (39726, 1305, 3712),
    (40190, -4481, 1304),
    (40294, 352, 627),
    (45675, 479, 1457),
    (45706, -831, -750),
    (48004, 0, 0),
    (48005, -613, 1605),
    (57599, 0, 0),
];

const TWO_PORTS_SUMS: (i64, i64) = (-58_589_345, -45_713_193);

// Samples from `transmit --ports 2 --load 7`.
const LOADED_TWO_PORTS: [(u32, i16, i16); 49] = [
    (0, 462, -488),
    (5, -684, -616),
    (15, -329, 774),
    (171, 370, -288),
    (483, 140, -1143),
    (980, 1702, -442),
    (9604, -1387, -846),
    (9605, -139, 3983),
    (10478, 1155, 2310),
    (10639, -340, 1339),
    (10991, 1687, 317),
    (19070, -2685, 58),
    (19174, -1460, 66),
    (20582, 491, -458),
    (20700, 3882, 426),
    (22090, -3612, 381),
    (22098, 397, 885),
    (23596, 2718, -695),
    (23623, -240, -258),
    (25108, 1090, 753),
    (25149, -76, 151),
    (28804, 1828, -1308),
    (28805, -1338, 2883),
    (29498, 2400, -450),
    (29557, 2631, -1458),
    (29709, 624, -2607),
    (29870, -3405, 1536),
    (30222, 783, -363),
    (31001, -1138, -1828),
    (31083, 39, -1311),
    (38415, -1264, 1081),
    (38571, -93, 2029),
    (38883, 2675, -1891),
    (39380, -670, 1018),
    (45675, -106, 1988),
    (45706, -842, 582),
    (47187, 1119, 814),
    (47232, -4237, 599),
    (48004, 618, 2861),
    (48005, -1234, 2213),
    (51577, -451, -2013),
    (51640, -1546, 1435),
    (53080, -772, 37),
    (53166, -694, -1437),
    (54591, 154, -1589),
    (54691, -876, 677),
    (56103, -1115, 2199),
    (56217, 4639, 3363),
    (57599, -322, 2086),
];

const LOADED_TWO_PORTS_SUMS: (i64, i64) = (-68_603_635, -126_521_268);

// Samples from `transmit --ports 4`.
const FOUR_PORTS: [(u32, i16, i16); 54] = [
    (0, 0, 0),
    (1, 0, 0),
    (301, 207, 228),
    (479, 684, 281),
    (831, 205, -235),
    (8470, -363, -305),
    (9199, 0, 0),
    (9200, -259, -56),
    (9271, -93, -107),
    (9382, 6, -40),
    (9776, 272, -267),
    (9953, 95, 498),
    (10077, 694, -178),
    (10167, 419, -914),
    (10364, -724, 33),
    (10367, 506, -275),
    (10484, -389, -78),
    (10614, -611, -54),
    (10788, -212, -446),
    (16346, 0, 0),
    (19718, 621, 643),
    (27677, -228, -80),
    (28399, 0, 0),
    (28400, -259, -56),
    (28530, -167, 9),
    (28601, -586, -250),
    (28994, 416, 18),
    (29149, -28, 908),
    (29344, -829, -1),
    (29432, 99, 954),
    (29520, 2038, 821),
    (29574, -148, 93),
    (29636, 717, -643),
    (29846, 173, -123),
    (29988, -212, -446),
    (35546, 0, 0),
    (38816, 185, -107),
    (39171, 1033, 93),
    (46819, 355, 271),
    (47599, 0, 0),
    (47600, -259, -56),
    (47660, 183, -17),
    (47816, -238, -452),
    (48215, 390, 1012),
    (48297, 338, -295),
    (48443, 443, 113),
    (48572, 227, 944),
    (48769, -1199, 591),
    (48816, -583, -619),
    (48967, -772, 170),
    (49108, -226, -1054),
    (49229, -142, 72),
    (54746, 0, 0),
    (57599, 0, 0),
];

const FOUR_PORTS_SUMS: (i64, i64) = (-7_178_227, 15_066_153);

// Samples from `transmit --ports 4 --load 3735928559`.
const LOADED_FOUR_PORTS: [(u32, i16, i16); 58] = [
    (0, 1051, -69),
    (1, -1755, 102),
    (349, 145, 7),
    (520, 28, 281),
    (724, -24, -1041),
    (3270, 2404, -1453),
    (8441, -1467, 868),
    (9199, 386, -158),
    (9200, -241, 1376),
    (9272, -876, -301),
    (9384, 112, 2236),
    (9848, -424, -580),
    (9926, 170, -505),
    (10041, 263, -153),
    (10196, -730, 1302),
    (10330, -46, -1280),
    (10411, 294, 1332),
    (10468, 975, -780),
    (10572, 440, 846),
    (10710, -819, -275),
    (12405, -497, 67),
    (17755, 236, -771),
    (19940, -15, 938),
    (22412, 1299, -1106),
    (28399, 1666, 3149),
    (28400, -684, -154),
    (28451, -450, -1033),
    (28636, -2656, 1277),
    (29025, -189, -84),
    (29091, 304, -399),
    (29315, 694, -178),
    (29467, -40, 251),
    (29535, 292, 881),
    (29540, 290, -1558),
    (29702, -501, -161),
    (29788, -140, -686),
    (29993, -639, -1032),
    (31645, -1040, -1823),
    (36981, -356, -458),
    (38823, 263, -153),
    (39184, 657, -385),
    (41689, -766, 3125),
    (47599, 959, 159),
    (47600, 85, -1308),
    (47681, -2789, -1540),
    (47785, -976, 2427),
    (48272, 1941, 1134),
    (48406, 392, 80),
    (48468, -452, 788),
    (48575, -19, 861),
    (48703, -592, -56),
    (48763, -864, -762),
    (48926, 1309, 238),
    (49075, -147, -6),
    (49113, 535, -1312),
    (50805, -2201, -1086),
    (56133, -391, 459),
    (57599, -903, 727),
];

const LOADED_FOUR_PORTS_SUMS: (i64, i64) = (67_027_000, -28_913_513);

// Samples from `transmit --prefix long`.
const LONG_PREFIX: [(u32, i16, i16); 45] = [
    (0, 0, 0),
    (1199, 0, 0),
    (1200, -1100, -846),
    (1860, -2023, -1743),
    (1892, 662, -408),
    (2050, 1376, 3578),
    (2233, 2616, -2364),
    (2323, 1310, -4058),
    (2355, -1999, -63),
    (2782, 1821, 1175),
    (2818, 0, 0),
    (2946, 0, 0),
    (10832, -704, 484),
    (10965, 0, 0),
    (11011, 0, 0),
    (11029, 0, 0),
    (11369, -61, -123),
    (11906, -263, -691),
    (20399, 0, 0),
    (20400, -1100, -846),
    (20730, 0, 0),
    (20826, 0, 0),
    (21281, 133, -3885),
    (21464, -92, -408),
    (21688, 5963, -683),
    (21752, -1804, -2624),
    (21885, 6066, 2380),
    (30825, 3354, -2730),
    (30889, -171, 2733),
    (31783, 0, 0),
    (31815, 0, 0),
    (39599, 0, 0),
    (39600, -1100, -846),
    (44893, 1061, -1507),
    (44989, -190, -1236),
    (46350, -700, 10),
    (46446, 403, -65),
    (47775, 1515, -641),
    (47903, 1515, -641),
    (49200, 511, 709),
    (49232, -704, 484),
    (49411, 0, 0),
    (49769, -61, -123),
    (50306, -263, -691),
    (57599, 0, 0),
];

const LONG_PREFIX_SUMS: (i64, i64) = (-62_057_946, 84_992_560);

// Samples from `transmit --prefix long --load 2863311530`.
const LOADED_LONG_PREFIX: [(u32, i16, i16); 45] = [
    (0, -3407, -4373),
    (1199, -2725, 3405),
    (1200, -3809, 3679),
    (2050, 1376, 3578),
    (2233, 1452, -904),
    (2782, -101, 1601),
    (10832, 621, 115),
    (11011, 5509, -3811),
    (11369, 1079, 507),
    (11906, -230, -2528),
    (12418, -2649, 431),
    (12546, -2649, 431),
    (13843, 1803, 669),
    (13875, 3669, 4617),
    (15300, 4348, 4268),
    (15332, -2286, 2090),
    (16725, 2048, -5178),
    (16789, 2975, 1277),
    (20399, -1431, 489),
    (20400, -1469, -2171),
    (21225, 3354, -2730),
    (21281, 133, -3885),
    (21289, -171, 2733),
    (21464, -299, -195),
    (21885, 4508, 3404),
    (22650, -1749, 849),
    (22746, -1880, 1858),
    (37543, 1489, 5833),
    (37575, -1828, -534),
    (38968, -2416, 530),
    (39032, -1099, -1907),
    (39599, -668, -5290),
    (39600, 3870, -540),
    (44893, -913, -1705),
    (44989, 1936, -200),
    (46350, -4103, -2575),
    (46446, 234, 1300),
    (47775, -5139, 4075),
    (47903, -5139, 4075),
    (49200, 2176, -1496),
    (49232, -1440, 990),
    (49411, -681, -2807),
    (49769, -1137, 2219),
    (50306, -684, -1886),
    (57599, 3758, -840),
];

const LOADED_LONG_PREFIX_SUMS: (i64, i64) = (-164_475_309, 64_888_093);

// A parsed description, or the error for which it is refused.
type Answer = Result<Emission, JsonError>;

// Parses the plain description with `change`, under a transmission scheme.
fn answer(alloc: Global, carrier: Carrier, change: &str) -> Result<Answer, AllocError> {
    let text = description(alloc, change, "")?;
    Ok(read_by(alloc, carrier, text.as_bytes()))
}

// Returns whether a row's description is refused for the row's error, under the row's transmission scheme.
fn is_refused(alloc: Global, row: (Carrier, &str, CellError)) -> Result<bool, AllocError> {
    let (carrier, change, cause) = row;
    Ok(answer(alloc, carrier, change)?.err() == Some(JsonError::Cell(cause)))
}

// Returns the samples of a described cell under a transmission scheme, with or without a load.
fn sent(
    alloc: Global,
    carrier: Carrier,
    load: Option<u32>,
    change: &str,
) -> Result<Recording, Fail> {
    let mut emission = answer(alloc, carrier, change)??;
    emission.load = load;
    let mut samples = silent(alloc, emission.samples as usize)?;
    emit(&emission, &mut samples);
    let recording = Recording::new(samples).ok_or("30 ms")?;
    Ok(recording)
}

// Returns whether a recording has the samples in `rows`, and the weighted component sums `sums`.
fn holds(recording: &Recording, rows: &[(u32, i16, i16)], sums: (i64, i64)) -> bool {
    let samples = recording.as_slice();
    are_samples(rows, |i| samples.get(i as usize).copied()) && has_sums(recording, sums)
}

#[test]
fn one_port_with_load(rt: HostRuntime) -> Result<(), Fail> {
    let loaded = sent(
        rt.alloc(),
        Carrier::OnePort,
        Some(4_294_967_295),
        TURNED_KEYS,
    )?;
    assert!(rt; holds(&loaded, &LOADED, LOADED_SUMS));
    Ok(())
}

#[test]
fn two_ports_without_and_with_load(rt: HostRuntime) -> Result<(), Fail> {
    let plain = sent(rt.alloc(), Carrier::TwoPorts, None, TWO_PORTS_KEYS)?;
    assert!(rt; holds(&plain, &TWO_PORTS, TWO_PORTS_SUMS));
    let loaded = sent(rt.alloc(), Carrier::TwoPorts, Some(7), TWO_PORTS_KEYS)?;
    assert!(rt; holds(&loaded, &LOADED_TWO_PORTS, LOADED_TWO_PORTS_SUMS));
    sum_is_clean();
    Ok(())
}

#[test]
fn four_ports(rt: HostRuntime) -> Result<(), Fail> {
    let plain = sent(rt.alloc(), Carrier::FourPorts, None, FOUR_PORTS_KEYS)?;
    assert!(rt; holds(&plain, &FOUR_PORTS, FOUR_PORTS_SUMS));
    Ok(())
}

#[test]
fn four_ports_with_load(rt: HostRuntime) -> Result<(), Fail> {
    let load = Some(3_735_928_559);
    let loaded = sent(rt.alloc(), Carrier::FourPorts, load, FOUR_PORTS_KEYS)?;
    assert!(rt; holds(&loaded, &LOADED_FOUR_PORTS, LOADED_FOUR_PORTS_SUMS));
    Ok(())
}

#[test]
fn the_extended_prefix_without_and_with_load(rt: HostRuntime) -> Result<(), Fail> {
    let (carrier, load) = (Carrier::LongPrefix, Some(2_863_311_530));
    let plain = sent(rt.alloc(), carrier, None, LONG_PREFIX_KEYS)?;
    assert!(rt; holds(&plain, &LONG_PREFIX, LONG_PREFIX_SUMS));
    let loaded = sent(rt.alloc(), carrier, load, LONG_PREFIX_KEYS)?;
    assert!(rt; holds(&loaded, &LOADED_LONG_PREFIX, LOADED_LONG_PREFIX_SUMS));
    Ok(())
}

// Gains of the second, third and fourth antenna port.
const THREE_GAINS: &str = ", \"gain2\": [0, 1], \"gain3\": [-1, 0], \"gain4\": [0, -1]";

// Descriptions that a transmission scheme refuses. The gain of a further port is a key only if the scheme has that
// port, and no gain may exceed the limit for a clean recording.
const REFUSALS: [(Carrier, &str, CellError); 19] = [
    (Carrier::OnePort, ", \"gain2\": [1, 0]", CellError::Form),
    (Carrier::LongPrefix, ", \"gain2\": [1, 0]", CellError::Form),
    (Carrier::OnePort, THREE_GAINS, CellError::Form),
    (Carrier::TwoPorts, THREE_GAINS, CellError::Form),
    (Carrier::FourPorts, "", CellError::Form),
    (
        Carrier::FourPorts,
        ", \"gain2\": [1, 0], \"gain3\": [1, 0]",
        CellError::Form,
    ),
    (
        Carrier::FourPorts,
        ", \"gain2\": [1, 0], \"gain3\": [1, 0], \"gain4\": [1, 0, 0]",
        CellError::Form,
    ),
    (
        Carrier::FourPorts,
        ", \"gain2\": [10, 0], \"gain3\": [8, 0], \"gain4\": [4, 4]",
        CellError::Gain,
    ),
    (
        Carrier::FourPorts,
        ", \"gain\": [0, 0], \"gain2\": [1, 0], \"gain3\": [1, 0], \"gain4\": [1, 0]",
        CellError::Gain,
    ),
    (
        Carrier::FourPorts,
        ", \"gain2\": [0, 0], \"gain3\": [0, 0], \"gain4\": [0, -9223372036854775808]",
        CellError::Gain,
    ),
    (
        Carrier::FourPorts,
        ", \"gain2\": [1, 0], \"gain3\": [1, 0], \"gain4\": [1, 0], \"mcs\": 21, \"blocks\": 1",
        CellError::Punctured,
    ),
    (Carrier::TwoPorts, "", CellError::Form),
    (Carrier::TwoPorts, ", \"gain2\": [1]", CellError::Form),
    (Carrier::TwoPorts, ", \"gain2\": [0, 20]", CellError::Gain),
    (
        Carrier::TwoPorts,
        ", \"gain\": [14, 14], \"gain2\": [1, 0]",
        CellError::Gain,
    ),
    (
        Carrier::TwoPorts,
        ", \"gain\": [0, 0], \"gain2\": [1, 0]",
        CellError::Gain,
    ),
    (
        Carrier::TwoPorts,
        ", \"gain\": [-9223372036854775808, -9223372036854775808], \"gain2\": [-9223372036854775808, -9223372036854775808]",
        CellError::Gain,
    ),
    (
        Carrier::TwoPorts,
        ", \"gain2\": [1, 0], \"mcs\": 11",
        CellError::Punctured,
    ),
    (
        Carrier::LongPrefix,
        ", \"mcs\": 21, \"blocks\": 1",
        CellError::Punctured,
    ),
];

#[test]
fn descriptions_that_a_carrier_does_not_send(rt: HostRuntime) -> Result<(), Fail> {
    for row in REFUSALS {
        assert!(rt; is_refused(rt.alloc(), row)?);
    }
    Ok(())
}

#[test]
fn gains_of_four_ports_at_their_greatest(rt: HostRuntime) -> Result<(), Fail> {
    let equal = ", \"gain\": [-7, 0], \"gain2\": [0, 7], \"gain3\": [7, 0], \"gain4\": [0, -7]";
    assert!(rt; answer(rt.alloc(), Carrier::FourPorts, equal)?.is_ok());
    let first = ", \"gain\": [14, 0], \"gain2\": [0, 0], \"gain3\": [0, 0], \"gain4\": [0, 0]";
    assert!(rt; answer(rt.alloc(), Carrier::FourPorts, first)?.is_ok());
    let last = ", \"gain\": [-1, 0], \"gain2\": [0, 0], \"gain3\": [0, 1], \"gain4\": [-13, 5]";
    assert!(rt; answer(rt.alloc(), Carrier::FourPorts, last)?.is_ok());
    Ok(())
}

#[test]
fn gains_of_both_ports_at_their_greatest(rt: HostRuntime) -> Result<(), Fail> {
    let both = ", \"gain\": [-14, 0], \"gain2\": [0, 14]";
    assert!(rt; answer(rt.alloc(), Carrier::TwoPorts, both)?.is_ok());
    let first = ", \"gain\": [14, 14], \"gain2\": [0, 0]";
    assert!(rt; answer(rt.alloc(), Carrier::TwoPorts, first)?.is_ok());
    Ok(())
}

// Returns why a transmission scheme refuses a plan with the plain SIB1, if it does.
fn refusal(carrier: Carrier, mcs: u8, blocks: u8) -> Option<CellError> {
    let plan = CellPlan {
        identity: 0,
        duration: lte_types::Duration::Normal,
        resource: lte_types::Resource::One,
        spare: 0,
        cfi: 2,
        start: 0,
        blocks,
        mcs,
        column: 2,
        sib1: plain_block(),
    };
    if plan.sib1.valid() {
        Cell::of(carrier, plan).err()
    } else {
        None
    }
}

#[test]
fn two_ports_leave_less_room(rt: HostRuntime) {
    // A transport block of 376 bits has 1,212 coded bits. Six resource blocks carry 1,224 bits with one port, and 1,152
    // with two.
    assert!(rt; refusal(Carrier::OnePort, 11, 6) == None);
    assert!(rt; refusal(Carrier::LongPrefix, 11, 6) == None);
    assert!(rt; refusal(Carrier::FourPorts, 11, 6) == None);
    assert!(rt; refusal(Carrier::TwoPorts, 11, 6) == Some(CellError::Punctured));
    assert!(rt; refusal(Carrier::TwoPorts, 10, 6) == None);
}
