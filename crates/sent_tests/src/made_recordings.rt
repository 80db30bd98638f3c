// The expected numbers are from the reference implementation, `python/lte_reference/make.py`. The generator's first
// outputs are from PCG's reference code.
use capture_make::{made_is_clean, make};
use rand_core::utils::NextWord;
use rand_pcg::Lcg64Xsh32;
use std::alloc::{AllocError, Global};
use std::test::Fail;
use test_support::{Summary, is_summed_up};

#[test]
fn the_generator_gives_the_reference_words(rt: HostRuntime) {
    let mut words = Lcg64Xsh32::new(42, 54);
    for word in [
        0xa15c_02b7,
        0x7b47_f409,
        0xba1d_3330,
        0x83d2_f293,
        0xbfa4_784b,
        0xcbed_606e,
    ] {
        assert!(rt; words.next_word() == word);
    }
}

// Returns whether synthetic recording `n` has the given noise bound and summary.
fn is_made(alloc: Global, n: u32, bound: i16, summary: &Summary) -> Result<bool, AllocError> {
    let made = make(alloc, n)?;
    Ok(made.bound == bound && is_summed_up(&made.recording, summary))
}

// Synthetic recordings: number, noise bound and summary.
const MADE: [(u32, i16, Summary); 3] = [
    (
        0,
        2,
        Summary {
            count: 192_000,
            front: [(-99, 130), (8, 49), (-8, -20), (-79, 6)],
            sums: [-18_788, 17_625, -9_972_807, 11_997_076],
        },
    ),
    (
        7,
        21,
        Summary {
            count: 326_400,
            front: [(253, -569), (1269, -23), (812, 476), (-181, 203)],
            sums: [192_959, -37_286, 50_607_859, 12_638_627],
        },
    ),
    (
        4_294_967_221,
        16,
        Summary {
            count: 211_200,
            front: [(9, -15), (9, -13), (-5, -5), (-7, 3)],
            sums: [76_653, -104_939, 63_929_638, -82_101_710],
        },
    ),
];

#[test]
fn recordings_by_number(rt: HostRuntime) -> Result<(), Fail> {
    made_is_clean();
    for (n, bound, summary) in MADE {
        assert!(rt; is_made(rt.alloc(), n, bound, &summary)?, "number {n}");
    }
    Ok(())
}
