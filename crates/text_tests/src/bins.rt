ghost use Rattle.std.specs.Prelude.{◌≡◌};

use loglinear_bins::{Bins, MAX_COUNT, bin_of};
use stat_defs::{Bin, BinCount, Bound};
use std::alloc::Global;
use std::process::Abort;
use std::test::Fail;

/// Values with their first two digits and exponents: each power of ten with its neighbours, and some others.
static BINS: [(u64, u8, i8); 65] = [
    (0, 0, 0),
    (1, 10, 0),
    (7, 70, 0),
    (9, 90, 0),
    (10, 10, 1),
    (11, 11, 1),
    (99, 99, 1),
    (100, 10, 2),
    (101, 10, 2),
    (999, 99, 2),
    (1_000, 10, 3),
    (1_001, 10, 3),
    (9_999, 99, 3),
    (10_000, 10, 4),
    (10_001, 10, 4),
    (99_999, 99, 4),
    (100_000, 10, 5),
    (100_001, 10, 5),
    (999_999, 99, 5),
    (1_000_000, 10, 6),
    (1_000_001, 10, 6),
    (9_999_999, 99, 6),
    (10_000_000, 10, 7),
    (10_000_001, 10, 7),
    (99_999_999, 99, 7),
    (100_000_000, 10, 8),
    (100_000_001, 10, 8),
    (999_999_999, 99, 8),
    (1_000_000_000, 10, 9),
    (1_000_000_001, 10, 9),
    (9_999_999_999, 99, 9),
    (10_000_000_000, 10, 10),
    (10_000_000_001, 10, 10),
    (99_999_999_999, 99, 10),
    (100_000_000_000, 10, 11),
    (100_000_000_001, 10, 11),
    (999_999_999_999, 99, 11),
    (1_000_000_000_000, 10, 12),
    (1_000_000_000_001, 10, 12),
    (9_999_999_999_999, 99, 12),
    (10_000_000_000_000, 10, 13),
    (10_000_000_000_001, 10, 13),
    (99_999_999_999_999, 99, 13),
    (100_000_000_000_000, 10, 14),
    (100_000_000_000_001, 10, 14),
    (999_999_999_999_999, 99, 14),
    (1_000_000_000_000_000, 10, 15),
    (1_000_000_000_000_001, 10, 15),
    (9_999_999_999_999_999, 99, 15),
    (10_000_000_000_000_000, 10, 16),
    (10_000_000_000_000_001, 10, 16),
    (99_999_999_999_999_999, 99, 16),
    (100_000_000_000_000_000, 10, 17),
    (100_000_000_000_000_001, 10, 17),
    (999_999_999_999_999_999, 99, 17),
    (1_000_000_000_000_000_000, 10, 18),
    (1_000_000_000_000_000_001, 10, 18),
    (9_999_999_999_999_999_999, 99, 18),
    (10_000_000_000_000_000_000, 10, 19),
    (10_000_000_000_000_000_001, 10, 19),
    (109, 10, 2),
    (110, 11, 2),
    (12_345, 12, 4),
    (18_446_744_073_709_551_614, 18, 19),
    (18_446_744_073_709_551_615, 18, 19),
];

#[test]
fn bins_of_values(rt: HostRuntime) {
    for (v, val, exp) in &BINS {
        assert_eq!(rt;
            bin_of(*v),
            Bin {
                val: *val,
                exp: *exp
            },
            "at {v}"
        );
    }
}

/// Records the values from `first` to `last`.
fn record_all(rt: &impl Abort, bins: &mut Bins, first: u64, last: u64) {
    for v in first..=last {
        assert!(rt; bins.count() < MAX_COUNT);
        bins.record(v);
    }
}

fn bin_count(val: u8, exp: i8, count: u64) -> BinCount
    ensures { result ≡ record { bin = record { val = val; exp = exp }; count = count } }
{
    BinCount {
        bin: Bin { val, exp },
        count,
    }
}

#[test]
fn three_values(rt: HostRuntime) -> Result<(), Fail> {
    let mut bins = Bins::new(rt.alloc())?;
    assert_eq!(rt; bins.quantile(500), None);
    record_all(&rt, &mut bins, 7, 7);
    record_all(&rt, &mut bins, 7, 7);
    record_all(&rt, &mut bins, 100, 100);
    assert_eq!(rt; bins.count(), 3);
    assert_eq!(rt; bins.at_most(Bound { halves: 20 }), 2);
    assert_eq!(rt; bins.sum_twentieths(), 2_382);
    assert_eq!(rt; bins.quantile(500), Some(7_100));
    let pairs = bins.pairs(rt.alloc())?;
    let expected = [bin_count(70, 0, 2), bin_count(10, 2, 1)];
    assert_eq!(rt; pairs.items(), expected.as_slice());
    Ok(())
}

/// Quantiles of the values 1 to 100.
static QUANTILES: [(u32, u128); 10] = [
    (0, 1_000),
    (250, 26_000),
    (500, 51_000),
    (750, 76_000),
    (900, 91_000),
    (950, 96_000),
    (990, 100_000),
    (995, 110_000),
    (999, 110_000),
    (1_000, 110_000),
];

/// Their counts at bounds, given as twice the bound.
static COUNTS: [(u64, u64); 9] = [
    (1, 0),
    (2, 1),
    (10, 5),
    (20, 10),
    (50, 25),
    (100, 50),
    (200, 99),
    (500, 100),
    (7_200_000, 100),
];

// The bins of 1 to 50, with those of 51 to 100 added.
fn hundred(rt: &impl Abort, alloc: Global) -> Result<Bins, Fail> {
    let mut bins = Bins::new(alloc)?;
    record_all(rt, &mut bins, 1, 50);
    let mut others = Bins::new(alloc)?;
    record_all(rt, &mut others, 51, 100);
    assert!(rt; bins.count() + others.count() <= MAX_COUNT);
    bins.merge(&others);
    Ok(bins)
}

#[test]
fn values_to_a_hundred(rt: HostRuntime) -> Result<(), Fail> {
    let bins = hundred(&rt, rt.alloc())?;
    for (q, value) in &QUANTILES {
        assert!(rt; *q <= 1_000);
        assert_eq!(rt; bins.quantile(*q), Some(*value), "at {q}");
    }
    for (halves, count) in &COUNTS {
        let bound = Bound { halves: *halves };
        assert_eq!(rt; bins.at_most(bound), *count, "at {halves}");
    }
    assert_eq!(rt; (bins.count(), bins.sum_twentieths()), (100, 102_009));
    Ok(())
}

#[test]
fn pairs_of_a_hundred(rt: HostRuntime) -> Result<(), Fail> {
    let mut bins = hundred(&rt, rt.alloc())?;
    let pairs = bins.pairs(rt.alloc())?;
    assert_eq!(rt; pairs.items().len(), 100);
    let again = Bins::of_pairs(rt.alloc(), pairs.items())?;
    assert_eq!(rt; again.sum_twentieths(), 102_009);
    bins.clear();
    assert_eq!(rt; (bins.count(), bins.quantile(0)), (0, None));
    Ok(())
}

/// Counts of given bins, the greatest ones and that of 0 among them.
#[test]
fn given_pairs(rt: HostRuntime) -> Result<(), Fail> {
    let pairs = [
        bin_count(18, 19, 3),
        bin_count(0, 0, 2),
        bin_count(99, 18, 1),
    ];
    let bins = Bins::of_pairs(rt.alloc(), &pairs)?;
    assert_eq!(rt; bins.count(), 6);
    assert_eq!(rt; bins.quantile(0), Some(0));
    assert_eq!(rt; bins.quantile(1_000), Some(19_000_000_000_000_000_000_000));
    assert_eq!(rt;
        bins.sum_twentieths(),
        3 * 370_000_000_000_000_000_000 + 199_000_000_000_000_000_000
    );
    assert_eq!(rt;
        bins.at_most(Bound {
            halves: 18_446_744_073_709_551_615
        }),
        2
    );
    let held = bins.pairs(rt.alloc())?;
    let rising = [
        bin_count(0, 0, 2),
        bin_count(99, 18, 1),
        bin_count(18, 19, 3),
    ];
    assert_eq!(rt; held.items(), rising.as_slice());
    Ok(())
}
