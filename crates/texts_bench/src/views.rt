//! Views of counters alone and of histograms alone. Each row has three tags.
ghost use Rattle.std.specs.Prelude.{All, IfOk, OnOk};
ghost use Rattle.text_parts.specs.Histograms.{IsHistogram, AreHistograms, HasHistograms};

use loglinear_bins::{Bins, MAX_COUNT};
use stat_defs::{
    BinList, Bound, CounterRow, FlushView, HistRow, List, NoMemory, SharedList, Tag, Tagged, Txt,
};
use std::alloc::Global;

/// Metrics of one cluster.
const METRICS: u32 = 64;

/// Values of each histogram.
const VALUES: u64 = 64;

/// Bounds of buckets, as twice their numbers.
const HALVES: [u64; 19] = [
    1, 2, 10, 20, 50, 100, 200, 500, 1_000, 2_000, 5_000, 10_000, 20_000, 60_000, 120_000, 600_000,
    1_200_000, 3_600_000, 7_200_000,
];

fn tag_of(alloc: Global, name: &str, value: &str) -> Result<Tag, NoMemory> {
    Ok(Tag {
        name: Txt::of(alloc, name.as_bytes())?,
        value: Txt::of(alloc, value.as_bytes())?,
    })
}

/// The full name of row `i`: row by row the metrics of one cluster, then of the next.
fn name_of(alloc: Global, i: u32) -> Result<Txt, NoMemory> {
    let text = format!(in alloc;
        "cluster.service_{}.upstream_metric_{}_rq_200",
        i / METRICS,
        i % METRICS
    )?;
    Txt::of(alloc, text.as_bytes())
}

fn tagged_of(alloc: Global, i: u32) -> Result<Tagged, NoMemory> {
    let extracted = format!(in alloc; "cluster.upstream_metric_{}_rq", i % METRICS)?;
    let cluster = format!(in alloc; "service_{}", i / METRICS)?;
    let mut tags = Vec::new(alloc);
    tags.push(tag_of(alloc, "envoy.response_code", "200")?)?;
    tags.push(tag_of(alloc, "envoy.cluster_name", cluster.as_str())?)?;
    tags.push(tag_of(alloc, "region", "eu-1")?)?;
    Ok(Tagged {
        extracted: Txt::of(alloc, extracted.as_bytes())?,
        tags: SharedList::of(tags)?,
    })
}

fn counter_of(alloc: Global, i: u32) -> Result<CounterRow, NoMemory> {
    Ok(CounterRow {
        name: name_of(alloc, i)?,
        tagged: tagged_of(alloc, i)?,
        delta: 1,
        total: 7_919 * u64::from(i),
    })
}

/// So many counters, and nothing else.
pub fn view_of_counters(alloc: Global, n: u32) -> Result<FlushView, NoMemory>
    ensures { IfOk result (λ view. HasHistograms view) }
{
    let mut rows = Vec::new(alloc);
    for i in 0..n {
        rows.push(counter_of(alloc, i)?)?;
    }
    Ok(FlushView {
        counters: List::of(rows),
        gauges: List::of(Vec::new(alloc)),
        texts: List::of(Vec::new(alloc)),
        histograms: List::of(Vec::new(alloc)),
    })
}

/// The bins of values that are spread over five powers of ten.
fn bins_of(alloc: Global, i: u32) -> Result<BinList, NoMemory>
    ensures { IfOk result (λ counts. IsHistogram counts) }
{
    let mut bins = Bins::new(alloc)?;
    for k in 0..VALUES {
        if bins.count() < MAX_COUNT {
            bins.record(u64::from(i) + k * k * k);
        }
    }
    bins.pairs(alloc)
}

fn bounds_of(alloc: Global) -> Result<List<Bound>, NoMemory> {
    let mut bounds = Vec::new(alloc);
    for halves in HALVES {
        bounds.push(Bound { halves })?;
    }
    Ok(List::of(bounds))
}

fn histogram_of(alloc: Global, i: u32) -> Result<HistRow, NoMemory>
    ensures { IfOk result AreHistograms }
{
    Ok(HistRow {
        name: name_of(alloc, i)?,
        tagged: tagged_of(alloc, i)?,
        interval: bins_of(alloc, i)?,
        cumulative: bins_of(alloc, i)?,
        bounds: bounds_of(alloc)?,
    })
}

fn add_histograms(alloc: Global, rows: &mut Vec<HistRow>, n: u32) -> Result<(), NoMemory>
    requires { All AreHistograms rows.old.items }
    ensures { OnOk result (All AreHistograms rows.new.items) }
{
    for i in 0..n {
        rows.push(histogram_of(alloc, i)?)?;
    }
    Ok(())
}

/// So many histograms, and nothing else.
pub fn view_of_histograms(alloc: Global, n: u32) -> Result<FlushView, NoMemory>
    ensures { IfOk result (λ view. HasHistograms view) }
{
    let mut rows = Vec::new(alloc);
    add_histograms(alloc, &mut rows, n)?;
    Ok(FlushView {
        counters: List::of(Vec::new(alloc)),
        gauges: List::of(Vec::new(alloc)),
        texts: List::of(Vec::new(alloc)),
        histograms: List::of(rows),
    })
}
