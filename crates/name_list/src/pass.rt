//! Taking gone metrics out of a list.
ghost use Rattle.std.specs.Prelude.{◌≡◌, ◌==◌, ◌<◌, [], false, All};
ghost use Rattle.std.specs.List.{list_any};
ghost use Rattle.std.specs.List.Sorted.{IsNonDecreasing};
ghost use Rattle.name_list.specs.Ids.{without};

use stat_defs::MetricId;

// Whether one of these sorted numbers is that of the metric.
fn is_among(gone: &[u32], id: MetricId) -> bool
    requires { IsNonDecreasing gone.now }
    ensures { result ≡ list_any (λ g. id.0 == g) gone.now }
{
    gone.binary_search(&id.0).is_ok()
}

// Takes the metrics of these sorted numbers out.
fn keep_others(ids: &mut Vec<MetricId>, gone: &[u32])
    requires { IsNonDecreasing gone.now }
    ensures { ids.new.items ≡ without gone.now ids.old.items }
{
    ids.retain(|id| !is_among(gone, *id));
}

// Takes the metrics of these numbers out, and forgets the numbers.
pub(crate) fn take_out(ids: &mut Vec<MetricId>, gone: &mut Vec<u32>)
    ensures ids { ids.new.items ≡ without gone.old.items ids.old.items }
    ensures gone { gone.new.items ≡ [] }
{
    gone.sort_unstable();
    keep_others(ids, gone);
    gone.clear();
}

// Takes them out where the metric of this number may be one of them. Each number is below `above`.
pub(crate) fn free_number(ids: &mut Vec<MetricId>, gone: &mut Vec<u32>, above: u64, id: MetricId)
    requires below { All (λ g. g < above) gone.old.items }
    ensures left { without gone.new.items ids.new.items ≡ without gone.old.items ids.old.items }
    ensures free { list_any (λ g. id.0 == g) gone.new.items ≡ false }
    ensures below { All (λ g. g < above) gone.new.items }
{
    if (id.0 as u64) < above {
        take_out(ids, gone);
    }
}
