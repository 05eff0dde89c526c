//! What every reader of the text may count on.
ghost use Rattle.std.specs.Prelude.{◌≡◌, ◌++◌, ◌∷◌, ◌||◌, ℕ, All, List, true, false, map, filter};
ghost use Rattle.std.specs.List.{flat_map, list_all};
ghost use Rattle.std.specs.List.Sorted.{IsPermutation, IsStrictlySortedBy};
ghost use Rattle.stat_defs.specs.declared.views.FlushView.{FlushView};
ghost use Rattle.prom_text.specs.Labels.{escaped};
ghost use Rattle.prom_text.specs.Members.{members, text_groups, same_group, compare_groups};
ghost use Rattle.prom_text.specs.Prometheus.{prom_text};
ghost use Rattle.prom_text.specs.Values.{read_value, is_text_byte, is_value_byte};

/// Each byte of a text is printable ASCII or ends a line, but for the bytes of tag values. From behind its opening
/// quotation mark a tag's value is read as it was, up to the quotation mark that closes it, whatever follows.
pub fn text_law()
    ensures bytes { (view : FlushView)
        → list_all (λ b. is_text_byte b || is_value_byte view b) (prom_text view) ≡ true }
    ensures values { (value rest : List ℕ)
        → read_value false (escaped value ++ 34 ∷ rest) ≡ record { value = value; rest = rest } }
{}

/// A group has all members of its printed name and kind, counters, gauges and histograms each in the order of the view.
/// The groups rise by printed name in byte order, and those of one printed name by kind, so none comes twice. They have
/// all members.
pub fn groups_law()
    ensures whole { (view : FlushView)
        → All (λ group. group.first ∷ group.others ≡ filter (same_group group.first) (members view))
        (text_groups view) }
    ensures rising { (view : FlushView)
        → IsStrictlySortedBy compare_groups (map (λ group. group.first) (text_groups view)) }
    ensures all { (view : FlushView)
        → IsPermutation (members view) (flat_map (λ group. group.first ∷ group.others) (text_groups view)) }
{}
