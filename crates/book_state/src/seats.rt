//! What is stored of the workers' seats. What a seat holds, its caller keeps.
ghost use Rattle.std.specs.Prelude.{◌≡◌, ◌-◌, ◌≤◌, ◌&&◌, ℕ, true, length, map, slice_get};
ghost use Rattle.std.specs.Option.{IsSomeAnd};
ghost use Rattle.book_state.specs.Step.{change_at};
ghost use Rattle.std.specs.List.{list_all};
ghost use Rattle.book_state.specs.Metrics.{is_past};
ghost use Rattle.book_state.specs.Stored.{seat_row, has_passed};

/// A worker's seat: how many releases it has acknowledged, and whether it has ended.
#[derive(Clone, Copy)]
pub struct SeatRow {
    pub tag: u64,
    pub ended: bool,
}

/// The least tag of a seat that has not ended; None where all have ended.
pub fn least_tag(seats: &[SeatRow]) -> Option<u64>
    ensures { (release : ℕ) → is_past result release ≡ list_all (has_passed release) (map seat_row seats.now) }
{
    let mut least = None;
    for seat in seats {
        least = lower(least, *seat);
    }
    least
}

// With one seat more.
fn lower(least: Option<u64>, seat: SeatRow) -> Option<u64>
    ensures { (release : ℕ) → is_past result release ≡ (is_past least release && has_passed release (seat_row seat)) }
{
    if seat.ended {
        return least;
    }
    match least {
        None => Some(seat.tag),
        Some(tag) => Some(tag.min(seat.tag)),
    }
}

/// The tag of a seat.
pub fn tag_at(seats: &[SeatRow], seat: u32) -> u64
    requires { (1 ≤ seat) × (seat ≤ length seats.now) }
    ensures { IsSomeAnd (slice_get (map seat_row seats.now) (seat - 1)) (λ row. row.0 ≡ result) }
{
    seats[seat as usize - 1].tag
}

/// A seat has acknowledged so many releases.
pub fn set_tag(seats: &mut Vec<SeatRow>, seat: u32, tag: u64)
    requires { (1 ≤ seat) × (seat ≤ length seats.old.items) }
    ensures rows { map seat_row seats.new.items
        ≡ change_at (λ row. (tag, row.1)) (seat - 1) (map seat_row seats.old.items) }
    ensures count { length seats.new.items ≡ length seats.old.items }
{
    seats[seat as usize - 1].tag = tag;
}

/// A seat has ended.
pub fn end_seat(seats: &mut Vec<SeatRow>, seat: u32)
    requires { (1 ≤ seat) × (seat ≤ length seats.old.items) }
    ensures rows { map seat_row seats.new.items
        ≡ change_at (λ row. (row.0, true)) (seat - 1) (map seat_row seats.old.items) }
    ensures count { length seats.new.items ≡ length seats.old.items }
{
    seats[seat as usize - 1].ended = true;
}
