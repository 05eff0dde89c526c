//! Laws for callers, who keep a seat's events beside what the seat knows. Each function does nothing.
ghost use Rattle.book_seat.specs.Following.{SeatFollows};

/// A law: the entries of a seat are those of its events. Each event, with the poll before it, makes its own; and once
/// the seat has ended, the last log has no other.
pub fn a_seat_follows_its_events()
    ensures { SeatFollows }
{}
