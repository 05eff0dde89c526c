//! The end of a lock.
ghost use Rattle.std.specs.Prelude.{◌≡◌, ◌<◌, [], map};
ghost use Rattle.book_lock.specs.History.{IsOneHistory};
ghost use Rattle.book_lock.specs.Naming.{NamesAreOne};
ghost use Rattle.book_lock.specs.Seats.{lock_id, first_book, seats_of, room_of, seat_part, seat_known, AreAll};

use crate::lock::{BookLock, LockSeat};
use crate::steps::Place;
use seat_parts::Merge;
use stat_defs::Booked;

impl<B: Booked + Drop> BookLock<B> {
    /// The book, once all seats are back.
    pub fn close(self, seats: Vec<LockSeat<B>>) -> B
        requires { AreAll (lock_id self) (seats_of self) seats.items }
        ensures history { IsOneHistory (B.history (first_book self)) (seats_of self) (map seat_known seats.items)
            (B.history result) }
        ensures names { NamesAreOne (room_of self) (map seat_part seats.items) (B.changed result) }
    {
        let all = self.gather(seats);
        let BookLock { table, front: _ } = self;
        let mut closed = table.close_with(all);
        let book = closed.take(0).unwrap();
        closed.free();
        Box::into_inner(book)
    }

    // One seat that keeps the parts of all, in the order of the list.
    fn gather(&self, seats: Vec<LockSeat<B>>) -> Place<B>
        requires { AreAll (lock_id self.now) (seats_of self.now) seats.items }
        ensures seat { (result.table_id ≡ lock_id self.now) × (result.me.1 ≡ []) }
        ensures parts { result.me.0.parts ≡ map seat_part seats.items }
    {
        let mut seats = seats;
        let Some(LockSeat { place: mut all }) = seats.pop() else {
            unreachable!()
        };
        while let Some(seat) = seats.pop() {
            let LockSeat { place: mut first } = seat;
            self.table.shared.join_seat::<Merge>(&mut first, all);
            all = first;
        }
        all
    }
}
