//! A lock whose book's list of names changes.
ghost use Rattle.std.specs.Prelude.{◌≡◌, ◌≤◌, ◌++◌, List, IfOk, length, vec_len};
ghost use Rattle.stat_defs.specs.declared.history.NameOp.{NameOp};
ghost use Rattle.seat_history.specs.History.{GoesOn, MayLeave};
ghost use Rattle.book_lock.specs.Locked.{blank_config};
ghost use Rattle.book_lock.specs.Seats.{lock_id, seat_part, seat_known, seat_number, AtRest, HasBook};
ghost use Rattle.book_lock.specs.Seats.{held_book, FoundWith};
ghost use Rattle.thread_tests.specs.Noting.{AreNoted};

use crate::fake_book::{FakeBook, NAMES};
use crate::locks::{entry_of, take_last};
use book_lock::{BookLock, Held, LockSeat};
use stat_defs::{Kind, MetricId, NameOp, NoMemory, Reply};
use std::test::Fail;

// Adds so many entries, or as many as there is room for.
fn add_some(book: &mut FakeBook, number: u32, count: u32)
    ensures entries { GoesOn (λ entry. entry.seat ≡ number) book.old.entries.items book.new.entries.items }
    ensures changes { book.new.changes.items ≡ book.old.changes.items }
{
    for _ in 0..count {
        let _ = book.add(entry_of(number, Reply::Acked(0)));
    }
}

// Adds so many entries, and the change of metric 0 that they made.
fn add_named(book: &mut FakeBook, number: u32, count: u32, gone: bool) -> Result<(), NoMemory>
    ensures entries { GoesOn (λ entry. entry.seat ≡ number) book.old.entries.items book.new.entries.items }
    ensures changes { (more : List NameOp) × (book.new.changes.items ≡ book.old.changes.items ++ more)
        × AreNoted (length book.old.entries.items) (length book.new.entries.items) more }
{
    let before = book.entries.len();
    add_some(book, number, count);
    book.note(before, gone)
}

// The same to the book that a seat has found, which it leaves then.
fn name_and_leave(
    lock: &BookLock<FakeBook>,
    seat: &mut LockSeat<FakeBook>,
    mut held: Held<FakeBook>,
    count: u32,
    gone: bool,
) -> Result<(), NoMemory>
    requires seat { HasBook (lock_id lock.now) seat.old × (seat_number seat.old ≡ 0) × ((seat_part seat.old).room ≡ 4) }
    requires book { MayLeave (seat_known seat.old)
        (record { config = blank_config; workers = 4; log = (held_book held).entries.items }) }
    requires found { FoundWith held (seat_part seat.old).names (seat_known seat.old).known }
    requires log { (seat_known seat.old).known ≡ (held_book held).entries.items }
    requires names { (seat_part seat.old).names ≡ (held_book held).changes.items }
    ensures seat { AtRest (lock_id lock.now) seat.new × (seat_number seat.new ≡ 0) × ((seat_part seat.new).room ≡ 4) }
{
    let noted = add_named(held.book(), 0, count, gone);
    lock.leave(seat, held);
    noted
}

// Reads the changes past those that it has, and gives the number of all.
fn read_more(
    lock: &BookLock<FakeBook>,
    seat: &mut LockSeat<FakeBook>,
    got: &mut Vec<NameOp>,
) -> Result<u32, NoMemory>
    requires seat { AtRest (lock_id lock.now) seat.old }
    requires got { (got.old.items ≡ (seat_part seat.old).names) × (vec_len got.old ≤ 4) }
    requires room { (seat_part seat.old).room ≡ 4 }
    ensures seat { AtRest (lock_id lock.now) seat.new × ((seat_part seat.new).room ≡ 4) }
    ensures got { IfOk result (λ count. (got.new.items ≡ (seat_part seat.new).names) × (vec_len got.new ≤ 4)) }
{
    let from = got.len() as u32;
    lock.read_changes(seat, from, got)
}

#[test]
fn changes_are_read_beside_the_lock(rt: HostRuntime) -> Result<(), Fail> {
    let (lock, mut seats) = BookLock::new(rt.alloc(), FakeBook::new(rt.alloc(), 8), 2, NAMES)?;
    let mut second = take_last(&lock, &mut seats, 1);
    let mut first = take_last(&lock, &mut seats, 0);
    let mut got = Vec::new(rt.alloc());
    let before = read_more(&lock, &mut second, &mut got)?;
    let held = lock.enter(&rt, &mut first);
    let while_in = read_more(&lock, &mut second, &mut got);
    let made = name_and_leave(&lock, &mut first, held, 2, false);
    let while_in = while_in?;
    let after = read_more(&lock, &mut second, &mut got)?;
    let held = lock.enter(&rt, &mut first);
    let gone = name_and_leave(&lock, &mut first, held, 3, true);
    let last = read_more(&lock, &mut second, &mut got)?;
    let book = lock.close(vec![in rt.alloc(); first, second]?);
    let entries = book.entries.len();
    drop(book);
    assert!(rt; made.is_ok() && gone.is_ok() && entries == 5);
    assert!(rt; before == 0 && while_in == 0 && after == 1 && last == 2);
    let id = MetricId(0);
    let kind = Kind::Counter;
    assert!(rt; got.len() == 2);
    assert!(rt; got[0] == NameOp::Made { at: 2, id, kind } && got[1] == NameOp::Gone { at: 5, id });
    Ok(())
}
