ghost use Rattle.std.specs.Prelude.{◌≡◌, ◌+◌, ◌∷◌, ◌++◌, [], MatchResult};
ghost use Rattle.stat_defs.specs.declared.history.Call.TheVariants as call;
ghost use Rattle.stat_defs.specs.Books.{BookHistory};
ghost use Rattle.seat_history.specs.History.{MayLeave};
ghost use Rattle.book_lock.specs.Locked.{blank_config};
ghost use Rattle.book_lock.specs.Naming.{MayName};
ghost use Rattle.book_lock.specs.Seats.{lock_id, seats_of, seat_part, seat_known, seat_number, AtRest, HasBook, AreNew};
ghost use Rattle.book_lock.specs.Seats.{held_book, FoundWith};

use crate::fake_book::{FakeBook, NAMES};
use book_lock::{BookLock, Held, LockSeat, Try};
use stat_defs::{Call, Entry, NoMemory, Reply, ScopeId};
use std::sync::Wait;
use std::test::Fail;
use std::thread::{Threads, join};

/// Entries of each thread.
const ENTRIES: u64 = 10_000;

pub(crate) fn take_last(
    lock: &BookLock<FakeBook>,
    seats: &mut Vec<LockSeat<FakeBook>>,
    number: u32,
) -> LockSeat<FakeBook>
    requires { (first : BookHistory) × AreNew (lock_id lock.now) first 4 (number + 1) seats.old.items }
    ensures seat { AtRest (lock_id lock.now) result × (seat_number result ≡ number) }
    ensures fresh { ((seat_part result).names ≡ []) × ((seat_part result).room ≡ 4) }
    ensures seats { (first : BookHistory) × AreNew (lock_id lock.now) first 4 number seats.new.items }
{
    seats.pop().unwrap()
}

pub(crate) fn entry_of(number: u32, reply: Reply) -> Entry
    ensures { result ≡ record { seat = number; call = call.Ack; reply = reply } }
{
    Entry {
        seat: number,
        call: Call::Ack,
        reply,
    }
}

// Adds an entry of the seat's number to the book that it has, and leaves, also where the book refuses the
// entry.
fn add_and_leave(
    lock: &BookLock<FakeBook>,
    seat: &mut LockSeat<FakeBook>,
    mut held: Held<FakeBook>,
    number: u32,
    reply: Reply,
) -> Result<(), NoMemory>
    requires seat { HasBook (lock_id lock.now) seat.old × (seat_number seat.old ≡ number) }
    requires book { MayLeave (seat_known seat.old)
        (record { config = blank_config; workers = 4; log = (held_book held).entries.items }) }
    requires found { FoundWith held (seat_part seat.old).names (seat_known seat.old).known }
    requires names { MayName (seat_part seat.old) (held_book held).entries.items (held_book held).changes.items }
    ensures seat { AtRest (lock_id lock.now) seat.new × (seat_number seat.new ≡ number) }
    ensures made { (seat_known seat.old).known ≡ (held_book held).entries.items
        → MatchResult result (λ _. (seat_known seat.new).made ≡ (seat_known seat.old).made
        ++ (record { seat = number; call = call.Ack; reply = reply }) ∷ [])
        (λ _. (seat_known seat.new).made ≡ (seat_known seat.old).made) }
{
    let added = held.book().add(entry_of(number, reply));
    lock.leave(seat, held);
    added
}

fn add_reply<R: Wait>(
    rt: &R,
    lock: &BookLock<FakeBook>,
    seat: &mut LockSeat<FakeBook>,
    number: u32,
    reply: Reply,
) -> Result<(), NoMemory>
    requires seat { AtRest (lock_id lock.now) seat.old × (seat_number seat.old ≡ number) }
    ensures seat { AtRest (lock_id lock.now) seat.new × (seat_number seat.new ≡ number) }
    ensures made { MatchResult result
        (λ _. (seat_known seat.new).made ≡ (seat_known seat.old).made
        ++ (record { seat = number; call = call.Ack; reply = reply }) ∷ [])
        (λ _. (seat_known seat.new).made ≡ (seat_known seat.old).made) }
{
    let held = lock.enter(rt, seat);
    add_and_leave(lock, seat, held, number, reply)
}

// The word that a try found, or none where it got the book, which it leaves as it was.
fn word_found(lock: &BookLock<FakeBook>, seat: &mut LockSeat<FakeBook>) -> Option<u64>
    requires { AtRest (lock_id lock.now) seat.old }
    ensures { AtRest (lock_id lock.now) seat.new }
{
    match lock.try_enter(seat) {
        Try::Held(held) => {
            lock.leave(seat, held);
            None
        }
        Try::Busy(word) => Some(word),
    }
}

#[test]
fn one_is_in_while_another_tries(rt: HostRuntime) -> Result<(), Fail> {
    let (lock, mut seats) = BookLock::new(rt.alloc(), FakeBook::new(rt.alloc(), 8), 2, NAMES)?;
    let mut second = take_last(&lock, &mut seats, 1);
    let mut first = take_last(&lock, &mut seats, 0);
    let before = lock.releases(&mut second);
    let held = lock.enter(&rt, &mut first);
    let while_in = word_found(&lock, &mut second);
    add_and_leave(&lock, &mut first, held, 0, Reply::Released(ScopeId(0)))?;
    let after = lock.releases(&mut second);
    let once_out = word_found(&lock, &mut second);
    let book = lock.close(vec![in rt.alloc(); first, second]?);
    assert!(rt; before == 0 && while_in == Some(1));
    assert!(rt; after == 1 && once_out.is_none());
    assert!(rt; book.entries.len() == 1);
    Ok(())
}

// The number of releases rises for the other seat by an entry that releases a scope, and by no other.
#[test]
fn only_a_release_raises_the_number(rt: HostRuntime) -> Result<(), Fail> {
    let (lock, mut seats) = BookLock::new(rt.alloc(), FakeBook::new(rt.alloc(), 8), 2, NAMES)?;
    let mut second = take_last(&lock, &mut seats, 1);
    let mut first = take_last(&lock, &mut seats, 0);
    let released = add_reply(&rt, &lock, &mut first, 0, Reply::Released(ScopeId(0)));
    let one = lock.releases(&mut second);
    let acked = add_reply(&rt, &lock, &mut first, 0, Reply::Acked(1));
    let still_one = lock.releases(&mut second);
    let again = add_reply(&rt, &lock, &mut second, 1, Reply::Released(ScopeId(1)));
    let two = lock.releases(&mut first);
    drop(lock.close(vec![in rt.alloc(); first, second]?));
    assert!(rt; released.is_ok() && acked.is_ok() && again.is_ok());
    assert!(rt; one == 1 && still_one == 1 && two == 2);
    Ok(())
}

// The second entry is refused, and both seats go on.
#[test]
fn goes_on_after_a_refusal(rt: HostRuntime) -> Result<(), Fail> {
    let (lock, mut seats) = BookLock::new(rt.alloc(), FakeBook::new(rt.alloc(), 1), 2, NAMES)?;
    let mut second = take_last(&lock, &mut seats, 1);
    let mut first = take_last(&lock, &mut seats, 0);
    let added = add_reply(&rt, &lock, &mut first, 0, Reply::Released(ScopeId(0)));
    let refused = add_reply(&rt, &lock, &mut first, 0, Reply::Released(ScopeId(1)));
    let other = add_reply(&rt, &lock, &mut second, 1, Reply::Acked(1));
    let releases = lock.releases(&mut first);
    let book = lock.close(vec![in rt.alloc(); first, second]?);
    assert!(rt; added.is_ok() && refused.is_err() && other.is_err());
    assert!(rt; releases == 1 && book.entries.len() == 1);
    Ok(())
}

// Adds entries numbered from 0.
fn add_many<R: Wait>(
    rt: &R,
    lock: &BookLock<FakeBook>,
    mut seat: LockSeat<FakeBook>,
    number: u32,
) -> LockSeat<FakeBook>
    requires { AtRest (lock_id lock.now) seat × (seat_number seat ≡ number) }
    ensures { AtRest (lock_id lock.now) result }
{
    for count in 0..ENTRIES {
        let _ = add_reply(rt, lock, &mut seat, number, Reply::Acked(count));
    }
    seat
}

// Two threads, whose seats have this number and the next one.
fn run_two<R: Threads + Wait + Sync>(
    rt: &R,
    lock: &BookLock<FakeBook>,
    first: LockSeat<FakeBook>,
    second: LockSeat<FakeBook>,
    numbers: (u32, u32),
) -> (LockSeat<FakeBook>, LockSeat<FakeBook>)
    requires first { AtRest (lock_id lock.now) first × (seat_number first ≡ numbers.0) }
    requires second { AtRest (lock_id lock.now) second × (seat_number second ≡ numbers.1) }
    ensures { AtRest (lock_id lock.now) result.0 × AtRest (lock_id lock.now) result.1 }
{
    let (one, two) = numbers;
    join(
        rt,
        move || -> LockSeat<FakeBook>
            requires { AtRest (lock_id lock.now) first × (seat_number first ≡ one) }
            ensures { AtRest (lock_id lock.entry.now) result }
        { add_many(rt, lock, first, one) },
        move || -> LockSeat<FakeBook>
            requires { AtRest (lock_id lock.now) second × (seat_number second ≡ two) }
            ensures { AtRest (lock_id lock.entry.now) result }
        { add_many(rt, lock, second, two) },
    )
}

type Pair = (LockSeat<FakeBook>, LockSeat<FakeBook>);

fn run_four<R: Threads + Wait + Sync>(
    rt: &R,
    lock: &BookLock<FakeBook>,
    low: Pair,
    high: Pair,
) -> (Pair, Pair)
    requires low { AtRest (lock_id lock.now) low.0 × (seat_number low.0 ≡ 0) × AtRest (lock_id lock.now) low.1
        × (seat_number low.1 ≡ 1) }
    requires high { AtRest (lock_id lock.now) high.0 × (seat_number high.0 ≡ 2) × AtRest (lock_id lock.now) high.1
        × (seat_number high.1 ≡ 3) }
    ensures low { AtRest (lock_id lock.now) result.0.0 × AtRest (lock_id lock.now) result.0.1 }
    ensures high { AtRest (lock_id lock.now) result.1.0 × AtRest (lock_id lock.now) result.1.1 }
{
    let (a, b) = low;
    let (c, d) = high;
    join(
        rt,
        move || -> Pair
            requires { AtRest (lock_id lock.now) a × (seat_number a ≡ 0) × AtRest (lock_id lock.now) b × (seat_number b ≡ 1) }
            ensures { AtRest (lock_id lock.entry.now) result.0 × AtRest (lock_id lock.entry.now) result.1 }
        { run_two(rt, lock, a, b, (0, 1)) },
        move || -> Pair
            requires { AtRest (lock_id lock.now) c × (seat_number c ≡ 2) × AtRest (lock_id lock.now) d × (seat_number d ≡ 3) }
            ensures { AtRest (lock_id lock.entry.now) result.0 × AtRest (lock_id lock.entry.now) result.1 }
        { run_two(rt, lock, c, d, (2, 3)) },
    )
}

// Whether each of the seats 0 to 3 has its entries in the order of their numbers, all of them.
fn are_in_order(entries: &[Entry]) -> bool {
    let mut next = [0u64; 4];
    for entry in entries {
        let seat = entry.seat as usize;
        if seat >= 4 {
            return false;
        }
        let Reply::Acked(count) = &entry.reply else {
            return false;
        };
        if *count != next[seat] {
            return false;
        }
        next[seat] = count.wrapping_add(1);
    }
    next == [ENTRIES; 4]
}

#[test]
fn four_threads_make_one_history(rt: HostRuntime) -> Result<(), Fail> {
    let (lock, mut seats) = BookLock::new(
        rt.alloc(),
        FakeBook::new(rt.alloc(), 100_000),
        4,
        NAMES,
    )?;
    let d = take_last(&lock, &mut seats, 3);
    let c = take_last(&lock, &mut seats, 2);
    let b = take_last(&lock, &mut seats, 1);
    let a = take_last(&lock, &mut seats, 0);
    let ((a, b), (c, d)) = run_four(&rt, &lock, (a, b), (c, d));
    let book = lock.close(vec![in rt.alloc(); a, b, c, d]?);
    assert!(rt; book.entries.len() == 40_000);
    assert!(rt; are_in_order(&book.entries));
    Ok(())
}
