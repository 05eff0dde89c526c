//! Seats of a shared book of two workers: seat 0 is the store's, 1 and 2 the workers', and 3 the reader's.
ghost use Rattle.std.specs.Prelude.{◌≡◌, ◌+◌, ◌<◌, ◌≤◌, [], IfOk};
ghost use Rattle.stat_defs.specs.Configs.{IsConfig};
ghost use Rattle.stat_defs.specs.Names.{IsLocalName, IsScopePrefix};
ghost use Rattle.stat_defs.specs.declared.configs.Config.{Config as Configured};
ghost use Rattle.book_state.specs.declared.limits.TheConstants.{MAX_OPENINGS};
ghost use Rattle.stat_book.specs.Calls.{new_book};
ghost use Rattle.stat_book.specs.NameChanges.{changes_of};
ghost use Rattle.book_access.specs.Calling.{WorkingUnder, opened};
ghost use Rattle.locked_book.specs.Sharing.{first_of, known_by, IsSeatOf, AreNewSeats};

use book_access::BookAccess;
use boot_file::usual;
use locked_book::{Listing, LockedBook, SharedBook, Way};
use stat_book::Book;
use stat_defs::{Call, Config, Entry, Key, Kind, Mode, NoMemory, Reply, Txt};
use std::alloc::Global;
use std::sync::Wait;
use std::test::Fail;
use std::thread::{Threads, join};
use tag_rules::{Matcher, RegexMaker, TagRules, config_law};

/// Releases of each thread, of a scope that is not there.
const RELEASES: u64 = 500;

fn book_of(alloc: Global, config: &Config) -> Result<Book, Fail>
    requires { IsConfig config.now }
    ensures book { IfOk result (λ book. book ≡ new_book config.now 2) }
    ensures new { IfOk result (λ book. changes_of book ≡ []) }
{
    config_law();
    let mut maker = RegexMaker::new(Vec::new(alloc));
    let rules = TagRules::build(alloc, &mut maker, config.tags.items())?;
    let matcher = Matcher::build(alloc, &mut maker, &config.matcher)?;
    Ok(Book::new(alloc, config, rules, matcher, 2)?)
}

fn usual_book(alloc: Global) -> Result<Book, Fail>
    ensures book { IfOk result (λ book. (config : Configured) × (book ≡ new_book config 2)) }
    ensures new { IfOk result (λ book. changes_of book ≡ []) }
{
    let config = usual(alloc)?;
    let book = book_of(alloc, &config);
    drop(config);
    Ok(book?)
}

// What a worker opens, and the counter that it finds in there.
#[derive(Drop)]
struct Plan {
    label: Txt,
    prefix: Txt,
    key: Key,
    ghost scope: { IsScopePrefix prefix },
    ghost name: { IsLocalName key.name },
}

fn key_in(alloc: Global, label: &Txt) -> Result<Key, NoMemory>
    ensures { IfOk result (λ key. IsLocalName key.name) }
{
    Ok(Key {
        label: label.clone()?,
        kind: Kind::Counter,
        mode: Mode::Uninit,
        name: Txt::of(alloc, b"n")?,
    })
}

fn first_plan(alloc: Global) -> Result<Plan, NoMemory> {
    let label = Txt::of(alloc, b"one")?;
    let key = key_in(alloc, &label)?;
    Ok(Plan {
        prefix: Txt::of(alloc, b"a")?,
        label,
        key,
    })
}

fn second_plan(alloc: Global) -> Result<Plan, NoMemory> {
    let label = Txt::of(alloc, b"two")?;
    let key = key_in(alloc, &label)?;
    Ok(Plan {
        prefix: Txt::of(alloc, b"b")?,
        label,
        key,
    })
}

fn take_last(book: &SharedBook, seats: &mut Vec<LockedBook>, number: u32) -> LockedBook
    requires first { (config : Configured) × (first_of book.now ≡ new_book config 2) }
    requires seats { AreNewSeats book.now (number + 1) seats.old.items }
    ensures seat { IsSeatOf book.now result × ((known_by result).number ≡ number) }
    ensures fresh { (1 ≤ number) × (number ≤ 2) → WorkingUnder (known_by result) (λ row. row.held ≡ []) }
    ensures room { (1 ≤ number) × (number ≤ 2) → opened (known_by result) < MAX_OPENINGS }
    ensures seats { AreNewSeats book.now number seats.new.items }
{
    seats.pop().unwrap()
}

// A call that finds no memory leaves the book as it was, which the closed log shows.
fn open_own<R: Wait>(seat: &mut LockedBook, way: &Way<'_, R>, alloc: Global, plan: &Plan)
    requires seat { IsSeatOf way.now.book.now seat.old }
    requires fresh { WorkingUnder (known_by seat.old) (λ row. row.held ≡ []) }
    requires room { opened (known_by seat.old) < MAX_OPENINGS }
    ensures seat { IsSeatOf way.now.book.now seat.new }
    ensures fresh { WorkingUnder (known_by seat.new) (λ row. row.held ≡ []) }
{
    let _opened = seat.open(way, alloc, &plan.label, &plan.prefix);
}

fn release_one<R: Wait>(seat: &mut LockedBook, way: &Way<'_, R>, alloc: Global, label: &Txt)
    requires seat { IsSeatOf way.now.book.now seat.old }
    requires fresh { WorkingUnder (known_by seat.old) (λ row. row.held ≡ []) }
    ensures seat { IsSeatOf way.now.book.now seat.new }
    ensures fresh { WorkingUnder (known_by seat.new) (λ row. row.held ≡ []) }
{
    let _released = seat.release(way, alloc, label);
}

fn find_own<R: Wait>(seat: &mut LockedBook, way: &Way<'_, R>, alloc: Global, plan: &Plan)
    requires seat { IsSeatOf way.now.book.now seat.old }
    requires fresh { WorkingUnder (known_by seat.old) (λ row. row.held ≡ []) }
    ensures { IsSeatOf way.now.book.now seat.new }
{
    let _found = seat.find(way, alloc, &plan.key);
}

// Opens the scope of the plan, releases another one often, and finds its counter.
fn work<R: Wait>(
    rt: &R,
    alloc: Global,
    book: &SharedBook,
    mut seat: LockedBook,
    plan: &Plan,
) -> LockedBook
    requires seat { IsSeatOf book.now seat }
    requires fresh { WorkingUnder (known_by seat) (λ row. row.held ≡ []) }
    requires room { opened (known_by seat) < MAX_OPENINGS }
    ensures { IsSeatOf book.now result }
{
    let way = Way { rt, book };
    open_own(&mut seat, &way, alloc, plan);
    for _ in 0..RELEASES {
        release_one(&mut seat, &way, alloc, &plan.key.name);
    }
    find_own(&mut seat, &way, alloc, plan);
    seat
}

type Pair = (LockedBook, LockedBook);

fn run_two<R: Threads + Wait + Sync>(
    rt: &R,
    alloc: Global,
    book: &SharedBook,
    seats: Pair,
    plans: &(Plan, Plan),
) -> Pair
    requires seats { IsSeatOf book.now seats.0 × IsSeatOf book.now seats.1 }
    requires fresh { WorkingUnder (known_by seats.0) (λ row. row.held ≡ [])
        × WorkingUnder (known_by seats.1) (λ row. row.held ≡ []) }
    requires room { (opened (known_by seats.0) < MAX_OPENINGS) × (opened (known_by seats.1) < MAX_OPENINGS) }
    ensures { IsSeatOf book.now result.0 × IsSeatOf book.now result.1 }
{
    let (first, second) = seats;
    let (one, two) = plans;
    join(
        rt,
        move || -> LockedBook
            requires { IsSeatOf book.now first × WorkingUnder (known_by first) (λ row. row.held ≡ [])
                × (opened (known_by first) < MAX_OPENINGS) }
            ensures { IsSeatOf book.entry.now result }
        { work(rt, alloc, book, first, one) },
        move || -> LockedBook
            requires { IsSeatOf book.now second × WorkingUnder (known_by second) (λ row. row.held ≡ [])
                × (opened (known_by second) < MAX_OPENINGS) }
            ensures { IsSeatOf book.entry.now result }
        { work(rt, alloc, book, second, two) },
    )
}

// How many entries of the seat are of this kind: openings, releases and finds, all with the wanted reply.
fn counts_of(log: &[Entry], seat: u32) -> [u64; 3] {
    let mut counts = [0u64; 3];
    for entry in log {
        if entry.seat != seat {
            continue;
        }
        let kind = match (&entry.call, &entry.reply) {
            (
                Call::OpenScope {
                    label: _,
                    prefix: _,
                },
                Reply::Opened(_),
            ) => 0,
            (Call::Release { label: _ }, Reply::NoScope) => 1,
            (Call::Find { key: _ }, Reply::Made { id: _, numbers: _ }) => 2,
            _ => continue,
        };
        counts[kind] = counts[kind].wrapping_add(1);
    }
    counts
}

fn is_listing(listing: &Listing, at: u64, counters: usize) -> bool {
    listing.at == at
        && listing.counters.items().len() == counters
        && listing.gauges.items().is_empty()
}

#[test]
fn two_threads_share_a_book(rt: HostRuntime) -> Result<(), Fail> {
    let alloc = rt.alloc();
    let plans = (first_plan(alloc)?, second_plan(alloc)?);
    let (book, mut seats) = SharedBook::new(alloc, usual_book(alloc)?, 4)?;
    let mut reader = take_last(&book, &mut seats, 3);
    let second = take_last(&book, &mut seats, 2);
    let first = take_last(&book, &mut seats, 1);
    let mut store = take_last(&book, &mut seats, 0);
    let (first, second) = run_two(&rt, alloc, &book, (first, second), &plans);
    let way = Way {
        rt: &rt,
        book: &book,
    };
    let named = reader.names(&way, alloc);
    let swept = store.sweep(&way, alloc);
    let after = reader.names(&way, alloc);
    let closed = book.close(alloc, vec![in alloc; store, first, second, reader]?)?;
    assert!(rt; closed.log().len() == 1 + 2 * 502 + 1);
    assert!(rt;
        counts_of(closed.log(), 1) == [1, RELEASES, 1]
            && counts_of(closed.log(), 2) == [1, RELEASES, 1]
    );
    assert!(rt; closed.made() == 2);
    drop(closed);
    assert!(rt;
        is_listing(&named?, 1_005, 2)
            && is_listing(&swept?, 1_005, 2)
            && is_listing(&after?, 1_006, 2)
    );
    Ok(())
}

#[test]
fn a_release_is_counted(rt: HostRuntime) -> Result<(), Fail> {
    let alloc = rt.alloc();
    let root = Txt::of(alloc, b"root")?;
    let (book, mut seats) = SharedBook::new(alloc, usual_book(alloc)?, 2)?;
    let mut worker = take_last(&book, &mut seats, 1);
    let mut store = take_last(&book, &mut seats, 0);
    let way = Way {
        rt: &rt,
        book: &book,
    };
    let before = store.releases(&way);
    release_one(&mut worker, &way, alloc, &root);
    let after = store.releases(&way);
    let closed = book.close(alloc, vec![in alloc; store, worker]?)?;
    assert!(rt; before == 0 && after == 1 && closed.log().len() == 2);
    drop(closed);
    Ok(())
}
