//! A reading while another seat has the book.
ghost use Rattle.locked_book.specs.Sharing.{IsSeatOf};
ghost use Rattle.shared_tests.specs.Parties.{IsAtRound};

use crate::opening::open;
use crate::parties::{Parties, Rounds};
use crate::rounds::reader_calls;
use crate::scripts::{idle_flusher, one_call};
use crate::working::Desk;
use flusher::FlusherParts;
use locked_book::{LockedBook, Way};
use std::process::Abort;
use std::test::Fail;
use store_parts::Store;

const NO_TAGS: &str = r#"{"stats_config":{"use_all_default_tags":false}}"#;

// The store's own seat of the book.
fn store_seat<R: Abort>(rt: &R, _store: &Store, rounds: Rounds) -> LockedBook
    requires { IsAtRound _store.now rounds }
    ensures { IsSeatOf _store.now.book result }
{
    let flusher = idle_flusher(rt, rounds);
    let FlusherParts {
        seat,
        counters: _,
        gauges: _,
        cells: _,
    } = flusher.into_parts();
    seat
}

#[test]
fn a_reading_waits_for_no_seat(rt: HostRuntime) -> Result<(), Fail> {
    let alloc = rt.alloc();
    let parties = open(&rt, alloc, NO_TAGS, 1);
    let (parties, _verdict) = one_call(&rt, alloc, parties, "1 inc root a 3");
    let Parties {
        store,
        first,
        second,
        rounds,
        admin,
    } = parties;
    let seat = store_seat(&rt, &store, rounds);
    let way = Way {
        rt: &rt,
        book: &store.book,
    };
    let desk = Desk {
        rt: &rt,
        alloc,
        store: &store,
    };
    let holding = seat.hold(&way);
    let (admin, told) = reader_calls(&desk, admin);
    let seat = holding.let_go(&store.book);
    drop(first);
    drop(second);
    drop(admin);
    drop(seat);
    drop(store);
    assert!(rt; told.as_str() == "{0:3}");
    Ok(())
}
