//! The changes of names as words: what a seat that has the turn stores, and what any seat loads.
ghost use Rattle.std.specs.Prelude.{◌≡◌, ℕ, suc, ◌+◌, ◌-◌, ◌*◌, ◌<◌, ◌≤◌, [], ◌∷◌, ◌++◌, None, Some, true, length};
ghost use Rattle.std.specs.Prelude.{List, drop, slice_get, vec_len, vec_capacity};
ghost use Rattle.seat_parts.specs.Parts.{own_changed};
ghost use Rattle.stat_defs.specs.declared.history.NameOp.{NameOp};
ghost use Rattle.stat_defs.specs.Changes.{at_of, id_of};
ghost use Rattle.book_lock.specs.declared.limits.TheConstants.{MAX_CHANGES};
ghost use Rattle.book_lock.specs.Naming.{kind_code, code_of, words_of, AreNames};
ghost use Rattle.book_lock.specs.History.{stored_all, told, read_all, Tells};
ghost use Rattle.book_lock.specs.Locked.{own_part};

use crate::plays::{LoadingCount, LoadingWord, StoringWord};
use crate::steps::{CHANGES, FIRST_CHANGE, Place, Top};
use stat_defs::{Booked, Kind, MetricId, NameOp};

// The first word of a change.
fn at_word(change: &NameOp) -> u64
    ensures { result ≡ at_of change.now }
{
    match change {
        NameOp::Made { at, .. } => *at,
        NameOp::Gone { at, .. } => *at,
    }
}

fn kind_word(kind: Kind) -> u64
    ensures { (result ≡ kind_code kind) × (result < 4) }
{
    match kind {
        Kind::Counter => 0,
        Kind::Gauge => 1,
        Kind::Histogram => 2,
        Kind::Text => 3,
    }
}

// The second one.
fn code_word(change: &NameOp) -> u64
    ensures { result ≡ code_of change.now }
{
    match change {
        NameOp::Made { id, kind, .. } => 8 * id.0 as u64 + kind_word(*kind),
        NameOp::Gone { id, .. } => 8 * id.0 as u64 + 4,
    }
}

// The change of two words.
fn change_of(at: u64, code: u64) -> NameOp
    requires { code < 34359738368 }
    ensures { (change : NameOp) → at_of change ≡ at → code_of change ≡ code → result ≡ change }
{
    let id = MetricId((code / 8) as u32);
    match code % 8 {
        0 => NameOp::Made {
            at,
            id,
            kind: Kind::Counter,
        },
        1 => NameOp::Made {
            at,
            id,
            kind: Kind::Gauge,
        },
        2 => NameOp::Made {
            at,
            id,
            kind: Kind::Histogram,
        },
        3 => NameOp::Made {
            at,
            id,
            kind: Kind::Text,
        },
        _ => NameOp::Gone { at, id },
    }
}

// The two words of the change of this number, which stands behind all that are published or stored.
fn store_change<B: Booked>(top: &Top<B>, place: &mut Place<B>, k: u32, change: &NameOp)
    requires table { (place.old.table_id ≡ top.now.table_id)
        × (top.now.table_id.words ≡ 17 + 2 * (own_part place.old.me.0).room) }
    requires holds { (length place.old.me.0.parts ≡ 1) × (place.old.me.1 ≡ (0, None) ∷ [])
        × ((own_part place.old.me.0).holds ≡ true) }
    requires next { 2 * length (own_part place.old.me.0).names + length (own_part place.old.me.0).stored ≡ 2 * k }
    requires room { k < (own_part place.old.me.0).room }
    ensures table { (place.new.table_id ≡ place.old.table_id) × (place.new.id ≡ place.old.id) }
    ensures told { place.new.me ≡ (
      own_changed (stored_all (2 * k) (at_of change.now ∷ code_of change.now ∷ []))
          place.old.me.0,
      (0, None) ∷ [],
    ) }
{
    let first = FIRST_CHANGE + 2 * k as usize;
    top.store::<StoringWord>(place, first, at_word(change));
    top.store::<StoringWord>(place, first + 1, code_word(change));
}

// The words of the book's changes past those that were found.
pub(crate) fn store_names<B: Booked>(top: &Top<B>, place: &mut Place<B>, book: &B, found: u32)
    requires table { (place.old.table_id ≡ top.now.table_id)
        × (top.now.table_id.words ≡ 17 + 2 * (own_part place.old.me.0).room) }
    requires holds { (length place.old.me.0.parts ≡ 1) × (place.old.me.1 ≡ (0, None) ∷ [])
        × ((own_part place.old.me.0).holds ≡ true) × ((own_part place.old.me.0).stored ≡ []) }
    requires found { found ≡ length (own_part place.old.me.0).names }
    requires more { found ≤ length (B.changed book.now) }
    requires few { length (B.changed book.now) ≤ (own_part place.old.me.0).room }
    ensures table { (place.new.table_id ≡ place.old.table_id) × (place.new.id ≡ place.old.id) }
    ensures told { place.new.me ≡ (
      own_changed (stored_all (2 * found) (words_of (drop found (B.changed book.now))))
          place.old.me.0,
      (0, None) ∷ [],
    ) }
{
    let count = book.changes();
    for k in found..count {
        let change = book.change(k);
        store_change(top, place, k, &change);
    }
}

// The number of published changes.
pub(crate) fn load_count<B: Booked>(top: &Top<B>, place: &mut Place<B>) -> u32
    requires table { (place.old.table_id ≡ top.now.table_id) × (17 ≤ top.now.table_id.words)
        × ((own_part place.old.me.0).room ≤ MAX_CHANGES) }
    requires rests { (length place.old.me.0.parts ≡ 1) × (place.old.me.1 ≡ []) }
    ensures table { (place.new.table_id ≡ place.old.table_id) × (place.new.id ≡ place.old.id) }
    ensures told { (names : List NameOp) × (place.new.me ≡ (own_changed (told names) place.old.me.0, []))
        × (length names ≡ result) × Tells (own_part place.old.me.0) names }
{
    top.load::<LoadingCount>(place, CHANGES) as u32
}

// The change of this number, below the number of those that the seat knows.
fn load_change<B: Booked>(top: &Top<B>, place: &mut Place<B>, k: u32) -> NameOp
    requires table { (place.old.table_id ≡ top.now.table_id)
        × (top.now.table_id.words ≡ 17 + 2 * (own_part place.old.me.0).room)
        × ((own_part place.old.me.0).room ≤ MAX_CHANGES) }
    requires rests { (length place.old.me.0.parts ≡ 1) × (place.old.me.1 ≡ []) }
    requires known { k < length (own_part place.old.me.0).names }
    requires names { AreNames (own_part place.old.me.0).room (own_part place.old.me.0).names }
    ensures table { (place.new.table_id ≡ place.old.table_id) × (place.new.id ≡ place.old.id) }
    ensures change { slice_get (own_part place.old.me.0).names k ≡ Some result }
    ensures told { place.new.me ≡ (
      own_changed (read_all (2 * k) (at_of result ∷ code_of result ∷ []))
          place.old.me.0,
      [],
    ) }
{
    let first = FIRST_CHANGE + 2 * k as usize;
    let at = top.load::<LoadingWord>(place, first);
    let code = top.load::<LoadingWord>(place, first + 1);
    change_of(at, code)
}

// The changes from this number up to the number of those that the seat knows, for which there is room.
pub(crate) fn load_names<B: Booked>(
    top: &Top<B>,
    place: &mut Place<B>,
    from: u32,
    count: u32,
    into: &mut Vec<NameOp>,
)
    requires table { (place.old.table_id ≡ top.now.table_id)
        × (top.now.table_id.words ≡ 17 + 2 * (own_part place.old.me.0).room)
        × ((own_part place.old.me.0).room ≤ MAX_CHANGES) }
    requires rests { (length place.old.me.0.parts ≡ 1) × (place.old.me.1 ≡ []) }
    requires names { AreNames (own_part place.old.me.0).room (own_part place.old.me.0).names }
    requires count { (from ≤ count) × (count ≡ length (own_part place.old.me.0).names) }
    requires space { vec_len into.old + (count - from) ≤ vec_capacity into.old }
    ensures table { (place.new.table_id ≡ place.old.table_id) × (place.new.id ≡ place.old.id) }
    ensures appended { into.new.items ≡ into.old.items ++ drop from (own_part place.old.me.0).names }
    ensures told { place.new.me ≡ (
      own_changed (read_all (2 * from) (words_of
          (drop from (own_part place.old.me.0).names))) place.old.me.0,
      [],
    ) }
{
    for k in from..count {
        let change = load_change(top, place, k);
        into.push_reserved(change);
    }
}
