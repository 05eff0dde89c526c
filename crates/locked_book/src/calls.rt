//! One call of the book each, and the log that it leaves. Where there is no memory the book stays as it was.
ghost use Rattle.std.specs.Prelude.{◌≡◌, ◌<◌, true, IsNone, IfOk, OnOk, OnErr};
ghost use Rattle.stat_defs.specs.Books.{releases_in};
ghost use Rattle.stat_defs.specs.Keys.{held_under};
ghost use Rattle.stat_defs.specs.Names.{IsLocalName, IsScopePrefix};
ghost use Rattle.stat_defs.specs.declared.history.Call.TheVariants as call;
ghost use Rattle.stat_defs.specs.declared.history.Reply.TheVariants as reply;
ghost use Rattle.book_state.specs.declared.limits.TheConstants.{MAX_OPENINGS};
ghost use Rattle.book_state.specs.Step.{Working, Works, holds_text};
ghost use Rattle.stat_book.specs.Calls.{state_of, IsLegal, openings_by};
ghost use Rattle.book_access.specs.Making.{FindsKey, AnswersCall, LogsCall, AcksAll};

use stat_book::Book;
use stat_defs::{Acked, FindAnswer, Key, MetricId, NoMemory, Txt, Verdict};
use std::alloc::Global;

pub(crate) fn find_in(
    book: &mut Book,
    alloc: Global,
    number: u32,
    key: &Key,
) -> Result<FindAnswer, NoMemory>
    requires works { Working (state_of book.old) number (λ row. IsNone (held_under key.now row.held)) }
    requires name { IsLocalName key.now.name }
    ensures step { IfOk result (λ answer. FindsKey key.now answer number book.old book.new) }
    ensures legal { IsLegal book.new }
    ensures err { OnErr result (book.new ≡ book.old) }
{
    let answer = book.find(alloc, number, key);
    book.has_legal_log();
    answer
}

pub(crate) fn open_in(
    book: &mut Book,
    alloc: Global,
    number: u32,
    label: &Txt,
    prefix: &Txt,
) -> Result<Verdict, NoMemory>
    requires works { Works (state_of book.old) number }
    requires prefix { IsScopePrefix prefix.now }
    requires room { openings_by number book.old.log < MAX_OPENINGS }
    ensures step { IfOk result (λ verdict. AnswersCall (call.OpenScope label.now prefix.now) verdict number
        book.old book.new) }
    ensures legal { IsLegal book.new }
    ensures err { OnErr result (book.new ≡ book.old) }
{
    let verdict = book.open(alloc, number, label, prefix);
    book.has_legal_log();
    verdict
}

pub(crate) fn release_in(
    book: &mut Book,
    alloc: Global,
    number: u32,
    label: &Txt,
) -> Result<Verdict, NoMemory>
    requires works { Works (state_of book.old) number }
    ensures step { IfOk result (λ verdict. AnswersCall (call.Release label.now) verdict number book.old book.new) }
    ensures legal { IsLegal book.new }
    ensures err { OnErr result (book.new ≡ book.old) }
{
    let verdict = book.release(alloc, number, label);
    book.has_legal_log();
    verdict
}

pub(crate) fn set_text_in(
    book: &mut Book,
    alloc: Global,
    number: u32,
    id: MetricId,
    text: &Txt,
) -> Result<(), NoMemory>
    requires works { Working (state_of book.old) number (λ row. holds_text id.0 row ≡ true) }
    ensures step { OnOk result (LogsCall (call.SetText id text.now) reply.TextSet number book.old book.new) }
    ensures legal { IsLegal book.new }
    ensures err { OnErr result (book.new ≡ book.old) }
{
    let set = book.set_text(alloc, number, id, text);
    book.has_legal_log();
    set
}

pub(crate) fn ack_in(book: &mut Book, alloc: Global, number: u32) -> Result<Acked, NoMemory>
    requires due { Working (state_of book.old) number (λ row. row.tag < releases_in book.old.log) }
    ensures step { IfOk result (λ acked. AcksAll acked number book.old book.new) }
    ensures legal { IsLegal book.new }
    ensures err { OnErr result (book.new ≡ book.old) }
{
    book.has_legal_log();
    let acked = book.ack(alloc, number);
    book.has_legal_log();
    acked
}

pub(crate) fn end_in(book: &mut Book, alloc: Global, number: u32) -> Result<(), NoMemory>
    requires works { Works (state_of book.old) number }
    ensures step { OnOk result (LogsCall call.End reply.Ended number book.old book.new) }
    ensures legal { IsLegal book.new }
    ensures err { OnErr result (book.new ≡ book.old) }
{
    let ended = book.end(alloc, number);
    book.has_legal_log();
    ended
}
