ghost use Rattle.std.specs.Prelude.{◌≡◌, ℕ, ◌+◌, ◌*◌, ◌≤◌, true, false, MatchResult};
ghost use Rattle.turn_cell.specs.declared.limits.TheConstants.{MAX_TURNED};
ghost use Rattle.turn_cell.specs.Tokens.{cell_id, worker_known, note_known, idle_known, flusher_known, holding_known};
ghost use Rattle.turn_cell.specs.Tokens.{weight_of};

use stat_defs::{NoMemory, Weighed};
use std::alloc::Global;
use std::test::Fail;
use std::thread::{Threads, join, yield_now};
use turn_cell::{
    FlushAny, FlushHolding, FlushIdle, LeftNote, Request, Rest, Take, TurnCell, TurnWorker,
};

/// A half with so many values, known by its number.
#[derive(Clone, Copy, Drop)]
struct Batch {
    number: u32,
    values: u64,
}

impl Weighed for Batch {
    ghost weighs = { λ b. b.values };

    fn weight(&self) -> u64 {
        self.values
    }
}

const EMPTY: Batch = Batch {
    number: 0,
    values: 0,
};

#[test]
fn one_round(rt: HostRuntime) -> Result<(), Fail> {
    let first = Batch {
        number: 1,
        values: 0,
    };
    let (cell, mut worker, idle) = TurnCell::new(rt.alloc(), EMPTY)?;
    assert!(rt; !cell.asked(&mut worker));
    let Request::Asked(waiting) = cell.request(idle) else {
        panic!(rt; "left")
    };
    let Take::NotYet(waiting, word) = cell.take(waiting) else {
        panic!(rt; "a half that was not turned")
    };
    if !cell.asked(&mut worker) {
        panic!(rt; "not asked")
    }
    let spare = cell.turn(&mut worker, first);
    let Take::Full(half, holding) = cell.take(waiting) else {
        panic!(rt; "no half")
    };
    let idle = cell.give_back(holding, first);
    let note = cell.leave(worker);
    let Request::Left(idle) = cell.request(idle) else {
        panic!(rt; "asked")
    };
    let rest = cell.close(note, FlushAny::Idle(idle));
    assert!(rt; word == 1 && spare.number == 0 && half.number == 1);
    assert!(rt; rest.half.number == 1 && !rest.full);
    Ok(())
}

// Turns a half where the flusher asks for one.
fn poll(cell: &TurnCell<Batch>, w: &mut TurnWorker<Batch>, half: Batch) -> bool
    requires cell { (worker_known w.old).cell ≡ cell_id cell.now }
    requires weights { weight_of (λ b. b.values) (worker_known w.old) + half.values ≤ MAX_TURNED }
    ensures cell { (worker_known w.new).cell ≡ cell_id cell.now }
    ensures turned { result ≡ true
        → weight_of (λ b. b.values) (worker_known w.new)
        ≡ weight_of (λ b. b.values) (worker_known w.old) + half.values }
    ensures stays { result ≡ false
        → weight_of (λ b. b.values) (worker_known w.new) ≡ weight_of (λ b. b.values) (worker_known w.old) }
{
    if cell.asked(w) {
        cell.turn(w, half);
        true
    } else {
        false
    }
}

type Side = Result<TurnWorker<Batch>, LeftNote<Batch>>;

// The worker's next call, and a letter of what it said.
fn worker_calls(cell: &TurnCell<Batch>, side: Side, call: u8, number: u32) -> (Side, u8)
    requires { MatchResult side (λ w. ((worker_known w).cell ≡ cell_id cell.now)
        × (weight_of (λ b. b.values) (worker_known w) ≡ 0))
        (λ note. (note_known note).cell ≡ cell_id cell.now) }
    ensures { MatchResult result.0 (λ w. ((worker_known w).cell ≡ cell_id cell.now)
        × (weight_of (λ b. b.values) (worker_known w) ≡ 0))
        (λ note. (note_known note).cell ≡ cell_id cell.now) }
{
    match side {
        Ok(w) => {
            if call == b'l' {
                return (Err(cell.leave(w)), b'l');
            }
            let mut w = w;
            let half = Batch { number, values: 0 };
            let said = if poll(cell, &mut w, half) { b't' } else { b'-' };
            (Ok(w), said)
        }
        Err(note) => (Err(note), b'?'),
    }
}

type Hand = Result<FlushAny<Batch>, FlushHolding<Batch>>;

/// What a call of the flusher said.
#[derive(Drop)]
enum Said {
    Asked,
    NotYet,
    Left,
    Taken(Batch),
    Given,
}

// The flusher's next call.
fn flusher_calls(cell: &TurnCell<Batch>, hand: Hand) -> (Hand, Said)
    requires { MatchResult hand (λ f. (flusher_known f).cell ≡ cell_id cell.now)
        (λ h. (holding_known h).cell ≡ cell_id cell.now) }
    ensures { MatchResult result.0 (λ f. (flusher_known f).cell ≡ cell_id cell.now)
        (λ h. (holding_known h).cell ≡ cell_id cell.now) }
{
    match hand {
        Ok(FlushAny::Idle(f)) => match cell.request(f) {
            Request::Asked(w) => (Ok(FlushAny::Waiting(w)), Said::Asked),
            Request::Left(i) => (Ok(FlushAny::Idle(i)), Said::Left),
        },
        Ok(FlushAny::Waiting(f)) => match cell.take(f) {
            Take::Full(half, h) => (Err(h), Said::Taken(half)),
            Take::NotYet(w, _) => (Ok(FlushAny::Waiting(w)), Said::NotYet),
            Take::Left(i) => (Ok(FlushAny::Idle(i)), Said::Left),
        },
        Err(h) => (Ok(FlushAny::Idle(cell.give_back(h, EMPTY))), Said::Given),
    }
}

fn letter(half: Batch) -> u8 {
    if half.number < 10 {
        half.number as u8 + b'0'
    } else {
        b'?'
    }
}

fn letter_of(said: Said) -> u8 {
    match said {
        Said::Asked => b'a',
        Said::NotYet => b'n',
        Said::Left => b'x',
        Said::Taken(half) => letter(half),
        Said::Given => b'g',
    }
}

// Gives a half back that the flusher holds.
fn settled(cell: &TurnCell<Batch>, hand: Hand) -> FlushAny<Batch>
    requires { MatchResult hand (λ f. (flusher_known f).cell ≡ cell_id cell.now)
        (λ h. (holding_known h).cell ≡ cell_id cell.now) }
    ensures { (flusher_known result).cell ≡ cell_id cell.now }
{
    match hand {
        Ok(any) => any,
        Err(h) => FlushAny::Idle(cell.give_back(h, EMPTY)),
    }
}

// Closes the cell, and gives a letter for what was in it.
fn end(cell: TurnCell<Batch>, side: Side, hand: Hand) -> u8
    requires side { MatchResult side (λ w. ((worker_known w).cell ≡ cell_id cell)
        × (weight_of (λ b. b.values) (worker_known w) ≡ 0)) (λ note. (note_known note).cell ≡ cell_id cell) }
    requires hand { MatchResult hand (λ f. (flusher_known f).cell ≡ cell_id cell)
        (λ h. (holding_known h).cell ≡ cell_id cell) }
{
    let note = match side {
        Ok(w) => cell.leave(w),
        Err(note) => note,
    };
    let any = settled(&cell, hand);
    let rest = cell.close(note, any);
    if rest.full { letter(rest.half) } else { b'.' }
}

// Whether each call in this order says what is wanted. The last letter is for what `close` gives.
fn says(alloc: Global, order: &str, want: &str) -> Result<bool, NoMemory> {
    let (cell, worker, idle) = TurnCell::new(alloc, EMPTY)?;
    let mut side: Side = Ok(worker);
    let mut hand: Hand = Ok(FlushAny::Idle(idle));
    let mut same = true;
    let mut number = 1;
    for (call, want) in order.bytes().zip(want.bytes()) {
        let letter;
        if call == b'f' {
            let said;
            (hand, said) = flusher_calls(&cell, hand);
            letter = letter_of(said);
        } else {
            (side, letter) = worker_calls(&cell, side, call, number);
            if letter == b't' {
                number = 2;
            }
        }
        same = same && letter == want;
    }
    let said = end(cell, side, hand);
    Ok(same && want.as_bytes().last() == Some(&said))
}

// Each order of the calls of a worker that polls twice and leaves, and of a flusher's six calls, and what
// they say:
// `a` asked, `n` not yet, `x` left, `g` given back, `t` turned, `-` not asked; a digit is the number of the
// half that was taken, or that is in the cell at the end.
const ORDERS: &str = "\
wwlffffff --lxxxxxx.;wwflfffff --alxxxxx.;wwfflffff --anlxxxx.;wwffflfff --annlxxx.;\
wwfffflff --annnlxx.;wwffffflf --annnnlx.;wwffffffl --annnnnl.;wfwlfffff -atl1gxxx.;\
wfwflffff -at1lgxxx.;wfwfflfff -at1glxxx.;wfwffflff -at1galxx.;wfwfffflf -at1ganlx.;\
wfwfffffl -at1gannl.;wffwlffff -antl1gxx.;wffwflfff -ant1lgxx.;wffwfflff -ant1glxx.;\
wffwffflf -ant1galx.;wffwffffl -ant1ganl.;wfffwlfff -anntl1gx.;wfffwflff -annt1lgx.;\
wfffwfflf -annt1glx.;wfffwfffl -annt1gal.;wffffwlff -annntl1g.;wffffwflf -annnt1lg.;\
wffffwffl -annnt1gl.;wfffffwlf -annnntl1.;wfffffwfl -annnnt1l.;wffffffwl -annnnntl1;\
fwwlfffff at-l1gxxx.;fwwflffff at-1lgxxx.;fwwfflfff at-1glxxx.;fwwffflff at-1galxx.;\
fwwfffflf at-1ganlx.;fwwfffffl at-1gannl.;fwfwlffff at1-lgxxx.;fwfwflfff at1-glxxx.;\
fwfwfflff at1-galxx.;fwfwffflf at1-ganlx.;fwfwffffl at1-gannl.;fwffwlfff at1g-lxxx.;\
fwffwflff at1g-alxx.;fwffwfflf at1g-anlx.;fwffwfffl at1g-annl.;fwfffwlff at1gatl2g.;\
fwfffwflf at1gat2lg.;fwfffwffl at1gat2gl.;fwffffwlf at1gantl2.;fwffffwfl at1gant2l.;\
fwfffffwl at1ganntl2;ffwwlffff ant-l1gxx.;ffwwflfff ant-1lgxx.;ffwwfflff ant-1glxx.;\
ffwwffflf ant-1galx.;ffwwffffl ant-1ganl.;ffwfwlfff ant1-lgxx.;ffwfwflff ant1-glxx.;\
ffwfwfflf ant1-galx.;ffwfwfffl ant1-ganl.;ffwffwlff ant1g-lxx.;ffwffwflf ant1g-alx.;\
ffwffwffl ant1g-anl.;ffwfffwlf ant1gatl2.;ffwfffwfl ant1gat2l.;ffwffffwl ant1gantl2;\
fffwwlfff annt-l1gx.;fffwwflff annt-1lgx.;fffwwfflf annt-1glx.;fffwwfffl annt-1gal.;\
fffwfwlff annt1-lgx.;fffwfwflf annt1-glx.;fffwfwffl annt1-gal.;fffwffwlf annt1g-lx.;\
fffwffwfl annt1g-al.;fffwfffwl annt1gatl2;ffffwwlff annnt-l1g.;ffffwwflf annnt-1lg.;\
ffffwwffl annnt-1gl.;ffffwfwlf annnt1-lg.;ffffwfwfl annnt1-gl.;ffffwffwl annnt1g-l.;\
fffffwwlf annnnt-l1.;fffffwwfl annnnt-1l.;fffffwfwl annnnt1-l.;ffffffwwl annnnnt-l1";

#[test]
fn every_order_of_two_rounds(rt: HostRuntime) -> Result<(), Fail> {
    let mut rows = 0u32;
    for row in ORDERS.split(';') {
        let Some((order, want)) = row.split_once(' ') else {
            panic!(rt; "no row: {row}")
        };
        assert!(rt; says(rt.alloc(), order, want)?, "{row}");
        rows = rows.wrapping_add(1);
    }
    assert!(rt; rows == 84);
    Ok(())
}

const ROUNDS: u32 = 10_000;

// A party gives up after so many calls that found nothing to do; none comes near it.
const TRIES: u32 = 20_000_000;

/// What the worker put in: how many halves, and how many values.
#[derive(Drop)]
struct Filled {
    note: LeftNote<Batch>,
    halves: u32,
    values: u64,
}

// Turns halves of up to 12 values wherever it is asked, and leaves after the last round.
fn fill(cell: &TurnCell<Batch>, mut w: TurnWorker<Batch>) -> Filled
    requires { ((worker_known w).cell ≡ cell_id cell.now) × (weight_of (λ b. b.values) (worker_known w) ≡ 0) }
    ensures { (note_known result.note).cell ≡ cell_id cell.now }
{
    let mut halves = 0u32;
    let mut values = 0u64;
    for _ in 0..TRIES {
        if halves < ROUNDS {
            let half = Batch {
                number: halves + 1,
                values: (halves % 13) as u64,
            };
            if poll(cell, &mut w, half) {
                halves += 1;
                values += half.values;
            } else {
                yield_now();
            }
        } else {
            break;
        }
    }
    Filled {
        note: cell.leave(w),
        halves,
        values,
    }
}

/// What the flusher took out, and whether the halves came in order.
#[derive(Drop)]
struct Drained {
    hand: Result<FlushAny<Batch>, FlushHolding<Batch>>,
    halves: u32,
    values: u64,
    in_order: bool,
}

// Asks for one half after another, and stops once it asked for the last one.
fn drain(cell: &TurnCell<Batch>, f: FlushIdle<Batch>) -> Drained
    requires { (idle_known f).cell ≡ cell_id cell.now }
    ensures { MatchResult result.hand (λ f. (flusher_known f).cell ≡ cell_id cell.now)
        (λ h. (holding_known h).cell ≡ cell_id cell.now) }
{
    let mut hand: Hand = Ok(FlushAny::Idle(f));
    let mut halves = 0u32;
    let mut values = 0u64;
    let mut in_order = true;
    for _ in 0..TRIES {
        let said;
        (hand, said) = flusher_calls(cell, hand);
        match said {
            Said::Taken(half) => {
                halves = halves.wrapping_add(1);
                values = values.wrapping_add(half.values);
                in_order = in_order && half.number == halves;
            }
            Said::NotYet => yield_now(),
            Said::Asked if halves.wrapping_add(1) < ROUNDS => {}
            Said::Given => {}
            _ => break,
        }
    }
    Drained {
        hand,
        halves,
        values,
        in_order,
    }
}

fn run_both<R: Threads + Sync>(
    rt: &R,
    cell: &TurnCell<Batch>,
    worker: TurnWorker<Batch>,
    idle: FlushIdle<Batch>,
) -> (Filled, Drained)
    requires worker { ((worker_known worker).cell ≡ cell_id cell.now)
        × (weight_of (λ b. b.values) (worker_known worker) ≡ 0) }
    requires idle { (idle_known idle).cell ≡ cell_id cell.now }
    ensures filled { (note_known result.0.note).cell ≡ cell_id cell.now }
    ensures drained { MatchResult result.1.hand (λ f. (flusher_known f).cell ≡ cell_id cell.now)
        (λ h. (holding_known h).cell ≡ cell_id cell.now) }
{
    join(
        rt,
        move || -> Filled
            requires { ((worker_known worker).cell ≡ cell_id cell.now)
                × (weight_of (λ b. b.values) (worker_known worker) ≡ 0) }
            ensures { (note_known result.note).cell ≡ cell_id cell.entry.now }
        { fill(cell, worker) },
        move || -> Drained
            requires { (idle_known idle).cell ≡ cell_id cell.now }
            ensures { MatchResult result.hand (λ f. (flusher_known f).cell ≡ cell_id cell.entry.now)
                (λ h. (holding_known h).cell ≡ cell_id cell.entry.now) }
        { drain(cell, idle) },
    )
}

#[test]
fn ten_thousand_requests(rt: HostRuntime) -> Result<(), Fail> {
    let (cell, worker, idle) = TurnCell::new(rt.alloc(), EMPTY)?;
    let (filled, drained) = run_both(&rt, &cell, worker, idle);
    let Filled {
        note,
        halves: turned,
        values: put,
    } = filled;
    let Drained {
        hand,
        halves: taken,
        values: got,
        in_order,
    } = drained;
    let any = settled(&cell, hand);
    let Rest { half, full } = cell.close(note, any);
    assert!(rt; turned == 10_000 && taken == 9_999 && in_order);
    assert!(rt; full && half.number == 10_000);
    assert!(rt; got.wrapping_add(half.values) == put);
    Ok(())
}
