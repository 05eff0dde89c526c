//! How a recorder is made, and what an event does.
ghost use Rattle.std.specs.Prelude.{◌≡◌, ℕ, ◌<◌, ◌++◌, [], ◌∷◌, IsOk, IfOk, OnErr};
ghost use Rattle.stat_defs.specs.Borrowed.{event_of};
ghost use Rattle.stat_defs.specs.Events.{IsLawfulEvent};
ghost use Rattle.stat_defs.specs.declared.events.Event.{Event as TheEvent};
ghost use Rattle.stat_defs.specs.declared.history.Verdict.{Verdict as TheVerdict};
ghost use Rattle.book_seat.specs.SeatKept.{IsNewSeat};
ghost use Rattle.book_seat.specs.Deciding.{hit_in};
ghost use Rattle.locked_book.specs.Sharing.{known_by};
ghost use Rattle.metric_words.specs.CounterLedger.{worker_known, worker_part};
ghost use Rattle.metric_words.specs.GaugeLedger.{gauge_known, gauge_part};
ghost use Rattle.store_parts.specs.Ids.{ids_of, lock_of};
ghost use Rattle.recorder.specs.declared.limits.TheConstants.{MAX_GIVEN};
ghost use Rattle.recorder.specs.Calling.{Hits, IsSureHit, Applies, IsCutShort};

use crate::hand::{Hand, act};
use crate::recorder::Recorder;
use book_seat::BookSeat;
use ghost_list::GhostList;
use half_side::HalfSide;
use locked_book::{LockedBook, Way};
use metric_words::{GaugeSeat, WorkerSeat};
use stat_defs::{Event, EventRef, NoMemory, Verdict};
use std::alloc::Global;
use std::sync::Wait;
use store_parts::Store;

// The events with their verdicts, and behind them this one.
#[inline(always)]
fn with_event(
    work: &GhostList<(Event, Verdict)>,
    event: &EventRef<'_>,
    verdict: Verdict,
) -> GhostList<(Event, Verdict)>
    ghost told: { TheEvent × TheVerdict }
    requires { told ≡ (event_of event.now, verdict) }
    ensures { result.items ≡ work.now.items ++ (event_of event.now, verdict) ∷ [] }
{
    work.and_for(&())
}

impl Recorder {
    /// A recorder of seats that have done nothing yet. `place` is that of its cell among those of the store.
    pub fn new(
        seat: BookSeat<LockedBook>,
        counts: WorkerSeat,
        gauges: GaugeSeat,
        side: HalfSide,
        place: u32,
    ) -> Recorder
        requires seat { IsNewSeat (known_by seat) }
        requires counts { (worker_part counts).steps ≡ [] }
        requires gauges { ((gauge_part gauges).steps ≡ []) × ((gauge_known gauges).taken ≡ []) }
        requires side { (side.cell.halves ≡ []) × (side.active.values ≡ []) }
        ensures { result ≡ record {
          of = record { lock = lock_of seat; counters = (worker_known counts).bank; gauges = (gauge_known gauges).bank };
          work = [];
          seat = known_by seat;
          counts = worker_part counts;
          gauges = gauge_part gauges;
          side = side;
          place = place;
          given = 0;
        } }
    {
        Recorder {
            seat,
            hand: Hand {
                counts,
                gauges,
                side,
            },
            place,
            given: 0,
            work: GhostList::new(),
        }
    }

    /// Applies an event whose key is held, without the lock: its verdict is the held one, and where that accepts, the
    /// event makes its one add, gauge step or recording. None for a text, an opening and a release, and where the key is
    /// not held. It takes no memory but for the first value of a histogram in a half; where there is none, nothing
    /// changes.
    #[inline(always)]
    pub fn apply_hit(
        &mut self,
        alloc: Global,
        store: &Store,
        event: &EventRef<'_>,
    ) -> Result<Option<Verdict>, NoMemory>
        requires own { self.old.of ≡ ids_of store.now }
        requires lawful { IsLawfulEvent (event_of event.now) }
        requires few { self.old.given < MAX_GIVEN }
        ensures sure { IsSureHit self.old (event_of event.now) → IsOk result }
        ensures hit { IfOk result (λ told. told ≡ hit_in self.old.seat (event_of event.now)) }
        ensures did { IfOk result (λ told. Hits (event_of event.now) told self.old self.new) }
        ensures err { OnErr result (self.new ≡ self.old) }
    {
        let Some(verdict) = self.seat.hit_event(event) else {
            return Ok(None);
        };
        act(&mut self.hand, alloc, store, event, verdict)?;
        self.given += 1;
        self.work = with_event(&self.work, event, verdict);
        Ok(Some(verdict))
    }

    /// Applies an event, where no acknowledgement is due: by what is held, else by one find, one opening or one release
    /// of the book, under its lock, which may wait. The text of an accepted readout is set by one call more. Where there
    /// is no memory the event counts as given, and the log may have the find of its key.
    #[inline(always)]
    pub fn apply<R: Wait>(
        &mut self,
        rt: &R,
        alloc: Global,
        store: &Store,
        event: &EventRef<'_>,
    ) -> Result<Verdict, NoMemory>
        requires own { self.old.of ≡ ids_of store.now }
        requires lawful { IsLawfulEvent (event_of event.now) }
        requires few { self.old.given < MAX_GIVEN }
        ensures ok { IfOk result (λ verdict. Applies (event_of event.now) verdict self.old self.new) }
        ensures err { OnErr result (IsCutShort (event_of event.now) self.old self.new) }
    {
        self.given += 1;
        let way = Way {
            rt,
            book: &store.book,
        };
        let verdict = self.seat.decide(&way, alloc, event)?;
        act(&mut self.hand, alloc, store, event, verdict)?;
        self.work = with_event(&self.work, event, verdict);
        Ok(verdict)
    }
}
