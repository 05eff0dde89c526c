//! What an event does.
ghost use Rattle.std.specs.Prelude.{◌≡◌, ◌<◌, Ok, IfSome, IfOk, OnOk, OnErr};
ghost use Rattle.stat_defs.specs.Names.{IsLocalName, IsScopePrefix};
ghost use Rattle.stat_defs.specs.Borrowed.{event_of};
ghost use Rattle.stat_defs.specs.Events.{IsLawfulEvent};
ghost use Rattle.stat_defs.specs.declared.events.Event.TheVariants as event;
ghost use Rattle.stat_defs.specs.declared.history.Call.TheVariants as call;
ghost use Rattle.stat_defs.specs.declared.history.Verdict.TheVariants as verdict;
ghost use Rattle.book_state.specs.declared.limits.TheConstants.{MAX_OPENINGS};
ghost use Rattle.book_access.specs.Calling.{known_state, WorksUnder, opened};
ghost use Rattle.book_seat.specs.Naming.{MaySet, IsInRoom};
ghost use Rattle.book_seat.specs.Deciding.{hit_in, CallsBook, SetsText, CallsInVain, DecidesEvent, CutsEvent};

use crate::seat::BookSeat;
use book_access::{BookAccess, KnowsLog};
use stat_defs::{EventRef, Kind, MetricId, Mode, NoMemory, Txt, Verdict};
use std::alloc::Global;
use thread_cache::Query;

impl<A: KnowsLog> BookSeat<A> {
    // Opens a scope.
    fn open<W>(
        &mut self,
        way: &W,
        alloc: Global,
        label: &[u8],
        prefix: &[u8],
    ) -> Result<Verdict, NoMemory>
    where
        A: BookAccess<W>,
        requires rests { A.rests way.now self.old }
        requires works { WorksUnder (A.known self.old) }
        requires prefix { IsScopePrefix prefix.now }
        requires room { opened (A.known self.old) < MAX_OPENINGS }
        ensures rests { A.rests way.now self.new }
        ensures step { IfOk result (λ verdict. CallsBook 1 (call.OpenScope label.now prefix.now) verdict
            (A.known self.old) (A.known self.new)) }
        ensures err { OnErr result (CallsInVain (A.known self.old) (A.known self.new)) }
    {
        self.waits_in_vain();
        let label = Txt::of(alloc, label)?;
        let prefix = Txt::of(alloc, prefix)?;
        self.access.open(way, alloc, &label, &prefix)
    }

    // Releases a scope.
    fn release<W>(&mut self, way: &W, alloc: Global, label: &[u8]) -> Result<Verdict, NoMemory>
    where
        A: BookAccess<W>,
        requires rests { A.rests way.now self.old }
        requires works { WorksUnder (A.known self.old) }
        ensures rests { A.rests way.now self.new }
        ensures step { IfOk result (λ verdict. CallsBook 0 (call.Release label.now) verdict
            (A.known self.old) (A.known self.new)) }
        ensures err { OnErr result (CallsInVain (A.known self.old) (A.known self.new)) }
    {
        self.waits_in_vain();
        let label = Txt::of(alloc, label)?;
        self.access.release(way, alloc, &label)
    }

    // Sets the text of a readout that the seat holds.
    fn set_text<W>(
        &mut self,
        way: &W,
        alloc: Global,
        id: MetricId,
        text: &[u8],
    ) -> Result<(), NoMemory>
    where
        A: BookAccess<W>,
        requires rests { A.rests way.now self.old }
        requires works { WorksUnder (A.known self.old) }
        requires holds { MaySet (known_state (A.known self.old)) (A.known self.old).number (verdict.Accepted id) }
        ensures rests { A.rests way.now self.new }
        ensures sets { OnOk result (SetsText text.now (verdict.Accepted id) (A.known self.old) (A.known self.new)) }
        ensures err { OnErr result (CallsInVain (A.known self.old) (A.known self.new)) }
    {
        self.waits_in_vain();
        let text = Txt::of(alloc, text)?;
        self.access.set_text(way, alloc, id, &text)
    }

    // Sets the text of a readout if it was accepted.
    fn set_accepted<W>(
        &mut self,
        way: &W,
        alloc: Global,
        verdict: Verdict,
        text: &[u8],
    ) -> Result<(), NoMemory>
    where
        A: BookAccess<W>,
        requires rests { A.rests way.now self.old }
        requires works { WorksUnder (A.known self.old) }
        requires holds { MaySet (known_state (A.known self.old)) (A.known self.old).number verdict }
        ensures rests { A.rests way.now self.new }
        ensures sets { OnOk result (SetsText text.now verdict (A.known self.old) (A.known self.new)) }
        ensures err { OnErr result (CallsInVain (A.known self.old) (A.known self.new)) }
    {
        self.waits_in_vain();
        match verdict {
            Verdict::Accepted(id) => self.set_text(way, alloc, id, text),
            _ => Ok(()),
        }
    }

    // Judges the key of a text readout, and sets the text where it is accepted.
    fn set_readout<W>(
        &mut self,
        way: &W,
        alloc: Global,
        label: &[u8],
        name: &[u8],
        text: &[u8],
    ) -> Result<Verdict, NoMemory>
    where
        A: BookAccess<W>,
        requires rests { A.rests way.now self.old }
        requires works { WorksUnder (A.known self.old) }
        requires name { IsLocalName name.now }
        ensures rests { A.rests way.now self.new }
        ensures decided { IfOk result (λ verdict. DecidesEvent (event.SetText label.now name.now text.now) verdict
            (A.known self.old) (A.known self.new)) }
        ensures err { OnErr result (CutsEvent (event.SetText label.now name.now text.now)
            (A.known self.old) (A.known self.new)) }
    {
        let query = Query {
            label,
            kind: Kind::Text,
            mode: Mode::Uninit,
            name,
        };
        let verdict = self.judge(way, alloc, &query)?;
        self.set_accepted(way, alloc, verdict, text)?;
        Ok(verdict)
    }

    /// The verdict that one look-up decides: that which is held under the event's key. None for a text, an opening and a
    /// release. It takes no memory, and leaves the book alone.
    #[inline(always)]
    pub fn hit_event(&self, event: &EventRef<'_>) -> Option<Verdict>
        ensures hit { result ≡ hit_in (A.known self.now) (event_of event.now) }
        ensures in_room { IfSome result IsInRoom }
    {
        match *event {
            EventRef::Inc { label, name, .. } => self.hit(&Query {
                label,
                kind: Kind::Counter,
                mode: Mode::Uninit,
                name,
            }),
            EventRef::Gauge {
                label,
                name,
                mode,
                ..
            } => self.hit(&Query {
                label,
                kind: Kind::Gauge,
                mode,
                name,
            }),
            EventRef::Rec { label, name, .. } => self.hit(&Query {
                label,
                kind: Kind::Histogram,
                mode: Mode::Uninit,
                name,
            }),
            _ => None,
        }
    }

    /// Decides an event where no acknowledgement is due: by what is held, which leaves everything as it is, else by one
    /// call of the book. An accepted text is set by one call more.
    #[inline(always)]
    pub fn decide<W>(
        &mut self,
        way: &W,
        alloc: Global,
        event: &EventRef<'_>,
    ) -> Result<Verdict, NoMemory>
    where
        A: BookAccess<W>,
        requires rests { A.rests way.now self.old }
        requires works { WorksUnder (A.known self.old) }
        requires lawful { IsLawfulEvent (event_of event.now) }
        requires room { opened (A.known self.old) < MAX_OPENINGS }
        ensures rests { A.rests way.now self.new }
        ensures decided { IfOk result (λ verdict. DecidesEvent (event_of event.now) verdict
            (A.known self.old) (A.known self.new)) }
        ensures alone { IfSome (hit_in (A.known self.old) (event_of event.now))
            (λ held. (result ≡ Ok held) × (self.new ≡ self.old)) }
        ensures err { OnErr result (CutsEvent (event_of event.now) (A.known self.old) (A.known self.new)) }
    {
        match *event {
            EventRef::Inc { label, name, .. } => {
                let query = Query {
                    label,
                    kind: Kind::Counter,
                    mode: Mode::Uninit,
                    name,
                };
                self.judge(way, alloc, &query)
            }
            EventRef::Gauge {
                label,
                name,
                mode,
                ..
            } => {
                let query = Query {
                    label,
                    kind: Kind::Gauge,
                    mode,
                    name,
                };
                self.judge(way, alloc, &query)
            }
            EventRef::Rec { label, name, .. } => {
                let query = Query {
                    label,
                    kind: Kind::Histogram,
                    mode: Mode::Uninit,
                    name,
                };
                self.judge(way, alloc, &query)
            }
            EventRef::SetText { label, name, text } => {
                self.set_readout(way, alloc, label, name, text)
            }
            EventRef::OpenScope { label, prefix } => self.open(way, alloc, label, prefix),
            EventRef::Release { label } => self.release(way, alloc, label),
        }
    }
}
