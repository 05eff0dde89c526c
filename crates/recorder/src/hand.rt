//! A worker's seats of the banks, and its halves.
ghost use Rattle.std.specs.Prelude.{◌≡◌, ℕ, ◌<◌, ◌∷◌, IsOk, OnOk, OnErr};
ghost use Rattle.stat_defs.specs.Borrowed.{event_of};
ghost use Rattle.stat_defs.specs.Events.{IsLawfulEvent};
ghost use Rattle.metric_words.specs.Gauges.{gauge_step};
ghost use Rattle.metric_words.specs.GaugeLedger.{gauges_id, gauges_size, gauge_known, after_gauge_step};
ghost use Rattle.run_ledger.specs.Grows.{kind_of};
ghost use Rattle.book_seat.specs.Naming.{NamesInRoom};
ghost use Rattle.recorder.specs.Acting.{IsSure};
ghost use Rattle.recorder.specs.Hands.{IsHandOf, HasRoom, Acts, IsRecording};

use half_side::HalfSide;
use metric_words::{GaugeBank, GaugeSeat, WorkerSeat};
use stat_defs::{EventRef, GaugeOp, MetricId, NoMemory, Verdict};
use std::alloc::Global;
use store_parts::Store;

#[derive(Drop)]
pub(crate) struct Hand {
    pub(crate) counts: WorkerSeat,
    pub(crate) gauges: GaugeSeat,
    pub(crate) side: HalfSide,
}

// One step on a gauge.
#[inline(always)]
fn step(bank: &GaugeBank, seat: &mut GaugeSeat, id: MetricId, op: GaugeOp, n: u64)
    requires bank { (gauge_known seat.old).bank ≡ gauges_id bank.now }
    requires id { id.0 < gauges_size bank.now }
    ensures { (x : ℕ)
        × (gauge_known seat.new ≡ after_gauge_step (gauge_step (kind_of op) id.0 n x) (gauge_known seat.old)) }
{
    match op {
        GaugeOp::Add => bank.add(seat, id, n),
        GaugeOp::Sub => bank.sub(seat, id, n),
        GaugeOp::Set => {
            let _displaced = bank.set(seat, id, n);
        }
    }
}

// Makes what an event with this verdict makes: its one add, gauge step or recording where it is accepted, and nothing
// else. A recording alone may want memory.
#[inline(always)]
pub(crate) fn act(
    hand: &mut Hand,
    alloc: Global,
    store: &Store,
    event: &EventRef<'_>,
    verdict: Verdict,
) -> Result<(), NoMemory>
    requires own { IsHandOf store.now hand.old }
    requires lawful { IsLawfulEvent (event_of event.now) }
    requires word { NamesInRoom (event_of event.now) verdict }
    requires room { HasRoom hand.old }
    ensures sure { IsSure (event_of event.now) verdict hand.old.side.active → IsOk result }
    ensures acts { OnOk result (Acts (event_of event.now, verdict) hand.old hand.new) }
    ensures same { OnErr result (hand.new ≡ hand.old) }
    ensures event { OnErr result (IsRecording (event_of event.now)) }
{
    let Verdict::Accepted(id) = verdict else {
        return Ok(());
    };
    match *event {
        EventRef::Inc { n, .. } => {
            store.counters.add(&mut hand.counts, id, n);
            Ok(())
        }
        EventRef::Gauge { op, n, .. } => {
            step(&store.gauges, &mut hand.gauges, id, op, n);
            Ok(())
        }
        EventRef::Rec { v, .. } => hand.side.record(alloc, id, v),
        EventRef::SetText { .. } => Ok(()),
        EventRef::OpenScope { .. } => Ok(()),
        EventRef::Release { .. } => Ok(()),
    }
}
