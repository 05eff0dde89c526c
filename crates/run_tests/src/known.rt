//! Which metrics are not gone at each place of the log of a run whose workers each have one scope at a time, and names of
//! its own.

use stat_defs::{Call, Entry, Kind, MetricId, NoMemory, Reading, Reply};
use std::alloc::Global;

// The metric is borne by its worker's scope, or since this number of releases by none, or a sweep took it away.
#[derive(Drop)]
enum Stage {
    Borne,
    Retired(u64),
    Gone,
}

#[derive(Drop)]
struct Known {
    id: MetricId,
    worker: u32,
    kind: Kind,
    stage: Stage,
}

#[derive(Drop)]
struct Acknowledged {
    worker: u32,
    releases: u64,
}

/// The metrics that were made so far, and how many releases each worker knows of.
#[derive(Drop)]
pub(crate) struct KnownNames {
    metrics: Vec<Known>,
    workers: Vec<Acknowledged>,
    releases: u64,
    /// Whether each sweep took away as many as it told.
    pub(crate) agrees: bool,
}

fn kind_of(call: &Call) -> Kind {
    match call {
        Call::Find { key } => key.kind,
        _ => Kind::Text,
    }
}

impl KnownNames {
    /// No metric, and this number of workers.
    pub(crate) fn new(alloc: Global, workers: u32) -> Result<KnownNames, NoMemory> {
        let mut known = Vec::new(alloc);
        for worker in 0..workers {
            known.push(Acknowledged {
                worker: worker.wrapping_add(1),
                releases: 0,
            })?;
        }
        Ok(KnownNames {
            metrics: Vec::new(alloc),
            workers: known,
            releases: 0,
            agrees: true,
        })
    }

    fn bear(&mut self, found: MetricId) {
        for metric in self.metrics.iter_mut() {
            if metric.id == found {
                metric.stage = Stage::Borne;
            }
        }
    }

    fn retire(&mut self, worker: u32) {
        self.releases = self.releases.wrapping_add(1);
        for metric in self.metrics.iter_mut() {
            if metric.worker == worker && matches!(metric.stage, Stage::Borne) {
                metric.stage = Stage::Retired(self.releases);
            }
        }
    }

    fn acknowledge(&mut self, worker: u32, releases: u64) {
        for known in self.workers.iter_mut() {
            if known.worker == worker {
                known.releases = releases;
            }
        }
    }

    fn least_acknowledged(&self) -> u64 {
        let mut least = u64::MAX;
        for known in self.workers.iter() {
            least = least.min(known.releases);
        }
        least
    }

    fn sweep(&mut self, told: u64) {
        let least = self.least_acknowledged();
        let mut gone = 0u64;
        for metric in self.metrics.iter_mut() {
            if matches!(metric.stage, Stage::Retired(tag) if tag <= least) {
                metric.stage = Stage::Gone;
                gone = gone.wrapping_add(1);
            }
        }
        self.agrees = self.agrees && gone == told;
    }

    /// One entry of the log more.
    pub(crate) fn follow(&mut self, entry: &Entry) -> Result<(), NoMemory> {
        match &entry.reply {
            Reply::Made { id, .. } => self.metrics.push(Known {
                id: *id,
                worker: entry.seat,
                kind: kind_of(&entry.call),
                stage: Stage::Borne,
            })?,
            Reply::Found(id) => self.bear(*id),
            Reply::Released(_) => self.retire(entry.seat),
            Reply::Acked(releases) => self.acknowledge(entry.seat, *releases),
            Reply::Ended => self.acknowledge(entry.seat, u64::MAX),
            Reply::Swept(gone) => self.sweep(*gone),
            _ => {}
        }
        Ok(())
    }

    /// Whether these are the metrics of this kind that are not gone, in the order of their numbers.
    pub(crate) fn are(&self, kind: Kind, readings: &[Reading]) -> bool {
        let mut left = readings.iter();
        for metric in self.metrics.iter() {
            if metric.kind == kind && !matches!(metric.stage, Stage::Gone) {
                match left.next() {
                    Some(reading) if reading.id == metric.id => {}
                    _ => return false,
                }
            }
        }
        left.next().is_none()
    }
}
