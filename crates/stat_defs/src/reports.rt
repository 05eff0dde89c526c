//! What a run of the store recorded.

use crate::bins::BinList;
use crate::history::{Entry, NameOp, Verdict};
use crate::ids::MetricId;
use crate::lists::List;
use crate::metrics::Metric;

/// The units of a counter since the flush before.
#[derive(Clone, Copy, Debug, PartialEq, Eq)]
pub struct Delta {
    pub id: MetricId,
    pub n: u64,
}

/// A counter's value, or a gauge's word in two's complement.
#[derive(Clone, Copy, Debug, PartialEq, Eq)]
pub struct Reading {
    pub id: MetricId,
    pub word: u64,
}

/// A worker's values of one histogram since the flush before.
#[derive(Drop, Debug)]
pub struct Part {
    pub worker: u32,
    pub id: MetricId,
    pub bins: BinList,
}

/// What a flush took. Its lists rise by id, the parts by worker first, without doubles.
#[derive(Drop, Debug)]
pub struct FlushRecord {
    /// The number of log entries before the flush's sweep.
    pub at: u64,
    pub deltas: List<Delta>,
    pub gauges: List<Reading>,
    pub parts: List<Part>,
}

/// What an admin reader saw. Its lists rise by id, without doubles.
#[derive(Drop, Debug)]
pub struct ReadRecord {
    /// The length of the log whose names it shows.
    pub at: u64,
    pub counters: List<Reading>,
    pub gauges: List<Reading>,
}

/// What became of the names in a log.
#[derive(Drop, Debug)]
pub struct LogNames {
    /// Every metric that was made. A metric's number is its place.
    pub metrics: List<Metric>,
    /// The changes of the names that are not gone, in the order of the log.
    pub changes: List<NameOp>,
}

/// The last flush, and the whole log with its names.
#[derive(Drop, Debug)]
pub struct LastFlush {
    pub last: FlushRecord,
    pub log: List<Entry>,
    pub names: LogNames,
}

/// How the reading of an event file ended. Lines are numbered from 1.
#[derive(Clone, Copy, Debug, PartialEq, Eq)]
pub enum FileEnd {
    Whole,
    BadLine(u64),
    LineTooLong(u64),
    TooBig,
    TooMany,
    ReadFault,
    NotOpened,
}

/// A file's end, with the counts of faults that explain it.
#[derive(Clone, Copy, Debug, PartialEq, Eq)]
pub struct WorkerEnd {
    pub end: FileEnd,
    /// The number of bytes taken where the end is `ReadFault`, and else 0.
    pub taken: u64,
    /// The source's count of faults as it was opened; the shelf's before the opening, where that failed.
    pub faults_before: u64,
    /// The source's count of faults at the end; the shelf's after the opening, where that failed.
    pub faults_after: u64,
}

/// All that a run recorded: one list of verdicts and one end for each file, the flushes in order, the book's log and
/// the admin readings.
#[derive(Drop, Debug)]
pub struct Report {
    pub verdicts: List<List<Verdict>>,
    pub flushes: List<FlushRecord>,
    pub log: List<Entry>,
    pub reads: List<ReadRecord>,
    pub ends: List<WorkerEnd>,
}

/// A report, and the names in its log.
#[derive(Drop, Debug)]
pub struct Reported {
    pub report: Report,
    pub names: LogNames,
}
