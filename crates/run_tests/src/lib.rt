//! Tests of runs of files in real threads: `gates` hold the threads up, `rows` says what comes of it, `schedules` that
//! the same comes of four workers' events in whatever order, `names` that readings are of one moment each, `ends` that a
//! flush goes on where a worker ends, and `hard_files` what comes of files that somebody made to be hard.
#![tactic(auto)]

#[cfg(test)]
mod ends;
#[cfg(test)]
mod gates;
#[cfg(test)]
mod hard_files;
#[cfg(test)]
mod known;
#[cfg(test)]
mod names;
#[cfg(test)]
mod pulls;
#[cfg(test)]
mod rows;
#[cfg(test)]
mod runs;
#[cfg(test)]
mod schedules;
