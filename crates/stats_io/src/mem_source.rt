//! Sources in memory.
ghost use Rattle.std.specs.Prelude.{◌≡◌, ◌<◌, ◌≤◌, ◌↔◌, length, string_bytes, Contains, min, ◌+◌, ◌-◌, ◌^◌};
ghost use Rattle.stat_defs.specs.Faults.{Rose};
ghost use Rattle.stats_io.specs.States.{IsLater};
ghost use Rattle.stats_io.specs.Pull.{IfBytes, FitsRoom, Pulls};
ghost use Rattle.stats_io.specs.MemSource.{as_source, as_sure_source, pulled};

use crate::source::{Pull, Source};
use std::marker::Model;

/// Bytes in memory, given in pieces of at most `piece` bytes. The pulls whose numbers, from 0, stand in `fails` fail.
#[derive(Drop)]
pub struct MemSource {
    origin: String,
    bytes: Vec<u8>,
    at: usize,
    piece: usize,
    fails: Vec<u64>,
    calls: u64,
    faults: u64,
}

impl Model for MemSource {
    ghost use Rattle.std.specs.Prelude.{◌≤◌, drop, length, string_bytes};
    ghost use Rattle.stats_io.specs.MemSource.{MemSourceState};

    ghost Value = { MemSourceState };

    ghost view = { λ s. record {
      origin = string_bytes s.origin;
      left = drop s.at s.bytes.items;
      piece = s.piece;
      fails = s.fails.items;
      calls = s.calls;
      faults = s.faults;
    } };

    ghost invariant = { λ s. (s.at ≤ length s.bytes.items) × (1 ≤ s.piece) };
}

impl MemSource {
    /// A source that has all these bytes left, and has not been pulled yet.
    pub fn new(origin: String, bytes: Vec<u8>, piece: usize, fails: Vec<u64>) -> MemSource
        requires { 1 ≤ piece }
        ensures { result ≡ record {
          origin = string_bytes origin;
          left = bytes.items;
          piece = piece;
          fails = fails.items;
          calls = 0;
          faults = 0;
        } }
    {
        MemSource {
            origin,
            bytes,
            at: 0,
            piece,
            fails,
            calls: 0,
            faults: 0,
        }
    }
}

impl Source for MemSource {
    ghost state = { as_source };

    fn pull(&mut self, into: &mut [u8]) -> Pull
        requires { 0 < length into.old }
        ensures bound { FitsRoom result (length into.old) }
        ensures bytes { Pulls (as_source self.old) (as_source self.new) result into.new }
        ensures failed { result ≡ Pull.Failed → Rose self.old.faults self.new.faults }
        ensures later { IsLater (as_source self.old) (as_source self.new) }
        ensures fails { (result ≡ Pull.Failed) ↔ Contains self.old.fails self.old.calls }
        ensures whole_piece { IfBytes result
            (λ k. k ≡ min (min (length self.old.left) self.old.piece) (length into.old)) }
        ensures state { self.new ≡ pulled result self.old }
    {
        let call = self.calls;
        self.calls = call.saturating_add(1);
        if self.fails.contains(&call) {
            self.faults = self.faults.saturating_add(1);
            return Pull::Failed;
        }
        let rest = &self.bytes[self.at..];
        if rest.is_empty() {
            return Pull::End;
        }
        let count = rest.len().min(self.piece).min(into.len());
        into[..count].copy_from_slice(&rest[..count]);
        self.at += count;
        Pull::Bytes(count)
    }

    fn fault_count(&self) -> u64 {
        self.faults
    }
}

/// Bytes in memory, given in pieces of at most `piece` bytes by a source that never fails: its count is 0 in every
/// state.
#[derive(Drop)]
pub struct SureSource {
    origin: String,
    bytes: Vec<u8>,
    at: usize,
    piece: usize,
}

impl Model for SureSource {
    ghost use Rattle.std.specs.Prelude.{◌≤◌, drop, length, string_bytes};
    ghost use Rattle.stats_io.specs.MemSource.{SureSourceState};

    ghost Value = { SureSourceState };

    ghost view = { λ s. record {
      origin = string_bytes s.origin;
      left = drop s.at s.bytes.items;
      piece = s.piece;
    } };

    ghost invariant = { λ s. (s.at ≤ length s.bytes.items) × (1 ≤ s.piece) };
}

impl SureSource {
    /// A source that has all these bytes left.
    pub fn new(origin: String, bytes: Vec<u8>, piece: usize) -> SureSource
        requires { 1 ≤ piece }
        ensures { result ≡ record {
          origin = string_bytes origin;
          left = bytes.items;
          piece = piece;
        } }
    {
        SureSource {
            origin,
            bytes,
            at: 0,
            piece,
        }
    }
}

impl Source for SureSource {
    ghost state = { as_sure_source };

    fn pull(&mut self, into: &mut [u8]) -> Pull
        requires { 0 < length into.old }
        ensures bound { FitsRoom result (length into.old) }
        ensures bytes { Pulls (as_sure_source self.old) (as_sure_source self.new) result into.new }
        ensures later { IsLater (as_sure_source self.old) (as_sure_source self.new) }
        ensures sure { ¬ (result ≡ Pull.Failed) }
        ensures whole_piece { IfBytes result
            (λ k. k ≡ min (min (length self.old.left) self.old.piece) (length into.old)) }
        ensures same { self.new.piece ≡ self.old.piece }
    {
        let rest = &self.bytes[self.at..];
        if rest.is_empty() {
            return Pull::End;
        }
        let count = rest.len().min(self.piece).min(into.len());
        into[..count].copy_from_slice(&rest[..count]);
        self.at += count;
        Pull::Bytes(count)
    }

    fn fault_count(&self) -> u64 {
        0
    }
}
