//! A sink in memory.
ghost use Rattle.std.specs.Prelude.{◌≡◌, ◌<◌, ◌≤◌, ◌⊎◌, ◌↔◌, [], length, IfOk, Contains, min, ◌+◌, ◌-◌, ◌^◌};
ghost use Rattle.stat_defs.specs.Faults.{Rose};
ghost use Rattle.stats_io.specs.Push.{IfTook, FitsPiece, Pushes};
ghost use Rattle.stats_io.specs.MemSink.{as_sink, pushed};

use crate::sink::{Push, Sink};
use stat_defs::NoMemory;
use std::alloc::Global;
use std::marker::Model;

/// A sink in memory, which has room for `room` bytes and takes at most `piece` of them in one push. The pushes whose
/// numbers, from 0, stand in `fails` fail, and so does one for which no room is left.
#[derive(Drop)]
pub struct MemSink {
    bytes: Vec<u8>,
    room: usize,
    piece: usize,
    fails: Vec<u64>,
    calls: u64,
    faults: u64,
}

impl Model for MemSink {
    ghost use Rattle.std.specs.Prelude.{◌≤◌, length, vec_capacity};
    ghost use Rattle.stats_io.specs.MemSink.{MemSinkState};

    ghost Value = { MemSinkState };

    ghost view = { λ s. record {
      written = s.bytes.items;
      room = s.room;
      piece = s.piece;
      fails = s.fails.items;
      calls = s.calls;
      faults = s.faults;
    } };

    ghost invariant = { λ s. (length s.bytes.items ≤ s.room) × (s.room ≤ vec_capacity s.bytes) × (1 ≤ s.piece) };
}

impl MemSink {
    /// A sink that nothing was written to yet. It takes its memory here: no push takes any.
    pub fn new(
        alloc: Global,
        room: usize,
        piece: usize,
        fails: Vec<u64>,
    ) -> Result<MemSink, NoMemory>
        requires { 1 ≤ piece }
        ensures { IfOk result (λ sink. sink ≡ record {
          written = [];
          room = room;
          piece = piece;
          fails = fails.items;
          calls = 0;
          faults = 0;
        }) }
    {
        Ok(MemSink {
            bytes: Vec::with_capacity(alloc, room)?,
            room,
            piece,
            fails,
            calls: 0,
            faults: 0,
        })
    }

    /// All that was written.
    pub fn bytes(&self) -> &[u8]
        ensures { result.now ≡ self.now.written }
    {
        &self.bytes
    }
}

impl Sink for MemSink {
    ghost state = { as_sink };

    fn push(&mut self, piece: &[u8]) -> Push
        requires { 0 < length piece.now }
        ensures bound { FitsPiece result (length piece.now) }
        ensures bytes { Pushes (as_sink self.old) (as_sink self.new) result piece.now }
        ensures later { self.old.faults ≤ self.new.faults }
        ensures failed { result ≡ Push.Failed → Rose self.old.faults self.new.faults }
        ensures fits { IfTook result
            (λ k. k ≡ min (min (length piece.now) self.old.piece) (self.old.room - length self.old.written)) }
        ensures fails { (result ≡ Push.Failed)
            ↔ (Contains self.old.fails self.old.calls ⊎ (length self.old.written ≡ self.old.room)) }
        ensures state { self.new ≡ pushed result piece.now self.old }
    {
        let call = self.calls;
        self.calls = call.saturating_add(1);
        let fits = self.room - self.bytes.len();
        if fits == 0 || self.fails.contains(&call) {
            self.faults = self.faults.saturating_add(1);
            return Push::Failed;
        }
        let count = piece.len().min(self.piece).min(fits);
        match self.bytes.extend_from_slice(&piece[..count]) {
            Ok(()) => Push::Took(count),
            Err(_) => {
                self.faults = self.faults.saturating_add(1);
                Push::Failed
            }
        }
    }

    fn fault_count(&self) -> u64 {
        self.faults
    }
}
