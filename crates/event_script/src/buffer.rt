//! The bytes of a file that a reader holds.
ghost use Rattle.std.specs.Prelude.{◌≡◌, ◌≢◌, ◌≤◌, ◌<◌, ◌+◌, [], ℕ, IfOk, OnOk, OnErr, length, take, drop};
ghost use Rattle.event_script.specs.declared.limits.TheConstants as limits;
ghost use Rattle.event_script.specs.Window.{AddsPull, count_of};
ghost use Rattle.stats_io.specs.States.{IsLater};

use crate::limits::MAX_HELD_BYTES;
use stat_defs::NoMemory;
use stats_io::{Pull, Source};
use std::alloc::Global;
use std::marker::Model;

// Bytes that were taken from a source. The first pull takes all its memory.
#[derive(Drop)]
pub struct Buffer {
    // Empty before the first pull.
    room: Vec<u8>,
    // How many bytes of the room are held.
    end: usize,
}

impl Model for Buffer {
    ghost use Rattle.std.specs.Prelude.{◌≡◌, ◌≢◌, ◌≤◌, ℕ, List, length, take};
    ghost use Rattle.event_script.specs.declared.limits.TheConstants.{MAX_HELD_BYTES};

    ghost Value = { List ℕ };

    ghost view = { λ b. take b.end b.room.items };

    ghost invariant = { λ b. (b.end ≤ length b.room.items)
        × (length b.room.items ≢ MAX_HELD_BYTES → length b.room.items ≡ 0) };
}

// So many zeros.
fn zeros(alloc: Global, count: usize) -> Result<Vec<u8>, NoMemory>
    ensures { IfOk result (λ bytes. length bytes.items ≡ count) }
{
    Ok(vec![in alloc; 0u8; count]?)
}

// Takes the memory of a buffer that has none yet.
fn take_room(alloc: Global, room: &mut Vec<u8>) -> Result<(), NoMemory>
    requires { length room.old.items ≢ limits.MAX_HELD_BYTES → length room.old.items ≡ 0 }
    ensures room { OnOk result (length room.new.items ≡ limits.MAX_HELD_BYTES) }
    ensures none { OnErr result (room.new.items ≡ room.old.items) }
    ensures held { (n : ℕ) → n ≤ length room.old.items → take n room.new.items ≡ take n room.old.items }
{
    if room.is_empty() {
        *room = zeros(alloc, MAX_HELD_BYTES)?;
    }
    Ok(())
}

// Pulls once, at most so many bytes, which come to that place.
fn pull_at<S: Source>(source: &mut S, room: &mut [u8], at: usize, most: usize) -> Pull
    requires some { 0 < most }
    requires fits { at + most ≤ length room.old }
    ensures adds { AddsPull (S.state source.old) (S.state source.new) (take at room.old)
        (take (at + count_of result) room.new) result most }
    ensures length { length room.new ≡ length room.old }
    ensures later { IsLater (S.state source.old) (S.state source.new) }
{
    source.pull(&mut room[at..at + most])
}

impl Buffer {
    // A buffer that holds no byte.
    pub fn new(alloc: Global) -> Buffer
        ensures { result ≡ [] }
    {
        Buffer {
            room: Vec::new(alloc),
            end: 0,
        }
    }

    // The bytes that are held.
    #[inline(always)]
    pub fn bytes(&self) -> &[u8]
        ensures { result.now ≡ self.now }
    {
        &self.room[..self.end]
    }

    // Holds the first bytes no more: those behind them move to the front.
    pub fn drop_front(&mut self, count: usize)
        requires { count ≤ length self.old }
        ensures { self.new ≡ drop count self.old }
    {
        self.room.copy_within(count..self.end, 0);
        self.end -= count;
    }

    // Holds that many bytes at most.
    pub fn truncate(&mut self, count: usize)
        requires { count ≤ length self.old }
        ensures { self.new ≡ take count self.old }
    {
        self.end = count;
    }

    // Pulls once, at most so many bytes, which come behind those that are held.
    pub fn pull<S: Source>(
        &mut self,
        alloc: Global,
        source: &mut S,
        most: usize,
    ) -> Result<Pull, NoMemory>
        requires some { 0 < most }
        requires room { length self.old + most ≤ limits.MAX_HELD_BYTES }
        ensures adds { IfOk result (λ pulled. AddsPull (S.state source.old) (S.state source.new) self.old self.new pulled most) }
        ensures none { OnErr result ((self.new ≡ self.old) × (source.new ≡ source.old)) }
        ensures later { IsLater (S.state source.old) (S.state source.new) }
    {
        take_room(alloc, &mut self.room)?;
        let pulled = pull_at(source, &mut self.room, self.end, most);
        if let Pull::Bytes(count) = pulled {
            self.end += count;
        }
        Ok(pulled)
    }
}
