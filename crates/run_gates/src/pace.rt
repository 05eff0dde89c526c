//! How workers count their events together.
ghost use Rattle.std.specs.Prelude.{◌≡◌, ◌≤◌, ◌*◌, ◌^◌, ◌%◌, ◌==◌, if◌then◌else◌, Decides};
ghost use Rattle.run_gates.specs.Pacing.{added, IsShared, IsGreatest};

/// The most events that are added at a time are 2 to this power.
const MAX_BITS: u32 = 6;

/// How workers count their events together, which pace the rounds.
///
/// A word that all workers add to is slow, since the processor's cores hand it over at each addition. So a worker adds
/// its events by packets of a power of two: before an event it adds those since its last packet, where they make one.
/// Events that make no packet yet are not counted. So the count is never above the events that were done, and a round
/// may begin late, never early. Packets are as great as can be where those of all workers together are at most the
/// events of one round; where there are more workers than that, they have one event each.
#[derive(Drop)]
pub struct Pace {
    pub workers: u32,
    /// Round `r` needs `r` times so many events.
    pub every: u32,
    /// A packet has 2 to this power events.
    pub bits: u32,
    ghost shared: { IsShared workers every bits },
    ghost greatest: { IsGreatest workers every bits },
}

impl Pace {
    pub fn new(workers: u32, every: u32) -> Pace
        ensures { (result.workers ≡ workers) × (result.every ≡ every) }
    {
        Pace {
            workers,
            every,
            bits: bits_for(workers, every),
        }
    }

    /// How many events a worker adds before its event of this number. Its events are numbered from 1.
    pub fn to_add(&self, event: u64) -> u64
        ensures { result ≡ added self.now.bits event }
    {
        if event <= 1 {
            return 0;
        }
        packet_at(event - 1, self.bits)
    }

    /// How many events this round needs.
    pub fn need(&self, round: u32) -> u64
        ensures { result ≡ round * self.now.every }
    {
        u64::from(round) * u64::from(self.every)
    }
}

// A packet, where so many events are whole packets.
fn packet_at(done: u64, bits: u32) -> u64
    requires { bits ≤ 6 }
    ensures { result ≡ (if done % 2 ^ bits == 0 then 2 ^ bits else 0) }
{
    let packet = packet_of(bits);
    if done & (packet - 1) == 0 { packet } else { 0 }
}

fn packet_of(bits: u32) -> u64
    requires { bits ≤ 6 }
    ensures { result ≡ 2 ^ bits }
{
    1u64 << bits
}

fn bits_for(workers: u32, every: u32) -> u32
    ensures shared { IsShared workers every result }
    ensures greatest { IsGreatest workers every result }
{
    let mut bits = 0;
    for next in 1..=MAX_BITS {
        if !fits(workers, every, next) {
            return bits;
        }
        bits = next;
    }
    bits
}

fn fits(workers: u32, every: u32, bits: u32) -> bool
    requires { bits ≤ 6 }
    ensures { Decides result (workers * 2 ^ bits ≤ every) }
{
    u64::from(workers) << bits <= u64::from(every)
}
