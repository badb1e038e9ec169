// The counts of one association, and the looks at its limits.
ghost use Rattle.std.specs.Prelude.{◌≡◌};
ghost use Rattle.life_count.specs.Lifetime.{reaches, is_reached};

use crate::event::LifeEvent;
use ikeless_tree::Limits;
use std::marker::Model;

// A count reaches its limit when it is equal or greater; a limit of 0 is none.
fn reach(limit: u64, count: u64) -> bool
    ensures { result ≡ reaches limit count }
{
    limit != 0 && limit <= count
}

fn has_reached(limits: Limits, counts: Limits) -> bool
    ensures { result ≡ is_reached limits counts }
{
    reach(u64::from(limits.time), u64::from(counts.time))
        || reach(limits.bytes, counts.bytes)
        || reach(u64::from(limits.packets), u64::from(counts.packets))
        || reach(u64::from(limits.idle), u64::from(counts.idle))
}

/// The counts of one association under its limits.
///
/// Contracts see its limits, the clock at the installation and at the last use, the ESP octets and the number of the uses, and
/// whether a soft expiry was told that stands. Clocks are in whole seconds, and counts stop at the greatest value of their type.
#[derive(Debug, Drop)]
pub struct Life {
    hard: Limits,
    soft: Limits,
    installed: u32,
    used: u32,
    octets: u64,
    packets: u32,
    is_told: bool,
}

impl Model for Life {
    ghost use Rattle.life_count.specs.Lifetime.{Lifetime};

    ghost Value = { Lifetime };

    ghost view = { λ l. record { hard = l.hard; soft = l.soft; installed = l.installed; used = l.used; octets = l.octets; packets = l.packets; is_told = l.is_told } };
}

impl Life {
    ghost use Rattle.life_count.specs.Lifetime.{begun, counted, counts_of, event_at, looked, with_told};
    ghost use Rattle.std.specs.Prelude.{false};

    /// The lifetime of an association that is installed now.
    pub fn new(hard: Limits, soft: Limits, now: u32) -> Life
        ensures { result ≡ begun hard soft now }
    {
        Life {
            hard,
            soft,
            installed: now,
            used: now,
            octets: 0,
            packets: 0,
            is_told: false,
        }
    }

    /// The same lifetime once more. It takes no memory.
    pub fn copy(&self) -> Life
        ensures { result ≡ self.now }
    {
        Life {
            hard: self.hard,
            soft: self.soft,
            installed: self.installed,
            used: self.used,
            octets: self.octets,
            packets: self.packets,
            is_told: self.is_told,
        }
    }

    /// The counts at this clock: the age, the ESP octets and packets of all uses, and the time since the last one.
    pub fn current(&self, now: u32) -> Limits
        ensures { result ≡ counts_of now self.now }
    {
        Limits {
            time: now.saturating_sub(self.installed),
            bytes: self.octets,
            packets: self.packets,
            idle: now.saturating_sub(self.used),
        }
    }

    /// One more use, with these ESP octets at this clock, and what the counts tell after it.
    pub fn used(&mut self, bytes: u64, now: u32) -> LifeEvent
        ensures event { result ≡ event_at now (counted bytes now self.old) }
        ensures life { self.new ≡ looked now (counted bytes now self.old) }
    {
        self.used = now;
        self.octets = self.octets.saturating_add(bytes);
        self.packets = self.packets.saturating_add(1);
        self.tick(now)
    }

    /// What the counts tell at this clock.
    ///
    /// A soft limit is told once, until a session is taken.
    pub fn tick(&mut self, now: u32) -> LifeEvent
        ensures event { result ≡ event_at now self.old }
        ensures life { self.new ≡ looked now self.old }
    {
        let counts = self.current(now);
        if has_reached(self.hard, counts) {
            return LifeEvent::Hard;
        }
        if has_reached(self.soft, counts) && !self.is_told {
            self.is_told = true;
            return LifeEvent::Soft;
        }
        LifeEvent::Nothing
    }

    /// A session is taken: a soft expiry that was told stands no more.
    pub fn session(&mut self)
        ensures { self.new ≡ with_told false self.old }
    {
        self.is_told = false;
    }
}
