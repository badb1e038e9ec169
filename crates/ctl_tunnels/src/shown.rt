// What a reading shows.
ghost use Rattle.std.specs.Prelude.{◌≡◌, ℕ, ◌^◌, ◌<◌, ◌||◌, ◌==◌, IfOk, OnOk, nat_eq};
ghost use Rattle.std.specs.HashSet.{contains};
ghost use Rattle.ctl_tunnels.specs.Halves.{half_named, names_in, names_out, shows_in, shows_out};

use crate::half::{Side, read_half_name};
use ikl_base::{Name, NoMemory};
use std::alloc::Global;
use std::collections::HashSet;

/// The halves that a reading shows, by the serials of their associations.
#[derive(Drop)]
pub struct Shown {
    pub inbound: HashSet<u32>,
    pub outbound: HashSet<u32>,
}

// Adds a serial.
fn mark(serials: &mut HashSet<u32>, serial: u32) -> Result<(), NoMemory>
    ensures { OnOk result ((n : ℕ) → contains nat_eq serials.new n ≡ (contains nat_eq serials.old n || n == serial)) }
{
    serials.insert(serial)?;
    Ok(())
}

impl Shown {
    // Adds the half of a name.
    fn add(&mut self, name: &[u8]) -> Result<(), NoMemory>
        ensures inbound { OnOk result ((n : ℕ) → contains nat_eq self.new.inbound n ≡ (contains nat_eq self.old.inbound n
            || names_in (half_named name.now) n)) }
        ensures outbound { OnOk result ((n : ℕ) → contains nat_eq self.new.outbound n ≡ (contains nat_eq self.old.outbound n
            || names_out (half_named name.now) n)) }
    {
        match read_half_name(name) {
            Some(half) => match half.side {
                Side::In => mark(&mut self.inbound, half.serial),
                Side::Out => mark(&mut self.outbound, half.serial),
            },
            None => Ok(()),
        }
    }

    /// The halves of these names.
    pub fn of(alloc: Global, names: &[Name]) -> Result<Shown, NoMemory>
        ensures inbound { IfOk result (λ s. (n : ℕ) → contains nat_eq s.inbound n ≡ shows_in names.now n) }
        ensures outbound { IfOk result (λ s. (n : ℕ) → contains nat_eq s.outbound n ≡ shows_out names.now n) }
    {
        let mut shown = Shown {
            inbound: HashSet::new(alloc),
            outbound: HashSet::new(alloc),
        };
        for name in names {
            shown.add(name.as_slice())?;
        }
        Ok(shown)
    }

    /// Whether the inbound half of this serial is shown.
    pub fn has_in(&self, serial: u32) -> bool
        ensures { result ≡ contains nat_eq self.now.inbound serial }
    {
        self.inbound.contains(&serial)
    }

    /// Whether the outbound half of this serial is shown.
    pub fn has_out(&self, serial: u32) -> bool
        ensures { result ≡ contains nat_eq self.now.outbound serial }
    {
        self.outbound.contains(&serial)
    }
}
