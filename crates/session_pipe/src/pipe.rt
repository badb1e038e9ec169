// Messages under way, lane by lane, and the sessions that come and go over them.
ghost use Rattle.std.specs.Prelude.{◌≡◌, ◌+◌, ◌-◌, ◌^◌, ◌<◌, ◌≤◌, true, false, None, Some, IfOk, OnOk, OnErr, length, take, if◌then◌else◌};
ghost use Rattle.session_pipe.specs.UnderWay.{UnderWay, no_session, after_open, after_cut, after_boot, after_push, after_take, next_message, unread_octets};

use crate::queue::Queue;
use ikeless_tree::Lane;
use ikl_base::{NoMemory, Octets};
use std::alloc::Global;
use std::marker::Model;

/// Both ends of the sessions of one gateway with its controller.
///
/// The sessions are numbered 1, 2, and so on, by openings. The controller reads [`Lane::Up`] and [`Lane::Note`], the
/// gateway [`Lane::Down`]. Want of memory leaves the pipe as it was.
#[derive(Drop)]
pub struct Pipe {
    alloc: Global,
    openings: u32,
    is_open: bool,
    is_taken: bool,
    down: Queue,
    up: Queue,
    note: Queue,
}

impl Model for Pipe {
    ghost Value = { UnderWay };

    ghost view = { λ p. record {
      openings = p.openings;
      is_open = p.is_open;
      is_taken = p.is_taken;
      down = p.down;
      up = p.up;
      note = p.note;
    } };
}

impl Pipe {
    /// No session.
    pub fn new(alloc: Global) -> Pipe
        ensures { result ≡ no_session }
    {
        Pipe {
            alloc,
            openings: 0,
            is_open: false,
            is_taken: false,
            down: Queue::new(alloc),
            up: Queue::new(alloc),
            note: Queue::new(alloc),
        }
    }

    /// How many sessions were opened; the last one has this number.
    pub fn openings(&self) -> u32
        ensures { result ≡ self.now.openings }
    {
        self.openings
    }

    /// Whether the controller sees the last session as open.
    pub fn is_open(&self) -> bool
        ensures { result ≡ self.now.is_open }
    {
        self.is_open
    }

    /// Whether the gateway has the last session.
    pub fn is_taken(&self) -> bool
        ensures { result ≡ self.now.is_taken }
    {
        self.is_taken
    }

    /// Opens a session, which the gateway takes at once, and answers its number. All messages of older sessions are
    /// gone. Where the controller sees a session open, nothing changes.
    pub fn open(&mut self) -> Option<u32>
        requires { self.old.openings < 2 ^ 32 - 1 }
        ensures number { result ≡ (if self.old.is_open then None else Some (self.old.openings + 1)) }
        ensures after { self.new ≡ after_open self.old }
        ensures openings { self.new.openings ≤ self.old.openings + 1 }
    {
        if self.is_open {
            return None;
        }
        self.openings += 1;
        self.is_open = true;
        self.is_taken = true;
        self.down.clear();
        self.up.clear();
        self.note.clear();
        Some(self.openings)
    }

    /// Lets the controller see its session end, and answers whether one was open. The gateway may go on reading what
    /// was sent in it, until a newer one is opened or it restarts.
    pub fn cut(&mut self) -> bool
        ensures open { result ≡ self.old.is_open }
        ensures after { self.new ≡ after_cut self.old }
        ensures openings { self.new.openings ≡ self.old.openings }
    {
        if !self.is_open {
            return false;
        }
        self.is_open = false;
        self.up.clear();
        self.note.clear();
        true
    }

    /// The gateway restarts: it has no session, and what it had not read is gone. The controller may still read what
    /// was given before.
    pub fn reboot(&mut self)
        ensures after { self.new ≡ after_boot self.old }
        ensures openings { self.new.openings ≡ self.old.openings }
    {
        self.is_taken = false;
        self.down.clear();
    }

    /// Sends a message. Nothing is sent where the controller sees no session open or the gateway has none.
    pub fn push(&mut self, lane: Lane, octets: &[u8]) -> Result<(), NoMemory>
        requires { 0 < length octets.now }
        ensures ok { OnOk result (self.new ≡ after_push lane octets.now self.old) }
        ensures err { OnErr result (self.new ≡ self.old) }
        ensures openings { self.new.openings ≡ self.old.openings }
    {
        if !self.is_open || !self.is_taken {
            return Ok(());
        }
        let message = Octets::from_slice(self.alloc, octets)?;
        match lane {
            Lane::Down => self.down.push(message),
            Lane::Up => self.up.push(message),
            Lane::Note => self.note.push(message),
        }
    }

    /// Takes the next whole message that the reading end has, if there is one.
    pub fn take(&mut self, lane: Lane) -> Result<Option<Octets>, NoMemory>
        ensures message { IfOk result (λ message. message ≡ next_message lane self.old) }
        ensures ok { OnOk result (self.new ≡ after_take lane self.old) }
        ensures err { OnErr result (self.new ≡ self.old) }
        ensures openings { self.new.openings ≡ self.old.openings }
    {
        match lane {
            Lane::Down => Ok(self.down.pop()),
            Lane::Up => Ok(self.up.pop()),
            Lane::Note => Ok(self.note.pop()),
        }
    }

    /// The next octets that the reading end has, one message after the other: `k` of them, or all if there are fewer.
    /// None is taken.
    pub fn peek(&self, lane: Lane, k: usize) -> Result<Octets, NoMemory>
        ensures { IfOk result (λ octets. octets ≡ take k (unread_octets lane self.now)) }
    {
        match lane {
            Lane::Down => self.down.peek(self.alloc, k),
            Lane::Up => self.up.peek(self.alloc, k),
            Lane::Note => self.note.peek(self.alloc, k),
        }
    }
}
