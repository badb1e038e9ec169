// Transcripts followed by a controller.
use crate::said::{act_line, order_text};
use crate::words::{event, gateway, is, words_of};
use ctl_core::{Controller, CtlActs, CtlEvent};
use ikeless_tree::{Peer, Peers};
use ikl_base::{Addr, Name, NoMemory};
use std::alloc::Global;

/// A controller, and how many of its last acts were compared.
#[derive(Drop)]
pub struct Run {
    alloc: Global,
    pub controller: Controller,
    pub acts: CtlActs,
    compared: usize,
}

fn peer(alloc: Global, name: &str, address: [u8; 4]) -> Result<Peer, NoMemory> {
    Ok(Peer {
        name: Name::from_slice(alloc, name.as_bytes())?,
        address: Addr::V4(address),
    })
}

fn peers(alloc: Global) -> Result<Peers, NoMemory> {
    let mut peers = Peers::new(alloc);
    peers.push(peer(alloc, "a", [192, 0, 2, 1])?)?;
    peers.push(peer(alloc, "b", [198, 51, 100, 1])?)?;
    peers.push(peer(alloc, "c", [203, 0, 113, 1])?)?;
    Ok(peers)
}

impl Run {
    /// A controller of the gateways a, b and c.
    pub fn new(alloc: Global) -> Result<Run, NoMemory> {
        Ok(Run {
            alloc,
            controller: Controller::new(alloc, peers(alloc)?)?,
            acts: CtlActs::new(alloc),
            compared: 0,
        })
    }

    /// One event, and its acts alone.
    pub fn tell(&mut self, told: CtlEvent) -> Result<(), NoMemory> {
        self.acts = CtlActs::new(self.alloc);
        self.compared = 0;
        self.controller.step(told, &mut self.acts)
    }

    /// Whether all acts were compared.
    pub fn is_through(&self) -> bool {
        self.compared == self.acts.len()
    }

    // Whether the next act has this line.
    fn shows(&mut self, line: &str) -> Result<bool, NoMemory> {
        match self.acts.get(self.compared) {
            Some(act) => {
                let text = act_line(self.alloc, act)?;
                self.compared = self.compared.saturating_add(1);
                Ok(text.as_slice() == line.as_bytes())
            }
            None => Ok(false),
        }
    }

    // Whether the oldest waiting order of a gateway has the words after the colon.
    fn expects(&self, at: &[u8], line: &str) -> Result<bool, NoMemory> {
        let (_, words) = line.split_once(": ").unwrap_or((line, "no colon"));
        let text = order_text(self.alloc, self.controller.expects(gateway(at)))?;
        Ok(text.as_slice() == words.as_bytes())
    }

    fn tell_line(&mut self, words: &[&[u8]]) -> Result<bool, NoMemory> {
        match event(self.alloc, words)? {
            Some(told) => {
                let through = self.is_through();
                self.tell(told)?;
                Ok(through)
            }
            None => Ok(false),
        }
    }

    // Whether a line holds.
    fn takes(&mut self, line: &str) -> Result<bool, NoMemory> {
        let words = words_of(self.alloc, line)?;
        match words.as_slice() {
            [what, at, ..] => {
                if is(what, "order") || is(what, "refused") {
                    self.shows(line)
                } else if is(what, "expects") {
                    self.expects(at, line)
                } else {
                    self.tell_line(words.as_slice())
                }
            }
            _ => Ok(false),
        }
    }

    /// The first line that doesn't hold, or an empty one.
    pub fn follow<'a>(&mut self, text: &'a str) -> Result<&'a str, NoMemory> {
        for line in text.lines() {
            if !self.takes(line)? {
                return Ok(line);
            }
        }
        if self.is_through() {
            Ok("")
        } else {
            Ok("more acts")
        }
    }

    /// The same with a transcript before each line that tells something.
    pub fn follow_among<'a>(&mut self, text: &'a str, among: &'a str) -> Result<&'a str, NoMemory> {
        for line in text.lines() {
            if self.is_through() {
                let fault = self.follow(among)?;
                if fault != "" {
                    return Ok(fault);
                }
            }
            if !self.takes(line)? {
                return Ok(line);
            }
        }
        Ok("")
    }
}
