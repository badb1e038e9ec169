// Whole messages in their order.
ghost use Rattle.std.specs.Prelude.{◌≡◌, ◌≤◌, List, ℕ, ◌++◌, ◌∷◌, [], IfOk, OnOk, OnErr, slice_get, vec_len, take, drop};
ghost use Rattle.std.specs.List.{flat_map};

use ikl_base::{NoMemory, Octets};
use std::alloc::Global;
use std::collections::VecDeque;
use std::marker::Model;

#[derive(Drop)]
pub(crate) struct Queue {
    messages: VecDeque<Octets>,
}

impl Model for Queue {
    ghost Value = { List (List ℕ) };

    ghost view = { λ q. q.messages.items };
}

// Adds the octets of a message, as far as there are at most `limit` in all.
fn put_some(octets: &mut Vec<u8>, message: &[u8], limit: usize) -> Result<(), NoMemory>
    requires { vec_len octets.old ≤ limit }
    ensures ok { OnOk result (octets.new.items ≡ take limit (octets.old.items ++ message.now)) }
{
    let room = limit - octets.len();
    let (front, _) = message.split_at(room.min(message.len()));
    octets.extend_from_slice(front)?;
    Ok(())
}

impl Queue {
    pub(crate) fn new(alloc: Global) -> Queue
        ensures { result ≡ [] }
    {
        Queue {
            messages: VecDeque::new(alloc),
        }
    }

    pub(crate) fn clear(&mut self)
        ensures { self.new ≡ [] }
    {
        self.messages.clear();
    }

    pub(crate) fn push(&mut self, message: Octets) -> Result<(), NoMemory>
        ensures ok { OnOk result (self.new ≡ self.old ++ message ∷ []) }
        ensures err { OnErr result (self.new ≡ self.old) }
    {
        Ok(self.messages.push_back(message)?)
    }

    pub(crate) fn pop(&mut self) -> Option<Octets>
        ensures first { result ≡ slice_get self.old 0 }
        ensures rest { self.new ≡ drop 1 self.old }
    {
        self.messages.pop_front()
    }

    /// The first `k` octets, or all.
    pub(crate) fn peek(&self, alloc: Global, k: usize) -> Result<Octets, NoMemory>
        ensures { IfOk result (λ o. o ≡ take k (flat_map (λ message. message) self.now)) }
    {
        let mut octets = Vec::new(alloc);
        for message in &self.messages {
            put_some(&mut octets, message.as_slice(), k)?;
        }
        Ok(Octets::from_items(octets))
    }
}
