// Words, and devices in memory.
ghost use Rattle.std.specs.Prelude.{◌≡◌, ◌∷◌, [], ℕ, IfOk, length, false};
ghost use Rattle.live_devices.specs.DialerFaulty.{up_at};

use ikl_base::{ListOf, NoMemory, Octets, Status};
use live_devices::{FaultyDialer, FaultyPeer, MemoryPeer, PairScript, Script};
use std::alloc::Global;

/// Room for what is written to a device, in octets.
pub const ROOM: usize = 4096;

/// The words of a text, between its spaces.
pub fn words_of(alloc: Global, text: &str) -> Result<Vec<String>, NoMemory> {
    let mut words = Vec::new(alloc);
    for word in text.split(' ') {
        words.push(String::from_str(alloc, word)?)?;
    }
    Ok(words)
}

/// The name of a status that these commands have.
pub fn name_of(status: &Status) -> &'static str {
    match status {
        Status::Done => "Done",
        Status::Words => "Words",
        Status::WriteFault => "WriteFault",
        Status::NoMemory => "NoMemory",
        Status::DeviceFault => "DeviceFault",
        Status::TurnsSpent => "TurnsSpent",
        Status::LinkFault => "LinkFault",
        Status::BadReply => "BadReply",
        Status::Denied => "Denied",
        _ => "another",
    }
}

/// Texts, one after another.
pub fn joined(alloc: Global, texts: &[&str]) -> Result<Vec<u8>, NoMemory> {
    let mut all = Vec::new(alloc);
    for text in texts {
        all.extend_from_slice(text.as_bytes())?;
    }
    Ok(all)
}

/// A text so many times.
pub fn repeated(alloc: Global, text: &str, times: usize) -> Result<Vec<u8>, NoMemory> {
    let mut all = Vec::new(alloc);
    for _ in 0..times {
        all.extend_from_slice(text.as_bytes())?;
    }
    Ok(all)
}

/// A stream of which all octets are there at its first read, and whether it ends after them.
pub fn stream(alloc: Global, octets: Vec<u8>, ends: bool) -> Script {
    Script {
        octets: Octets::from_items(octets),
        there: ListOf::new(alloc),
        ends,
    }
}

/// A dialer with one peer, with which these sessions are had, and of which these calls fail.
#[tactic(auto, using(crate::proofs::Down::one_down))]
pub fn one_dialer<'a>(
    alloc: Global,
    coming: &'a [PairScript],
    fails: &'a [u64],
) -> Result<FaultyDialer<'a>, NoMemory>
    ensures size { IfOk result (λ d. length d.peers.items ≡ 1) }
    ensures down { IfOk result (λ d. (g : ℕ) → up_at d.peers.items g ≡ false) }
{
    let peer = MemoryPeer::new(alloc, coming, ROOM, 64)?;
    let mut peers = Vec::new(alloc);
    peers.push(FaultyPeer::new(peer, fails))?;
    Ok(FaultyDialer { peers })
}

/// Whether these octets were written to a dialer's one peer, in so many sessions.
pub fn has_written(dialer: &FaultyDialer<'_>, octets: &[u8], dials: u64) -> bool {
    match dialer.peers.as_slice() {
        [peer] => peer.peer.written.as_slice() == octets && peer.peer.dials == dials,
        _ => false,
    }
}
