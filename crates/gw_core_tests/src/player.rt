// A transcript played at one gateway: its events are given to the gateway, and each of its acts is compared with what the gateway
// does.
ghost use Rattle.std.specs.Prelude.{IfOk, IfSome};
ghost use Rattle.rc_request.specs.Asks.{IsAsk};

use crate::show::shown;
use gw_core::{Config, Gateway, GwActs, GwEvent};
use ikeless_tree::{check_sad, check_spd};
use ikl_base::{LineFault, NoMemory, OrMemory};
use line_words::{entries, half, half_name, is_word, octets, parts, put, put_word, u32_from};
use rc_resource::Ask;
use std::alloc::Global;

/// A gateway that plays a transcript.
#[derive(Drop)]
pub struct Player<'a> {
    alloc: Global,
    config: Config,
    gateway: Gateway,
    // What was ordered in the session, and how much of that was handled.
    orders: Vec<&'a [u8]>,
    handled: usize,
    // What the gateway did, and how much of that the transcript has told.
    done: Vec<Vec<u8>>,
    met: usize,
}

/// A gateway that has just started, where its last number can be one.
pub fn boot(alloc: Global, config: Config) -> Result<Gateway, NoMemory> {
    if config.seq_last < 1 || config.seq_last > 4_294_967_295 {
        return Err(NoMemory);
    }
    Gateway::booted(alloc, config)
}

/// What is read, if the text stands for it.
pub fn known<T: Drop>(read: Result<T, OrMemory<LineFault>>) -> Result<Option<T>, NoMemory> {
    match read {
        Ok(value) => Ok(Some(value)),
        Err(OrMemory::NoMemory) => Err(NoMemory),
        Err(OrMemory::Refused(_)) => Ok(None),
    }
}

/// The request that puts the list of policies written in these words, if they write one that passes.
pub fn list_asked(alloc: Global, words: &[&[u8]]) -> Result<Option<Ask>, NoMemory>
    ensures { IfOk result (λ a. IfSome a IsAsk) }
{
    match known(entries(alloc, words))? {
        None => Ok(None),
        Some(list) => match check_spd(&list) {
            Ok(()) => Ok(Some(Ask::PutSpd(list))),
            Err(_) => Ok(None),
        },
    }
}

/// The request that puts the half written in this word, if it writes one that passes.
pub fn half_asked(alloc: Global, word: &[u8]) -> Result<Option<Ask>, NoMemory>
    ensures { IfOk result (λ a. IfSome a IsAsk) }
{
    match known(half(alloc, word))? {
        None => Ok(None),
        Some(entry) => match check_sad(&entry) {
            Ok(()) => Ok(Some(Ask::PostSad(entry))),
            Err(_) => Ok(None),
        },
    }
}

fn name_asked(alloc: Global, word: &[u8]) -> Result<Option<Ask>, NoMemory>
    ensures { IfOk result (λ a. IfSome a IsAsk) }
{
    match known(half_name(alloc, word))? {
        None => Ok(None),
        Some(name) => Ok(Some(Ask::DeleteSad(name))),
    }
}

// What an order asks: its words are `order`, a gateway, two numbers, its kind, and the rest.
fn asked(alloc: Global, line: &[u8]) -> Result<Option<Ask>, NoMemory>
    ensures { IfOk result (λ a. IfSome a IsAsk) }
{
    match parts(alloc, line, b' ')?.as_slice() {
        [_, _, _, _, kind] if is_word(kind, b"read") => Ok(Some(Ask::GetSad)),
        [_, _, _, _, kind, rest @ ..] if is_word(kind, b"policy") => list_asked(alloc, rest),
        [_, _, _, _, kind, word] if is_word(kind, b"put") => half_asked(alloc, word),
        [_, _, _, _, kind, word] if is_word(kind, b"remove") => name_asked(alloc, word),
        _ => Ok(None),
    }
}

// How many words behind the first name the gateway, its session and the request.
fn naming(kind: &[u8]) -> usize {
    if is_word(kind, b"handled") {
        3
    } else if is_word(kind, b"notice") {
        2
    } else {
        1
    }
}

// A line without the words that name the gateway, its session and the request.
fn plain(alloc: Global, words: &[&[u8]]) -> Result<Vec<u8>, NoMemory> {
    let mut out = Vec::new(alloc);
    let [kind, rest @ ..] = words else {
        return Ok(out);
    };
    put(&mut out, kind)?;
    let skipped = naming(kind);
    for i in skipped..rest.len() {
        put_word(&mut out, rest[i])?;
    }
    Ok(out)
}

impl<'a> Player<'a> {
    pub fn new(alloc: Global, config: Config) -> Result<Player<'a>, NoMemory> {
        Ok(Player {
            alloc,
            config,
            gateway: boot(alloc, config)?,
            orders: Vec::new(alloc),
            handled: 0,
            done: Vec::new(alloc),
            met: 0,
        })
    }

    // Keeps what was done as lines.
    fn keep(&mut self, acts: &GwActs) -> Result<(), NoMemory> {
        for act in acts.as_slice() {
            self.done.push(shown(self.alloc, act)?)?;
        }
        Ok(())
    }

    fn let_in(&mut self, word: &[u8]) -> Result<bool, NoMemory> {
        let Some(packet) = known(octets(self.alloc, word))? else {
            return Ok(false);
        };
        let mut acts = GwActs::new(self.alloc);
        self.gateway
            .step(GwEvent::Let(packet.as_slice()), &mut acts)?;
        self.keep(&acts)?;
        Ok(true)
    }

    fn arrive(&mut self, word: &[u8]) -> Result<bool, NoMemory> {
        let Some(datagram) = known(octets(self.alloc, word))? else {
            return Ok(false);
        };
        let mut acts = GwActs::new(self.alloc);
        self.gateway
            .step(GwEvent::Arrive(datagram.as_slice()), &mut acts)?;
        self.keep(&acts)?;
        Ok(true)
    }

    fn read_clock(&mut self, word: &[u8]) -> Result<bool, NoMemory> {
        let Ok(now) = u32_from(LineFault::Number, word) else {
            return Ok(false);
        };
        let mut acts = GwActs::new(self.alloc);
        self.gateway.step(GwEvent::Clock(now), &mut acts)?;
        self.keep(&acts)?;
        Ok(true)
    }

    // The next request of the session.
    fn handle(&mut self) -> Result<bool, NoMemory> {
        if self.handled >= self.orders.len() {
            return Ok(false);
        }
        let Some(ask) = asked(self.alloc, self.orders[self.handled])? else {
            return Ok(false);
        };
        self.handled = self.handled.saturating_add(1);
        let mut acts = GwActs::new(self.alloc);
        self.gateway.step(GwEvent::Handle(Ok(ask)), &mut acts)?;
        self.keep(&acts)?;
        Ok(true)
    }

    fn take_session(&mut self) -> Result<bool, NoMemory> {
        self.orders.clear();
        self.handled = 0;
        let mut acts = GwActs::new(self.alloc);
        self.gateway.step(GwEvent::SessionTaken, &mut acts)?;
        Ok(acts.len() == 0)
    }

    // The next thing done is this line.
    fn meet(&mut self, words: &[&[u8]]) -> Result<bool, NoMemory> {
        if self.met >= self.done.len() {
            return Ok(false);
        }
        let line = plain(self.alloc, words)?;
        let is_same = self.done[self.met].as_slice() == line.as_slice();
        self.met = self.met.saturating_add(1);
        Ok(is_same)
    }

    // What a request did: the gateway handles it at the first line that tells of it.
    fn meet_request(&mut self, words: &[&[u8]]) -> Result<bool, NoMemory> {
        if self.met >= self.done.len() && !self.handle()? {
            return Ok(false);
        }
        self.meet(words)
    }

    fn restart(&mut self) -> Result<bool, NoMemory> {
        self.orders.clear();
        self.handled = 0;
        self.gateway = boot(self.alloc, self.config)?;
        Ok(true)
    }

    // An event of the transcript: all that was done before was told.
    fn take_event(&mut self, words: &[&[u8]]) -> Result<bool, NoMemory> {
        if self.met < self.done.len() {
            return Ok(false);
        }
        match words {
            [kind, _, word] if is_word(kind, b"let") => self.let_in(word),
            [kind, _, word] if is_word(kind, b"arrived") => self.arrive(word),
            [kind, word] if is_word(kind, b"now") => self.read_clock(word),
            [kind, ..] if is_word(kind, b"opened") => self.take_session(),
            [kind, ..] if is_word(kind, b"boot") => self.restart(),
            _ => Ok(false),
        }
    }

    /// Plays one line. True where the gateway does what it tells.
    pub fn play(&mut self, line: &'a [u8]) -> Result<bool, NoMemory> {
        let words = parts(self.alloc, line, b' ')?;
        let words = words.as_slice();
        let [kind, ..] = words else {
            return Ok(false);
        };
        if is_word(kind, b"order") {
            self.orders.push(line)?;
            return Ok(true);
        }
        if is_word(kind, b"policy")
            || is_word(kind, b"put")
            || is_word(kind, b"handled")
            || is_removal(words)
        {
            return self.meet_request(words);
        }
        if is_event(kind) {
            return self.take_event(words);
        }
        self.meet(words)
    }

    /// Whether all that was done was told.
    pub fn is_told(&self) -> bool {
        self.met == self.done.len()
    }
}

fn is_removal(words: &[&[u8]]) -> bool {
    match words {
        [kind, _, _, why] => is_word(kind, b"gone") && is_word(why, b"removed"),
        _ => false,
    }
}

fn is_event(kind: &[u8]) -> bool {
    is_word(kind, b"let")
        || is_word(kind, b"arrived")
        || is_word(kind, b"now")
        || is_word(kind, b"opened")
        || is_word(kind, b"boot")
}

/// Plays these transcripts one after another. The number of the first line that isn't as the gateway does, from 1, or 0.
pub fn first_wrong(alloc: Global, config: Config, transcripts: &[&str]) -> Result<usize, NoMemory> {
    let mut player = Player::new(alloc, config)?;
    let mut count = 0usize;
    for transcript in transcripts {
        for line in transcript.as_bytes().split(|c| *c == b'\n') {
            count = count.saturating_add(1);
            if !player.play(line)? {
                return Ok(count);
            }
        }
    }
    if player.is_told() { Ok(0) } else { Ok(count) }
}
