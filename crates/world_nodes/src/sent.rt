// The datagrams sent.
ghost use Rattle.std.specs.Prelude.{◌≡◌, ◌++◌, ◌∷◌, [], IsTrue, IfOk, OnOk, OnErr};
ghost use Rattle.hist_halves.specs.Sealed.{esp_of as esp_octets};
ghost use Rattle.world_steps.specs.Worlds.{datagram as datagram_at, was_sent as was_among};

use ikl_base::{Duplicate, NoMemory, Octets};
use ip_packet::view;
use std::alloc::Global;
use std::collections::BTreeMap;
use std::marker::Model;

/// The ESP octets of a datagram: what follows its outer header, and none where it isn't a packet.
pub fn esp_of(datagram: &[u8]) -> &[u8]
    ensures { result.now ≡ esp_octets datagram.now }
{
    match view(datagram) {
        Ok(packet) => packet.payload,
        Err(_) => &[],
    }
}

/// Where a datagram is looked for first: the SPI and the sequence number of its ESP octets (RFC 4303 section 2).
#[derive(Clone, Copy, Debug, PartialEq, Eq)]
struct Mark {
    spi: u32,
    number: u32,
}

fn mark_of(esp: &[u8]) -> Option<Mark> {
    match esp {
        [a, b, c, d, e, f, g, h, ..] => Some(Mark {
            spi: u32::from_be_bytes([*a, *b, *c, *d]),
            number: u32::from_be_bytes([*e, *f, *g, *h]),
        }),
        _ => None,
    }
}

/// The datagrams sent, the first one first. Contracts see them as a list.
///
/// The numbers under an SPI are mostly 1, 2, and so on: `places` has where the datagrams with these numbers are. It is looked at
/// first, and nothing rests on it.
#[derive(Drop)]
pub struct SentLog {
    datagrams: Vec<Octets>,
    places: BTreeMap<u32, Vec<u32>>,
}

impl Model for SentLog {
    ghost use Rattle.std.specs.Prelude.{List, ℕ};

    ghost Value = { List (List ℕ) };

    ghost view = { λ s. s.datagrams.items };
}

// Adds where the next number of an SPI is; another number is left out.
fn put_place(places: &mut Vec<u32>, number: u32, place: usize) -> Result<(), NoMemory> {
    if number as usize == places.len() + 1 && place <= u32::MAX as usize {
        places.push(place as u32)?;
    }
    Ok(())
}

fn note_place(
    alloc: Global,
    places: &mut BTreeMap<u32, Vec<u32>>,
    mark: Mark,
    place: usize,
) -> Result<(), NoMemory> {
    match places.get_mut(&mark.spi) {
        Some(numbered) => put_place(numbered, mark.number, place),
        None => {
            let mut numbered = Vec::new(alloc);
            put_place(&mut numbered, mark.number, place)?;
            places.insert(mark.spi, numbered)?;
            Ok(())
        }
    }
}

// Where the datagram with this mark is, if that was noted.
fn place_noted(places: &BTreeMap<u32, Vec<u32>>, mark: Mark) -> Option<usize> {
    if mark.number == 0 {
        return None;
    }
    match places.get(&mark.spi) {
        None => None,
        Some(numbered) => match numbered.get(mark.number as usize - 1) {
            None => None,
            Some(place) => Some(*place as usize),
        },
    }
}

impl SentLog {
    /// Nothing was sent.
    pub fn new(alloc: Global) -> SentLog
        ensures { result ≡ [] }
    {
        SentLog {
            datagrams: Vec::new(alloc),
            places: BTreeMap::new(alloc),
        }
    }

    /// Adds a datagram. Want of memory changes nothing.
    pub fn push(&mut self, alloc: Global, datagram: Octets) -> Result<(), NoMemory>
        ensures ok { OnOk result (self.new ≡ self.old ++ datagram ∷ []) }
        ensures err { OnErr result (self.new ≡ self.old) }
    {
        let place = self.datagrams.len();
        match mark_of(esp_of(datagram.as_slice())) {
            None => {}
            Some(mark) => note_place(alloc, &mut self.places, mark, place)?,
        }
        Ok(self.datagrams.push(datagram)?)
    }

    /// The datagram that was sent as this many-th, counted from 1; no octets if there are fewer.
    pub fn datagram(&self, alloc: Global, k: u64) -> Result<Octets, NoMemory>
        ensures { IfOk result (λ o. o ≡ datagram_at k self.now) }
    {
        if k == 0 {
            return Ok(Octets::new(alloc));
        }
        match self.datagrams.get(k as usize - 1) {
            None => Ok(Octets::new(alloc)),
            Some(datagram) => datagram.copy(),
        }
    }

    // Whether the datagram at a place has these ESP octets.
    fn has_at(&self, place: usize, esp: &[u8]) -> bool
        ensures { IsTrue result → IsTrue (was_among esp.now self.now) }
    {
        match self.datagrams.get(place) {
            None => false,
            Some(datagram) => esp_of(datagram.as_slice()) == esp,
        }
    }

    // Whether the datagram that is looked for first has these ESP octets.
    fn has_noted(&self, esp: &[u8]) -> bool
        ensures { IsTrue result → IsTrue (was_among esp.now self.now) }
    {
        match mark_of(esp) {
            None => false,
            Some(mark) => match place_noted(&self.places, mark) {
                None => false,
                Some(place) => self.has_at(place, esp),
            },
        }
    }

    // Whether any datagram has these ESP octets.
    fn has_any(&self, esp: &[u8]) -> bool
        ensures { result ≡ was_among esp.now self.now }
    {
        self.datagrams
            .iter()
            .any(|datagram| esp_of(datagram.as_slice()) == esp)
    }

    /// Whether a datagram with these ESP octets was sent.
    pub fn was_sent(&self, esp: &[u8]) -> bool
        ensures { result ≡ was_among esp.now self.now }
    {
        self.has_noted(esp) || self.has_any(esp)
    }
}
