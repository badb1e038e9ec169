// The keys accepted.
ghost use Rattle.std.specs.Prelude.{◌≡◌, ◌-◌, ◌<◌, ◌≤◌, ◌∷◌, ◌++◌, [], OnOk, OnErr, IfOk, IfSome, None, length, take, drop, vec_len};
ghost use Rattle.ikeless_tree.specs.Check.{is_key_length};
ghost use Rattle.hist_controller.specs.Law.{is_seen as is_seen_among};
ghost use Rattle.ctl_tunnels.specs.Rings.{key_refusal, key_at, salt_octets};

use ikeless_tree::Refusal;
use ikl_base::{NoMemory, Octets};
use indexmap::IndexMap;
use std::alloc::Global;
use std::marker::Model;

const MOST_KEYS: usize = 1048576;

/// The salt: the last four octets of keying material (RFC 4106, section 4).
#[derive(Clone, Copy, Debug, PartialEq, Eq)]
pub struct Salt {
    first: u8,
    second: u8,
    third: u8,
    fourth: u8,
}

/// The keys accepted, in their order: keying material of an AES key and a salt of four octets (RFC 4106 section 8.1). No
/// two have one AES key.
#[derive(Drop)]
pub struct Keyring {
    salts: IndexMap<Vec<u8>, Salt>,
}

impl Model for Keyring {
    ghost use Rattle.std.specs.Prelude.{List, ℕ, map, ◌++◌, ◌≤◌, length};
    ghost use Rattle.ctl_tunnels.specs.Rings.{salt_octets};

    ghost Value = { List (List ℕ) };

    ghost view = { λ r. map (λ e. e.0.items ++ salt_octets e.1) r.salts.entries };

    ghost invariant = { λ r. length r.salts.entries ≤ 1048576 };
}

// Whether keying material has an AES key of 16 or 32 octets and a salt.
fn has_length(key: &[u8]) -> bool
    ensures { result ≡ is_key_length (length key.now) }
{
    key.len() == 20 || key.len() == 36
}

// The AES key of keying material: all but the salt of four octets (RFC 4106 section 8.1).
fn aes_key(key: &[u8]) -> &[u8]
    requires { 4 ≤ length key.now }
    ensures { result.now ≡ take (length key.now - 4) key.now }
{
    let (front, _) = key.split_at(key.len() - 4);
    front
}

// The salt of keying material.
fn salt_of(key: &[u8]) -> Salt
    requires { 4 ≤ length key.now }
    ensures { salt_octets result ≡ drop (length key.now - 4) key.now }
{
    let (_, back) = key.split_at(key.len() - 4);
    Salt {
        first: back[0],
        second: back[1],
        third: back[2],
        fourth: back[3],
    }
}

impl Keyring {
    /// No keys.
    pub fn new(alloc: Global) -> Keyring
        ensures { result ≡ [] }
    {
        Keyring {
            salts: IndexMap::new(alloc),
        }
    }

    /// How many keys were accepted.
    pub fn len(&self) -> usize
        ensures count { result ≡ length self.now }
        ensures few { result ≤ 1048576 }
    {
        self.salts.len()
    }

    // Whether a key of its AES key was accepted.
    fn is_seen(&self, key: &[u8]) -> bool
        requires { 4 ≤ length key.now }
        ensures { result ≡ is_seen_among key.now self.now }
    {
        self.salts.contains_key(aes_key(key))
    }

    /// Why keying material is refused, by the first reason that applies.
    pub fn refusal(&self, key: &[u8]) -> Option<Refusal>
        ensures { result ≡ key_refusal key.now self.now }
    {
        if !has_length(key) {
            return Some(Refusal::KeyLength);
        }
        if self.is_seen(key) {
            return Some(Refusal::KeySeen);
        }
        if MOST_KEYS <= self.len() {
            return Some(Refusal::KeyLimit);
        }
        None
    }

    /// Accepts keying material that isn't refused.
    pub fn accept(&mut self, alloc: Global, key: &[u8]) -> Result<(), NoMemory>
        requires { key_refusal key.now self.old ≡ None }
        ensures ok { OnOk result (self.new ≡ self.old ++ key.now ∷ []) }
        ensures err { OnErr result (self.new ≡ self.old) }
    {
        let aes = Vec::from_slice(alloc, aes_key(key))?;
        self.salts.insert(aes, salt_of(key))?;
        Ok(())
    }

    /// Takes back the key accepted last.
    pub fn withdraw(&mut self)
        ensures { self.new ≡ take (length self.old - 1) self.old }
    {
        let _ = self.salts.pop();
    }

    /// The key of this place, the oldest being at 0; no octets where there is none.
    pub fn key_at(&self, alloc: Global, place: usize) -> Result<Octets, NoMemory>
        ensures { IfOk result (λ key. key ≡ key_at place self.now) }
    {
        match self.salts.get_index(place) {
            None => Ok(Octets::new(alloc)),
            Some((aes, salt)) => whole_key(alloc, aes.as_slice(), *salt),
        }
    }
}

// Keying material by its parts.
fn whole_key(alloc: Global, aes: &[u8], salt: Salt) -> Result<Octets, NoMemory>
    ensures { IfOk result (λ key. key ≡ aes.now ++ salt_octets salt) }
{
    let mut key = Vec::with_capacity(alloc, 36)?;
    key.extend_from_slice(aes)?;
    key.extend_from_slice(&[salt.first, salt.second, salt.third, salt.fourth])?;
    Ok(Octets::from_items(key))
}
