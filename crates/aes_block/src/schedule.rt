//! The key schedule (FIPS 197, section 5.2) and the cipher (section 5.1).

ghost use Rattle.std.specs.Prelude.{◌≡◌, ℕ, ◌+◌, ◌%◌, ◌*◌, ◌<◌, ◌≤◌, List, length, map, take};
ghost use Rattle.std.specs.Int.{w32, to_be_bytes};
ghost use Rattle.aes_block.specs.Aes.{aes, cipher, first_words, key_word, next_word, round_constant, words};

use crate::columns::{first, last, round};
use crate::octets::{add_words, packed, rotate_word, sub_word};
use crate::shared::{SharedRounds, after_two, shared};
use crate::tables::ROUND_CONSTANTS;

/// An expanded key: the words of the schedule of a key of 16 or 32 octets.
#[derive(Clone, Copy, Drop)]
pub struct KeySchedule {
    // Words 0, .., 4 rounds + 3, then zeros.
    pub(crate) words: [u32; 60],
    pub(crate) rounds: usize,
    ghost some: { 4 ≤ rounds },
    ghost few: { rounds < 15 },
    ghost even: { rounds % 2 ≡ 0 },
}

fn round_constant(i: usize) -> u8
    requires { i < 14 }
    ensures { result ≡ round_constant i }
{
    ROUND_CONSTANTS[i]
}

fn next_word(words: &[[u8; 4]; 60], n: usize, i: usize) -> [u8; 4]
    requires size { 4 ≤ n }
    requires later { n ≤ i }
    requires within { i < 60 }
    ensures { result ≡ next_word n words.now i }
{
    let t = words[i - 1];
    let t = if i % n == 0 {
        add_words(
            sub_word(rotate_word(t)),
            [round_constant(i / n - 1), 0, 0, 0],
        )
    } else if n == 8 && i % 8 == 4 {
        sub_word(t)
    } else {
        t
    };
    add_words(words[i - n], t)
}

fn key_word(k: &[u8], i: usize) -> [u8; 4]
    requires { 4 * i + 4 ≤ length k.now }
    ensures { result ≡ key_word k.now i }
{
    [k[4 * i], k[4 * i + 1], k[4 * i + 2], k[4 * i + 3]]
}

// The schedule of a key of n words, up to word n + more.
fn expand(k: &[u8], n: usize, more: usize) -> [[u8; 4]; 60]
    requires size { 4 ≤ n }
    requires long { length k.now ≡ 4 * n }
    requires within { n + more ≤ 60 }
    ensures { take (n + more) result ≡ words n k.now more }
{
    let mut words = [[0u8; 4]; 60];
    'first: for i in 0..n {
        words[i] = key_word(k, i);
    }
    'later: for i in 0..more {
        words[n + i] = next_word(&words, n, n + i);
    }
    words
}

fn packed_word(w: [u8; 4]) -> u32
    ensures { to_be_bytes w32 result ≡ w }
{
    packed(w[0], w[1], w[2], w[3])
}

// The numbers of the words.
fn packed_words(words: &[[u8; 4]; 60]) -> [u32; 60]
    ensures { map (to_be_bytes w32) result ≡ words.now }
{
    let mut numbers = [0u32; 60];
    'words: for i in 0..60 {
        numbers[i] = packed_word(words[i]);
    }
    numbers
}

impl KeySchedule {
    ghost use Rattle.aes_block.specs.Schedule.{cipher_of};
    ghost use Rattle.aes_block.specs.Shared.{Shares, with_last};

    /// The schedule of a key of 16 octets: 10 rounds.
    pub fn of_128(k: &[u8; 16]) -> KeySchedule
        ensures { cipher_of result ≡ aes 4 k.now }
    {
        KeySchedule {
            words: packed_words(&expand(k, 4, 40)),
            rounds: 10,
        }
    }

    /// The schedule of a key of 32 octets: 14 rounds.
    pub fn of_256(k: &[u8; 32]) -> KeySchedule
        ensures { cipher_of result ≡ aes 8 k.now }
    {
        KeySchedule {
            words: packed_words(&expand(k, 8, 52)),
            rounds: 14,
        }
    }

    /// The cipher of a block (FIPS 197, section 5.1).
    pub fn encrypt(&self, b: &[u8; 16]) -> [u8; 16]
        ensures { result ≡ cipher_of self.now b.now }
    {
        let mut state = round(&self.words, 1, &first(&self.words, b));
        'pairs: for i in 0..(self.rounds - 2) / 2 {
            let middle = round(&self.words, 2 * i + 2, &state);
            state = round(&self.words, 2 * i + 3, &middle);
        }
        last(&self.words, self.rounds, &state)
    }

    /// What the ciphers of the blocks have in common that are `b` but for the last octet: the first
    /// two rounds, almost whole.
    pub fn shared_rounds(&self, b: &[u8; 16]) -> SharedRounds
        ensures { Shares result self.now b.now }
    {
        shared(&self.words, b)
    }

    /// The cipher of a block that ends in `octet`, by what it shares with the blocks that are
    /// the same but for that octet.
    pub fn encrypt_after(&self, shared: &SharedRounds, octet: u8) -> [u8; 16]
        ensures { (b : List ℕ) → Shares shared.now self.now b → result ≡ cipher_of self.now (with_last b octet) }
    {
        let mut state = round(&self.words, 3, &after_two(shared, octet));
        'pairs: for i in 0..(self.rounds - 4) / 2 {
            let middle = round(&self.words, 2 * i + 4, &state);
            state = round(&self.words, 2 * i + 5, &middle);
        }
        last(&self.words, self.rounds, &state)
    }
}
