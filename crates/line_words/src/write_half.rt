// Writes the words of halves.
ghost use Rattle.std.specs.Prelude.{◌≡◌, ◌++◌, ◌∷◌, OnOk};
ghost use Rattle.std.specs.Fmt.{decimal};
ghost use Rattle.yang_values.specs.Addresses.{address_text};
ghost use Rattle.line_words.specs.Text.{limits_text, half_numbers_text, half_tunnel_text, half_lifetimes_text, half_keys_text, half_text};
ghost use Rattle.ikeless_tree.specs.Words.{df_text};

use crate::write::{put, put_octet, put_selector};
use ikeless_tree::{Df, Limits, SadEntry};
use ikl_base::{Addr, NoMemory};
use yang_values::{put_address, put_digits, put_number};

// A number after a mark.
fn put_next(out: &mut Vec<u8>, mark: u8, n: u64) -> Result<(), NoMemory>
    ensures { OnOk result (out.new.items ≡ out.old.items ++ mark ∷ decimal n) }
{
    put_octet(out, mark)?;
    put_number(out, n)
}

/// Limits, with slashes between them.
pub fn put_limits(out: &mut Vec<u8>, limits: &Limits) -> Result<(), NoMemory>
    ensures { OnOk result (out.new.items ≡ out.old.items ++ limits_text limits.now) }
{
    put_number(out, u64::from(limits.time))?;
    put_next(out, b'/', limits.bytes)?;
    put_next(out, b'/', u64::from(limits.packets))?;
    put_next(out, b'/', u64::from(limits.idle))
}

fn put_df(out: &mut Vec<u8>, df: Df) -> Result<(), NoMemory>
    ensures { OnOk result (out.new.items ≡ out.old.items ++ df_text df) }
{
    put(out, df.text().as_bytes())
}

fn put_numbers(out: &mut Vec<u8>, entry: &SadEntry) -> Result<(), NoMemory>
    ensures { OnOk result (out.new.items ≡ out.old.items ++ half_numbers_text entry.now) }
{
    put_number(out, entry.reqid)?;
    put_next(out, b',', u64::from(entry.spi))?;
    put_next(out, b',', u64::from(entry.window))
}

fn put_next_address(out: &mut Vec<u8>, address: &Addr) -> Result<(), NoMemory>
    ensures { OnOk result (out.new.items ≡ out.old.items ++ 44 ∷ address_text address.now) }
{
    put_octet(out, b',')?;
    put_address(out, address)
}

fn put_tunnel(out: &mut Vec<u8>, entry: &SadEntry) -> Result<(), NoMemory>
    ensures { OnOk result (out.new.items ≡ out.old.items ++ half_tunnel_text entry.now) }
{
    put_address(out, &entry.local)?;
    put_next_address(out, &entry.remote)?;
    put_octet(out, b',')?;
    put_df(out, entry.df)
}

fn put_lifetimes(out: &mut Vec<u8>, entry: &SadEntry) -> Result<(), NoMemory>
    ensures { OnOk result (out.new.items ≡ out.old.items ++ half_lifetimes_text entry.now) }
{
    put_limits(out, &entry.hard)?;
    put_octet(out, b',')?;
    put_limits(out, &entry.soft)
}

fn put_keys(out: &mut Vec<u8>, entry: &SadEntry) -> Result<(), NoMemory>
    ensures { OnOk result (out.new.items ≡ out.old.items ++ half_keys_text entry.now) }
{
    put_digits(out, entry.key.as_slice())?;
    put_octet(out, b',')?;
    put_tunnel(out, entry)?;
    put_octet(out, b',')?;
    put_lifetimes(out, entry)
}

// The name and the numbers.
fn put_front(out: &mut Vec<u8>, entry: &SadEntry) -> Result<(), NoMemory>
    ensures { OnOk result (out.new.items ≡ out.old.items ++ (entry.now.name ++ 44 ∷ half_numbers_text entry.now)) }
{
    put(out, entry.name.as_slice())?;
    put_octet(out, b',')?;
    put_numbers(out, entry)
}

/// A half, with commas between its parts.
#[tactic(auto, unfolding(crate::specs::Text::half_text))]
pub fn put_half(out: &mut Vec<u8>, entry: &SadEntry) -> Result<(), NoMemory>
    ensures { OnOk result (out.new.items ≡ out.old.items ++ half_text entry.now) }
{
    put_front(out, entry)?;
    put_octet(out, b',')?;
    put_selector(out, &entry.selector)?;
    put_octet(out, b',')?;
    put_keys(out, entry)
}
