// Orders and acts as lines.
use crate::keys::parts_of;
use ctl_core::CtlAct;
use ikeless_tree::{Entries, Order, SadEntry};
use ikl_base::NoMemory;
use std::alloc::Global;
use yang_values::put_number;

fn put_text(out: &mut Vec<u8>, text: &str) -> Result<(), NoMemory> {
    Ok(out.extend_from_slice(text.as_bytes())?)
}

// Each entry by its name and its `reqid`.
fn put_list(out: &mut Vec<u8>, list: &Entries) -> Result<(), NoMemory> {
    for entry in list.as_slice() {
        out.push(b' ')?;
        out.extend_from_slice(entry.name.as_slice())?;
        out.push(b' ')?;
        put_number(out, entry.reqid)?;
    }
    Ok(())
}

// The number of a key, and its salt where that is another.
fn put_key(alloc: Global, out: &mut Vec<u8>, key: &[u8]) -> Result<(), NoMemory> {
    match parts_of(alloc, key)? {
        Some((number, salt)) => {
            put_number(out, u64::from(number))?;
            if salt != number {
                out.push(b'/')?;
                put_number(out, u64::from(salt))?;
            }
            Ok(())
        }
        None => put_text(out, "?"),
    }
}

fn put_half(alloc: Global, out: &mut Vec<u8>, entry: &SadEntry) -> Result<(), NoMemory> {
    put_text(out, "put ")?;
    out.extend_from_slice(entry.name.as_slice())?;
    put_text(out, " k")?;
    put_key(alloc, out, entry.key.as_slice())
}

/// Adds the words of an order: a half by its name and the number of its key.
pub fn put_order(alloc: Global, out: &mut Vec<u8>, order: &Order) -> Result<(), NoMemory> {
    match order {
        Order::Read => put_text(out, "read"),
        Order::Policy(list) => {
            put_text(out, "policy")?;
            put_list(out, list)
        }
        Order::Put(entry) => put_half(alloc, out, entry),
        Order::Remove(name) => {
            put_text(out, "remove ")?;
            Ok(out.extend_from_slice(name.as_slice())?)
        }
    }
}

fn letter(gateway: usize) -> u8 {
    if gateway < 26 {
        b'a' + gateway as u8
    } else {
        b'?'
    }
}

/// The line of an act.
pub fn act_line(alloc: Global, act: &CtlAct) -> Result<Vec<u8>, NoMemory> {
    let mut out = Vec::new(alloc);
    match act {
        CtlAct::Order { gateway, order } => {
            put_text(&mut out, "order ")?;
            out.extend_from_slice(&[letter(*gateway), b' '])?;
            put_order(alloc, &mut out, order)?;
        }
        CtlAct::Refused(why) => {
            put_text(&mut out, "refused ")?;
            put_text(&mut out, why.text())?;
        }
    }
    Ok(out)
}

/// The words of an order, or a dash.
pub fn order_text(alloc: Global, order: Option<&Order>) -> Result<Vec<u8>, NoMemory> {
    let mut out = Vec::new(alloc);
    match order {
        Some(o) => put_order(alloc, &mut out, o)?,
        None => out.push(b'-')?,
    }
    Ok(out)
}
