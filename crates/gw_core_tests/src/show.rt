// The acts of a gateway as the lines of a transcript, without the words that name the gateway, its session and the request.
use gw_core::GwAct;
use ikeless_tree::{Limits, Notice, Tag, softness_text};
use ikl_base::{Name, NoMemory, Octets};
use line_words::{
    put, put_entry_words, put_half, put_hex_word, put_limits, put_number_word, put_octet,
    put_selector, put_word,
};
use rc_resource::Reply;
use std::alloc::Global;

fn put_tag(out: &mut Vec<u8>, tag: Option<Tag>) -> Result<(), NoMemory> {
    match tag {
        None => put_word(out, b"-"),
        Some(tag) => put_word(out, tag.text().as_bytes()),
    }
}

fn put_names(out: &mut Vec<u8>, names: &[Name]) -> Result<(), NoMemory> {
    if names.is_empty() {
        return put_word(out, b"-");
    }
    let mut mark = b' ';
    for name in names {
        put_octet(out, mark)?;
        put(out, name.as_slice())?;
        mark = b',';
    }
    Ok(())
}

fn put_reply(out: &mut Vec<u8>, reply: &Reply) -> Result<(), NoMemory> {
    put_number_word(out, u64::from(reply.status))?;
    put_tag(out, reply.tag)?;
    put_names(out, reply.names.as_slice())
}

fn put_expiry(
    out: &mut Vec<u8>,
    name: &Name,
    soft: bool,
    current: &Limits,
) -> Result<(), NoMemory> {
    put_word(out, b"expire")?;
    put_word(out, name.as_slice())?;
    put_word(out, softness_text(soft).as_bytes())?;
    put_octet(out, b' ')?;
    put_limits(out, current)
}

fn put_notice(out: &mut Vec<u8>, notice: &Notice) -> Result<(), NoMemory> {
    match notice {
        Notice::Acquire { policy, selector } => {
            put_word(out, b"acquire")?;
            put_word(out, policy.as_slice())?;
            put_octet(out, b' ')?;
            put_selector(out, selector)
        }
        Notice::Expire {
            name,
            soft,
            current,
        } => put_expiry(out, name, *soft, current),
        Notice::SeqOverflow { name } => {
            put_word(out, b"overflow")?;
            put_word(out, name.as_slice())
        }
        Notice::BadSpi { spi } => {
            put_word(out, b"bad-spi")?;
            put_number_word(out, u64::from(*spi))
        }
    }
}

fn put_numbered(
    out: &mut Vec<u8>,
    name: &Name,
    number: u64,
    octets: &Octets,
) -> Result<(), NoMemory> {
    put_word(out, name.as_slice())?;
    put_number_word(out, number)?;
    put_hex_word(out, octets)
}

fn put_gone(out: &mut Vec<u8>, name: &Name, hard: bool) -> Result<(), NoMemory> {
    put_word(out, name.as_slice())?;
    if hard {
        put_word(out, b"hard")
    } else {
        put_word(out, b"removed")
    }
}

fn kind(act: &GwAct) -> &'static [u8] {
    match act {
        GwAct::Spd(_) => b"policy",
        GwAct::Put(_) => b"put",
        GwAct::Gone { .. } => b"gone",
        GwAct::Sent { .. } => b"sent",
        GwAct::Clear(_) => b"clear",
        GwAct::Drop(_) => b"drop",
        GwAct::Gave { .. } => b"gave",
        GwAct::Pass(_) => b"pass",
        GwAct::Reply(_) => b"handled",
        GwAct::Notice(_) => b"notice",
    }
}

fn put_rest(out: &mut Vec<u8>, act: &GwAct) -> Result<(), NoMemory> {
    match act {
        GwAct::Spd(list) => put_entry_words(out, list.as_slice()),
        GwAct::Put(entry) => {
            put_octet(out, b' ')?;
            put_half(out, entry)
        }
        GwAct::Gone { name, hard } => put_gone(out, name, *hard),
        GwAct::Sent {
            name,
            number,
            octets,
        } => put_numbered(out, name, *number, octets),
        GwAct::Clear(octets) | GwAct::Pass(octets) => put_hex_word(out, octets),
        GwAct::Drop(why) => put_word(out, why.text().as_bytes()),
        GwAct::Gave {
            name,
            number,
            octets,
        } => put_numbered(out, name, *number, octets),
        GwAct::Reply(reply) => put_reply(out, reply),
        GwAct::Notice(notice) => put_notice(out, notice),
    }
}

/// An act as a line.
pub fn shown(alloc: Global, act: &GwAct) -> Result<Vec<u8>, NoMemory> {
    let mut out = Vec::new(alloc);
    put(&mut out, kind(act))?;
    put_rest(&mut out, act)?;
    Ok(out)
}
