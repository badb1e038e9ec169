// Writes the words of sessions: orders, answers and notices.
ghost use Rattle.std.specs.Prelude.{◌≡◌, ◌++◌, ◌∷◌, [], OnOk, codes};
ghost use Rattle.std.specs.List.{flat_map};
ghost use Rattle.std.specs.Fmt.{decimal};
ghost use Rattle.line_words.specs.Text.{spaced, limits_text, selector_text, half_text, line_text};
ghost use Rattle.script_lines.specs.Text.{names_text, tag_word, order_words, answer_words, notice_words};
ghost use Rattle.ikeless_tree.specs.Words.{softness_text};

use crate::write::put_opening;
use ikeless_tree::{Answer, Limits, Notice, Order, SadEntry, Selector, Tag, softness_text};
use ikl_base::{Name, NoMemory};
use line_words::{
    put, put_entry_words, put_half, put_limits, put_number_word, put_octet, put_selector, put_word,
};

/// A half after a space.
pub fn put_half_word(out: &mut Vec<u8>, entry: &SadEntry) -> Result<(), NoMemory>
    ensures { OnOk result (out.new.items ≡ out.old.items ++ 32 ∷ half_text entry.now) }
{
    put_octet(out, b' ')?;
    put_half(out, entry)
}

fn put_order_words(out: &mut Vec<u8>, order: &Order) -> Result<(), NoMemory>
    ensures { OnOk result (out.new.items ≡ out.old.items ++ spaced (order_words order.now)) }
{
    match order {
        Order::Read => put_word(out, b"read"),
        Order::Policy(list) => {
            put_word(out, b"policy")?;
            put_entry_words(out, list.as_slice())
        }
        Order::Put(entry) => {
            put_word(out, b"put")?;
            put_half_word(out, entry)
        }
        Order::Remove(name) => {
            put_word(out, b"remove")?;
            put_word(out, name.as_slice())
        }
    }
}

fn put_more_names(out: &mut Vec<u8>, names: &[Name]) -> Result<(), NoMemory>
    ensures { OnOk result (out.new.items ≡ out.old.items ++ flat_map (λ m. 44 ∷ m) names.now) }
{
    for name in names {
        put_octet(out, b',')?;
        put(out, name.as_slice())?;
    }
    Ok(())
}

fn put_names(out: &mut Vec<u8>, names: &[Name]) -> Result<(), NoMemory>
    ensures { OnOk result (out.new.items ≡ out.old.items ++ names_text names.now) }
{
    match names {
        [] => put(out, b"-"),
        [first, more @ ..] => {
            put(out, first.as_slice())?;
            put_more_names(out, more)
        }
    }
}

fn put_tag(out: &mut Vec<u8>, tag: Option<Tag>) -> Result<(), NoMemory>
    ensures { OnOk result (out.new.items ≡ out.old.items ++ tag_word tag) }
{
    match tag {
        None => put(out, b"-"),
        Some(tag) => put(out, tag.text().as_bytes()),
    }
}

fn put_answer_words(out: &mut Vec<u8>, answer: &Answer) -> Result<(), NoMemory>
    ensures { OnOk result (out.new.items ≡ out.old.items ++ spaced (answer_words answer.now)) }
{
    put_number_word(out, u64::from(answer.status))?;
    put_octet(out, b' ')?;
    put_tag(out, answer.tag)?;
    put_octet(out, b' ')?;
    put_names(out, answer.names.as_slice())
}

fn put_acquire(out: &mut Vec<u8>, policy: &Name, selector: &Selector) -> Result<(), NoMemory>
    ensures { OnOk result (out.new.items ≡ out.old.items ++ spaced (codes "acquire" ∷ policy.now ∷ selector_text selector.now ∷ [])) }
{
    put_word(out, b"acquire")?;
    put_word(out, policy.as_slice())?;
    put_octet(out, b' ')?;
    put_selector(out, selector)
}

fn put_soft_word(out: &mut Vec<u8>, soft: bool) -> Result<(), NoMemory>
    ensures { OnOk result (out.new.items ≡ out.old.items ++ 32 ∷ softness_text soft) }
{
    put_word(out, softness_text(soft).as_bytes())
}

fn put_expire(out: &mut Vec<u8>, name: &Name, soft: bool, current: &Limits) -> Result<(), NoMemory>
    ensures { OnOk result (out.new.items ≡ out.old.items ++ spaced (codes "expire" ∷ name.now ∷ softness_text soft ∷ limits_text current.now
        ∷ [])) }
{
    put_word(out, b"expire")?;
    put_word(out, name.as_slice())?;
    put_soft_word(out, soft)?;
    put_octet(out, b' ')?;
    put_limits(out, current)
}

fn put_notice_words(out: &mut Vec<u8>, notice: &Notice) -> Result<(), NoMemory>
    ensures { OnOk result (out.new.items ≡ out.old.items ++ spaced (notice_words notice.now)) }
{
    match notice {
        Notice::Acquire { policy, selector } => put_acquire(out, policy, selector),
        Notice::Expire {
            name,
            soft,
            current,
        } => put_expire(out, name, *soft, current),
        Notice::SeqOverflow { name } => {
            put_word(out, b"overflow")?;
            put_word(out, name.as_slice())
        }
        Notice::BadSpi { spi } => {
            put_word(out, b"bad-spi")?;
            put_number_word(out, u64::from(*spi))
        }
    }
}

// What happened, at which gateway, and the numbers of a session and of a request in it.
fn put_place(out: &mut Vec<u8>, what: &[u8], g: &Name, s: u32, n: u64) -> Result<(), NoMemory>
    ensures { OnOk result (out.new.items ≡ out.old.items ++ line_text (what.now ∷ g.now ∷ decimal s ∷ decimal n ∷ [])) }
{
    put_opening(out, what, g, s)?;
    put_number_word(out, n)
}

/// The line of an order.
pub fn put_order(out: &mut Vec<u8>, g: &Name, s: u32, n: u64, order: &Order) -> Result<(), NoMemory>
    ensures { OnOk result (out.new.items ≡ out.old.items ++ line_text (codes "order" ∷ g.now ∷ decimal s ∷ decimal n
        ∷ order_words order.now)) }
{
    put_place(out, b"order", g, s, n)?;
    put_order_words(out, order)
}

/// The line of an answer.
pub fn put_answer(
    out: &mut Vec<u8>,
    what: &[u8],
    g: &Name,
    s: u32,
    n: u64,
    answer: &Answer,
) -> Result<(), NoMemory>
    ensures { OnOk result (out.new.items ≡ out.old.items ++ line_text (what.now ∷ g.now ∷ decimal s ∷ decimal n
        ∷ answer_words answer.now)) }
{
    put_place(out, what, g, s, n)?;
    put_answer_words(out, answer)
}

/// The line of a notice.
pub fn put_notice(
    out: &mut Vec<u8>,
    what: &[u8],
    g: &Name,
    s: u32,
    notice: &Notice,
) -> Result<(), NoMemory>
    ensures { OnOk result (out.new.items ≡ out.old.items ++ line_text (what.now ∷ g.now ∷ decimal s ∷ notice_words notice.now)) }
{
    put_opening(out, what, g, s)?;
    put_notice_words(out, notice)
}
