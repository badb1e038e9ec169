// Writes the lines of a transcript.
ghost use Rattle.std.specs.Prelude.{◌≡◌, ◌++◌, ◌∷◌, [], Ok, IfOk, IsTrue, OnOk, List, map, codes};
ghost use Rattle.std.specs.Fmt.{decimal};
ghost use Rattle.ikeless_tree.specs.declared.command.Peer.{Peer};
ghost use Rattle.line_words.specs.Spelling.{are_spelled};
ghost use Rattle.script_lines.specs.Act.{act_of};
ghost use Rattle.script_lines.specs.Spelling.{IsActUnder};
ghost use Rattle.ikeless_tree.specs.Words.{refusal_text, drop_text, gone_text, lane_text};
ghost use Rattle.line_words.specs.Text.{hex_text, half_text, spaced, line_text, entry_text};
ghost use Rattle.script_lines.specs.Text.{act_text, text_of};

use crate::laws::act_read_again;
use crate::typed::act_fits;
use crate::write_session::{put_answer, put_half_word, put_notice, put_order};
use hist_acts::{Act, Acts, Header};
use ikeless_tree::{DropWhy, Entries, GoneWhy, Lane, Refusal, SadEntry};
use ikl_base::{Name, NoMemory, Octets};
use line_words::{
    put, put_entry_words, put_hex_word, put_lane_word, put_number_word, put_octet, put_word,
};
use std::alloc::Global;

fn put_why_word(out: &mut Vec<u8>, why: DropWhy) -> Result<(), NoMemory>
    ensures { OnOk result (out.new.items ≡ out.old.items ++ 32 ∷ drop_text why) }
{
    put_word(out, why.text().as_bytes())
}

fn put_end_word(out: &mut Vec<u8>, why: GoneWhy) -> Result<(), NoMemory>
    ensures { OnOk result (out.new.items ≡ out.old.items ++ 32 ∷ gone_text why) }
{
    put_word(out, why.text().as_bytes())
}

fn put_refusal_word(out: &mut Vec<u8>, why: Refusal) -> Result<(), NoMemory>
    ensures { OnOk result (out.new.items ≡ out.old.items ++ 32 ∷ refusal_text why) }
{
    put_word(out, why.text().as_bytes())
}

fn put_installed(out: &mut Vec<u8>, g: &Name, entry: &SadEntry) -> Result<(), NoMemory>
    ensures { OnOk result (out.new.items ≡ out.old.items ++ line_text (codes "put" ∷ g.now ∷ half_text entry.now ∷ [])) }
{
    put_at(out, b"put", g)?;
    put_half_word(out, entry)
}

// What happened, and at which gateway.
fn put_at(out: &mut Vec<u8>, what: &[u8], g: &Name) -> Result<(), NoMemory>
    ensures { OnOk result (out.new.items ≡ out.old.items ++ line_text (what.now ∷ g.now ∷ [])) }
{
    put(out, what)?;
    put_word(out, g.as_slice())
}

fn put_counted(out: &mut Vec<u8>, what: &[u8], n: u64) -> Result<(), NoMemory>
    ensures { OnOk result (out.new.items ≡ out.old.items ++ line_text (what.now ∷ decimal n ∷ [])) }
{
    put(out, what)?;
    put_number_word(out, n)
}

fn put_policy(out: &mut Vec<u8>, g: &Name, list: &Entries) -> Result<(), NoMemory>
    ensures { OnOk result (out.new.items ≡ out.old.items ++ line_text (codes "policy" ∷ g.now ∷ map entry_text list.now)) }
{
    put_at(out, b"policy", g)?;
    put_entry_words(out, list.as_slice())
}

fn put_packet(out: &mut Vec<u8>, what: &[u8], g: &Name, o: &Octets) -> Result<(), NoMemory>
    ensures { OnOk result (out.new.items ≡ out.old.items ++ line_text (what.now ∷ g.now ∷ hex_text o.now ∷ [])) }
{
    put_at(out, what, g)?;
    put_hex_word(out, o)
}

/// What happened, at which gateway, and the number of a session.
pub fn put_opening(out: &mut Vec<u8>, what: &[u8], g: &Name, s: u32) -> Result<(), NoMemory>
    ensures { OnOk result (out.new.items ≡ out.old.items ++ line_text (what.now ∷ g.now ∷ decimal s ∷ [])) }
{
    put_at(out, what, g)?;
    put_number_word(out, u64::from(s))
}

fn put_half_at(out: &mut Vec<u8>, what: &[u8], g: &Name, half: &Name) -> Result<(), NoMemory>
    ensures { OnOk result (out.new.items ≡ out.old.items ++ line_text (what.now ∷ g.now ∷ half.now ∷ [])) }
{
    put_at(out, what, g)?;
    put_word(out, half.as_slice())
}

fn put_numbered(out: &mut Vec<u8>, number: u64, o: &Octets) -> Result<(), NoMemory>
    ensures { OnOk result (out.new.items ≡ out.old.items ++ spaced (decimal number ∷ hex_text o.now ∷ [])) }
{
    put_number_word(out, number)?;
    put_hex_word(out, o)
}

fn put_drop(out: &mut Vec<u8>, g: &Name, why: DropWhy) -> Result<(), NoMemory>
    ensures { OnOk result (out.new.items ≡ out.old.items ++ line_text (codes "drop" ∷ g.now ∷ drop_text why ∷ [])) }
{
    put_at(out, b"drop", g)?;
    put_why_word(out, why)
}

fn put_gone(out: &mut Vec<u8>, g: &Name, half: &Name, why: GoneWhy) -> Result<(), NoMemory>
    ensures { OnOk result (out.new.items ≡ out.old.items ++ line_text (codes "gone" ∷ g.now ∷ half.now ∷ gone_text why ∷ [])) }
{
    put_half_at(out, b"gone", g, half)?;
    put_end_word(out, why)
}

fn put_wire(out: &mut Vec<u8>, g: &Name, lane: Lane, o: &Octets) -> Result<(), NoMemory>
    ensures { OnOk result (out.new.items ≡ out.old.items ++ line_text (codes "wire" ∷ g.now ∷ lane_text lane ∷ hex_text o.now ∷ [])) }
{
    put_at(out, b"wire", g)?;
    put_lane_word(out, lane)?;
    put_hex_word(out, o)
}

fn put_refused(out: &mut Vec<u8>, why: Refusal) -> Result<(), NoMemory>
    ensures { OnOk result (out.new.items ≡ out.old.items ++ line_text (codes "refused" ∷ refusal_text why ∷ [])) }
{
    put(out, b"refused")?;
    put_refusal_word(out, why)
}

fn put_sealed(
    out: &mut Vec<u8>,
    what: &[u8],
    at: (&Name, &Name),
    number: u64,
    o: &Octets,
) -> Result<(), NoMemory>
    ensures { OnOk result (out.new.items ≡ out.old.items ++ line_text (what.now ∷ at.entry.0.now ∷ at.entry.1.now ∷ decimal number
        ∷ hex_text o.now ∷ [])) }
{
    put_half_at(out, what, at.0, at.1)?;
    put_numbered(out, number, o)
}

/// Adds the line of an act, without its LF.
#[tactic(auto, unfolding(crate::specs::Text::act_text))]
pub fn put_act(out: &mut Vec<u8>, act: &Act) -> Result<(), NoMemory>
    ensures { OnOk result (out.new.items ≡ out.old.items ++ act_text act.now) }
{
    match act {
        Act::Took(k) => put_counted(out, b"@", *k),
        Act::Now(t) => put_counted(out, b"now", u64::from(*t)),
        Act::Boot(g) => put_at(out, b"boot", g),
        Act::Policy(g, list) => put_policy(out, g, list),
        Act::Put(g, entry) => put_installed(out, g, entry),
        Act::Gone(g, half, why) => put_gone(out, g, half, *why),
        Act::Let(g, o) => put_packet(out, b"let", g, o),
        Act::Sent(g, half, number, o) => put_sealed(out, b"sent", (g, half), *number, o),
        Act::Clear(g, o) => put_packet(out, b"clear", g, o),
        Act::Drop(g, why) => put_drop(out, g, *why),
        Act::Arrived(g, o) => put_packet(out, b"arrived", g, o),
        Act::Gave(g, half, number, o) => put_sealed(out, b"gave", (g, half), *number, o),
        Act::Pass(g, o) => put_packet(out, b"pass", g, o),
        Act::Opened(g, s) => put_opening(out, b"opened", g, *s),
        Act::Cut(g, s) => put_opening(out, b"cut", g, *s),
        Act::Order(g, s, n, order) => put_order(out, g, *s, *n, order),
        Act::Handled(g, s, n, answer) => put_answer(out, b"handled", g, *s, *n, answer),
        Act::Answered(g, s, n, answer) => put_answer(out, b"answered", g, *s, *n, answer),
        Act::Notice(g, s, notice) => put_notice(out, b"notice", g, *s, notice),
        Act::Heard(g, s, notice) => put_notice(out, b"heard", g, *s, notice),
        Act::Wire(g, lane, o) => put_wire(out, g, *lane, o),
        Act::Refused(why) => put_refused(out, *why),
    }
}

/// Adds a line for each act, each with its LF.
pub fn put_acts(out: &mut Vec<u8>, acts: &Acts) -> Result<(), NoMemory>
    ensures { OnOk result (out.new.items ≡ out.old.items ++ text_of acts.now) }
{
    for act in acts.as_slice() {
        put_act(out, act)?;
        put_octet(out, b'\n')?;
    }
    Ok(())
}

fn act_line(alloc: Global, a: &Act) -> Result<Octets, NoMemory>
    ensures { IfOk result (λ text. text ≡ act_text a.now) }
{
    let mut out = Vec::new(alloc);
    put_act(&mut out, a)?;
    Ok(Octets::from_items(out))
}

/// The line of an act, without its LF: the one spelling that it has. It is read as that act under the gateways that it names.
pub fn write_act(alloc: Global, _h: &Header, a: &Act) -> Result<Octets, NoMemory>
    ensures text { IfOk result (λ text. text ≡ act_text a.now) }
    ensures again { (gateways : List Peer) → IsTrue (are_spelled gateways) → IsActUnder gateways a.now
        → IfOk result (λ text. act_of gateways text ≡ Ok a.now) }
{
    act_fits(a);
    act_read_again();
    act_line(alloc, a)
}
