// How what a gateway does is told as acts.
ghost use Rattle.std.specs.Prelude.{◌≡◌, ◌<◌, ◌^◌, IfOk};
ghost use Rattle.gw_history.specs.Told as law;
ghost use Rattle.world_nodes.specs.Numbered.{naming_by};

use gw_core::GwAct;
use hist_acts::Act;
use ikeless_tree::{Answer, GoneWhy};
use ikl_base::{Duplicate, Name, NoMemory};
use rc_resource::Reply;

/// What names the acts of a gateway beside its name: how many sessions were opened, the one that it has or 0, and how many requests
/// were handled in it.
#[derive(Clone, Copy, Debug, PartialEq, Eq)]
pub struct Numbers {
    pub openings: u32,
    pub session: u32,
    pub requests: u64,
}

fn why_gone(hard: bool) -> GoneWhy
    ensures { result ≡ law.why_gone hard }
{
    if hard {
        GoneWhy::Hard
    } else {
        GoneWhy::Removed
    }
}

// The answer of a reply: its status, its tag and its names.
fn answer_of(reply: Reply) -> Answer
    ensures { result ≡ law.answer_of reply }
{
    Answer {
        status: reply.status,
        tag: reply.tag,
        names: reply.names,
    }
}

// The act of a gateway of this name.
fn told_as(name: Name, numbers: Numbers, act: GwAct) -> Act
    requires { numbers.requests < 2 ^ 63 }
    ensures { result ≡ law.told (naming_by name numbers) act }
{
    match act {
        GwAct::Spd(list) => Act::Policy(name, list),
        GwAct::Put(entry) => Act::Put(name, entry),
        GwAct::Gone { name: half, hard } => Act::Gone(name, half, why_gone(hard)),
        GwAct::Sent {
            name: half,
            number,
            octets,
        } => Act::Sent(name, half, number, octets),
        GwAct::Clear(octets) => Act::Clear(name, octets),
        GwAct::Drop(why) => Act::Drop(name, why),
        GwAct::Gave {
            name: half,
            number,
            octets,
        } => Act::Gave(name, half, number, octets),
        GwAct::Pass(octets) => Act::Pass(name, octets),
        GwAct::Reply(reply) => Act::Handled(
            name,
            numbers.session,
            numbers.requests + 1,
            answer_of(reply),
        ),
        GwAct::Notice(notice) => Act::Notice(name, numbers.session, notice),
    }
}

/// The act of a gateway of this name and these numbers.
pub fn told(name: &Name, numbers: Numbers, act: GwAct) -> Result<Act, NoMemory>
    requires { numbers.requests < 2 ^ 63 }
    ensures { IfOk result (λ a. a ≡ law.told (naming_by name.now numbers) act) }
{
    Ok(told_as(name.copy()?, numbers, act))
}
