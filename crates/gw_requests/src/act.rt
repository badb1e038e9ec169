// What a gateway does.
ghost use Rattle.std.specs.Prelude.{◌≡◌, IfOk};
ghost use Rattle.gw_requests.specs.declared.act.GwAct.TheVariants as done;

use ikeless_tree::{DropWhy, Entries, Notice, SadEntry};
use ikl_base::{Duplicate, ListOf, Name, NoMemory, Octets};
use rc_resource::{Change, Reply};

/// What a gateway does: a change of its databases, what becomes of a packet, a reply, or a notice.
#[derive(Debug, Drop)]
pub enum GwAct {
    /// This list of policies is in force.
    Spd(Entries),
    /// A half is installed.
    Put(SadEntry),
    /// A half is gone: by a hard limit, or by a request.
    Gone {
        name: Name,
        hard: bool,
    },
    /// A datagram leaves, sealed under the half of this name with this number.
    Sent {
        name: Name,
        number: u64,
        octets: Octets,
    },
    /// A packet leaves in clear.
    Clear(Octets),
    /// A packet or a datagram is dropped.
    Drop(DropWhy),
    /// A packet is given inside, opened under the half of this name with this number.
    Gave {
        name: Name,
        number: u64,
        octets: Octets,
    },
    /// A datagram is given inside, as it came.
    Pass(Octets),
    /// A request is replied to.
    Reply(Reply),
    Notice(Notice),
}

/// Acts, in order.
pub type GwActs = ListOf<GwAct>;

/// An equal change.
pub(crate) fn copy_change(change: &Change) -> Result<Change, NoMemory>
    ensures { IfOk result (λ c. c ≡ change.now) }
{
    match change {
        Change::Nothing => Ok(Change::Nothing),
        Change::Spd => Ok(Change::Spd),
        Change::Put(entry) => Ok(Change::Put(entry.copy()?)),
        Change::Gone(name) => Ok(Change::Gone(name.copy()?)),
    }
}

fn copy_reply(reply: &Reply) -> Result<Reply, NoMemory>
    ensures { IfOk result (λ r. r ≡ reply.now) }
{
    let names = reply.names.copy()?;
    let location = reply.location.copy()?;
    let allow = reply.allow.copy()?;
    let body = reply.body.copy()?;
    let change = copy_change(&reply.change)?;
    Ok(Reply {
        status: reply.status,
        tag: reply.tag,
        names,
        location,
        allow,
        body,
        change,
    })
}

fn copy_sent(name: &Name, number: u64, octets: &Octets) -> Result<GwAct, NoMemory>
    ensures { IfOk result (λ a. a ≡ done.Sent name.now number octets.now) }
{
    Ok(GwAct::Sent {
        name: name.copy()?,
        number,
        octets: octets.copy()?,
    })
}

fn copy_gave(name: &Name, number: u64, octets: &Octets) -> Result<GwAct, NoMemory>
    ensures { IfOk result (λ a. a ≡ done.Gave name.now number octets.now) }
{
    Ok(GwAct::Gave {
        name: name.copy()?,
        number,
        octets: octets.copy()?,
    })
}

impl Duplicate for GwAct {
    fn copy(&self) -> Result<GwAct, NoMemory> {
        match self {
            GwAct::Spd(list) => Ok(GwAct::Spd(list.copy()?)),
            GwAct::Put(entry) => Ok(GwAct::Put(entry.copy()?)),
            GwAct::Gone { name, hard } => Ok(GwAct::Gone {
                name: name.copy()?,
                hard: *hard,
            }),
            GwAct::Sent {
                name,
                number,
                octets,
            } => copy_sent(name, *number, octets),
            GwAct::Clear(octets) => Ok(GwAct::Clear(octets.copy()?)),
            GwAct::Drop(why) => Ok(GwAct::Drop(*why)),
            GwAct::Gave {
                name,
                number,
                octets,
            } => copy_gave(name, *number, octets),
            GwAct::Pass(octets) => Ok(GwAct::Pass(octets.copy()?)),
            GwAct::Reply(reply) => Ok(GwAct::Reply(copy_reply(reply)?)),
            GwAct::Notice(notice) => Ok(GwAct::Notice(notice.copy()?)),
        }
    }
}
