// What an event changes in the directions of tunnels.
ghost use Rattle.std.specs.Prelude.{◌≡◌, ◌<◌, length, slice_index_or, ◌++◌, ◌∷◌, [], ◌==◌, not, ◌&&◌, IfOk, OnOk, if◌then◌else◌};
ghost use Rattle.ctl_core.specs.Changes as changes;
ghost use Rattle.ctl_core.specs.Idle as idle;

use ctl_tunnels::{Direction, HalfName, HalfOrder, Pair, Progress, Shown, Tunnel};
use ikeless_tree::SpdEntry;
use ikl_base::NoMemory;
use std::alloc::Global;

/// What an event changes in the directions of tunnels.
#[derive(Drop)]
pub enum Change {
    Nothing,
    /// The tunnel of this `reqid` is ended.
    Ended(u64),
    /// New associations are wanted for the tunnel of this `reqid`.
    Rekeyed(u64),
    /// The session of this gateway is cut.
    Cut(usize),
    /// A put or a removal is answered with this status.
    Answered { order: HalfOrder, status: u16 },
    /// A reading of this gateway is answered.
    Read { gateway: usize, shown: Shown },
    /// An acquire is heard from this gateway, for these `reqid`s.
    Acquired { gateway: usize, reqids: Vec<u64> },
    /// An expiry or an overflow of a half of this gateway is heard.
    Worn { gateway: usize, half: HalfName },
}

impl Change {
    /// How far a direction has come after it.
    pub fn of(&self, direction: &Direction, progress: Progress) -> Progress
        ensures { result ≡ changes.changed self.now direction.now progress }
    {
        match self {
            Change::Nothing => progress,
            Change::Ended(reqid) => {
                if direction.reqid == *reqid {
                    progress.ended()
                } else {
                    progress
                }
            }
            Change::Rekeyed(reqid) => progress.wanted_if(direction.reqid == *reqid),
            Change::Cut(gateway) => progress.cut(
                direction.sender == *gateway,
                direction.receiver == *gateway,
            ),
            Change::Answered { order, status } => progress.answered(*order, *status),
            Change::Read { gateway, shown } => progress.read(
                direction.sender == *gateway,
                direction.receiver == *gateway,
                shown,
            ),
            Change::Acquired { gateway, reqids } => progress.wanted_if(
                direction.sender == *gateway
                    && has_reqid(reqids, direction.reqid)
                    && progress.is_settled(),
            ),
            Change::Worn { gateway, half } => progress.wanted_if(progress.has_newest(
                direction.sender == *gateway,
                direction.receiver == *gateway,
                *half,
            )),
        }
    }

    /// Whether it leaves the directions of a tunnel as they are that wait for no answer.
    pub fn spares(&self, tunnel: &Tunnel) -> bool
        ensures { result ≡ idle.spares self.now tunnel.now }
    {
        match self {
            Change::Nothing | Change::Cut(_) | Change::Answered { .. } => true,
            Change::Ended(reqid) | Change::Rekeyed(reqid) => tunnel.reqid != *reqid,
            Change::Read { gateway, .. }
            | Change::Acquired { gateway, .. }
            | Change::Worn { gateway, .. } => is_beside(*gateway, tunnel),
        }
    }
}

// Whether a gateway is neither of a tunnel's.
fn is_beside(gateway: usize, tunnel: &Tunnel) -> bool
    ensures { result ≡ idle.is_beside gateway tunnel.now }
{
    tunnel.first != gateway && tunnel.second != gateway
}

fn has_reqid(reqids: &[u64], reqid: u64) -> bool
    ensures { result ≡ changes.has_reqid reqids.now reqid }
{
    reqids.iter().any(|r| *r == reqid)
}

/// The `reqid`s of the entries of this name in a list of policies.
pub fn reqids_of(alloc: Global, list: &[SpdEntry], name: &[u8]) -> Result<Vec<u64>, NoMemory>
    ensures { IfOk result (λ v. v.items ≡ changes.reqids_of name.now list.now) }
{
    Ok(
        list.iter()
            .filter(|entry| entry.name.as_slice() == name)
            .map(|entry| entry.reqid)
            .collect(alloc)?,
    )
}

/// How far the directions of the tunnel at a place have come.
pub fn pair_at(pairs: &[Pair], i: usize) -> Pair
    requires { i < length pairs.now }
    ensures { result ≡ slice_index_or pairs.now i result }
{
    pairs[i]
}

// Whether a tunnel has this `reqid` and is not ended.
fn is_live(tunnel: Tunnel, pair: Pair, reqid: u64) -> bool
    ensures { result ≡ ((tunnel.reqid == reqid) && not (pair.forth.over && pair.back.over)) }
{
    tunnel.reqid == reqid && !(pair.forth.over && pair.back.over)
}

/// Whether a tunnel of this `reqid` is not ended.
pub fn has_tunnel(tunnels: &[Tunnel], pairs: &[Pair], reqid: u64) -> bool
    ensures { result ≡ changes.has_tunnel reqid tunnels.now pairs.now }
{
    let count = tunnels.len().min(pairs.len());
    for i in 0..count {
        let pair = pair_at(pairs, i);
        if is_live(tunnels[i], pair, reqid) {
            return true;
        }
    }
    false
}

/// How many tunnels aren't ended or have an association left.
pub fn count_tunnels(pairs: &[Pair]) -> usize
    ensures { result ≡ changes.count_tunnels pairs.now }
{
    pairs.iter().filter(|pair| !pair.is_spent()).count()
}

// Adds a tunnel that isn't ended or has an association left.
fn keep(
    tunnel: Tunnel,
    pair: Pair,
    kept: &mut Vec<Tunnel>,
    come: &mut Vec<Pair>,
) -> Result<(), NoMemory>
    ensures tunnels { OnOk result (kept.new.items ≡ kept.old.items ++ (if changes.is_spent pair then [] else tunnel ∷ [])) }
    ensures pairs { OnOk result (come.new.items ≡ come.old.items ++ (if changes.is_spent pair then [] else pair ∷ [])) }
{
    if !pair.is_spent() {
        kept.push(tunnel)?;
        come.push(pair)?;
    }
    Ok(())
}

/// Adds the tunnels that aren't ended or have an association left: the others have nothing more to give.
pub fn unspent(
    tunnels: &[Tunnel],
    pairs: &[Pair],
    kept: &mut Vec<Tunnel>,
    come: &mut Vec<Pair>,
) -> Result<(), NoMemory>
    ensures tunnels { OnOk result (kept.new.items ≡ kept.old.items ++ changes.unspent_tunnels tunnels.now pairs.now) }
    ensures pairs { OnOk result (come.new.items ≡ come.old.items ++ changes.unspent_pairs tunnels.now pairs.now) }
{
    let count = tunnels.len().min(pairs.len());
    for i in 0..count {
        let pair = pair_at(pairs, i);
        keep(tunnels[i], pair, kept, come)?;
    }
    Ok(())
}
