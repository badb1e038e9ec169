// Tunnels in which an event changes nothing and nothing is due. Most are such, and a pass leaves them as they are.
ghost use Rattle.std.specs.Prelude.{◌≡◌};
ghost use Rattle.ctl_core.specs.Idle as idle;

use crate::change::Change;
use ctl_tunnels::{HalfOrder, Life, Pair, Progress, Tunnel};

fn is_free(waits: &Option<HalfOrder>) -> bool
    ensures { result ≡ idle.is_free waits.now }
{
    match waits {
        Some(_) => false,
        None => true,
    }
}

// Whether it is none, or put whole and not ended.
fn is_whole(life: &Option<Life>) -> bool
    ensures { result ≡ idle.is_whole life.now }
{
    match life {
        Some(x) => x.out_done && !x.ended,
        None => true,
    }
}

// Whether a direction waits for no answer, and gets no order whatever the sessions are.
fn is_quiet(progress: &Progress) -> bool
    ensures { result ≡ idle.is_quiet progress.now }
{
    is_free(&progress.waits)
        && !(progress.wanted && !progress.over)
        && is_whole(&progress.older)
        && is_whole(&progress.newer)
}

/// Whether a change leaves both directions of a tunnel as they are, and neither gets an order.
pub fn is_idle(change: &Change, tunnel: &Tunnel, pair: &Pair) -> bool
    ensures { result ≡ idle.is_idle change.now tunnel.now pair.now }
{
    is_quiet(&pair.forth) && is_quiet(&pair.back) && change.spares(tunnel)
}
