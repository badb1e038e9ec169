// Sessions of a gateway's dock, each a pair of streams.
ghost use Rattle.std.specs.Prelude.{◌≡◌, ◌<◌, false};

use crate::ends::{Ends, both_ends, dialer_to};
use crate::ports::{here, two_tcp_ports};
use crate::scenes::{converses, ends_after_reply, is_refused, takes_newer};
use live_devices::Dialer;
use live_sockets::{Activity, TcpDialer, Watch};
use std::io;
use std::io::Write;
use std::net::{Net, TcpListener};
use std::test::Fail;

const NO_SOCKETS: &str = "no sockets";

#[test]
fn octets_go_both_ways(rt: HostRuntime) -> Result<(), Fail> {
    let activity = Activity::new();
    let Ends {
        mut dock,
        mut dialer,
        ..
    } = both_ends(&rt, rt.alloc(), &activity).ok_or(NO_SOCKETS)?;
    assert_eq!(rt; converses(&mut dock, &mut dialer), Ok(true));
    Ok(())
}

#[test]
fn newer_session_drops_the_older(rt: HostRuntime) -> Result<(), Fail> {
    let activity = Activity::new();
    let Ends {
        ports,
        mut dock,
        mut dialer,
    } = both_ends(&rt, rt.alloc(), &activity).ok_or(NO_SOCKETS)?;
    let mut newer = dialer_to(&rt, rt.alloc(), &dock, ports).ok_or(NO_SOCKETS)?;
    assert_eq!(rt; takes_newer(&mut dock, &mut dialer, &mut newer), Ok(true));
    Ok(())
}

#[test]
fn reply_is_read_before_the_end(rt: HostRuntime) -> Result<(), Fail> {
    let activity = Activity::new();
    let Ends {
        mut dock,
        mut dialer,
        ..
    } = both_ends(&rt, rt.alloc(), &activity).ok_or(NO_SOCKETS)?;
    assert_eq!(rt; ends_after_reply(&mut dock, &mut dialer), Ok(true));
    Ok(())
}

// Accepts a connection and writes this octet to it.
fn greet(listener: &TcpListener, octet: u8) -> io::Result<()> {
    let (mut stream, _) = listener.accept()?;
    stream.write_all(&[octet])
}

// Whether a dialer is told by its peer that a session is open, and by nothing else.
fn waits_for_welcome<L: Dialer>(dialer: &mut L, notices: &TcpListener) -> bool
    requires known { 0 < L.peers dialer.old }
    requires down { L.is_up dialer.old 0 ≡ false }
{
    if !is_refused(dialer) || greet(notices, b'-').is_err() || !is_refused(dialer) {
        return false;
    }
    is_refused(dialer) && greet(notices, b'+').is_ok() && !is_refused(dialer)
}

#[test]
fn dial_waits_for_the_welcome(rt: HostRuntime) -> Result<(), Fail> {
    let (control, notices) = two_tcp_ports(&rt)?;
    let activity = Activity::new();
    let mut dialer = TcpDialer::of_controller(&rt, rt.alloc(), Watch::without_dock(&activity));
    dialer.add_gateway(control, notices)?;
    assert!(rt; is_refused(&mut dialer));
    let _orders = rt.bind(here(control))?;
    let listener = rt.bind(here(notices))?;
    assert!(rt; waits_for_welcome(&mut dialer, &listener));
    Ok(())
}
