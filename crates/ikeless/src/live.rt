// The commands that serve over sockets.
ghost use Rattle.std.specs.Prelude.{◌≡◌, IfOk, Ok, length};
ghost use Rattle.live_sockets.specs.Peers.{AllDown};
ghost use Rattle.live_words.specs.Controller.{controller_words_of};

use ikl_base::{NoMemory, OrMemory, Status, ToWriter};
use live_commands::{run_client, run_controller, run_gateway};
use live_sockets::{Activity, SocketFault, SystemClock, TcpDialer, TcpDock, UdpWire};
use live_words::{
    BadWords, ClientWords, ControllerWords, GatewayWords, Link, Links, read_client_words,
    read_controller_words, read_gateway_words,
};

// How a command ends for which its devices could not be made.
fn unmade(refused: OrMemory<SocketFault>) -> Status {
    match refused {
        OrMemory::Refused(_) => Status::DeviceFault,
        OrMemory::NoMemory => Status::NoMemory,
    }
}

fn unread(refused: OrMemory<BadWords>) -> Status {
    match refused {
        OrMemory::Refused(_) => Status::Words,
        OrMemory::NoMemory => Status::NoMemory,
    }
}

fn over_gateway_ports(
    rt: &HostRuntime,
    words: &[String],
    said: &GatewayWords,
) -> Result<Status, OrMemory<SocketFault>> {
    let activity = Activity::new();
    let mut dock = TcpDock::of_gateway(rt, rt.alloc(), said.control, said.notice, &activity)?;
    let watch = match dock.watch() {
        Ok(watch) => watch,
        Err(fault) => return Err(OrMemory::Refused(fault)),
    };
    let mut inside = match UdpWire::new(rt, said.inside, said.inside_to, &watch) {
        Ok(wire) => wire,
        Err(fault) => return Err(OrMemory::Refused(fault)),
    };
    let mut outside = match UdpWire::new(rt, said.outside, said.outside_to, &watch) {
        Ok(wire) => wire,
        Err(fault) => return Err(OrMemory::Refused(fault)),
    };
    let mut clock = SystemClock::new(rt);
    Ok(run_gateway(
        rt.alloc(),
        words,
        &mut inside,
        &mut outside,
        &mut dock,
        &mut clock,
    ))
}

/// The command `gateway`.
pub fn gateway(rt: &HostRuntime, words: &[String]) -> Status {
    match read_gateway_words(rt.alloc(), words) {
        Err(refused) => unread(refused),
        Ok(said) => match over_gateway_ports(rt, words, &said) {
            Ok(status) => status,
            Err(refused) => unmade(refused),
        },
    }
}

// The ports of a gateway; there are as many links as gateways.
fn link_at(links: &Links, i: usize) -> Link {
    match links.get(i) {
        Some(link) => *link,
        None => Link {
            control: 0,
            notice: 0,
        },
    }
}

// A dialer of so many gateways with these ports.
fn dialer_of<'a>(
    rt: &'a HostRuntime,
    commands: &TcpDock<'a, HostRuntime>,
    gateways: usize,
    links: &Links,
) -> Result<TcpDialer<'a, HostRuntime>, OrMemory<SocketFault>>
    ensures peers { IfOk result (λ d. length d.peers.items ≡ gateways) }
    ensures down { IfOk result (λ d. AllDown d.peers.items) }
{
    let watch = match commands.watch() {
        Ok(watch) => watch,
        Err(fault) => return Err(OrMemory::Refused(fault)),
    };
    let mut dialer = TcpDialer::of_controller(rt, rt.alloc(), watch);
    for i in 0..gateways {
        let link = link_at(links, i);
        match dialer.add_gateway(link.control, link.notice) {
            Ok(()) => (),
            Err(NoMemory) => return Err(OrMemory::NoMemory),
        }
    }
    Ok(dialer)
}

fn over_controller_ports(
    rt: &HostRuntime,
    words: &[String],
    said: &ControllerWords,
) -> Result<Status, OrMemory<SocketFault>>
    requires { controller_words_of words.now ≡ Ok said.now }
{
    let activity = Activity::new();
    let mut commands = TcpDock::of_commands(rt, rt.alloc(), said.commands, &activity)?;
    let mut dialer = dialer_of(rt, &commands, said.peers.len(), &said.links)?;
    Ok(run_controller(rt.alloc(), words, &mut commands, &mut dialer))
}

/// The command `controller`.
pub fn controller(rt: &HostRuntime, words: &[String]) -> Status {
    match read_controller_words(rt.alloc(), words) {
        Err(refused) => unread(refused),
        Ok(said) => match over_controller_ports(rt, words, &said) {
            Ok(status) => status,
            Err(refused) => unmade(refused),
        },
    }
}

fn over_client_port(rt: &HostRuntime, words: &[String], said: &ClientWords) -> Status {
    let activity = Activity::new();
    let mut output = ToWriter::new(rt.stdout());
    match TcpDialer::of_client(rt, rt.alloc(), said.port, &activity) {
        Ok(mut dialer) => run_client(rt.alloc(), words, &mut dialer, &mut output),
        Err(NoMemory) => Status::NoMemory,
    }
}

/// The command `client`.
pub fn client(rt: &HostRuntime, words: &[String]) -> Status {
    match read_client_words(rt.alloc(), words) {
        Err(refused) => unread(refused),
        Ok(said) => over_client_port(rt, words, &said),
    }
}
