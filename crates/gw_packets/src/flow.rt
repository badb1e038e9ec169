// What is said of a packet in a notice or a drop, and the policy that decides for it.
ghost use Rattle.std.specs.Prelude.{◌≡◌, IfOk, slice_get, option_and_then};
ghost use Rattle.std.specs.Option.{option_copied};
ghost use Rattle.ikl_base.specs.Address.{bits_of};
ghost use Rattle.ip_packet.specs.View.{seen};
ghost use Rattle.ikeless_tree.specs.declared.entry.Direction.TheVariants.{Out};
ghost use Rattle.spd_match.specs.Match.{local_port, remote_port};
ghost use Rattle.hist_gateway.specs.Datagram.{fault_why, flow_of as flow_of_packet, one_port, whole};

use ikeless_tree::{DropWhy, Entries, Ports, Range, Selector, SpdEntry};
use ikl_base::{Addr, NoMemory, Prefix};
use ip_packet::{NotPacket, View};
use std::alloc::Global;

// Why octets that are no packet are dropped.
pub(crate) fn why_of(fault: NotPacket) -> DropWhy
    ensures { result ≡ fault_why fault }
{
    match fault {
        NotPacket::Fragment => DropWhy::Fragment,
        NotPacket::Short | NotPacket::Version | NotPacket::Length | NotPacket::HeaderSum => {
            DropWhy::Malformed
        }
    }
}

// The entry at the place that decides for a packet.
pub(crate) fn decider(list: &Entries, place: Option<usize>) -> Option<&SpdEntry>
    ensures { option_copied result ≡ option_and_then (slice_get list.now) place }
{
    match place {
        None => None,
        Some(i) => list.get(i),
    }
}

fn bits(a: &Addr) -> u8
    ensures { result ≡ bits_of a.now }
{
    match a {
        Addr::V4(_) => 32,
        Addr::V6(_) => 128,
    }
}

// The prefix of all bits of an address.
fn all_of(a: Addr) -> Prefix
    ensures { result ≡ whole a }
{
    Prefix::of(a, bits(&a))
}

fn ports_of(alloc: Global, port: Option<u16>) -> Result<Ports, NoMemory>
    ensures { IfOk result (λ ports. ports ≡ one_port port) }
{
    let mut ports = Ports::new(alloc);
    match port {
        None => Ok(ports),
        Some(port) => {
            ports.push(Range {
                start: port,
                end: port,
            })?;
            Ok(ports)
        }
    }
}

fn ends(ports: Option<(u16, u16)>) -> (Option<u16>, Option<u16>)
    ensures local { result.0 ≡ local_port Out ports }
    ensures remote { result.1 ≡ remote_port Out ports }
{
    match ports {
        None => (None, None),
        Some((source, destination)) => (Some(source), Some(destination)),
    }
}

// The selector that holds packets of this flow alone.
pub(crate) fn flow_of(alloc: Global, v: &View) -> Result<Selector, NoMemory>
    ensures { IfOk result (λ s. s ≡ flow_of_packet (seen v.now)) }
{
    let (local, remote) = ends(v.ports);
    Ok(Selector {
        local: all_of(v.src),
        remote: all_of(v.dst),
        proto: Some(v.proto),
        local_ports: ports_of(alloc, local)?,
        remote_ports: ports_of(alloc, remote)?,
    })
}
