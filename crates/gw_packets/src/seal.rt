// Datagrams that are sealed.
ghost use Rattle.std.specs.Prelude.{◌≡◌, ◌+◌, ◌++◌, ◌<◌, ◌≤◌, ◌^◌, IfOk, IsTrue, None, length};
ghost use Rattle.ikl_base.specs.Address.{is_one_family};
ghost use Rattle.ikeless_tree.specs.Check.{sad_fault};
ghost use Rattle.ip_packet.specs.Field.{next_header};
ghost use Rattle.ip_packet.specs.Outer.{header_size, outer_header};
ghost use Rattle.ip_packet.specs.View.{seen};
ghost use Rattle.esp_frame.specs.Esp.{esp, esp_len, keying};
ghost use Rattle.esp_frame.specs.Key.{keying_of};
ghost use Rattle.hist_gateway.specs.Datagram.{datagram, has_outer_df, outer_of};

use esp_frame::{SealKey, esp_len, seal, seal_law};
use ikeless_tree::{Df, SadEntry};
use ikl_base::{NoMemory, Octets};
use ip_packet::{Outer, View, header_len, write_outer};
use std::alloc::Global;

// The version of a packet as the next header of ESP.
fn next_of(packet: &[u8]) -> u8
    ensures { result ≡ next_header packet.now }
{
    match packet {
        [] => 41,
        [first, ..] => { if *first / 16 == 4 { 4 } else { 41 } }
    }
}

fn has_df(df: Df, v: &View) -> bool
    ensures { result ≡ has_outer_df df (seen v.now) }
{
    match df {
        Df::Clear => false,
        Df::Set => true,
        Df::Copy => v.df,
    }
}

// The sealing key of an entry.
pub(crate) fn key_of(e: &SadEntry) -> SealKey
    requires { sad_fault e.now ≡ None }
    ensures { keying_of result ≡ keying e.now.spi e.now.key }
{
    SealKey::of(e.spi, e.key.as_slice())
}

// What the header before sealed octets says.
fn outer(e: &SadEntry, number: u64, v: &View, size: usize) -> Outer
    ensures { result ≡ outer_of e.now number (seen v.now) size }
{
    Outer {
        src: e.local,
        dst: e.remote,
        df: has_df(e.df, v),
        id: (number % 65536) as u16,
        payload: size,
    }
}

// Writes the whole datagram.
fn write_sealed(out: &mut [u8], o: &Outer, key: &SealKey, number: u64, packet: &[u8])
    requires family { IsTrue (is_one_family o.now.src o.now.dst) }
    requires some { 1 ≤ number }
    requires low { number < 2 ^ 32 }
    requires packet { length packet.now ≤ 65000 }
    requires payload { o.now.payload ≡ esp_len (length packet.now) }
    requires room { length out.old ≡ header_size o.now.src + esp_len (length packet.now) }
    ensures { out.new ≡ outer_header o.now ++ esp (keying_of key.now) number (next_header packet.now) packet.now }
{
    let front = write_outer(out, o);
    let (_, rest) = out.split_at_mut(front);
    seal(key, number, next_of(packet), packet, rest);
}

// The datagram of a packet that is sent with this number.
pub(crate) fn sealed(
    alloc: Global,
    e: &SadEntry,
    number: u64,
    v: &View,
    packet: &[u8],
) -> Result<Octets, NoMemory>
    requires sound { sad_fault e.now ≡ None }
    requires some { 1 ≤ number }
    requires low { number < 2 ^ 32 }
    requires packet { length packet.now ≤ 65000 }
    ensures { IfOk result (λ d. d ≡ datagram e.now number (seen v.now) packet.now) }
{
    seal_law();
    let size = esp_len(packet.len());
    let mut octets = vec![in alloc; 0; header_len(&e.local) + size]?;
    let o = outer(e, number, v, size);
    write_sealed(&mut octets, &o, &key_of(e), number, packet);
    Ok(Octets::from_items(octets))
}
