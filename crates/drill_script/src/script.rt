// Writes the script of the drill.
ghost use Rattle.std.specs.Prelude.{◌≡◌, ◌+◌, ◌-◌, ◌++◌, ◌∷◌, ◌<◌, ◌≤◌, ◌^◌, [], IfOk, OnOk, codes};
ghost use Rattle.std.specs.Fmt.{decimal};
ghost use Rattle.line_words.specs.Text.{line_text};
ghost use Rattle.drill_script.specs.Drawn.{one_more};
ghost use Rattle.drill_script.specs.Script.{name_of, key_line, keys_text, packet_of, policies_text, tunnels_text, at, line_at, drawn_line, drawn_text, script_of};

use crate::drawing::{Kind, drawn_kind, gateway, has_packet, has_time, next_number, target, upper};
use ikl_base::{NoMemory, Octets};
use line_words::{put, put_number_word, put_octet, put_word};
use std::alloc::Global;
use yang_values::{put_digits, put_number};

const POLICIES: &[u8] = b"\
world seq-last 4294967295 a=192.0.2.1 b=192.0.2.2 c=192.0.2.3\n\
policy a o2,out,12,protect,10.1.0.0/16,10.2.0.0/16,any,any,any o3,out,13,protect,10.1.0.0/16,10.3.0.0/16,any,any,any\n\
policy b o1,out,12,protect,10.2.0.0/16,10.1.0.0/16,any,any,any o3,out,23,protect,10.2.0.0/16,10.3.0.0/16,any,any,any\n\
policy c o1,out,13,protect,10.3.0.0/16,10.1.0.0/16,any,any,any o2,out,23,protect,10.3.0.0/16,10.2.0.0/16,any,any,any\n";

const KEYS: u8 = 64;

const TUNNELS: &[u8] = b"\
tunnel 12 now a b 10.1.0.0/16 10.2.0.0/16 64 0/0/0/0 600/0/0/0\n\
tunnel 13 now a c 10.1.0.0/16 10.3.0.0/16 64 0/0/0/0 600/0/0/0\n\
tunnel 23 now b c 10.2.0.0/16 10.3.0.0/16 64 0/0/0/0 600/0/0/0\n\
open a\nopen b\nopen c\n";

const DRAWN: u64 = 20_000;

// A key by its number.
fn put_key(out: &mut Vec<u8>, k: u8) -> Result<(), NoMemory>
    ensures { OnOk result (out.new.items ≡ out.old.items ++ key_line k) }
{
    put(out, b"keys ")?;
    put_digits(
        out,
        &[0, 0, 0, 0, 0, 0, 0, 0, 0, 0, 0, 0, 0, 0, 0, k, 0, 0, 0, k],
    )
}

fn put_keys(out: &mut Vec<u8>) -> Result<(), NoMemory>
    ensures { OnOk result (out.new.items ≡ out.old.items ++ keys_text 64) }
{
    'keys: for k in 0..KEYS {
        put_key(out, k + 1)?;
        put_octet(out, b'\n')?;
    }
    Ok(())
}

// A packet from the prefix of one gateway to that of another.
fn packet(from: u8, to: u8) -> [u8; 32]
    requires from { from ≤ 3 }
    requires to { to ≤ 3 }
    ensures { result ≡ packet_of from to }
{
    [
        0x45,
        0,
        0,
        32,
        0,
        0,
        0x40,
        0,
        64,
        17,
        0x26,
        0xc0 - (from + to),
        10,
        from,
        0,
        5,
        10,
        to,
        0,
        9,
        0x12,
        0x34,
        0,
        53,
        0,
        12,
        0,
        0,
        b'a',
        b'b',
        b'c',
        b'd',
    ]
}

// What happens, and at which gateway.
fn put_at(out: &mut Vec<u8>, what: &[u8], gateway: u8) -> Result<(), NoMemory>
    requires { gateway ≤ 3 }
    ensures { OnOk result (out.new.items ≡ out.old.items ++ at what.now gateway) }
{
    put(out, what)?;
    put_word(out, &[96 + gateway])
}

fn put_let(out: &mut Vec<u8>, gateway: u8, target: u8) -> Result<(), NoMemory>
    requires gateway { gateway ≤ 3 }
    requires target { target ≤ 3 }
    ensures { OnOk result (out.new.items ≡ out.old.items ++ line_at Kind.Let gateway target 0 0) }
{
    put_at(out, b"let", gateway)?;
    put_octet(out, b' ')?;
    put_digits(out, &packet(gateway, target))
}

fn put_arrive(out: &mut Vec<u8>, gateway: u8, which: u64) -> Result<(), NoMemory>
    requires { gateway ≤ 3 }
    ensures { OnOk result (out.new.items ≡ out.old.items ++ line_at Kind.Arrive gateway 0 which 0) }
{
    put_at(out, b"arrive", gateway)?;
    put(out, b" #")?;
    put_number(out, which)
}

fn put_now(out: &mut Vec<u8>, time: u64) -> Result<(), NoMemory>
    ensures { OnOk result (out.new.items ≡ out.old.items ++ line_text (codes "now" ∷ decimal time ∷ [])) }
{
    put(out, b"now")?;
    put_number_word(out, time)
}

// The line of a kind: a packet for the target, one of the datagrams sent, or a time.
fn put_line(
    out: &mut Vec<u8>,
    kind: Kind,
    between: (u8, u8),
    which: u64,
    time: u64,
) -> Result<(), NoMemory>
    requires gateway { between.0 ≤ 3 }
    requires target { between.1 ≤ 3 }
    ensures { OnOk result (out.new.items ≡ out.old.items ++ line_at kind between.0 between.1 which time) }
{
    match kind {
        Kind::Let => put_let(out, between.0, between.1),
        Kind::Arrive => put_arrive(out, between.0, which),
        Kind::Down => put_at(out, b"down", between.0),
        Kind::Up => put_at(out, b"up", between.0),
        Kind::Note => put_at(out, b"note", between.0),
        Kind::Boot => put_at(out, b"boot", between.0),
        Kind::Now => put_now(out, time),
        Kind::Cut => put_at(out, b"cut", between.0),
        Kind::Open => put_at(out, b"open", between.0),
    }
}

// The line of a drawn number after so many packets and times.
fn put_drawn_line(out: &mut Vec<u8>, x: u64, lets: u64, nows: u64) -> Result<(), NoMemory>
    requires lets { lets < 2 ^ 32 }
    requires nows { nows < 2 ^ 32 }
    ensures { OnOk result (out.new.items ≡ out.old.items ++ drawn_line x lets nows) }
{
    let between = (gateway(x), target(x));
    let which = 1 + upper(x) % (lets + 1);
    put_line(out, drawn_kind(x), between, which, nows + 1)
}

// One more, where it is so.
fn counted(is_so: bool, count: u64) -> u64
    requires { count < 2 ^ 32 }
    ensures { result ≡ one_more is_so count }
{
    if is_so { count + 1 } else { count }
}

fn put_drawn(out: &mut Vec<u8>, n: u64) -> Result<(), NoMemory>
    ensures { OnOk result (out.new.items ≡ out.old.items ++ drawn_text n 20000) }
{
    let mut x = n;
    let mut lets = 0;
    let mut nows = 0;
    'lines: for _line in 0..DRAWN {
        x = next_number(x);
        put_drawn_line(out, x, lets, nows)?;
        put_octet(out, b'\n')?;
        lets = counted(has_packet(drawn_kind(x)), lets);
        nows = counted(has_time(drawn_kind(x)), nows);
    }
    Ok(())
}

/// The script that a number draws: three gateways, keys and tunnels, and 20,000 lines.
pub fn write_drill(alloc: Global, n: u64) -> Result<Octets, NoMemory>
    ensures { IfOk result (λ script. script ≡ script_of n) }
{
    let mut out = Vec::new(alloc);
    put(&mut out, POLICIES)?;
    put_keys(&mut out)?;
    put(&mut out, TUNNELS)?;
    put_drawn(&mut out, n)?;
    Ok(Octets::from_items(out))
}
