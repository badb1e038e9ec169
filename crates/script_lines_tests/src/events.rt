// Lines of scripts after the first.
use crate::said::{row, why};
use ikl_base::NoMemory;
use script_lines::{read_event, read_header};
use std::alloc::Global;
use std::process::Abort;
use std::test::Fail;

/// The gateways of every line below.
pub const HEADER: &str = "world seq-last 4294967295 a=192.0.2.1 b=198.51.100.1 b2=192.0.2.2";

const EVENTS: &str = "\
let a 00\n\
let b2 -\n\
let a 0aFf\n\
policy a\n\
policy b2 p1,out,1,bypass,10.1.0.0/16,10.2.3.4/8,any,any,any\n\
policy b2 p1,in,18446744073709551615,protect,2001:DB8::/32,::/0,255,0-65535,1-2+3-4\n\
policy z p1,out,0,discard,10.1.0.0/16,10.2.0.0/16,0,any,any p2,out,0,discard,10.1.0.0/16,10.2.0.0/16,0,any,any\n\
policy abcdefghijklmnopqrstuvwxyz012345\n\
let\ta 00|octet\n\
boot a\t|octet\n\
lets a \u{7f}|octet\n\
let c 0\u{e9}|octet\n\
|word\n\
\x20|word\n\
\x20let a 00|word\n\
Let a 00|word\n\
lets a|word\n\
@ 1|word\n\
clear a 00|word\n\
opened a 1|word\n\
Boot a|word\n\
let|count\n\
let |count\n\
let c|count\n\
let a 00 |count\n\
let a  00|count\n\
policy|count\n\
let c 00|gateway\n\
let A 0|gateway\n\
let  00|gateway\n\
policy |gateway\n\
policy A 1|gateway\n\
policy abcdefghijklmnopqrstuvwxyz0123456|gateway\n\
let a |hex\n\
let a 0|hex\n\
let a 0g|hex\n\
let a --|hex\n\
let a 0x00|hex\n\
policy a |entry\n\
policy a p1|entry\n\
policy a ,,,,,,,,|entry\n\
policy a p1,out,1,bypass,10.1.0.0/16,10.2.0.0/16,any,any,any\n\
policy a p/1._-Z,in,0,discard,10.1.0.0/0,::/128,17,53-53,1-2+3-4+5-6+7-8+9-10+11-12+13-14+15-16\n\
policy a p1,out,1,bypass,10.1.0.0/16,10.2.0.0/16,any,any|entry\n\
policy a p1,out,1,bypass,10.1.0.0/16,10.2.0.0/16,any,any,any,|entry\n\
policy a ,out,1,bypass,10.1.0.0/16,10.2.0.0/16,any,any,any|entry\n\
policy a p%1,out,1,bypass,10.1.0.0/16,10.2.0.0/16,any,any,any|entry\n\
policy a p1,Out,1,bypass,10.1.0.0/16,10.2.0.0/16,any,any,any|entry\n\
policy a p1,out,01,bypass,10.1.0.0/16,10.2.0.0/16,any,any,any|entry\n\
policy a p1,out,18446744073709551616,bypass,10.1.0.0/16,10.2.0.0/16,any,any,any|entry\n\
policy a p1,out,1,drop,10.1.0.0/16,10.2.0.0/16,any,any,any|entry\n\
policy a p1,out,1,bypass,10.1.0.0/33,10.2.0.0/16,any,any,any|entry\n\
policy a p1,out,1,bypass,10.1.0.0/16,10.2.0.0,any,any,any|entry\n\
policy a p1,out,1,bypass,10.1.0.0/16,10.2.0.0/16,256,any,any|entry\n\
policy a p1,out,1,bypass,10.1.0.0/16,10.2.0.0/16,,any,any|entry\n\
policy a p1,out,1,bypass,10.1.0.0/16,10.2.0.0/16,17,53,any|entry\n\
policy a p1,out,1,bypass,10.1.0.0/16,10.2.0.0/16,17,1-2-3,any|entry\n\
policy a p1,out,1,bypass,10.1.0.0/16,10.2.0.0/16,17,any,65536-65536|entry\n\
policy a p1,out,1,bypass,10.1.0.0/16,10.2.0.0/16,17,9-8,any|entry\n\
policy a p1,out,1,bypass,10.1.0.0/16,10.2.0.0/16,17,any,1-2+|entry\n\
policy a p1,out,1,bypass,10.1.0.0/16,10.2.0.0/16,17,any,any+1-2|entry\n\
policy a p1,out,1,bypass,10.1.0.0/16,10.2.0.0/16,17,1-1+2-2+3-3+4-4+5-5+6-6+7-7+8-8+9-9,any|entry\n\
policy a p1,out,1,bypass,10.1.0.0/16,10.2.0.0/16,any,any,any p1,out,1,bypass,10.1.0.0/16,10.2.0.0/16,any,any,any|entry\n\
policy a p1,out,1,bypass,10.1.0.0/16,10.2.0.0/16,any,any,any |entry\n\
arrive|count\n\
arrive a|count\n\
arrive c #0 ttl|count\n\
arrive a #1 flip 1 2 3|count\n\
now|count\n\
now 1 |count\n\
boot|count\n\
boot a |count\n\
open a a|count\n\
cut|count\n\
down c c|count\n\
up|count\n\
note|count\n\
wire a|count\n\
wire c down up|count\n\
tunnel 10 now a b2 10.1.0.0/16 10.2.0.0/16 64 0/0/0/0|count\n\
tunnel 10 now a b2 10.1.0.0/16 10.2.0.0/16 64 0/0/0/0 0/0/0/0 |count\n\
end|count\n\
rekey 1 2|count\n\
keys|count\n\
keys 00 00|count\n\
arrive c #0|gateway\n\
arrive C #0 tt 1|gateway\n\
arrive  0 flip 1 9|gateway\n\
boot c|gateway\n\
open A|gateway\n\
cut |gateway\n\
down c|gateway\n\
up c|gateway\n\
note c|gateway\n\
wire c side|gateway\n\
tunnel 10 now A b 10.1.0.0/33 10.2.0.0/16 64 0/0/0/0 0/0/0/0|gateway\n\
tunnel 10 now a  10.1.0.0/33 10.2.0.0/16 64 0/0/0/0 0/0/0/0|gateway\n\
arrive a #0|number\n\
arrive a #|number\n\
arrive a #01|number\n\
arrive a #18446744073709551616|number\n\
arrive a #0 tt 1|number\n\
arrive a #-1 flap 1 9|number\n\
arrive a #1 ttl 256|number\n\
arrive a #1 ttl |number\n\
arrive a #1 flip x 8|number\n\
arrive a #1 flip 18446744073709551616 0|number\n\
arrive a #1 flip 0 8|number\n\
arrive a #1 flip 0 |number\n\
now |number\n\
now 4294967296|number\n\
now 01|number\n\
tunnel x here A b 10.1.0.0/16 10.2.0.0/16 64 0/0/0/0 0/0/0/0|number\n\
tunnel 10 now a b 10.1.0.0/16 10.2.0.0/16 31 0/0/0 0/0/0/0|number\n\
tunnel 10 now a b 10.1.0.0/16 10.2.0.0/16 4097 0/0/0/0 0/0/0/0|number\n\
end |number\n\
end 18446744073709551616|number\n\
rekey -|number\n\
arrive a 1 ttl 1|word\n\
arrive a  ttl 1|word\n\
arrive a 00 flip 1 9|word\n\
arrive a #1 flip 1|word\n\
arrive a #1 TTL 256|word\n\
arrive a #1 ttl 1 2|word\n\
arrive a #1  x 9|word\n\
tunnel 10 here A b 10.1.0.0/16 10.2.0.0/16 64 0/0/0/0 0/0/0/0|mode\n\
tunnel 10  a b 10.1.0.0/16 10.2.0.0/16 64 0/0/0/0 0/0/0/0|mode\n\
wire a side|mode\n\
wire a |mode\n\
tunnel 10 now a b 10.1.0.0/33 10.2.0.0 0 0/0/0/0 0/0/0/0|prefix\n\
tunnel 10 now a b 10.1.0.0/16 10.2.0.0 0 0/0/0/0 0/0/0/0|prefix\n\
tunnel 10 now a b 10.1.0.0/16 10.2.0.0/16 64 0/0/0 0/0/0/0|limits\n\
tunnel 10 now a b 10.1.0.0/16 10.2.0.0/16 64 0/0/0/0 0/0/0/0/0|limits\n\
tunnel 10 now a b 10.1.0.0/16 10.2.0.0/16 64 4294967296/0/0/0 0/0/0/0|limits\n\
tunnel 10 now a b 10.1.0.0/16 10.2.0.0/16 64 0/0/0/0 0/0/01/0|limits\n\
arrive a |hex\n\
arrive a 0|hex\n\
arrive a 1#|hex\n\
keys |hex\n\
keys 0|hex\n\
arrive a -\n\
arrive b2 0aFf\n\
arrive a #18446744073709551615\n\
arrive a #1 ttl 255\n\
arrive a #1 flip 18446744073709551615 7\n\
now 4294967295\n\
boot b2\n\
wire a note\n\
tunnel 18446744073709551615 acquire z z ::/0 10.2.3.4/8 32 4294967295/18446744073709551615/4294967295/4294967295 1/2/3/4\n\
end 0\n\
rekey 10\n\
keys -\n\
arrive b #1\n\
arrive b #1 ttl 61\n\
arrive b #2\n\
arrive b #3\n\
boot b\n\
cut a\n\
cut b\n\
down a\n\
down b\n\
keys 000102030405060708090a0b0c0d0e0fa0a1a2a3\n\
keys 101112131415161718191a1b1c1d1e1fb0b1b2b3\n\
keys 202122232425262728292a2b2c2d2e2fc0c1c2c3\n\
keys 303132333435363738393a3b3c3d3e3fd0d1d2d3\n\
let a 60000000000c114020010db800010000000000000000000520010db800020000000000000000000912340035000ccd2361626364\n\
note b\n\
now 3600\n\
open a\n\
open b\n\
policy a o1,out,10,protect,2001:db8:1::/48,2001:db8:2::/48,any,any,any\n\
policy b o1,out,10,protect,2001:db8:2::/48,2001:db8:1::/48,any,any,any\n\
tunnel 10 now a b 2001:db8:1::/48 2001:db8:2::/48 64 0/0/0/0 3600/0/0/0\n\
up a\n\
up b\n\
wire a down\n\
wire a up\n\
";

fn said(alloc: Global, line: &[u8]) -> &'static str {
    match read_header(alloc, HEADER.as_bytes()) {
        Ok(header) => match read_event(alloc, &header, line) {
            Ok(_) => "ok",
            Err(refused) => why(refused),
        },
        Err(refused) => why(refused),
    }
}

#[test]
fn events_are_read_or_refused_for_a_reason(rt: HostRuntime) {
    for line in EVENTS.lines() {
        let (text, want) = row(line);
        assert!(rt; said(rt.alloc(), text.as_bytes()) == want, "{text}");
    }
}

/// A list of so many entries.
pub fn of_entries(alloc: Global, count: u64) -> Result<String, NoMemory> {
    let mut line = String::from_str(alloc, "policy a")?;
    for k in 0..count {
        let entry = format!(in alloc; " p{k},out,{k},bypass,10.1.0.0/16,10.2.0.0/16,any,any,any")?;
        line.push_str(entry.as_str())?;
    }
    Ok(line)
}

#[test]
fn events_have_at_most_256_entries(rt: HostRuntime) -> Result<(), Fail> {
    for (count, want) in [(256, "ok"), (257, "count")] {
        let line = of_entries(rt.alloc(), count)?;
        assert!(rt; said(rt.alloc(), line.as_bytes()) == want);
    }
    Ok(())
}

// The octets that may stand at each place of `let a 0f`, and what is said of a space and of other ones there.
const PLACES: [(&str, &str, &str); 8] = [
    ("l", "word", "word"),
    ("e", "word", "word"),
    ("t", "word", "word"),
    ("", "ok", "word"),
    ("ab", "count", "gateway"),
    ("", "ok", "count"),
    ("0123456789abcdefABCDEF", "count", "hex"),
    ("0123456789abcdefABCDEF", "count", "hex"),
];

fn said_with(good: &str, space: &'static str, other: &'static str, octet: u8) -> &'static str {
    if octet < 32 || octet > 126 {
        "octet"
    } else if octet == b' ' {
        space
    } else if good.as_bytes().contains(&octet) {
        "ok"
    } else {
        other
    }
}

#[test]
fn every_octet_at_every_place(rt: HostRuntime) {
    for place in 0..8usize {
        let (good, space, other) = PLACES[place];
        for octet in 0..=255u8 {
            let mut line = *b"let a 0f";
            line[place] = octet;
            let got = said(rt.alloc(), line.as_slice());
            assert!(rt;
                got == said_with(good, space, other, octet),
                "{octet} at {place}"
            );
        }
    }
}
