// Lines of transcripts, read and written again, and acts made here.
use crate::events::{HEADER, of_entries};
use crate::said::{row, why};
use ikeless_tree::{Action, Direction, DropWhy, Entries, Ports, Range, Selector, SpdEntry};
use ikl_base::{Addr, ListOf, Name, NoMemory, Prefix};
use script_lines::{Act, Acts, Header, put_acts, read_act, read_header, write_act};
use std::alloc::Global;
use std::process::Abort;
use std::test::Fail;

const ACTS: &str = "\
@ 1\n\
@ 0\n\
@ 18446744073709551615\n\
policy a\n\
policy b2 p1,out,1,bypass,10.1.0.0/16,10.0.0.0/8,any,any,any\n\
policy b2 p1,in,18446744073709551615,protect,2001:db8::/32,::/0,255,0-65535,1-2+3-4 p2,out,0,discard,10.1.0.0/16,10.2.0.0/16,0,any,7-7\n\
let a 00\n\
let b2 0aff\n\
let a -\n\
clear a 0aff\n\
clear b2 -\n\
drop a malformed\n\
drop a fragment\n\
drop a too-long\n\
drop a no-policy\n\
drop a discard\n\
drop a clear-refused\n\
drop a no-sa\n\
drop a seq-limit\n\
drop a short\n\
drop a bad-spi\n\
drop a zero\n\
drop a old\n\
drop a seen\n\
drop a auth\n\
drop a padding\n\
drop a dummy\n\
drop a inner\n\
drop b2 selector\n\
@ 1\n\
@ 10\n\
answered a 1 1 200 - -\n\
answered a 1 2 204 - -\n\
answered a 1 3 201 - -\n\
answered a 1 4 201 - -\n\
arrived b -\n\
boot a\n\
boot b\n\
clear a 4500002000004000401126bd0a0100050a02000912340035000c000061626364\n\
cut a 1\n\
cut b 1\n\
drop a discard\n\
drop a no-policy\n\
drop a no-sa\n\
drop a seq-limit\n\
drop b auth\n\
drop b bad-spi\n\
drop b malformed\n\
drop b seen\n\
drop b zero\n\
gave b in/1 1 60000000000c114020010db800010000000000000000000520010db800020000000000000000000912340035000ccd2361626364\n\
gave b in/1 2 60000000000c114020010db800010000000000000000000520010db800020000000000000000000912340035000ccd2361626364\n\
gone a out/1 removed\n\
gone b in/1 removed\n\
handled a 1 1 200 - -\n\
handled a 1 2 204 - -\n\
handled a 1 3 201 - -\n\
handled a 1 3 204 - -\n\
handled a 1 4 201 - -\n\
handled a 1 5 201 - -\n\
handled a 1 6 204 - -\n\
handled a 2 1 200 - in/2\n\
heard b 1 expire in/1 soft 3600/88/1/3600\n\
heard b 1 expire out/2 soft 3600/0/0/3600\n\
heard b 2 bad-spi 257\n\
let a 4500002000004000401126bd0a0100050a02000912340035000c000061626364\n\
let a 60000000000c114020010db800010000000000000000000520010db800020000000000000000000912340035000ccd2361626364\n\
notice a 1 acquire o1 10.1.0.5/32,10.2.0.9/32,17,4660-4660,53-53\n\
notice a 1 expire in/2 soft 3600/0/0/3600\n\
notice a 1 expire out/1 soft 3600/88/1/3600\n\
notice a 1 overflow out/1\n\
notice b 0 bad-spi 257\n\
notice b 1 bad-spi 1\n\
notice b 1 expire in/1 soft 3600/88/1/3600\n\
notice b 1 expire out/2 soft 3600/0/0/3600\n\
now 3600\n\
opened a 1\n\
opened a 2\n\
opened b 1\n\
opened b 2\n\
order a 1 1 read\n\
order a 1 2 policy d1,out,0,discard,10.1.0.0/16,0.0.0.0/0,any,any,any p1,out,1,bypass,10.1.0.0/16,10.2.0.0/16,any,any,any\n\
order a 1 2 policy o1,out,10,protect,10.1.0.0/16,10.2.0.0/16,any,any,any\n\
order a 1 2 policy o1,out,10,protect,2001:db8:1::/48,2001:db8:2::/48,any,any,any\n\
order a 1 2 policy p1,out,1,bypass,10.1.0.0/16,10.2.0.0/16,any,any,any\n\
order a 1 3 policy p1,out,1,bypass,10.1.0.0/16,10.2.0.0/16,any,any,any d1,out,0,discard,10.1.0.0/16,0.0.0.0/0,any,any,any\n\
order a 1 3 put in/2,10,258,64,2001:db8:1::/48,2001:db8:2::/48,any,any,any,101112131415161718191a1b1c1d1e1fb0b1b2b3,192.0.2.1,198.51.100.1,copy,0/0/0/0,3600/0/0/0\n\
order a 1 4 put out/1,10,257,64,2001:db8:1::/48,2001:db8:2::/48,any,any,any,000102030405060708090a0b0c0d0e0fa0a1a2a3,192.0.2.1,198.51.100.1,copy,0/0/0/0,3600/0/0/0\n\
order a 1 5 put in/4,10,260,64,2001:db8:1::/48,2001:db8:2::/48,any,any,any,303132333435363738393a3b3c3d3e3fd0d1d2d3,192.0.2.1,198.51.100.1,copy,0/0/0/0,3600/0/0/0\n\
order a 1 5 put out/3,10,259,64,2001:db8:1::/48,2001:db8:2::/48,any,any,any,202122232425262728292a2b2c2d2e2fc0c1c2c3,192.0.2.1,198.51.100.1,copy,0/0/0/0,3600/0/0/0\n\
order a 1 6 remove out/1\n\
order a 2 1 read\n\
order a 2 2 policy o1,out,10,protect,2001:db8:1::/48,2001:db8:2::/48,any,any,any\n\
order a 2 3 remove out/1\n\
order b 1 1 read\n\
order b 1 2 policy o1,out,10,protect,2001:db8:2::/48,2001:db8:1::/48,any,any,any\n\
order b 1 3 put in/1,10,257,64,2001:db8:2::/48,2001:db8:1::/48,any,any,any,000102030405060708090a0b0c0d0e0fa0a1a2a3,198.51.100.1,192.0.2.1,copy,0/0/0/0,3600/0/0/0\n\
order b 1 4 put out/2,10,258,64,2001:db8:2::/48,2001:db8:1::/48,any,any,any,101112131415161718191a1b1c1d1e1fb0b1b2b3,198.51.100.1,192.0.2.1,copy,0/0/0/0,3600/0/0/0\n\
order b 1 5 put in/3,10,259,64,2001:db8:2::/48,2001:db8:1::/48,any,any,any,202122232425262728292a2b2c2d2e2fc0c1c2c3,198.51.100.1,192.0.2.1,copy,0/0/0/0,3600/0/0/0\n\
order b 1 5 remove in/1\n\
order b 1 6 put in/3,10,259,64,2001:db8:2::/48,2001:db8:1::/48,any,any,any,202122232425262728292a2b2c2d2e2fc0c1c2c3,198.51.100.1,192.0.2.1,copy,0/0/0/0,3600/0/0/0\n\
order b 1 6 remove in/1\n\
policy a d1,out,0,discard,10.1.0.0/16,0.0.0.0/0,any,any,any p1,out,1,bypass,10.1.0.0/16,10.2.0.0/16,any,any,any\n\
policy a o1,out,10,protect,10.1.0.0/16,10.2.0.0/16,any,any,any\n\
policy a o1,out,10,protect,2001:db8:1::/48,2001:db8:2::/48,any,any,any\n\
put a in/2,10,258,64,2001:db8:1::/48,2001:db8:2::/48,any,any,any,101112131415161718191a1b1c1d1e1fb0b1b2b3,192.0.2.1,198.51.100.1,copy,0/0/0/0,3600/0/0/0\n\
put a out/1,10,257,64,2001:db8:1::/48,2001:db8:2::/48,any,any,any,000102030405060708090a0b0c0d0e0fa0a1a2a3,192.0.2.1,198.51.100.1,copy,0/0/0/0,3600/0/0/0\n\
put a out/3,10,259,64,2001:db8:1::/48,2001:db8:2::/48,any,any,any,202122232425262728292a2b2c2d2e2fc0c1c2c3,192.0.2.1,198.51.100.1,copy,0/0/0/0,3600/0/0/0\n\
put b in/1,10,257,64,2001:db8:2::/48,2001:db8:1::/48,any,any,any,000102030405060708090a0b0c0d0e0fa0a1a2a3,198.51.100.1,192.0.2.1,copy,0/0/0/0,3600/0/0/0\n\
put b in/3,10,259,64,2001:db8:2::/48,2001:db8:1::/48,any,any,any,202122232425262728292a2b2c2d2e2fc0c1c2c3,198.51.100.1,192.0.2.1,copy,0/0/0/0,3600/0/0/0\n\
refused key-length\n\
refused key-seen\n\
refused no-tunnel\n\
refused same-gateway\n\
sent a out/1 1 4500006c0001400040324e29c0000201c63364010000010100000001000000000000000126711cf26c886610a76d4bafdb05946611f2198396f580a74df086a81ca45f12ebfbceab253190de223ee48dcf207237d3308eb20042fbee91b6f657775d93d296ab710f6b09dc82\n\
sent a out/1 2 4500006c0002400040324e28c0000201c633640100000101000000020000000000000002c126667db14aba872da1b68e9d038c094583512d3b97ba62437e4014e8a4b23c7cdcc4c7a09923cda632f45e7e33f23e905287b0fe9742fd8718b4f74245e0fae7e81c759f996238\n\
wire a down 474554202f72657374636f6e662f646174612f696574662d69326e73662d696b656c6573733a69707365632d696b656c6573732f73616420485454502f312e310d0a486f73743a203139322e302e322e310d0a0d0a\n\
wire a up -\n\
wire a up 485454502f312e3120323030204f4b0d0a436f6e74656e742d4c656e6774683a2034330d0a436f6e74656e742d547970653a206170706c69636174696f6e2f79616e672d646174612b6a736f6e0d0a0d0a7b22696574662d69326e73662d696b656c6573733a736164223a7b227361642d656e747279223a5b5d7d7d\n\
pass a 00\n\
pass b -\n\
gone a in/1 hard\n\
notice a 1 overflow in/A._-9\n\
wire a note -\n\
refused unknown-gateway\n\
refused tunnel-exists\n\
refused tunnel-limit\n\
refused key-limit\n\
notice a 4294967295 expire out/1 hard 4294967295/18446744073709551615/4294967295/0\n\
handled b 1 18446744073709551615 400 malformed-message -\n\
answered b 1 2 405 operation-not-supported -\n\
answered b 1 2 413 too-big -\n\
answered b 1 2 400 unknown-element -\n\
answered b 1 2 400 bad-element -\n\
answered b 1 2 409 resource-denied in/1,out/1,in/2\n\
put a in/9,18446744073709551615,4294967295,4096,::/0,2001:db8::/32,17,53-53+1-2,0-65535,000000000000000000000000000000000000000000000000000000000000000000000000,2001:db8::1,2001:db8::2,set,1/2/3/4,5/6/7/8\n\
put a in/9,0,256,32,::/0,2001:db8::/32,255,any,any,0a0a0a0a0a0a0a0a0a0a0a0a0a0a0a0a0a0a0a0a,192.0.2.1,192.0.2.2,clear,0/0/0/0,0/0/0/0\n\
notice b 0 acquire p/1 2001:db8::1/128,2001:db8::2/128,58,any,any\n\
@\t1|octet\n\
drop a no-sa\r|octet\n\
|word\n\
@1|word\n\
sends a 00|word\n\
world seq-last 1 a=192.0.2.1|word\n\
@|count\n\
@ 1 |count\n\
policy|count\n\
let a|count\n\
clear a 00 |count\n\
drop a|count\n\
drop a no-sa |count\n\
@ |number\n\
@ 01|number\n\
@ 18446744073709551616|number\n\
policy c|gateway\n\
let c 00|gateway\n\
clear A 0|gateway\n\
drop c no-policy|gateway\n\
drop a nopolicy|word\n\
drop a |word\n\
let a 0aFf|hex\n\
let a 0|hex\n\
clear a 0A|hex\n\
policy a p1,out,1,bypass,10.1.2.3/16,10.0.0.0/8,any,any,any|entry\n\
policy a p1,out,1,bypass,2001:DB8::/32,::/0,any,any,any|entry\n\
policy a p1,out,1,bypass,::/0,0:0::/0,any,any,any|entry\n\
policy a p1,out,1,bypass,::/0,::/0,any,9-8,any|entry\n\
policy a |entry\n\
now|count\n\
boot a a|count\n\
sent a in/1 1|count\n\
gave a in/1 1 00 00|count\n\
gone a in/1|count\n\
opened a|count\n\
cut a 1 1|count\n\
wire a down|count\n\
refused|count\n\
put a|count\n\
order a 1 1|count\n\
order a 1 1 read 1|count\n\
order a 1 1 put|count\n\
order a 1 1 remove in/1 in/2|count\n\
handled a 1 1 200 -|count\n\
answered a 1 1 200 - - -|count\n\
notice a 1|count\n\
notice a 1 acquire p1|count\n\
heard a 1 expire in/1 soft|count\n\
heard a 1 overflow|count\n\
heard a 1 bad-spi|count\n\
now 4294967296|number\n\
sent a in/1 x 00|number\n\
opened a 4294967296|number\n\
cut a |number\n\
order a 4294967296 1 read|number\n\
order a 1 18446744073709551616 read|number\n\
handled a 1 1 65536 - -|number\n\
notice a 1 bad-spi 4294967296|number\n\
boot c|gateway\n\
sent c in/1 1 00|gateway\n\
gone c x y|gateway\n\
put c x|gateway\n\
order c 1 1 x|gateway\n\
handled c x x x x x|gateway\n\
notice c x x|gateway\n\
wire c x x|gateway\n\
gone a in/1 soft|word\n\
refused full|word\n\
order a 1 1 write|word\n\
handled a 1 1 200 full -|word\n\
notice a 1 expires in/1|word\n\
notice a 1 expire in/1 Soft 0/0/0/0|word\n\
wire a side 00|mode\n\
sent a in/1 1 0A|hex\n\
gave a in/1 1 |hex\n\
arrived a 0A|hex\n\
pass a 0|hex\n\
wire a up 0A|hex\n\
notice a 1 expire in/1 hard 0/0/0|limits\n\
notice a 1 expire in/1 hard 0/0/0/00|limits\n\
sent a in/ 1 00|entry\n\
gone a p1 hard|entry\n\
order a 1 1 remove in/a/b|entry\n\
handled a 1 1 200 - in/1,|entry\n\
answered a 1 1 200 - |entry\n\
notice a 1 overflow on/1|entry\n\
notice a 1 acquire p%1 10.0.0.1/32,10.0.0.2/32,17,any,any|entry\n\
notice a 1 acquire p1 10.0.0.1/31,10.0.0.2/32,17,any,any|entry\n\
notice a 1 acquire p1 10.0.0.1/32,10.0.0.2/32,any,any,any|entry\n\
notice a 1 acquire p1 10.0.0.1/32,10.0.0.2/32,17,1-2,any|entry\n\
notice a 1 acquire p1 10.0.0.1/32,::2/128,17,1-1,any|entry\n\
notice a 1 acquire p1 2001:DB8::1/128,::2/128,17,1-1,any|entry\n\
put a p1,10,257,64,10.2.0.0/16,10.1.0.0/16,any,any,any,0000000000000000000000000000000000000000,192.0.2.2,192.0.2.1,copy,0/0/0/0,0/0/0/0|entry\n\
put a in/1,10,255,64,10.2.0.0/16,10.1.0.0/16,any,any,any,0000000000000000000000000000000000000000,192.0.2.2,192.0.2.1,copy,0/0/0/0,0/0/0/0|entry\n\
put a in/1,10,257,64,10.2.0.0/16,10.1.0.0/16,any,any,any,00000000000000000000000000000000000000,192.0.2.2,192.0.2.1,copy,0/0/0/0,0/0/0/0|entry\n\
put a in/1,10,257,64,10.2.0.0/16,10.1.0.0/16,any,any,any,0A0A0A0A0A0A0A0A0A0A0A0A0A0A0A0A0A0A0A0A,192.0.2.2,192.0.2.1,copy,0/0/0/0,0/0/0/0|entry\n\
put a in/1,10,257,31,10.2.0.0/16,10.1.0.0/16,any,any,any,0000000000000000000000000000000000000000,192.0.2.2,192.0.2.1,copy,0/0/0/0,0/0/0/0|entry\n\
put a in/1,10,257,64,10.2.0.0/16,10.1.0.0/16,any,9-8,any,0000000000000000000000000000000000000000,192.0.2.2,192.0.2.1,copy,0/0/0/0,0/0/0/0|entry\n\
put a in/1,10,257,64,10.2.0.0/16,10.1.0.0/16,any,any,any,0000000000000000000000000000000000000000,192.0.2.2,::1,copy,0/0/0/0,0/0/0/0|entry\n\
put a in/1,10,257,64,10.2.0.0/16,10.1.0.0/16,any,any,any,0000000000000000000000000000000000000000,192.0.2.2,192.0.2.1,Copy,0/0/0/0,0/0/0/0|entry\n\
put a in/1,10,257,64,10.2.0.0/16,10.1.0.0/16,any,any,any,0000000000000000000000000000000000000000,192.0.2.2,192.0.2.1,copy,0/0/0,0/0/0/0|entry\n\
put a in/1,10,257,64,10.2.0.0/16,10.1.0.0/16,any,any,any,0000000000000000000000000000000000000000,192.0.2.2,192.0.2.1,copy,0/0/0/0,0/0/0/0,esn|entry\n\
put a in/1,10,257,64,10.2.0.1/16,10.1.0.0/16,any,any,any,0000000000000000000000000000000000000000,192.0.2.2,192.0.2.1,copy,0/0/0/0,0/0/0/0|entry\n\
order b2 1 1 put in/1,01,257,64,10.2.0.0/16,10.1.0.0/16,any,any,any,0000000000000000000000000000000000000000,192.0.2.2,192.0.2.1,copy,0/0/0/0,0/0/0/0|entry\n\
order a 1 1 policy x|entry\n\
";

fn is_written(alloc: Global, header: &Header, act: &Act, line: &[u8]) -> &'static str {
    match write_act(alloc, header, act) {
        Ok(text) => if text.as_slice() == line {
            "ok"
        } else {
            "another text"
        },
        Err(_) => "no memory",
    }
}

fn said_under(alloc: Global, header: &Header, line: &[u8]) -> &'static str {
    match read_act(alloc, header, line) {
        Ok(act) => is_written(alloc, header, &act, line),
        Err(refused) => why(refused),
    }
}

fn said(alloc: Global, line: &[u8]) -> &'static str {
    match read_header(alloc, HEADER.as_bytes()) {
        Ok(header) => said_under(alloc, &header, line),
        Err(refused) => why(refused),
    }
}

#[test]
fn acts_are_written_again(rt: HostRuntime) {
    for line in ACTS.lines() {
        let (text, want) = row(line);
        assert!(rt; said(rt.alloc(), text.as_bytes()) == want, "{text}");
    }
}

#[test]
fn acts_have_at_most_256_entries(rt: HostRuntime) -> Result<(), Fail> {
    for (count, want) in [(256, "ok"), (257, "count")] {
        let line = of_entries(rt.alloc(), count)?;
        assert!(rt; said(rt.alloc(), line.as_bytes()) == want);
    }
    Ok(())
}

fn ports(alloc: Global) -> Result<Ports, NoMemory> {
    let mut ports = ListOf::new(alloc);
    ports.push(Range { start: 53, end: 53 })?;
    ports.push(Range {
        start: 0,
        end: 65535,
    })?;
    Ok(ports)
}

fn selector(alloc: Global, local_ports: Ports) -> Selector {
    Selector {
        local: Prefix::of(Addr::V4([10, 1, 0, 0]), 16),
        remote: Prefix::of(Addr::V6([0; 16]), 0),
        proto: Some(17),
        local_ports,
        remote_ports: ListOf::new(alloc),
    }
}

fn entry(name: Name, selector: Selector) -> SpdEntry {
    SpdEntry {
        name,
        direction: Direction::In,
        reqid: 10,
        window: 64,
        selector,
        action: Action::Protect,
    }
}

fn entries(alloc: Global) -> Result<Entries, NoMemory> {
    let name = Name::from_slice(alloc, b"p1")?;
    let ports = ports(alloc)?;
    let mut entries = ListOf::new(alloc);
    entries.push(entry(name, selector(alloc, ports)))?;
    Ok(entries)
}

fn acts(alloc: Global) -> Result<Acts, NoMemory> {
    let entries = entries(alloc)?;
    let mut acts = ListOf::new(alloc);
    acts.push(Act::Took(7))?;
    acts.push(Act::Drop(Name::from_slice(alloc, b"b2")?, DropWhy::TooLong))?;
    acts.push(Act::Policy(Name::from_slice(alloc, b"a")?, entries))?;
    Ok(acts)
}

const MADE: &str = "\
x\n\
@ 7\n\
drop b2 too-long\n\
policy a p1,in,10,protect,10.1.0.0/16,::/0,17,53-53+0-65535,any\n\
";

#[test]
fn acts_are_put_behind_what_is_there(rt: HostRuntime) -> Result<(), Fail> {
    let mut out = Vec::from_slice(rt.alloc(), b"x\n")?;
    put_acts(&mut out, &acts(rt.alloc())?)?;
    assert!(rt; out.as_slice() == MADE.as_bytes());
    Ok(())
}
