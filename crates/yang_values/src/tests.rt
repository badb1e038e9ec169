// Texts of values and their faults, in tables.
use super::*;
use ikl_base::{NoMemory, Octets, OrMemory};
use std::alloc::Global;
use std::process::Abort;
use std::test::Fail;

fn fault_text(e: BadValue) -> &'static str {
    match e {
        BadValue::Form => "Form",
        BadValue::Range => "Range",
    }
}

// What a text is read as, written again, or the fault.
fn address_again(alloc: Global, t: &str) -> Result<Octets, NoMemory> {
    match read_address(t.as_bytes()) {
        Ok(a) => write_address(alloc, &a),
        Err(e) => Octets::from_slice(alloc, fault_text(e).as_bytes()),
    }
}

fn prefix_again(alloc: Global, t: &str) -> Result<Octets, NoMemory> {
    match read_prefix(t.as_bytes()) {
        Ok(p) => write_prefix(alloc, &p),
        Err(e) => Octets::from_slice(alloc, fault_text(e).as_bytes()),
    }
}

fn u64_again(alloc: Global, t: &str) -> Result<Octets, NoMemory> {
    match read_u64(t.as_bytes()) {
        Ok(n) => write_u64(alloc, n),
        Err(e) => Octets::from_slice(alloc, fault_text(e).as_bytes()),
    }
}

fn hex_again(alloc: Global, t: &str) -> Result<Octets, NoMemory> {
    match read_hex(alloc, t.as_bytes()) {
        Ok(octets) => write_hex(alloc, octets.as_slice()),
        Err(OrMemory::Refused(e)) => Octets::from_slice(alloc, fault_text(e).as_bytes()),
        Err(OrMemory::NoMemory) => Err(NoMemory),
    }
}

fn digits_again(alloc: Global, t: &str) -> Result<Octets, NoMemory> {
    match read_digits(alloc, t.as_bytes()) {
        Ok(octets) => {
            let mut out = Vec::new(alloc);
            out.push(b'=')?;
            put_digits(&mut out, octets.as_slice())?;
            Ok(Octets::from_items(out))
        }
        Err(OrMemory::Refused(e)) => Octets::from_slice(alloc, fault_text(e).as_bytes()),
        Err(OrMemory::NoMemory) => Err(NoMemory),
    }
}

// What is read, and what it is to be written as.
fn row(line: &str) -> (&str, &str) {
    line.split_once('|').unwrap_or((line, "no row"))
}

fn is_text(rt: &impl Abort, got: Result<Octets, NoMemory>, text: &str, want: &str) {
    match got {
        Ok(got) => assert!(rt; got.as_slice() == want.as_bytes(), "{text}"),
        Err(NoMemory) => assert!(rt; false, "no memory"),
    }
}

const NUMBERS: &str = "\
10|10\n\
0|0\n\
7|7\n\
18446744073709551615|18446744073709551615\n\
18446744073709551616|Range\n\
18446744073709551620|Range\n\
99999999999999999999999999999999999999999999|Range\n\
010|Form\n\
00|Form\n\
|Form\n\
-1|Form\n\
+1|Form\n\
1 |Form\n\
1x|Form\n\
99999999999999999999999x|Form\n\
018446744073709551616|Form\n\
";

const HEX: &str = "\
|\n\
0A:ff|0a:ff\n\
00|00\n\
aB:Cd:09|ab:cd:09\n\
a|Form\n\
abc|Form\n\
abcd|Form\n\
ab:|Form\n\
:ab|Form\n\
ab::cd|Form\n\
ab:c|Form\n\
ag|Form\n\
:|Form\n\
ab-cd|Form\n\
";

const DIGITS: &str = "\
00|=00\n\
0aFf|=0aff\n\
000102030405060708090A0B|=000102030405060708090a0b\n\
|Form\n\
0|Form\n\
012|Form\n\
0g|Form\n\
0a:ff|Form\n\
-|Form\n\
";

const PREFIXES: &str = "\
10.1.2.3/16|10.1.0.0/16\n\
10.1.2.3/32|10.1.2.3/32\n\
10.1.2.3/0|0.0.0.0/0\n\
10.1.255.3/23|10.1.254.0/23\n\
2001:DB8:0:0::/48|2001:db8::/48\n\
2001:db8:ffff::1/33|2001:db8:8000::/33\n\
::1/128|::1/128\n\
ffff::/7|fe00::/7\n\
::/0|::/0\n\
10.1.2.3/33|Range\n\
10.1.2.3/99999999999999999999|Range\n\
2001:db8::/129|Range\n\
256.0.0.0/8|Range\n\
256.0.0.0/33|Range\n\
256.0.0.0/x|Form\n\
256.0.0.0/08|Form\n\
256.0.0.0/|Form\n\
1.2.3/33|Form\n\
10.1.2.3|Form\n\
10.1.2.3/|Form\n\
/8|Form\n\
|Form\n\
10.1.2.3/8/8|Form\n\
10.1.2.3/08|Form\n\
10.1.2.3/+8|Form\n\
10.1.2.3 /8|Form\n\
2001:db8::/129x|Form\n\
g::/129|Form\n\
10.1.2.3/255.0.0.0|Form\n\
::ffff:1.2.3.4/96|Form\n\
";

const ADDRESSES: &str = "\
1.2.3.4|1.2.3.4\n\
0.0.0.0|0.0.0.0\n\
255.255.255.255|255.255.255.255\n\
256.0.0.1|Range\n\
1.2.3.99999999999999999999999999|Range\n\
1.2.3|Form\n\
1.2.3.4.5|Form\n\
1.2.3.|Form\n\
01.2.3.4|Form\n\
1.2.3.04|Form\n\
+1.2.3.4|Form\n\
1..3.4|Form\n\
|Form\n\
.|Form\n\
1.2.3.4 |Form\n\
256.0.0.x|Form\n\
0x1.2.3.4|Form\n\
::|::\n\
::1|::1\n\
1::|1::\n\
1::8|1::8\n\
2001:db8:0:0:1:0:0:1|2001:db8::1:0:0:1\n\
2001:db8:0:1:1:1:1:1|2001:db8:0:1:1:1:1:1\n\
2001:DB8::ABCD|2001:db8::abcd\n\
1:2:3:4:5:6:7:8|1:2:3:4:5:6:7:8\n\
1:2:3:4:5:6:7::|1:2:3:4:5:6:7:0\n\
::2:3:4:5:6:7:8|0:2:3:4:5:6:7:8\n\
1:2:3:4::5:6:7:8|Form\n\
1:2:3:4:5:6:7|Form\n\
1:2:3:4:5:6:7:8:9|Form\n\
1::2::3|Form\n\
:::|Form\n\
:1:2:3:4:5:6:7|Form\n\
1:2:3:4:5:6:7:|Form\n\
:|Form\n\
1:::2|Form\n\
00000::|Form\n\
12345::1|Form\n\
g::1|Form\n\
::ffff:1.2.3.4|Form\n\
fe80::1%eth0|Form\n\
0:0:0:0:0:0:0:0|::\n\
0:0:1:0:0:0:1:0|0:0:1::1:0\n\
0:0:0:1:0:0:0:1|::1:0:0:0:1\n\
1:0:0:2:0:0:3:4|1::2:0:0:3:4\n\
1:0:2:0:3:0:4:0|1:0:2:0:3:0:4:0\n\
1:2:3:4:5:6:7:8::|Form\n\
::1:2:3:4:5:6:7:8|Form\n\
1:2::3:4:5:6:7:8:9|Form\n\
::1 |Form\n\
::-1|Form\n\
::0:2c01:0:1:7|::2c01:0:1:7\n\
0:4:9:3:0::DAED|0:4:9:3::daed\n\
0:9:FD7F:0:0:4DD0:2::0|Form\n\
552d:8e40:0000:0000:0000::0000:0000|552d:8e40::\n\
E:C8E5:C9CA:0:227B:0:0:0|e:c8e5:c9ca:0:227b::\n\
6:0:b1dd:3ee5:ee96:0:0:5::|Form\n\
0000:0000:0000:0000:63ea::|::63ea:0:0:0\n\
0:0:0:F:0:2B68:0::|::f:0:2b68:0:0\n\
0:0:4:0:0::0|0:0:4::\n\
0:e:4::583d:0:3|0:e:4::583d:0:3\n\
3:0:a:6618:7:84e9::0:0|Form\n\
::d:cec0:0|::d:cec0:0\n\
::0:0:0:0:d831:0|::d831:0\n\
0000:0000:0000:8766:000a:0008:0001:0000|::8766:a:8:1:0\n\
0000:0000:0000::0000:e4e4:000c|::e4e4:c\n\
65b2:0:0:0:c::50a8|65b2::c:0:0:50a8\n\
0000:0000:0000::c364:0000:0000:2df4:0000|Form\n\
0:0:1:4:0:0:B8AE::|::1:4:0:0:b8ae:0\n\
0:2F13::0:0:EBB1:0:0:0|Form\n\
f6ff:0000:0009:9232:0003:0000::0000:0002|Form\n\
0002:0004:0000:0000:7677:0000::0000|2:4:0:0:7677::\n\
0:A62B:0::271D:0:0|0:a62b::271d:0:0\n\
0:0:0:1954:46F2:0::|::1954:46f2:0:0:0\n\
7a32:0000:0000::fe80:aa69:0000:0000:0000|Form\n\
d358:0000:ad28:0000:0000:7f35:0000::0000|Form\n\
c:0:0:4ddb:0:7:0:0|c::4ddb:0:7:0:0\n\
99C7::0:0:B27|99c7::b27\n\
0:0::0:0:0:634b:0|::634b:0\n\
::1ECA:0:0:5|::1eca:0:0:5\n\
0000:0000:0000:2959:3f56::000b|::2959:3f56:0:0:b\n\
f2f6:0:c04a:0:2:0:0:0|f2f6:0:c04a:0:2::\n\
0:f34b:8089:0:0:0::b:2874|Form\n\
000f:a6c9:0000:0000::000e:0000|f:a6c9::e:0\n\
::0000:0000:0000:0000|::\n\
0000:0000:be95:0000:0000::0000:0000|0:0:be95::\n\
0000:000f:f78e:000c:0000:cba8::910c:0009|Form\n\
ba41:0000::0000:0000|ba41::\n\
0000:0000:0000:0000:0002:0007::0000|::2:7:0:0\n\
0:1:0:e:0:7f9e:e::0|Form\n\
0:0:0:0:0:0:1:0|::1:0\n\
632d:0::0|632d::\n\
8e6f:0:18de:8:0:b:0:0|8e6f:0:18de:8:0:b::\n\
0:0:0:d:0:7:0:0::|Form\n\
9:0:0::0:4A15:0:E|9::4a15:0:e\n\
0:0:0:0:64FF:D:0:99BC|::64ff:d:0:99bc\n\
c014:0000:0000::0000:000d:0000:0000|c014::d:0:0\n\
A75B:A838:F:344:0::0:0|a75b:a838:f:344::\n\
0::0:0:0:2cc8|::2cc8\n\
0::0:0:1|::1\n\
0:0::0:B:A740|::b:a740\n\
8:0:7:0:0:0:0:0|8:0:7::\n\
0:0:0:0:69b3:115f::7:0|Form\n\
000d:0007:0000:0000:8505::0000:8007:0000|Form\n\
0:8:0:3:E9DF:B:AF8A:6B90|0:8:0:3:e9df:b:af8a:6b90\n\
0:8c78:0:0:0:c:7015::0|Form\n\
0:0:4:0:0:3:0:0::|Form\n\
0:6:0:3CA1:77E5:FC74:EF26:0|0:6:0:3ca1:77e5:fc74:ef26:0\n\
";

#[test]
fn numbers_are_read_and_written_again(rt: HostRuntime) {
    for line in NUMBERS.lines() {
        let (text, want) = row(line);
        is_text(&rt, u64_again(rt.alloc(), text), text, want);
    }
}

#[test]
fn a_number_above_its_limit_is_refused(rt: HostRuntime) {
    assert!(rt; read_number(b"255", 255) == Ok(255));
    assert!(rt; read_number(b"256", 255) == Err(BadValue::Range));
    assert!(rt; read_number(b"0256", 255) == Err(BadValue::Form));
    assert!(rt; read_number(b"0", 0) == Ok(0));
}

#[test]
fn a_port_has_at_most_16_bits(rt: HostRuntime) {
    assert!(rt; read_port(0) == Ok(0));
    assert!(rt; read_port(65535) == Ok(65535));
    assert!(rt; read_port(65536) == Err(BadValue::Range));
}

#[test]
fn hex_strings_are_read_and_written_again(rt: HostRuntime) {
    for line in HEX.lines() {
        let (text, want) = row(line);
        is_text(&rt, hex_again(rt.alloc(), text), text, want);
    }
}

#[test]
fn digits_are_read_and_written_again(rt: HostRuntime) {
    for line in DIGITS.lines() {
        let (text, want) = row(line);
        is_text(&rt, digits_again(rt.alloc(), text), text, want);
    }
}

// What they are read and written as was computed by another program.
#[test]
fn addresses_are_read_and_written_again(rt: HostRuntime) {
    for line in ADDRESSES.lines() {
        let (text, want) = row(line);
        is_text(&rt, address_again(rt.alloc(), text), text, want);
    }
}

#[test]
fn prefixes_are_read_and_written_again(rt: HostRuntime) {
    for line in PREFIXES.lines() {
        let (text, want) = row(line);
        is_text(&rt, prefix_again(rt.alloc(), text), text, want);
    }
}

// Each number is put behind what is there.
#[test]
fn a_number_is_put_behind_what_is_there(rt: HostRuntime) -> Result<(), Fail> {
    let mut out = Vec::from_slice(rt.alloc(), b"x=")?;
    let put = put_number(&mut out, 4096);
    assert!(rt; put.is_ok());
    assert!(rt; out.as_slice() == b"x=4096".as_slice());
    Ok(())
}
