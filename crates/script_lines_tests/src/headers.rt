// First lines of scripts.
use crate::said::{row, why};
use script_lines::read_header;
use std::alloc::Global;
use std::process::Abort;

const HEADERS: &str = "\
world seq-last 1 a=192.0.2.1\n\
world seq-last 4294967295 a=192.0.2.1 b2=192.0.2.2\n\
world seq-last 70 a=2001:db8::1 b=2001:DB8::2\n\
world seq-last 70 abcdefghijklmnopqrstuvwxyz012345=192.0.2.1\n\
world seq-last 70 g0=10.0.0.0 g1=10.0.0.1 g2=10.0.0.2 g3=10.0.0.3 g4=10.0.0.4 g5=10.0.0.5 g6=10.0.0.6 g7=10.0.0.7 g8=10.0.0.8 g9=10.0.0.9 g10=10.0.0.10 g11=10.0.0.11 g12=10.0.0.12 g13=10.0.0.13 g14=10.0.0.14 g15=10.0.0.15\n\
world seq-last 70 g0=10.0.0.0 g1=10.0.0.1 g2=10.0.0.2 g3=10.0.0.3 g4=10.0.0.4 g5=10.0.0.5 g6=10.0.0.6 g7=10.0.0.7 g8=10.0.0.8 g9=10.0.0.9 g10=10.0.0.10 g11=10.0.0.11 g12=10.0.0.12 g13=10.0.0.13 g14=10.0.0.14 g15=10.0.0.15 g16=10.0.0.16|header\n\
world seq-last 0 a=192.0.2.1|header\n\
world seq-last 4294967296 a=192.0.2.1|header\n\
world seq-last 01 a=192.0.2.1|header\n\
world seq-last a=192.0.2.1|header\n\
world seq-last 1|header\n\
world seq-last 1 |header\n\
world seq-last 1 a=192.0.2.1 |header\n\
world  seq-last 1 a=192.0.2.1|header\n\
World seq-last 1 a=192.0.2.1|header\n\
world seq 1 a=192.0.2.1|header\n\
|header\n\
let a 00|header\n\
world seq-last 1 a=192.0.2.1 a=192.0.2.2|header\n\
world seq-last 1 a=192.0.2.1 b=192.0.2.1|header\n\
world seq-last 1 a=2001:db8::1 b=2001:db8:0:0::1|header\n\
world seq-last 1 a=192.0.2.1 b=2001:db8::1|header\n\
world seq-last 1 A=192.0.2.1|header\n\
world seq-last 1 =192.0.2.1|header\n\
world seq-last 1 abcdefghijklmnopqrstuvwxyz0123456=192.0.2.1|header\n\
world seq-last 1 a=b=192.0.2.1|header\n\
world seq-last 1 a|header\n\
world seq-last 1 a=192.0.2.256|header\n\
world seq-last 1 a=192.0.2.1/32|header\n\
world\tseq-last 1 a=192.0.2.1|octet\n\
w\u{7f}|octet\n\
";

fn said(alloc: Global, line: &str) -> &'static str {
    match read_header(alloc, line.as_bytes()) {
        Ok(_) => "ok",
        Err(refused) => why(refused),
    }
}

#[test]
fn headers_are_read_or_refused_for_a_reason(rt: HostRuntime) {
    for line in HEADERS.lines() {
        let (text, want) = row(line);
        assert!(rt; said(rt.alloc(), text) == want, "{text}");
    }
}
