// Lines that are refused, and where a script ends.
use crate::player::play;
use crate::rows::ROWS;
use crate::transcripts::check;
use std::test::Fail;

const HEADER: &str = "world seq-last 4294967295 a=192.0.2.1";

const REFUSED: [(&str, &str); 15] = [
    ("let a\n", "count"),
    ("let a 0\n", "hex"),
    ("let z 00\n", "gateway"),
    ("let a \n", "hex"),
    ("\n", "word"),
    ("boot", "end"),
    ("boot a a\n", "count"),
    ("reboot a\n", "word"),
    ("policy\n", "count"),
    ("policy A\n", "gateway"),
    ("policy a p1\n", "entry"),
    ("let a 00\u{7f}\n", "octet"),
    ("wire a side\n", "mode"),
    ("now 4294967296\n", "number"),
    (
        "policy a p1,out,1,bypass,10.1.0.0/16,10.2.0.0/16,17,9-8,any\n",
        "entry",
    ),
];

const NO_HEADERS: [(&[u8], &str); 3] = [
    (b"", "end"),
    (b"\xff\0\n", "octet"),
    (b"world seq-last 0 a=192.0.2.1\n", "header"),
];

#[test]
fn refused_lines_say_where_and_why(rt: HostRuntime) -> Result<(), Fail> {
    let alloc = rt.alloc();
    for (line, reason) in REFUSED {
        let script = format!(in alloc; "{HEADER}\n{line}")?;
        check(&rt, alloc, script.as_bytes(), b"", (3, 2, reason))?;
    }
    Ok(())
}

#[test]
fn a_script_begins_with_a_header(rt: HostRuntime) -> Result<(), Fail> {
    let alloc = rt.alloc();
    for (script, reason) in NO_HEADERS {
        check(&rt, alloc, script, b"", (3, 1, reason))?;
    }
    let alone = format!(in alloc; "{HEADER}\n")?;
    check(&rt, alloc, alone.as_bytes(), b"", (0, 0, ""))?;
    Ok(())
}

#[test]
fn a_line_is_refused_while_tunnels_live(rt: HostRuntime) -> Result<(), Fail> {
    let alloc = rt.alloc();
    for (line, reason) in REFUSED {
        let played = play(alloc, &ROWS[5])?;
        let mut script = played.script;
        for octet in line.as_bytes() {
            script.push(*octet)?;
        }
        let end = (3, 27, reason);
        check(
            &rt,
            alloc,
            script.as_slice(),
            played.transcript.as_slice(),
            end,
        )?;
    }
    Ok(())
}
