// What comes to a gateway, and what its devices hold then.
use crate::play::{Case, goes};
use crate::texts::{
    ACQUIRE, BAD_HEAD, BYPASS, CHUNKED, DONE, NO_HALVES, NOT_JSON, PACKET, PROTECT, READING,
    TOO_BIG,
};
use std::test::Fail;

// Sessions, and what is replied in each. What is no request ends its session, so the reading behind it isn't answered.
const SESSIONS: [(&str, &[(&str, usize)], &[&str]); 10] = [
    ("reading", &[(READING, 1)], &[NO_HALVES]),
    (
        "version",
        &[("GET / HTTP/1.0\r\n\r\n", 1), (READING, 1)],
        &[BAD_HEAD],
    ),
    ("zero", &[("\0\r\n\r\n", 1), (READING, 1)], &[BAD_HEAD]),
    (
        "chunked",
        &[
            ("GET / HTTP/1.1\r\nTransfer-Encoding: chunked\r\n\r\n", 1),
            (READING, 1),
        ],
        &[CHUNKED],
    ),
    (
        "body too long",
        &[
            ("GET / HTTP/1.1\r\nContent-Length: 1048577\r\n\r\n", 1),
            (READING, 1),
        ],
        &[TOO_BIG],
    ),
    (
        "length twice",
        &[
            ("GET / HTTP/1.1\r\n", 1),
            ("Content-Length: 1\r\n", 2),
            ("\r\n", 1),
            (READING, 1),
        ],
        &[BAD_HEAD],
    ),
    (
        "length no number",
        &[
            ("GET / HTTP/1.1\r\nContent-Length: 1x\r\n\r\n", 1),
            (READING, 1),
        ],
        &[BAD_HEAD],
    ),
    (
        "head too long",
        &[("GET / HTTP/1.1\r\nA: ", 1), ("a", 8173), (READING, 1)],
        &[TOO_BIG],
    ),
    (
        "65 fields",
        &[
            ("GET / HTTP/1.1\r\n", 1),
            ("A: a\r\n", 65),
            ("\r\n", 1),
            (READING, 1),
        ],
        &[BAD_HEAD],
    ),
    (
        "body no JSON",
        &[
            (
                "PUT /restconf/data/ietf-i2nsf-ikeless:ipsec-ikeless/spd HTTP/1.1\r\nContent-Length: 1\r\n\r\n{",
                1,
            ),
            (READING, 1),
        ],
        &[NOT_JSON, NO_HALVES],
    ),
];

// Policies, and what becomes of a packet that comes after them: what goes outside, and the notice.
const POLICIES: [(&str, &[(&str, usize)], &[u8], &str); 2] = [
    ("bypass", &[(BYPASS, 1)], &PACKET, ""),
    ("protect", &[(PROTECT, 1)], b"", ACQUIRE),
];

#[test]
fn sessions_are_replied_to(rt: HostRuntime) -> Result<(), Fail> {
    for (name, session, replies) in SESSIONS {
        let case = Case {
            session,
            packet: None,
            replies,
            outside: b"",
            notices: "",
        };
        assert_eq!(rt; (name, goes(rt.alloc(), &case)?), (name, true));
    }
    Ok(())
}

#[test]
fn packets_leave_in_clear_or_are_told_of(rt: HostRuntime) -> Result<(), Fail> {
    for (name, session, outside, notices) in POLICIES {
        let case = Case {
            session,
            packet: Some(&PACKET),
            replies: &[DONE],
            outside,
            notices,
        };
        assert_eq!(rt; (name, goes(rt.alloc(), &case)?), (name, true));
    }
    Ok(())
}
