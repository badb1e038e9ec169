// Scripts with their transcripts, worked by another program. A line that begins with `> ` is the script's, and the lines after it are its
// block; the words of `SHORT` stand for longer ones.

/// A script: its header, then parts one after another, and how its run ends: the exit number, a line and a reason, or none.
pub struct Row {
    pub header: &'static str,
    pub parts: &'static [&'static str],
    pub end: (u8, u64, &'static str),
}

const ONE: &str = "world seq-last 4294967295 a=192.0.2.1";

const TWO: &str = "world seq-last 4294967295 a=192.0.2.1 b=198.51.100.1";

const THREE_NUMBERS_EACH: &str = "world seq-last 3 a=192.0.2.1 b=198.51.100.1";

/// Words that stand for longer ones.
pub const SHORT: [(&str, &str); 22] = [
    (
        "PACKET",
        "4500002000004000401126bd0a0100050a02000912340035000c000061626364",
    ),
    (
        "PACKET6",
        "60000000000c114020010db800010000000000000000000520010db800020000000000000000000912340035000ccd2361626364",
    ),
    (
        "BYPASS",
        "p1,out,1,bypass,10.1.0.0/16,10.2.0.0/16,any,any,any",
    ),
    (
        "DISCARD",
        "d1,out,0,discard,10.1.0.0/16,0.0.0.0/0,any,any,any",
    ),
    (
        "PROTECT",
        "o1,out,10,protect,10.1.0.0/16,10.2.0.0/16,any,any,any",
    ),
    (
        "LIST_A",
        "o1,out,10,protect,2001:db8:1::/48,2001:db8:2::/48,any,any,any",
    ),
    (
        "LIST_B",
        "o1,out,10,protect,2001:db8:2::/48,2001:db8:1::/48,any,any,any",
    ),
    (
        "IN_1",
        "in/1,10,257,64,2001:db8:2::/48,2001:db8:1::/48,any,any,any,000102030405060708090a0b0c0d0e0fa0a1a2a3,198.51.100.1,192.0.2.1,copy,0/0/0/0,3600/0/0/0",
    ),
    (
        "OUT_1",
        "out/1,10,257,64,2001:db8:1::/48,2001:db8:2::/48,any,any,any,000102030405060708090a0b0c0d0e0fa0a1a2a3,192.0.2.1,198.51.100.1,copy,0/0/0/0,3600/0/0/0",
    ),
    (
        "IN_2",
        "in/2,10,258,64,2001:db8:1::/48,2001:db8:2::/48,any,any,any,101112131415161718191a1b1c1d1e1fb0b1b2b3,192.0.2.1,198.51.100.1,copy,0/0/0/0,3600/0/0/0",
    ),
    (
        "OUT_2",
        "out/2,10,258,64,2001:db8:2::/48,2001:db8:1::/48,any,any,any,101112131415161718191a1b1c1d1e1fb0b1b2b3,198.51.100.1,192.0.2.1,copy,0/0/0/0,3600/0/0/0",
    ),
    (
        "IN_3",
        "in/3,10,259,64,2001:db8:2::/48,2001:db8:1::/48,any,any,any,202122232425262728292a2b2c2d2e2fc0c1c2c3,198.51.100.1,192.0.2.1,copy,0/0/0/0,3600/0/0/0",
    ),
    (
        "OUT_3",
        "out/3,10,259,64,2001:db8:1::/48,2001:db8:2::/48,any,any,any,202122232425262728292a2b2c2d2e2fc0c1c2c3,192.0.2.1,198.51.100.1,copy,0/0/0/0,3600/0/0/0",
    ),
    (
        "IN_4",
        "in/4,10,260,64,2001:db8:1::/48,2001:db8:2::/48,any,any,any,303132333435363738393a3b3c3d3e3fd0d1d2d3,192.0.2.1,198.51.100.1,copy,0/0/0/0,3600/0/0/0",
    ),
    ("KEY_1", "000102030405060708090a0b0c0d0e0fa0a1a2a3"),
    ("KEY_2", "101112131415161718191a1b1c1d1e1fb0b1b2b3"),
    ("KEY_3", "202122232425262728292a2b2c2d2e2fc0c1c2c3"),
    ("KEY_4", "303132333435363738393a3b3c3d3e3fd0d1d2d3"),
    (
        "SENT_1",
        "4500006c0001400040324e29c0000201c63364010000010100000001000000000000000126711cf26c886610a76d4bafdb05946611f2198396f580a74df086a81ca45f12ebfbceab253190de223ee48dcf207237d3308eb20042fbee91b6f657775d93d296ab710f6b09dc82",
    ),
    (
        "SENT_2",
        "4500006c0002400040324e28c0000201c633640100000101000000020000000000000002c126667db14aba872da1b68e9d038c094583512d3b97ba62437e4014e8a4b23c7cdcc4c7a09923cda632f45e7e33f23e905287b0fe9742fd8718b4f74245e0fae7e81c759f996238",
    ),
    (
        "SENT_3",
        "4500006c0001400040324e29c0000201c633640100000103000000010000000000000001897e700da4c4660781e0a3e017d662c242017096a5916531b59caf2c83f644711148447642b532d826e7b3b55feda59b388fe2a230f8bdca2425802ba8ceb670fb46e6230cb805c2",
    ),
    (
        "SENT_1_HOPPED",
        "4500006c000140003d325129c0000201c63364010000010100000001000000000000000126711cf26c886610a76d4bafdb05946611f2198396f580a74df086a81ca45f12ebfbceab253190de223ee48dcf207237d3308eb20042fbee91b6f657775d93d296ab710f6b09dc82",
    ),
];

// Two gateways, their policies, two keys, a tunnel, and both sessions read.
const SESSIONS: &str = "> policy a LIST_A
@ 1
> policy b LIST_B
@ 2
> keys KEY_1
@ 3
> keys KEY_2
@ 4
> tunnel 10 now a b 2001:db8:1::/48 2001:db8:2::/48 64 0/0/0/0 3600/0/0/0
@ 5
> open a
@ 6
opened a 1
order a 1 1 read
order a 1 2 policy LIST_A
> open b
@ 7
opened b 1
order b 1 1 read
order b 1 2 policy LIST_B
> down a
@ 8
handled a 1 1 200 - -
> down a
@ 9
policy a LIST_A
handled a 1 2 204 - -
> up a
@ 10
answered a 1 1 200 - -
> up a
@ 11
answered a 1 2 204 - -
> down b
@ 12
handled b 1 1 200 - -
> down b
@ 13
policy b LIST_B
handled b 1 2 204 - -
> up b
@ 14
answered b 1 1 200 - -
order b 1 3 put IN_1
order a 1 3 put IN_2
> up b
@ 15
answered b 1 2 204 - -";

// The inbound halves of both directions are installed, and the outbound ones ordered.
const ORDERED: &str = "> down b
@ 16
put b IN_1
handled b 1 3 201 - -
> down a
@ 17
put a IN_2
handled a 1 3 201 - -
> up b
@ 18
answered b 1 3 201 - -
order a 1 4 put OUT_1
> up a
@ 19
answered a 1 3 201 - -
order b 1 4 put OUT_2";

// The first outbound half is installed.
const PUT: &str = "> down a
@ 20
put a OUT_1
handled a 1 4 201 - -";

// So is the second, and both answers are heard.
const KEYED: &str = "> down b
@ 21
put b OUT_2
handled b 1 4 201 - -
> up a
@ 22
answered a 1 4 201 - -
> up b
@ 23
answered b 1 4 201 - -";

// A packet is sealed.
const SENT: &str = "> let a PACKET6
@ 24
let a PACKET6
sent a out/1 1 SENT_1";

// It is given at the other gateway.
const GIVEN: &str = "> arrive b #1
@ 25
arrived b SENT_1
gave b in/1 1 PACKET6";

// A list put in force lets a packet leave in clear.
const ONE_LIST: &str = "> policy a BYPASS
@ 1
> open a
@ 2
opened a 1
order a 1 1 read
order a 1 2 policy BYPASS
> down a
@ 3
handled a 1 1 200 - -
> down a
@ 4
policy a BYPASS
handled a 1 2 204 - -
> let a PACKET
@ 5
let a PACKET
clear a PACKET";

// The first entry that holds a packet decides.
const FIRST_MATCH: &str = "> policy a DISCARD BYPASS
@ 1
> open a
@ 2
opened a 1
order a 1 1 read
order a 1 2 policy DISCARD BYPASS
> down a
@ 3
handled a 1 1 200 - -
> down a
@ 4
policy a DISCARD BYPASS
handled a 1 2 204 - -
> let a PACKET
@ 5
let a PACKET
drop a discard
> policy a BYPASS DISCARD
@ 6
order a 1 3 policy BYPASS DISCARD
> down a
@ 7
policy a BYPASS DISCARD
handled a 1 3 204 - -
> let a PACKET
@ 8
let a PACKET
clear a PACKET";

// Without a list nothing leaves.
const NO_LIST: &str = "> let a PACKET
@ 1
let a PACKET
drop a no-policy";

// A restart loses the list.
const LIST_LOST: &str = "> policy a BYPASS
@ 1
> open a
@ 2
opened a 1
order a 1 1 read
order a 1 2 policy BYPASS
> down a
@ 3
handled a 1 1 200 - -
> down a
@ 4
policy a BYPASS
handled a 1 2 204 - -
> let a PACKET
@ 5
let a PACKET
clear a PACKET
> boot a
@ 6
boot a
> let a PACKET
@ 7
let a PACKET
drop a no-policy";

// A packet without a half is told once while that stands.
const ACQUIRED: &str = "> policy a PROTECT
@ 1
> open a
@ 2
opened a 1
order a 1 1 read
order a 1 2 policy PROTECT
> down a
@ 3
handled a 1 1 200 - -
> down a
@ 4
policy a PROTECT
handled a 1 2 204 - -
> let a PACKET
@ 5
let a PACKET
drop a no-sa
notice a 1 acquire o1 10.1.0.5/32,10.2.0.9/32,17,4660-4660,53-53
> let a PACKET
@ 6
let a PACKET
drop a no-sa";

// A datagram changed on the way is dropped, and each number is taken once.
const CHANGED_ON_THE_WAY: &str = "> arrive b #1 flip 107 0
@ 25
arrived b 4500006c0001400040324e29c0000201c63364010000010100000001000000000000000126711cf26c886610a76d4bafdb05946611f2198396f580a74df086a81ca45f12ebfbceab253190de223ee48dcf207237d3308eb20042fbee91b6f657775d93d296ab710f6b09dc83
drop b auth
> arrive b #1
@ 26
arrived b SENT_1
gave b in/1 1 PACKET6
> arrive b #1
@ 27
arrived b SENT_1
drop b seen";

// A datagram that took hops is given.
const HOPPED: &str = "> arrive b #1 ttl 61
@ 25
arrived b SENT_1_HOPPED
gave b in/1 1 PACKET6";

// A damaged outer header is none, and there is no second datagram.
const MALFORMED: &str = "> arrive b #1 flip 8 0
@ 25
arrived b 4500006c0001400041324e29c0000201c63364010000010100000001000000000000000126711cf26c886610a76d4bafdb05946611f2198396f580a74df086a81ca45f12ebfbceab253190de223ee48dcf207237d3308eb20042fbee91b6f657775d93d296ab710f6b09dc82
drop b malformed
> arrive b #2
@ 26
arrived b -
drop b malformed";

// The tunnel is rekeyed without loss.
const REKEYED: &str = "> keys KEY_3
@ 26
> now 3600
@ 27
now 3600
notice a 1 expire in/2 soft 3600/0/0/3600
notice a 1 expire out/1 soft 3600/88/1/3600
notice b 1 expire in/1 soft 3600/88/1/3600
notice b 1 expire out/2 soft 3600/0/0/3600
> note b
@ 28
heard b 1 expire in/1 soft 3600/88/1/3600
order b 1 5 put IN_3
> down b
@ 29
put b IN_3
handled b 1 5 201 - -
> up b
@ 30
answered b 1 5 201 - -
order a 1 5 put OUT_3
> let a PACKET6
@ 31
let a PACKET6
sent a out/1 2 SENT_2
> down a
@ 32
put a OUT_3
handled a 1 5 201 - -
> let a PACKET6
@ 33
let a PACKET6
sent a out/3 1 SENT_3
> up a
@ 34
answered a 1 5 201 - -
order a 1 6 remove out/1
> arrive b #3
@ 35
arrived b SENT_3
gave b in/3 1 PACKET6
> arrive b #2
@ 36
arrived b SENT_2
gave b in/1 2 PACKET6
> down a
@ 37
gone a out/1 removed
handled a 1 6 204 - -
> up a
@ 38
answered a 1 6 204 - -
order b 1 6 remove in/1
> down b
@ 39
gone b in/1 removed
handled b 1 6 204 - -
> up b
@ 40
answered b 1 6 204 - -";

// The session ends before the answer to an outbound half is heard: the pair is given up.
const CUT_BEFORE_THE_ANSWER: &str = "> keys KEY_3
@ 21
> cut a
@ 22
cut a 1
> open a
@ 23
opened a 2
order a 2 1 read
order a 2 2 policy LIST_A
> down a
@ 24
handled a 2 1 200 - in/2,out/1
> up a
@ 25
answered a 2 1 200 - in/2,out/1
order a 2 3 remove out/1
> down a
@ 26
policy a LIST_A
handled a 2 2 204 - -
> down a
@ 27
gone a out/1 removed
handled a 2 3 204 - -
> up a
@ 28
answered a 2 2 204 - -
> up a
@ 29
answered a 2 3 204 - -
order b 1 5 remove in/1
> down b
@ 30
put b OUT_2
handled b 1 4 201 - -
> down b
@ 31
gone b in/1 removed
handled b 1 5 204 - -
> up b
@ 32
answered b 1 4 201 - -
> up b
@ 33
answered b 1 5 204 - -
order b 1 6 put IN_3";

// The order is handled after the session ended.
const HANDLED_AFTER_THE_CUT: &str = "> keys KEY_3
@ 20
> cut a
@ 21
cut a 1
> down a
@ 22
put a OUT_1
handled a 1 4 201 - -
> open a
@ 23
opened a 2
order a 2 1 read
order a 2 2 policy LIST_A
> down a
@ 24
handled a 2 1 200 - in/2,out/1
> up a
@ 25
answered a 2 1 200 - in/2,out/1
order a 2 3 remove out/1
> down a
@ 26
policy a LIST_A
handled a 2 2 204 - -
> down a
@ 27
gone a out/1 removed
handled a 2 3 204 - -
> up a
@ 28
answered a 2 2 204 - -
> up a
@ 29
answered a 2 3 204 - -
order b 1 5 remove in/1";

// The order is lost with the session.
const LOST_IN_THE_CUT: &str = "> keys KEY_3
@ 20
> cut a
@ 21
cut a 1
> open a
@ 22
opened a 2
order a 2 1 read
order a 2 2 policy LIST_A
> down a
@ 23
handled a 2 1 200 - in/2
> up a
@ 24
answered a 2 1 200 - in/2
order a 2 3 remove out/1
> down a
@ 25
policy a LIST_A
handled a 2 2 204 - -
> down a
@ 26
handled a 2 3 404 invalid-value -";

// A gateway restarts and is keyed anew.
const RESTARTED: &str = "> boot b
@ 26
boot b
> arrive b #1
@ 27
arrived b SENT_1
drop b bad-spi
notice b 0 bad-spi 257
> keys KEY_3
@ 28
> cut b
@ 29
cut b 1
> open b
@ 30
opened b 2
order b 2 1 read
order b 2 2 policy LIST_B
> arrive b #1
@ 31
arrived b SENT_1
drop b bad-spi
notice b 2 bad-spi 257
> down b
@ 32
handled b 2 1 200 - -
> up b
@ 33
answered b 2 1 200 - -
order b 2 3 put IN_3
> note b
@ 34
heard b 2 bad-spi 257
order b 2 4 read";

// A half ends at its last number.
const THREE_NUMBERS: &str = "> let a PACKET6
@ 25
let a PACKET6
sent a out/1 2 SENT_2
> let a PACKET6
@ 26
let a PACKET6
sent a out/1 3 4500006c0003400040324e27c0000201c633640100000101000000030000000000000003c691d2d4a0a4efeeae0bdf2be45d18be25b03f70b64ac6433c32527a8cd9c425cdf6f6a3d09fc89b59de67f5a36d977385650e91d639b2b236bda52b8d96fa33383e38cbb5100b0b
> let a PACKET6
@ 27
let a PACKET6
drop a seq-limit
notice a 1 overflow out/1
> let a PACKET6
@ 28
let a PACKET6
drop a seq-limit";

// Commands are refused.
const REFUSED: &str = "> keys KEY_1
@ 1
> keys KEY_1
@ 2
refused key-seen
> keys 00000000000000000000000000000000000000000000000000000000
@ 3
refused key-length
> rekey 9
@ 4
refused no-tunnel
> tunnel 10 now a a 10.1.0.0/16 10.2.0.0/16 64 0/0/0/0 0/0/0/0
@ 5
refused same-gateway";

// An arrival that was never sent ends the run.
const FORGED: &str = "> arrive b SENT_1
@ 24
arrived b SENT_1";

// The octets of a request and of its response are under way.
const UNDER_WAY: &str = "> open a
@ 1
opened a 1
order a 1 1 read
> wire a down
@ 2
wire a down 474554202f72657374636f6e662f646174612f696574662d69326e73662d696b656c6573733a69707365632d696b656c6573732f73616420485454502f312e310d0a486f73743a203139322e302e322e310d0a0d0a
> down a
@ 3
handled a 1 1 200 - -
> wire a up
@ 4
wire a up 485454502f312e3120323030204f4b0d0a436f6e74656e742d4c656e6774683a2034330d0a436f6e74656e742d547970653a206170706c69636174696f6e2f79616e672d646174612b6a736f6e0d0a0d0a7b22696574662d69326e73662d696b656c6573733a736164223a7b227361642d656e747279223a5b5d7d7d
> up a
@ 5
answered a 1 1 200 - -
> wire a up
@ 6
wire a up -";

// A direction that is owed waits for a key.
const FOURTH_KEY: &str = "> keys KEY_3
@ 26
> now 3600
@ 27
now 3600
notice a 1 expire in/2 soft 3600/0/0/3600
notice a 1 expire out/1 soft 3600/88/1/3600
notice b 1 expire in/1 soft 3600/88/1/3600
notice b 1 expire out/2 soft 3600/0/0/3600
> note b
@ 28
heard b 1 expire in/1 soft 3600/88/1/3600
order b 1 5 put IN_3
> note b
@ 29
heard b 1 expire out/2 soft 3600/0/0/3600
> keys KEY_4
@ 30
order a 1 5 put IN_4";

// A reading shows that an inbound half was lost, whose outbound half was never ordered.
const NEVER_ORDERED: &str = "> cut b
@ 16
cut b 1
> open b
@ 17
opened b 2
order b 2 1 read
order b 2 2 policy LIST_B
> down b
@ 18
handled b 2 1 200 - -
> up b
@ 19
answered b 2 1 200 - -
order b 2 3 remove in/1
> down b
@ 20
policy b LIST_B
handled b 2 2 204 - -
> down b
@ 21
handled b 2 3 404 invalid-value -";

/// The rows.
pub const ROWS: [Row; 20] = [
    Row {
        header: ONE,
        parts: &[ONE_LIST],
        end: (0, 0, ""),
    },
    Row {
        header: ONE,
        parts: &[FIRST_MATCH],
        end: (0, 0, ""),
    },
    Row {
        header: ONE,
        parts: &[NO_LIST],
        end: (0, 0, ""),
    },
    Row {
        header: ONE,
        parts: &[LIST_LOST],
        end: (0, 0, ""),
    },
    Row {
        header: ONE,
        parts: &[ACQUIRED],
        end: (0, 0, ""),
    },
    Row {
        header: TWO,
        parts: &[SESSIONS, ORDERED, PUT, KEYED, SENT, GIVEN],
        end: (0, 0, ""),
    },
    Row {
        header: TWO,
        parts: &[SESSIONS, ORDERED, PUT, KEYED, SENT, CHANGED_ON_THE_WAY],
        end: (0, 0, ""),
    },
    Row {
        header: TWO,
        parts: &[SESSIONS, ORDERED, PUT, KEYED, SENT, HOPPED],
        end: (0, 0, ""),
    },
    Row {
        header: TWO,
        parts: &[SESSIONS, ORDERED, PUT, KEYED, SENT, MALFORMED],
        end: (0, 0, ""),
    },
    Row {
        header: TWO,
        parts: &[SESSIONS, ORDERED, PUT, KEYED, SENT, GIVEN, REKEYED],
        end: (0, 0, ""),
    },
    Row {
        header: TWO,
        parts: &[SESSIONS, ORDERED, PUT, CUT_BEFORE_THE_ANSWER],
        end: (0, 0, ""),
    },
    Row {
        header: TWO,
        parts: &[SESSIONS, ORDERED, HANDLED_AFTER_THE_CUT],
        end: (0, 0, ""),
    },
    Row {
        header: TWO,
        parts: &[SESSIONS, ORDERED, LOST_IN_THE_CUT],
        end: (0, 0, ""),
    },
    Row {
        header: TWO,
        parts: &[SESSIONS, ORDERED, PUT, KEYED, SENT, GIVEN, RESTARTED],
        end: (0, 0, ""),
    },
    Row {
        header: THREE_NUMBERS_EACH,
        parts: &[SESSIONS, ORDERED, PUT, KEYED, SENT, THREE_NUMBERS],
        end: (0, 0, ""),
    },
    Row {
        header: ONE,
        parts: &[REFUSED],
        end: (0, 0, ""),
    },
    Row {
        header: TWO,
        parts: &[SESSIONS, ORDERED, PUT, KEYED, FORGED],
        end: (7, 25, ""),
    },
    Row {
        header: ONE,
        parts: &[UNDER_WAY],
        end: (0, 0, ""),
    },
    Row {
        header: TWO,
        parts: &[SESSIONS, ORDERED, PUT, KEYED, SENT, GIVEN, FOURTH_KEY],
        end: (0, 0, ""),
    },
    Row {
        header: TWO,
        parts: &[SESSIONS, NEVER_ORDERED],
        end: (0, 0, ""),
    },
];
