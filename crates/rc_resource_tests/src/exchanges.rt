// Requests with their replies, one after another.
ghost use Rattle.rc_resource.specs.Lists.{IsTree};

use http_header::HeaderMap;
use ikeless_tree::{Order, Rows, Tree};
use ikl_base::{Addr, ListOf, NoMemory, Octets, OrMemory};
use rc_http::{HttpFault, HttpMessage};
use rc_resource::{RcError, Reply, apply, error_reply, message_fault, order_request, read_request};
use std::alloc::Global;
use std::process::Abort;
use std::test::Fail;
use yang_values::write_u64;

// A request, and what is shown of its reply and of the databases after it.
#[derive(Drop)]
struct Row {
    method: &'static str,
    target: &'static str,
    body: &'static str,
    shown: &'static str,
}

const OPEN: &str = "{";

const POLICY: &str =
    r#"{"ietf-i2nsf-ikeless:spd-entry":[{"direction":"outbound","ipsec-policy-config":{"processing-info":{"action":"bypass"},"traffic-selector":{"local-prefix":"10.1.0.0/16","remote-prefix":"10.2.0.0/16"}},"name":"p1","reqid":"1"}]}"#;

const FIRST: &str =
    r#"{"ietf-i2nsf-ikeless:spd-entry":[{"direction":"outbound","ipsec-policy-config":{"processing-info":{"action":"bypass"},"traffic-selector":{"local-prefix":"10.1.0.0/16","remote-prefix":"10.2.0.0/16"}},"name":"p0","reqid":"1"}]}"#;

const HALF: &str =
    r#"{"ietf-i2nsf-ikeless:sad-entry":[{"ipsec-sa-config":{"esp-sa":{"encryption":{"key":"00:01:02:03:04:05:06:07:08:09:0a:0b:0c:0d:0e:0f:a0:a1:a2:a3"}},"sa-lifetime-soft":{"action":"replace","time":3600},"spi":257,"traffic-selector":{"local-prefix":"2001:db8:2::/48","remote-prefix":"2001:db8:1::/48"},"tunnel":{"local":"198.51.100.1","remote":"192.0.2.1"}},"name":"in/1","reqid":"10"}]}"#;

const NUMBER: &str =
    r#"{"ietf-i2nsf-ikeless:sad-entry":[{"ipsec-sa-config":{"esp-sa":{"encryption":{"key":"00:01:02:03:04:05:06:07:08:09:0a:0b:0c:0d:0e:0f:a0:a1:a2:a3"}},"sa-lifetime-soft":{"action":"replace","time":3600},"spi":257,"traffic-selector":{"local-prefix":"2001:db8:2::/48","remote-prefix":"2001:db8:1::/48"},"tunnel":{"local":"198.51.100.1","remote":"192.0.2.1"}},"name":"in/1","reqid":10}]}"#;

const COLOUR: &str =
    r#"{"ietf-i2nsf-ikeless:sad-entry":[{"colour":1,"ipsec-sa-config":{"esp-sa":{"encryption":{"key":"00:01:02:03:04:05:06:07:08:09:0a:0b:0c:0d:0e:0f:a0:a1:a2:a3"}},"sa-lifetime-soft":{"action":"replace","time":3600},"spi":257,"traffic-selector":{"local-prefix":"2001:db8:2::/48","remote-prefix":"2001:db8:1::/48"},"tunnel":{"local":"198.51.100.1","remote":"192.0.2.1"}},"name":"in/1","reqid":"10"}]}"#;

// The requests of one client, one after another, on databases that are empty at first.
const EXCHANGES: [Row; 21] = [
    Row {
        method: "POST",
        target: "/restconf/data/ietf-i2nsf-ikeless:ipsec-ikeless/spd?insert=before",
        body: POLICY,
        shown: r#"400 {"ietf-restconf:errors":{"error":[{"error-app-tag":"query","error-tag":"invalid-value","error-type":"protocol"}]}}"#,
    },
    Row {
        method: "POST",
        target: "/restconf/data/ietf-i2nsf-ikeless:ipsec-ikeless/spd?insert=before&point=%2Fietf-i2nsf-ikeless%3Aipsec-ikeless%2Fspd%2Fspd-entry%3Dzz",
        body: POLICY,
        shown: r#"400 {"ietf-restconf:errors":{"error":[{"error-app-tag":"point","error-tag":"invalid-value","error-type":"application"}]}}"#,
    },
    Row {
        method: "PUT",
        target: "/restconf/data/ietf-i2nsf-ikeless:ipsec-ikeless/spd",
        body: OPEN,
        shown: r#"400 {"ietf-restconf:errors":{"error":[{"error-app-tag":"json","error-tag":"malformed-message","error-type":"application"}]}}"#,
    },
    Row {
        method: "PUT",
        target: "/restconf/data/ietf-i2nsf-ikeless:ipsec-ikeless/spd/spd-entry=p1",
        body: POLICY,
        shown: "201 /restconf/data/ietf-i2nsf-ikeless:ipsec-ikeless/spd/spd-entry=p1 p1",
    },
    Row {
        method: "PUT",
        target: "/restconf/data/ietf-i2nsf-ikeless:ipsec-ikeless/spd/spd-entry=p1",
        body: POLICY,
        shown: "204  p1",
    },
    Row {
        method: "POST",
        target: "/restconf/data/ietf-i2nsf-ikeless:ipsec-ikeless/spd?insert=before&point=%2Fietf-i2nsf-ikeless%3Aipsec-ikeless%2Fspd%2Fspd-entry%3Dp1",
        body: FIRST,
        shown: "201 /restconf/data/ietf-i2nsf-ikeless:ipsec-ikeless/spd/spd-entry=p0 p0 p1",
    },
    Row {
        method: "DELETE",
        target: "/restconf/data/ietf-i2nsf-ikeless:ipsec-ikeless/spd/spd-entry=p0",
        body: "",
        shown: "204  p1",
    },
    Row {
        method: "POST",
        target: "/restconf/data/ietf-i2nsf-ikeless:ipsec-ikeless/spd?insert=before&point=%2Frestconf%2Fdata%2Fietf-i2nsf-ikeless%3Aipsec-ikeless%2Fspd%2Fspd-entry%3Dp1",
        body: FIRST,
        shown: "201 /restconf/data/ietf-i2nsf-ikeless:ipsec-ikeless/spd/spd-entry=p0 p0 p1",
    },
    Row {
        method: "POST",
        target: "/restconf/data/ietf-i2nsf-ikeless:ipsec-ikeless/spd?",
        body: FIRST,
        shown: r#"400 {"ietf-restconf:errors":{"error":[{"error-app-tag":"query","error-tag":"invalid-value","error-type":"protocol"}]}} p0 p1"#,
    },
    Row {
        method: "POST",
        target: "/restconf/data/ietf-i2nsf-ikeless:ipsec-ikeless/spd",
        body: POLICY,
        shown: r#"409 {"ietf-restconf:errors":{"error":[{"error-app-tag":"exists","error-tag":"resource-denied","error-type":"application"}]}} p0 p1"#,
    },
    Row {
        method: "PATCH",
        target: "/restconf/data/ietf-i2nsf-ikeless:ipsec-ikeless/spd",
        body: "",
        shown: r#"405 GET, PUT, POST{"ietf-restconf:errors":{"error":[{"error-app-tag":"method","error-tag":"operation-not-supported","error-type":"protocol"}]}} p0 p1"#,
    },
    Row {
        method: "GET",
        target: "/restconf/data/ietf-i2nsf-ikeless:ipsec-ikeless/spd/spd-entry=p1",
        body: "",
        shown: r#"200 {"ietf-i2nsf-ikeless:spd-entry":[{"direction":"outbound","ipsec-policy-config":{"anti-replay-window-size":64,"processing-info":{"action":"bypass"},"traffic-selector":{"inner-protocol":"any","local-prefix":"10.1.0.0/16","remote-prefix":"10.2.0.0/16"}},"name":"p1","reqid":"1"}]} p0 p1"#,
    },
    Row {
        method: "POST",
        target: "/restconf/data/ietf-i2nsf-ikeless:ipsec-ikeless/sad",
        body: HALF,
        shown: "201 /restconf/data/ietf-i2nsf-ikeless:ipsec-ikeless/sad/sad-entry=in%2F1 p0 p1 in/1",
    },
    Row {
        method: "POST",
        target: "/restconf/data/ietf-i2nsf-ikeless:ipsec-ikeless/sad",
        body: HALF,
        shown: r#"409 {"ietf-restconf:errors":{"error":[{"error-app-tag":"exists","error-tag":"resource-denied","error-type":"application"}]}} p0 p1 in/1"#,
    },
    Row {
        method: "POST",
        target: "/restconf/data/ietf-i2nsf-ikeless:ipsec-ikeless/sad",
        body: NUMBER,
        shown: r#"400 {"ietf-restconf:errors":{"error":[{"error-app-tag":"form","error-message":"at /ietf-i2nsf-ikeless:sad-entry/0/reqid","error-tag":"invalid-value","error-type":"application"}]}} p0 p1 in/1"#,
    },
    Row {
        method: "POST",
        target: "/restconf/data/ietf-i2nsf-ikeless:ipsec-ikeless/sad",
        body: COLOUR,
        shown: r#"400 {"ietf-restconf:errors":{"error":[{"error-app-tag":"unknown","error-message":"at /ietf-i2nsf-ikeless:sad-entry/0","error-tag":"unknown-element","error-type":"application"}]}} p0 p1 in/1"#,
    },
    Row {
        method: "DELETE",
        target: "/restconf/data/ietf-i2nsf-ikeless:ipsec-ikeless/sad/sad-entry=in%2F7",
        body: "",
        shown: r#"404 {"ietf-restconf:errors":{"error":[{"error-app-tag":"absent","error-tag":"invalid-value","error-type":"application"}]}} p0 p1 in/1"#,
    },
    Row {
        method: "GET",
        target: "/restconf/data/ietf-i2nsf-ikeless:ipsec-ikeless/sad/sad-entry=in/1",
        body: "",
        shown: r#"404 {"ietf-restconf:errors":{"error":[{"error-app-tag":"path","error-tag":"invalid-value","error-type":"protocol"}]}} p0 p1 in/1"#,
    },
    Row {
        method: "GET",
        target: "/restconf/data/ietf-i2nsf-ikeless:ipsec-ikeless/sad",
        body: "",
        shown: r#"200 {"ietf-i2nsf-ikeless:sad":{"sad-entry":[{"ipsec-sa-config":{"anti-replay-window-size":64,"esp-sa":{"encryption":{"encryption-algorithm":20}},"ext-seq-num":false,"mode":"tunnel","protocol-parameters":"esp","sa-lifetime-soft":{"action":"replace","time":3600},"seq-overflow":false,"spi":257,"traffic-selector":{"inner-protocol":"any","local-prefix":"2001:db8:2::/48","remote-prefix":"2001:db8:1::/48"},"tunnel":{"df-bit":"copy","local":"198.51.100.1","remote":"192.0.2.1"}},"ipsec-sa-state":{"replay-stats":{"last-sequence":"0"},"sa-lifetime-current":{"bytes":"0","idle":0,"packets":0,"time":0}},"name":"in/1","reqid":"10"}]}} p0 p1 in/1"#,
    },
    Row {
        method: "GET",
        target: "/restconf/data/ietf-i2nsf-ikeless:ipsec-ikeless/sad/sad-entry=in%2F1",
        body: "",
        shown: r#"200 {"ietf-i2nsf-ikeless:sad-entry":[{"ipsec-sa-config":{"anti-replay-window-size":64,"esp-sa":{"encryption":{"encryption-algorithm":20}},"ext-seq-num":false,"mode":"tunnel","protocol-parameters":"esp","sa-lifetime-soft":{"action":"replace","time":3600},"seq-overflow":false,"spi":257,"traffic-selector":{"inner-protocol":"any","local-prefix":"2001:db8:2::/48","remote-prefix":"2001:db8:1::/48"},"tunnel":{"df-bit":"copy","local":"198.51.100.1","remote":"192.0.2.1"}},"ipsec-sa-state":{"replay-stats":{"last-sequence":"0"},"sa-lifetime-current":{"bytes":"0","idle":0,"packets":0,"time":0}},"name":"in/1","reqid":"10"}]} p0 p1 in/1"#,
    },
    Row {
        method: "DELETE",
        target: "/restconf/data/ietf-i2nsf-ikeless:ipsec-ikeless/sad/sad-entry=in%2F1",
        body: "",
        shown: "204  p0 p1",
    },
];

fn message(alloc: Global, row: &Row) -> Result<HttpMessage, NoMemory> {
    Ok(HttpMessage {
        method: Octets::from_slice(alloc, row.method.as_bytes())?,
        target: Octets::from_slice(alloc, row.target.as_bytes())?,
        status: 0,
        fields: HeaderMap::new(alloc),
        body: Octets::from_slice(alloc, row.body.as_bytes())?,
    })
}

fn refused(alloc: Global, e: &RcError) -> Result<Reply, NoMemory> {
    match &e.path {
        None => error_reply(alloc, e),
        Some(path) => match str::from_utf8(path.as_slice()) {
            Ok(_) => error_reply(alloc, e),
            Err(_) => Err(NoMemory),
        },
    }
}

fn reply_over(alloc: Global, tree: &mut Tree, m: &HttpMessage) -> Result<Reply, NoMemory>
    requires { IsTree tree.old }
    ensures { IsTree tree.new }
{
    match read_request(alloc, m) {
        Ok(ask) => apply(alloc, tree, &ask),
        Err(OrMemory::Refused(e)) => refused(alloc, &e),
        Err(OrMemory::NoMemory) => Err(NoMemory),
    }
}

fn named(text: &mut Vec<u8>, tree: &Tree) -> Result<(), NoMemory> {
    for entry in tree.spd.as_slice() {
        text.push(b' ')?;
        text.extend_from_slice(entry.name.as_slice())?;
    }
    Ok(())
}

fn also_named(text: &mut Vec<u8>, tree: &Tree) -> Result<(), NoMemory> {
    for row in tree.sad.as_slice() {
        text.push(b' ')?;
        text.extend_from_slice(row.entry.name.as_slice())?;
    }
    Ok(())
}

// The status, the location, Allow and the body.
fn told(alloc: Global, reply: &Reply) -> Result<Vec<u8>, NoMemory> {
    let mut text = write_u64(alloc, u64::from(reply.status))?.into_items();
    text.push(b' ')?;
    text.extend_from_slice(reply.location.as_slice())?;
    text.extend_from_slice(reply.allow.as_slice())?;
    text.extend_from_slice(reply.body.as_slice())?;
    Ok(text)
}

// What is told, then the names in the databases.
fn shown(alloc: Global, tree: &mut Tree, row: &Row) -> Result<Vec<u8>, NoMemory>
    requires { IsTree tree.old }
    ensures { IsTree tree.new }
{
    let m = message(alloc, row)?;
    let reply = reply_over(alloc, tree, &m)?;
    let mut text = told(alloc, &reply)?;
    named(&mut text, tree)?;
    also_named(&mut text, tree)?;
    Ok(text)
}

fn empty(alloc: Global) -> Tree
    ensures { IsTree result }
{
    Tree {
        spd: ListOf::new(alloc),
        sad: Rows::new(alloc),
    }
}

#[test]
fn each_request_has_its_reply(rt: HostRuntime) -> Result<(), Fail> {
    let alloc = rt.alloc();
    let mut tree = empty(alloc);
    for row in &EXCHANGES {
        let text = shown(alloc, &mut tree, row)?;
        assert_eq!(rt; text.as_slice(), row.shown.as_bytes());
    }
    Ok(())
}

// The reply to octets that are no message.
fn said_of(alloc: Global, fault: HttpFault) -> Result<Vec<u8>, NoMemory> {
    let e = message_fault(alloc, fault);
    let reply = refused(alloc, &e)?;
    told(alloc, &reply)
}

#[test]
fn octets_that_are_no_message_are_refused(rt: HostRuntime) -> Result<(), Fail> {
    let rows = [
        (
            HttpFault::Head,
            r#"400 {"ietf-restconf:errors":{"error":[{"error-app-tag":"form","error-tag":"malformed-message","error-type":"protocol"}]}}"#,
        ),
        (
            HttpFault::Version,
            r#"400 {"ietf-restconf:errors":{"error":[{"error-app-tag":"form","error-tag":"malformed-message","error-type":"protocol"}]}}"#,
        ),
        (
            HttpFault::Chunked,
            r#"501 {"ietf-restconf:errors":{"error":[{"error-app-tag":"chunked","error-tag":"operation-not-supported","error-type":"protocol"}]}}"#,
        ),
        (
            HttpFault::TooBig,
            r#"413 {"ietf-restconf:errors":{"error":[{"error-app-tag":"size","error-tag":"too-big","error-type":"protocol"}]}}"#,
        ),
    ];
    for (fault, want) in rows {
        let text = said_of(rt.alloc(), fault)?;
        assert_eq!(rt; text.as_slice(), want.as_bytes());
    }
    Ok(())
}

fn read_order(alloc: Global) -> Result<HttpMessage, NoMemory> {
    order_request(alloc, &Addr::V4([192, 0, 2, 1]), &Order::Read)
}

#[test]
fn a_reading_is_requested(rt: HostRuntime) -> Result<(), Fail> {
    let m = read_order(rt.alloc())?;
    assert_eq!(rt;
        m.target.as_slice(),
        b"/restconf/data/ietf-i2nsf-ikeless:ipsec-ikeless/sad".as_slice()
    );
    Ok(())
}
