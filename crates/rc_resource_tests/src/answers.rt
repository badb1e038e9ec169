// Orders with their answers, over the requests and responses that carry them.
ghost use Rattle.rc_resource.specs.Lists.{IsTree};

use http_header::HeaderMap;
use ikeless_tree::{Entries, Order, Rows, SadEntry, Tree, check_sad, check_spd, names_half};
use ikl_base::{Addr, Name, NoMemory, Octets, OrMemory};
use json_codec::read_sad_entry;
use rc_http::HttpMessage;
use rc_resource::{
    BadAnswer, apply, order_request, read_answer, read_error, read_request, reply_response,
};
use std::alloc::Global;
use std::test::Fail;
use yang_values::write_u64;

#[derive(Clone, Copy)]
enum Given {
    Read,
    Policy,
    Put,
    Remove,
}

#[derive(Drop)]
struct Exchange {
    given: Given,
    shown: &'static str,
}

#[derive(Drop)]
struct Response {
    given: Given,
    status: u16,
    body: &'static str,
    shown: &'static str,
}

const HALF: &str =
    r#"{"ietf-i2nsf-ikeless:sad-entry":[{"ipsec-sa-config":{"esp-sa":{"encryption":{"key":"00:01:02:03:04:05:06:07:08:09:0a:0b:0c:0d:0e:0f:a0:a1:a2:a3"}},"spi":257,"traffic-selector":{"local-prefix":"2001:db8:2::/48","remote-prefix":"2001:db8:1::/48"},"tunnel":{"local":"198.51.100.1","remote":"192.0.2.1"}},"name":"in/1","reqid":"10"}]}"#;

// Over databases that are empty at first.
const EXCHANGES: [Exchange; 8] = [
    Exchange {
        given: Given::Read,
        shown: "200 -",
    },
    Exchange {
        given: Given::Policy,
        shown: "204 -",
    },
    Exchange {
        given: Given::Remove,
        shown: "404 invalid-value",
    },
    Exchange {
        given: Given::Put,
        shown: "201 -",
    },
    Exchange {
        given: Given::Read,
        shown: "200 - in/1",
    },
    Exchange {
        given: Given::Put,
        shown: "409 resource-denied",
    },
    Exchange {
        given: Given::Remove,
        shown: "204 -",
    },
    Exchange {
        given: Given::Read,
        shown: "200 -",
    },
];

const RESPONSES: [Response; 16] = [
    Response {
        given: Given::Read,
        status: 200,
        body: r#"{"ietf-i2nsf-ikeless:sad":{"sad-entry":[{"name":"out/b"},{"colour":1,"name":"in/a"}]}}"#,
        shown: "200 - out/b in/a",
    },
    Response {
        given: Given::Read,
        status: 200,
        body: r#"{"ietf-i2nsf-ikeless:sad":{"sad-entry":[{"name":"in/a"},{"name":"up/a"}]}}"#,
        shown: "bad",
    },
    Response {
        given: Given::Read,
        status: 200,
        body: r#"{"ietf-i2nsf-ikeless:sad":{"sad-entry":[{"name":"in/a"},"in/b"]}}"#,
        shown: "bad",
    },
    Response {
        given: Given::Read,
        status: 200,
        body: r#"{"ietf-i2nsf-ikeless:spd":{"sad-entry":[]}}"#,
        shown: "bad",
    },
    Response {
        given: Given::Read,
        status: 200,
        body: r#"{"ietf-i2nsf-ikeless:sad":{"sad-entry":[],"x":1}}"#,
        shown: "bad",
    },
    Response {
        given: Given::Read,
        status: 500,
        body: r#"{"ietf-i2nsf-ikeless:sad":{"sad-entry":[]}}"#,
        shown: "bad",
    },
    Response {
        given: Given::Put,
        status: 200,
        body: "",
        shown: "bad",
    },
    Response {
        given: Given::Put,
        status: 201,
        body: "not looked at",
        shown: "201 -",
    },
    Response {
        given: Given::Put,
        status: 409,
        body: r#" { "ietf-restconf:errors": { "error": [ { "error-tag": "too-big", "error-message": 7, "error-app-tag": "key-limit" } ] } } "#,
        shown: "409 too-big",
    },
    Response {
        given: Given::Put,
        status: 409,
        body: r#"{"ietf-restconf:errors":{"error":[{"error-app-tag":"full","error-tag":"in-use"}]}}"#,
        shown: "bad",
    },
    Response {
        given: Given::Put,
        status: 409,
        body: r#"{"ietf-restconf:errors":{"error":[{"error-app-tag":"resource-denied","error-tag":"resource-denied"}]}}"#,
        shown: "bad",
    },
    Response {
        given: Given::Put,
        status: 409,
        body: r#"{"ietf-restconf:errors":{"error":[{"error-app-tag":"full","error-tag":"too-big"},{"error-app-tag":"full","error-tag":"too-big"}]}}"#,
        shown: "bad",
    },
    Response {
        given: Given::Put,
        status: 409,
        body: r#"{"ietf-restconf:errors":{"error":[]}}"#,
        shown: "bad",
    },
    Response {
        given: Given::Put,
        status: 404,
        body: r#"{"ietf-restconf:errors":{"error":[{"error-app-tag":"absent","error-tag":"invalid-value"}]}}"#,
        shown: "bad",
    },
    Response {
        given: Given::Remove,
        status: 404,
        body: r#"{"ietf-restconf:errors":{"error":[{"error-tag":"invalid-value"}]}}"#,
        shown: "bad",
    },
    Response {
        given: Given::Policy,
        status: 201,
        body: "",
        shown: "bad",
    },
];

fn half(alloc: Global) -> Result<SadEntry, NoMemory> {
    match read_sad_entry(alloc, HALF.as_bytes()) {
        Ok(e) => Ok(e),
        Err(_) => Err(NoMemory),
    }
}

fn order(alloc: Global, given: Given) -> Result<Order, NoMemory> {
    match given {
        Given::Read => Ok(Order::Read),
        Given::Policy => Ok(Order::Policy(Entries::new(alloc))),
        Given::Put => Ok(Order::Put(half(alloc)?)),
        Given::Remove => Ok(Order::Remove(Name::from_slice(alloc, b"in/1")?)),
    }
}

fn request(alloc: Global, o: &Order) -> Result<HttpMessage, NoMemory> {
    let host = Addr::V4([192, 0, 2, 1]);
    match o {
        Order::Read => order_request(alloc, &host, o),
        Order::Policy(list) if check_spd(list).is_ok() => order_request(alloc, &host, o),
        Order::Put(e) if check_sad(e).is_ok() => order_request(alloc, &host, o),
        Order::Remove(name) if names_half(name.as_slice()) => order_request(alloc, &host, o),
        _ => Err(NoMemory),
    }
}

fn replied(alloc: Global, tree: &mut Tree, m: &HttpMessage) -> Result<HttpMessage, NoMemory>
    requires { IsTree tree.old }
    ensures { IsTree tree.new }
{
    match read_request(alloc, m) {
        Ok(ask) => reply_response(alloc, &apply(alloc, tree, &ask)?),
        Err(_) => Err(NoMemory),
    }
}

fn put_names(text: &mut Vec<u8>, names: &[Name]) -> Result<(), NoMemory> {
    for name in names {
        text.push(b' ')?;
        text.extend_from_slice(name.as_slice())?;
    }
    Ok(())
}

// The status, the tag and the names.
fn shown(alloc: Global, o: &Order, m: &HttpMessage) -> Result<Vec<u8>, NoMemory> {
    let answer = match read_answer(alloc, o, m) {
        Ok(answer) => answer,
        Err(OrMemory::NoMemory) => return Err(NoMemory),
        Err(OrMemory::Refused(BadAnswer)) => return Ok(Vec::from_slice(alloc, b"bad")?),
    };
    let mut text = write_u64(alloc, u64::from(answer.status))?.into_items();
    text.push(b' ')?;
    match answer.tag {
        Some(tag) => text.extend_from_slice(tag.text().as_bytes())?,
        None => text.push(b'-')?,
    }
    put_names(&mut text, answer.names.as_slice())?;
    Ok(text)
}

fn exchanged(alloc: Global, tree: &mut Tree, given: Given) -> Result<Vec<u8>, NoMemory>
    requires { IsTree tree.old }
    ensures { IsTree tree.new }
{
    let o = order(alloc, given)?;
    let m = request(alloc, &o)?;
    shown(alloc, &o, &replied(alloc, tree, &m)?)
}

fn empty(alloc: Global) -> Tree
    ensures { IsTree result }
{
    Tree {
        spd: Entries::new(alloc),
        sad: Rows::new(alloc),
    }
}

#[test]
fn each_order_has_its_answer(rt: HostRuntime) -> Result<(), Fail> {
    let mut tree = empty(rt.alloc());
    for row in &EXCHANGES {
        let text = exchanged(rt.alloc(), &mut tree, row.given)?;
        assert_eq!(rt; text.as_slice(), row.shown.as_bytes());
    }
    Ok(())
}

fn read_so(alloc: Global, row: &Response) -> Result<Vec<u8>, NoMemory> {
    let o = order(alloc, row.given)?;
    let m = HttpMessage {
        method: Octets::new(alloc),
        target: Octets::new(alloc),
        status: row.status,
        fields: HeaderMap::new(alloc),
        body: Octets::from_slice(alloc, row.body.as_bytes())?,
    };
    shown(alloc, &o, &m)
}

#[test]
fn responses_are_read(rt: HostRuntime) -> Result<(), Fail> {
    for row in &RESPONSES {
        let text = read_so(rt.alloc(), row)?;
        assert_eq!(rt; text.as_slice(), row.shown.as_bytes());
    }
    Ok(())
}

const LIMITED: &str =
    r#"{"ietf-restconf:errors":{"error":[{"error-app-tag":"key-limit","error-tag":"too-big","error-type":"application"}]}}"#;

fn error_shown(alloc: Global, body: &str) -> Result<Vec<u8>, NoMemory> {
    let Ok(found) = read_error(alloc, body.as_bytes()) else {
        return Err(NoMemory);
    };
    let mut text = Vec::from_slice(alloc, found.tag.text().as_bytes())?;
    text.push(b' ')?;
    text.extend_from_slice(found.app.text().as_bytes())?;
    Ok(text)
}

#[test]
fn an_error_is_read(rt: HostRuntime) -> Result<(), Fail> {
    let text = error_shown(rt.alloc(), LIMITED)?;
    assert_eq!(rt; text.as_slice(), b"too-big key-limit".as_slice());
    Ok(())
}
