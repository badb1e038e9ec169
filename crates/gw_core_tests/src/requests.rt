// Each kind of request in turn, with what it changes and its reply.
ghost use Rattle.std.specs.Prelude.{◌≡◌, ◌∷◌, [], true, None, IfOk, IfSome};
ghost use Rattle.ikeless_tree.specs.Check.{spd_fault};
ghost use Rattle.rc_request.specs.Asks.{IsAsk};

use crate::player::{boot, half_asked, known, list_asked};
use crate::show::shown;
use gw_core::{Config, Gateway, GwActs, GwEvent};
use ikeless_tree::{App, SpdEntry, Tag, check_spd};
use ikl_base::{Addr, Duplicate, ListOf, Name, NoMemory, Octets};
use line_words::{entries, put};
use rc_resource::{Ask, Place, RcError};
use std::alloc::Global;
use std::test::Fail;

const B: Config = Config {
    address: Addr::V4([198, 51, 100, 1]),
    seq_last: 4_294_967_295,
};

#[derive(Clone, Copy)]
enum Kind {
    GetSpd,
    PutSpd,
    PostSpd,
    GetSpdEntry,
    PutSpdEntry,
    DeleteSpdEntry,
    GetSad,
    PostSad,
    GetSadEntry,
    DeleteSad,
}

#[derive(Drop)]
struct Exchange {
    kind: Kind,
    text: &'static str,
    shown: &'static str,
}

// The requests of one client, one after another, at a gateway that has just started.
const EXCHANGES: [Exchange; 18] = [
    Exchange {
        kind: Kind::GetSad,
        text: "",
        shown: "handled 200 - -",
    },
    Exchange {
        kind: Kind::PostSad,
        text: "in/1,10,257,64,2001:db8:2::/48,2001:db8:1::/48,any,any,any,000102030405060708090a0b0c0d0e0fa0a1a2a3,198.51.100.1,192.0.2.1,copy,0/0/0/0,3600/0/0/0",
        shown: "put in/1,10,257,64,2001:db8:2::/48,2001:db8:1::/48,any,any,any,000102030405060708090a0b0c0d0e0fa0a1a2a3,198.51.100.1,192.0.2.1,copy,0/0/0/0,3600/0/0/0; handled 201 - -",
    },
    Exchange {
        kind: Kind::PostSad,
        text: "in/1,10,257,64,2001:db8:2::/48,2001:db8:1::/48,any,any,any,000102030405060708090a0b0c0d0e0fa0a1a2a3,198.51.100.1,192.0.2.1,copy,0/0/0/0,3600/0/0/0",
        shown: "handled 409 resource-denied -",
    },
    Exchange {
        kind: Kind::GetSad,
        text: "",
        shown: "handled 200 - in/1",
    },
    Exchange {
        kind: Kind::GetSadEntry,
        text: "in/1",
        shown: "handled 200 - -",
    },
    Exchange {
        kind: Kind::GetSadEntry,
        text: "in/7",
        shown: "handled 404 invalid-value -",
    },
    Exchange {
        kind: Kind::DeleteSad,
        text: "in/7",
        shown: "handled 404 invalid-value -",
    },
    Exchange {
        kind: Kind::DeleteSad,
        text: "in/1",
        shown: "gone in/1 removed; handled 204 - -",
    },
    Exchange {
        kind: Kind::GetSad,
        text: "",
        shown: "handled 200 - -",
    },
    Exchange {
        kind: Kind::PutSpd,
        text: "p1,out,1,bypass,10.1.0.0/16,10.2.0.0/16,any,any,any",
        shown: "policy p1,out,1,bypass,10.1.0.0/16,10.2.0.0/16,any,any,any; handled 204 - -",
    },
    Exchange {
        kind: Kind::PostSpd,
        text: "p2,out,2,discard,10.1.0.0/16,10.2.0.0/16,any,any,any",
        shown: "policy p2,out,2,discard,10.1.0.0/16,10.2.0.0/16,any,any,any p1,out,1,bypass,10.1.0.0/16,10.2.0.0/16,any,any,any; handled 201 - -",
    },
    Exchange {
        kind: Kind::PostSpd,
        text: "p2,out,2,discard,10.1.0.0/16,10.2.0.0/16,any,any,any",
        shown: "handled 409 resource-denied -",
    },
    Exchange {
        kind: Kind::PutSpdEntry,
        text: "p3,in,3,bypass,10.3.0.0/16,10.2.0.0/16,any,any,any",
        shown: "policy p2,out,2,discard,10.1.0.0/16,10.2.0.0/16,any,any,any p1,out,1,bypass,10.1.0.0/16,10.2.0.0/16,any,any,any p3,in,3,bypass,10.3.0.0/16,10.2.0.0/16,any,any,any; handled 201 - -",
    },
    Exchange {
        kind: Kind::PutSpdEntry,
        text: "p2,out,2,bypass,10.1.0.0/16,10.9.0.0/16,any,any,any",
        shown: "policy p2,out,2,bypass,10.1.0.0/16,10.9.0.0/16,any,any,any p1,out,1,bypass,10.1.0.0/16,10.2.0.0/16,any,any,any p3,in,3,bypass,10.3.0.0/16,10.2.0.0/16,any,any,any; handled 204 - -",
    },
    Exchange {
        kind: Kind::DeleteSpdEntry,
        text: "p1",
        shown: "policy p2,out,2,bypass,10.1.0.0/16,10.9.0.0/16,any,any,any p3,in,3,bypass,10.3.0.0/16,10.2.0.0/16,any,any,any; handled 204 - -",
    },
    Exchange {
        kind: Kind::DeleteSpdEntry,
        text: "p1",
        shown: "handled 404 invalid-value -",
    },
    Exchange {
        kind: Kind::GetSpdEntry,
        text: "p3",
        shown: "handled 200 - -",
    },
    Exchange {
        kind: Kind::GetSpd,
        text: "",
        shown: "handled 200 - -",
    },
];

// Whether nothing is wrong with a policy alone.
fn is_sound(alloc: Global, entry: &SpdEntry) -> Result<bool, NoMemory>
    ensures { IfOk result (λ b. b ≡ true → spd_fault (entry.now ∷ []) ≡ None) }
{
    let mut list = ListOf::new(alloc);
    list.push(entry.copy()?)?;
    match check_spd(&list) {
        Ok(()) => Ok(true),
        Err(_) => Ok(false),
    }
}

// The policy that a word stands for, where nothing is wrong with it.
fn policy(alloc: Global, word: &[u8]) -> Result<Option<SpdEntry>, NoMemory>
    ensures { IfOk result (λ e. IfSome e (λ e. spd_fault (e ∷ []) ≡ None)) }
{
    let Some(list) = known(entries(alloc, &[word]))? else {
        return Ok(None);
    };
    let Some(entry) = list.into_items().pop() else {
        return Ok(None);
    };
    if is_sound(alloc, &entry)? {
        Ok(Some(entry))
    } else {
        Ok(None)
    }
}

fn post_asked(alloc: Global, word: &[u8]) -> Result<Option<Ask>, NoMemory>
    ensures { IfOk result (λ a. IfSome a IsAsk) }
{
    match policy(alloc, word)? {
        None => Ok(None),
        Some(entry) => Ok(Some(Ask::PostSpd {
            entry,
            place: Place::First,
        })),
    }
}

fn put_asked(alloc: Global, word: &[u8]) -> Result<Option<Ask>, NoMemory>
    ensures { IfOk result (λ a. IfSome a IsAsk) }
{
    match policy(alloc, word)? {
        None => Ok(None),
        Some(entry) => Ok(Some(Ask::PutSpdEntry(entry))),
    }
}

fn asked(alloc: Global, row: &Exchange) -> Result<Option<Ask>, NoMemory>
    ensures { IfOk result (λ a. IfSome a IsAsk) }
{
    let word = row.text.as_bytes();
    match row.kind {
        Kind::GetSpd => Ok(Some(Ask::GetSpd)),
        Kind::PutSpd => list_asked(alloc, &[word]),
        Kind::PostSpd => post_asked(alloc, word),
        Kind::GetSpdEntry => Ok(Some(Ask::GetSpdEntry(Name::from_slice(alloc, word)?))),
        Kind::PutSpdEntry => put_asked(alloc, word),
        Kind::DeleteSpdEntry => Ok(Some(Ask::DeleteSpdEntry(Name::from_slice(alloc, word)?))),
        Kind::GetSad => Ok(Some(Ask::GetSad)),
        Kind::PostSad => half_asked(alloc, word),
        Kind::GetSadEntry => Ok(Some(Ask::GetSadEntry(Name::from_slice(alloc, word)?))),
        Kind::DeleteSad => Ok(Some(Ask::DeleteSad(Name::from_slice(alloc, word)?))),
    }
}

// The acts as lines, with semicolons between them.
fn lines(alloc: Global, acts: &GwActs) -> Result<Vec<u8>, NoMemory> {
    let mut out = Vec::new(alloc);
    for act in acts.as_slice() {
        if !out.is_empty() {
            put(&mut out, b"; ")?;
        }
        put(&mut out, shown(alloc, act)?.as_slice())?;
    }
    Ok(out)
}

fn handled(alloc: Global, gateway: &mut Gateway, row: &Exchange) -> Result<Vec<u8>, NoMemory> {
    let mut acts = GwActs::new(alloc);
    match asked(alloc, row)? {
        None => {}
        Some(ask) => gateway.step(GwEvent::Handle(Ok(ask)), &mut acts)?,
    }
    lines(alloc, &acts)
}

#[test]
fn each_request_has_its_acts(rt: HostRuntime) -> Result<(), Fail> {
    let mut gateway = boot(rt.alloc(), B)?;
    for row in &EXCHANGES {
        let text = handled(rt.alloc(), &mut gateway, row)?;
        assert_eq!(rt; text.as_slice(), row.shown.as_bytes());
    }
    Ok(())
}

fn refused(alloc: Global, gateway: &mut Gateway) -> Result<Vec<u8>, NoMemory> {
    let fault = RcError {
        status: 405,
        tag: Tag::OperationNotSupported,
        app: App::Method,
        path: None,
        allow: Octets::from_slice(alloc, b"GET, PUT, POST")?,
    };
    let mut acts = GwActs::new(alloc);
    gateway.step(GwEvent::Handle(Err(fault)), &mut acts)?;
    lines(alloc, &acts)
}

#[test]
fn a_request_that_could_not_be_read_is_refused(rt: HostRuntime) -> Result<(), Fail> {
    let mut gateway = boot(rt.alloc(), B)?;
    let text = refused(rt.alloc(), &mut gateway)?;
    assert_eq!(rt;
        text.as_slice(),
        "handled 405 operation-not-supported -".as_bytes()
    );
    Ok(())
}

// A copy of acts tells the same.
#[test]
fn acts_are_copied(rt: HostRuntime) -> Result<(), Fail> {
    let alloc = rt.alloc();
    let mut gateway = boot(alloc, B)?;
    let mut acts = GwActs::new(alloc);
    let packet = [0x45u8; 3];
    gateway.step(GwEvent::Let(&packet), &mut acts)?;
    gateway.step(GwEvent::Handle(Ok(Ask::GetSad)), &mut acts)?;
    let text = lines(alloc, &acts.copy()?)?;
    assert_eq!(rt;
        text.as_slice(),
        "drop malformed; handled 200 - -".as_bytes()
    );
    Ok(())
}
