// Orders, replies and notices as octets and back, against octets worked by another program.
use ikeless_tree::{Answer, Entries, Limits, Notice, Order, Rows, Tree, names_half};
use ikl_base::{Addr, Name, NoMemory, Octets};
use rc_resource::{Ask, RcError, apply};
use session_messages::{read_ask, read_line, read_reply, write_line, write_order, write_reply};
use std::alloc::Global;
use std::test::Fail;
use text_bounds::{orders_can_be_written, replies_can_be_written};

const READING: &str =
    "GET /restconf/data/ietf-i2nsf-ikeless:ipsec-ikeless/sad HTTP/1.1\r\nHost: 192.0.2.1\r\n\r\n";

const NO_HALVES: &str =
    "HTTP/1.1 200 OK\r\nContent-Length: 43\r\nContent-Type: application/yang-data+json\r\n\r\n{\"ietf-i2nsf-ikeless:sad\":{\"sad-entry\":[]}}";

const EXPIRY: &str =
    "{\"ietf-restconf:notification\":{\"eventTime\":\"1970-01-01T01:00:00Z\",\"ietf-i2nsf-ikeless:sadb-expire\":{\"ipsec-sa-name\":\"out/1\",\"lifetime-current\":{\"bytes\":\"88\",\"idle\":3600,\"packets\":1,\"time\":3600},\"soft-lifetime-expire\":true}}}\n";

// What is asked, in a word.
fn word_of_ask(asked: Result<Result<Ask, RcError>, NoMemory>) -> &'static str {
    match asked {
        Ok(Ok(Ask::GetSad)) => "read",
        Ok(Ok(_)) => "other",
        Ok(Err(_)) => "refused",
        Err(NoMemory) => "no memory",
    }
}

#[test]
fn an_order_is_read_as_what_it_asks(rt: HostRuntime) -> Result<(), Fail> {
    let alloc = rt.alloc();
    let host = Addr::V4([192, 0, 2, 1]);
    host.numbers_fit();
    orders_can_be_written();
    let text = write_order(alloc, &host, &Order::Read)?;
    assert_eq!(rt; text.as_slice(), READING.as_bytes());
    assert_eq!(rt; word_of_ask(read_ask(alloc, READING.as_bytes())), "read");
    assert_eq!(rt;
        word_of_ask(read_ask(alloc, &READING.as_bytes()[..84])),
        "refused"
    );
    Ok(())
}

// The response of a gateway that has no halves.
fn no_halves(alloc: Global) -> Result<Octets, NoMemory> {
    let mut tree = Tree {
        spd: Entries::new(alloc),
        sad: Rows::new(alloc),
    };
    replies_can_be_written();
    let reply = apply(alloc, &mut tree, &Ask::GetSad)?;
    write_reply(alloc, &reply)
}

// What is answered to a reading, in a word.
fn word_of_answer(heard: Result<Option<Answer>, NoMemory>) -> &'static str {
    match heard {
        Ok(Some(answer)) => {
            if answer.status == 200 && answer.names.len() == 0 {
                "no halves"
            } else {
                "other"
            }
        }
        Ok(None) => "none",
        Err(NoMemory) => "no memory",
    }
}

#[test]
fn a_reply_is_read_as_its_answer(rt: HostRuntime) -> Result<(), Fail> {
    let alloc = rt.alloc();
    let text = no_halves(alloc)?;
    let heard = read_reply(alloc, &Order::Read, NO_HALVES.as_bytes());
    let twice = read_reply(
        alloc,
        &Order::Policy(Entries::new(alloc)),
        NO_HALVES.as_bytes(),
    );
    assert_eq!(rt; text.as_slice(), NO_HALVES.as_bytes());
    assert_eq!(rt; word_of_answer(heard), "no halves");
    assert_eq!(rt; word_of_answer(twice), "none");
    Ok(())
}

fn expiry(alloc: Global) -> Result<Octets, NoMemory> {
    let name = Name::from_slice(alloc, b"out/1")?;
    if !names_half(name.as_slice()) {
        return Ok(Octets::new(alloc));
    }
    let current = Limits {
        time: 3600,
        bytes: 88,
        packets: 1,
        idle: 3600,
    };
    let soft = true;
    write_line(
        alloc,
        &Notice::Expire {
            name,
            soft,
            current,
        },
        3600,
    )
}

// What is heard, in a word.
fn word_of_notice(heard: Result<Option<Notice>, NoMemory>) -> &'static str {
    match heard {
        Ok(Some(Notice::Expire { .. })) => "expiry",
        Ok(Some(_)) => "other",
        Ok(None) => "none",
        Err(NoMemory) => "no memory",
    }
}

#[test]
fn a_notice_is_heard_again(rt: HostRuntime) -> Result<(), Fail> {
    let alloc = rt.alloc();
    let line = expiry(alloc)?;
    assert_eq!(rt; line.as_slice(), EXPIRY.as_bytes());
    assert_eq!(rt;
        word_of_notice(read_line(alloc, EXPIRY.as_bytes())),
        "expiry"
    );
    assert_eq!(rt; word_of_notice(read_line(alloc, b"{}\n")), "none");
    Ok(())
}
