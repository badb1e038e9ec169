// Words that are a command's and words that aren't, and what they say.
use gw_packets::Config;
use ikeless_tree::{Command, Direction};
use ikl_base::{Addr, NoMemory, OrMemory};
use live_words::*;
use std::alloc::Global;
use std::process::Abort;
use std::test::Fail;

// The words of a text, between its spaces.
fn words_of(alloc: Global, text: &str) -> Result<Vec<String>, NoMemory> {
    let mut words = Vec::new(alloc);
    for word in text.split(' ') {
        words.push(String::from_str(alloc, word)?)?;
    }
    Ok(words)
}

fn said<T: Drop>(read: Result<T, OrMemory<BadWords>>) -> &'static str {
    match read {
        Ok(_) => "read",
        Err(OrMemory::Refused(BadWords)) => "bad",
        Err(OrMemory::NoMemory) => "no memory",
    }
}

// What is said of words by the command that the first one names.
fn judged(alloc: Global, text: &str) -> Result<&'static str, NoMemory> {
    let words = words_of(alloc, text)?;
    let words = words.as_slice();
    let is = |name: &str| text.starts_with(name);
    Ok(if is("gateway") {
        said(read_gateway_words(alloc, words))
    } else if is("controller") {
        said(read_controller_words(alloc, words))
    } else if is("client") {
        said(read_client_words(alloc, words))
    } else {
        said(read_drill_words(alloc, words))
    })
}

fn each_is<R: Abort>(rt: &R, alloc: Global, texts: &str, wanted: &str) -> Result<(), NoMemory> {
    for text in texts.lines() {
        let judged = judged(alloc, text)?;
        assert_eq!(rt; judged, wanted);
    }
    Ok(())
}

const GATEWAY: &str =
    "gateway --address 192.0.2.1 --seq-last 4294967295 --inside 1 --inside-to 2 --outside 3 --outside-to 4 \
--control 65535 --notice 6 --turns 7";

// Where a word of the gateway is put in place of another one.
const GATEWAY_CHANGES: [(&str, &str, &str); 15] = [
    ("192.0.2.1", "2001:db8::1", "read"),
    ("4294967295", "1", "read"),
    ("--turns 7", "--turns 4294967295", "read"),
    ("--turns 7", "--turns=7", "read"),
    ("192.0.2.1", "192.0.2.256", "bad"),
    ("192.0.2.1", "a", "bad"),
    ("4294967295", "4294967296", "bad"),
    ("4294967295", "0", "bad"),
    ("4294967295", "01", "bad"),
    ("--turns 7", "--turns 0", "bad"),
    ("--turns 7", "--turns 4294967296", "bad"),
    ("--notice 6", "--notice 0", "bad"),
    ("--control 65535", "--control 65536", "bad"),
    ("--control 65535", "--control +5", "bad"),
    ("--notice 6", "--notice 6 --notice 6", "bad"),
];

const OPTIONS: [&str; 9] = [
    " --address 192.0.2.1",
    " --seq-last 4294967295",
    " --inside 1",
    " --inside-to 2",
    " --outside 3",
    " --outside-to 4",
    " --control 65535",
    " --notice 6",
    " --turns 7",
];

#[test]
fn a_gateway_has_each_of_its_values(rt: HostRuntime) -> Result<(), Fail> {
    let alloc = rt.alloc();
    let words = words_of(alloc, GATEWAY)?;
    let read = read_gateway_words(alloc, words.as_slice());
    let wanted = GatewayWords {
        config: Config {
            address: Addr::V4([192, 0, 2, 1]),
            seq_last: 4_294_967_295,
        },
        inside: 1,
        inside_to: 2,
        outside: 3,
        outside_to: 4,
        control: 65_535,
        notice: 6,
        turns: 7,
    };
    assert!(rt; matches!(read, Ok(read) if read == wanted));
    Ok(())
}

#[test]
fn a_gateway_wants_each_value_in_its_range(rt: HostRuntime) -> Result<(), Fail> {
    let alloc = rt.alloc();
    for (old, new, wanted) in &GATEWAY_CHANGES {
        let text = GATEWAY.replace(alloc, old, new)?;
        assert_eq!(rt; judged(alloc, text.as_str())?, *wanted);
    }
    Ok(())
}

#[test]
fn a_gateway_wants_each_option(rt: HostRuntime) -> Result<(), Fail> {
    let alloc = rt.alloc();
    for option in &OPTIONS {
        let text = GATEWAY.replace(alloc, option, "")?;
        assert_eq!(rt; judged(alloc, text.as_str())?, "bad");
    }
    Ok(())
}

const BAD_GATEWAYS: &str = "\
gateway\n\
gateways --address 192.0.2.1 --seq-last 1 --inside 1 --inside-to 2 --outside 3 --outside-to 4 --control 5 --notice 6 --turns 7\n\
gateway --address 192.0.2.1 --seq-last 1 --inside 1 --inside-to 2 --outside 3 --outside-to 4 --control 5 --notice 6 --turns 7 8\n\
gateway --address --seq-last 1 --inside 1 --inside-to 2 --outside 3 --outside-to 4 --control 5 --notice 6 --turns 7\n\
gateway --help";

const GOOD_CONTROLLERS: &str = "\
controller --commands 1 --turns 2 a=192.0.2.1=3=4\n\
controller --turns 2 --commands 1 a=192.0.2.1=3=4 b=192.0.2.2=3=4\n\
controller a=2001:db8::1=3=4 b=2001:db8::2=5=6 --commands 1 --turns 2\n\
controller --commands 1 --turns 2 a=0.0.0.1=1=1 b=0.0.0.2=1=1 c=0.0.0.3=1=1 d=0.0.0.4=1=1 e=0.0.0.5=1=1 f=0.0.0.6=1=1 g=0.0.0.7=1=1 \
h=0.0.0.8=1=1 i=0.0.0.9=1=1 j=0.0.0.10=1=1 k=0.0.0.11=1=1 l=0.0.0.12=1=1 m=0.0.0.13=1=1 n=0.0.0.14=1=1 o=0.0.0.15=1=1 p=0.0.0.16=1=1";

const BAD_CONTROLLERS: &str = "\
controller --commands 1 --turns 2\n\
controller --commands 1 a=192.0.2.1=3=4\n\
controller --turns 2 a=192.0.2.1=3=4\n\
controller --commands 0 --turns 2 a=192.0.2.1=3=4\n\
controller --commands 1 --turns 0 a=192.0.2.1=3=4\n\
controller --commands 1 --commands 1 --turns 2 a=192.0.2.1=3=4\n\
controller --commands 1 --turns 2 a=192.0.2.1=3=4 a=192.0.2.2=3=4\n\
controller --commands 1 --turns 2 a=192.0.2.1=3=4 b=192.0.2.1=5=6\n\
controller --commands 1 --turns 2 a=192.0.2.1=3=4 b=2001:db8::2=5=6\n\
controller --commands 1 --turns 2 a=192.0.2.1=3\n\
controller --commands 1 --turns 2 a=192.0.2.1=3=4=5\n\
controller --commands 1 --turns 2 a=192.0.2.1=0=4\n\
controller --commands 1 --turns 2 a=192.0.2.1=3=65536\n\
controller --commands 1 --turns 2 A=192.0.2.1=3=4\n\
controller --commands 1 --turns 2 =192.0.2.1=3=4\n\
controller --commands 1 --turns 2 a=192.0.2=3=4\n\
controller --commands 1 a=192.0.2.1=3=4 --turns 2 b=192.0.2.2=3=4\n\
controller --commands 1 --turns 2 a=0.0.0.1=1=1 b=0.0.0.2=1=1 c=0.0.0.3=1=1 d=0.0.0.4=1=1 e=0.0.0.5=1=1 f=0.0.0.6=1=1 g=0.0.0.7=1=1 \
h=0.0.0.8=1=1 i=0.0.0.9=1=1 j=0.0.0.10=1=1 k=0.0.0.11=1=1 l=0.0.0.12=1=1 m=0.0.0.13=1=1 n=0.0.0.14=1=1 o=0.0.0.15=1=1 p=0.0.0.16=1=1 \
q=0.0.0.17=1=1\n\
controller";

const GOOD_CLIENTS: &str = "\
client --port 1 --turns 2 end 7\n\
client --turns 2 --port 1 rekey 18446744073709551615\n\
client --port 1 --turns 2 keys 000102030405060708090a0b0c0d0e0fa0a1a2a3\n\
client --port 1 --turns 2 keys -\n\
client --port 1 --turns 2 policy a\n\
client --port 1 --turns 2 policy a p1,out,1,bypass,10.1.0.0/16,10.2.0.0/16,any,any,any\n\
client --port 1 --turns 2 tunnel 10 now a b 10.1.0.0/16 10.2.0.0/16 64 0/0/0/0 600/0/0/0\n\
client --port 1 --turns 2 -- end 7";

const BAD_CLIENTS: &str = "\
client --port 1 --turns 2\n\
client --port 1 end 7\n\
client --turns 2 end 7\n\
client --port 0 --turns 2 end 7\n\
client --port 1 --turns 4294967296 end 7\n\
client --port 1 --turns 2 end 18446744073709551616\n\
client --port 1 --turns 2 end 7 8\n\
client --port 1 --turns 2 end 7 --port 1\n\
client --port 1 --turns 2 now 7\n\
client --port 1 --turns 2 open a\n\
client --port 1 --turns 2 keys 0\n\
client --port 1 --turns 2 policy A\n\
client --port 1 --turns 2 policy a p1,out,1,bypass\n\
client --port 1 --turns 2 tunnel 10 later a b 10.1.0.0/16 10.2.0.0/16 64 0/0/0/0 600/0/0/0\n\
client";

const BAD_DRILLS: &str = "\
drill\n\
drill x\n\
drill 1 2\n\
drill -1\n\
drill 01\n\
drill 18446744073709551616\n\
drill --help\n\
replay 1";

#[test]
fn words_are_those_of_a_command_or_not(rt: HostRuntime) -> Result<(), Fail> {
    let alloc = rt.alloc();
    each_is(&rt, alloc, BAD_GATEWAYS, "bad")?;
    each_is(&rt, alloc, GOOD_CONTROLLERS, "read")?;
    each_is(&rt, alloc, BAD_CONTROLLERS, "bad")?;
    each_is(&rt, alloc, GOOD_CLIENTS, "read")?;
    each_is(&rt, alloc, BAD_CLIENTS, "bad")?;
    each_is(
        &rt,
        alloc,
        "drill 0\ndrill 18446744073709551615\ndrill -- 5",
        "read",
    )?;
    each_is(&rt, alloc, BAD_DRILLS, "bad")?;
    Ok(())
}

#[test]
fn a_word_with_a_space_is_no_word_of_a_command(rt: HostRuntime) -> Result<(), Fail> {
    let alloc = rt.alloc();
    let mut words = words_of(alloc, "client --port 1 --turns 2 end")?;
    words.push(String::from_str(alloc, "7 ")?)?;
    assert_eq!(rt; said(read_client_words(alloc, words.as_slice())), "bad");
    let mut words = words_of(alloc, "client --port 1 --turns 2")?;
    words.push(String::from_str(alloc, "end 7")?)?;
    assert_eq!(rt; said(read_client_words(alloc, words.as_slice())), "bad");
    Ok(())
}

#[test]
fn a_controller_has_its_gateways_with_their_ports(rt: HostRuntime) -> Result<(), Fail> {
    let alloc = rt.alloc();
    let words = words_of(
        alloc,
        "controller --commands 9 --turns 8 a=192.0.2.1=3=4 b2=192.0.2.2=5=6",
    )?;
    let Ok(read) = read_controller_words(alloc, words.as_slice()) else {
        return Err(NoMemory.into());
    };
    assert_eq!(rt; (read.commands, read.turns), (9, 8));
    let links = [
        Link {
            control: 3,
            notice: 4,
        },
        Link {
            control: 5,
            notice: 6,
        },
    ];
    assert_eq!(rt; read.links.as_slice(), links.as_slice());
    let [a, b] = read.peers.as_slice() else {
        return Err(NoMemory.into());
    };
    assert_eq!(rt; a.name.as_slice(), b"a".as_slice());
    assert_eq!(rt; a.address, Addr::V4([192, 0, 2, 1]));
    assert_eq!(rt; b.name.as_slice(), b"b2".as_slice());
    assert_eq!(rt; b.address, Addr::V4([192, 0, 2, 2]));
    Ok(())
}

#[test]
fn a_client_has_its_command(rt: HostRuntime) -> Result<(), Fail> {
    let alloc = rt.alloc();
    let words = words_of(
        alloc,
        "client --port 9 --turns 8 policy a p1,in,1,discard,10.1.0.0/16,10.2.0.0/16,any,any,any",
    )?;
    let Ok(read) = read_client_words(alloc, words.as_slice()) else {
        return Err(NoMemory.into());
    };
    assert_eq!(rt; (read.port, read.turns), (9, 8));
    let Command::Policy { gateway, list } = read.command else {
        return Err(NoMemory.into());
    };
    assert_eq!(rt; gateway.as_slice(), b"a".as_slice());
    let [entry] = list.as_slice() else {
        return Err(NoMemory.into());
    };
    assert_eq!(rt; entry.name.as_slice(), b"p1".as_slice());
    assert_eq!(rt; entry.direction, Direction::In);
    Ok(())
}
