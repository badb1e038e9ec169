// A notice that is written, heard in pieces, and lines that are none.
use ikeless_tree::{Limits, Notice};
use ikl_base::{Name, NoMemory, Octets, OrMemory};
use notice_lines::{Heard, LineReader, NoticeFault, write_notice};
use std::alloc::Global;
use std::test::Fail;

const EXPIRY: &str =
    "{\"ietf-restconf:notification\":{\"eventTime\":\"1970-01-01T01:00:00Z\",\"ietf-i2nsf-ikeless:sadb-expire\":{\"ipsec-sa-name\":\"out/1\",\"lifetime-current\":{\"bytes\":\"88\",\"idle\":3600,\"packets\":1,\"time\":3600},\"soft-lifetime-expire\":true}}}\n";

const NO_NOTICES: [&str; 16] = [
    "{}\n",
    "\n",
    "[]\n",
    "{\"ietf-restconf:notification\":{}}\n",
    "{\"ietf-restconf:notification\":{\"ietf-i2nsf-ikeless:sadb-bad-spi\":{\"spi\":1}}}\n",
    "{\"ietf-restconf:notification\":{\"eventTime\":1,\"ietf-i2nsf-ikeless:sadb-bad-spi\":{\"spi\":1}}}\n",
    "{\"ietf-restconf:notification\":{\"eventTime\":\"\",\"ietf-i2nsf-ikeless:sadb-bad-spi\":{}}}\n",
    "{\"ietf-restconf:notification\":{\"eventTime\":\"\",\"ietf-i2nsf-ikeless:sadb-bad-spi\":{\"spi\":\"1\"}}}\n",
    "{\"ietf-restconf:notification\":{\"eventTime\":\"\",\"ietf-i2nsf-ikeless:sadb-bad-spi\":{\"spi\":4294967296}}}\n",
    "{\"ietf-restconf:notification\":{\"eventTime\":\"\",\"ietf-i2nsf-ikeless:sadb-bad-spi\":{\"spi\":1,\"spj\":1}}}\n",
    "{\"ietf-restconf:notification\":{\"eventTime\":\"\",\"ietf-i2nsf-ikeless:sadb-bad-spi\":{\"spi\":1},\"ietf-i2nsf-ikeless:sadb-seq-overflow\":{\"ipsec-sa-name\":\"in/1\"}}}\n",
    "{\"ietf-restconf:notification\":{\"eventTime\":\"\",\"ietf-i2nsf-ikeless:sadb-seq-overflow\":{\"ipsec-sa-name\":\"up/1\"}}}\n",
    "{\"ietf-restconf:notification\":{\"eventTime\":\"\",\"ietf-i2nsf-ikeless:sadb-expire\":{\"ipsec-sa-name\":\"in/1\",\"soft-lifetime-expire\":true}}}\n",
    "{\"ietf-restconf:notification\":{\"eventTime\":\"\",\"ietf-i2nsf-ikeless:sadb-expire\":{\"ipsec-sa-name\":\"in/1\",\"lifetime-current\":{\"bytes\":\"88\",\"idle\":3600,\"packets\":1},\"soft-lifetime-expire\":true}}}\n",
    "{\"ietf-restconf:notification\":{\"eventTime\":\"\",\"ietf-i2nsf-ikeless:sadb-acquire\":{\"ipsec-policy-name\":\"o1\",\"traffic-selector\":{\"local-ports\":[{\"end\":1,\"start\":2}],\"local-prefix\":\"10.1.0.0/16\",\"remote-prefix\":\"10.2.0.0/16\"}}}}\n",
    "{\"ietf-restconf:notification\":{\"eventTime\":\"\",\"ietf-i2nsf-ikeless:sadb-acquire\":{\"ipsec-policy-name\":\"o1\"}}}\n",
];

const NOTICES: [&str; 3] = [
    "{\"ietf-restconf:notification\":{\"eventTime\":\"\",\"ietf-i2nsf-ikeless:sadb-bad-spi\":{\"spi\":1,\"spi\":2}}}\n",
    " { \"ietf-restconf:notification\" : { \"ietf-i2nsf-ikeless:sadb-seq-overflow\" : { \"ipsec-sa-name\" : \"in/1\" } , \"eventTime\" : \"now\" } } \n",
    "{\"ietf-restconf:notification\":{\"eventTime\":\"\",\"ietf-i2nsf-ikeless:sadb-acquire\":{\"ipsec-policy-name\":\"o1\",\"traffic-selector\":{\"local-ports\":[{\"end\":2,\"start\":2}],\"local-prefix\":\"10.1.0.0/16\",\"remote-prefix\":\"10.2.0.0/16\"}}}}\n",
];

fn written(alloc: Global) -> Result<Octets, NoMemory> {
    let name = Name::from_slice(alloc, b"out/1")?;
    if !ikeless_tree::names_half(name.as_slice()) {
        return Ok(Octets::new(alloc));
    }
    let notice = Notice::Expire {
        name,
        soft: true,
        current: Limits {
            time: 3600,
            bytes: 88,
            packets: 1,
            idle: 3600,
        },
    };
    write_notice(alloc, &notice, 3600)
}

fn is_expiry(notice: &Notice) -> bool {
    match notice {
        Notice::Expire {
            name,
            soft,
            current,
        } => {
            name.as_slice() == b"out/1".as_slice()
                && *soft
                && current.bytes == 88
                && current.idle == 3600
                && current.packets == 1
                && current.time == 3600
        }
        _ => false,
    }
}

// What a piece brings, in a word.
fn told(reader: &mut LineReader, piece: &[u8]) -> Result<&'static str, NoMemory> {
    match reader.feed(piece) {
        Ok(Heard::NoneYet) => Ok("none yet"),
        Ok(Heard::Line { notice, .. }) => {
            if is_expiry(&notice) {
                Ok("the expiry")
            } else {
                Ok("a notice")
            }
        }
        Err(OrMemory::Refused(NoticeFault::LineTooLong)) => Ok("too long"),
        Err(OrMemory::Refused(NoticeFault::NotNotice)) => Ok("no notice"),
        Err(OrMemory::NoMemory) => Err(NoMemory),
    }
}

fn told_line(alloc: Global, line: &str) -> Result<&'static str, NoMemory> {
    told(&mut LineReader::new(alloc), line.as_bytes())
}

#[test]
fn an_expiry_is_written(rt: HostRuntime) -> Result<(), Fail> {
    let line = written(rt.alloc())?;
    assert_eq!(rt; line.as_slice(), EXPIRY.as_bytes());
    Ok(())
}

#[test]
fn an_expiry_is_heard_in_two_pieces(rt: HostRuntime) -> Result<(), Fail> {
    let mut reader = LineReader::new(rt.alloc());
    let (front, rest) = EXPIRY.as_bytes().split_at(100);
    let first = told(&mut reader, front)?;
    let second = told(&mut reader, rest)?;
    assert_eq!(rt; first, "none yet");
    assert_eq!(rt; second, "the expiry");
    Ok(())
}

#[test]
fn other_lines_are_no_notices(rt: HostRuntime) -> Result<(), Fail> {
    for line in NO_NOTICES {
        assert_eq!(rt; told_line(rt.alloc(), line)?, "no notice");
    }
    Ok(())
}

#[test]
fn any_order_and_white_space_is_read(rt: HostRuntime) -> Result<(), Fail> {
    for line in NOTICES {
        assert_eq!(rt; told_line(rt.alloc(), line)?, "a notice");
    }
    Ok(())
}

#[test]
fn a_line_has_4096_octets_at_most(rt: HostRuntime) -> Result<(), Fail> {
    let alloc = rt.alloc();
    let spaces = vec![in alloc; b' '; 4096]?;
    let mut reader = LineReader::new(alloc);
    let first = told(&mut reader, &spaces)?;
    let second = told(&mut reader, b" ")?;
    let third = told(&mut reader, EXPIRY.as_bytes())?;
    assert_eq!(rt; first, "none yet");
    assert_eq!(rt; second, "too long");
    assert_eq!(rt; third, "too long");
    Ok(())
}

// How many notices two lines bring that are cut after so many octets.
fn count(alloc: Global, cut: usize) -> Result<u32, NoMemory> {
    let (front, back) = EXPIRY.as_bytes().split_at(cut.min(EXPIRY.len()));
    let mut reader = LineReader::new(alloc);
    let first = told(&mut reader, front)?;
    let second = told(&mut reader, back)?;
    let third = told(&mut reader, EXPIRY.as_bytes())?;
    let heard = u32::from(first == "the expiry") + u32::from(second == "the expiry");
    Ok(heard + u32::from(third == "the expiry"))
}

#[test]
fn two_lines_are_heard_however_they_are_cut(rt: HostRuntime) -> Result<(), Fail> {
    for cut in 0..EXPIRY.len() {
        assert_eq!(rt; count(rt.alloc(), cut)?, 2);
    }
    Ok(())
}
