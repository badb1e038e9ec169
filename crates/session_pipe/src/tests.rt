// Messages sent, taken and lost with their session.
ghost use Rattle.std.specs.Prelude.{◌≡◌};

use crate::{Lane, Pipe};
use ikl_base::{NoMemory, Octets};
use std::alloc::Global;
use std::test::Fail;

// The next message, or no octets where there is none.
fn next(alloc: Global, pipe: &mut Pipe, lane: Lane) -> Result<Octets, NoMemory>
    ensures { pipe.new.openings ≡ pipe.old.openings }
{
    match pipe.take(lane)? {
        Some(message) => Ok(message),
        None => Ok(Octets::new(alloc)),
    }
}

#[test]
fn a_newer_session_drops_the_requests_of_the_older_one(rt: HostRuntime) -> Result<(), Fail> {
    let alloc = rt.alloc();
    let mut pipe = Pipe::new(alloc);
    let first = pipe.open();
    pipe.push(Lane::Down, b"GET /one")?;
    pipe.push(Lane::Down, b"GET /two")?;
    let cut = pipe.cut();
    let read = next(alloc, &mut pipe, Lane::Down)?;
    let second = pipe.open();
    let dropped = pipe.take(Lane::Down)?;
    assert_eq!(rt; first, Some(1));
    assert!(rt; cut);
    assert_eq!(rt; read.as_slice(), b"GET /one".as_slice());
    assert_eq!(rt; second, Some(2));
    assert!(rt; dropped.is_none());
    assert_eq!(rt; pipe.open(), None);
    Ok(())
}

#[test]
fn a_gateway_that_restarts_loses_its_requests_alone(rt: HostRuntime) -> Result<(), Fail> {
    let alloc = rt.alloc();
    let mut pipe = Pipe::new(alloc);
    let first = pipe.open();
    pipe.push(Lane::Down, b"request")?;
    pipe.push(Lane::Up, b"answer")?;
    pipe.reboot();
    let request = pipe.take(Lane::Down)?;
    let answer = next(alloc, &mut pipe, Lane::Up)?;
    assert_eq!(rt; first, Some(1));
    assert!(rt; request.is_none());
    assert_eq!(rt; answer.as_slice(), b"answer".as_slice());
    assert_eq!(rt; pipe.open(), None);
    assert!(rt; pipe.cut());
    assert!(rt; !pipe.cut());
    Ok(())
}

#[test]
fn a_look_takes_nothing(rt: HostRuntime) -> Result<(), Fail> {
    let alloc = rt.alloc();
    let mut pipe = Pipe::new(alloc);
    pipe.open();
    pipe.push(Lane::Note, b"abc")?;
    pipe.push(Lane::Note, b"defg")?;
    let some = pipe.peek(Lane::Note, 5)?;
    let all = pipe.peek(Lane::Note, 4096)?;
    let message = next(alloc, &mut pipe, Lane::Note)?;
    assert_eq!(rt; some.as_slice(), b"abcde".as_slice());
    assert_eq!(rt; all.as_slice(), b"abcdefg".as_slice());
    assert_eq!(rt; message.as_slice(), b"abc".as_slice());
    Ok(())
}
