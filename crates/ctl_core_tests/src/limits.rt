// At most 1,024 tunnels, and at most 1,048,576 keys.
use crate::keys::key;
use crate::run::Run;
use crate::words::tunnel;
use ctl_core::CtlEvent;
use ikeless_tree::Command;
use ikl_base::NoMemory;
use std::alloc::Global;
use std::test::Fail;

// Commands tunnels of these `reqid`s that wait for a packet, and gives the first that does anything.
fn tunnels(run: &mut Run, alloc: Global, first: u64, last: u64) -> Result<Option<u64>, NoMemory> {
    for reqid in first..=last {
        let command = tunnel(alloc, reqid, false, b"a", b"b")?;
        run.tell(CtlEvent::Command(command))?;
        if !run.is_through() {
            return Ok(Some(reqid));
        }
    }
    Ok(None)
}

const FIRST_KEYED: &str = "\
keys 1\n\
keys 2\n\
opened a\n\
order a read\n\
opened b\n\
order b read\n\
answered a 200\n\
answered b 200\n\
tunnel 1 now a b\n\
order b put in/1 k1\n\
order a put in/2 k2\n\
answered b 201\n\
order a put out/1 k1\n\
";

// An ended tunnel counts while an association of it is left.
const AT_THE_LIMIT: &str = "\
tunnel 1025 acquire a b\n\
refused tunnel-limit\n\
tunnel 1025 now a a\n\
refused same-gateway\n\
tunnel 1024 now a b\n\
refused tunnel-exists\n\
end 1\n\
tunnel 1025 acquire a b\n\
refused tunnel-limit\n\
answered a 201\n\
order a remove in/2\n\
answered a 201\n\
order a remove out/1\n\
answered a 204\n\
tunnel 1 acquire a b\n\
refused tunnel-limit\n\
answered a 204\n\
order b remove in/1\n\
tunnel 1025 acquire a b\n\
refused tunnel-limit\n\
answered b 204\n\
tunnel 1025 acquire a b\n\
tunnel 1026 acquire a b\n\
refused tunnel-limit\n\
end 7\n\
tunnel 7 acquire b a\n\
tunnel 1026 acquire a b\n\
refused tunnel-limit\n\
";

#[test]
fn there_are_at_most_1024_tunnels(rt: HostRuntime) -> Result<(), Fail> {
    let mut run = Run::new(rt.alloc())?;
    let keyed = run.follow(FIRST_KEYED)?;
    assert!(rt; keyed == "", "{keyed}");
    let stopped = tunnels(&mut run, rt.alloc(), 2, 1024)?;
    assert_eq!(rt; stopped, None);
    let fault = run.follow(AT_THE_LIMIT)?;
    assert!(rt; fault == "", "{fault}");
    Ok(())
}

// Gives keys of these numbers, and gives the first that is refused.
fn keys(run: &mut Run, alloc: Global, first: u32, last: u32) -> Result<Option<u32>, NoMemory> {
    for number in first..last {
        run.tell(CtlEvent::Command(Command::Keys(key(alloc, number, 0, false)?)))?;
        if !run.is_through() {
            return Ok(Some(number));
        }
    }
    Ok(None)
}

const AT_THE_LAST_KEY: &str = "\
keys 0 salt 9\n\
refused key-seen\n\
keys zeros 21\n\
refused key-length\n\
keys 1048576\n\
refused key-limit\n\
keys long 7\n\
refused key-limit\n\
keys 1048575 salt 1\n\
refused key-seen\n\
";

#[test]
fn there_are_at_most_1048576_keys(rt: HostRuntime) -> Result<(), Fail> {
    let mut run = Run::new(rt.alloc())?;
    let early = keys(&mut run, rt.alloc(), 0, 1048576)?;
    assert_eq!(rt; early, None);
    let fault = run.follow(AT_THE_LAST_KEY)?;
    assert!(rt; fault == "", "{fault}");
    Ok(())
}
