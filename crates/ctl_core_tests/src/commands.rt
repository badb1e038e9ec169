// Commands, and the first reason for which each is refused.
use crate::run::Run;
use std::test::Fail;

const REASONS: &str = "\
keys 1\n\
keys 1\n\
refused key-seen\n\
keys 1 salt 2\n\
refused key-seen\n\
keys zeros 28\n\
refused key-length\n\
keys zeros 0\n\
refused key-length\n\
keys zeros 4\n\
refused key-length\n\
keys zeros 16\n\
refused key-length\n\
keys zeros 19\n\
refused key-length\n\
keys zeros 21\n\
refused key-length\n\
keys zeros 32\n\
refused key-length\n\
keys zeros 35\n\
refused key-length\n\
keys zeros 37\n\
refused key-length\n\
keys long 1\n\
keys long 1\n\
refused key-seen\n\
keys zeros 36\n\
keys zeros 20\n\
keys zeros 20\n\
refused key-seen\n\
rekey 9\n\
refused no-tunnel\n\
end 9\n\
refused no-tunnel\n\
tunnel 10 now a a\n\
refused same-gateway\n\
tunnel 10 now z z\n\
refused unknown-gateway\n\
tunnel 10 now z a\n\
refused unknown-gateway\n\
tunnel 10 acquire a b\n\
tunnel 10 now a b\n\
refused tunnel-exists\n\
tunnel 10 now c b\n\
refused tunnel-exists\n\
tunnel 10 now c c\n\
refused same-gateway\n\
tunnel 10 now c z\n\
refused unknown-gateway\n\
policy z\n\
refused unknown-gateway\n\
policy aa o1 10\n\
refused unknown-gateway\n\
policy a o1 10\n\
end 10\n\
end 10\n\
refused no-tunnel\n\
rekey 10\n\
refused no-tunnel\n\
tunnel 10 acquire b c\n\
rekey 10\n\
";

// The newest list is the one that a session gets.
const LISTS: &str = "\
opened a\n\
order a read\n\
policy a\n\
order a policy\n\
expects a: read\n\
policy a o1 10 o2 20\n\
order a policy o1 10 o2 20\n\
answered a 200\n\
expects a: policy\n\
cut a\n\
policy a o3 30\n\
policy a o4 40\n\
opened a\n\
order a read\n\
order a policy o4 40\n\
policy a o4 40\n\
order a policy o4 40\n\
opened b\n\
order b read\n\
opened b\n\
cut b\n\
cut b\n\
";

// Keys are taken in the order in which they were accepted, each once.
const KEYS_IN_TURN: &str = "\
keys 7\n\
keys 7 salt 5\n\
refused key-seen\n\
keys 5 salt 6\n\
keys long 3\n\
tunnel 10 now a b\n\
opened a\n\
order a read\n\
opened b\n\
order b read\n\
answered a 200\n\
answered b 200\n\
order b put in/1 k7\n\
order a put in/2 k5/6\n\
answered b 201\n\
order a put out/1 k7\n\
answered a 201\n\
order b put out/2 k5/6\n\
answered a 201\n\
answered b 201\n\
rekey 10\n\
order b put in/3 k3\n\
answered b 201\n\
order a put out/3 k3\n\
keys 1\n\
order a put in/4 k1\n\
";

// An acquire before the tunnel's command is no cause, and one in the other gateway's list is none for this direction.
const ACQUIRES: &str = "\
keys 1\n\
keys 2\n\
keys 3\n\
policy a o1 10 o2 20 o1 30\n\
opened a\n\
order a read\n\
order a policy o1 10 o2 20 o1 30\n\
opened b\n\
order b read\n\
answered a 200\n\
answered a 204\n\
answered b 200\n\
heard a acquire o1\n\
tunnel 10 acquire a b\n\
heard a acquire o2\n\
heard b acquire o1\n\
heard a acquire o1\n\
order b put in/1 k1\n\
heard a acquire o1\n\
answered b 201\n\
order a put out/1 k1\n\
heard a acquire o1\n\
answered a 201\n\
tunnel 30 acquire a b\n\
heard a acquire o1\n\
order b put in/2 k2\n\
order b put in/3 k3\n\
";

#[test]
fn commands_are_refused_for_the_first_reason(rt: HostRuntime) -> Result<(), Fail> {
    let fault = Run::new(rt.alloc())?.follow(REASONS)?;
    assert!(rt; fault == "", "{fault}");
    Ok(())
}

#[test]
fn a_session_gets_the_newest_list(rt: HostRuntime) -> Result<(), Fail> {
    let fault = Run::new(rt.alloc())?.follow(LISTS)?;
    assert!(rt; fault == "", "{fault}");
    Ok(())
}

#[test]
fn keys_are_taken_in_turn(rt: HostRuntime) -> Result<(), Fail> {
    let fault = Run::new(rt.alloc())?.follow(KEYS_IN_TURN)?;
    assert!(rt; fault == "", "{fault}");
    Ok(())
}

#[test]
fn an_acquire_asks_for_keys(rt: HostRuntime) -> Result<(), Fail> {
    let fault = Run::new(rt.alloc())?.follow(ACQUIRES)?;
    assert!(rt; fault == "", "{fault}");
    Ok(())
}

// What a transcript says wrongly is found.
#[test]
fn the_first_line_that_does_not_hold_is_told(rt: HostRuntime) -> Result<(), Fail> {
    for (text, want) in [
        ("opened a\norder a remove in/1\n", "order a remove in/1"),
        ("end 9\n", "more acts"),
        ("end 9\nend 9\nrefused no-tunnel\n", "end 9"),
        ("opened a\norder a read\nexpects a: -\n", "expects a: -"),
        ("opens a\n", "opens a"),
    ] {
        let fault = Run::new(rt.alloc())?.follow(text)?;
        assert_eq!(rt; fault, want);
    }
    Ok(())
}
