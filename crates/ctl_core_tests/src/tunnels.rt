// Several tunnels, ended ones, removals that are lost, and associations given up.
use crate::run::Run;
use std::test::Fail;

const OPEN: &str = "\
opened a\n\
order a read\n\
opened b\n\
order b read\n\
answered a 200\n\
answered b 200\n\
";

// Both directions of a tunnel 10 between a and b keyed with the first two keys.
const KEYED: &str = "\
keys 1\n\
keys 2\n\
tunnel 10 now a b\n\
order b put in/1 k1\n\
order a put in/2 k2\n\
answered b 201\n\
order a put out/1 k1\n\
answered a 201\n\
order b put out/2 k2\n\
answered a 201\n\
answered b 201\n\
";

// Directions get keys in the order of their tunnels' commands.
const TWO_TUNNELS: &str = "\
tunnel 10 now a b\n\
tunnel 20 now b a\n\
tunnel 30 now a b\n\
keys 1\n\
keys 2\n\
keys 3\n\
keys 4\n\
keys 5\n\
opened b\n\
order b read\n\
answered b 200\n\
opened a\n\
order a read\n\
answered a 200\n\
order b put in/1 k1\n\
order a put in/2 k2\n\
order a put in/3 k3\n\
order b put in/4 k4\n\
order b put in/5 k5\n\
expects a: put in/2 k2\n\
expects b: put in/1 k1\n\
keys 6\n\
order a put in/6 k6\n\
answered b 201\n\
order a put out/1 k1\n\
answered a 409\n\
order a remove in/2\n\
answered a 201\n\
order b put out/3 k3\n\
end 20\n\
";

const ONE_OF_TWO_ENDS: &str = "\
keys 3\n\
keys 4\n\
keys 5\n\
tunnel 20 now a b\n\
order b put in/3 k3\n\
order a put in/4 k4\n\
end 10\n\
order a remove out/1\n\
order b remove out/2\n\
rekey 20\n\
answered b 201\n\
order a put out/3 k3\n\
answered a 201\n\
order b put out/4 k4\n\
answered a 204\n\
order b remove in/1\n\
answered a 201\n\
order b put in/5 k5\n\
";

// An ended tunnel's `reqid` is free at once, and what is left of it is removed beside the new tunnel.
const REQID_AGAIN: &str = "\
keys 3\n\
keys 4\n\
end 10\n\
order a remove out/1\n\
order b remove out/2\n\
rekey 10\n\
refused no-tunnel\n\
tunnel 10 now a b\n\
order b put in/3 k3\n\
order a put in/4 k4\n\
answered a 204\n\
order b remove in/1\n\
answered b 204\n\
order a remove in/2\n\
answered a 201\n\
order b put out/4 k4\n\
answered b 201\n\
order a put out/3 k3\n\
answered b 204\n\
answered a 204\n\
answered b 201\n\
answered a 201\n\
heard a acquire o1\n\
end 10\n\
order a remove out/3\n\
order b remove out/4\n\
end 10\n\
refused no-tunnel\n\
";

// A removal that a cut loses is ordered again, whatever a reading shows.
const REMOVALS_LOST: &str = "\
end 10\n\
order a remove out/1\n\
order b remove out/2\n\
cut a\n\
opened a\n\
order a read\n\
answered a 200 in/2\n\
order a remove out/1\n\
answered a 404\n\
order b remove in/1\n\
cut b\n\
expects b: -\n\
opened b\n\
order b read\n\
answered b 200 in/1 out/2\n\
order b remove in/1\n\
order b remove out/2\n\
cut b\n\
opened b\n\
order b read\n\
answered b 200\n\
order b remove in/1\n\
order b remove out/2\n\
answered b 404\n\
answered b 404\n\
order a remove in/2\n\
answered a 204\n\
opened a\n\
cut a\n\
opened a\n\
order a read\n\
answered a 200\n\
";

// A refused put gives up its association and is no cause for another.
const PUT_REFUSED: &str = "\
keys 3\n\
keys 4\n\
rekey 10\n\
order b put in/3 k3\n\
order a put in/4 k4\n\
answered b 409\n\
order b remove in/3\n\
answered b 404\n\
answered a 201\n\
order b put out/4 k4\n\
answered b 409\n\
order b remove out/4\n\
answered b 404\n\
order a remove in/4\n\
answered a 204\n\
rekey 10\n\
keys 5\n\
order b put in/5 k5\n\
answered b 201\n\
order a put out/5 k5\n\
answered a 201\n\
order a remove out/1\n\
";

// The newest association alone is worn out.
const EXPIRIES: &str = "\
keys 3\n\
keys 4\n\
heard a expire out/1 soft\n\
order b put in/3 k3\n\
heard b expire in/1 soft\n\
heard a overflow out/1\n\
answered b 201\n\
order a put out/3 k3\n\
answered a 201\n\
order a remove out/1\n\
heard a expire out/1 hard\n\
answered a 204\n\
order b remove in/1\n\
answered b 204\n\
heard a overflow out/3\n\
order b put in/4 k4\n\
heard a expire in/2 hard\n\
keys 5\n\
order a put in/5 k5\n\
";

// A reading that shows an outbound half no more brings a new key, and so does a cut that loses an inbound put.
const READINGS: &str = "\
keys 3\n\
keys 4\n\
heard a bad-spi 300\n\
order a read\n\
answered a 200 in/2\n\
order b put in/3 k3\n\
cut b\n\
opened b\n\
order b read\n\
answered b 200 in/1 out/2\n\
order b remove in/3\n\
answered b 404\n\
order b put in/4 k4\n\
heard b bad-spi 300\n\
order b read\n\
answered b 201\n\
order a put out/4 k4\n\
answered b 200 in/1 out/2 in/4\n\
answered a 201\n\
order a remove out/1\n\
";

// An inbound half that a reading does not show before its outbound put is ordered gives up its association.
const GIVEN_UP: &str = "\
keys 3\n\
keys 4\n\
keys 5\n\
rekey 10\n\
order b put in/3 k3\n\
order a put in/4 k4\n\
cut a\n\
heard b bad-spi 300\n\
order b read\n\
answered b 201\n\
answered b 200 in/1 out/2\n\
order b remove in/3\n\
answered b 204\n\
opened a\n\
order a read\n\
answered a 200 in/2 out/1 in/4\n\
order b put in/5 k5\n\
order a remove in/4\n\
";

// A direction's gateways must both be read before it gets a put; a removal asks for its own gateway alone.
const ONE_SESSION: &str = "\
keys 3\n\
keys 4\n\
cut a\n\
rekey 10\n\
opened a\n\
order a read\n\
heard b expire in/1 soft\n\
end 10\n\
order b remove out/2\n\
answered b 204\n\
answered a 200 in/2 out/1\n\
order a remove out/1\n\
order a remove in/2\n\
";

fn followed<'a>(run: &mut Run, text: &'a str) -> Result<&'a str, ikl_base::NoMemory> {
    let fault = run.follow(OPEN)?;
    if fault != "" {
        return Ok(fault);
    }
    let early = run.follow(KEYED)?;
    if early != "" {
        return Ok(early);
    }
    run.follow(text)
}

#[test]
fn tunnels_get_keys_in_the_order_of_their_commands(rt: HostRuntime) -> Result<(), Fail> {
    let fault = Run::new(rt.alloc())?.follow(TWO_TUNNELS)?;
    assert!(rt; fault == "", "{fault}");
    Ok(())
}

#[test]
fn a_tunnel_ends_alone(rt: HostRuntime) -> Result<(), Fail> {
    let mut run = Run::new(rt.alloc())?;
    let fault = followed(&mut run, ONE_OF_TWO_ENDS)?;
    assert!(rt; fault == "", "{fault}");
    Ok(())
}

#[test]
fn a_reqid_is_used_again(rt: HostRuntime) -> Result<(), Fail> {
    let mut run = Run::new(rt.alloc())?;
    let fault = followed(&mut run, REQID_AGAIN)?;
    assert!(rt; fault == "", "{fault}");
    Ok(())
}

#[test]
fn a_lost_removal_is_ordered_again(rt: HostRuntime) -> Result<(), Fail> {
    let mut run = Run::new(rt.alloc())?;
    let fault = followed(&mut run, REMOVALS_LOST)?;
    assert!(rt; fault == "", "{fault}");
    Ok(())
}

#[test]
fn associations_are_given_up(rt: HostRuntime) -> Result<(), Fail> {
    for text in [PUT_REFUSED, GIVEN_UP] {
        let mut run = Run::new(rt.alloc())?;
        let fault = followed(&mut run, text)?;
        assert!(rt; fault == "", "{fault}");
    }
    Ok(())
}

#[test]
fn worn_and_missing_halves_bring_new_keys(rt: HostRuntime) -> Result<(), Fail> {
    for text in [EXPIRIES, READINGS, ONE_SESSION] {
        let mut run = Run::new(rt.alloc())?;
        let fault = followed(&mut run, text)?;
        assert!(rt; fault == "", "{fault}");
    }
    Ok(())
}
