// Whole setups, a rekey, cuts and restarts.
use crate::run::Run;
use std::test::Fail;

// Two gateways with a list each, and a tunnel that is keyed at once.
const SETUP: &str = "\
policy a o1 10\n\
policy b o1 10\n\
keys 1\n\
keys 2\n\
tunnel 10 now a b\n\
expects a: -\n\
opened a\n\
order a read\n\
order a policy o1 10\n\
expects a: read\n\
opened b\n\
order b read\n\
order b policy o1 10\n\
answered a 200\n\
expects a: policy o1 10\n\
answered a 204\n\
expects a: -\n\
answered b 200\n\
order b put in/1 k1\n\
order a put in/2 k2\n\
expects a: put in/2 k2\n\
expects b: policy o1 10\n\
answered b 204\n\
expects b: put in/1 k1\n\
";

const BOTH_SENT: &str = "\
answered b 201\n\
order a put out/1 k1\n\
expects b: -\n\
answered a 201\n\
order b put out/2 k2\n\
expects a: put out/1 k1\n\
";

const BOTH_KEYED: &str = "\
answered a 201\n\
answered b 201\n\
expects a: -\n\
expects b: -\n\
";

const REKEY: &str = "\
keys 3\n\
heard b expire in/1 soft\n\
order b put in/3 k3\n\
answered b 201\n\
order a put out/3 k3\n\
answered a 201\n\
order a remove out/1\n\
expects a: remove out/1\n\
answered a 204\n\
order b remove in/1\n\
answered b 204\n\
expects b: -\n\
";

const FOURTH_KEY: &str = "\
keys 3\n\
heard b expire in/1 soft\n\
order b put in/3 k3\n\
heard b expire out/2 soft\n\
keys 4\n\
order a put in/4 k4\n\
";

const CUT_AT_SENDER: &str = "\
keys 3\n\
cut a\n\
expects a: -\n\
opened a\n\
order a read\n\
order a policy o1 10\n\
";

const PUT_WAS_HANDLED: &str = "\
answered a 200 in/2 out/1\n\
order a remove out/1\n\
answered a 204\n\
answered a 204\n\
order b remove in/1\n\
";

const PUT_WAS_LOST: &str = "\
answered a 200 in/2\n\
order a remove out/1\n\
answered a 204\n\
answered a 404\n\
order b remove in/1\n\
";

const KEYED_AGAIN: &str = "\
answered b 201\n\
answered b 204\n\
order b put in/3 k3\n\
";

const RESTART: &str = "\
keys 3\n\
cut b\n\
opened b\n\
order b read\n\
order b policy o1 10\n\
answered b 200\n\
order b put in/3 k3\n\
heard b bad-spi 257\n\
order b read\n\
heard b bad-spi 257\n\
keys 4\n\
order a put in/4 k4\n\
";

const NEVER_ORDERED: &str = "\
cut b\n\
opened b\n\
order b read\n\
order b policy o1 10\n\
answered b 200\n\
order b remove in/1\n\
answered b 204\n\
answered b 404\n\
keys 3\n\
order b put in/3 k3\n\
";

#[test]
fn a_tunnel_is_keyed_both_ways(rt: HostRuntime) -> Result<(), Fail> {
    let mut run = Run::new(rt.alloc())?;
    for text in [SETUP, BOTH_SENT, BOTH_KEYED] {
        let fault = run.follow(text)?;
        assert!(rt; fault == "", "{fault}");
    }
    Ok(())
}

#[test]
fn a_soft_expiry_brings_a_new_key(rt: HostRuntime) -> Result<(), Fail> {
    let mut run = Run::new(rt.alloc())?;
    for text in [SETUP, BOTH_SENT, BOTH_KEYED, REKEY] {
        let fault = run.follow(text)?;
        assert!(rt; fault == "", "{fault}");
    }
    Ok(())
}

#[test]
fn a_direction_waits_for_a_key(rt: HostRuntime) -> Result<(), Fail> {
    let mut run = Run::new(rt.alloc())?;
    for text in [SETUP, BOTH_SENT, BOTH_KEYED, FOURTH_KEY] {
        let fault = run.follow(text)?;
        assert!(rt; fault == "", "{fault}");
    }
    Ok(())
}

#[test]
fn a_cut_gives_up_a_put(rt: HostRuntime) -> Result<(), Fail> {
    for shown in [PUT_WAS_HANDLED, PUT_WAS_LOST] {
        let mut run = Run::new(rt.alloc())?;
        for text in [SETUP, BOTH_SENT, CUT_AT_SENDER, shown, KEYED_AGAIN] {
            let fault = run.follow(text)?;
            assert!(rt; fault == "", "{fault}");
        }
    }
    Ok(())
}

#[test]
fn a_restart_brings_new_keys(rt: HostRuntime) -> Result<(), Fail> {
    let mut run = Run::new(rt.alloc())?;
    for text in [SETUP, BOTH_SENT, BOTH_KEYED, RESTART] {
        let fault = run.follow(text)?;
        assert!(rt; fault == "", "{fault}");
    }
    Ok(())
}

#[test]
fn a_half_that_was_never_put_is_removed(rt: HostRuntime) -> Result<(), Fail> {
    let mut run = Run::new(rt.alloc())?;
    for text in [SETUP, NEVER_ORDERED] {
        let fault = run.follow(text)?;
        assert!(rt; fault == "", "{fault}");
    }
    Ok(())
}

// Commands that are refused whatever a and b were told of a tunnel 10.
const REFUSED: &str = "\
end 99\n\
refused no-tunnel\n\
rekey 99\n\
refused no-tunnel\n\
policy z o9 9\n\
refused unknown-gateway\n\
tunnel 99 now a z\n\
refused unknown-gateway\n\
tunnel 99 now z z\n\
refused unknown-gateway\n\
tunnel 10 now b b\n\
refused same-gateway\n\
keys zeros 28\n\
refused key-length\n\
";

// What fits nothing that a controller keeps.
const FITS_NOTHING: &str = "\
opened z\n\
cut z\n\
cut c\n\
answered z 201\n\
answered c 200 in/1 out/1\n\
heard z expire in/1 soft\n\
heard z bad-spi 257\n\
heard c acquire o1\n\
heard a acquire o9\n\
heard a acquire in/1\n\
heard a expire in/1 soft\n\
heard a expire out/2 hard\n\
heard b expire out/1 hard\n\
heard b overflow in/2\n\
heard a expire in/9 soft\n\
heard a overflow out/9\n\
heard a expire in/01 soft\n\
heard b overflow out/4294967298\n\
heard a expire o1 soft\n\
expects z: -\n\
expects c: -\n\
";

#[test]
fn refused_commands_change_nothing(rt: HostRuntime) -> Result<(), Fail> {
    for last in [REKEY, FOURTH_KEY, RESTART] {
        let mut run = Run::new(rt.alloc())?;
        for text in [SETUP, BOTH_SENT, BOTH_KEYED, last] {
            let fault = run.follow_among(text, REFUSED)?;
            assert!(rt; fault == "", "{fault}");
        }
    }
    Ok(())
}

#[test]
fn what_fits_nothing_changes_nothing(rt: HostRuntime) -> Result<(), Fail> {
    for last in [REKEY, FOURTH_KEY, RESTART] {
        let mut run = Run::new(rt.alloc())?;
        for text in [SETUP, BOTH_SENT, BOTH_KEYED, last] {
            let fault = run.follow_among(text, FITS_NOTHING)?;
            assert!(rt; fault == "", "{fault}");
        }
    }
    Ok(())
}
