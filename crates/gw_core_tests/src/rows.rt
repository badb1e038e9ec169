// Transcripts worked by another program, played at one of their gateways.
use crate::player::first_wrong;
use crate::transcripts::{
    ACQUIRED, BEGUN_A, BEGUN_B, CHANGED_ON_THE_WAY, GIVEN, HANDLED_AFTER_A_CUT, HOPPED,
    LOST_IN_A_CUT, MALFORMED, NEW_SESSION_A, NEW_SESSION_B, ONE_LIST, REKEYED_A, REKEYED_B,
    RESTARTED, RESTARTED_AND_TOLD_AGAIN, SENT, SETUP_A, SETUP_B, THREE_NUMBERS,
};
use gw_core::Config;
use ikl_base::Addr;
use std::test::Fail;

const A: Config = Config {
    address: Addr::V4([192, 0, 2, 1]),
    seq_last: 4_294_967_295,
};

const B: Config = Config {
    address: Addr::V4([198, 51, 100, 1]),
    seq_last: 4_294_967_295,
};

const A_OF_THREE: Config = Config {
    address: Addr::V4([192, 0, 2, 1]),
    seq_last: 3,
};

#[test]
fn the_list_in_force_decides(rt: HostRuntime) -> Result<(), Fail> {
    let alloc = rt.alloc();
    assert_eq!(rt; first_wrong(alloc, A, &[ONE_LIST])?, 0);
    assert_eq!(rt; first_wrong(alloc, A, &[RESTARTED])?, 0);
    assert_eq!(rt; first_wrong(alloc, A, &[ACQUIRED])?, 0);
    Ok(())
}

#[test]
fn a_packet_goes_through_a_tunnel(rt: HostRuntime) -> Result<(), Fail> {
    let alloc = rt.alloc();
    assert_eq!(rt; first_wrong(alloc, A, &[SETUP_A, SENT])?, 0);
    assert_eq!(rt; first_wrong(alloc, B, &[SETUP_B, GIVEN])?, 0);
    Ok(())
}

#[test]
fn what_happens_on_the_way_is_seen(rt: HostRuntime) -> Result<(), Fail> {
    let alloc = rt.alloc();
    assert_eq!(rt; first_wrong(alloc, B, &[SETUP_B, CHANGED_ON_THE_WAY])?, 0);
    assert_eq!(rt; first_wrong(alloc, B, &[SETUP_B, HOPPED])?, 0);
    assert_eq!(rt; first_wrong(alloc, B, &[SETUP_B, MALFORMED])?, 0);
    Ok(())
}

#[test]
fn a_tunnel_is_rekeyed(rt: HostRuntime) -> Result<(), Fail> {
    let alloc = rt.alloc();
    assert_eq!(rt; first_wrong(alloc, A, &[SETUP_A, REKEYED_A])?, 0);
    assert_eq!(rt; first_wrong(alloc, B, &[SETUP_B, REKEYED_B])?, 0);
    Ok(())
}

#[test]
fn a_new_session_drops_the_old_one(rt: HostRuntime) -> Result<(), Fail> {
    let alloc = rt.alloc();
    assert_eq!(rt; first_wrong(alloc, A, &[SETUP_A, NEW_SESSION_A])?, 0);
    assert_eq!(rt; first_wrong(alloc, B, &[BEGUN_B, NEW_SESSION_B])?, 0);
    assert_eq!(rt; first_wrong(alloc, A, &[BEGUN_A, HANDLED_AFTER_A_CUT])?, 0);
    assert_eq!(rt; first_wrong(alloc, A, &[BEGUN_A, LOST_IN_A_CUT])?, 0);
    Ok(())
}

#[test]
fn a_restart_and_the_last_number_are_told(rt: HostRuntime) -> Result<(), Fail> {
    let alloc = rt.alloc();
    assert_eq!(rt;
        first_wrong(alloc, B, &[SETUP_B, RESTARTED_AND_TOLD_AGAIN])?,
        0
    );
    assert_eq!(rt;
        first_wrong(alloc, A_OF_THREE, &[SETUP_A, THREE_NUMBERS])?,
        0
    );
    Ok(())
}

#[test]
fn a_transcript_of_another_gateway_is_not_met(rt: HostRuntime) -> Result<(), Fail> {
    let alloc = rt.alloc();
    assert_eq!(rt;
        first_wrong(alloc, A_OF_THREE, &[SETUP_A, SENT, CHANGED_ON_THE_WAY])?,
        16
    );
    Ok(())
}
