// Wires over UDP.
use crate::ports::two_udp_ports;
use ikl_base::Failed;
use live_devices::Wire;
use live_sockets::{Activity, UdpWire, Watch};
use std::test::Fail;
use std::thread;
use std::time::{Clock, Duration};

const TRIES: u32 = 200;

// The next datagram, where one comes within a second.
fn arrival<R: Clock, W: Wire>(
    clock: &R,
    wire: &mut W,
    into: &mut [u8],
) -> Result<Option<usize>, Failed> {
    for _ in 0..TRIES {
        if let Some(n) = wire.recv(into)? {
            return Ok(Some(n));
        }
        thread::sleep(clock, Duration::from_millis(5));
    }
    Ok(None)
}

#[test]
fn datagrams_come_whole_or_by_their_first_octets(rt: HostRuntime) -> Result<(), Fail> {
    let (here, there) = two_udp_ports(&rt)?;
    let activity = Activity::new();
    let watch = Watch::without_dock(&activity);
    let mut near = UdpWire::new(&rt, here, there, &watch)?;
    let mut far = UdpWire::new(&rt, there, here, &watch)?;
    let mut buf = [0u8; 8];
    assert_eq!(rt; far.recv(&mut buf)?, None);
    for (sent, came) in [("hello", 5), ("", 0), ("thirteen octets", 8)] {
        near.send(sent.as_bytes())?;
        assert_eq!(rt; arrival(&rt, &mut far, &mut buf)?, Some(came));
    }
    assert_eq!(rt; buf, *b"thirteen");
    assert_eq!(rt; far.recv(&mut buf)?, None);
    Ok(())
}

#[test]
fn neighbour_that_is_down_is_no_fault(rt: HostRuntime) -> Result<(), Fail> {
    let (here, there) = two_udp_ports(&rt)?;
    let activity = Activity::new();
    let watch = Watch::without_dock(&activity);
    let mut near = UdpWire::new(&rt, here, there, &watch)?;
    let mut buf = [0u8; 8];
    for _ in 0..3u32 {
        near.send(b"lost")?;
        thread::sleep(&rt, Duration::from_millis(5));
        assert_eq!(rt; near.recv(&mut buf)?, None);
    }
    let mut far = UdpWire::new(&rt, there, here, &watch)?;
    far.send(b"up")?;
    assert_eq!(rt; arrival(&rt, &mut near, &mut buf)?, Some(2));
    Ok(())
}
