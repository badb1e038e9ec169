// Sessions of a controller's dock, each one stream.
use crate::ports::two_tcp_ports;
use crate::scenes::answers_command;
use live_devices::Dock;
use live_sockets::{Activity, TcpDialer, TcpDock};
use std::test::Fail;
use std::time::{Duration, Instant};

#[test]
fn commands_are_answered(rt: HostRuntime) -> Result<(), Fail> {
    let (port, _) = two_tcp_ports(&rt)?;
    let activity = Activity::new();
    let mut dock = TcpDock::of_commands(&rt, rt.alloc(), port, &activity)?;
    let mut client = TcpDialer::of_client(&rt, rt.alloc(), port, &activity)?;
    assert_eq!(rt; answers_command(&mut dock, &mut client), Ok(true));
    Ok(())
}

#[test]
fn idle_dock_waits(rt: HostRuntime) -> Result<(), Fail> {
    let (port, _) = two_tcp_ports(&rt)?;
    let activity = Activity::new();
    let mut dock = TcpDock::of_commands(&rt, rt.alloc(), port, &activity)?;
    let start = Instant::now(&rt)?;
    assert_eq!(rt; dock.accept(), Ok(false));
    assert!(rt; start.elapsed(&rt)? >= Duration::from_millis(200));
    Ok(())
}
