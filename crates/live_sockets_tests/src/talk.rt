// Calls of a dock and a dialer, both in one thread.
ghost use Rattle.std.specs.Prelude.{◌≡◌, ◌<◌, IfOk, true, false};

use ikl_base::Failed;
use live_devices::{Dialer, Dock};

/// The most octets that a call of a test reads.
pub const ROOM: usize = 16;

/// Whether a dialer's first peer and a dock have a session now. The first dial connects, and only then the dock can
/// welcome it.
pub fn joined<D: Dock, L: Dialer>(dock: &mut D, dialer: &mut L) -> Result<bool, Failed>
    requires known { 0 < L.peers dialer.old }
    requires down { L.is_up dialer.old 0 ≡ false }
    ensures taken { IfOk result (λ both. both ≡ true → D.is_taken dock.new ≡ true) }
    ensures up { IfOk result (λ both. both ≡ true → L.is_up dialer.new 0 ≡ true) }
    ensures peers { L.peers dialer.new ≡ L.peers dialer.old }
{
    if dialer.dial(0).is_ok() || !dock.accept()? {
        return Ok(false);
    }
    dialer.dial(0)?;
    Ok(true)
}

/// What comes next in a dock's session. Where nothing waits, the dock waits in its accept.
pub fn heard<D: Dock>(dock: &mut D, buf: &mut [u8; ROOM]) -> Result<Option<usize>, Failed>
    requires { D.is_taken dock.old ≡ true }
    ensures { D.is_taken dock.new ≡ true }
{
    let first = dock.read(buf)?;
    if first.is_some() {
        return Ok(first);
    }
    dock.accept()?;
    dock.read(buf)
}

/// Whether what a dialer writes reaches a dock that heard nothing before.
pub fn hears_order<D: Dock, L: Dialer>(
    dock: &mut D,
    dialer: &mut L,
    buf: &mut [u8; ROOM],
) -> Result<bool, Failed>
    requires known { 0 < L.peers dialer.old }
    requires taken { D.is_taken dock.old ≡ true }
    requires up { L.is_up dialer.old 0 ≡ true }
    ensures taken { D.is_taken dock.new ≡ true }
    ensures up { L.is_up dialer.new 0 ≡ true }
    ensures peers { L.peers dialer.new ≡ L.peers dialer.old }
{
    let before = dock.read(buf)?;
    dialer.write(0, b"order")?;
    let came = heard(dock, buf)?;
    Ok(before.is_none() && came == Some(5) && buf.starts_with(b"order"))
}

/// Whether what a dock writes on both streams reaches a dialer.
pub fn hears_answer<D: Dock, L: Dialer>(
    dock: &mut D,
    dialer: &mut L,
    buf: &mut [u8; ROOM],
) -> Result<bool, Failed>
    requires known { 0 < L.peers dialer.old }
    requires taken { D.is_taken dock.old ≡ true }
    requires up { L.is_up dialer.old 0 ≡ true }
{
    dock.write(b"answer")?;
    dock.write_notice(b"note")?;
    dock.accept()?;
    let answer = dialer.read(0, buf)?;
    let note = dialer.read_notice(0, buf)?;
    Ok(answer == Some(6) && note == Some(4) && buf.starts_with(b"note"))
}

/// Whether a session waits. A connection may still be on its way when a call that made it returns.
pub fn accepts<D: Dock>(dock: &mut D) -> Result<bool, Failed>
    ensures { IfOk result (λ taken. taken ≡ true → D.is_taken dock.new ≡ true) }
{
    if dock.accept()? {
        return Ok(true);
    }
    dock.accept()
}
