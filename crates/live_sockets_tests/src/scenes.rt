// What a dock and a dialer to it live through, both in one thread.
ghost use Rattle.std.specs.Prelude.{◌≡◌, ◌<◌, IfOk, true, false};

use crate::talk::{ROOM, accepts, heard, hears_answer, hears_order, joined};
use ikl_base::Failed;
use live_devices::{Dialer, Dock};

/// Whether octets go both ways.
pub fn converses<D: Dock, L: Dialer>(dock: &mut D, dialer: &mut L) -> Result<bool, Failed>
    requires known { 0 < L.peers dialer.old }
    requires down { L.is_up dialer.old 0 ≡ false }
{
    let mut buf = [0u8; ROOM];
    if !joined(dock, dialer)? || !hears_order(dock, dialer, &mut buf)? {
        return Ok(false);
    }
    hears_answer(dock, dialer, &mut buf)
}

fn is_dropped<L: Dialer>(dialer: &mut L) -> bool
    requires known { 0 < L.peers dialer.old }
    requires up { L.is_up dialer.old 0 ≡ true }
{
    let mut buf = [0u8; ROOM];
    match dialer.read(0, &mut buf) {
        Ok(Some(n)) => n == 0,
        Ok(None) => false,
        Err(_) => true,
    }
}

/// Whether a newer session drops the older one with its unread octets, and is heard until it ends.
pub fn takes_newer<D: Dock, L: Dialer>(
    dock: &mut D,
    older: &mut L,
    newer: &mut L,
) -> Result<bool, Failed>
    requires older { 0 < L.peers older.old }
    requires newer { 0 < L.peers newer.old }
    requires older_down { L.is_up older.old 0 ≡ false }
    requires newer_down { L.is_up newer.old 0 ≡ false }
{
    let mut buf = [0u8; ROOM];
    if !joined(dock, older)? {
        return Ok(false);
    }
    older.write(0, b"unread")?;
    if !joined(dock, newer)? || !is_dropped(older) || !hears_order(dock, newer, &mut buf)? {
        return Ok(false);
    }
    newer.hang_up(0);
    Ok(heard(dock, &mut buf)? == Some(0))
}

// Whether a dialer reads the last reply of a session which its dock no longer reads, and then the end.
fn hears_last<D: Dock, L: Dialer>(dock: &mut D, dialer: &mut L) -> Result<bool, Failed>
    requires known { 0 < L.peers dialer.old }
    requires taken { D.is_taken dock.old ≡ true }
    requires up { L.is_up dialer.old 0 ≡ true }
{
    let mut buf = [0u8; ROOM];
    dock.write(b"400")?;
    dock.accept()?;
    dock.accept()?;
    let reply = dialer.read(0, &mut buf)?;
    let end = dialer.read(0, &mut buf)?;
    Ok(reply == Some(3) && end == Some(0))
}

/// Whether a reply is read and then the end, where a dock has octets that it didn't read.
pub fn ends_after_reply<D: Dock, L: Dialer>(dock: &mut D, dialer: &mut L) -> Result<bool, Failed>
    requires known { 0 < L.peers dialer.old }
    requires down { L.is_up dialer.old 0 ≡ false }
{
    let mut buf = [0u8; ROOM];
    if !joined(dock, dialer)? || !hears_order(dock, dialer, &mut buf)? {
        return Ok(false);
    }
    dialer.write(0, b"unread")?;
    hears_last(dock, dialer)
}

/// Whether a dial of a dialer's first peer fails.
pub fn is_refused<L: Dialer>(dialer: &mut L) -> bool
    requires known { 0 < L.peers dialer.old }
    requires down { L.is_up dialer.old 0 ≡ false }
    ensures down { result ≡ true → L.is_up dialer.new 0 ≡ false }
    ensures peers { L.peers dialer.new ≡ L.peers dialer.old }
{
    match dialer.dial(0) {
        Ok(()) => false,
        Err(_) => true,
    }
}

// Whether a command reaches a dock whose sessions are one stream.
fn hears_command<D: Dock, L: Dialer>(dock: &mut D, client: &mut L) -> Result<bool, Failed>
    requires known { 0 < L.peers client.old }
    requires down { L.is_up client.old 0 ≡ false }
    ensures taken { IfOk result (λ heard. heard ≡ true → D.is_taken dock.new ≡ true) }
    ensures up { IfOk result (λ heard. heard ≡ true → L.is_up client.new 0 ≡ true) }
    ensures peers { L.peers client.new ≡ L.peers client.old }
{
    let mut buf = [0u8; ROOM];
    client.dial(0)?;
    client.write(0, b"command")?;
    if !accepts(dock)? {
        return Ok(false);
    }
    Ok(heard(dock, &mut buf)? == Some(7))
}

/// Whether a command is answered, and the next session is taken.
pub fn answers_command<D: Dock, L: Dialer>(dock: &mut D, client: &mut L) -> Result<bool, Failed>
    requires known { 0 < L.peers client.old }
    requires down { L.is_up client.old 0 ≡ false }
{
    let mut buf = [0u8; ROOM];
    if !hears_command(dock, client)? || client.read(0, &mut buf)?.is_some() {
        return Ok(false);
    }
    dock.write(b"204")?;
    let reply = client.read(0, &mut buf)?;
    client.hang_up(0);
    Ok(reply == Some(3) && heard(dock, &mut buf)? == Some(0) && hears_command(dock, client)?)
}
