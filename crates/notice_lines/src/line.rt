// One line of a notification.
ghost use Rattle.std.specs.Prelude.{◌≡◌, ◌==◌, ◌≤◌, ◌++◌, length, take, IfOk, IfErr, OnOk, OnErr};
ghost use Rattle.std.specs.List.{position};
ghost use Rattle.notice_lines.specs.Reading.{HasNotice, IsNoneOrMemory, line_end};

use crate::envelope::notice;
use crate::fault::NoticeFault;
use ikeless_tree::Notice;
use ikl_base::{NoMemory, OrMemory};
use serde_json::Value;
use std::alloc::Global;

// The notice of a line without its LF.
fn read_line(alloc: Global, line: &[u8]) -> Result<Notice, OrMemory<NoticeFault>>
    ensures notice { IfOk result (λ n. HasNotice line.now n) }
    ensures fault { IfErr result (λ e. IsNoneOrMemory e line.now) }
{
    let value = match Value::from_slice(alloc, line) {
        Ok(value) => value,
        Err(e) if e.is_memory() => return Err(OrMemory::NoMemory),
        Err(_) => return Err(OrMemory::Refused(NoticeFault::NotNotice)),
    };
    match notice(alloc, &value) {
        Ok(notice) => Ok(notice),
        Err(OrMemory::NoMemory) => Err(OrMemory::NoMemory),
        Err(OrMemory::Refused(_)) => Err(OrMemory::Refused(NoticeFault::NotNotice)),
    }
}

fn first_lf(octets: &[u8]) -> Option<usize>
    ensures { result ≡ position (λ octet. octet == 10) octets.now }
{
    octets.iter().position(|octet| *octet == b'\n')
}

/// How many octets stand before the first LF.
pub(crate) fn line_end(octets: &[u8]) -> Option<usize>
    ensures { result ≡ line_end octets.now }
{
    first_lf(octets)
}

/// Adds octets at the end.
pub(crate) fn append(kept: &mut Vec<u8>, piece: &[u8]) -> Result<(), NoMemory>
    ensures ok { OnOk result (kept.new.items ≡ kept.old.items ++ piece.now) }
    ensures err { OnErr result (kept.new.items ≡ kept.old.items) }
{
    Ok(kept.extend_from_slice(piece)?)
}

// The octets of a line of which some came before.
fn joined(alloc: Global, kept: &[u8], front: &[u8]) -> Result<Vec<u8>, NoMemory>
    ensures { IfOk result (λ line. line.items ≡ kept.now ++ front.now) }
{
    let mut line = Vec::from_slice(alloc, kept)?;
    line.extend_from_slice(front)?;
    Ok(line)
}

/// The notice of the line that is what was kept and so many octets of a piece.
pub(crate) fn read_joined(
    alloc: Global,
    kept: &[u8],
    piece: &[u8],
    end: usize,
) -> Result<Notice, OrMemory<NoticeFault>>
    requires { end ≤ length piece.now }
    ensures notice { IfOk result (λ n. HasNotice (kept.now ++ take end piece.now) n) }
    ensures fault { IfErr result (λ e. IsNoneOrMemory e (kept.now ++ take end piece.now)) }
{
    let (front, _) = piece.split_at(end);
    match joined(alloc, kept, front) {
        Ok(line) => read_line(alloc, &line),
        Err(NoMemory) => Err(OrMemory::NoMemory),
    }
}
