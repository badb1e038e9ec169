// Notices as lines.
ghost use Rattle.std.specs.Prelude.{◌≡◌, ◌<◌, Some, IfOk, length};
ghost use Rattle.ikeless_tree.specs.declared.order.Notice.{Notice as Told};
ghost use Rattle.notice_lines.specs.Envelope.{IsNotice};
ghost use Rattle.notice_lines.specs.Reading.{IsHeard};
ghost use Rattle.hist_wire.specs.Dates.{line_text};
ghost use Rattle.session_messages.specs.Whole.{IsHeardAs};

use hist_wire::notices_have_one_line;
use ikeless_tree::Notice;
use ikl_base::{NoMemory, Octets, OrMemory};
use notice_lines::{Heard, LineReader, cuts_do_not_matter, write_notice};
use std::alloc::Global;

/// The line of a notice, with its LF, at a moment (RFC 8040 section 6.4). The clock `now` counts seconds from 1970-01-01 on.
pub fn write_line(alloc: Global, n: &Notice, now: u32) -> Result<Octets, NoMemory>
    requires { IsNotice n.now }
    ensures line { IfOk result (λ line. line ≡ line_text n.now now) }
    ensures heard { IfOk result (λ line. IsHeard n.now line) }
    ensures some { IfOk result (λ line. 0 < length line) }
{
    notices_have_one_line();
    write_notice(alloc, n, now)
}

fn notice(alloc: Global, octets: &[u8]) -> Result<Option<Notice>, NoMemory>
    ensures { IfOk result (λ x. IsHeardAs octets.now x) }
{
    let mut reader = LineReader::new(alloc);
    match reader.feed(octets) {
        Ok(Heard::NoneYet) => Ok(None),
        Ok(Heard::Line { notice, taken }) => {
            if taken == octets.len() {
                Ok(Some(notice))
            } else {
                Ok(None)
            }
        }
        Err(OrMemory::Refused(_)) => Ok(None),
        Err(OrMemory::NoMemory) => Err(NoMemory),
    }
}

/// The notice of the one line that these octets are. There is none where they aren't one whole line, have more octets behind it,
/// or its line is no notification.
pub fn read_line(alloc: Global, octets: &[u8]) -> Result<Option<Notice>, NoMemory>
    ensures line { IfOk result (λ x. IsHeardAs octets.now x) }
    ensures heard { (n : Told) → IsHeard n octets.now → IfOk result (λ x. x ≡ Some n) }
{
    cuts_do_not_matter();
    notice(alloc, octets)
}
