// One whole message of HTTP.
ghost use Rattle.std.specs.Prelude.{◌≡◌, length};
ghost use Rattle.ikl_base.specs.Answers.{Gives};
ghost use Rattle.rc_http.specs.Feeding.{fresh};
ghost use Rattle.rc_http.specs.Looks.{Looked, Looks};
ghost use Rattle.session_messages.specs.Whole.{whole_in};

use ikl_base::OrMemory;
use rc_http::{Fed, Feeder, HttpFault, HttpMessage};

/// The message that all these octets are, fed to a new reader.
pub(crate) fn read_whole(
    mut feeder: Feeder,
    octets: &[u8],
) -> Result<HttpMessage, OrMemory<HttpFault>>
    requires { feeder ≡ fresh feeder.kind }
    ensures { (looked : Looked) → Looks feeder.kind octets.now looked → Gives result (whole_in (length octets.now) looked) }
{
    match feeder.feed(octets) {
        Ok(Fed::NoneYet) => Err(OrMemory::Refused(HttpFault::Head)),
        Ok(Fed::Whole { message, taken }) => {
            if taken == octets.len() {
                Ok(message)
            } else {
                Err(OrMemory::Refused(HttpFault::Head))
            }
        }
        Err(refused) => Err(refused),
    }
}
