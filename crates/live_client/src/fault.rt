// What a client can meet in place of an answer.
use ikl_base::Octets;

/// Why a client is told nothing.
#[derive(Debug, Drop)]
pub enum AskFault {
    /// A call on the link failed.
    LinkFault,
    /// What was read is no response, is one that says nothing, or ends before it is whole. These are all octets read.
    BadReply(Octets),
    /// All turns passed without a whole response.
    TurnsSpent,
    NoMemory,
}
