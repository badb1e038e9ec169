// How a command ended, and why a line is refused.
ghost use Rattle.std.specs.Prelude.{◌≡◌, Some, ℕ, List, IfSome};
ghost use Rattle.ikl_base.specs.Reasons.{reason_text, reason_of};

use crate::octets::Octets;

/// Why a line is refused.
#[derive(Clone, Copy, Debug, PartialEq, Eq)]
pub enum LineFault {
    Long,
    End,
    Octet,
    Header,
    Word,
    Count,
    Gateway,
    Number,
    Hex,
    Prefix,
    Limits,
    Entry,
    Mode,
}

const REASONS: [LineFault; 13] = [
    LineFault::Long,
    LineFault::End,
    LineFault::Octet,
    LineFault::Header,
    LineFault::Word,
    LineFault::Count,
    LineFault::Gateway,
    LineFault::Number,
    LineFault::Hex,
    LineFault::Prefix,
    LineFault::Limits,
    LineFault::Entry,
    LineFault::Mode,
];

impl LineFault {
    /// The word of a reason.
    pub fn text(&self) -> &'static str
        ensures { result.now ≡ reason_text self.now }
    {
        match self {
            LineFault::Long => "long",
            LineFault::End => "end",
            LineFault::Octet => "octet",
            LineFault::Header => "header",
            LineFault::Word => "word",
            LineFault::Count => "count",
            LineFault::Gateway => "gateway",
            LineFault::Number => "number",
            LineFault::Hex => "hex",
            LineFault::Prefix => "prefix",
            LineFault::Limits => "limits",
            LineFault::Entry => "entry",
            LineFault::Mode => "mode",
        }
    }

    /// The reason of this word.
    #[tactic(auto, unfolding(crate::specs::Reasons::reason_of))]
    pub fn named(text: &[u8]) -> Option<LineFault>
        ensures { result ≡ reason_of text.now }
    {
        REASONS
            .iter()
            .copied()
            .find(|reason| reason.text().as_bytes() == text)
    }
}

/// Each reason has one word, which is read as that reason: nothing is done.
#[tactic(auto, using(crate::proofs::ReasonLemmas::reason_again, crate::proofs::ReasonLemmas::reason_is))]
pub fn reasons_read_again()
    ensures again { (reason : LineFault) → reason_of (reason_text reason) ≡ Some reason }
    ensures word { (text : List ℕ) (reason : LineFault) → reason_of text ≡ Some reason → text ≡ reason_text reason }
{}

/// How a command ended.
#[derive(Debug, Drop)]
pub enum Status {
    Done,
    Words,
    Line { line: u64, reason: LineFault },
    ReadFault,
    WriteFault,
    NoMemory,
    Forged { line: u64, octets: Octets },
    TooLong,
    DeviceFault,
    TurnsSpent,
    LinkFault,
    BadReply,
    Denied,
}
