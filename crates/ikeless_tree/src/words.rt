// The words of enumerations, as they stand in lines, in replies and in the tree.
ghost use Rattle.std.specs.Prelude.{◌≡◌, ℕ, Bool, List, Some};
ghost use Rattle.ikeless_tree.specs.declared.error.Tag.{Tag};
ghost use Rattle.ikeless_tree.specs.declared.command.Refusal.{Refusal};
ghost use Rattle.ikeless_tree.specs.declared.error.App.{App};
ghost use Rattle.ikeless_tree.specs.declared.drops.DropWhy.{DropWhy};
ghost use Rattle.ikeless_tree.specs.declared.ends.GoneWhy.{GoneWhy};
ghost use Rattle.ikeless_tree.specs.declared.entry.Action.{Action};
ghost use Rattle.ikeless_tree.specs.declared.entry.Direction.{Direction};
ghost use Rattle.ikeless_tree.specs.declared.sad.Df.{Df};
ghost use Rattle.ikeless_tree.specs.declared.order.Lane.{Lane};
ghost use Rattle.ikeless_tree.specs.Words.{tag_text, refusal_text, app_text, drop_text, gone_text, action_text, direction_text, df_text, lane_text, tag_of, refusal_of, app_of, drop_of, gone_of, action_of, direction_of, df_of, lane_of, direction_word, direction_of_word, mode_text, mode_of, softness_text, softness_of};

use crate::command::Refusal;
use crate::drops::DropWhy;
use crate::ends::GoneWhy;
use crate::entry::{Action, Direction};
use crate::error::{App, Tag};
use crate::order::Lane;
use crate::sad::Df;

const TAGS: [Tag; 7] = [
    Tag::MalformedMessage,
    Tag::OperationNotSupported,
    Tag::TooBig,
    Tag::InvalidValue,
    Tag::UnknownElement,
    Tag::BadElement,
    Tag::ResourceDenied,
];

impl Tag {
    /// The error tag as it stands in a reply (RFC 8040 section 7).
    pub fn text(&self) -> &'static str
        ensures { result.now ≡ tag_text self.now }
    {
        match self {
            Tag::MalformedMessage => "malformed-message",
            Tag::OperationNotSupported => "operation-not-supported",
            Tag::TooBig => "too-big",
            Tag::InvalidValue => "invalid-value",
            Tag::UnknownElement => "unknown-element",
            Tag::BadElement => "bad-element",
            Tag::ResourceDenied => "resource-denied",
        }
    }

    /// The error tag of this text.
    #[tactic(auto, unfolding(crate::specs::Words::tag_of))]
    pub fn named(text: &[u8]) -> Option<Tag>
        ensures { result ≡ tag_of text.now }
    {
        TAGS.iter().copied().find(|x| x.text().as_bytes() == text)
    }
}

const REFUSALS: [Refusal; 8] = [
    Refusal::UnknownGateway,
    Refusal::SameGateway,
    Refusal::TunnelExists,
    Refusal::NoTunnel,
    Refusal::TunnelLimit,
    Refusal::KeySeen,
    Refusal::KeyLength,
    Refusal::KeyLimit,
];

impl Refusal {
    /// The word of a refusal, as it stands in a transcript and in a reply.
    pub fn text(&self) -> &'static str
        ensures { result.now ≡ refusal_text self.now }
    {
        match self {
            Refusal::UnknownGateway => "unknown-gateway",
            Refusal::SameGateway => "same-gateway",
            Refusal::TunnelExists => "tunnel-exists",
            Refusal::NoTunnel => "no-tunnel",
            Refusal::TunnelLimit => "tunnel-limit",
            Refusal::KeySeen => "key-seen",
            Refusal::KeyLength => "key-length",
            Refusal::KeyLimit => "key-limit",
        }
    }

    /// The refusal of this word.
    #[tactic(auto, unfolding(crate::specs::Words::refusal_of))]
    pub fn named(text: &[u8]) -> Option<Refusal>
        ensures { result ≡ refusal_of text.now }
    {
        REFUSALS
            .iter()
            .copied()
            .find(|x| x.text().as_bytes() == text)
    }
}

const APPS: [App; 25] = [
    App::Form,
    App::Chunked,
    App::Size,
    App::Path,
    App::Method,
    App::Query,
    App::Json,
    App::Unknown,
    App::Missing,
    App::Range,
    App::Unsupported,
    App::Name,
    App::Full,
    App::Exists,
    App::SpiTaken,
    App::Absent,
    App::Point,
    App::Refused(Refusal::UnknownGateway),
    App::Refused(Refusal::SameGateway),
    App::Refused(Refusal::TunnelExists),
    App::Refused(Refusal::NoTunnel),
    App::Refused(Refusal::TunnelLimit),
    App::Refused(Refusal::KeySeen),
    App::Refused(Refusal::KeyLength),
    App::Refused(Refusal::KeyLimit),
];

impl App {
    /// The app tag as it stands in a reply; that of a refused command is the word of its refusal.
    pub fn text(&self) -> &'static str
        ensures { result.now ≡ app_text self.now }
    {
        match self {
            App::Form => "form",
            App::Chunked => "chunked",
            App::Size => "size",
            App::Path => "path",
            App::Method => "method",
            App::Query => "query",
            App::Json => "json",
            App::Unknown => "unknown",
            App::Missing => "missing",
            App::Range => "range",
            App::Unsupported => "unsupported",
            App::Name => "name",
            App::Full => "full",
            App::Exists => "exists",
            App::SpiTaken => "spi-taken",
            App::Absent => "absent",
            App::Point => "point",
            App::Refused(why) => why.text(),
        }
    }

    /// The app tag of this text.
    #[tactic(auto, unfolding(crate::specs::Words::app_of))]
    pub fn named(text: &[u8]) -> Option<App>
        ensures { result ≡ app_of text.now }
    {
        APPS.iter().copied().find(|x| x.text().as_bytes() == text)
    }
}

const DROPS: [DropWhy; 18] = [
    DropWhy::Malformed,
    DropWhy::Fragment,
    DropWhy::TooLong,
    DropWhy::NoPolicy,
    DropWhy::Discard,
    DropWhy::ClearRefused,
    DropWhy::NoSa,
    DropWhy::SeqLimit,
    DropWhy::Short,
    DropWhy::BadSpi,
    DropWhy::Zero,
    DropWhy::Old,
    DropWhy::Seen,
    DropWhy::Auth,
    DropWhy::Padding,
    DropWhy::Dummy,
    DropWhy::Inner,
    DropWhy::Selector,
];

impl DropWhy {
    /// Why a packet is dropped, as it stands in a transcript.
    pub fn text(&self) -> &'static str
        ensures { result.now ≡ drop_text self.now }
    {
        match self {
            DropWhy::Malformed => "malformed",
            DropWhy::Fragment => "fragment",
            DropWhy::TooLong => "too-long",
            DropWhy::NoPolicy => "no-policy",
            DropWhy::Discard => "discard",
            DropWhy::ClearRefused => "clear-refused",
            DropWhy::NoSa => "no-sa",
            DropWhy::SeqLimit => "seq-limit",
            DropWhy::Short => "short",
            DropWhy::BadSpi => "bad-spi",
            DropWhy::Zero => "zero",
            DropWhy::Old => "old",
            DropWhy::Seen => "seen",
            DropWhy::Auth => "auth",
            DropWhy::Padding => "padding",
            DropWhy::Dummy => "dummy",
            DropWhy::Inner => "inner",
            DropWhy::Selector => "selector",
        }
    }

    /// The reason of this word.
    #[tactic(auto, unfolding(crate::specs::Words::drop_of))]
    pub fn named(text: &[u8]) -> Option<DropWhy>
        ensures { result ≡ drop_of text.now }
    {
        DROPS.iter().copied().find(|x| x.text().as_bytes() == text)
    }
}

const ENDS: [GoneWhy; 2] = [GoneWhy::Removed, GoneWhy::Hard];

impl GoneWhy {
    /// Why a half is gone, as it stands in a transcript.
    pub fn text(&self) -> &'static str
        ensures { result.now ≡ gone_text self.now }
    {
        match self {
            GoneWhy::Removed => "removed",
            GoneWhy::Hard => "hard",
        }
    }

    /// The reason of this word.
    #[tactic(auto, unfolding(crate::specs::Words::gone_of))]
    pub fn named(text: &[u8]) -> Option<GoneWhy>
        ensures { result ≡ gone_of text.now }
    {
        ENDS.iter().copied().find(|x| x.text().as_bytes() == text)
    }
}

const ACTIONS: [Action; 3] = [Action::Protect, Action::Bypass, Action::Discard];

impl Action {
    /// What is done with a packet (RFC 9061 section 5.3).
    pub fn text(&self) -> &'static str
        ensures { result.now ≡ action_text self.now }
    {
        match self {
            Action::Protect => "protect",
            Action::Bypass => "bypass",
            Action::Discard => "discard",
        }
    }

    /// The action of this word.
    #[tactic(auto, unfolding(crate::specs::Words::action_of))]
    pub fn named(text: &[u8]) -> Option<Action>
        ensures { result ≡ action_of text.now }
    {
        ACTIONS
            .iter()
            .copied()
            .find(|x| x.text().as_bytes() == text)
    }
}

const DIRECTIONS: [Direction; 2] = [Direction::In, Direction::Out];

impl Direction {
    /// Which way a packet goes, as it stands in a line.
    pub fn text(&self) -> &'static str
        ensures { result.now ≡ direction_text self.now }
    {
        match self {
            Direction::In => "in",
            Direction::Out => "out",
        }
    }

    /// The direction of this word of a line.
    #[tactic(auto, unfolding(crate::specs::Words::direction_of))]
    pub fn named(text: &[u8]) -> Option<Direction>
        ensures { result ≡ direction_of text.now }
    {
        DIRECTIONS
            .iter()
            .copied()
            .find(|x| x.text().as_bytes() == text)
    }

    /// Which way a packet goes, as it stands in the tree (RFC 9061 section 5.3).
    pub fn word(&self) -> &'static str
        ensures { result.now ≡ direction_word self.now }
    {
        match self {
            Direction::In => "inbound",
            Direction::Out => "outbound",
        }
    }

    /// The direction of this word of the tree.
    #[tactic(auto, unfolding(crate::specs::Words::direction_of_word))]
    pub fn of_word(text: &[u8]) -> Option<Direction>
        ensures { result ≡ direction_of_word text.now }
    {
        DIRECTIONS
            .iter()
            .copied()
            .find(|x| x.word().as_bytes() == text)
    }
}

const DFS: [Df; 3] = [Df::Clear, Df::Set, Df::Copy];

impl Df {
    /// Where the outer DF bit comes from (RFC 9061 section 5.3).
    pub fn text(&self) -> &'static str
        ensures { result.now ≡ df_text self.now }
    {
        match self {
            Df::Clear => "clear",
            Df::Set => "set",
            Df::Copy => "copy",
        }
    }

    /// The DF bit of this word.
    #[tactic(auto, unfolding(crate::specs::Words::df_of))]
    pub fn named(text: &[u8]) -> Option<Df>
        ensures { result ≡ df_of text.now }
    {
        DFS.iter().copied().find(|x| x.text().as_bytes() == text)
    }
}

const LANES: [Lane; 3] = [Lane::Down, Lane::Up, Lane::Note];

impl Lane {
    /// A lane as it stands in a line.
    pub fn text(&self) -> &'static str
        ensures { result.now ≡ lane_text self.now }
    {
        match self {
            Lane::Down => "down",
            Lane::Up => "up",
            Lane::Note => "note",
        }
    }

    /// The lane of this word.
    #[tactic(auto, unfolding(crate::specs::Words::lane_of))]
    pub fn named(text: &[u8]) -> Option<Lane>
        ensures { result ≡ lane_of text.now }
    {
        LANES.iter().copied().find(|x| x.text().as_bytes() == text)
    }
}

const YES_AND_NO: [bool; 2] = [true, false];

/// Whether keys are asked for at once, as it stands in a line and in a command.
pub fn mode_text(now: bool) -> &'static str
    ensures { result.now ≡ mode_text now }
{
    if now { "now" } else { "acquire" }
}

/// Whether keys are asked for at once, by this word.
#[tactic(auto, unfolding(crate::specs::Words::mode_of))]
pub fn mode_named(text: &[u8]) -> Option<bool>
    ensures { result ≡ mode_of text.now }
{
    YES_AND_NO
        .iter()
        .copied()
        .find(|x| mode_text(*x).as_bytes() == text)
}

/// Whether a limit is a soft one, as it stands in a transcript.
pub fn softness_text(soft: bool) -> &'static str
    ensures { result.now ≡ softness_text soft }
{
    if soft { "soft" } else { "hard" }
}

/// Whether a limit is a soft one, by this word.
#[tactic(auto, unfolding(crate::specs::Words::softness_of))]
pub fn softness_named(text: &[u8]) -> Option<bool>
    ensures { result ≡ softness_of text.now }
{
    YES_AND_NO
        .iter()
        .copied()
        .find(|x| softness_text(*x).as_bytes() == text)
}

/// Each word is read as its value: nothing is done.
#[tactic(auto, using(crate::proofs::WordLemmas::tag_again, crate::proofs::WordLemmas::refusal_again, crate::proofs::WordLemmas::app_again, crate::proofs::WordLemmas::drop_again, crate::proofs::WordLemmas::gone_again, crate::proofs::WordLemmas::action_again, crate::proofs::WordLemmas::direction_again, crate::proofs::WordLemmas::df_again, crate::proofs::WordLemmas::lane_again, crate::proofs::WordLemmas::direction_word_again, crate::proofs::WordLemmas::mode_again, crate::proofs::WordLemmas::softness_again))]
pub fn words_read_again()
    ensures tag { (x : Tag) → tag_of (tag_text x) ≡ Some x }
    ensures refusal { (x : Refusal) → refusal_of (refusal_text x) ≡ Some x }
    ensures app { (x : App) → app_of (app_text x) ≡ Some x }
    ensures drop { (x : DropWhy) → drop_of (drop_text x) ≡ Some x }
    ensures gone { (x : GoneWhy) → gone_of (gone_text x) ≡ Some x }
    ensures action { (x : Action) → action_of (action_text x) ≡ Some x }
    ensures direction { (x : Direction) → direction_of (direction_text x) ≡ Some x }
    ensures df { (x : Df) → df_of (df_text x) ≡ Some x }
    ensures lane { (x : Lane) → lane_of (lane_text x) ≡ Some x }
    ensures direction_word { (x : Direction) → direction_of_word (direction_word x) ≡ Some x }
    ensures mode { (x : Bool) → mode_of (mode_text x) ≡ Some x }
    ensures softness { (x : Bool) → softness_of (softness_text x) ≡ Some x }
{}

/// A value that is read has that word: nothing is done.
#[tactic(auto, using(crate::proofs::WordLemmas::tag_is, crate::proofs::WordLemmas::refusal_is, crate::proofs::WordLemmas::app_is, crate::proofs::WordLemmas::drop_is, crate::proofs::WordLemmas::gone_is, crate::proofs::WordLemmas::action_is, crate::proofs::WordLemmas::direction_is, crate::proofs::WordLemmas::df_is, crate::proofs::WordLemmas::lane_is, crate::proofs::WordLemmas::direction_word_is, crate::proofs::WordLemmas::mode_is, crate::proofs::WordLemmas::softness_is))]
pub fn words_are_texts()
    ensures tag { (text : List ℕ) (x : Tag) → tag_of text ≡ Some x → text ≡ tag_text x }
    ensures refusal { (text : List ℕ) (x : Refusal) → refusal_of text ≡ Some x → text ≡ refusal_text x }
    ensures app { (text : List ℕ) (x : App) → app_of text ≡ Some x → text ≡ app_text x }
    ensures drop { (text : List ℕ) (x : DropWhy) → drop_of text ≡ Some x → text ≡ drop_text x }
    ensures gone { (text : List ℕ) (x : GoneWhy) → gone_of text ≡ Some x → text ≡ gone_text x }
    ensures action { (text : List ℕ) (x : Action) → action_of text ≡ Some x → text ≡ action_text x }
    ensures direction { (text : List ℕ) (x : Direction) → direction_of text ≡ Some x → text ≡ direction_text x }
    ensures df { (text : List ℕ) (x : Df) → df_of text ≡ Some x → text ≡ df_text x }
    ensures lane { (text : List ℕ) (x : Lane) → lane_of text ≡ Some x → text ≡ lane_text x }
    ensures direction_word { (text : List ℕ) (x : Direction) → direction_of_word text ≡ Some x → text ≡ direction_word x }
    ensures mode { (text : List ℕ) (x : Bool) → mode_of text ≡ Some x → text ≡ mode_text x }
    ensures softness { (text : List ℕ) (x : Bool) → softness_of text ≡ Some x → text ≡ softness_text x }
{}
