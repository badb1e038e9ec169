// What a drawn number says: a kind of line, a gateway and a number.
ghost use Rattle.std.specs.Prelude.{◌≡◌, ◌≤◌};
ghost use Rattle.drill_script.specs.Drawn.{next, gateway_of, target_of, upper_of, clock_kind, session_kind, kind_of, is_let, is_now};

const FACTOR: u64 = 6_364_136_223_846_793_005;

const STEP: u64 = 1_442_695_040_888_963_407;

/// What a drawn line says.
#[derive(Clone, Copy, Debug, PartialEq, Eq)]
pub enum Kind {
    Let,
    Arrive,
    Down,
    Up,
    Note,
    Boot,
    Now,
    Cut,
    Open,
}

/// The number that is drawn after this one.
#[tactic(auto, using(crate::proofs::DrawnLemmas::next_is))]
pub fn next_number(x: u64) -> u64
    ensures { result ≡ next x }
{
    x.wrapping_mul(FACTOR).wrapping_add(STEP)
}

/// The upper bits of a drawn number.
pub fn upper(x: u64) -> u64
    ensures { result ≡ upper_of x }
{
    x >> 45
}

/// The gateway that a drawn number says, from 1 to 3.
pub fn gateway(x: u64) -> u8
    ensures is { result ≡ gateway_of x }
    ensures few { result ≤ 3 }
{
    (1 + (x >> 40) % 3) as u8
}

/// Another gateway: the next one in the ring 1, 2, 3, or the one after that.
pub fn target(x: u64) -> u8
    ensures is { result ≡ target_of x }
    ensures few { result ≤ 3 }
{
    let steps = ((x >> 44) % 2) as u8;
    1 + (gateway(x) + steps) % 3
}

// A reboot once in 64 such lines, and else the clock.
fn clock(upper: u64) -> Kind
    ensures { result ≡ clock_kind upper }
{
    if upper % 64 == 0 {
        Kind::Boot
    } else {
        Kind::Now
    }
}

// A cut once in 16 such lines, and else a session that is opened.
fn session(upper: u64) -> Kind
    ensures { result ≡ session_kind upper }
{
    if upper % 16 == 0 {
        Kind::Cut
    } else {
        Kind::Open
    }
}

/// What the line of a drawn number says.
pub fn drawn_kind(x: u64) -> Kind
    ensures { result ≡ kind_of x }
{
    let place = (x >> 33) % 16;
    if place <= 3 {
        Kind::Let
    } else if place <= 6 {
        Kind::Arrive
    } else if place <= 9 {
        Kind::Down
    } else if place <= 12 {
        Kind::Up
    } else if place == 13 {
        Kind::Note
    } else if place == 14 {
        clock(upper(x))
    } else {
        session(upper(x))
    }
}

/// Whether a line brings a packet.
pub fn has_packet(kind: Kind) -> bool
    ensures { result ≡ is_let kind }
{
    matches!(kind, Kind::Let)
}

/// Whether a line reads the clock.
pub fn has_time(kind: Kind) -> bool
    ensures { result ≡ is_now kind }
{
    matches!(kind, Kind::Now)
}
