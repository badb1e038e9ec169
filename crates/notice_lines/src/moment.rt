// The date and time of a clock, as text.
ghost use Rattle.std.specs.Prelude.{◌≡◌, ◌/◌};
ghost use Rattle.notice_lines.specs.Moments.{IsMoment, IsStamp, digit, stamp_text};

use jiff::Timestamp;
use jiff::tz::TimeZone;

/// A moment of the proleptic Gregorian calendar in UTC.
#[derive(Drop)]
struct Moment {
    year: u16,
    month: u8,
    day: u8,
    hour: u8,
    minute: u8,
    second: u8,
}

fn moment_of(now: u32) -> Moment
    ensures { IsMoment now result.year result.month result.day result.hour result.minute result.second }
{
    let instant = Timestamp::from_second(now as i64).unwrap();
    let civil = instant.to_zoned(TimeZone::UTC).datetime();
    Moment {
        year: civil.year() as u16,
        month: civil.month() as u8,
        day: civil.day() as u8,
        hour: civil.hour() as u8,
        minute: civil.minute() as u8,
        second: civil.second() as u8,
    }
}

fn digit(n: u16) -> u8
    ensures { result ≡ digit n }
{
    b'0' + (n % 10) as u8
}

fn tens(n: u8) -> u8
    ensures { result ≡ digit (n / 10) }
{
    digit(u16::from(n / 10))
}

fn ones(n: u8) -> u8
    ensures { result ≡ digit n }
{
    digit(u16::from(n))
}

fn text(m: &Moment) -> [u8; 20]
    ensures { result ≡ stamp_text m.now.year m.now.month m.now.day m.now.hour m.now.minute m.now.second }
{
    [
        digit(m.year / 1000),
        digit(m.year / 100),
        digit(m.year / 10),
        digit(m.year),
        b'-',
        tens(m.month),
        ones(m.month),
        b'-',
        tens(m.day),
        ones(m.day),
        b'T',
        tens(m.hour),
        ones(m.hour),
        b':',
        tens(m.minute),
        ones(m.minute),
        b':',
        tens(m.second),
        ones(m.second),
        b'Z',
    ]
}

/// The moment of a clock that counts seconds from 1970-01-01 on, as `YYYY-MM-DDTHH:MM:SSZ` (RFC 3339 section 5.6).
pub(crate) fn stamp(now: u32) -> [u8; 20]
    ensures { IsStamp now result }
{
    text(&moment_of(now))
}
