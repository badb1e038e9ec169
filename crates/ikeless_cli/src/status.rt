// What a program says of the status of its command.
ghost use Rattle.std.specs.Prelude.{◌≡◌};
ghost use Rattle.ikl_base.specs.Reasons.{reason_text};
ghost use Rattle.ikeless_cli.specs.Exit.{number_of, name_text};

use ikl_base::{LineFault, Status};

/// The exit number of a status.
pub fn exit_number(status: &Status) -> u8
    ensures { result ≡ number_of status.now }
{
    match status {
        Status::Done => 0,
        Status::Words => 2,
        Status::Line { .. } => 3,
        Status::ReadFault => 4,
        Status::WriteFault => 5,
        Status::NoMemory => 6,
        Status::Forged { .. } => 7,
        Status::TooLong => 8,
        Status::DeviceFault => 9,
        Status::TurnsSpent => 10,
        Status::LinkFault => 11,
        Status::BadReply => 12,
        Status::Denied => 13,
    }
}

/// The name of a status, as it is printed.
pub fn name_of(status: &Status) -> &'static str
    ensures { result.now ≡ name_text status.now }
{
    match status {
        Status::Done => "Done",
        Status::Words => "Words",
        Status::Line { .. } => "Line",
        Status::ReadFault => "ReadFault",
        Status::WriteFault => "WriteFault",
        Status::NoMemory => "NoMemory",
        Status::Forged { .. } => "Forged",
        Status::TooLong => "TooLong",
        Status::DeviceFault => "DeviceFault",
        Status::TurnsSpent => "TurnsSpent",
        Status::LinkFault => "LinkFault",
        Status::BadReply => "BadReply",
        Status::Denied => "Denied",
    }
}

/// The word for the reason why a line is refused.
pub fn reason_of(reason: LineFault) -> &'static str
    ensures { result.now ≡ reason_text reason }
{
    reason.text()
}
