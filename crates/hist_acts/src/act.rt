// The lines of a transcript.
use ikeless_tree::{Answer, DropWhy, Entries, GoneWhy, Lane, Notice, Order, Refusal, SadEntry};
use ikl_base::{ListOf, Name, Octets};

/// What happened, one line of a transcript.
///
/// The first name is that of the gateway at which it happened; the number after it is that of a session, 0 where the
/// gateway has had none since its boot, and the next one that of a request in this session.
#[derive(Debug, Drop)]
pub enum Act {
    /// The event with this number was taken.
    Took(u64),
    /// The clock was read; this is the greatest reading so far, in seconds.
    Now(u32),
    /// The gateway restarted.
    Boot(Name),
    /// A list of policies is in force.
    Policy(Name, Entries),
    /// A half is installed.
    Put(Name, SadEntry),
    /// The half of this name is gone.
    Gone(Name, Name, GoneWhy),
    /// A packet came from inside.
    Let(Name, Octets),
    /// A datagram left, sealed under the half of this name with this number.
    Sent(Name, Name, u64, Octets),
    /// A packet left in clear.
    Clear(Name, Octets),
    /// A packet or a datagram was dropped.
    Drop(Name, DropWhy),
    /// A datagram came from outside.
    Arrived(Name, Octets),
    /// A packet was given inside, opened under the half of this name with this number.
    Gave(Name, Name, u64, Octets),
    /// A datagram was given inside as it came.
    Pass(Name, Octets),
    /// The controller opened a session, and the gateway took it.
    Opened(Name, u32),
    /// The controller saw its session end.
    Cut(Name, u32),
    /// The controller gave an order.
    Order(Name, u32, u64, Order),
    /// The gateway handled the request, with this answer.
    Handled(Name, u32, u64, Answer),
    /// The controller heard the answer to the request.
    Answered(Name, u32, u64, Answer),
    /// The gateway gave a notice.
    Notice(Name, u32, Notice),
    /// The controller heard a notice.
    Heard(Name, u32, Notice),
    /// These octets are under way.
    Wire(Name, Lane, Octets),
    /// The controller refused a command.
    Refused(Refusal),
}

/// Acts, in their order.
pub type Acts = ListOf<Act>;
