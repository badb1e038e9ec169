/// Why a line isn't heard.
#[derive(Clone, Copy, Debug, PartialEq, Eq)]
pub enum NoticeFault {
    /// More than 4,096 octets came without LF.
    LineTooLong,
    /// A line isn't the notification of one of the four events.
    NotNotice,
}
