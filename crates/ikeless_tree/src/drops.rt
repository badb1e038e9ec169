// Why packets and datagrams are dropped.
/// Why a packet or a datagram is dropped.
#[derive(Clone, Copy, Debug, PartialEq, Eq)]
pub enum DropWhy {
    Malformed,
    Fragment,
    TooLong,
    NoPolicy,
    Discard,
    ClearRefused,
    NoSa,
    SeqLimit,
    Short,
    BadSpi,
    Zero,
    Old,
    Seen,
    Auth,
    Padding,
    Dummy,
    Inner,
    Selector,
}
