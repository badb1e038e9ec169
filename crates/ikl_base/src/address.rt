// Addresses of both families and their prefixes.
ghost use Rattle.std.specs.Prelude.{◌≡◌, ◌-◌, ◌%◌, ◌^◌, ◌<◌, ◌≤◌, ◌↔◌, IsTrue, length, All};
ghost use Rattle.ikl_base.specs.Address.{bits_of, IsAddress, is_clear_from, cleared_from, address_cleared, is_one_family, AreOneFamily, is_same_address};

/// An address of one of the two families, its octets in network order.
#[derive(Clone, Copy, Debug, PartialEq, Eq)]
pub enum Addr {
    V4([u8; 4]),
    V6([u8; 16]),
}

// Octets are below 256.
fn octets_fit(octets: &[u8])
    ensures { All (λ octet. octet < 256) octets.now }
{}

fn four_fit(octets: &[u8; 4])
    ensures length { length octets.now ≡ 4 }
    ensures octets { All (λ octet. octet < 256) octets.now }
{
    octets_fit(octets);
}

fn sixteen_fit(octets: &[u8; 16])
    ensures length { length octets.now ≡ 16 }
    ensures octets { All (λ octet. octet < 256) octets.now }
{
    octets_fit(octets);
}

impl Addr {
    /// Every address has four octets or sixteen: nothing is done.
    pub fn numbers_fit(&self)
        ensures { IsAddress self.now }
    {
        match self {
            Addr::V4(octets) => four_fit(octets),
            Addr::V6(octets) => sixteen_fit(octets),
        }
    }

    /// Whether both addresses are of one family.
    pub fn is_same_family(&self, other: &Addr) -> bool
        ensures test { result ≡ is_one_family self.now other.now }
        ensures whole { IsTrue result → AreOneFamily self.now other.now }
    {
        self.numbers_fit();
        other.numbers_fit();
        match self {
            Addr::V4(_) => matches!(other, Addr::V4(_)),
            Addr::V6(_) => matches!(other, Addr::V6(_)),
        }
    }

    /// Whether both are one address.
    pub fn is_same(&self, other: &Addr) -> bool
        ensures test { result ≡ is_same_address self.now other.now }
        ensures equal { IsTrue result ↔ self.now ≡ other.now }
    {
        match self {
            Addr::V4(a) => match other {
                Addr::V4(b) => a.as_slice() == b.as_slice(),
                Addr::V6(_) => false,
            },
            Addr::V6(a) => match other {
                Addr::V4(_) => false,
                Addr::V6(b) => a.as_slice() == b.as_slice(),
            },
        }
    }
}

/// A prefix: the first `len` bits of an address, whose other bits are zero.
///
/// `len` is at most 32 for IPv4 and 128 for IPv6.
#[derive(Clone, Copy, Debug, PartialEq, Eq)]
pub struct Prefix {
    pub addr: Addr,
    pub len: u8,
    pub ghost in_range: { len ≤ bits_of addr },
    pub ghost cleared: { IsTrue (is_clear_from len addr) },
}

// The first bits of an octet, with the others zero.
fn kept(octet: u8, bits: u8) -> u8
    ensures { result ≡ octet - octet % 2 ^ (8 - bits) }
{
    match bits {
        0 => 0,
        1 => octet - octet % 128,
        2 => octet - octet % 64,
        3 => octet - octet % 32,
        4 => octet - octet % 16,
        5 => octet - octet % 8,
        6 => octet - octet % 4,
        7 => octet - octet % 2,
        _ => octet,
    }
}

// Clears the bits of octets from bit `bits` on.
fn clear(octets: &mut [u8], bits: u8)
    requires { length octets.old < 32 }
    ensures { octets.new ≡ cleared_from bits octets.old }
{
    let mut left = bits;
    for i in 0..octets.len() {
        octets[i] = kept(octets[i], left);
        left = left.saturating_sub(8);
    }
}

// An address without the bits from bit `len` on.
fn without_host(addr: Addr, len: u8) -> Addr
    ensures { result ≡ address_cleared len addr }
{
    match addr {
        Addr::V4(mut octets) => {
            clear(&mut octets, len);
            Addr::V4(octets)
        }
        Addr::V6(mut octets) => {
            clear(&mut octets, len);
            Addr::V6(octets)
        }
    }
}

impl Prefix {
    /// The prefix of these many bits of an address. The host bits are dropped.
    pub fn of(addr: Addr, len: u8) -> Prefix
        requires { len ≤ bits_of addr }
        ensures length { result.len ≡ len }
        ensures address { result.addr ≡ address_cleared len addr }
    {
        Prefix {
            addr: without_host(addr, len),
            len,
        }
    }

    /// Whether both are one prefix.
    pub fn is_same(&self, other: &Prefix) -> bool
        ensures { IsTrue result ↔ self.now ≡ other.now }
    {
        self.len == other.len && self.addr.is_same(&other.addr)
    }
}
