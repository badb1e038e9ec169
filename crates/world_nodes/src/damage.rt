// Datagrams that come again, damaged.
ghost use Rattle.std.specs.Prelude.{◌≡◌, ◌<◌};
ghost use Rattle.hist_world.specs.Arrivals.{flipped};

/// Changes one bit of one octet, 0 the lowest; nothing if there is no such octet.
pub fn flip_bit(octets: &mut [u8], offset: u64, bit: u8)
    requires { bit < 8 }
    ensures { octets.new ≡ flipped offset bit octets.old }
{
    let place = offset as usize;
    if place < octets.len() {
        octets[place] ^= 1 << bit;
    }
}
