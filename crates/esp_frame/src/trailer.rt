//! Padding, pad length and next header (RFC 4303, sections 2.4 to 2.6).

ghost use Rattle.std.specs.Prelude.{◌≡◌, ◌+◌, ◌-◌, ◌≤◌, [], ◌∷◌, ◌++◌, MatchOption, length, slice_index, take};
ghost use Rattle.esp_frame.specs.Esp.{Inner, NoInner, pad_len, padded, padding};

// The least number of octets of padding after `len` octets.
pub(crate) fn pad_len(len: usize) -> usize
    requires { len ≤ 65535 }
    ensures { result ≡ pad_len len }
{
    (4 - (len + 2) % 4) % 4
}

// Fills `back` with padding, its length and the next header.
fn write_trailer(back: &mut [u8], next: u8)
    requires some { 2 ≤ length back.old }
    requires few { length back.old ≤ 257 }
    ensures { let q = length back.old - 2 in back.new ≡ padding q ++ q ∷ next ∷ [] }
{
    let q = back.len() - 2;
    'octets: for i in 0..q {
        back[i] = i as u8 + 1;
    }
    back[q] = q as u8;
    back[q + 1] = next;
}

// Fills `text` with the packet and its trailer.
pub(crate) fn write_padded(text: &mut [u8], packet: &[u8], next: u8)
    requires { length text.old ≡ length packet.now + pad_len (length packet.now) + 2 }
    ensures { text.new ≡ padded (pad_len (length packet.now)) next packet.now }
{
    let (front, back) = text.split_at_mut(packet.len());
    front.copy_from_slice(packet);
    write_trailer(back, next);
}

// How many octets the packet in the opened text has.
pub(crate) fn packet_len(text: &[u8]) -> Option<usize>
    requires { 2 ≤ length text.now }
    ensures { MatchOption result (NoInner text.now)
        (λ n. (n + 2 ≤ length text.now) × Inner text.now (slice_index text.now (length text.now - 1)) (take n text.now)) }
{
    let end = text.len() - 2;
    let pad = text[end] as usize;
    if pad > end {
        return None;
    }
    'octets: for i in 0..pad {
        if text[end - pad + i] as usize != i + 1 {
            return None;
        }
    }
    Some(end - pad)
}
