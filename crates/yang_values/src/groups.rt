// IPv6 addresses: eight groups of hex digits with colons between them, of which `::` leaves zero ones out.
ghost use Rattle.std.specs.Prelude.{◌≡◌, ◌+◌, ◌≤◌, ◌<◌, ◌++◌, ◌∷◌, length, take, Some, false, option_and_then, IfSome, MatchOption};
ghost use Rattle.std.specs.Fmt.{digit_glyph};
ghost use Rattle.std.specs.List.{flat_map};
ghost use Rattle.yang_values.specs.Addresses.{groups_of, octets_of, group_text, joined, zeros_at_front, longest_run, first_run, shortened, groups_text, groups_in, double_colon, is_double_at, eight, eight_between, filled, eight_from};
ghost use Rattle.ikl_base.specs.Answers.{Adds};

use crate::digits::read_hex_number;
use crate::parts::first_part;
use ikl_base::NoMemory;

/// Up to eight groups.
#[derive(Clone, Copy, Debug)]
struct Groups {
    items: [u16; 8],
    count: usize,
    ghost in_range: { count ≤ 8 },
}

// The groups of a text in which colons join them, where they are at most eight.
fn read_groups(t: &[u8]) -> Option<Groups>
    ensures { MatchOption result (IfSome (groups_in t.now) (λ groups. 8 < length groups))
        (λ g. groups_in t.now ≡ Some (take g.count g.items)) }
{
    let mut items = [0u16; 8];
    let mut count = 0;
    if t.is_empty() {
        return Some(Groups { items, count });
    }
    let mut rest = Some(t);
    while let Some(text) = rest {
        let (part, more) = first_part(text, b':');
        let Some(group) = read_hex_number(part, 1, 4) else {
            return None;
        };
        if count == 8 {
            return None;
        }
        items[count] = group;
        count += 1;
        rest = more;
    }
    Some(Groups { items, count })
}

// Whether a `::` is here.
fn is_double(t: &[u8], i: usize) -> bool
    requires { i < length t.now }
    ensures { result ≡ is_double_at t.now i }
{
    t[i] == b':' && i + 1 < t.len() && t[i + 1] == b':'
}

// Where the first `::` is.
fn find_double(t: &[u8]) -> Option<usize>
    ensures value { result ≡ double_colon t.now }
    ensures inside { IfSome result (λ k. k + 2 ≤ length t.now) }
{
    for i in 0..t.len() {
        if is_double(t, i) {
            return Some(i);
        }
    }
    None
}

// Eight groups, of which at least one is zero and left out between these.
fn fill(front: &Groups, back: &Groups) -> Option<[u16; 8]>
    ensures { result ≡ filled (take front.now.count front.now.items) (take back.now.count back.now.items) }
{
    let (n, m) = (front.count, back.count);
    if n + m >= 8 {
        return None;
    }
    let mut items = [0u16; 8];
    items[..n].copy_from_slice(&front.items[..n]);
    items[8 - m..].copy_from_slice(&back.items[..m]);
    Some(items)
}

// The groups of a text without `::`.
fn read_whole(t: &[u8]) -> Option<[u16; 8]>
    ensures { result ≡ option_and_then eight (groups_in t.now) }
{
    match read_groups(t) {
        Some(all) if all.count == 8 => Some(all.items),
        _ => None,
    }
}

// The groups of the texts before and after a `::`.
fn read_halves(front: &[u8], back: &[u8]) -> Option<[u16; 8]>
    ensures { result ≡ eight_between (groups_in front.now) (groups_in back.now) }
{
    let Some(front) = read_groups(front) else {
        return None;
    };
    let Some(back) = read_groups(back) else {
        return None;
    };
    fill(&front, &back)
}

/// The eight groups of an IPv6 address.
#[tactic(auto, unfolding(crate::specs::Addresses::eight_from))]
pub(crate) fn read_eight(t: &[u8]) -> Option<[u16; 8]>
    ensures { result ≡ eight_from t.now (double_colon t.now) }
{
    match find_double(t) {
        None => read_whole(t),
        Some(k) => read_halves(&t[..k], &t[k + 2..]),
    }
}

/// The octets of eight groups.
pub(crate) fn to_octets(g: &[u16; 8]) -> [u8; 16]
    ensures { result ≡ octets_of g.now }
{
    [
        (g[0] / 256) as u8,
        (g[0] % 256) as u8,
        (g[1] / 256) as u8,
        (g[1] % 256) as u8,
        (g[2] / 256) as u8,
        (g[2] % 256) as u8,
        (g[3] / 256) as u8,
        (g[3] % 256) as u8,
        (g[4] / 256) as u8,
        (g[4] % 256) as u8,
        (g[5] / 256) as u8,
        (g[5] % 256) as u8,
        (g[6] / 256) as u8,
        (g[6] % 256) as u8,
        (g[7] / 256) as u8,
        (g[7] % 256) as u8,
    ]
}

// The eight groups of octets.
fn to_groups(o: &[u8; 16]) -> [u16; 8]
    ensures { result ≡ groups_of o.now }
{
    [
        o[0] as u16 * 256 + o[1] as u16,
        o[2] as u16 * 256 + o[3] as u16,
        o[4] as u16 * 256 + o[5] as u16,
        o[6] as u16 * 256 + o[7] as u16,
        o[8] as u16 * 256 + o[9] as u16,
        o[10] as u16 * 256 + o[11] as u16,
        o[12] as u16 * 256 + o[13] as u16,
        o[14] as u16 * 256 + o[15] as u16,
    ]
}

// How many zero groups the list begins with.
fn zeros(groups: &[u16]) -> usize
    ensures value { result ≡ zeros_at_front groups.now }
    ensures inside { result ≤ length groups.now }
{
    groups.iter().take_while(|g| **g == 0).count()
}

// Where the longest run of zero groups begins, the first of equal ones, and how long it is.
fn longest(groups: &[u16]) -> (usize, usize)
    ensures place { result.0 ≡ first_run (longest_run groups.now) groups.now }
    ensures length { result.1 ≡ longest_run groups.now }
    ensures inside { result.0 + result.1 ≤ length groups.now }
{
    match groups {
        [] => (0, 0),
        [_, rest @ ..] => {
            let here = zeros(groups);
            let (place, length) = longest(rest);
            if here >= length {
                (0, here)
            } else {
                (place + 1, length)
            }
        }
    }
}

// The digit of a number below sixteen, in lower case.
fn glyph(n: u8) -> u8
    requires { n < 16 }
    ensures { result ≡ digit_glyph false n }
{
    if n < 10 { 48 + n } else { 87 + n }
}

// Adds a group in hex, without leading zeros.
fn put_group(out: &mut Vec<u8>, group: u16) -> Result<(), NoMemory>
    ensures { Adds result out.old.items (group_text group) out.new.items }
{
    if group >= 16 {
        put_group(out, group / 16)?;
    }
    Ok(out.push(glyph((group % 16) as u8))?)
}

// Adds each group behind a colon.
fn put_behind(out: &mut Vec<u8>, groups: &[u16]) -> Result<(), NoMemory>
    ensures { Adds result out.old.items (flat_map (λ group. 58 ∷ group_text group) groups.now) out.new.items }
{
    for group in groups {
        out.push(b':')?;
        put_group(out, *group)?;
    }
    Ok(())
}

// Adds groups with colons between them.
fn put_joined(out: &mut Vec<u8>, groups: &[u16]) -> Result<(), NoMemory>
    ensures { Adds result out.old.items (joined groups.now) out.new.items }
{
    let [first, rest @ ..] = groups else {
        return Ok(());
    };
    put_group(out, *first)?;
    put_behind(out, rest)?;
    Ok(())
}

/// Adds the text of an IPv6 address.
#[tactic(auto, unfolding(crate::specs::Addresses::groups_text))]
pub(crate) fn put_groups(out: &mut Vec<u8>, octets: &[u8; 16]) -> Result<(), NoMemory>
    ensures { Adds result out.old.items (groups_text (groups_of octets.now)) out.new.items }
{
    let groups = to_groups(octets);
    let (place, length) = longest(&groups);
    if length < 2 {
        return put_joined(out, &groups);
    }
    put_joined(out, &groups[..place])?;
    out.extend_from_slice(b"::")?;
    put_joined(out, &groups[place + length..])
}
