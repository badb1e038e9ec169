// The names of halves: `in/N` and `out/N`, N the serial of their association.
ghost use Rattle.std.specs.Prelude.{◌≡◌, ℕ, ◌^◌, ◌<◌, ◌++◌, IfOk};
ghost use Rattle.std.specs.Fmt.{decimal};
ghost use Rattle.std.specs.Str.{bytes_eq};
ghost use Rattle.ikeless_tree.specs.Half.{in_name, out_name};
ghost use Rattle.ctl_tunnels.specs.Halves as halves;

use ikl_base::{Name, NoMemory};
use std::alloc::Global;
use yang_values::{put_number, read_u64};

/// Which half of an association.
#[derive(Clone, Copy, Debug, PartialEq, Eq)]
pub enum Side {
    In,
    Out,
}

/// A half, by its association.
#[derive(Clone, Copy, Debug, PartialEq, Eq)]
pub struct HalfName {
    pub side: Side,
    pub serial: u32,
}

fn write_after(alloc: Global, front: &[u8], serial: u32) -> Result<Name, NoMemory>
    ensures { IfOk result (λ name. name ≡ front.now ++ decimal serial) }
{
    let mut text = Vec::from_slice(alloc, front)?;
    put_number(&mut text, u64::from(serial))?;
    Name::from_slice(alloc, text.as_slice())
}

/// The name of an inbound half.
#[tactic(auto, unfolding(ikeless_tree::specs::Half::in_name))]
pub fn write_in_name(alloc: Global, serial: u32) -> Result<Name, NoMemory>
    ensures { IfOk result (λ name. name ≡ in_name serial) }
{
    write_after(alloc, b"in/", serial)
}

/// The name of an outbound half.
#[tactic(auto, unfolding(ikeless_tree::specs::Half::out_name))]
pub fn write_out_name(alloc: Global, serial: u32) -> Result<Name, NoMemory>
    ensures { IfOk result (λ name. name ≡ out_name serial) }
{
    write_after(alloc, b"out/", serial)
}

// The serial after the front of a name.
fn serial_after(front: &[u8], name: &[u8]) -> Option<u32>
    ensures { result ≡ halves.serial_after front.now name.now }
{
    if name.len() < front.len() {
        return None;
    }
    let (start, digits) = name.split_at(front.len());
    if start != front {
        return None;
    }
    match read_u64(digits) {
        Ok(n) => {
            if n <= 4294967295 {
                Some(n as u32)
            } else {
                None
            }
        }
        Err(_) => None,
    }
}

/// Which half has this name, if it is one that a controller gives.
#[tactic(auto, unfolding(crate::specs::Halves::half_named))]
pub fn read_half_name(name: &[u8]) -> Option<HalfName>
    ensures { result ≡ halves.half_named name.now }
{
    match serial_after(b"in/", name) {
        Some(serial) => Some(HalfName {
            side: Side::In,
            serial,
        }),
        None => match serial_after(b"out/", name) {
            Some(serial) => Some(HalfName {
                side: Side::Out,
                serial,
            }),
            None => None,
        },
    }
}
