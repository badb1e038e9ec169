// The operations, by their paths.
ghost use Rattle.std.specs.Prelude.{◌≡◌, ◌==◌, codes, position, Option, Some, IfOk, IfSome, IsTrue};
ghost use Rattle.std.specs.Option.{option_copied};
ghost use Rattle.std.specs.Str.{bytes_eq};
ghost use Rattle.json_codec.specs.CommandRead.{is_operation};
ghost use Rattle.rc_request.specs.Paths.{after_front};
ghost use Rattle.rc_request.specs.Queries.{before_mark, behind_mark};
ghost use Rattle.rc_operations.specs.Operations.{known_name, operation_at, operations_path};

use ikl_base::{Name, NoMemory};
use std::alloc::Global;

const OPERATIONS: &[u8] = b"/restconf/operations/ikl-control:";

fn place_of_mark(text: &[u8]) -> Option<usize>
    ensures { result ≡ position (λ c. c == 63) text.now }
{
    text.iter().position(|octet| *octet == b'?')
}

/// What stands before the query of a target.
pub(crate) fn path_of(target: &[u8]) -> &[u8]
    ensures { result.now ≡ before_mark 63 target.now }
{
    match place_of_mark(target) {
        Some(at) => &target[..at],
        None => target,
    }
}

/// The query of a target, where there is one.
pub(crate) fn query_of(target: &[u8]) -> Option<&[u8]>
    ensures { option_copied result ≡ behind_mark 63 target.now }
{
    match place_of_mark(target) {
        Some(at) => Some(&target[at + 1..]),
        None => None,
    }
}

/// Whether two texts are one.
pub(crate) fn is_called(text: &[u8], name: &[u8]) -> bool
    ensures { result ≡ bytes_eq text.now name.now }
{
    text == name
}

fn is_operation(name: &[u8]) -> bool
    ensures { result ≡ is_operation name.now }
{
    is_called(name, b"policy")
        || is_called(name, b"tunnel")
        || is_called(name, b"end")
        || is_called(name, b"rekey")
        || is_called(name, b"keys")
}

fn behind<'a>(front: &[u8], text: &'a [u8]) -> Option<&'a [u8]>
    ensures { option_copied result ≡ after_front front.now text.now }
{
    text.strip_prefix(front)
}

fn known(alloc: Global, name: &[u8]) -> Result<Option<Name>, NoMemory>
    ensures name { IfOk result (λ found. found ≡ known_name (Some name.now)) }
    ensures known { IfOk result (λ found. IfSome found (λ n. IsTrue (is_operation n))) }
{
    if is_operation(name) {
        Ok(Some(Name::from_slice(alloc, name)?))
    } else {
        Ok(None)
    }
}

/// The name of the operation that has this path.
pub(crate) fn operation_named(alloc: Global, path: &[u8]) -> Result<Option<Name>, NoMemory>
    ensures name { IfOk result (λ found. found ≡ operation_at path.now) }
    ensures known { IfOk result (λ found. IfSome found (λ n. IsTrue (is_operation n))) }
{
    match behind(OPERATIONS, path) {
        Some(name) => known(alloc, name),
        None => Ok(None),
    }
}
