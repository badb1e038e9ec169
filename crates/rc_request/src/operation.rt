// Which methods a resource has.
ghost use Rattle.std.specs.Prelude.{◌≡◌, Option, Some};
ghost use Rattle.rc_request.specs.Operations.{allow_text, method_of, on_sad, on_sad_entry, on_spd, on_spd_entry, operation_by, operation_of};

use crate::resource::Resource;
use ikl_base::Name;

/// The methods of requests (RFC 8040 section 4) that some resource has.
#[derive(Clone, Copy, Debug, PartialEq, Eq)]
pub(crate) enum Method {
    Get,
    Put,
    Post,
    Delete,
}

/// What a method does to a resource.
#[derive(Debug, Drop)]
pub(crate) enum Operation {
    GetSpd,
    PutSpd,
    PostSpd,
    GetSpdEntry(Name),
    PutSpdEntry(Name),
    DeleteSpdEntry(Name),
    GetSad,
    PostSad,
    GetSadEntry(Name),
    DeleteSad(Name),
}

/// The method of this name.
#[tactic(auto, unfolding(crate::specs::Operations::method_of))]
pub(crate) fn method_named(text: &[u8]) -> Option<Method>
    ensures { result ≡ method_of text.now }
{
    if text == b"GET".as_slice() {
        Some(Method::Get)
    } else if text == b"PUT".as_slice() {
        Some(Method::Put)
    } else if text == b"POST".as_slice() {
        Some(Method::Post)
    } else if text == b"DELETE".as_slice() {
        Some(Method::Delete)
    } else {
        None
    }
}

fn of_spd(method: Method) -> Option<Operation>
    ensures { result ≡ on_spd method }
{
    match method {
        Method::Get => Some(Operation::GetSpd),
        Method::Put => Some(Operation::PutSpd),
        Method::Post => Some(Operation::PostSpd),
        Method::Delete => None,
    }
}

fn of_spd_entry(name: Name, method: Method) -> Option<Operation>
    ensures { result ≡ on_spd_entry name method }
{
    match method {
        Method::Get => Some(Operation::GetSpdEntry(name)),
        Method::Put => Some(Operation::PutSpdEntry(name)),
        Method::Post => None,
        Method::Delete => Some(Operation::DeleteSpdEntry(name)),
    }
}

fn of_sad(method: Method) -> Option<Operation>
    ensures { result ≡ on_sad method }
{
    match method {
        Method::Get => Some(Operation::GetSad),
        Method::Post => Some(Operation::PostSad),
        Method::Put | Method::Delete => None,
    }
}

fn of_sad_entry(name: Name, method: Method) -> Option<Operation>
    ensures { result ≡ on_sad_entry name method }
{
    match method {
        Method::Get => Some(Operation::GetSadEntry(name)),
        Method::Delete => Some(Operation::DeleteSad(name)),
        Method::Put | Method::Post => None,
    }
}

fn operation_with(r: Resource, method: Method) -> Option<Operation>
    ensures { result ≡ operation_of r method }
{
    match r {
        Resource::Spd => of_spd(method),
        Resource::SpdEntry(name) => of_spd_entry(name, method),
        Resource::Sad => of_sad(method),
        Resource::SadEntry(name) => of_sad_entry(name, method),
    }
}

/// What a method does to a resource, where the resource has it.
pub(crate) fn operation_on(r: Resource, method: Option<Method>) -> Option<Operation>
    ensures { result ≡ operation_by r method }
{
    match method {
        Some(method) => operation_with(r, method),
        None => None,
    }
}

/// The methods of a resource, as the field Allow has them (RFC 9110 section 10.2.1).
pub(crate) fn allow(r: &Resource) -> &'static [u8]
    ensures { result.now ≡ allow_text r.now }
{
    match r {
        Resource::Spd => b"GET, PUT, POST",
        Resource::SpdEntry(_) => b"GET, PUT, DELETE",
        Resource::Sad => b"GET, POST",
        Resource::SadEntry(_) => b"GET, DELETE",
    }
}
