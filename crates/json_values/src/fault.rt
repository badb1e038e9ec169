// What is wrong in a body, and where.
ghost use Rattle.std.specs.Prelude.{◌≡◌, Result, Some, IfOk};
ghost use Rattle.ikl_base.specs.Answers.{Gives};
ghost use Rattle.json_values.specs.Faults.{tag_of, app_of, value_kind, tree_kind, here, deeper, below, within, of_member, at_member, no_json, told_fault, told};

use ikeless_tree::{App, Tag, TreeFault};
use ikl_base::{NoMemory, Octets, OrMemory};
use std::alloc::Global;
use yang_values::BadValue;

/// What is wrong with an object or a value.
#[derive(Clone, Copy, Debug, PartialEq, Eq)]
pub enum Kind {
    /// An object has a member that it is not to have.
    Unknown,
    /// An object lacks a member, or a list of one hasn't one item.
    Missing,
    /// A value is of another kind, or is spelled otherwise.
    Form,
    /// A number or a length is out of range.
    Range,
    /// A value is one that isn't supported.
    Unsupported,
    /// A name isn't one, or is there already.
    Name,
    /// There are too many entries.
    Full,
}

/// What is wrong, and the JSON Pointer (RFC 6901) to the object or value.
#[derive(Debug, Drop)]
pub struct Fault {
    pub kind: Kind,
    pub path: Octets,
}

/// Why a body is refused: an error tag (RFC 8040 section 7), an app tag, and the JSON Pointer (RFC 6901) to the
/// object or value. A body that isn't JSON has no pointer.
#[derive(Debug, Drop)]
pub struct CodecFault {
    pub tag: Tag,
    pub app: App,
    pub path: Option<Octets>,
}

fn tag(kind: Kind) -> Tag
    ensures { result ≡ tag_of kind }
{
    match kind {
        Kind::Unknown => Tag::UnknownElement,
        Kind::Missing => Tag::BadElement,
        Kind::Form => Tag::InvalidValue,
        Kind::Range => Tag::InvalidValue,
        Kind::Unsupported => Tag::BadElement,
        Kind::Name => Tag::InvalidValue,
        Kind::Full => Tag::ResourceDenied,
    }
}

fn app(kind: Kind) -> App
    ensures { result ≡ app_of kind }
{
    match kind {
        Kind::Unknown => App::Unknown,
        Kind::Missing => App::Missing,
        Kind::Form => App::Form,
        Kind::Range => App::Range,
        Kind::Unsupported => App::Unsupported,
        Kind::Name => App::Name,
        Kind::Full => App::Full,
    }
}

pub(crate) fn kind_of_value(e: BadValue) -> Kind
    ensures { result ≡ value_kind e }
{
    match e {
        BadValue::Form => Kind::Form,
        BadValue::Range => Kind::Range,
    }
}

/// What is wrong, for a fault of a policy or a half.
pub fn kind_of_tree(e: TreeFault) -> Kind
    ensures { result ≡ tree_kind e }
{
    match e {
        TreeFault::TooMany => Kind::Full,
        TreeFault::DuplicateName => Kind::Name,
        TreeFault::BadName => Kind::Name,
        TreeFault::BadSpi => Kind::Range,
        TreeFault::BadKeyLength => Kind::Range,
        TreeFault::BadWindow => Kind::Range,
        TreeFault::EmptyRange => Kind::Range,
        TreeFault::Unsupported(_) => Kind::Unsupported,
    }
}

/// A fault of the value that is looked at.
pub(crate) fn at_value(alloc: Global, kind: Kind) -> Fault
    ensures { result ≡ here kind }
{
    Fault {
        kind,
        path: Octets::new(alloc),
    }
}

fn pointer(alloc: Global, name: &[u8], path: &[u8]) -> Result<Octets, NoMemory>
    ensures { IfOk result (λ p. p ≡ deeper name.now path.now) }
{
    let mut text = Vec::new(alloc);
    text.push(b'/')?;
    text.extend_from_slice(name)?;
    text.extend_from_slice(path)?;
    Ok(Octets::from_items(text))
}

fn deepened(alloc: Global, name: &[u8], found: Fault) -> Result<Fault, NoMemory>
    ensures { IfOk result (λ f. f ≡ below name.now found) }
{
    let path = pointer(alloc, name, found.path.as_slice())?;
    Ok(Fault {
        kind: found.kind,
        path,
    })
}

/// What was read of a member or an item, whose faults are found below it.
pub fn within<T: Drop>(
    alloc: Global,
    name: &[u8],
    found: Result<T, OrMemory<Fault>>,
) -> Result<T, OrMemory<Fault>>
    ensures { (stated : Result T Fault) → Gives found stated → Gives result (within name.now stated) }
{
    match found {
        Ok(x) => Ok(x),
        Err(OrMemory::NoMemory) => Err(OrMemory::NoMemory),
        Err(OrMemory::Refused(fault)) => match deepened(alloc, name, fault) {
            Ok(fault) => Err(OrMemory::Refused(fault)),
            Err(NoMemory) => Err(OrMemory::NoMemory),
        },
    }
}

fn member_fault(alloc: Global, name: &[u8], kind: Kind) -> Result<Fault, NoMemory>
    ensures { IfOk result (λ f. f ≡ of_member name.now kind) }
{
    match kind {
        Kind::Missing => Ok(at_value(alloc, kind)),
        _ => deepened(alloc, name, at_value(alloc, kind)),
    }
}

/// What was read of a member; it is the object that lacks an absent one.
pub fn at_member<T: Drop>(
    alloc: Global,
    name: &[u8],
    found: Result<T, Kind>,
) -> Result<T, OrMemory<Fault>>
    ensures { Gives result (at_member name.now found) }
{
    match found {
        Ok(x) => Ok(x),
        Err(kind) => match member_fault(alloc, name, kind) {
            Ok(fault) => Err(OrMemory::Refused(fault)),
            Err(NoMemory) => Err(OrMemory::NoMemory),
        },
    }
}

/// What was read and copied of a member; it is the object that lacks an absent one.
pub fn at_made<T: Drop>(
    alloc: Global,
    name: &[u8],
    found: Result<T, OrMemory<Kind>>,
) -> Result<T, OrMemory<Fault>>
    ensures { (stated : Result T Kind) → Gives found stated → Gives result (at_member name.now stated) }
{
    match found {
        Ok(x) => Ok(x),
        Err(OrMemory::NoMemory) => Err(OrMemory::NoMemory),
        Err(OrMemory::Refused(kind)) => match member_fault(alloc, name, kind) {
            Ok(fault) => Err(OrMemory::Refused(fault)),
            Err(NoMemory) => Err(OrMemory::NoMemory),
        },
    }
}

/// The answer for octets that are no JSON (RFC 8259).
pub fn not_json() -> CodecFault
    ensures { result ≡ no_json }
{
    CodecFault {
        tag: Tag::MalformedMessage,
        app: App::Json,
        path: None,
    }
}

fn codec_fault(fault: Fault) -> CodecFault
    ensures { result ≡ told_fault fault }
{
    CodecFault {
        tag: tag(fault.kind),
        app: app(fault.kind),
        path: Some(fault.path),
    }
}

/// The same answer, its fault with the tags of a reply.
pub fn answer<T: Drop>(found: Result<T, OrMemory<Fault>>) -> Result<T, OrMemory<CodecFault>>
    ensures { (stated : Result T Fault) → Gives found stated → Gives result (told stated) }
{
    match found {
        Ok(x) => Ok(x),
        Err(OrMemory::NoMemory) => Err(OrMemory::NoMemory),
        Err(OrMemory::Refused(fault)) => Err(OrMemory::Refused(codec_fault(fault))),
    }
}
