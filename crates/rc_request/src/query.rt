// Where a new policy stands, by the query of its request.
ghost use Rattle.std.specs.Prelude.{◌≡◌, ◌==◌, codes, position, Option, Some, None, IfOk};
ghost use Rattle.std.specs.Option.{option_copied, option_map};
ghost use Rattle.std.specs.List.{slice_split};
ghost use Rattle.percent_encoding.specs.Percent.{percent_decode};
ghost use Rattle.reply_table.specs.declared.ask.Place.TheVariants as places;
ghost use Rattle.rc_request.specs.Paths.{after_front};
ghost use Rattle.rc_request.specs.Queries.{before_mark, behind_mark, texts, with_insert, with_point, with_value, with_parameter, with_parameters, parameters_of, key_in, in_short, policy_at, pointed, alone, place_for, place_by, place_of};

use crate::path::{decoded, policy_key};
use crate::resource::behind;
use ikl_base::{Name, NoMemory, Octets};
use reply_table::Place;
use std::alloc::{AllocError, Global};

/// The values of the parameters that are there, without escapes.
#[derive(Drop)]
pub(crate) struct Parameters {
    pub insert: Option<Octets>,
    pub point: Option<Octets>,
}

fn place_of_mark(text: &[u8], mark: u8) -> Option<usize>
    ensures { result ≡ position (λ c. c == mark) text.now }
{
    text.iter().position(|octet| *octet == mark)
}

/// What stands before the first mark, or all.
pub(crate) fn before(text: &[u8], mark: u8) -> &[u8]
    ensures { result.now ≡ before_mark mark text.now }
{
    match place_of_mark(text, mark) {
        Some(at) => &text[..at],
        None => text,
    }
}

/// What stands behind the first mark, where there is one.
pub(crate) fn after(text: &[u8], mark: u8) -> Option<&[u8]>
    ensures { option_copied result ≡ behind_mark mark text.now }
{
    match place_of_mark(text, mark) {
        Some(at) => Some(&text[at + 1..]),
        None => None,
    }
}

fn with_insert(found: Parameters, value: Octets) -> Option<Parameters>
    ensures { result ≡ with_insert found value found.insert }
{
    match found.insert {
        None => Some(Parameters {
            insert: Some(value),
            point: found.point,
        }),
        Some(_) => None,
    }
}

fn with_point(found: Parameters, value: Octets) -> Option<Parameters>
    ensures { result ≡ with_point found value found.point }
{
    match found.point {
        None => Some(Parameters {
            insert: found.insert,
            point: Some(value),
        }),
        Some(_) => None,
    }
}

fn value_of(alloc: Global, text: &[u8]) -> Result<Octets, NoMemory>
    ensures { IfOk result (λ value. value ≡ percent_decode text.now) }
{
    Ok(Octets::from_items(decoded(alloc, text)?))
}

fn with_value(
    alloc: Global,
    found: Parameters,
    name: &[u8],
    value: &[u8],
) -> Result<Option<Parameters>, NoMemory>
    ensures { IfOk result (λ more. more ≡ with_value found name.now (Some value.now)) }
{
    if name == b"insert".as_slice() {
        Ok(with_insert(found, value_of(alloc, value)?))
    } else if name == b"point".as_slice() {
        Ok(with_point(found, value_of(alloc, value)?))
    } else {
        Ok(None)
    }
}

#[tactic(auto, unfolding(crate::specs::Queries::with_parameter))]
fn with_parameter(
    alloc: Global,
    found: Parameters,
    text: &[u8],
) -> Result<Option<Parameters>, NoMemory>
    ensures { IfOk result (λ more. more ≡ with_parameter found text.now) }
{
    match after(text, b'=') {
        Some(value) => with_value(alloc, found, before(text, b'='), value),
        None => Ok(None),
    }
}

fn with_parameters(
    alloc: Global,
    found: Parameters,
    list: &[&[u8]],
) -> Result<Option<Parameters>, NoMemory>
    ensures { IfOk result (λ more. more ≡ with_parameters found (texts list.now)) }
{
    let mut found = found;
    for text in list {
        match with_parameter(alloc, found, text)? {
            Some(more) => found = more,
            None => return Ok(None),
        }
    }
    Ok(Some(found))
}

fn parts(alloc: Global, query: &[u8]) -> Result<Vec<&[u8]>, AllocError>
    ensures { IfOk result (λ v. texts v.items ≡ slice_split (λ c. c == 38) query.now) }
{
    query.split(|octet| *octet == b'&').collect(alloc)
}

#[tactic(auto, unfolding(crate::specs::Queries::parameters_of))]
fn read_parameters(alloc: Global, query: &[u8]) -> Result<Option<Parameters>, NoMemory>
    ensures { IfOk result (λ found. found ≡ parameters_of query.now) }
{
    let none = Parameters {
        insert: None,
        point: None,
    };
    let list = parts(alloc, query)?;
    with_parameters(alloc, none, list.as_slice())
}

fn policy_in(alloc: Global, text: &[u8]) -> Result<Option<Name>, NoMemory>
    ensures { IfOk result (λ name. name ≡ key_in (after_front (codes "/spd/spd-entry=") text.now)) }
{
    match behind(b"/spd/spd-entry=", text) {
        Some(key) => policy_key(alloc, key),
        None => Ok(None),
    }
}

fn policy_in_short(alloc: Global, path: &[u8]) -> Result<Option<Name>, NoMemory>
    ensures { IfOk result (λ name. name ≡ in_short (after_front (codes "/ietf-i2nsf-ikeless:ipsec-ikeless") path.now)) }
{
    match behind(b"/ietf-i2nsf-ikeless:ipsec-ikeless", path) {
        Some(text) => policy_in(alloc, text),
        None => Ok(None),
    }
}

// The name of the policy that a point is the path of.
#[tactic(auto, unfolding(crate::specs::Queries::policy_at))]
fn policy(alloc: Global, path: &[u8]) -> Result<Option<Name>, NoMemory>
    ensures { IfOk result (λ name. name ≡ policy_at path.now) }
{
    match behind(b"/restconf/data/ietf-i2nsf-ikeless:ipsec-ikeless", path) {
        Some(text) => policy_in(alloc, text),
        None => policy_in_short(alloc, path),
    }
}

fn pointed(alloc: Global, point: &Option<Octets>) -> Result<Option<Name>, NoMemory>
    ensures { IfOk result (λ name. name ≡ pointed point.now) }
{
    match point {
        Some(path) => policy(alloc, path.as_slice()),
        None => Ok(None),
    }
}

fn place_before(alloc: Global, point: &Option<Octets>) -> Result<Option<Place>, NoMemory>
    ensures { IfOk result (λ place. place ≡ option_map places.Before (pointed point.now)) }
{
    match pointed(alloc, point)? {
        Some(name) => Ok(Some(Place::Before(name))),
        None => Ok(None),
    }
}

fn place_after(alloc: Global, point: &Option<Octets>) -> Result<Option<Place>, NoMemory>
    ensures { IfOk result (λ place. place ≡ option_map places.After (pointed point.now)) }
{
    match pointed(alloc, point)? {
        Some(name) => Ok(Some(Place::After(name))),
        None => Ok(None),
    }
}

fn without(place: Place, point: &Option<Octets>) -> Option<Place>
    ensures { result ≡ alone place point.now }
{
    match point {
        Some(_) => None,
        None => Some(place),
    }
}

#[tactic(auto, unfolding(crate::specs::Queries::place_for))]
fn place_for(
    alloc: Global,
    insert: &[u8],
    point: &Option<Octets>,
) -> Result<Option<Place>, NoMemory>
    ensures { IfOk result (λ place. place ≡ place_for insert.now point.now) }
{
    if insert == b"first".as_slice() {
        Ok(without(Place::First, point))
    } else if insert == b"last".as_slice() {
        Ok(without(Place::Last, point))
    } else if insert == b"before".as_slice() {
        place_before(alloc, point)
    } else if insert == b"after".as_slice() {
        place_after(alloc, point)
    } else {
        Ok(None)
    }
}

fn place_by(alloc: Global, found: &Parameters) -> Result<Option<Place>, NoMemory>
    ensures { IfOk result (λ place. place ≡ place_by found.now.insert found.now.point) }
{
    match &found.insert {
        Some(insert) => place_for(alloc, insert.as_slice(), &found.point),
        None => Ok(without(Place::Last, &found.point)),
    }
}

/// The place that the query of a request for a new policy says. No place: the query isn't allowed.
pub(crate) fn place(alloc: Global, query: Option<&[u8]>) -> Result<Option<Place>, NoMemory>
    ensures { IfOk result (λ place. place ≡ place_of (option_copied query.entry)) }
{
    match query {
        None => Ok(Some(Place::Last)),
        Some(query) => match read_parameters(alloc, query)? {
            Some(found) => place_by(alloc, &found),
            None => Ok(None),
        },
    }
}
