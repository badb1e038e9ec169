// The answers that responses to orders say.
ghost use Rattle.std.specs.Prelude.{◌≡◌, Ok, MatchResult};
ghost use Rattle.serde_json.specs.View.{view, items_view};
ghost use Rattle.ikl_base.specs.Answers.{Gives, Refuses};
ghost use Rattle.ikl_base.specs.declared.fault.OrMemory.TheVariants as failures;
ghost use Rattle.json_codec.specs.Bodies.{json_of};
ghost use Rattle.rc_answer.specs.Answers.{answer_of, app_in, bad, change_of, done, error_in, error_of, halves_in, items_in, member_text, name_in, names_in, names_of, one_in, or_bad, policies_of, reading_of, refusal_of, sole, tag_in, tags_in};

use ikeless_tree::{Answer, App, Names, Order, Tag, names_half};
use ikl_base::{ListOf, Name, OrMemory};
use json_values::{only, text_of};
use rc_http::HttpMessage;
use serde_json::Value;
use std::alloc::Global;

/// A response that is no answer to the order that was given.
#[derive(Clone, Copy, Debug, PartialEq, Eq)]
pub struct BadAnswer;

/// The tags of an error (RFC 8040 section 7.1).
#[derive(Clone, Copy, Debug, PartialEq, Eq)]
pub struct ErrorTags {
    pub tag: Tag,
    pub app: App,
}

// ---- parts of a body

fn bad() -> OrMemory<BadAnswer>
    ensures { result ≡ failures.Refused bad }
{
    OrMemory::Refused(BadAnswer)
}

#[tactic(auto, using(json_codec::proofs::JsonText::json_is_read, json_codec::proofs::JsonText::json_is_unread))]
fn json(alloc: Global, body: &[u8]) -> Result<Value, OrMemory<BadAnswer>>
    ensures { MatchResult result (λ v. or_bad (json_of body.now) ≡ Ok (view v))
        (λ e. Refuses e (or_bad (json_of body.now))) }
{
    match Value::from_slice(alloc, body) {
        Ok(value) => Ok(value),
        Err(e) => {
            if e.is_memory() {
                Err(OrMemory::NoMemory)
            } else {
                Err(bad())
            }
        }
    }
}

// The value of an object's only member.
fn sole<'a>(alloc: Global, name: &str, value: &'a Value) -> Result<&'a Value, OrMemory<BadAnswer>>
    ensures { MatchResult result (λ v. sole name.now (view value.now) ≡ Ok (view v.now))
        (λ e. Refuses e (sole name.now (view value.now))) }
{
    match only(alloc, name, value) {
        Ok(inner) => Ok(inner),
        Err(OrMemory::Refused(_)) => Err(bad()),
        Err(OrMemory::NoMemory) => Err(OrMemory::NoMemory),
    }
}

// The text of a member.
fn text<'a>(name: &str, value: &'a Value) -> Result<&'a str, OrMemory<BadAnswer>>
    ensures { MatchResult result (λ t. member_text name.now (view value.now) ≡ Ok t.now)
        (λ e. Refuses e (member_text name.now (view value.now))) }
{
    match text_of(value.get(name)) {
        Ok(text) => Ok(text),
        Err(_) => Err(bad()),
    }
}

fn items(value: &Value) -> Result<&[Value], OrMemory<BadAnswer>>
    ensures { MatchResult result (λ vs. items_in (view value.now) ≡ Ok (items_view vs.now))
        (λ e. Refuses e (items_in (view value.now))) }
{
    match value.as_array() {
        Some(items) => Ok(items.as_slice()),
        None => Err(bad()),
    }
}

// ---- names

fn name(alloc: Global, value: &Value) -> Result<Name, OrMemory<BadAnswer>>
    ensures { Gives result (name_in (view value.now)) }
{
    match text("name", value) {
        Ok(text) if names_half(text.as_bytes()) => Ok(Name::from_slice(alloc, text.as_bytes())?),
        Ok(_) => Err(bad()),
        Err(refused) => Err(refused),
    }
}

fn names(alloc: Global, items: &[Value]) -> Result<Names, OrMemory<BadAnswer>>
    ensures { Gives result (names_in (items_view items.now)) }
{
    let mut names = ListOf::new(alloc);
    for item in items {
        match name(alloc, item) {
            Ok(name) => names.push(name)?,
            Err(refused) => return Err(refused),
        }
    }
    Ok(names)
}

fn halves(alloc: Global, value: &Value) -> Result<Names, OrMemory<BadAnswer>>
    ensures { Gives result (halves_in (view value.now)) }
{
    let database = sole(alloc, "ietf-i2nsf-ikeless:sad", value)?;
    let list = sole(alloc, "sad-entry", database)?;
    names(alloc, items(list)?)
}

#[tactic(auto, unfolding(crate::specs::Answers::names_of))]
fn shown_names(alloc: Global, body: &[u8]) -> Result<Names, OrMemory<BadAnswer>>
    ensures { Gives result (names_of body.now) }
{
    let value = json(alloc, body)?;
    halves(alloc, &value)
}

// ---- errors

fn one(items: &[Value]) -> Result<&Value, OrMemory<BadAnswer>>
    ensures { MatchResult result (λ v. one_in (items_view items.now) ≡ Ok (view v.now))
        (λ e. Refuses e (one_in (items_view items.now))) }
{
    match items {
        [item] => Ok(item),
        [] => Err(bad()),
        [_, _, ..] => Err(bad()),
    }
}

fn tag(value: &Value) -> Result<Tag, OrMemory<BadAnswer>>
    ensures { Gives result (tag_in (view value.now)) }
{
    match Tag::named(text("error-tag", value)?.as_bytes()) {
        Some(tag) => Ok(tag),
        None => Err(bad()),
    }
}

fn app(value: &Value) -> Result<App, OrMemory<BadAnswer>>
    ensures { Gives result (app_in (view value.now)) }
{
    match App::named(text("error-app-tag", value)?.as_bytes()) {
        Some(app) => Ok(app),
        None => Err(bad()),
    }
}

fn tags(value: &Value) -> Result<ErrorTags, OrMemory<BadAnswer>>
    ensures { Gives result (tags_in (view value.now)) }
{
    let tag = tag(value)?;
    let app = app(value)?;
    Ok(ErrorTags { tag, app })
}

fn error(alloc: Global, value: &Value) -> Result<ErrorTags, OrMemory<BadAnswer>>
    ensures { Gives result (error_in (view value.now)) }
{
    let errors = sole(alloc, "ietf-restconf:errors", value)?;
    let list = sole(alloc, "error", errors)?;
    tags(one(items(list)?)?)
}

/// The tags of the one error that a body has (RFC 8040 section 7.1); its other members aren't looked at.
#[tactic(auto, unfolding(crate::specs::Answers::error_of))]
pub fn read_error(alloc: Global, body: &[u8]) -> Result<ErrorTags, OrMemory<BadAnswer>>
    ensures { Gives result (error_of body.now) }
{
    let value = json(alloc, body)?;
    error(alloc, &value)
}

// ---- answers

fn reading(alloc: Global, m: &HttpMessage) -> Result<Answer, OrMemory<BadAnswer>>
    ensures { Gives result (reading_of m.now) }
{
    if m.status != 200 {
        return Err(bad());
    }
    let names = shown_names(alloc, m.body.as_slice())?;
    Ok(Answer {
        status: 200,
        tag: None,
        names,
    })
}

fn done(alloc: Global, status: u16) -> Answer
    ensures { result ≡ done status }
{
    Answer {
        status,
        tag: None,
        names: Names::new(alloc),
    }
}

fn refusal(alloc: Global, status: u16, m: &HttpMessage) -> Result<Answer, OrMemory<BadAnswer>>
    ensures { Gives result (refusal_of status m.now) }
{
    if m.status != status {
        return Err(bad());
    }
    let found = read_error(alloc, m.body.as_slice())?;
    Ok(Answer {
        status,
        tag: Some(found.tag),
        names: Names::new(alloc),
    })
}

// The answer to an order that is done with one status, and refused with another.
fn change(
    alloc: Global,
    success: u16,
    failure: u16,
    m: &HttpMessage,
) -> Result<Answer, OrMemory<BadAnswer>>
    ensures { Gives result (change_of success failure m.now) }
{
    if m.status == success {
        Ok(done(alloc, success))
    } else {
        refusal(alloc, failure, m)
    }
}

fn policies(alloc: Global, m: &HttpMessage) -> Result<Answer, OrMemory<BadAnswer>>
    ensures { Gives result (policies_of m.now) }
{
    if m.status == 204 {
        Ok(done(alloc, 204))
    } else {
        Err(bad())
    }
}

/// The answer that a response to this order says.
///
/// A reading is answered with 200, a list of policies with 204, a put with 201 or 409, and a removal with 204 or 404. Of
/// the bodies that of a 200 and those of errors are looked at.
pub fn read_answer(alloc: Global, o: &Order, m: &HttpMessage) -> Result<Answer, OrMemory<BadAnswer>>
    ensures { Gives result (answer_of o.now m.now) }
{
    match o {
        Order::Read => reading(alloc, m),
        Order::Policy(_) => policies(alloc, m),
        Order::Put(_) => change(alloc, 201, 409, m),
        Order::Remove(_) => change(alloc, 204, 404, m),
    }
}
