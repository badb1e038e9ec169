// Refusals, and their bodies.
ghost use Rattle.std.specs.Prelude.{◌≡◌, ◌++◌, codes, Some, None, IfOk, OnOk, IsUtf8, IfSome, string_bytes};
ghost use Rattle.std.specs.Option.{option_copied};
ghost use Rattle.serde_json.specs.View.{view, members_view};
ghost use Rattle.serde_json.specs.Written.{compact_text};
ghost use Rattle.rc_resource.specs.Errors.{is_of_protocol, type_text, with_message, error_item, error_data};

use ikeless_tree::{App, Tag};
use ikl_base::{NoMemory, Octets};
use json_values::{Members, put_word, single};
use serde_json::{Map, Value};
use std::alloc::Global;

fn is_protocol(app: App) -> bool
    ensures { result ≡ is_of_protocol app }
{
    matches!(
        app,
        App::Form | App::Chunked | App::Size | App::Path | App::Method | App::Query
    )
}

fn error_type(path: Option<&[u8]>, app: App) -> &'static str
    ensures { result.now ≡ type_text (option_copied path.entry) app }
{
    match path {
        Some(_) => "application",
        None => {
            if is_protocol(app) {
                "protocol"
            } else {
                "application"
            }
        }
    }
}

// What is said of a fault at a pointer.
fn message(alloc: Global, pointer: &[u8]) -> Result<String, NoMemory>
    requires { IsUtf8 pointer.now }
    ensures { IfOk result (λ text. string_bytes text ≡ codes "at " ++ pointer.now) }
{
    let mut text = String::from_str(alloc, "at ")?;
    match str::from_utf8(pointer) {
        Ok(pointer) => text.push_str(pointer)?,
        Err(_) => return Err(NoMemory),
    }
    Ok(text)
}

fn put_message(members: &mut Members, alloc: Global, path: Option<&[u8]>) -> Result<(), NoMemory>
    requires { IfSome path (λ pointer. IsUtf8 pointer.now) }
    ensures { OnOk result (members_view members.new.entries
        ≡ with_message (option_copied path.entry) (members_view members.old.entries)) }
{
    match path {
        Some(pointer) => {
            let text = message(alloc, pointer)?;
            put_word(members, alloc, "error-message", text.as_str())
        }
        None => Ok(()),
    }
}

fn item_value(alloc: Global, app: App, path: Option<&[u8]>, tag: Tag) -> Result<Value, NoMemory>
    requires { IfSome path (λ pointer. IsUtf8 pointer.now) }
    ensures { IfOk result (λ v. view v ≡ error_item app (option_copied path.entry) tag) }
{
    let mut members = Map::new(alloc);
    put_word(&mut members, alloc, "error-type", error_type(path, app))?;
    put_word(&mut members, alloc, "error-tag", tag.text())?;
    put_message(&mut members, alloc, path)?;
    put_word(&mut members, alloc, "error-app-tag", app.text())?;
    Ok(Value::Object(members))
}

fn error_value(alloc: Global, app: App, path: Option<&[u8]>, tag: Tag) -> Result<Value, NoMemory>
    requires { IfSome path (λ pointer. IsUtf8 pointer.now) }
    ensures { IfOk result (λ v. view v ≡ error_data app (option_copied path.entry) tag) }
{
    let mut items = Vec::new(alloc);
    items.push(item_value(alloc, app, path, tag)?)?;
    let list = single(alloc, "error", Value::Array(items))?;
    single(alloc, "ietf-restconf:errors", list)
}

/// The body of a refusal.
pub(crate) fn error_body(
    alloc: Global,
    app: App,
    path: Option<&[u8]>,
    tag: Tag,
) -> Result<Octets, NoMemory>
    requires { IfSome path (λ pointer. IsUtf8 pointer.now) }
    ensures { IfOk result (λ body. body ≡ compact_text (error_data app (option_copied path.entry) tag)) }
{
    let value = error_value(alloc, app, path, tag)?;
    Ok(Octets::from_items(value.to_vec(alloc)?))
}
