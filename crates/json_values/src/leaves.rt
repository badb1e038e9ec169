// Leaves: first the kind of the value and its spelling, then its range, then whether it is supported.
ghost use Rattle.std.specs.Prelude.{◌≡◌, ◌≤◌, Ok, Err, MatchResult, IfOk};
ghost use Rattle.serde_json.specs.View.{view};
ghost use Rattle.json_values.specs.Shapes.{seen};
ghost use Rattle.json_values.specs.Leaves.{text_in, number_in, wide_from, wide_in, needed_text, prefix_from, address_from, count_or, needed_number, needed_wide, number_or, wide_or, prefix_leaf, address_leaf, any_protocol, one_protocol, protocol_leaf, direction_from, direction_leaf, action_from, action_leaf, df_from, df_leaf, mode_from, mode_leaf, this_word, fixed_word, fixed_number, unset_leaf};

use crate::fault::{Kind, kind_of_value};
use ikeless_tree::{Action, Df, Direction, mode_named};
use ikl_base::{Addr, Prefix};
use serde_json::Value;
use yang_values::{read_address, read_prefix, read_u64};

fn text(value: &Value) -> Result<&str, Kind>
    ensures { MatchResult result (λ t. text_in (view value.now) ≡ Ok t.now)
        (λ kind. text_in (view value.now) ≡ Err kind) }
{
    match value.as_str() {
        Some(text) => Ok(text),
        None => Err(Kind::Form),
    }
}

/// The text of a leaf that is needed.
pub fn text_of(leaf: Option<&Value>) -> Result<&str, Kind>
    ensures { MatchResult result (λ t. needed_text (seen leaf.entry) ≡ Ok t.now)
        (λ kind. needed_text (seen leaf.entry) ≡ Err kind) }
{
    match leaf {
        Some(value) => text(value),
        None => Err(Kind::Missing),
    }
}

fn number(value: &Value, least: u64, most: u64) -> Result<u64, Kind>
    ensures value { result ≡ number_in least most (view value.now) }
    ensures bound { IfOk result (λ n. n ≤ most) }
{
    match value.as_u64() {
        Some(n) if least <= n && n <= most => Ok(n),
        Some(_) => Err(Kind::Range),
        None => Err(Kind::Form),
    }
}

fn wide_from(text: &str) -> Result<u64, Kind>
    ensures { result ≡ wide_from text.now }
{
    match read_u64(text.as_bytes()) {
        Ok(n) => Ok(n),
        Err(e) => Err(kind_of_value(e)),
    }
}

fn wide(value: &Value) -> Result<u64, Kind>
    ensures { result ≡ wide_in (view value.now) }
{
    match text(value) {
        Ok(digits) => wide_from(digits),
        Err(kind) => Err(kind),
    }
}

/// A number of 64 bits that is needed, which stands as a string.
pub fn wide_of(leaf: Option<&Value>) -> Result<u64, Kind>
    ensures { result ≡ needed_wide (seen leaf.entry) }
{
    match leaf {
        Some(value) => wide(value),
        None => Err(Kind::Missing),
    }
}

/// A number of 64 bits, which stands as a string; an absent one is 0.
pub fn wide_or_zero(leaf: Option<&Value>) -> Result<u64, Kind>
    ensures { result ≡ wide_or 0 (seen leaf.entry) }
{
    match leaf {
        Some(value) => wide(value),
        None => Ok(0),
    }
}

fn narrow(value: &Value, least: u32, most: u32) -> Result<u32, Kind>
    ensures { result ≡ number_in least most (view value.now) }
{
    match number(value, u64::from(least), u64::from(most)) {
        Ok(n) => Ok(n as u32),
        Err(kind) => Err(kind),
    }
}

/// A number from `least` to `most` that is needed.
pub fn number_of(leaf: Option<&Value>, least: u32, most: u32) -> Result<u32, Kind>
    ensures { result ≡ needed_number least most (seen leaf.entry) }
{
    match leaf {
        Some(value) => narrow(value, least, most),
        None => Err(Kind::Missing),
    }
}

/// A number of 32 bits; an absent one is 0.
pub fn count_or_zero(leaf: Option<&Value>) -> Result<u32, Kind>
    ensures { result ≡ count_or 0 (seen leaf.entry) }
{
    match leaf {
        Some(value) => narrow(value, 0, u32::MAX),
        None => Ok(0),
    }
}

/// The size of a window; an absent one is 64.
pub fn window_or_usual(leaf: Option<&Value>) -> Result<u32, Kind>
    ensures { result ≡ number_or 64 32 4096 (seen leaf.entry) }
{
    match leaf {
        Some(value) => narrow(value, 32, 4096),
        None => Ok(64),
    }
}

/// A port.
pub fn port(leaf: Option<&Value>) -> Result<u16, Kind>
    ensures { result ≡ needed_number 0 65535 (seen leaf.entry) }
{
    match leaf {
        Some(value) => match number(value, 0, 65535) {
            Ok(n) => Ok(n as u16),
            Err(kind) => Err(kind),
        },
        None => Err(Kind::Missing),
    }
}

fn prefix_from(text: &str) -> Result<Prefix, Kind>
    ensures { result ≡ prefix_from text.now }
{
    match read_prefix(text.as_bytes()) {
        Ok(prefix) => Ok(prefix),
        Err(e) => Err(kind_of_value(e)),
    }
}

/// A leaf that is an address prefix (RFC 6991).
pub fn prefix(leaf: Option<&Value>) -> Result<Prefix, Kind>
    ensures { result ≡ prefix_leaf (seen leaf.entry) }
{
    match text_of(leaf) {
        Ok(text) => prefix_from(text),
        Err(kind) => Err(kind),
    }
}

fn address_from(text: &str) -> Result<Addr, Kind>
    ensures { result ≡ address_from text.now }
{
    match read_address(text.as_bytes()) {
        Ok(address) => Ok(address),
        Err(e) => Err(kind_of_value(e)),
    }
}

/// A leaf that is an address (RFC 6991).
pub fn address(leaf: Option<&Value>) -> Result<Addr, Kind>
    ensures { result ≡ address_leaf (seen leaf.entry) }
{
    match text_of(leaf) {
        Ok(text) => address_from(text),
        Err(kind) => Err(kind),
    }
}

fn any(text: &str) -> Result<Option<u8>, Kind>
    ensures { result ≡ any_protocol text.now }
{
    if text == "any" {
        Ok(None)
    } else {
        Err(Kind::Unsupported)
    }
}

fn protocol_number(value: &Value) -> Result<Option<u8>, Kind>
    ensures { result ≡ one_protocol (view value.now) }
{
    match number(value, 0, 255) {
        Ok(n) => Ok(Some(n as u8)),
        Err(kind) => Err(kind),
    }
}

/// A protocol, or any; an absent one is any.
pub fn protocol(leaf: Option<&Value>) -> Result<Option<u8>, Kind>
    ensures { result ≡ protocol_leaf (seen leaf.entry) }
{
    let Some(value) = leaf else {
        return Ok(None);
    };
    match value.as_str() {
        Some(text) => any(text),
        None => protocol_number(value),
    }
}

fn direction_from(text: &str) -> Result<Direction, Kind>
    ensures { result ≡ direction_from text.now }
{
    match Direction::of_word(text.as_bytes()) {
        Some(direction) => Ok(direction),
        None => Err(Kind::Unsupported),
    }
}

/// The leaf `direction`.
pub fn direction(leaf: Option<&Value>) -> Result<Direction, Kind>
    ensures { result ≡ direction_leaf (seen leaf.entry) }
{
    match text_of(leaf) {
        Ok(text) => direction_from(text),
        Err(kind) => Err(kind),
    }
}

fn action_from(text: &str) -> Result<Action, Kind>
    ensures { result ≡ action_from text.now }
{
    match Action::named(text.as_bytes()) {
        Some(action) => Ok(action),
        None => Err(Kind::Unsupported),
    }
}

/// An action; an absent one discards.
pub fn action(leaf: Option<&Value>) -> Result<Action, Kind>
    ensures { result ≡ action_leaf (seen leaf.entry) }
{
    let Some(value) = leaf else {
        return Ok(Action::Discard);
    };
    match text(value) {
        Ok(text) => action_from(text),
        Err(kind) => Err(kind),
    }
}

fn df_from(text: &str) -> Result<Df, Kind>
    ensures { result ≡ df_from text.now }
{
    match Df::named(text.as_bytes()) {
        Some(df) => Ok(df),
        None => Err(Kind::Unsupported),
    }
}

/// Where the DF bit comes from; an absent one is copied.
pub fn df(leaf: Option<&Value>) -> Result<Df, Kind>
    ensures { result ≡ df_leaf (seen leaf.entry) }
{
    let Some(value) = leaf else {
        return Ok(Df::Copy);
    };
    match text(value) {
        Ok(text) => df_from(text),
        Err(kind) => Err(kind),
    }
}

fn mode_from(text: &str) -> Result<bool, Kind>
    ensures { result ≡ mode_from text.now }
{
    match mode_named(text.as_bytes()) {
        Some(now) => Ok(now),
        None => Err(Kind::Unsupported),
    }
}

/// Whether keys are asked for at once.
pub fn mode(leaf: Option<&Value>) -> Result<bool, Kind>
    ensures { result ≡ mode_leaf (seen leaf.entry) }
{
    match text_of(leaf) {
        Ok(text) => mode_from(text),
        Err(kind) => Err(kind),
    }
}

fn is_word(text: &str, word: &str) -> Result<(), Kind>
    ensures { result ≡ this_word word.now text.now }
{
    if text == word {
        Ok(())
    } else {
        Err(Kind::Unsupported)
    }
}

/// A leaf that has this word alone.
pub fn has_word(leaf: Option<&Value>, word: &str) -> Result<(), Kind>
    ensures { result ≡ fixed_word word.now (seen leaf.entry) }
{
    let Some(value) = leaf else {
        return Ok(());
    };
    match text(value) {
        Ok(text) => is_word(text, word),
        Err(kind) => Err(kind),
    }
}

/// A leaf that has this number alone.
pub fn has_number(leaf: Option<&Value>, n: u64) -> Result<(), Kind>
    ensures { result ≡ fixed_number n (seen leaf.entry) }
{
    let Some(value) = leaf else {
        return Ok(());
    };
    match value.as_u64() {
        Some(m) if m == n => Ok(()),
        Some(_) => Err(Kind::Unsupported),
        None => Err(Kind::Form),
    }
}

/// A leaf that is false alone.
pub fn is_unset(leaf: Option<&Value>) -> Result<(), Kind>
    ensures { result ≡ unset_leaf (seen leaf.entry) }
{
    let Some(value) = leaf else {
        return Ok(());
    };
    match value.as_bool() {
        Some(false) => Ok(()),
        Some(true) => Err(Kind::Unsupported),
        None => Err(Kind::Form),
    }
}
