// What is asked, done.
ghost use Rattle.std.specs.Prelude.{Ok, ◌≡◌, ◌++◌, ◌∷◌, [], find, IfOk, OnOk, OnErr, None};
ghost use Rattle.ikeless_tree.specs.Check.{is_named, spd_fault};
ghost use Rattle.json_tree.specs.SadEntryWritten.{ArePassed};
ghost use Rattle.reply_table.specs.Reply as table;
ghost use Rattle.reply_table.specs.declared.ask.Change.TheVariants as changes;
ghost use Rattle.ikeless_tree.specs.declared.order.Order.{Order};
ghost use Rattle.reply_table.specs.Order.{ask_of};
ghost use Rattle.rc_request.specs.Asks.{IsAsk};
ghost use Rattle.rc_answer.specs.Answers.{answer_of};
ghost use Rattle.rc_resource.specs.Laws.{answer_by};
ghost use Rattle.rc_resource.specs.Messages.{reply_message};
ghost use Rattle.rc_resource.specs.Lists.{IsTree, AreDistinct};
ghost use Rattle.rc_request.specs.Paths.{half_path};
ghost use Rattle.rc_resource.specs.Replies.{reply_of, plain_refusal, made_reply};
ghost use Rattle.ikeless_tree.specs.declared.error.Tag.TheVariants as tags;
ghost use Rattle.ikeless_tree.specs.declared.error.App.TheVariants as apps;

use crate::halves::{
    find_half, half_named, has_half, has_spi, is_inbound, names_of, remove_half, unused,
};
use crate::laws::answers_are_read;
use crate::policies::{
    append_policy, find_policy, has_policy, index_for, insert_policy, policy_named, remove_policy,
    replace_policy,
};
use crate::reply::{Reply, done, made, refused, shows};
use ikeless_tree::{App, Entries, Names, SadEntry, SpdEntry, Tag, Tree, rows_fit};
use ikl_base::{Duplicate, Name, NoMemory};
use json_codec::{write_sad, write_sad_row, write_spd, write_spd_entry};
use rc_request::path_of_half;
use reply_table::{Ask, Change, Place};
use std::alloc::Global;

const MOST_POLICIES: usize = 256;

const MOST_HALVES: usize = 4096;

fn full(alloc: Global) -> Result<Reply, NoMemory>
    ensures { IfOk result (λ r. r ≡ plain_refusal 409 tags.ResourceDenied apps.Full) }
{
    refused(alloc, 409, Tag::ResourceDenied, App::Full)
}

fn exists(alloc: Global) -> Result<Reply, NoMemory>
    ensures { IfOk result (λ r. r ≡ plain_refusal 409 tags.ResourceDenied apps.Exists) }
{
    refused(alloc, 409, Tag::ResourceDenied, App::Exists)
}

fn absent(alloc: Global) -> Result<Reply, NoMemory>
    ensures { IfOk result (λ r. r ≡ plain_refusal 404 tags.InvalidValue apps.Absent) }
{
    refused(alloc, 404, Tag::InvalidValue, App::Absent)
}

// ---- policies

fn get_spd(alloc: Global, tree: &Tree) -> Result<Reply, NoMemory>
    requires { spd_fault tree.now.spd ≡ None }
    ensures { IfOk result (λ r. r ≡ reply_of (table.shows tree.now (table.Policies tree.now.spd))) }
{
    let body = write_spd(alloc, &tree.spd)?;
    Ok(shows(alloc, Names::new(alloc), body))
}

fn put_spd(alloc: Global, tree: &mut Tree, list: &Entries) -> Result<Reply, NoMemory>
    ensures reply { IfOk result (λ r. r ≡ reply_of (table.done changes.Spd (table.with_spd tree.old list.now))) }
    ensures tree { OnOk result (tree.new ≡ table.with_spd tree.old list.now) }
    ensures err { OnErr result (tree.new ≡ tree.old) }
{
    tree.spd = list.copy()?;
    Ok(done(alloc, Change::Spd))
}

fn post_spd(alloc: Global, tree: &mut Tree, e: &SpdEntry, place: &Place) -> Result<Reply, NoMemory>
    ensures reply { IfOk result (λ r. r ≡ reply_of (table.post_spd tree.old e.now place.now)) }
    ensures tree { OnOk result (tree.new ≡ (table.post_spd tree.old e.now place.now).tree) }
    ensures err { OnErr result (tree.new ≡ tree.old) }
{
    if has_policy(tree.spd.as_slice(), e.name.as_slice()) {
        return exists(alloc);
    }
    if MOST_POLICIES <= tree.spd.len() {
        return full(alloc);
    }
    match index_for(tree.spd.as_slice(), place) {
        None => refused(alloc, 400, Tag::InvalidValue, App::Point),
        Some(at) => {
            let path = insert_policy(alloc, &mut tree.spd, at, e)?;
            Ok(made(alloc, path, Change::Spd))
        }
    }
}

fn get_spd_entry(alloc: Global, tree: &Tree, name: &Name) -> Result<Reply, NoMemory>
    requires { spd_fault tree.now.spd ≡ None }
    ensures { IfOk result (λ r. r ≡ reply_of (table.show_policy tree.now (find (is_named name.now) tree.now.spd))) }
{
    match policy_named(&tree.spd, name) {
        None => absent(alloc),
        Some(e) => {
            let body = write_spd_entry(alloc, e)?;
            Ok(shows(alloc, Names::new(alloc), body))
        }
    }
}

fn put_spd_entry(alloc: Global, tree: &mut Tree, e: &SpdEntry) -> Result<Reply, NoMemory>
    requires { spd_fault tree.old.spd ≡ None }
    ensures reply { IfOk result (λ r. r ≡ reply_of (table.put_spd_entry tree.old e.now)) }
    ensures tree { OnOk result (tree.new ≡ (table.put_spd_entry tree.old e.now).tree) }
    ensures err { OnErr result (tree.new ≡ tree.old) }
{
    match find_policy(tree.spd.as_slice(), &e.name) {
        Some(at) => {
            replace_policy(alloc, &mut tree.spd, at, e)?;
            Ok(done(alloc, Change::Spd))
        }
        None => {
            if MOST_POLICIES <= tree.spd.len() {
                return full(alloc);
            }
            let path = append_policy(alloc, &mut tree.spd, e)?;
            Ok(made(alloc, path, Change::Spd))
        }
    }
}

fn delete_spd_entry(alloc: Global, tree: &mut Tree, name: &Name) -> Result<Reply, NoMemory>
    requires { spd_fault tree.old.spd ≡ None }
    ensures reply { IfOk result (λ r. r ≡ reply_of (table.delete_spd_entry tree.old name.now)) }
    ensures tree { OnOk result (tree.new ≡ (table.delete_spd_entry tree.old name.now).tree) }
    ensures err { OnErr result (tree.new ≡ tree.old) }
{
    match find_policy(tree.spd.as_slice(), name) {
        None => absent(alloc),
        Some(at) => {
            remove_policy(alloc, &mut tree.spd, at, name);
            Ok(done(alloc, Change::Spd))
        }
    }
}

// ---- halves

fn get_sad(alloc: Global, tree: &Tree) -> Result<Reply, NoMemory>
    requires { ArePassed tree.now.sad }
    ensures { IfOk result (λ r. r ≡ reply_of (table.get_sad tree.now)) }
{
    let names = names_of(alloc, tree.sad.as_slice())?;
    let body = write_sad(alloc, &tree.sad)?;
    Ok(shows(alloc, names, body))
}

// Puts a half behind the others.
fn install(alloc: Global, tree: &mut Tree, e: &SadEntry) -> Result<Reply, NoMemory>
    ensures reply { IfOk result (λ r. r ≡ made_reply (half_path e.now.name) (changes.Put e.now)) }
    ensures tree { OnOk result (tree.new ≡ table.with_sad tree.old (tree.old.sad ++ table.new_row e.now ∷ [])) }
    ensures err { OnErr result (tree.new ≡ tree.old) }
{
    let path = path_of_half(alloc, &e.name)?;
    let change = Change::Put(e.copy()?);
    let row = unused(e.copy()?);
    tree.sad.push(row)?;
    Ok(made(alloc, path, change))
}

fn post_sad(alloc: Global, tree: &mut Tree, e: &SadEntry) -> Result<Reply, NoMemory>
    ensures reply { IfOk result (λ r. r ≡ reply_of (table.post_sad tree.old e.now)) }
    ensures tree { OnOk result (tree.new ≡ (table.post_sad tree.old e.now).tree) }
    ensures err { OnErr result (tree.new ≡ tree.old) }
{
    if has_half(tree.sad.as_slice(), e.name.as_slice()) {
        return exists(alloc);
    }
    if is_inbound(e.name.as_slice()) && has_spi(tree.sad.as_slice(), e.spi) {
        return refused(alloc, 409, Tag::ResourceDenied, App::SpiTaken);
    }
    if MOST_HALVES <= tree.sad.len() {
        return full(alloc);
    }
    install(alloc, tree, e)
}

fn get_sad_entry(alloc: Global, tree: &Tree, name: &Name) -> Result<Reply, NoMemory>
    requires { ArePassed tree.now.sad }
    ensures { IfOk result (λ r. r ≡ reply_of (table.show_half tree.now (find (table.is_row name.now) tree.now.sad))) }
{
    match half_named(&tree.sad, name) {
        None => absent(alloc),
        Some(row) => {
            let body = write_sad_row(alloc, row)?;
            Ok(shows(alloc, Names::new(alloc), body))
        }
    }
}

fn delete_sad(alloc: Global, tree: &mut Tree, name: &Name) -> Result<Reply, NoMemory>
    requires { AreDistinct tree.old.sad }
    ensures reply { IfOk result (λ r. r ≡ reply_of (table.delete_sad tree.old name.now)) }
    ensures tree { OnOk result (tree.new ≡ (table.delete_sad tree.old name.now).tree) }
    ensures err { OnErr result (tree.new ≡ tree.old) }
{
    match find_half(tree.sad.as_slice(), name) {
        None => absent(alloc),
        Some(at) => {
            let gone = name.copy()?;
            remove_half(alloc, &mut tree.sad, at, name);
            Ok(done(alloc, Change::Gone(gone)))
        }
    }
}

#[tactic(auto, unfolding(reply_table::specs::Reply::reply))]
fn carry_out(alloc: Global, tree: &mut Tree, ask: &Ask) -> Result<Reply, NoMemory>
    requires { IsTree tree.old }
    ensures reply { IfOk result (λ r. r ≡ reply_of (table.reply tree.old ask.now)) }
    ensures tree { OnOk result (tree.new ≡ (table.reply tree.old ask.now).tree) }
    ensures err { OnErr result (tree.new ≡ tree.old) }
    ensures rules { IsAsk ask.now → IsTree tree.new }
{
    match ask {
        Ask::GetSpd => get_spd(alloc, tree),
        Ask::PutSpd(list) => put_spd(alloc, tree, list),
        Ask::PostSpd { entry, place } => post_spd(alloc, tree, entry, place),
        Ask::GetSpdEntry(name) => get_spd_entry(alloc, tree, name),
        Ask::PutSpdEntry(e) => put_spd_entry(alloc, tree, e),
        Ask::DeleteSpdEntry(name) => delete_spd_entry(alloc, tree, name),
        Ask::GetSad => get_sad(alloc, tree),
        Ask::PostSad(e) => post_sad(alloc, tree, e),
        Ask::GetSadEntry(name) => get_sad_entry(alloc, tree, name),
        Ask::DeleteSad(name) => delete_sad(alloc, tree, name),
    }
}

/// Does what is asked, and gives the reply: the table of replies with its text. A reply of 400 or above leaves the
/// databases as they were, and so does want of memory. The response that carries the reply to an order is read as its answer.
pub fn apply(alloc: Global, tree: &mut Tree, ask: &Ask) -> Result<Reply, NoMemory>
    requires { IsTree tree.old }
    ensures reply { IfOk result (λ r. r ≡ reply_of (table.reply tree.old ask.now)) }
    ensures tree { OnOk result (tree.new ≡ (table.reply tree.old ask.now).tree) }
    ensures err { OnErr result (tree.new ≡ tree.old) }
    ensures rules { IsAsk ask.now → IsTree tree.new }
    ensures answer { (o : Order) → ask.now ≡ ask_of o
        → IfOk result (λ r. answer_of o (reply_message r) ≡ Ok (answer_by (table.reply tree.old ask.now))) }
{
    rows_fit(&tree.sad);
    answers_are_read();
    carry_out(alloc, tree, ask)
}
