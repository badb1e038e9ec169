// Changes of the policies.
ghost use Rattle.std.specs.Prelude.{◌≡◌, ◌≤◌, ◌<◌, ◌++◌, ◌∷◌, [], length, position, find, IfOk, OnOk, OnErr, Some, None, slice_set};
ghost use Rattle.std.specs.Option.{option_copied};
ghost use Rattle.std.specs.List.{insert, list_any, remove};
ghost use Rattle.ikeless_tree.specs.Check.{is_named, spd_fault};
ghost use Rattle.reply_table.specs.Reply.{replaced, without_policy};
ghost use Rattle.rc_resource.specs.Lists.{IsFirst, IsIndexFor};
ghost use Rattle.rc_request.specs.Paths.{policy_path};

use ikeless_tree::{Entries, SpdEntry};
use ikl_base::{Duplicate, Name, NoMemory, Octets};
use rc_request::path_of_policy;
use reply_table::Place;
use std::alloc::Global;
use std::mem;

fn place_of(list: &[SpdEntry], name: &[u8]) -> Option<usize>
    ensures { result ≡ position (is_named name.now) list.now }
{
    list.iter().position(|entry| entry.name.as_slice() == name)
}

/// Whether there is a policy of this name.
pub(crate) fn has_policy(list: &[SpdEntry], name: &[u8]) -> bool
    ensures { result ≡ list_any (is_named name.now) list.now }
{
    list.iter().any(|entry| entry.name.as_slice() == name)
}

/// Where the policy of this name is.
pub(crate) fn find_policy(list: &[SpdEntry], name: &Name) -> Option<usize>
    ensures { IsFirst (is_named name.now) list.now result }
{
    place_of(list, name.as_slice())
}

/// The policy of this name.
pub(crate) fn policy_named<'a>(list: &'a Entries, name: &Name) -> Option<&'a SpdEntry>
    ensures { option_copied result ≡ find (is_named name.now) list.now }
{
    match find_policy(list.as_slice(), name) {
        Some(at) => list.get(at),
        None => None,
    }
}

/// Where in the list a new policy is put that is to stand at this place; there is none where its point isn't there.
pub(crate) fn index_for(list: &[SpdEntry], place: &Place) -> Option<usize>
    ensures { IsIndexFor place.now list.now result }
{
    match place {
        Place::First => Some(0),
        Place::Last => Some(list.len()),
        Place::Before(name) => find_policy(list, name),
        Place::After(name) => match find_policy(list, name) {
            Some(at) => Some(at + 1),
            None => None,
        },
    }
}

fn insert(alloc: Global, list: &mut Entries, at: usize, e: SpdEntry) -> Result<(), NoMemory>
    requires { at ≤ length list.old }
    ensures ok { OnOk result (list.new ≡ insert list.old at e) }
    ensures err { OnErr result (list.new ≡ list.old) }
{
    let mut items = mem::replace(list, Entries::new(alloc)).into_items();
    let done = items.insert(at, e);
    *list = Entries::from_items(items);
    Ok(done?)
}

/// Puts a policy into the list, and gives its path.
pub(crate) fn insert_policy(
    alloc: Global,
    list: &mut Entries,
    at: usize,
    e: &SpdEntry,
) -> Result<Octets, NoMemory>
    requires { at ≤ length list.old }
    ensures ok { OnOk result (list.new ≡ insert list.old at e.now) }
    ensures path { IfOk result (λ path. path ≡ policy_path e.now.name) }
    ensures err { OnErr result (list.new ≡ list.old) }
{
    let path = path_of_policy(alloc, &e.name)?;
    let copy = e.copy()?;
    insert(alloc, list, at, copy)?;
    Ok(path)
}

/// Puts a policy at the end of the list, and gives its path.
pub(crate) fn append_policy(
    alloc: Global,
    list: &mut Entries,
    e: &SpdEntry,
) -> Result<Octets, NoMemory>
    ensures ok { OnOk result (list.new ≡ list.old ++ e.now ∷ []) }
    ensures path { IfOk result (λ path. path ≡ policy_path e.now.name) }
    ensures err { OnErr result (list.new ≡ list.old) }
{
    let path = path_of_policy(alloc, &e.name)?;
    let copy = e.copy()?;
    list.push(copy)?;
    Ok(path)
}

fn set(alloc: Global, list: &mut Entries, at: usize, e: SpdEntry)
    requires { at < length list.old }
    ensures { list.new ≡ slice_set list.old at e }
{
    let mut items = mem::replace(list, Entries::new(alloc)).into_items();
    items[at] = e;
    *list = Entries::from_items(items);
}

/// Puts a policy in the place of the one of its name.
pub(crate) fn replace_policy(
    alloc: Global,
    list: &mut Entries,
    at: usize,
    e: &SpdEntry,
) -> Result<(), NoMemory>
    requires sound { spd_fault list.old ≡ None }
    requires first { IsFirst (is_named e.now.name) list.old (Some at) }
    ensures ok { OnOk result (list.new ≡ replaced e.now list.old) }
    ensures err { OnErr result (list.new ≡ list.old) }
{
    let copy = e.copy()?;
    set(alloc, list, at, copy);
    Ok(())
}

/// Takes the policy of this name out of the list.
pub(crate) fn remove_policy(alloc: Global, list: &mut Entries, at: usize, name: &Name)
    requires sound { spd_fault list.old ≡ None }
    requires first { IsFirst (is_named name.now) list.old (Some at) }
    ensures { list.new ≡ without_policy name.now list.old }
{
    let mut items = mem::replace(list, Entries::new(alloc)).into_items();
    items.remove(at);
    *list = Entries::from_items(items);
}
