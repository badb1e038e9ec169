// A request, done and replied to.
ghost use Rattle.std.specs.Prelude.{◌≡◌, ◌+◌, ◌<◌, ◌≤◌, ◌++◌, ◌∷◌, [], None, Ok, false, IfOk, IfSome, IsUtf8, OnOk, OnErr, vec_len, vec_capacity};
ghost use Rattle.ikeless_tree.specs.Check.{sad_fault, spd_fault};
ghost use Rattle.sad_store.specs.Install.{install_fault};
ghost use Rattle.rc_request.specs.Asks.{IsAsk};
ghost use Rattle.rc_resource.specs.Replies.{refusal};
ghost use Rattle.ikeless_tree.specs.declared.order.Order.{Order};
ghost use Rattle.reply_table.specs.declared.ask.Ask.{Ask as Asked};
ghost use Rattle.reply_table.specs.Order.{ask_of};
ghost use Rattle.reply_table.specs.Reply.{reply as table_reply};
ghost use Rattle.gw_tables.specs.Kept.{installed, kept_after, removed, tree_of, with_list};
ghost use Rattle.gw_requests.specs.Requests.{CanTell, IsAnswered, IsRequest, MayChange, acts_of_change, answered, handled};
ghost use Rattle.gw_requests.specs.declared.act.GwAct.TheVariants as done;

use crate::act::{GwAct, GwActs, copy_change};
use gw_tables::Tables;
use ikeless_tree::{Entries, SadEntry, policies_fit, rows_fit};
use ikl_base::{Duplicate, ListOf, Name, NoMemory};
use rc_resource::{Ask, Change, RcError, Reply, apply, error_reply};
use reply_table::changes_fit;
use std::alloc::Global;
use std::mem::replace;

// One more act, for which there is room.
fn push(items: &mut Vec<GwAct>, act: GwAct)
    requires { vec_len items.old < vec_capacity items.old }
    ensures items { items.new.items ≡ items.old.items ++ act ∷ [] }
    ensures len { vec_len items.new ≡ vec_len items.old + 1 }
    ensures room { vec_capacity items.old ≤ vec_capacity items.new }
{
    match items.push(act) {
        Ok(()) => {}
        Err(_) => unreachable!(),
    }
}

// Two more acts, or none for want of memory.
fn push_both(items: &mut Vec<GwAct>, first: GwAct, second: GwAct) -> Result<(), NoMemory>
    ensures ok { OnOk result (items.new.items ≡ items.old.items ++ first ∷ second ∷ []) }
    ensures err { OnErr result (items.new.items ≡ items.old.items) }
{
    items.reserve(2)?;
    push(items, first);
    push(items, second);
    Ok(())
}

// Appends two acts: both, or none for want of memory.
fn append_both(
    alloc: Global,
    acts: &mut GwActs,
    first: GwAct,
    second: GwAct,
) -> Result<(), NoMemory>
    ensures ok { OnOk result (acts.new ≡ acts.old ++ first ∷ second ∷ []) }
    ensures err { OnErr result (acts.new ≡ acts.old) }
{
    let mut items = replace(acts, ListOf::new(alloc)).into_items();
    let outcome = push_both(&mut items, first, second);
    *acts = ListOf::from_items(items);
    outcome
}

// Puts another list in force.
fn set_list(
    alloc: Global,
    tables: &mut Tables,
    list: Entries,
    reply: Reply,
    acts: &mut GwActs,
) -> Result<(), NoMemory>
    requires { spd_fault list ≡ None }
    ensures acts { OnOk result (acts.new ≡ acts.old ++ done.Spd list ∷ done.Reply reply ∷ []) }
    ensures state { OnOk result (tables.new ≡ with_list list tables.old) }
    ensures err { OnErr result ((tables.new ≡ tables.old) × (acts.new ≡ acts.old)) }
{
    let told = list.copy()?;
    append_both(alloc, acts, GwAct::Spd(told), GwAct::Reply(reply))?;
    tables.set_list(list);
    Ok(())
}

// Takes the half of this name out.
fn remove(
    alloc: Global,
    tables: &mut Tables,
    name: Name,
    reply: Reply,
    acts: &mut GwActs,
) -> Result<(), NoMemory>
    ensures acts { OnOk result (acts.new ≡ acts.old ++ done.Gone name false ∷ done.Reply reply ∷ []) }
    ensures state { OnOk result (tables.new ≡ removed name tables.old) }
    ensures err { OnErr result ((tables.new ≡ tables.old) × (acts.new ≡ acts.old)) }
{
    let told = GwAct::Gone {
        name: name.copy()?,
        hard: false,
    };
    append_both(alloc, acts, told, GwAct::Reply(reply))?;
    tables.remove(&name);
    Ok(())
}

// Installs a half once there is room for the two acts that tell of it.
fn install_told(
    tables: &mut Tables,
    e: SadEntry,
    told: GwAct,
    reply: GwAct,
    items: &mut Vec<GwAct>,
) -> Result<(), NoMemory>
    requires sound { sad_fault e ≡ None }
    requires free { install_fault e tables.old.halves ≡ None }
    ensures acts { OnOk result (items.new.items ≡ items.old.items ++ told ∷ reply ∷ []) }
    ensures state { OnOk result (tables.new ≡ installed e tables.old) }
    ensures err { OnErr result ((tables.new ≡ tables.old) × (items.new.items ≡ items.old.items)) }
{
    items.reserve(2)?;
    tables.install(e)?;
    push(items, told);
    push(items, reply);
    Ok(())
}

fn install(
    alloc: Global,
    tables: &mut Tables,
    e: SadEntry,
    reply: Reply,
    acts: &mut GwActs,
) -> Result<(), NoMemory>
    requires sound { sad_fault e ≡ None }
    requires free { install_fault e tables.old.halves ≡ None }
    ensures acts { OnOk result (acts.new ≡ acts.old ++ done.Put e ∷ done.Reply reply ∷ []) }
    ensures state { OnOk result (tables.new ≡ installed e tables.old) }
    ensures err { OnErr result ((tables.new ≡ tables.old) × (acts.new ≡ acts.old)) }
{
    let told = GwAct::Put(e.copy()?);
    let mut items = replace(acts, ListOf::new(alloc)).into_items();
    let outcome = install_told(tables, e, told, GwAct::Reply(reply), &mut items);
    *acts = ListOf::from_items(items);
    outcome
}

// Makes the change of a reply, where the policies after it are these, and then gives the reply.
fn commit(
    alloc: Global,
    tables: &mut Tables,
    list: Entries,
    reply: Reply,
    acts: &mut GwActs,
) -> Result<(), NoMemory>
    requires { MayChange list reply.change tables.old }
    ensures acts { OnOk result (acts.new ≡ acts.old ++ (acts_of_change list reply.change ++ done.Reply reply ∷ [])) }
    ensures state { OnOk result (tables.new ≡ kept_after list reply.change tables.old) }
    ensures err { OnErr result ((tables.new ≡ tables.old) × (acts.new ≡ acts.old)) }
{
    match copy_change(&reply.change)? {
        Change::Nothing => acts.push(GwAct::Reply(reply)),
        Change::Spd => set_list(alloc, tables, list, reply, acts),
        Change::Put(e) => install(alloc, tables, e, reply, acts),
        Change::Gone(name) => remove(alloc, tables, name, reply, acts),
    }
}

// Does what is asked.
fn answer(alloc: Global, tables: &mut Tables, ask: &Ask, acts: &mut GwActs) -> Result<(), NoMemory>
    requires { IsAsk ask.now }
    ensures acts { OnOk result (acts.new ≡ acts.old ++ (answered (table_reply (tree_of tables.old) ask.now) tables.old).acts) }
    ensures state { OnOk result (tables.new ≡ (answered (table_reply (tree_of tables.old) ask.now) tables.old).kept) }
    ensures err { OnErr result ((tables.new ≡ tables.old) × (acts.new ≡ acts.old)) }
    ensures response { (o : Order) → ask.now ≡ ask_of o → OnOk result (IsAnswered o (table_reply (tree_of tables.old) ask.now)) }
    ensures tree { OnOk result (CanTell (tree_of tables.old)) }
{
    let mut tree = tables.tree()?;
    policies_fit(&tree.spd);
    rows_fit(&tree.sad);
    let reply = apply(alloc, &mut tree, ask)?;
    changes_fit();
    commit(alloc, tables, tree.spd, reply, acts)
}

// Refuses a request that could not be read.
fn refuse(alloc: Global, e: &RcError, acts: &mut GwActs) -> Result<(), NoMemory>
    requires { IfSome e.now.path IsUtf8 }
    ensures ok { OnOk result (acts.new ≡ acts.old ++ done.Reply (refusal e.now) ∷ []) }
    ensures err { OnErr result (acts.new ≡ acts.old) }
{
    let reply = error_reply(alloc, e)?;
    acts.push(GwAct::Reply(reply))
}

/// Does a request at a gateway: appends what it changes, and then its reply. Want of memory changes nothing.
///
/// A request that was read speaks of entries without a fault. One that wasn't has a fault whose path, if any, is UTF-8. The
/// response that carries the reply to an order is read as its answer, and every reply can be written.
pub fn handle(
    alloc: Global,
    tables: &mut Tables,
    request: Result<Ask, RcError>,
    acts: &mut GwActs,
) -> Result<(), NoMemory>
    requires { IsRequest request }
    ensures acts { OnOk result (acts.new ≡ acts.old ++ (handled request tables.old).acts) }
    ensures state { OnOk result (tables.new ≡ (handled request tables.old).kept) }
    ensures err { OnErr result ((tables.new ≡ tables.old) × (acts.new ≡ acts.old)) }
    ensures response { (o : Order) → request ≡ Ok (ask_of o) → OnOk result (IsAnswered o (table_reply (tree_of tables.old) (ask_of o))) }
    ensures tree { (ask : Asked) → request ≡ Ok ask → OnOk result (CanTell (tree_of tables.old)) }
{
    match request {
        Ok(ask) => answer(alloc, tables, &ask, acts),
        Err(e) => refuse(alloc, &e, acts),
    }
}
