// Laws for the crates above: each is the contract of a function with an empty body.
ghost use Rattle.std.specs.Prelude.{◌≡◌, ◌≤◌, ◌⊎◌, List, ℕ};
ghost use Rattle.ikeless_tree.specs.declared.sad.Tree.{Tree};
ghost use Rattle.ikeless_tree.specs.declared.sad.SadEntry.{SadEntry};
ghost use Rattle.ikeless_tree.specs.declared.entry.SpdEntry.{SpdEntry};
ghost use Rattle.ikeless_tree.specs.declared.order.Order.TheVariants as orders;
ghost use Rattle.reply_table.specs.declared.ask.Ask.{Ask};
ghost use Rattle.reply_table.specs.declared.ask.Change.TheVariants as changes;
ghost use Rattle.reply_table.specs.Order.{ask_of};
ghost use Rattle.reply_table.specs.Reply.{Fits, Makes, reply, row_names};

/// A reply of status 400 or above leaves the databases as they are, and says that nothing changed.
pub fn refuses()
    ensures tree { (t : Tree) (a : Ask) → 400 ≤ (reply t a).status → (reply t a).tree ≡ t }
    ensures change { (t : Tree) (a : Ask) → 400 ≤ (reply t a).status → (reply t a).change ≡ changes.Nothing }
{}

/// The statuses with which an order is answered. A reading has the names of all associations, in the order of installation.
pub fn answers_orders()
    ensures read { (t : Tree) → ((reply t (ask_of orders.Read)).status ≡ 200) × ((reply t (ask_of orders.Read)).names ≡ row_names t.sad) }
    ensures policy { (t : Tree) (list : List SpdEntry) → (reply t (ask_of (orders.Policy list))).status ≡ 204 }
    ensures put { (t : Tree) (e : SadEntry) → ((reply t (ask_of (orders.Put e))).status ≡ 201)
        ⊎ ((reply t (ask_of (orders.Put e))).status ≡ 409) }
    ensures remove { (t : Tree) (name : List ℕ) → ((reply t (ask_of (orders.Remove name))).status ≡ 204)
        ⊎ ((reply t (ask_of (orders.Remove name))).status ≡ 404) }
{}

/// What a reply changes fits the databases: what it puts is new and has room, and what it removes was there.
///
/// The databases after it are those before it with that change alone, and its status says whether there was one.
pub fn changes_fit()
    ensures before { (t : Tree) (a : Ask) → Fits t (reply t a).change }
    ensures after { (t : Tree) (a : Ask) → Makes t (reply t a) (reply t a).change }
{}
