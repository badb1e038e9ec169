// How far one direction of a tunnel has come.
ghost use Rattle.std.specs.Prelude.{◌≡◌, not, ◌&&◌};
ghost use Rattle.std.specs.Prelude.{nat_eq};
ghost use Rattle.std.specs.HashSet.{contains};
ghost use Rattle.ctl_tunnels.specs.Lives as lives;
ghost use Rattle.ctl_tunnels.specs.Steps as steps;
ghost use Rattle.ctl_tunnels.specs.declared.life.Task.TheVariants as tasks;

use crate::half::{HalfName, Side};
use crate::life::{HalfOrder, Life, Task};
use crate::shown::Shown;

/// How far one direction of a tunnel has come: whether its tunnel is ended, whether a new association is wanted since the
/// last one was put, which order of its own waits, and its associations left, `newer` being the one put last.
#[derive(Clone, Copy, Debug, PartialEq, Eq)]
pub struct Progress {
    pub over: bool,
    pub wanted: bool,
    pub waits: Option<HalfOrder>,
    pub older: Option<Life>,
    pub newer: Option<Life>,
}

fn ended_where(life: Option<Life>, ends: bool) -> Option<Life>
    ensures { result ≡ steps.made (lives.ended_if ends) life }
{
    match life {
        Some(x) => Some(x.ended_if(ends)),
        None => None,
    }
}

fn lost_where(life: Option<Life>, order: HalfOrder) -> Option<Life>
    ensures { result ≡ steps.made (steps.lost_life order) life }
{
    match life {
        Some(x) => Some(x.ended_if(order.is_put() && x.serial == order.serial)),
        None => None,
    }
}

fn sent_where(life: Option<Life>, serial: u32) -> Option<Life>
    ensures { result ≡ steps.made (steps.sent_life serial) life }
{
    match life {
        Some(x) => {
            if x.serial == serial {
                Some(x.sent())
            } else {
                Some(x)
            }
        }
        None => None,
    }
}

fn answered_where(life: Option<Life>, order: HalfOrder, status: u16) -> Option<Life>
    ensures { result ≡ steps.kept (lives.answered order status) life }
{
    match life {
        Some(x) => x.answered(order, status),
        None => None,
    }
}

// Whether it is ended by a reading at the receiver, which came before its outbound put was ordered.
fn is_abandoned(x: Life, receives: bool, shown: &Shown) -> bool
    ensures { result ≡ steps.is_abandoned receives (contains nat_eq shown.now.inbound) x }
{
    receives && x.in_done && !x.out_sent && !shown.has_in(x.serial)
}

// Whether a reading doesn't show a half of it that was put.
fn is_missing(x: Life, sends: bool, receives: bool, shown: &Shown) -> bool
    ensures { result ≡ steps.is_missing sends receives (contains nat_eq shown.now.inbound) (contains nat_eq shown.now.outbound) x }
{
    !x.ended
        && ((receives && x.in_done && !shown.has_in(x.serial))
            || (sends && x.out_done && !shown.has_out(x.serial)))
}

fn read_where(life: Option<Life>, receives: bool, shown: &Shown) -> Option<Life>
    ensures { result ≡ steps.made (steps.read_life receives (contains nat_eq shown.now.inbound)) life }
{
    match life {
        Some(x) => Some(x.ended_if(is_abandoned(x, receives, shown))),
        None => None,
    }
}

fn misses(life: Option<Life>, sends: bool, receives: bool, shown: &Shown) -> bool
    ensures { result ≡ steps.when (steps.is_missing sends receives (contains nat_eq shown.now.inbound) (contains nat_eq shown.now.outbound))
        life }
{
    match life {
        Some(x) => is_missing(x, sends, receives, shown),
        None => false,
    }
}

fn is_in_progress(life: Option<Life>) -> bool
    ensures { result ≡ steps.when lives.is_open life }
{
    match life {
        Some(x) => x.is_open(),
        None => false,
    }
}

fn out_removable(life: Option<Life>, sender: bool) -> Option<HalfOrder>
    ensures { result ≡ steps.asked tasks.RemoveOut (lives.is_out_removable sender) life }
{
    match life {
        Some(x) => {
            if x.is_out_removable(sender) {
                Some(HalfOrder {
                    task: Task::RemoveOut,
                    serial: x.serial,
                })
            } else {
                None
            }
        }
        None => None,
    }
}

fn in_removable(life: Option<Life>, receiver: bool) -> Option<HalfOrder>
    ensures { result ≡ steps.asked tasks.RemoveIn (lives.is_in_removable receiver) life }
{
    match life {
        Some(x) => {
            if x.is_in_removable(receiver) {
                Some(HalfOrder {
                    task: Task::RemoveIn,
                    serial: x.serial,
                })
            } else {
                None
            }
        }
        None => None,
    }
}

fn out_puttable(life: Option<Life>, sender: bool, receiver: bool) -> Option<HalfOrder>
    ensures { result ≡ steps.asked tasks.PutOut (lives.is_out_puttable sender receiver) life }
{
    match life {
        Some(x) => {
            if x.is_out_puttable(sender, receiver) {
                Some(HalfOrder {
                    task: Task::PutOut,
                    serial: x.serial,
                })
            } else {
                None
            }
        }
        None => None,
    }
}

// The first of two.
fn either(first: Option<HalfOrder>, second: Option<HalfOrder>) -> Option<HalfOrder>
    ensures { result ≡ steps.either first second }
{
    match first {
        Some(o) => Some(o),
        None => second,
    }
}

fn is_none(life: Option<Life>) -> bool
    ensures { result ≡ steps.is_none life }
{
    match life {
        Some(_) => false,
        None => true,
    }
}

// Whether the order that waits has this serial.
fn awaits(waits: Option<HalfOrder>, serial: u32) -> bool
    ensures { result ≡ steps.awaits serial waits }
{
    match waits {
        Some(order) => order.serial == serial,
        None => false,
    }
}

impl Progress {
    /// A direction whose tunnel is just commanded.
    pub fn begun(now: bool) -> Progress
        ensures { result ≡ steps.begun now }
    {
        Progress {
            over: false,
            wanted: now,
            waits: None,
            older: None,
            newer: None,
        }
    }

    /// Whether its tunnel is ended and no association of it is left.
    pub fn is_spent(self) -> bool
        ensures { result ≡ steps.is_spent self }
    {
        self.over && is_none(self.older) && is_none(self.newer)
    }

    /// After the end of its tunnel.
    pub fn ended(self) -> Progress
        ensures { result ≡ steps.ended self }
    {
        Progress {
            over: true,
            wanted: self.wanted,
            waits: self.waits,
            older: ended_where(self.older, true),
            newer: ended_where(self.newer, true),
        }
    }

    /// After a cause for a new association, if this is one.
    pub fn wanted_if(self, cause: bool) -> Progress
        ensures { result ≡ steps.wanted_if cause self }
    {
        Progress {
            over: self.over,
            wanted: cause || self.wanted,
            waits: self.waits,
            older: self.older,
            newer: self.newer,
        }
    }

    // After its waiting order is lost.
    fn lost(self, order: HalfOrder) -> Progress
        ensures { result ≡ steps.lost order self }
    {
        Progress {
            over: self.over,
            wanted: order.is_put() || self.wanted,
            waits: None,
            older: lost_where(self.older, order),
            newer: lost_where(self.newer, order),
        }
    }

    /// After a cut at its sender or its receiver, or at neither.
    pub fn cut(self, sends: bool, receives: bool) -> Progress
        ensures { result ≡ steps.cut sends receives self }
    {
        match self.waits {
            Some(order) => {
                let at = if order.is_inbound() { receives } else { sends };
                if at { self.lost(order) } else { self }
            }
            None => self,
        }
    }

    /// After an answer to this put or removal.
    pub fn answered(self, order: HalfOrder, status: u16) -> Progress
        ensures { result ≡ steps.answered order status self }
    {
        if !awaits(self.waits, order.serial) {
            return self;
        }
        Progress {
            over: self.over,
            wanted: self.wanted,
            waits: None,
            older: answered_where(self.older, order, status),
            newer: answered_where(self.newer, order, status),
        }
    }

    /// After a reading at its sender or its receiver, or at neither.
    pub fn read(self, sends: bool, receives: bool, shown: &Shown) -> Progress
        ensures { result ≡ steps.read sends receives (contains nat_eq shown.now.inbound) (contains nat_eq shown.now.outbound) self }
    {
        let missing = misses(self.older, sends, receives, shown)
            || misses(self.newer, sends, receives, shown);
        Progress {
            over: self.over,
            wanted: missing || self.wanted,
            waits: self.waits,
            older: read_where(self.older, receives, shown),
            newer: read_where(self.newer, receives, shown),
        }
    }

    /// Whether none of its associations is in progress.
    pub fn is_settled(self) -> bool
        ensures { result ≡ steps.is_settled self }
    {
        !is_in_progress(self.older) && !is_in_progress(self.newer)
    }

    /// Whether this is a half of the association put last, at its sender or its receiver, and that isn't ended.
    pub fn has_newest(self, sends: bool, receives: bool, half: HalfName) -> bool
        ensures { result ≡ steps.has_newest sends receives half self }
    {
        match self.newer {
            Some(x) => {
                let at = match half.side {
                    Side::In => receives,
                    Side::Out => sends,
                };
                at && x.serial == half.serial && !x.ended
            }
            None => false,
        }
    }

    /// The order that it gets next, or none; whether its sender's and its receiver's sessions are open and read, and the
    /// serial of a new association where a key is left.
    ///
    /// Removals come before puts, outbound ones before inbound ones, the oldest association first.
    pub fn next(self, sender: bool, receiver: bool, fresh: Option<u32>) -> Option<HalfOrder>
        ensures { result ≡ steps.next sender receiver fresh self }
    {
        match self.waits {
            Some(_) => None,
            None => self.next_free(sender, receiver, fresh),
        }
    }

    // The order that it gets next, where none of its own waits.
    fn next_free(self, sender: bool, receiver: bool, fresh: Option<u32>) -> Option<HalfOrder>
        ensures { result ≡ steps.next_free sender receiver fresh self }
    {
        let out_removal = either(
            out_removable(self.older, sender),
            out_removable(self.newer, sender),
        );
        let in_removal = either(
            in_removable(self.older, receiver),
            in_removable(self.newer, receiver),
        );
        let out_put = either(
            out_puttable(self.older, sender, receiver),
            out_puttable(self.newer, sender, receiver),
        );
        either(
            out_removal,
            either(
                in_removal,
                either(out_put, self.in_put(sender, receiver, fresh)),
            ),
        )
    }

    // The inbound put of a new association, where one is owed and can be put.
    fn in_put(self, sender: bool, receiver: bool, fresh: Option<u32>) -> Option<HalfOrder>
        ensures { result ≡ steps.in_put sender receiver self fresh }
    {
        match fresh {
            Some(serial) => {
                if self.wanted && !self.over && sender && receiver {
                    Some(HalfOrder {
                        task: Task::PutIn,
                        serial,
                    })
                } else {
                    None
                }
            }
            None => None,
        }
    }

    // After the inbound put of a new association.
    fn put(self, order: HalfOrder) -> Progress
        ensures { result ≡ steps.ordered_by order self tasks.PutIn }
    {
        let older = match self.newer {
            Some(x) => Some(x),
            None => self.older,
        };
        Progress {
            over: self.over,
            wanted: false,
            waits: Some(order),
            older,
            newer: Some(Life::begun(order.serial)),
        }
    }

    /// After this order of its own.
    pub fn ordered(self, order: HalfOrder) -> Progress
        ensures { result ≡ steps.ordered order self }
    {
        match order.task {
            Task::PutIn => self.put(order),
            Task::PutOut => Progress {
                over: self.over,
                wanted: self.wanted,
                waits: Some(order),
                older: sent_where(self.older, order.serial),
                newer: sent_where(self.newer, order.serial),
            },
            Task::RemoveIn | Task::RemoveOut => Progress {
                over: self.over,
                wanted: self.wanted,
                waits: Some(order),
                older: self.older,
                newer: self.newer,
            },
        }
    }
}
