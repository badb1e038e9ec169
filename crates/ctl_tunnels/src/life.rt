// The life of an association, as orders and answers tell it.
ghost use Rattle.std.specs.Prelude.{◌≡◌};
ghost use Rattle.ctl_tunnels.specs.Lives as lives;

/// What an order does with a half.
#[derive(Clone, Copy, Debug, PartialEq, Eq)]
pub enum Task {
    PutIn,
    PutOut,
    RemoveIn,
    RemoveOut,
}

/// A put or a removal of a half, by the serial of its association.
#[derive(Clone, Copy, Debug, PartialEq, Eq)]
pub struct HalfOrder {
    pub task: Task,
    pub serial: u32,
}

impl HalfOrder {
    /// Whether it puts a half.
    pub fn is_put(self) -> bool
        ensures { result ≡ lives.puts self.task }
    {
        match self.task {
            Task::PutIn | Task::PutOut => true,
            Task::RemoveIn | Task::RemoveOut => false,
        }
    }

    /// Whether it begins an association.
    pub fn begins(self) -> bool
        ensures { result ≡ lives.begins self.task }
    {
        match self.task {
            Task::PutIn => true,
            Task::PutOut | Task::RemoveIn | Task::RemoveOut => false,
        }
    }

    /// Whether it goes to the receiver of its direction, and not to the sender.
    pub fn is_inbound(self) -> bool
        ensures { result ≡ lives.is_inbound self.task }
    {
        match self.task {
            Task::PutIn | Task::RemoveIn => true,
            Task::PutOut | Task::RemoveOut => false,
        }
    }
}

/// An association whose inbound half isn't known to be removed: which of its orders were given and answered.
#[derive(Clone, Copy, Debug, PartialEq, Eq)]
pub struct Life {
    pub serial: u32,
    pub in_done: bool,
    pub out_sent: bool,
    pub out_done: bool,
    pub out_gone: bool,
    pub ended: bool,
}

impl Life {
    /// An association whose inbound half is just ordered put.
    pub fn begun(serial: u32) -> Life
        ensures { result ≡ lives.begun serial }
    {
        Life {
            serial,
            in_done: false,
            out_sent: false,
            out_done: false,
            out_gone: false,
            ended: false,
        }
    }

    /// Whether it is in progress: from the order of its inbound put until the answer to its outbound put.
    pub fn is_open(self) -> bool
        ensures { result ≡ lives.is_open self }
    {
        !self.ended && !self.out_done
    }

    /// Ended, if it is or if this holds.
    pub fn ended_if(self, ends: bool) -> Life
        ensures { result ≡ lives.ended_if ends self }
    {
        Life {
            serial: self.serial,
            in_done: self.in_done,
            out_sent: self.out_sent,
            out_done: self.out_done,
            out_gone: self.out_gone,
            ended: ends || self.ended,
        }
    }

    /// After its outbound half is ordered put.
    pub fn sent(self) -> Life
        ensures { result ≡ lives.sent self }
    {
        Life {
            serial: self.serial,
            in_done: self.in_done,
            out_sent: true,
            out_done: self.out_done,
            out_gone: self.out_gone,
            ended: self.ended,
        }
    }

    // Whether a later association of its direction took its place by this answer.
    fn is_replaced(self, order: HalfOrder, status: u16) -> bool
        ensures { result ≡ lives.is_replaced self order.serial status order.task }
    {
        match order.task {
            Task::PutOut => self.serial < order.serial && status == 201,
            Task::PutIn | Task::RemoveIn | Task::RemoveOut => false,
        }
    }

    // After the answer to an order of its own.
    fn answered_own(self, task: Task, status: u16) -> Option<Life>
        ensures { result ≡ lives.answered_own self status task }
    {
        let refused = 400 <= status;
        match task {
            Task::PutIn => Some(Life {
                serial: self.serial,
                in_done: true,
                out_sent: self.out_sent,
                out_done: self.out_done,
                out_gone: self.out_gone,
                ended: refused || self.ended,
            }),
            Task::PutOut => Some(Life {
                serial: self.serial,
                in_done: self.in_done,
                out_sent: self.out_sent,
                out_done: true,
                out_gone: self.out_gone,
                ended: refused || self.ended,
            }),
            Task::RemoveIn => None,
            Task::RemoveOut => Some(Life {
                serial: self.serial,
                in_done: self.in_done,
                out_sent: self.out_sent,
                out_done: self.out_done,
                out_gone: true,
                ended: self.ended,
            }),
        }
    }

    /// After the answer to an order of its direction; none once its inbound half is removed.
    pub fn answered(self, order: HalfOrder, status: u16) -> Option<Life>
        ensures { result ≡ lives.answered order status self }
    {
        if self.serial == order.serial {
            self.answered_own(order.task, status)
        } else {
            Some(self.ended_if(self.is_replaced(order, status)))
        }
    }

    /// Whether its outbound half is to be removed.
    pub fn is_out_removable(self, sender: bool) -> bool
        ensures { result ≡ lives.is_out_removable sender self }
    {
        self.ended && self.out_sent && !self.out_gone && sender
    }

    /// Whether its inbound half is to be removed.
    pub fn is_in_removable(self, receiver: bool) -> bool
        ensures { result ≡ lives.is_in_removable receiver self }
    {
        self.ended && (!self.out_sent || self.out_gone) && receiver
    }

    /// Whether its outbound half is to be put.
    pub fn is_out_puttable(self, sender: bool, receiver: bool) -> bool
        ensures { result ≡ lives.is_out_puttable sender receiver self }
    {
        self.is_open() && !self.out_sent && self.in_done && sender && receiver
    }
}
