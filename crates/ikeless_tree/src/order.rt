// Orders to a gateway, its answers and its notices.
use crate::entry::{Entries, Selector};
use crate::error::Tag;
use crate::sad::{Limits, SadEntry};
use ikl_base::{Duplicate, ListOf, Name, NoMemory};

/// Names, in order.
pub type Names = ListOf<Name>;

/// What a gateway tells its controller without being asked.
#[derive(Debug, Drop)]
pub enum Notice {
    Acquire {
        policy: Name,
        selector: Selector,
    },
    Expire {
        name: Name,
        soft: bool,
        current: Limits,
    },
    SeqOverflow {
        name: Name,
    },
    BadSpi {
        spi: u32,
    },
}

impl Duplicate for Notice {
    fn copy(&self) -> Result<Notice, NoMemory> {
        match self {
            Notice::Acquire { policy, selector } => Ok(Notice::Acquire {
                policy: policy.copy()?,
                selector: selector.copy()?,
            }),
            Notice::Expire {
                name,
                soft,
                current,
            } => Ok(Notice::Expire {
                name: name.copy()?,
                soft: *soft,
                current: *current,
            }),
            Notice::SeqOverflow { name } => Ok(Notice::SeqOverflow { name: name.copy()? }),
            Notice::BadSpi { spi } => Ok(Notice::BadSpi { spi: *spi }),
        }
    }
}

/// What a controller orders at a gateway.
#[derive(Debug, Drop)]
pub enum Order {
    Read,
    Policy(Entries),
    Put(SadEntry),
    Remove(Name),
}

impl Duplicate for Order {
    fn copy(&self) -> Result<Order, NoMemory> {
        match self {
            Order::Read => Ok(Order::Read),
            Order::Policy(list) => Ok(Order::Policy(list.copy()?)),
            Order::Put(entry) => Ok(Order::Put(entry.copy()?)),
            Order::Remove(name) => Ok(Order::Remove(name.copy()?)),
        }
    }
}

/// A gateway's answer to an order. `names` are those of a reading, and else none.
#[derive(Debug, Drop)]
pub struct Answer {
    pub status: u16,
    pub tag: Option<Tag>,
    pub names: Names,
}

/// A way of octets between a gateway and its controller: requests down, answers up, and notices up beside them.
#[derive(Clone, Copy, Debug, PartialEq, Eq)]
pub enum Lane {
    Down,
    Up,
    Note,
}
