// What happens to a controller, and what it does.
use ikeless_tree::{Answer, Command, Notice, Order, Refusal};
use ikl_base::{Duplicate, ListOf, NoMemory};

/// What a controller is told or hears. A gateway stands as its number among the peers.
#[derive(Debug, Drop)]
pub enum CtlEvent {
    Command(Command),
    Opened(usize),
    Cut(usize),
    Answered(usize, Answer),
    Noticed(usize, Notice),
}

/// What a controller does: it orders something at a gateway, or refuses a command.
#[derive(Debug, Drop)]
pub enum CtlAct {
    Order { gateway: usize, order: Order },
    Refused(Refusal),
}

impl Duplicate for CtlAct {
    fn copy(&self) -> Result<CtlAct, NoMemory> {
        match self {
            CtlAct::Order { gateway, order } => Ok(CtlAct::Order {
                gateway: *gateway,
                order: order.copy()?,
            }),
            CtlAct::Refused(why) => Ok(CtlAct::Refused(*why)),
        }
    }
}

/// Acts, in order.
pub type CtlActs = ListOf<CtlAct>;
