// What the controller orders.
ghost use Rattle.std.specs.Prelude.{◌≡◌, ◌++◌, ◌∷◌, [], ◌<◌, ◌^◌, All, IfOk, OnOk};
ghost use Rattle.ctl_core.specs.declared.acts.CtlAct.TheVariants as given_as;
ghost use Rattle.ctl_core.specs.declared.acts.CtlEvent.TheVariants as comes;
ghost use Rattle.world_steps.specs.Steps as steps;
ghost use Rattle.world_steps.specs.Conditions.{AreNamed, Gives, IsGiven};
ghost use Rattle.world_run.specs.Taken.{AreFew, IsDone};

use crate::go::Go;
use crate::parts::Parts;
use ctl_core::{CtlAct, CtlActs, CtlEvent};
use hist_acts::{Act, Acts};
use ikeless_tree::{Command, Order};
use ikl_base::{ListOf, NoMemory};

impl Parts {
    fn give_order(&mut self, gateway: usize, order: Order, acts: &mut Acts) -> Result<(), NoMemory>
        requires given { IsGiven self.old.nodes (given_as.Order gateway order) }
        requires named { AreNamed self.old }
        requires few { All (λ n. n.orders < 2 ^ 63) self.old.nodes }
        ensures world { OnOk result (self.new ≡ (steps.giving (given_as.Order gateway order ∷ []) self.old).world) }
        ensures acts { OnOk result (acts.new ≡ acts.old ++ (steps.giving (given_as.Order gateway order ∷ []) self.old).acts) }
    {
        if gateway < self.nodes.len() {
            let node = &mut self.nodes[gateway];
            node.order(order, acts)?;
        }
        Ok(())
    }

    fn give_act(&mut self, given: CtlAct, acts: &mut Acts) -> Result<(), NoMemory>
        requires given { IsGiven self.old.nodes given }
        requires named { AreNamed self.old }
        requires few { All (λ n. n.orders < 2 ^ 63) self.old.nodes }
        ensures world { OnOk result (self.new ≡ (steps.giving (given ∷ []) self.old).world) }
        ensures acts { OnOk result (acts.new ≡ acts.old ++ (steps.giving (given ∷ []) self.old).acts) }
    {
        match given {
            CtlAct::Order { gateway, order } => self.give_order(gateway, order, acts),
            CtlAct::Refused(why) => acts.push(Act::Refused(why)),
        }
    }

    // What the controller orders and refuses, one after the other.
    fn give(&mut self, given: CtlActs, acts: &mut Acts) -> Result<(), NoMemory>
        requires given { All (IsGiven self.old.nodes) given }
        requires named { AreNamed self.old }
        requires few { AreFew self.old }
        ensures world { OnOk result (self.new ≡ (steps.giving given self.old).world) }
        ensures acts { OnOk result (acts.new ≡ acts.old ++ (steps.giving given self.old).acts) }
    {
        for act in given.into_items() {
            self.give_act(act, acts)?;
        }
        Ok(())
    }

    /// Something comes to the controller.
    pub(crate) fn control(&mut self, e: CtlEvent, acts: &mut Acts) -> Result<Go, NoMemory>
        requires gives { Gives e self.old }
        requires named { AreNamed self.old }
        requires few { AreFew self.old }
        ensures { IfOk result (λ go. IsDone (steps.controlled e self.old) acts.old acts.new self.new go) }
    {
        let mut given = ListOf::new(self.alloc);
        self.controller.step(e, &mut given)?;
        self.give(given, acts)?;
        Ok(Go::On)
    }

    pub(crate) fn command(&mut self, c: Command, acts: &mut Acts) -> Result<Go, NoMemory>
        requires gives { Gives (comes.Command c) self.old }
        requires named { AreNamed self.old }
        requires few { AreFew self.old }
        ensures { IfOk result (λ go. IsDone (steps.controlled (comes.Command c) self.old) acts.old acts.new self.new go) }
    {
        self.control(CtlEvent::Command(c), acts)
    }
}
