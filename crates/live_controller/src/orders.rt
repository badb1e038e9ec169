// What the controller is told, and what it does then: orders are written to the peers.
ghost use Rattle.std.specs.Prelude.{◌≡◌, ◌<◌, ◌∷◌, [], ℕ, All, IfOk, OnOk, length, true, false};
ghost use Rattle.ctl_core.specs.declared.acts.CtlAct.TheVariants as done;
ghost use Rattle.ctl_core.specs.declared.acts.CtlEvent.TheVariants as told;
ghost use Rattle.ctl_core.specs.Step.{stepped};
ghost use Rattle.live_controller.specs.Desks.{Keeps, Serves};
ghost use Rattle.live_controller.specs.Doings.{Agrees, AgreesBy, AreCalm, AreLater, Carried, Does, IsReady, Tells};
ghost use Rattle.live_controller.specs.Links.{up_at};
ghost use Rattle.live_controller.specs.Standing.{order_text, refused_of, CanBeTold, IsGiven};

use crate::desk::Desk;
use ctl_core::{CtlAct, CtlActs, CtlEvent};
use ikeless_tree::{Order, Refusal};
use ikl_base::{Failed, NoMemory, Octets};
use live_devices::Dialer;
use session_messages::write_order;
use text_bounds::orders_can_be_written;

// Why a command is refused; a refusal stands alone.
fn refusal_in(acts: &CtlActs) -> Option<Refusal>
    ensures { result ≡ refused_of acts.now }
{
    match acts.as_slice() {
        [CtlAct::Refused(why)] => Some(*why),
        _ => None,
    }
}

impl Desk {
    // The octets of the request that carries an order to a peer.
    fn request(&self, g: usize, order: &Order) -> Result<Octets, NoMemory>
        requires { IsGiven self.now.peers (done.Order g order.now) }
        ensures { IfOk result (λ text. text ≡ order_text self.now.peers g order.now) }
    {
        orders_can_be_written();
        let host = self.address_of(g);
        host.numbers_fit();
        order.numbers_fit();
        write_order(self.alloc, &host, order)
    }

    // Writes an order to a peer whose session is open. One at which that fails is hung up, and joins the lost ones.
    fn send<L: Dialer>(
        &mut self,
        g: usize,
        order: &Order,
        dialer: &mut L,
        lost: &mut Vec<usize>,
    ) -> Result<(), NoMemory>
        requires serves { Serves self.old (L.peers dialer.old) (L.is_up dialer.old) }
        requires given { IsGiven self.old.peers (done.Order g order.now) }
        requires lost { All (λ k. k < length self.old.peers) lost.old.items }
        ensures serves { OnOk result (Serves self.new (L.peers dialer.new) (L.is_up dialer.new)) }
        ensures keeps { OnOk result (Keeps self.old self.new) }
        ensures lost { OnOk result (All (λ k. k < length self.old.peers) lost.new.items) }
        ensures core { self.new.controller ≡ self.old.controller }
        ensures later { OnOk result (AreLater (L.faults dialer.old) (L.faults dialer.new)) }
        ensures carried { OnOk result (AreCalm (L.faults dialer.old) (L.faults dialer.new) → up_at self.old.links.items g ≡ true
            → Carried self.old.peers (done.Order g order.now ∷ []) self.old self.new lost.old.items lost.new.items (L.held dialer.old)
            (L.held dialer.new)) }
    {
        if !self.is_open(g) {
            return Ok(());
        }
        let text = self.request(g, order)?;
        match dialer.write(g, text.as_slice()) {
            Ok(()) => Ok(()),
            Err(Failed) => {
                self.hang_up(g, dialer);
                Ok(lost.push(g)?)
            }
        }
    }

    fn carry_out_one<L: Dialer>(
        &mut self,
        act: &CtlAct,
        dialer: &mut L,
        lost: &mut Vec<usize>,
    ) -> Result<(), NoMemory>
        requires serves { Serves self.old (L.peers dialer.old) (L.is_up dialer.old) }
        requires given { IsGiven self.old.peers act.now }
        requires lost { All (λ k. k < length self.old.peers) lost.old.items }
        ensures serves { OnOk result (Serves self.new (L.peers dialer.new) (L.is_up dialer.new)) }
        ensures keeps { OnOk result (Keeps self.old self.new) }
        ensures lost { OnOk result (All (λ k. k < length self.old.peers) lost.new.items) }
        ensures core { self.new.controller ≡ self.old.controller }
        ensures later { OnOk result (AreLater (L.faults dialer.old) (L.faults dialer.new)) }
        ensures carried { OnOk result (AreCalm (L.faults dialer.old) (L.faults dialer.new) → IsReady self.old.links.items act.now
            → Carried self.old.peers (act.now ∷ []) self.old self.new lost.old.items lost.new.items (L.held dialer.old)
            (L.held dialer.new)) }
    {
        match act {
            CtlAct::Order { gateway, order } => self.send(*gateway, order, dialer, lost),
            CtlAct::Refused(_) => Ok(()),
        }
    }

    // Carries out what the controller does, act by act.
    fn carry_out<L: Dialer>(
        &mut self,
        acts: &CtlActs,
        dialer: &mut L,
        lost: &mut Vec<usize>,
    ) -> Result<(), NoMemory>
        requires serves { Serves self.old (L.peers dialer.old) (L.is_up dialer.old) }
        requires given { All (IsGiven self.old.peers) acts.now }
        requires lost { All (λ k. k < length self.old.peers) lost.old.items }
        ensures serves { OnOk result (Serves self.new (L.peers dialer.new) (L.is_up dialer.new)) }
        ensures keeps { OnOk result (Keeps self.old self.new) }
        ensures lost { OnOk result (All (λ k. k < length self.old.peers) lost.new.items) }
        ensures core { OnOk result (self.new.controller ≡ self.old.controller) }
        ensures later { OnOk result (AreLater (L.faults dialer.old) (L.faults dialer.new)) }
        ensures carried { OnOk result (AreCalm (L.faults dialer.old) (L.faults dialer.new) → All (IsReady self.old.links.items) acts.now
            → Carried self.old.peers acts.now self.old self.new lost.old.items lost.new.items (L.held dialer.old) (L.held dialer.new)) }
    {
        for act in acts.as_slice() {
            self.carry_out_one(act, dialer, lost)?;
        }
        Ok(())
    }

    // Tells the controller of one event, and carries out what it does.
    fn tell_one<L: Dialer>(
        &mut self,
        e: CtlEvent,
        dialer: &mut L,
        lost: &mut Vec<usize>,
    ) -> Result<Option<Refusal>, NoMemory>
        requires serves { Serves self.old (L.peers dialer.old) (L.is_up dialer.old) }
        requires event { CanBeTold self.old.peers self.old.controller e }
        requires lost { All (λ k. k < length self.old.peers) lost.old.items }
        ensures serves { OnOk result (Serves self.new (L.peers dialer.new) (L.is_up dialer.new)) }
        ensures keeps { OnOk result (Keeps self.old self.new) }
        ensures lost { OnOk result (All (λ k. k < length self.old.peers) lost.new.items) }
        ensures core { OnOk result (self.new.controller ≡ (stepped self.old.controller e).core) }
        ensures refused { IfOk result (λ refused. refused ≡ refused_of (stepped self.old.controller e).acts) }
        ensures later { OnOk result (AreLater (L.faults dialer.old) (L.faults dialer.new)) }
        ensures tells { OnOk result (AreCalm (L.faults dialer.old) (L.faults dialer.new) → AgreesBy e self.old
            → Tells e self.old self.new (L.held dialer.old) (L.held dialer.new) × (lost.new.items ≡ lost.old.items)) }
    {
        let acts = self.step(e)?;
        self.carry_out(&acts, dialer, lost)?;
        Ok(refusal_in(&acts))
    }

    // Tells the controller that the lost sessions are cut, in the order in which they were lost, and those that are lost by that.
    // A session is lost once at most.
    fn tell_lost<L: Dialer>(
        &mut self,
        lost: &mut Vec<usize>,
        dialer: &mut L,
    ) -> Result<(), NoMemory>
        requires serves { Serves self.old (L.peers dialer.old) (L.is_up dialer.old) }
        requires lost { All (λ k. k < length self.old.peers) lost.old.items }
        ensures serves { OnOk result (Serves self.new (L.peers dialer.new) (L.is_up dialer.new)) }
        ensures keeps { OnOk result (Keeps self.old self.new) }
        ensures later { OnOk result (AreLater (L.faults dialer.old) (L.faults dialer.new)) }
    {
        for i in 0..self.peers.len() {
            if i >= lost.len() {
                break;
            }
            let g = lost[i];
            self.tell_one(CtlEvent::Cut(g), dialer, lost)?;
        }
        Ok(())
    }

    /// Tells the controller of an event, carries out what it does, and tells it of the sessions that were lost by that. The answer is
    /// why the event was refused, if it was a command that was.
    pub(crate) fn tell<L: Dialer>(
        &mut self,
        e: CtlEvent,
        dialer: &mut L,
    ) -> Result<Option<Refusal>, NoMemory>
        requires serves { Serves self.old (L.peers dialer.old) (L.is_up dialer.old) }
        requires event { CanBeTold self.old.peers self.old.controller e }
        ensures serves { OnOk result (Serves self.new (L.peers dialer.new) (L.is_up dialer.new)) }
        ensures keeps { OnOk result (Keeps self.old self.new) }
        ensures refused { IfOk result (λ refused. refused ≡ refused_of (stepped self.old.controller e).acts) }
        ensures later { OnOk result (AreLater (L.faults dialer.old) (L.faults dialer.new)) }
        ensures tells { OnOk result (AreCalm (L.faults dialer.old) (L.faults dialer.new) → AgreesBy e self.old
            → Tells e self.old self.new (L.held dialer.old) (L.held dialer.new)) }
    {
        let mut lost = Vec::new(self.alloc);
        let refused = self.tell_one(e, dialer, &mut lost)?;
        if lost.is_empty() {
            return Ok(refused);
        }
        self.tell_lost(&mut lost, dialer)?;
        Ok(refused)
    }

    /// Cuts the session of a peer: it is hung up at once, and the controller is told.
    pub(crate) fn cut<L: Dialer>(&mut self, g: usize, dialer: &mut L) -> Result<(), NoMemory>
        requires serves { Serves self.old (L.peers dialer.old) (L.is_up dialer.old) }
        requires known { g < length self.old.peers }
        ensures serves { OnOk result (Serves self.new (L.peers dialer.new) (L.is_up dialer.new)) }
        ensures keeps { OnOk result (Keeps self.old self.new) }
        ensures down { OnOk result (up_at self.new.links.items g ≡ false) }
        ensures later { OnOk result (AreLater (L.faults dialer.old) (L.faults dialer.new)) }
        ensures does { OnOk result (AreCalm (L.faults dialer.old) (L.faults dialer.new) → Agrees self.old
            → Does (told.Cut g) self.old self.new (L.held dialer.old) (L.held dialer.new)) }
    {
        self.hang_up(g, dialer);
        self.tell(CtlEvent::Cut(g), dialer)?;
        Ok(())
    }
}
