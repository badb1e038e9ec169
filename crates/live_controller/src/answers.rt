// What comes from a peer: its responses, and its notices.
ghost use Rattle.std.specs.Prelude.{◌≡◌, ◌<◌, ◌≤◌, ◌++◌, ℕ, List, IfOk, IfSome, OnOk, drop, length, true, false};
ghost use Rattle.ikeless_tree.specs.declared.command.Peer.{Peer as PeerOf};
ghost use Rattle.rc_http.specs.declared.message.Kind.TheVariants.{Response};
ghost use Rattle.rc_answer.specs.Answers.{answer_of};
ghost use Rattle.session_messages.specs.Whole.{if_good};
ghost use Rattle.ctl_core.specs.declared.acts.CtlEvent.TheVariants as told;
ghost use Rattle.ctl_core.specs.Core.{expected};
ghost use Rattle.ctl_law.specs.Told.{may_answer};
ghost use Rattle.live_controller.specs.Desks.{Keeps, Serves};
ghost use Rattle.live_controller.specs.Doings.{Agrees, AreCalm, AreLater, Does};
ghost use Rattle.live_controller.specs.Found.{Devices};
ghost use Rattle.live_controller.specs.Past.{Item, answer_in};
ghost use Rattle.live_controller.specs.Stands.{AreLines, AreResponses, PeersStand, left_at, none_left};
ghost use Rattle.live_controller.specs.Links.{notices_at, responses_at, up_at, OthersStay};
ghost use Rattle.live_controller.specs.Standing.{answer_to};
ghost use Rattle.live_controller.specs.Streams.{Brings, Notes};

use crate::desk::Desk;
use crate::messages::Brought;
use crate::notices::Noted;
use ctl_core::CtlEvent;
use ikeless_tree::{Answer, Notice, Order};
use ikl_base::{NoMemory, OrMemory};
use live_devices::Dialer;
use rc_http::HttpMessage;
use rc_resource::{answers_have_statuses, read_answer};
use std::alloc::Global;

// The answer to an order that a response says, if it says one.
fn answer_said(alloc: Global, order: &Order, m: &HttpMessage) -> Result<Option<Answer>, NoMemory>
    ensures { IfOk result (λ x. x ≡ if_good (answer_of order.now m.now)) }
{
    match read_answer(alloc, order, m) {
        Ok(answer) => Ok(Some(answer)),
        Err(OrMemory::Refused(_)) => Ok(None),
        Err(OrMemory::NoMemory) => Err(NoMemory),
    }
}

impl Desk {
    // The answer that a response says to the oldest order that waits at a peer.
    fn answer_from(&self, g: usize, m: &HttpMessage) -> Result<Option<Answer>, NoMemory>
        ensures answer { IfOk result (λ x. x ≡ answer_to (expected self.now.controller g) m.now) }
        ensures status { IfOk result (λ x. IfSome x (λ a. may_answer (expected self.now.controller g) a.status ≡ true)) }
    {
        answers_have_statuses();
        match self.controller.expects(g) {
            None => Ok(None),
            Some(order) => answer_said(self.alloc, order, m),
        }
    }

    // Takes a response: an answer that nothing expects, or that says none, cuts the session.
    fn take_response<L: Dialer>(
        &mut self,
        g: usize,
        m: &HttpMessage,
        dialer: &mut L,
    ) -> Result<(), NoMemory>
        requires serves { Serves self.old (L.peers dialer.old) (L.is_up dialer.old) }
        requires known { g < length self.old.peers }
        ensures serves { OnOk result (Serves self.new (L.peers dialer.new) (L.is_up dialer.new)) }
        ensures keeps { OnOk result (Keeps self.old self.new) }
        ensures later { OnOk result (AreLater (L.faults dialer.old) (L.faults dialer.new)) }
        ensures does { OnOk result (AreCalm (L.faults dialer.old) (L.faults dialer.new) → Agrees self.old
            → Does (answer_in g (answer_to (expected self.old.controller g) m.now)) self.old self.new (L.held dialer.old)
            (L.held dialer.new)) }
    {
        match self.answer_from(g, m)? {
            Some(answer) => {
                self.tell(CtlEvent::Answered(g, answer), dialer)?;
                Ok(())
            }
            None => self.cut(g, dialer),
        }
    }

    // What the next octets of a peer's control stream bring.
    fn feed_responses(&mut self, g: usize, piece: &[u8]) -> Result<Brought, NoMemory>
        requires { g < length self.old.links.items }
        ensures brings { IfOk result (Brings Response (responses_at self.old.links.items g) (responses_at self.new.links.items g)
            piece.now) }
        ensures up { up_at self.new.links.items g ≡ up_at self.old.links.items g }
        ensures notices { notices_at self.new.links.items g ≡ notices_at self.old.links.items g }
        ensures others { OthersStay g self.old.links.items self.new.links.items }
        ensures size { length self.new.links.items ≡ length self.old.links.items }
        ensures peers { self.new.peers ≡ self.old.peers }
        ensures core { self.new.controller ≡ self.old.controller }
    {
        let alloc = self.alloc;
        let link = &mut self.links[g];
        link.responses.feed(alloc, piece)
    }

    // Takes the next response of a peer whose session is open, as far as it goes. Answers how many octets
    // that is: all of them where it isn't whole, or the session is cut.
    fn take_next_response<L: Dialer>(
        &mut self,
        g: usize,
        piece: &[u8],
        dialer: &mut L,
    ) -> Result<usize, NoMemory>
        requires serves { Serves self.old (L.peers dialer.old) (L.is_up dialer.old) }
        requires known { g < length self.old.peers }
        requires up { up_at self.old.links.items g ≡ true }
        requires some { 0 < length piece.now }
        ensures serves { OnOk result (Serves self.new (L.peers dialer.new) (L.is_up dialer.new)) }
        ensures keeps { OnOk result (Keeps self.old self.new) }
        ensures within { IfOk result (λ n. n ≤ length piece.now) }
        ensures taken { IfOk result (λ n. 0 < n) }
        ensures later { OnOk result (AreLater (L.faults dialer.old) (L.faults dialer.new)) }
        ensures goes { IfOk result (λ n. AreCalm (L.faults dialer.old) (L.faults dialer.new)
            → (ps : List PeerOf) (start : Devices) (past : List Item)
            → PeersStand ps start past (left_at g piece.now) none_left (L.held dialer.old) self.old
            → (more : List Item) × AreResponses g more × PeersStand ps start (more ++ past) (left_at g (drop n piece.now)) none_left
            (L.held dialer.new) self.new) }
    {
        match self.feed_responses(g, piece)? {
            Brought::NoneYet => Ok(piece.len()),
            Brought::Broken(_) => {
                self.cut(g, dialer)?;
                Ok(piece.len())
            }
            Brought::Whole { message, taken } => {
                self.take_response(g, &message, dialer)?;
                Ok(taken)
            }
        }
    }

    /// Takes octets of a peer's control stream, as long as its session is open.
    pub(crate) fn take_responses<L: Dialer>(
        &mut self,
        g: usize,
        octets: &[u8],
        dialer: &mut L,
    ) -> Result<(), NoMemory>
        requires serves { Serves self.old (L.peers dialer.old) (L.is_up dialer.old) }
        requires known { g < length self.old.peers }
        ensures serves { OnOk result (Serves self.new (L.peers dialer.new) (L.is_up dialer.new)) }
        ensures keeps { OnOk result (Keeps self.old self.new) }
        ensures later { OnOk result (AreLater (L.faults dialer.old) (L.faults dialer.new)) }
        ensures goes { OnOk result (AreCalm (L.faults dialer.old) (L.faults dialer.new)
            → (ps : List PeerOf) (start : Devices) (past : List Item)
            → PeersStand ps start past (left_at g octets.now) none_left (L.held dialer.old) self.old
            → (more : List Item) × AreResponses g more × PeersStand ps start (more ++ past) none_left none_left (L.held dialer.new)
            self.new) }
    {
        let mut rest = octets;
        'messages: while !rest.is_empty() {
            if !self.is_open(g) {
                return Ok(());
            }
            let taken = self.take_next_response(g, rest, dialer)?;
            let (_, more) = rest.split_at(taken);
            rest = more;
        }
        Ok(())
    }

    // What the next octets of a peer's notice stream bring.
    fn feed_notices(&mut self, g: usize, piece: &[u8]) -> Result<Noted, NoMemory>
        requires { g < length self.old.links.items }
        ensures notes { IfOk result (Notes (notices_at self.old.links.items g) (notices_at self.new.links.items g) piece.now) }
        ensures up { up_at self.new.links.items g ≡ up_at self.old.links.items g }
        ensures responses { responses_at self.new.links.items g ≡ responses_at self.old.links.items g }
        ensures others { OthersStay g self.old.links.items self.new.links.items }
        ensures size { length self.new.links.items ≡ length self.old.links.items }
        ensures peers { self.new.peers ≡ self.old.peers }
        ensures core { self.new.controller ≡ self.old.controller }
    {
        let alloc = self.alloc;
        let link = &mut self.links[g];
        link.notices.feed(alloc, piece)
    }

    fn take_notice<L: Dialer>(
        &mut self,
        g: usize,
        notice: Notice,
        dialer: &mut L,
    ) -> Result<(), NoMemory>
        requires serves { Serves self.old (L.peers dialer.old) (L.is_up dialer.old) }
        requires known { g < length self.old.peers }
        ensures serves { OnOk result (Serves self.new (L.peers dialer.new) (L.is_up dialer.new)) }
        ensures keeps { OnOk result (Keeps self.old self.new) }
        ensures later { OnOk result (AreLater (L.faults dialer.old) (L.faults dialer.new)) }
        ensures does { OnOk result (AreCalm (L.faults dialer.old) (L.faults dialer.new) → Agrees self.old
            → Does (told.Noticed g notice) self.old self.new (L.held dialer.old) (L.held dialer.new)) }
    {
        self.tell(CtlEvent::Noticed(g, notice), dialer)?;
        Ok(())
    }

    // Takes the next notice of a peer whose session is open, as far as its line goes. Answers how many octets
    // that is: all of them where it isn't whole, or the session is cut.
    fn take_next_notice<L: Dialer>(
        &mut self,
        g: usize,
        piece: &[u8],
        dialer: &mut L,
    ) -> Result<usize, NoMemory>
        requires serves { Serves self.old (L.peers dialer.old) (L.is_up dialer.old) }
        requires known { g < length self.old.peers }
        requires up { up_at self.old.links.items g ≡ true }
        requires some { 0 < length piece.now }
        ensures serves { OnOk result (Serves self.new (L.peers dialer.new) (L.is_up dialer.new)) }
        ensures keeps { OnOk result (Keeps self.old self.new) }
        ensures within { IfOk result (λ n. n ≤ length piece.now) }
        ensures taken { IfOk result (λ n. 0 < n) }
        ensures later { OnOk result (AreLater (L.faults dialer.old) (L.faults dialer.new)) }
        ensures goes { IfOk result (λ n. AreCalm (L.faults dialer.old) (L.faults dialer.new)
            → (ps : List PeerOf) (start : Devices) (past : List Item)
            → PeersStand ps start past none_left (left_at g piece.now) (L.held dialer.old) self.old
            → (more : List Item) × AreLines g more × PeersStand ps start (more ++ past) none_left (left_at g (drop n piece.now))
            (L.held dialer.new) self.new) }
    {
        match self.feed_notices(g, piece)? {
            Noted::NoneYet => Ok(piece.len()),
            Noted::Broken => {
                self.cut(g, dialer)?;
                Ok(piece.len())
            }
            Noted::Line { notice, taken } => {
                self.take_notice(g, notice, dialer)?;
                Ok(taken)
            }
        }
    }

    /// Takes octets of a peer's notice stream, as long as its session is open.
    pub(crate) fn take_notices<L: Dialer>(
        &mut self,
        g: usize,
        octets: &[u8],
        dialer: &mut L,
    ) -> Result<(), NoMemory>
        requires serves { Serves self.old (L.peers dialer.old) (L.is_up dialer.old) }
        requires known { g < length self.old.peers }
        ensures serves { OnOk result (Serves self.new (L.peers dialer.new) (L.is_up dialer.new)) }
        ensures keeps { OnOk result (Keeps self.old self.new) }
        ensures later { OnOk result (AreLater (L.faults dialer.old) (L.faults dialer.new)) }
        ensures goes { OnOk result (AreCalm (L.faults dialer.old) (L.faults dialer.new)
            → (ps : List PeerOf) (start : Devices) (past : List Item)
            → PeersStand ps start past none_left (left_at g octets.now) (L.held dialer.old) self.old
            → (more : List Item) × AreLines g more × PeersStand ps start (more ++ past) none_left none_left (L.held dialer.new) self.new) }
    {
        let mut rest = octets;
        'lines: while !rest.is_empty() {
            if !self.is_open(g) {
                return Ok(());
            }
            let taken = self.take_next_notice(g, rest, dialer)?;
            let (_, more) = rest.split_at(taken);
            rest = more;
        }
        Ok(())
    }
}
