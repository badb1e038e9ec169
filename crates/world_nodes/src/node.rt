// A gateway of a script with its sessions.
ghost use Rattle.std.specs.Prelude.{◌≡◌, ◌+◌, ◌++◌, ◌∷◌, [], ◌-◌, ◌<◌, ◌^◌, ℕ, List, All, Option, None, Ok, Some, IfOk, OnOk};
ghost use Rattle.ikeless_tree.specs.declared.order.Answer.{Answer as Said};
ghost use Rattle.ikeless_tree.specs.declared.order.Lane.TheVariants as lanes;
ghost use Rattle.ikeless_tree.specs.declared.order.Notice.{Notice as Noted};
ghost use Rattle.ikeless_tree.specs.declared.order.Order.{Order as Given};
ghost use Rattle.reply_table.specs.Order.{ask_of};
ghost use Rattle.rc_http.specs.Written.{IsWritableResponse, response_text};
ghost use Rattle.rc_answer.specs.Answers.{answer_of};
ghost use Rattle.rc_resource.specs.declared.reply.Reply.{Reply as Replied};
ghost use Rattle.rc_resource.specs.Messages.{reply_message};
ghost use Rattle.notice_lines.specs.Reading.{IsHeard};
ghost use Rattle.hist_acts.specs.declared.act.Act.TheVariants as told_as;
ghost use Rattle.hist_wire.specs.Wire.{first_octets};
ghost use Rattle.session_pipe.specs.UnderWay.{next_message};
ghost use Rattle.gw_core.specs.Machine.{CanBoot, Handle, IsEvent, seen};
ghost use Rattle.world_steps.specs.Nodes.{acts_told, after_event, after_request, all_sent, begun, cut as cut_off, heard_answer, heard_notice, naming, opened, ordered, outcome, restarted};
ghost use Rattle.world_steps.specs.Conditions.{Asks, IsSent, IsWritten};
ghost use Rattle.world_nodes.specs.Numbered.{naming_by};
ghost use Rattle.world_nodes.specs.Told.{acted, piped_all};

use crate::naming::Numbers;
use crate::sent::SentLog;
use crate::tell::{log_acts, pipe_acts, tell_acts};
use gw_core::{Config, Gateway, GwActs, GwEvent};
use hist_acts::{Act, Acts};
use ikeless_tree::{Answer, Lane, Notice, Order};
use ikl_base::{Addr, Duplicate, ListOf, Name, NoMemory, Octets};
use rc_resource::{Ask, RcError};
use session_messages::{read_ask, read_line, read_reply, write_order};
use session_pipe::Pipe;
use std::alloc::Global;
use std::marker::Model;

// As many octets of a lane as a line shows.
const SHOWN: usize = 4096;

/// A gateway, what is under way between it and its controller, and the numbers of its requests.
#[derive(Drop)]
pub struct Node {
    alloc: Global,
    name: Name,
    gateway: Gateway,
    pipe: Pipe,
    orders: u64,
    handled: u64,
    answered: u64,
}

impl Model for Node {
    ghost use Rattle.world_steps.specs.Nodes as nodes;

    ghost Value = { nodes.Node };

    ghost view = { λ n. record {
      name = n.name;
      config = n.gateway.config;
      kept = n.gateway.kept;
      pipe = n.pipe;
      orders = n.orders;
      handled = n.handled;
      answered = n.answered;
    } };
}

impl Node {
    /// A gateway that was never started. Its last number is 1 to 4,294,967,295.
    pub fn begun(alloc: Global, seq_last: u64, name: Name, address: Addr) -> Result<Node, NoMemory>
        requires { CanBoot (record { address = address; seq_last = seq_last }) }
        ensures { IfOk result (λ n. n ≡ begun seq_last (record { name = name; address = address })) }
    {
        Ok(Node {
            alloc,
            name,
            gateway: Gateway::booted(alloc, Config { address, seq_last })?,
            pipe: Pipe::new(alloc),
            orders: 0,
            handled: 0,
            answered: 0,
        })
    }

    /// Its name.
    pub fn name(&self) -> &Name
        ensures { result.now ≡ self.now.name }
    {
        &self.name
    }

    /// How many sessions were opened; the last one has this number.
    pub fn openings(&self) -> u32
        ensures { result ≡ self.now.pipe.openings }
    {
        self.pipe.openings()
    }

    /// Whether the controller sees its session as open.
    pub fn is_open(&self) -> bool
        ensures { result ≡ self.now.pipe.is_open }
    {
        self.pipe.is_open()
    }

    /// How many answers the controller heard in the session that was opened last.
    pub fn answered(&self) -> u64
        ensures { result ≡ self.now.answered }
    {
        self.answered
    }

    // What names its acts.
    fn numbers(&self) -> Numbers
        ensures naming { naming_by self.now.name result ≡ naming self.now }
        ensures requests { result.requests ≡ self.now.handled }
    {
        Numbers {
            openings: self.pipe.openings(),
            session: if self.pipe.is_taken() {
                self.pipe.openings()
            } else {
                0
            },
            requests: self.handled,
        }
    }

    /// Steps the gateway, and gives what it does. It isn't told yet.
    pub fn act(&mut self, e: GwEvent) -> Result<GwActs, NoMemory>
        requires { IsEvent (seen e) }
        ensures acts { IfOk result (λ acts. acts ≡ (outcome self.old (seen e.entry)).acts) }
        ensures node { OnOk result (self.new ≡ acted (seen e.entry) self.old) }
    {
        let mut done = ListOf::new(self.alloc);
        self.gateway.step(e, &mut done)?;
        Ok(done)
    }

    /// Tells what the gateway did, with what it puts into its pipe and into the log.
    pub fn tell(
        &mut self,
        done: GwActs,
        sent: &mut SentLog,
        acts: &mut Acts,
    ) -> Result<(), NoMemory>
        requires written { All IsWritten done }
        requires few { self.old.handled < 2 ^ 63 }
        ensures node { OnOk result (self.new ≡ piped_all done self.old) }
        ensures sent { OnOk result (sent.new ≡ sent.old ++ all_sent done) }
        ensures acts { OnOk result (acts.new ≡ acts.old ++ acts_told self.old done) }
    {
        let numbers = self.numbers();
        pipe_acts(self.alloc, self.gateway.clock(), &done, &mut self.pipe)?;
        log_acts(self.alloc, &done, sent)?;
        tell_acts(&self.name, numbers, done, acts)
    }

    // The gateway handles a request.
    fn handle_request(
        &mut self,
        request: Result<Ask, RcError>,
        sent: &mut SentLog,
        acts: &mut Acts,
    ) -> Result<(), NoMemory>
        requires event { IsEvent (Handle request) }
        requires written { All IsWritten (outcome self.old (Handle request)).acts }
        requires few { self.old.handled < 2 ^ 63 }
        ensures node { OnOk result (self.new ≡ record (after_event (Handle request) self.old) { handled = self.old.handled + 1 }) }
        ensures sent { OnOk result (sent.new ≡ sent.old ++ all_sent (outcome self.old (Handle request)).acts) }
        ensures acts { OnOk result (acts.new ≡ acts.old ++ acts_told self.old (outcome self.old (Handle request)).acts) }
    {
        let done = self.act(GwEvent::Handle(request))?;
        self.tell(done, sent, acts)?;
        self.handled += 1;
        Ok(())
    }

    /// The gateway handles the next request, if there is one.
    pub fn handle(&mut self, sent: &mut SentLog, acts: &mut Acts) -> Result<(), NoMemory>
        requires asks { (x : Option Given) × Asks self.old x }
        requires few { self.old.handled < 2 ^ 63 }
        ensures none { Asks self.old None → OnOk result ((self.new ≡ self.old) × (sent.new ≡ sent.old) × (acts.new ≡ acts.old)) }
        ensures node { (o : Given) → Asks self.old (Some o) → OnOk result (self.new ≡ after_request o self.old) }
        ensures sent { (o : Given) → Asks self.old (Some o)
            → OnOk result (sent.new ≡ sent.old ++ all_sent (outcome self.old (Handle (Ok (ask_of o)))).acts) }
        ensures acts { (o : Given) → Asks self.old (Some o)
            → OnOk result (acts.new ≡ acts.old ++ acts_told self.old (outcome self.old (Handle (Ok (ask_of o)))).acts) }
    {
        match self.pipe.take(Lane::Down)? {
            None => Ok(()),
            Some(octets) => {
                let request = read_ask(self.alloc, octets.as_slice())?;
                self.handle_request(request, sent, acts)
            }
        }
    }

    /// A session is opened, which the gateway takes.
    pub fn open_session(&mut self) -> Result<(), NoMemory>
        requires { self.old.pipe.openings < 2 ^ 32 - 1 }
        ensures { OnOk result (self.new ≡ opened self.old) }
    {
        self.act(GwEvent::SessionTaken)?;
        let _ = self.pipe.open();
        self.orders = 0;
        self.handled = 0;
        self.answered = 0;
        Ok(())
    }

    /// The controller sees its session end.
    pub fn cut(&mut self)
        ensures { self.new ≡ cut_off self.old }
    {
        let _ = self.pipe.cut();
    }

    /// The gateway restarts, and reads the clock at once.
    pub fn restart(&mut self, now: u32) -> Result<(), NoMemory>
        ensures { OnOk result (self.new ≡ restarted now self.old) }
    {
        self.gateway = Gateway::booted(self.alloc, self.gateway.config())?;
        self.act(GwEvent::Clock(now))?;
        self.pipe.reboot();
        self.handled = 0;
        Ok(())
    }

    /// An order goes down as its request, and is told.
    pub fn order(&mut self, order: Order, acts: &mut Acts) -> Result<(), NoMemory>
        requires sent { IsSent self.old.config.address order }
        requires few { self.old.orders < 2 ^ 63 }
        ensures node { OnOk result (self.new ≡ ordered order self.old) }
        ensures acts { OnOk result (acts.new
            ≡ acts.old ++ told_as.Order self.old.name self.old.pipe.openings (self.old.orders + 1) order ∷ []) }
    {
        let config = self.gateway.config();
        let octets = write_order(self.alloc, &config.address, &order)?;
        self.pipe.push(Lane::Down, octets.as_slice())?;
        self.orders += 1;
        acts.push(Act::Order(self.name.copy()?, self.pipe.openings(), self.orders, order))
    }

    /// The controller hears the next answer, to this order.
    pub fn hear_answer(&mut self, order: &Order) -> Result<Option<Answer>, NoMemory>
        requires { self.old.answered < 2 ^ 63 }
        ensures none { next_message lanes.Up self.old.pipe ≡ None → IfOk result (λ x. (x ≡ None) × (self.new ≡ self.old)) }
        ensures some { (r : Replied) (a : Said) → next_message lanes.Up self.old.pipe ≡ Some (response_text (reply_message r))
            → IsWritableResponse (reply_message r) → answer_of order.now (reply_message r) ≡ Ok a
            → IfOk result (λ x. (x ≡ Some a) × (self.new ≡ heard_answer self.old)) }
    {
        match self.pipe.take(Lane::Up)? {
            None => Ok(None),
            Some(octets) => {
                let answer = read_reply(self.alloc, order, octets.as_slice())?;
                self.answered += 1;
                Ok(answer)
            }
        }
    }

    /// The controller hears the next notice.
    pub fn hear_notice(&mut self) -> Result<Option<Notice>, NoMemory>
        ensures none { next_message lanes.Note self.old.pipe ≡ None → IfOk result (λ x. (x ≡ None) × (self.new ≡ self.old)) }
        ensures some { (n : Noted) (line : List ℕ) → next_message lanes.Note self.old.pipe ≡ Some line → IsHeard n line
            → IfOk result (λ x. (x ≡ Some n) × (self.new ≡ heard_notice self.old)) }
    {
        match self.pipe.take(Lane::Note)? {
            None => Ok(None),
            Some(octets) => {
                let notice = read_line(self.alloc, octets.as_slice())?;
                Ok(notice)
            }
        }
    }

    /// The first octets under way on a lane.
    pub fn shown(&self, lane: Lane) -> Result<Octets, NoMemory>
        ensures { IfOk result (λ octets. octets ≡ first_octets lane self.now.pipe) }
    {
        self.pipe.peek(lane, SHOWN)
    }
}
