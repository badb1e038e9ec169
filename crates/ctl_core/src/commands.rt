// What a controller does when it is commanded.
ghost use Rattle.std.specs.Prelude.{◌≡◌, ◌++◌, ◌∷◌, ◌<◌, [], OnOk, OnErr, IfOk, length, None};
ghost use Rattle.ctl_tunnels.specs.Rings.{key_refusal};
ghost use Rattle.ctl_core.specs.Changes.{changed, unspent_tunnels, unspent_pairs};
ghost use Rattle.ctl_core.specs.Core as core;
ghost use Rattle.ctl_core.specs.Step as steps;

use crate::acts::CtlActs;
use crate::change::{Change, count_tunnels, has_tunnel, unspent};
use crate::controller::{Controller, refuse};
use crate::draft::Draft;
use crate::peer::{is_open_at, number_of, set_list};
use ctl_tunnels::{Pair, Tunnel};
use ikeless_tree::{Command, Entries, Order, Refusal, TunnelSpec};
use ikl_base::{Duplicate, Name, NoMemory, Octets};

const MOST_TUNNELS: usize = 1024;

impl Controller {
    pub(crate) fn on_command(
        &mut self,
        command: Command,
        acts: &mut CtlActs,
    ) -> Result<(), NoMemory>
        ensures acts { OnOk result (acts.new ≡ acts.old ++ (steps.commanded self.old command).acts) }
        ensures state { OnOk result (self.new ≡ (steps.commanded self.old command).core) }
        ensures err { OnErr result ((self.new ≡ self.old) × (acts.new ≡ acts.old)) }
    {
        match command {
            Command::Policy { gateway, list } => self.on_policy(gateway, list, acts),
            Command::Tunnel(spec) => self.on_tunnel(spec, acts),
            Command::End(reqid) => self.on_end(reqid, acts),
            Command::Rekey(reqid) => self.on_rekey(reqid, acts),
            Command::Keys(key) => self.on_keys(key, acts),
        }
    }

    fn on_policy(&mut self, name: Name, list: Entries, acts: &mut CtlActs) -> Result<(), NoMemory>
        ensures acts { OnOk result (acts.new ≡ acts.old ++ (steps.policy_at self.old (core.number_of name self.old.stations) list).acts) }
        ensures state { OnOk result (self.new ≡ (steps.policy_at self.old (core.number_of name self.old.stations) list).core) }
        ensures err { OnErr result ((self.new ≡ self.old) × (acts.new ≡ acts.old)) }
    {
        let gateway = number_of(&self.stations, name.as_slice());
        if gateway < self.stations.len() {
            self.take_list(gateway, list, acts)
        } else {
            refuse(Refusal::UnknownGateway, acts)
        }
    }

    // Drafts the order of a new list, where the gateway's session is open.
    fn draft_list(&self, gateway: usize, list: &Entries) -> Result<Draft, NoMemory>
        ensures { IfOk result (λ d. d ≡ steps.policy_drafted self.now gateway list.now) }
    {
        let mut draft = self.draft()?;
        if is_open_at(&self.stations, gateway) {
            let copy = list.copy()?;
            draft.give(gateway, Order::Policy(copy), None)?;
        }
        Ok(draft)
    }

    fn take_list(
        &mut self,
        gateway: usize,
        list: Entries,
        acts: &mut CtlActs,
    ) -> Result<(), NoMemory>
        ensures acts { OnOk result (acts.new ≡ acts.old ++ (steps.policy_taken self.old gateway list).acts) }
        ensures state { OnOk result (self.new ≡ (steps.policy_taken self.old gateway list).core) }
        ensures err { OnErr result ((self.new ≡ self.old) × (acts.new ≡ acts.old)) }
    {
        let draft = self.draft_list(gateway, &list)?;
        let ready = self.readiness()?;
        self.run(&Change::Nothing, &ready, draft, acts)?;
        set_list(&mut self.stations, gateway, list);
        Ok(())
    }

    // Why a tunnel is refused, by the first reason that applies.
    fn tunnel_refusal(&self, reqid: u64, first: usize, second: usize) -> Option<Refusal>
        ensures { result ≡ steps.tunnel_refusal self.now reqid first second }
    {
        if !(first < self.stations.len() && second < self.stations.len()) {
            Some(Refusal::UnknownGateway)
        } else if first == second {
            Some(Refusal::SameGateway)
        } else if has_tunnel(&self.tunnels, &self.pairs, reqid) {
            Some(Refusal::TunnelExists)
        } else if MOST_TUNNELS <= count_tunnels(&self.pairs) {
            Some(Refusal::TunnelLimit)
        } else {
            None
        }
    }

    fn on_tunnel(&mut self, spec: TunnelSpec, acts: &mut CtlActs) -> Result<(), NoMemory>
        ensures acts { OnOk result (acts.new ≡ acts.old ++ (steps.tunneled self.old spec).acts) }
        ensures state { OnOk result (self.new ≡ (steps.tunneled self.old spec).core) }
        ensures err { OnErr result ((self.new ≡ self.old) × (acts.new ≡ acts.old)) }
    {
        let first = number_of(&self.stations, spec.first.as_slice());
        let second = number_of(&self.stations, spec.second.as_slice());
        match self.tunnel_refusal(spec.reqid, first, second) {
            Some(why) => refuse(why, acts),
            None => self.take_tunnel(Tunnel::of(&spec, first, second), spec.now, acts),
        }
    }

    // Takes a new tunnel, and forgets those that are ended and have no association left.
    fn take_tunnel(&mut self, tunnel: Tunnel, now: bool, acts: &mut CtlActs) -> Result<(), NoMemory>
        ensures acts { OnOk result (acts.new ≡ acts.old ++ (steps.tunnel_taken self.old tunnel now).acts) }
        ensures state { OnOk result (self.new ≡ (steps.tunnel_taken self.old tunnel now).core) }
        ensures err { OnErr result ((self.new ≡ self.old) × (acts.new ≡ acts.old)) }
    {
        let mut tunnels = Vec::new(self.alloc);
        let mut pairs = Vec::new(self.alloc);
        unspent(&self.tunnels, &self.pairs, &mut tunnels, &mut pairs)?;
        tunnels.push(tunnel)?;
        pairs.push(Pair::begun(now))?;
        let mut draft = self.draft()?;
        let ready = self.readiness()?;
        let after = self.pass(&tunnels, &pairs, &Change::Nothing, &ready, &mut draft)?;
        self.commit(draft, after, acts)?;
        self.tunnels = tunnels;
        Ok(())
    }

    fn on_end(&mut self, reqid: u64, acts: &mut CtlActs) -> Result<(), NoMemory>
        ensures acts { OnOk result (acts.new ≡ acts.old ++ (steps.known self.old reqid (steps.end_effect reqid)).acts) }
        ensures state { OnOk result (self.new ≡ (steps.known self.old reqid (steps.end_effect reqid)).core) }
        ensures err { OnErr result ((self.new ≡ self.old) × (acts.new ≡ acts.old)) }
    {
        self.on_known(reqid, Change::Ended(reqid), acts)
    }

    fn on_rekey(&mut self, reqid: u64, acts: &mut CtlActs) -> Result<(), NoMemory>
        ensures acts { OnOk result (acts.new ≡ acts.old ++ (steps.known self.old reqid (steps.rekey_effect reqid)).acts) }
        ensures state { OnOk result (self.new ≡ (steps.known self.old reqid (steps.rekey_effect reqid)).core) }
        ensures err { OnErr result ((self.new ≡ self.old) × (acts.new ≡ acts.old)) }
    {
        self.on_known(reqid, Change::Rekeyed(reqid), acts)
    }

    // A command for a tunnel that has to be there.
    fn on_known(&mut self, reqid: u64, change: Change, acts: &mut CtlActs) -> Result<(), NoMemory>
        ensures acts { OnOk result (acts.new ≡ acts.old ++ (steps.known self.old reqid (changed change)).acts) }
        ensures state { OnOk result (self.new ≡ (steps.known self.old reqid (changed change)).core) }
        ensures err { OnErr result ((self.new ≡ self.old) × (acts.new ≡ acts.old)) }
    {
        if has_tunnel(&self.tunnels, &self.pairs, reqid) {
            let draft = self.draft()?;
            let ready = self.readiness()?;
            self.run(&change, &ready, draft, acts)
        } else {
            refuse(Refusal::NoTunnel, acts)
        }
    }

    fn on_keys(&mut self, key: Octets, acts: &mut CtlActs) -> Result<(), NoMemory>
        ensures acts { OnOk result (acts.new ≡ acts.old ++ (steps.keys_by self.old key (key_refusal key self.old.keys)).acts) }
        ensures state { OnOk result (self.new ≡ (steps.keys_by self.old key (key_refusal key self.old.keys)).core) }
        ensures err { OnErr result ((self.new ≡ self.old) × (acts.new ≡ acts.old)) }
    {
        match self.keys.refusal(key.as_slice()) {
            Some(why) => refuse(why, acts),
            None => {
                self.keys.accept(self.alloc, key.as_slice())?;
                let outcome = self.give_waiting(acts);
                if outcome.is_err() {
                    self.keys.withdraw();
                }
                outcome
            }
        }
    }

    // Gives what waited for a key.
    fn give_waiting(&mut self, acts: &mut CtlActs) -> Result<(), NoMemory>
        ensures acts { OnOk result (acts.new ≡ acts.old ++ (steps.waited self.old).acts) }
        ensures state { OnOk result (self.new ≡ (steps.waited self.old).core) }
        ensures err { OnErr result ((self.new ≡ self.old) × (acts.new ≡ acts.old)) }
    {
        let draft = self.draft()?;
        let ready = self.readiness()?;
        self.run(&Change::Nothing, &ready, draft, acts)
    }
}
