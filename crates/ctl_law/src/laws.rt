// Laws for the crates above: each is the contract of a function with an empty body.
ghost use Rattle.std.specs.Prelude.{◌≡◌, ℕ, ◌<◌, ◌≤◌, ◌&&◌, nat_le, true, List, [], ◌∷◌, length, drop};
ghost use Rattle.std.specs.List.{list_all};
ghost use Rattle.std.specs.Option.{option_map};
ghost use Rattle.ikeless_tree.specs.declared.command.Peer.{Peer};
ghost use Rattle.ikeless_tree.specs.declared.command.Refusal.{Refusal};
ghost use Rattle.hist_acts.specs.Past.{after};
ghost use Rattle.hist_controller.specs.Acts.{ControllerAct};
ghost use Rattle.hist_controller.specs.Clauses.{IsControllerPast};
ghost use Rattle.hist_controller.specs.Halves.{PlainAnswers};
ghost use Rattle.hist_controller.specs.Law.{block, history, event_refusal, one_or_none};
ghost use Rattle.hist_controller.specs.Past.{oldest, queue, spare};
ghost use Rattle.hist_controller.specs.Told.{order_told};
ghost use Rattle.ctl_core.specs.Core.{Core, expected, told_nothing};
ghost use Rattle.ctl_core.specs.Step.{stepped};
ghost use Rattle.ctl_core.specs.declared.acts.CtlAct.TheVariants as done;
ghost use Rattle.ctl_core.specs.declared.acts.CtlEvent.{CtlEvent};
ghost use Rattle.ctl_law.specs.Stands.{StandsFor};
ghost use Rattle.ctl_law.specs.Told.{event_of, events_of, all_done, refusals_of, spis_of, MayBeTold, MayAllBeTold, run, run_core};

/// A controller that was told nothing stands for the past in which nothing happened.
pub fn begins()
    ensures { (ps : List Peer) → StandsFor ps [] (told_nothing ps) }
{}

/// A step does what the law's one block of the event says, no more and no less, and leaves a core that stands for the past with
/// that block. The past with it is one of the law again.
pub fn steps_follow()
    ensures acts { (ps : List Peer) (h : List ControllerAct) (c : Core) (e : CtlEvent) → IsControllerPast (length ps) h → PlainAnswers h
        → StandsFor ps h c → MayBeTold c e
        → (stepped c e).acts ≡ all_done ps (block ps h (event_of e)) }
    ensures stands { (ps : List Peer) (h : List ControllerAct) (c : Core) (e : CtlEvent) → IsControllerPast (length ps) h → PlainAnswers h
        → StandsFor ps h c → MayBeTold c e
        → StandsFor ps (after h (block ps h (event_of e))) (stepped c e).core }
    ensures past { (ps : List Peer) (h : List ControllerAct) (e : CtlEvent) → IsControllerPast (length ps) h
        → IsControllerPast (length ps) (after h (block ps h (event_of e))) }
    ensures plain { (ps : List Peer) (h : List ControllerAct) (c : Core) (e : CtlEvent) → PlainAnswers h → StandsFor ps h c → MayBeTold c e
        → PlainAnswers (after h (block ps h (event_of e))) }
{}

/// So a run does what the one history of its events says, whatever the answers and notices are.
pub fn runs_follow()
    ensures first { (ps : List Peer) (es : List CtlEvent) → MayAllBeTold (told_nothing ps) es
        → run (told_nothing ps) es ≡ all_done ps (history ps [] (events_of es)) }
    ensures acts { (ps : List Peer) (h : List ControllerAct) (c : Core) (es : List CtlEvent) → IsControllerPast (length ps) h
        → PlainAnswers h → StandsFor ps h c → MayAllBeTold c es
        → run c es ≡ all_done ps (history ps h (events_of es)) }
    ensures stands { (ps : List Peer) (h : List ControllerAct) (c : Core) (es : List CtlEvent) → IsControllerPast (length ps) h
        → PlainAnswers h → StandsFor ps h c → MayAllBeTold c es
        → StandsFor ps (after h (history ps h (events_of es))) (run_core c es) }
{}

/// The order whose answer is expected is the oldest that waits.
pub fn expects_oldest()
    ensures { (ps : List Peer) (h : List ControllerAct) (c : Core) (g : ℕ) → StandsFor ps h c → g < length ps
        → expected c g ≡ option_map (order_told ps) (oldest (queue g h)) }
{}

/// A command is refused exactly by the first reason that applies, once, and no other event is. A refused command changes nothing.
pub fn refuses_first()
    ensures first { (ps : List Peer) (h : List ControllerAct) (c : Core) (e : CtlEvent) → IsControllerPast (length ps) h → PlainAnswers h
        → StandsFor ps h c → MayBeTold c e
        → refusals_of (stepped c e).acts ≡ one_or_none (event_refusal ps h (event_of e)) }
    ensures still { (ps : List Peer) (h : List ControllerAct) (c : Core) (e : CtlEvent) (w : Refusal) → IsControllerPast (length ps) h
        → PlainAnswers h → StandsFor ps h c → MayBeTold c e
        → (stepped c e).acts ≡ done.Refused w ∷ [] → (stepped c e).core ≡ c }
{}

/// The last serial is below 2^20 + 1, so that the SPI of each half that is put is 257 to 1,048,832; the keys not used yet are those
/// accepted without as many as there are serials.
pub fn keeps_within_bounds()
    ensures serials { (ps : List Peer) (h : List ControllerAct) (c : Core) → IsControllerPast (length ps) h → StandsFor ps h c
        → (c.serials ≤ length c.keys) × (length c.keys ≤ 1048576) }
    ensures unused { (ps : List Peer) (h : List ControllerAct) (c : Core) → IsControllerPast (length ps) h → StandsFor ps h c
        → spare h ≡ drop c.serials c.keys }
    ensures spis { (ps : List Peer) (h : List ControllerAct) (c : Core) (e : CtlEvent) → IsControllerPast (length ps) h → PlainAnswers h
        → StandsFor ps h c → MayBeTold c e
        → list_all (λ n. nat_le 257 n && nat_le n 1048832) (spis_of (stepped c e).acts) ≡ true }
{}
