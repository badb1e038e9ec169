// Laws for the crates above: each is the contract of a function with an empty body, or one that only calls such functions.
ghost use Rattle.std.specs.Prelude.{◌≡◌, ℕ, ◌==◌, true, false, List, [], ◌∷◌, ◌++◌, Some, Ok, Result, ◌&&◌, length, map, max, nat_le, nat_lt, slice_get, take};
ghost use Rattle.std.specs.List.{list_all, list_any, sum};
ghost use Rattle.std.specs.Str.{bytes_eq};
ghost use Rattle.ikl_base.specs.Address.{AreOneFamily};
ghost use Rattle.ip_packet.specs.Field.{next_header};
ghost use Rattle.hist_acts.specs.declared.act.Act.{Act};
ghost use Rattle.hist_acts.specs.Past.{after, clock};
ghost use Rattle.hist_halves.specs.Halves.{is_half, live, is_live, numbers_taken, sent};
ghost use Rattle.hist_gateway.specs.Stands.{is_acquire_of, is_overflow_of, does_acquire_stand, was_soft_given, does_soft_stand, was_overflow_given, does_overflow_stand, does_bad_spi_stand};
ghost use Rattle.hist_gateway.specs.Uses.{counts, installed_at, is_use, last_used, octets_used, times_used, was_number_sent, was_taken};
ghost use Rattle.replay_win.specs.Marks.{is_among};
ghost use Rattle.hist_gateway.specs.Block.{Gateway, GatewayEvent, Let, Arrive, Clock, Handle, gw_block, gw_history, Session_taken};
ghost use Rattle.hist_gateway.specs.Answers.{is_let_answer, is_arrival_answer, is_answer, has_one_answer, is_clock_reading};
ghost use Rattle.hist_gateway.specs.Handle.{Fault, requests};
ghost use Rattle.hist_acts.specs.Sessions.{handled};
ghost use Rattle.hist_acts.specs.Sessions as sessions;
ghost use Rattle.reply_table.specs.declared.ask.Ask.{Ask};
ghost use Rattle.reply_table.specs.Reply.{reply};
ghost use Rattle.hist_gateway.specs.Rows.{tree_of};
ghost use Rattle.hist_gateway.specs.State.{GatewayState, half_of, state_of, did, did_all, acquires, quiet, with_halves, note, sent_under, given_under, opened_under};
ghost use Rattle.hist_gateway.specs.Places.{names_reached, softly_told, without_all};
ghost use Rattle.hist_gateway.specs.Uses.{octets_in};
ghost use Rattle.sad_store.specs.declared.half.Half.{Half};
ghost use Rattle.sad_store.specs.Halves.{changed, entries_of, look_at, names_of, send, take_number, with_overflow};
ghost use Rattle.sad_store.specs.Kept.{are_names_apart};
ghost use Rattle.esp_frame.specs.Esp.{spi_of};
ghost use Rattle.life_count.specs.Lifetime.{counts_of};
ghost use Rattle.ikeless_tree.specs.declared.sad.Limits.{Limits};
ghost use Rattle.ikeless_tree.specs.declared.entry.Selector.{Selector};
ghost use Rattle.ikeless_tree.specs.declared.order.Notice.TheVariants as notices;
ghost use Rattle.hist_gateway.specs.Machine.{acts_of, empty, look_of, next, run};
ghost use Rattle.hist_gateway.specs.May.{has_half, IsNewHalf, GatewayMayActAll, IsGatewayPast, AreInstalled, AreNumbered, AreHalves, is_boot, IsHalfFor, IsHalfOf, IsDelivery};
ghost use Rattle.hist_gateway.specs.Let.{newest};
ghost use Rattle.hist_gateway.specs.Expiries.{is_hard_end, is_hard_expiry, is_soft_expiry, reaches_hard, reaches_soft};
ghost use Rattle.hist_gateway.specs.Notices.{is_notice, is_bad_spi_of, LacksHalf, LacksNumber, LacksSpi, is_let, is_arrive, is_hard_reached_in, is_soft_reached_in};
ghost use Rattle.hist_gateway.specs.Since.{is_put_at, uses_among, WasSpiTold};
ghost use Rattle.hist_gateway.specs.Statuses.{MayCome, has_answer_status};
ghost use Rattle.hist_gateway.specs.Look.{look};
ghost use Rattle.hist_gateway.specs.Arrive.{use_acts};
ghost use Rattle.hist_gateway.specs.Datagram.{datagram};
ghost use Rattle.hist_halves.specs.Sealed.{by_spi, esp_of, number_from, number_of};
ghost use Rattle.hist_acts.specs.declared.act.Act.TheVariants as acts;
ghost use Rattle.ikeless_tree.specs.declared.sad.SadEntry.{SadEntry};
ghost use Rattle.ip_packet.specs.View.{Packet};
ghost use Rattle.esp_frame.specs.Esp.{esp, keying};
ghost use Rattle.hist_gateway.specs.Safe.{IsGatewaySafe};

use ip_packet::sealed_view;
use replay_win::verdicts;
use reply_table::changes_fit;

/// What a gateway keeps of a past, one act later, is what the act makes of what it kept.
///
/// It holds of every act of any gateway; only a half that is installed must have a name that no live half has.
pub fn keeps()
    ensures { (g : List ℕ) (h : List Act) (a : Act) → IsNewHalf g h a → state_of g (a ∷ h) ≡ did g (state_of g h) a }
{}

/// The lists are what their words say: a half is among the live ones where its installation stands and neither its end nor a
/// restart follows, a policy is among those of the acquires where one of it stands, and a number is among those taken where what
/// arrived with it was given, or dropped after it had opened. The numbers sent under a half since its installation are those from
/// one to the count of what was sent. A notice that was given of a live half stands.
pub fn readings()
    ensures live { (g x : List ℕ) (h : List Act) → has_half x (live g h) ≡ is_live g x h }
    ensures acquires { (g name : List ℕ) (h : List Act) → list_any (λ p. bytes_eq p name) (acquires g h) ≡ does_acquire_stand g name h }
    ensures taken { (g x : List ℕ) (s : ℕ) (h : List Act) → is_among s (numbers_taken g x h) ≡ was_taken g x s h }
    ensures sent { (c : Gateway) (h : List Act) → IsGatewayPast c h → (g x : List ℕ) (s : ℕ)
        → was_number_sent g x s h ≡ (nat_le 1 s && nat_le s (sent g x h)) }
    ensures soft { (g x : List ℕ) (h : List Act) → is_live g x h ≡ true → does_soft_stand g x h ≡ was_soft_given g x h }
    ensures overflow { (g x : List ℕ) (h : List Act) → is_live g x h ≡ true → does_overflow_stand g x h ≡ was_overflow_given g x h }
{}

/// A step from what is kept of a past gives the one block that the past allows, and leaves what is kept of the past with it.
pub fn steps()
    ensures acts { (c : Gateway) (h : List Act) (e : GatewayEvent) → acts_of c (state_of c.name h) e ≡ gw_block c h e }
    ensures keeps { (c : Gateway) (h : List Act) (e : GatewayEvent) → state_of c.name (after h (gw_block c h e)) ≡ next c
        (state_of c.name h) e }
    ensures run { (c : Gateway) (h : List Act) (es : List GatewayEvent) → run c (state_of c.name h) es ≡ gw_history c h es }
{
    verdicts();
    changes_fit();
}

/// One more event adds its block at the end, and a gateway begins with nothing.
pub fn goes_on()
    ensures block { (c : Gateway) (h : List Act) (events : List GatewayEvent) (e : GatewayEvent) →
        gw_history c h (events ++ e ∷ []) ≡ gw_history c h events ++ gw_block c (after h (gw_history c h events)) e }
    ensures past { (h xs ys : List Act) → after h (xs ++ ys) ≡ after (after h xs) ys }
    ensures begins { (g : List ℕ) → state_of g [] ≡ empty }
{}

/// Each act of a block says of the past before it what such an act may say, so each history of one gateway is lawful act by act.
pub fn blocks_follow()
    ensures acts { (c : Gateway) (h : List Act) (e : GatewayEvent) → GatewayMayActAll c h (gw_block c h e) }
    ensures block { (c : Gateway) (h : List Act) (e : GatewayEvent) → IsGatewayPast c h → IsGatewayPast c (after h (gw_block c h e)) }
    ensures history { (c : Gateway) (events : List GatewayEvent) → IsGatewayPast c (after [] (gw_history c [] events)) }
{
    changes_fit();
}

/// Whatever comes to a gateway, it lets out and in in clear only what a bypass entry in force lets, sends no number twice under one
/// installation, and gives none that it took before. So does every past that is lawful act by act.
pub fn is_every_history_safe()
    ensures history { (c : Gateway) (events : List GatewayEvent) → IsGatewaySafe (after [] (gw_history c [] events)) }
    ensures lawful { (c : Gateway) (h : List Act) → IsGatewayPast c h → IsGatewaySafe h }
{
    changes_fit();
}

/// The live halves of a gateway where each half that was installed might be: each is what was installed last under its name, no two
/// have one name, no two inbound ones one SPI, and there are at most 4,096. So are the half that seals a packet and the one that an
/// SPI names. Each block, and so each lawful past, installs only such halves, at any gateway.
pub fn halves()
    ensures kept { (g : List ℕ) (h : List Act) → AreInstalled g h → AreHalves g h }
    ensures outbound { (g : List ℕ) (h : List Act) (reqid : ℕ) (v : Packet) (e : SadEntry) → AreInstalled g h →
        newest reqid v (live g h) ≡ Some e → IsHalfFor g h reqid v e }
    ensures inbound { (g : List ℕ) (h : List Act) (spi : ℕ) (e : SadEntry) → AreInstalled g h → by_spi spi (live g h) ≡ Some e
        → IsHalfOf g h spi e }
    ensures blocks { (c : Gateway) (g : List ℕ) (h : List Act) (e : GatewayEvent) → AreInstalled g h
        → AreInstalled g (after h (gw_block c h e)) }
    ensures lawful { (c : Gateway) (g : List ℕ) (h : List Act) → IsGatewayPast c h → AreInstalled g h }
{
    changes_fit();
}

/// The ESP octets of a datagram that is sent are those of its packet, under the half's keying with its number.
pub fn sealed()
    ensures { (e : SadEntry) (n : ℕ) (v : Packet) (o : List ℕ) → AreOneFamily e.local e.remote →
        esp_of (datagram e n v o) ≡ esp (keying e.spi e.key) n (next_header o) o }
{
    sealed_view();
}

/// A datagram that must be given is given: it is ESP for the gateway's own address with the SPI of a live inbound half, its number is
/// fresh, it opens to a packet of the version told, and the half's selector holds that packet.
pub fn delivers()
    ensures { (c : Gateway) (h : List Act) (o : List ℕ) (outer inner : Packet) (e : SadEntry) (text p : List ℕ) (next : ℕ) →
        IsDelivery c h o outer inner e text next p →
        gw_block c h (Arrive o) ≡ acts.Arrived c.name o ∷ use_acts c.name (acts.Arrived c.name o ∷ h) e (acts.Gave c.name e.name (number_of e (numbers_taken c.name e.name h) outer.payload) p) }
{}

/// What another gateway keeps stays, but for a datagram that had no answer yet, which none has between events. Only a reading of the
/// clock is one for all.
pub fn stays_elsewhere()
    ensures { (c : Gateway) (g : List ℕ) (h : List Act) (e : GatewayEvent) → bytes_eq c.name g ≡ false → is_clock_reading e ≡ false →
        quiet (state_of g (after h (gw_block c h e))) ≡ quiet (state_of g h) }
{}

/// The databases after a request are those that the reply table gives: the list in force, and the live halves with their counts.
pub fn requests_change()
    ensures { (c : Gateway) (h : List Act) (ask : Ask) →
        tree_of c.name (after h (gw_block c h (Handle (Ok ask)))) ≡ (reply (tree_of c.name h) ask).tree }
{
    changes_fit();
}

/// The requests that a gateway counts are those handled in the session that it has taken, where sessions are numbered as they are
/// opened and requests are handled in the session taken.
pub fn counts_requests()
    ensures handled { (g : List ℕ) (h : List Act) → AreNumbered g h → requests g h ≡ handled g (sessions.session_taken g h) h }
    ensures lawful { (c : Gateway) (g : List ℕ) (h : List Act) → IsGatewayPast c h → list_any is_boot h ≡ false → AreNumbered g h }
{}

/// A packet from inside has exactly one answer: it leaves in clear or sealed, or it is dropped. A datagram from outside has exactly
/// one: it is given opened or passes in clear, or it is dropped. No other event has one.
pub fn answers()
    ensures packet { (c : Gateway) (h : List Act) (o : List ℕ) → has_one_answer is_let_answer (gw_block c h (Let o)) ≡ true }
    ensures datagram { (c : Gateway) (h : List Act) (o : List ℕ) → has_one_answer is_arrival_answer (gw_block c h (Arrive o)) ≡ true }
    ensures clock { (c : Gateway) (h : List Act) (t : ℕ) → list_any is_answer (gw_block c h (Clock t)) ≡ false }
    ensures request { (c : Gateway) (h : List Act) (request : Result Ask Fault) → list_any is_answer (gw_block c h (Handle request)) ≡
        false }
    ensures session { (c : Gateway) (h : List Act) → list_any is_answer (gw_block c h Session_taken) ≡ false }
{}

/// A half is gone at a hard limit, and an expiry is told, exactly where the counts of a half that is looked at have reached a
/// limit: at each look, which follows each use of a half, and at each reading that raises the clock, over all live halves.
///
/// So it is in every block: the half is gone, or the expiry told, exactly where a use of the half, or a reading that raises the clock
/// while it is live, is among the block's acts and leaves it at the limit.
pub fn expires_where_reached()
    ensures ends { (g x : List ℕ) (h : List Act) (es : List SadEntry) → list_any (is_hard_end x) (look g h es) ≡ list_any
        (reaches_hard g h x) es }
    ensures hard { (g x : List ℕ) (h : List Act) (es : List SadEntry) → list_any (is_hard_expiry x) (look g h es) ≡ list_any
        (reaches_hard g h x) es }
    ensures soft { (g x : List ℕ) (h : List Act) (es : List SadEntry) → list_any (is_soft_expiry x) (look g h es) ≡ list_any
        (reaches_soft g h x) es }
    ensures clock_ends { (c : Gateway) (h : List Act) (t : ℕ) (x : List ℕ) → list_any (is_hard_end x) (gw_block c h (Clock t)) ≡
        (nat_lt (clock h) t && list_any (reaches_hard c.name (acts.Now (max t (clock h)) ∷ h) x) (live c.name h)) }
    ensures clock_hard { (c : Gateway) (h : List Act) (t : ℕ) (x : List ℕ) → list_any (is_hard_expiry x) (gw_block c h (Clock t)) ≡
        (nat_lt (clock h) t && list_any (reaches_hard c.name (acts.Now (max t (clock h)) ∷ h) x) (live c.name h)) }
    ensures clock_soft { (c : Gateway) (h : List Act) (t : ℕ) (x : List ℕ) → list_any (is_soft_expiry x) (gw_block c h (Clock t)) ≡
        (nat_lt (clock h) t && list_any (reaches_soft c.name (acts.Now (max t (clock h)) ∷ h) x) (live c.name h)) }
    ensures block_ends { (c : Gateway) (h : List Act) (e : GatewayEvent) (x : List ℕ) → AreInstalled c.name h
        → list_any (is_hard_end x) (gw_block c h e) ≡ is_hard_reached_in c.name x h (gw_block c h e) }
    ensures block_hard { (c : Gateway) (h : List Act) (e : GatewayEvent) (x : List ℕ) → AreInstalled c.name h
        → list_any (is_hard_expiry x) (gw_block c h e) ≡ is_hard_reached_in c.name x h (gw_block c h e) }
    ensures block_soft { (c : Gateway) (h : List Act) (e : GatewayEvent) (x : List ℕ) → AreInstalled c.name h
        → list_any (is_soft_expiry x) (gw_block c h e) ≡ is_soft_reached_in c.name x h (gw_block c h e) }
{}

/// The notices that may stand are given exactly where they are asked for and none stands: an acquire where a packet that a protect
/// entry in force holds finds no live outbound half, an overflow where the newest one for it has sent its last number, and a bad
/// SPI where no live inbound half has that of a datagram. No other event gives one.
pub fn tells_where_none_stands()
    ensures acquire { (c : Gateway) (h : List Act) (o name : List ℕ) → list_any (is_notice (is_acquire_of name)) (gw_block c h (Let o)) ≡
        true →
        LacksHalf c.name h o name × (does_acquire_stand c.name name h ≡ false) }
    ensures no_half { (c : Gateway) (h : List Act) (o name : List ℕ) → LacksHalf c.name h o name → does_acquire_stand c.name name h ≡ false
        →
        list_any (is_notice (is_acquire_of name)) (gw_block c h (Let o)) ≡ true }
    ensures overflow { (c : Gateway) (h : List Act) (o x : List ℕ) → list_any (is_notice (is_overflow_of x)) (gw_block c h (Let o)) ≡ true →
        LacksNumber c h o x × (does_overflow_stand c.name x h ≡ false) }
    ensures no_number { (c : Gateway) (h : List Act) (o x : List ℕ) → LacksNumber c h o x → does_overflow_stand c.name x h ≡ false →
        list_any (is_notice (is_overflow_of x)) (gw_block c h (Let o)) ≡ true }
    ensures bad_spi { (c : Gateway) (h : List Act) (o : List ℕ) (spi : ℕ)
        → list_any (is_notice (is_bad_spi_of spi)) (gw_block c h (Arrive o)) ≡ true →
        LacksSpi c h o spi × (does_bad_spi_stand c.name spi h ≡ false) }
    ensures no_spi { (c : Gateway) (h : List Act) (o : List ℕ) (spi : ℕ) → LacksSpi c h o spi → does_bad_spi_stand c.name spi h ≡ false →
        list_any (is_notice (is_bad_spi_of spi)) (gw_block c h (Arrive o)) ≡ true }
    ensures else_acquire { (c : Gateway) (h : List Act) (e : GatewayEvent) (name : List ℕ) → is_let e ≡ false
        → list_any (is_notice (is_acquire_of name)) (gw_block c h e) ≡ false }
    ensures else_overflow { (c : Gateway) (h : List Act) (e : GatewayEvent) (x : List ℕ) → is_let e ≡ false
        → list_any (is_notice (is_overflow_of x)) (gw_block c h e) ≡ false }
    ensures else_bad_spi { (c : Gateway) (h : List Act) (e : GatewayEvent) (spi : ℕ) → is_arrive e ≡ false
        → list_any (is_notice (is_bad_spi_of spi)) (gw_block c h e) ≡ false }
{}

/// An SPI stands exactly where it was told at the gateway, fewer than 64 were told there after it, and since then no session was
/// taken there and it has not restarted. What is kept has those that stand.
pub fn keeps_told_spis()
    ensures stands { (g : List ℕ) (spi : ℕ) (h : List Act) → does_bad_spi_stand g spi h ≡ true → WasSpiTold g spi 64 h }
    ensures told { (g : List ℕ) (spi : ℕ) (h : List Act) → WasSpiTold g spi 64 h → does_bad_spi_stand g spi h ≡ true }
    ensures kept { (g : List ℕ) (spi : ℕ) (h : List Act) → list_any (λ k. k == spi) (state_of g h).bad_spis ≡ does_bad_spi_stand g spi h }
{}

/// What is counted of a half is counted since its last installation: its age from the clock then, the octets of its uses and how
/// many they were, and its idle time from the clock at its last use, or at its installation where it was not used. What is kept of
/// a half has these counts.
pub fn counts_uses()
    ensures installed { (g x f : List ℕ) (e : SadEntry) (recent old : List Act) → is_half f e.name g x ≡ true
        → list_any (is_put_at g x) recent ≡ false →
        installed_at g x (recent ++ acts.Put f e ∷ old) ≡ clock old }
    ensures octets { (g x f : List ℕ) (e : SadEntry) (recent old : List Act) → is_half f e.name g x ≡ true
        → list_any (is_put_at g x) recent ≡ false →
        octets_used g x (recent ++ acts.Put f e ∷ old) ≡ sum (uses_among g x recent (acts.Put f e ∷ old)) }
    ensures packets { (g x f : List ℕ) (e : SadEntry) (recent old : List Act) → is_half f e.name g x ≡ true
        → list_any (is_put_at g x) recent ≡ false →
        times_used g x (recent ++ acts.Put f e ∷ old) ≡ length (uses_among g x recent (acts.Put f e ∷ old)) }
    ensures unused { (g x f : List ℕ) (e : SadEntry) (recent old : List Act) → is_half f e.name g x ≡ true
        → list_any (is_put_at g x) recent ≡ false →
        uses_among g x recent (acts.Put f e ∷ old) ≡ [] → last_used g x (recent ++ acts.Put f e ∷ old) ≡ clock old }
    ensures used { (g x : List ℕ) (a : Act) (recent old : List Act) → is_use g x a old ≡ true → list_any (is_put_at g x) recent ≡ false →
        uses_among g x recent (a ∷ old) ≡ [] → last_used g x (recent ++ a ∷ old) ≡ clock old }
    ensures kept { (g : List ℕ) (h : List Act) (e : SadEntry) → counts_of (clock h) (half_of g h e).life ≡ counts g e.name h }
{}

/// A request is answered with 200, 201 or 204 and no tag, or with a refusal's status and its tag, where one that can't be read has
/// such a fault. No other status comes.
pub fn answers_with_statuses()
    ensures { (c : Gateway) (h : List Act) (request : Result Ask Fault) → MayCome (Handle request)
        → list_all has_answer_status (gw_block c h (Handle request)) ≡ true }
{}

/// What acts make of the halves, by the place of the half: no two have one name, and the half that an act names stands at that place.
///
/// A notice of a hard limit, of a flow without a half, or of an SPI leaves every half as it is.
pub fn places()
    ensures sent { (now size i : ℕ) (x : Half) (xs : List Half) → are_names_apart (names_of xs) ≡ true → slice_get xs i ≡ Some x →
        map (sent_under x.entry.name now size) xs ≡ changed (send now size) i xs }
    ensures given { (now size n i : ℕ) (x : Half) (xs : List Half) → are_names_apart (names_of xs) ≡ true → slice_get xs i ≡ Some x →
        map (given_under x.entry.name now size n) xs ≡ changed (take_number now size n) i xs }
    ensures opened { (o : List ℕ) (now i : ℕ) (x : Half) (xs : List Half) → are_names_apart (names_of xs) ≡ true → slice_get xs i ≡ Some x →
        by_spi (spi_of (esp_of o)) (entries_of xs) ≡ Some x.entry →
        map (opened_under (entries_of xs) (Some o) now) xs ≡ changed (take_number now (octets_in (Some o)) (number_from x.entry x.window.top (esp_of o))) i xs }
    ensures overflow { (i : ℕ) (x : Half) (xs : List Half) → are_names_apart (names_of xs) ≡ true → slice_get xs i ≡ Some x →
        map (note (notices.SeqOverflow x.entry.name)) xs ≡ changed (with_overflow true) i xs }
    ensures soft { (counts : Limits) (i : ℕ) (x : Half) (xs : List Half) → are_names_apart (names_of xs) ≡ true → slice_get xs i ≡ Some x →
        map (note (notices.Expire x.entry.name true counts)) xs ≡ changed softly_told i xs }
    ensures hard { (name : List ℕ) (counts : Limits) (xs : List Half) → map (note (notices.Expire name false counts)) xs ≡ xs }
    ensures acquire { (name : List ℕ) (flow : Selector) (xs : List Half) → map (note (notices.Acquire name flow)) xs ≡ xs }
    ensures bad_spi { (spi : ℕ) (xs : List Half) → map (note (notices.BadSpi spi)) xs ≡ xs }
{}

/// Between events nothing that arrived waits: the acts of an event, and what is kept after it, are the same whatever datagram had no
/// answer before it.
pub fn between()
    ensures acts { (c : Gateway) (s : GatewayState) (e : GatewayEvent) → acts_of c (quiet s) e ≡ acts_of c s e }
    ensures keeps { (c : Gateway) (s : GatewayState) (e : GatewayEvent) → next c (quiet s) e ≡ next c s e }
{}

/// What a look makes of the halves: those that reached a hard limit are gone, and of the others what was told is kept. It is one look
/// at all halves, or one at the half of a place, and at most 64 SPIs are kept.
pub fn looks_at_places()
    ensures all { (g : List ℕ) (t : ℕ) (s : GatewayState) → are_names_apart (names_of s.halves) ≡ true → take 64 s.bad_spis ≡ s.bad_spis →
        did_all g (quiet s) (look_of g t s.clock s.halves) ≡ with_halves (without_all (names_reached s.clock s.halves) (map (look_at s.clock) s.halves)) s }
    ensures one { (g : List ℕ) (t i : ℕ) (x : Half) (s : GatewayState) → are_names_apart (names_of s.halves) ≡ true
        → take 64 s.bad_spis ≡ s.bad_spis →
        slice_get s.halves i ≡ Some x →
        did_all g (quiet s) (look_of g t s.clock (x ∷ [])) ≡ with_halves (without_all (names_reached s.clock (x ∷ [])) (changed (look_at s.clock) i s.halves)) s }
{}
