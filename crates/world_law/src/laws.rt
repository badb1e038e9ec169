// Laws for the crates above: each is the contract of a function that only calls such functions.
ghost use Rattle.std.specs.Prelude.{◌≡◌, ◌-◌, ◌<◌, ◌^◌, ℕ, true, false};
ghost use Rattle.hist_acts.specs.declared.event.Event.{Event};
ghost use Rattle.hist_acts.specs.declared.event.Header.{Header};
ghost use Rattle.hist_world.specs.Block.{Past, block, is_forged_event, nothing, past_after};
ghost use Rattle.hist_wire.specs.Wire.{under_way};
ghost use Rattle.acts_spell.specs.Spelled.{IsSpelledEvent, IsSpelledHeader};
ghost use Rattle.world_law.specs.Stands.{StandsFor, found};
ghost use Rattle.world_steps.specs.Conditions.{CanStep};
ghost use Rattle.world_steps.specs.Steps.{step};
ghost use Rattle.world_steps.specs.Worlds.{World, world_of};

use acts_spell::each_act_is_spelled;
use esp_frame::seal_law;
use hist_gateway::{sealed, steps};
use rc_resource::orders_are_read;
use text_bounds::{lines_are_short, orders_can_be_written, replies_can_be_written};

/// Before any event the world of a script stands for the past in which nothing happened.
pub fn begins()
    ensures { (header : Header) → IsSpelledHeader header → StandsFor header nothing (world_of header) }
{
    acts_spell::begins();
}

/// A step from a world that stands for what happened tells the one block of acts that may follow it, and whether the event is a
/// forged arrival. If it isn't, the world that is left stands for what happened with the block. So do the steps of an event that a
/// line can spell, while fewer than 2^32 - 1 were taken.
pub fn steps_follow()
    ensures acts { (header : Header) (p : Past) (e : Event) (w : World) → IsSpelledHeader header → IsSpelledEvent header.gateways e
        → StandsFor header p w
        → w.taken < 2 ^ 32 - 1 → (step (found p.world e) e w).acts ≡ block (under_way header) header p e }
    ensures genuine { (header : Header) (p : Past) (e : Event) (w : World) → IsSpelledHeader header → IsSpelledEvent header.gateways e
        → StandsFor header p w
        → w.taken < 2 ^ 32 - 1 → is_forged_event header p e ≡ false → (step (found p.world e) e w).is_forged ≡ false }
    ensures forged { (header : Header) (p : Past) (e : Event) (w : World) → IsSpelledHeader header → IsSpelledEvent header.gateways e
        → StandsFor header p w
        → w.taken < 2 ^ 32 - 1 → is_forged_event header p e ≡ true → (step (found p.world e) e w).is_forged ≡ true }
    ensures stands { (header : Header) (p : Past) (e : Event) (w : World) → IsSpelledHeader header → IsSpelledEvent header.gateways e
        → StandsFor header p w
        → w.taken < 2 ^ 32 - 1 → is_forged_event header p e ≡ false → StandsFor header (past_after (under_way header) header p e) (step (found p.world e) e w).world }
{
    steps();
    sealed();
    seal_law();
    each_act_is_spelled();
}

/// Such a step can be carried out: what its messages are can be read and written, and its numbers fit their types.
pub fn can_step()
    ensures { (header : Header) (p : Past) (e : Event) (w : World) → IsSpelledHeader header → IsSpelledEvent header.gateways e
        → StandsFor header p w
        → w.taken < 2 ^ 32 - 1 → CanStep (found p.world e) e w }
{
    steps();
    sealed();
    seal_law();
    each_act_is_spelled();
    orders_are_read();
    orders_can_be_written();
    replies_can_be_written();
    lines_are_short();
}
