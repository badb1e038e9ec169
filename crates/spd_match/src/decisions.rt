// Decisions that are kept, so that a flow that comes again costs the same under few entries and under many.
ghost use Rattle.std.specs.Prelude.{◌≡◌, ◌<◌, ◌≤◌, [], IfOk, IfSome, length, position, slice_get, option_and_then};
ghost use Rattle.ip_packet.specs.View.{seen};
ghost use Rattle.spd_match.specs.Match.{decides, first_entry};
ghost use Rattle.spd_match.specs.Kept.{AreOf, kept_at};

use crate::first_match;
use crate::flow::Flow;
use ikeless_tree::{Direction, Entries};
use ikl_base::NoMemory;
use ip_packet::View;
use std::alloc::Global;
use std::marker::Model;

/// What was decided for a flow: the place of the entry, or none.
#[derive(Clone, Copy, Debug)]
pub struct Decision {
    pub flow: Flow,
    pub place: Option<usize>,
}

/// Decisions, each at the one place that its flow has. Another flow of that place writes it over.
///
/// Contracts see the decisions that are kept.
#[derive(Debug, Drop)]
pub struct Decisions {
    places: Vec<Option<Decision>>,
}

impl Model for Decisions {
    ghost use Rattle.std.specs.Prelude.{◌≤◌, List, length};
    ghost use Rattle.spd_match.specs.declared.decisions.Decision.{Decision};
    ghost use Rattle.spd_match.specs.Kept.{kept_at};

    ghost Value = { List Decision };

    ghost view = { λ d. kept_at d.places.items };

    ghost invariant = { λ d. (1 ≤ length d.places.items) × (length d.places.items ≤ 4096) };
}

// What was decided for this flow, where the place has it.
fn kept_for(kept: &Option<Decision>, flow: &Flow) -> Option<Option<usize>>
    ensures { IfSome result (λ place. kept.now ≡ Some (record { flow = flow.now; place = place })) }
{
    match kept {
        None => None,
        Some(decision) => {
            if decision.flow.is_same(flow) {
                Some(decision.place)
            } else {
                None
            }
        }
    }
}

// Decides, and keeps the decision at the place of its flow.
fn decide_among(
    places: &mut Vec<Option<Decision>>,
    list: &Entries,
    d: Direction,
    v: &View,
) -> Option<usize>
    requires some { 1 ≤ length places.old.items }
    requires few { length places.old.items ≤ 4096 }
    requires kept { AreOf list.now (kept_at places.old.items) }
    ensures place { result ≡ position (decides d (seen v.now)) list.now }
    ensures kept { AreOf list.now (kept_at places.new.items) }
    ensures length { length places.new.items ≡ length places.old.items }
{
    let flow = Flow::of(d, v);
    let at = flow.place_among(places.len() as u64) as usize;
    if let Some(place) = kept_for(&places[at], &flow) {
        return place;
    }
    let place = first_match(list, d, v);
    places[at] = Some(Decision { flow, place });
    place
}

// Leaves nothing at any place.
fn clear(places: &mut Vec<Option<Decision>>)
    ensures nothing { kept_at places.new.items ≡ [] }
    ensures length { length places.new.items ≡ length places.old.items }
{
    for i in 0..places.len() {
        places[i] = None;
    }
}

impl Decisions {
    /// Nothing is kept, and there are so many places.
    pub fn new(alloc: Global, places: u32) -> Result<Decisions, NoMemory>
        requires least { 1 ≤ places }
        requires most { places ≤ 4096 }
        ensures { IfOk result (λ kept. kept ≡ []) }
    {
        Ok(Decisions {
            places: vec![in alloc; None; places as usize]?,
        })
    }

    /// The place of the entry that decides, as `first_match` gives it. It is kept then, and takes no memory.
    pub fn decide(&mut self, list: &Entries, d: Direction, v: &View) -> Option<usize>
        requires { AreOf list.now self.old }
        ensures place { result ≡ position (decides d (seen v.now)) list.now }
        ensures entry { option_and_then (slice_get list.now) result ≡ first_entry list.now d (seen v.now) }
        ensures kept { AreOf list.now self.new }
    {
        decide_among(&mut self.places, list, d, v)
    }

    /// Nothing is kept.
    pub fn forget(&mut self)
        ensures { self.new ≡ [] }
    {
        clear(&mut self.places);
    }
}
