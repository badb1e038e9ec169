// What changes of one half in a list.
ghost use Rattle.std.specs.Prelude.{◌≡◌, ◌+◌, ◌<◌, ℕ, Some, true, not, length, map, nat_lt, slice_get};
ghost use Rattle.std.specs.Option.{option_map};
ghost use Rattle.replay_win.specs.Marks.{judged};
ghost use Rattle.replay_win.specs.declared.verdict.Verdict.TheVariants.{Fresh};
ghost use Rattle.life_count.specs.Lifetime.{counted, event_at};
ghost use Rattle.sad_store.specs.Halves.{changed, number_next, mark_number, use_half, look_at, with_overflow, hushed};

use crate::half::Half;
use life_count::LifeEvent;

pub(crate) fn number(halves: &mut Vec<Half>, i: usize) -> u64
    requires last { option_map (λ x. nat_lt x.sent 18446744073709551615) (slice_get halves.old.items i) ≡ Some true }
    ensures number { option_map (λ x. x.sent + 1) (slice_get halves.old.items i) ≡ Some result }
    ensures halves { halves.new.items ≡ changed number_next i halves.old.items }
{
    let half = &mut halves[i];
    half.sent += 1;
    half.sent
}

pub(crate) fn mark_at(halves: &mut Vec<Half>, i: usize, s: u64)
    requires fresh { option_map (λ x. judged x.window s) (slice_get halves.old.items i) ≡ Some Fresh }
    ensures { halves.new.items ≡ changed (mark_number s) i halves.old.items }
{
    halves[i].window.mark(s);
}

pub(crate) fn use_at(halves: &mut Vec<Half>, i: usize, bytes: u64, now: u32) -> LifeEvent
    requires { i < length halves.old.items }
    ensures event { option_map (λ x. event_at now (counted bytes now x.life)) (slice_get halves.old.items i) ≡ Some result }
    ensures halves { halves.new.items ≡ changed (use_half bytes now) i halves.old.items }
{
    halves[i].life.used(bytes, now)
}

pub(crate) fn tick_at(halves: &mut Vec<Half>, i: usize, now: u32) -> LifeEvent
    requires { i < length halves.old.items }
    ensures event { option_map (λ x. event_at now x.life) (slice_get halves.old.items i) ≡ Some result }
    ensures halves { halves.new.items ≡ changed (look_at now) i halves.old.items }
{
    halves[i].life.tick(now)
}

pub(crate) fn tell_overflow(halves: &mut Vec<Half>, i: usize) -> bool
    requires { i < length halves.old.items }
    ensures first { option_map (λ x. not x.overflow) (slice_get halves.old.items i) ≡ Some result }
    ensures halves { halves.new.items ≡ changed (with_overflow true) i halves.old.items }
{
    let half = &mut halves[i];
    let was_told = half.overflow;
    half.overflow = true;
    !was_told
}

fn hush_half(half: &mut Half)
    ensures { half.new ≡ hushed half.old }
{
    half.life.session();
    half.overflow = false;
}

pub(crate) fn hush(halves: &mut Vec<Half>)
    ensures { halves.new.items ≡ map hushed halves.old.items }
{
    for i in 0..halves.len() {
        hush_half(&mut halves[i]);
    }
}
