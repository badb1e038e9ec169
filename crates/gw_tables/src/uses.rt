// What uses and looks change of the halves.
ghost use Rattle.std.specs.Prelude.{◌≡◌, ◌<◌, Some, true, length, map, nat_lt, slice_get, option_map};
ghost use Rattle.replay_win.specs.Marks.{judged};
ghost use Rattle.replay_win.specs.declared.verdict.Verdict.TheVariants.{Fresh};
ghost use Rattle.sad_store.specs.Halves.{changed, look_at, send, take_number};
ghost use Rattle.hist_gateway.specs.Places.{without_all};

use ikeless_tree::Names;
use sad_store::SadStore;

// One more number is sent with these ESP octets, and the half is looked at.
pub(crate) fn send_at(halves: &mut SadStore, i: usize, octets: u64, clock: u32)
    requires within { i < length halves.old }
    requires last { option_map (λ x. nat_lt x.sent 4294967295) (slice_get halves.old i) ≡ Some true }
    ensures { halves.new ≡ changed (λ y. look_at clock (send clock octets y)) i halves.old }
{
    halves.next_number(i);
    halves.used(i, octets, clock);
}

// This number is taken with these ESP octets, and the half is looked at.
pub(crate) fn take_at(halves: &mut SadStore, i: usize, octets: u64, number: u64, clock: u32)
    requires within { i < length halves.old }
    requires fresh { option_map (λ x. judged x.window number) (slice_get halves.old i) ≡ Some Fresh }
    ensures { halves.new ≡ changed (λ y. look_at clock (take_number clock octets number y)) i halves.old }
{
    halves.mark(i, number);
    halves.used(i, octets, clock);
}

// All halves are looked at.
pub(crate) fn look_at_all(halves: &mut SadStore, clock: u32)
    ensures { halves.new ≡ map (look_at clock) halves.old }
{
    for i in 0..halves.len() {
        halves.tick(i, clock);
    }
}

// Takes the halves of these names out.
pub(crate) fn take_out(halves: &mut SadStore, names: &Names)
    ensures { halves.new ≡ without_all names.now halves.old }
{
    for name in names.as_slice() {
        halves.remove(name);
    }
}
