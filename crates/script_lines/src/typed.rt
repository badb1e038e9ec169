// What every act has: its numbers are those of its types. Nothing is done.
ghost use Rattle.std.specs.Prelude.{◌<◌, ◌^◌};
ghost use Rattle.ikeless_tree.specs.Typed.{AreOctets};
ghost use Rattle.script_lines.specs.Spelling.{IsAct};

use hist_acts::Act;
use ikeless_tree::policies_fit;

fn octets_fit(octets: &[u8])
    ensures { AreOctets octets.now }
{}

fn count_fits(n: u32)
    ensures { n < 2 ^ 32 }
{}

fn number_fits(n: u64)
    ensures { n < 2 ^ 64 }
{}

/// The numbers of this act are those of its types.
pub(crate) fn act_fits(act: &Act)
    ensures { IsAct act.now }
{
    match act {
        Act::Took(k) => number_fits(*k),
        Act::Now(t) => count_fits(*t),
        Act::Boot(_) => (),
        Act::Policy(_, list) => policies_fit(list),
        Act::Put(_, entry) => entry.numbers_fit(),
        Act::Gone(_, _, _) => (),
        Act::Let(_, o) => octets_fit(o.as_slice()),
        Act::Sent(_, _, number, o) => {
            number_fits(*number);
            octets_fit(o.as_slice());
        }
        Act::Clear(_, o) => octets_fit(o.as_slice()),
        Act::Drop(_, _) => (),
        Act::Arrived(_, o) => octets_fit(o.as_slice()),
        Act::Gave(_, _, number, o) => {
            number_fits(*number);
            octets_fit(o.as_slice());
        }
        Act::Pass(_, o) => octets_fit(o.as_slice()),
        Act::Opened(_, s) => count_fits(*s),
        Act::Cut(_, s) => count_fits(*s),
        Act::Order(_, s, n, order) => {
            count_fits(*s);
            number_fits(*n);
            order.numbers_fit();
        }
        Act::Handled(_, s, n, answer) => {
            count_fits(*s);
            number_fits(*n);
            answer.numbers_fit();
        }
        Act::Answered(_, s, n, answer) => {
            count_fits(*s);
            number_fits(*n);
            answer.numbers_fit();
        }
        Act::Notice(_, s, notice) => {
            count_fits(*s);
            notice.numbers_fit();
        }
        Act::Heard(_, s, notice) => {
            count_fits(*s);
            notice.numbers_fit();
        }
        Act::Wire(_, _, o) => octets_fit(o.as_slice()),
        Act::Refused(_) => (),
    }
}
