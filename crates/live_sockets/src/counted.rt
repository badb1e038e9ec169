// Calls of devices that are counted where they fail.
ghost use Rattle.std.specs.Prelude.{◌≡◌};
ghost use Rattle.ikl_base.specs.Outside.{HasCause};

use ikl_base::Failed;
use live_devices::Tally;

// Hands a call's answer on, and counts a fault where it failed.
pub(crate) fn counted<T>(tally: &mut Tally, answer: Result<T, Failed>) -> Result<T, Failed>
    ensures answer { result ≡ answer }
    ensures cause { HasCause tally.old.faults tally.new.faults result }
{
    match answer {
        Ok(given) => Ok(given),
        Err(fault) => {
            tally.fail();
            Err(fault)
        }
    }
}
