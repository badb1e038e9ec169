// Takes the lines of a script: the header first, and then one event a line.
ghost use Rattle.std.specs.Prelude.{◌≡◌, ◌+◌, ◌<◌, ◌≤◌, ◌^◌, IfOk, IfErr, Some, None};
ghost use Rattle.script_lines.specs.Text.{text_of};
ghost use Rattle.ikeless_cli.specs.Reader.{taken_of, lines_of, arrival_of, forged_of, TakesLine, RefusesLine, IsLive};

use hist_acts::{Act, Acts};
use ikl_base::{Duplicate, LineFault, ListOf, NoMemory, Octets, OrMemory};
use script_lines::{put_acts, read_event, read_header};
use std::alloc::Global;
use world_run::{Go, World};

// Room for the text of most blocks.
const BLOCK_ROOM: usize = 1024;

/// The world of a script whose header was read, and the number of events that it took.
#[derive(Drop)]
pub struct Running {
    pub world: World,
    pub events: u64,
}

/// The text of a line's block, and the octets of a forged arrival, with which the run ends.
#[derive(Drop)]
pub struct Block {
    pub text: Vec<u8>,
    pub forged: Option<Octets>,
}

/// The number of the next line.
pub fn next_line(running: &Option<Running>) -> u64
    requires { taken_of running.now < 2 ^ 63 }
    ensures { result ≡ lines_of running.now + 1 }
{
    match running {
        None => 1,
        Some(kept) => kept.events + 2,
    }
}

// The octets of a forged arrival, which stands alone in its block.
fn arrival(alloc: Global, acts: &Acts) -> Result<Octets, NoMemory>
    ensures { IfOk result (λ o. o ≡ arrival_of acts.now) }
{
    match acts.as_slice() {
        [Act::Took(_), Act::Arrived(_, octets)] => octets.copy(),
        _ => Ok(Octets::new(alloc)),
    }
}

// What is written of an event, and whether the run ends with it.
fn told(alloc: Global, acts: &Acts, go: Go) -> Result<Block, NoMemory>
    ensures { IfOk result (λ b. (b.text.items ≡ text_of acts.now) × (b.forged ≡ forged_of acts.now go)) }
{
    let mut text = Vec::with_capacity(alloc, BLOCK_ROOM)?;
    put_acts(&mut text, acts)?;
    let forged = match go {
        Go::On => None,
        Go::Forged => Some(arrival(alloc, acts)?),
    };
    Ok(Block { text, forged })
}

// The block of a line after the header.
fn take_event(
    alloc: Global,
    running: &mut Running,
    line: &[u8],
) -> Result<Block, OrMemory<LineFault>>
    requires live { IsLive (Some running.old) }
    requires few { running.old.events < 2 ^ 31 }
    ensures ok { IfOk result (λ b. TakesLine (Some running.old) (Some running.new) line.now b.text.items b.forged) }
    ensures refused { IfErr result (RefusesLine (Some running.old) line.now) }
    ensures count { running.new.events ≤ running.old.events + 1 }
    ensures live { IfOk result (λ b. b.forged ≡ None → IsLive (Some running.new)) }
{
    let event = read_event(alloc, running.world.header(), line)?;
    let mut acts = ListOf::new(alloc);
    acts_spell::reads_what_is_spelled();
    let go = running.world.step(event, &mut acts)?;
    let block = told(alloc, &acts, go)?;
    running.events += 1;
    Ok(block)
}

/// The block of a line; the header has none.
pub fn take_line(
    alloc: Global,
    running: &mut Option<Running>,
    line: &[u8],
) -> Result<Block, OrMemory<LineFault>>
    requires live { IsLive running.old }
    requires few { taken_of running.old < 2 ^ 31 }
    ensures ok { IfOk result (λ b. TakesLine running.old running.new line.now b.text.items b.forged) }
    ensures refused { IfErr result (RefusesLine running.old line.now) }
    ensures count { taken_of running.new ≤ taken_of running.old + 1 }
    ensures live { IfOk result (λ b. b.forged ≡ None → IsLive running.new) }
{
    match running {
        None => {
            let header = read_header(alloc, line)?;
            acts_spell::reads_what_is_spelled();
            let world = World::new(alloc, header)?;
            *running = Some(Running { world, events: 0 });
            Ok(Block {
                text: Vec::new(alloc),
                forged: None,
            })
        }
        Some(kept) => take_event(alloc, kept, line),
    }
}
