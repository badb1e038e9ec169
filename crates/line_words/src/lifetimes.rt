// Reads the words that stand for limits of lifetimes.
ghost use Rattle.std.specs.Prelude.{◌≡◌};
ghost use Rattle.ikl_base.specs.Answers.{Gives};
ghost use Rattle.line_words.specs.Parts.{texts};
ghost use Rattle.line_words.specs.Limits.{counts_of, limits_in, limits_of, lifetimes_of};

use crate::cutting::parts;
use crate::words::{u32_from, u64_from};
use ikeless_tree::Limits;
use ikl_base::{LineFault, OrMemory};
use std::alloc::Global;

/// The hard and the soft limits of a lifetime.
#[derive(Clone, Copy, Debug)]
pub struct Lifetimes {
    pub hard: Limits,
    pub soft: Limits,
}

#[tactic(auto, unfolding(crate::specs::Limits::counts_of))]
fn counts(
    fault: LineFault,
    time: &[u8],
    bytes: &[u8],
    packets: &[u8],
    idle: &[u8],
) -> Result<Limits, LineFault>
    ensures { result ≡ counts_of fault time.now bytes.now packets.now idle.now }
{
    let time = u32_from(fault, time)?;
    let bytes = u64_from(fault, bytes)?;
    let packets = u32_from(fault, packets)?;
    let idle = u32_from(fault, idle)?;
    Ok(Limits {
        time,
        bytes,
        packets,
        idle,
    })
}

#[tactic(auto, unfolding(crate::specs::Limits::limits_in))]
fn limits_from(fault: LineFault, words: &[&[u8]]) -> Result<Limits, LineFault>
    ensures { result ≡ limits_in fault (texts words.now) }
{
    match words {
        [time, bytes, packets, idle] => counts(fault, time, bytes, packets, idle),
        _ => Err(fault),
    }
}

/// The limits that a word stands for.
pub fn limits(alloc: Global, fault: LineFault, word: &[u8]) -> Result<Limits, OrMemory<LineFault>>
    ensures { Gives result (limits_of fault word.now) }
{
    let words = parts(alloc, word, b'/')?;
    let limits = limits_from(fault, words.as_slice())?;
    Ok(limits)
}

/// The hard limits, then the soft ones.
#[tactic(auto, unfolding(crate::specs::Limits::lifetimes_of))]
pub fn lifetimes_from(
    alloc: Global,
    fault: LineFault,
    hard: &[u8],
    soft: &[u8],
) -> Result<Lifetimes, OrMemory<LineFault>>
    ensures { Gives result (lifetimes_of fault hard.now soft.now) }
{
    let hard = limits(alloc, fault, hard)?;
    let soft = limits(alloc, fault, soft)?;
    Ok(Lifetimes { hard, soft })
}
