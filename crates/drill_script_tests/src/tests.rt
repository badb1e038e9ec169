// The drill's script against its first lines and counts worked by another program.
use drill_script::*;
use ikl_base::NoMemory;
use std::alloc::Global;
use std::process::Abort;
use std::test::Fail;

// Each octet counts 31 times as much as the one after it.
fn weight(octets: &[u8]) -> u32 {
    let mut sum: u32 = 1;
    for octet in octets {
        sum = sum.wrapping_mul(31).wrapping_add(u32::from(*octet));
    }
    sum
}

fn check<R: Abort>(rt: &R, alloc: Global, n: u64, octets: usize, sum: u32) -> Result<(), NoMemory> {
    let script = write_drill(alloc, n)?;
    assert_eq!(rt; script.as_slice().len(), octets);
    assert_eq!(rt; weight(script.as_slice()), sum);
    Ok(())
}

#[test]
fn scripts_are_those_of_another_program(rt: HostRuntime) -> Result<(), Fail> {
    check(&rt, rt.alloc(), 0, 484_545, 3_025_956_687)?;
    check(&rt, rt.alloc(), 1, 487_731, 3_482_594_979)?;
    check(
        &rt,
        rt.alloc(),
        18_446_744_073_709_551_615,
        485_620,
        3_356_916_832,
    )?;
    Ok(())
}

const TRANSCRIPT: &[u8] = b"\
@ 1\n\
order a 1 1 read\n\
order a 1 2 policy\n\
@ 2\n\
let a 00\n\
sent a out/1 1 00\n\
@ 3\n\
clear a 00\n\
drop a discard\n\
drop b seen\n\
gave b in/1 1 00\n\
gone b in/1 hard\n\
opened a 1\n";

#[test]
fn each_line_counts_by_its_word(rt: HostRuntime) -> Result<(), Fail> {
    let counted = count_lines(rt.alloc(), TRANSCRIPT)?;
    let wanted = Tally {
        sent: 1,
        gave: 1,
        clear: 1,
        dropped: 2,
        orders: 2,
    };
    assert_eq!(rt; counted, wanted);
    let line = write_summary(rt.alloc(), 7, &counted, 3)?;
    let text = b"drill 7 events 20073 sent 1 gave 1 clear 1 drop 2 order 2 status 3\n";
    assert_eq!(rt; line.as_slice(), text.as_slice());
    Ok(())
}
