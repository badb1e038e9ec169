// Numbers that are marked, and the verdicts on others.
use crate::laws::verdicts;
use crate::verdict::Verdict;
use crate::window::Window;
use std::test::Fail;

#[test]
fn judges_by_the_numbers_marked(rt: HostRuntime) -> Result<(), Fail> {
    let mut window = Window::new(rt.alloc(), 64).map_err(|_| "no memory")?;
    assert_eq!(rt; window.top(), 0);
    assert_eq!(rt; window.judge(100), Verdict::Fresh);
    window.mark(100);
    assert_eq!(rt; window.judge(36), Verdict::Old);
    assert_eq!(rt; window.judge(37), Verdict::Fresh);
    window.mark(37);
    assert_eq!(rt; window.judge(37), Verdict::Seen);
    assert_eq!(rt; window.judge(0), Verdict::Zero);
    assert_eq!(rt; window.judge(101), Verdict::Fresh);
    assert_eq!(rt; window.judge(u64::MAX), Verdict::Fresh);
    window.mark(u64::MAX);
    assert_eq!(rt; window.judge(u64::MAX - 64), Verdict::Old);
    assert_eq!(rt; window.judge(u64::MAX - 63), Verdict::Fresh);
    assert_eq!(rt; window.judge(u64::MAX), Verdict::Seen);
    assert_eq!(rt; window.top(), u64::MAX);
    verdicts();
    Ok(())
}

// Even numbers up to 200 in a window of 32, and then the odd ones that it still spans.
#[test]
fn keeps_all_numbers_that_it_spans(rt: HostRuntime) -> Result<(), Fail> {
    let mut window = Window::new(rt.alloc(), 32).map_err(|_| "no memory")?;
    for half in 1..=100u64 {
        assert_eq!(rt; window.judge(2 * half), Verdict::Fresh);
        window.mark(2 * half);
    }
    for half in 84..100u64 {
        assert_eq!(rt; window.judge(2 * half + 1), Verdict::Fresh);
        window.mark(2 * half + 1);
    }
    for s in 1..=200u64 {
        let verdict = if s < 169 { Verdict::Old } else { Verdict::Seen };
        assert_eq!(rt; window.judge(s), verdict, "{s}");
    }
    assert_eq!(rt; window.top(), 200);
    Ok(())
}

// A jump ahead, over words of the bitmap and over all of it, keeps what the window still spans and nothing else.
#[test]
fn a_jump_ahead_keeps_what_the_window_spans(rt: HostRuntime) -> Result<(), Fail> {
    let mut window = Window::new(rt.alloc(), 130).map_err(|_| "no memory")?;
    for s in [63, 64, 65, 190, 192, 255, 319] {
        assert_eq!(rt; window.judge(s), Verdict::Fresh, "{s}");
        window.mark(s);
    }
    for (s, verdict) in [
        (189, Verdict::Old),
        (190, Verdict::Seen),
        (191, Verdict::Fresh),
        (192, Verdict::Seen),
        (255, Verdict::Seen),
        (256, Verdict::Fresh),
        (319, Verdict::Seen),
        (320, Verdict::Fresh),
    ] {
        assert_eq!(rt; window.judge(s), verdict, "{s}");
    }
    assert_eq!(rt; window.judge(10_000), Verdict::Fresh);
    window.mark(10_000);
    for s in 9871..10_000u64 {
        assert_eq!(rt; window.judge(s), Verdict::Fresh, "{s}");
    }
    assert_eq!(rt; window.judge(9870), Verdict::Old);
    Ok(())
}
