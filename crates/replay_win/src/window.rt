// The window as a bitmap.
ghost use Rattle.std.specs.Prelude.{◌≡◌, ◌≤◌, IfOk};

use crate::bitmap::{holds, mark_bit};
use crate::verdict::Verdict;
use ikl_base::NoMemory;
use std::alloc::Global;
use std::marker::Model;

/// A window over the greatest numbers marked.
///
/// Contracts see its size, the greatest number marked, and the numbers marked that lie inside.
#[derive(Debug, Drop)]
pub struct Window {
    size: u32,
    top: u64,
    words: Vec<u64>,
}

impl Model for Window {
    ghost use Rattle.replay_win.specs.Marks.{Marks, spanned};
    ghost use Rattle.replay_win.specs.Bitmap.{is_held, IsBitmap};

    ghost Value = { Marks };

    ghost view = { λ w. record { size = w.size; top = w.top; inside = spanned w.size w.top (is_held w.words.items w.top) } };

    ghost invariant = { λ w. IsBitmap w.size w.top w.words.items };
}

impl Window {
    ghost use Rattle.replay_win.specs.Marks.{judged, marked, no_marks};

    /// A window of `w` numbers, none of them marked. It takes all the memory that it will need: a bit for each number, and a word.
    pub fn new(alloc: Global, w: u32) -> Result<Window, NoMemory>
        requires least { 32 ≤ w }
        requires most { w ≤ 4096 }
        ensures { IfOk result (λ window. window ≡ no_marks w) }
    {
        let words = vec![in alloc; 0; (w as usize + 127) / 64]?;
        Ok(Window {
            size: w,
            top: 0,
            words,
        })
    }

    /// What the window says of a number, by all the numbers marked.
    pub fn judge(&self, s: u64) -> Verdict
        ensures { result ≡ judged self.now s }
    {
        if s == 0 {
            Verdict::Zero
        } else if self.top.saturating_sub(s) >= u64::from(self.size) {
            Verdict::Old
        } else if holds(&self.words, self.top, s) {
            Verdict::Seen
        } else {
            Verdict::Fresh
        }
    }

    /// Marks a fresh number.
    ///
    /// However far it is ahead, it clears no more words than the window fills.
    pub fn mark(&mut self, s: u64)
        requires { judged self.old s ≡ Verdict.Fresh }
        ensures { self.new ≡ marked self.old s }
    {
        mark_bit(&mut self.words, self.top, s);
        self.top = self.top.max(s);
    }

    /// The greatest number marked, or 0.
    pub fn top(&self) -> u64
        ensures { result ≡ self.now.top }
    {
        self.top
    }
}
