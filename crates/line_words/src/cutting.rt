// Texts cut at a mark.
ghost use Rattle.std.specs.Prelude.{◌≡◌, ◌==◌, IfOk};
ghost use Rattle.std.specs.List.{slice_split};
ghost use Rattle.std.specs.Str.{bytes_eq};
ghost use Rattle.line_words.specs.Parts.{texts};

use ikl_base::NoMemory;
use std::alloc::{AllocError, Global};

fn collected(alloc: Global, text: &[u8], mark: u8) -> Result<Vec<&[u8]>, AllocError>
    ensures { IfOk result (λ v. texts v.items ≡ slice_split (λ c. c == mark) text.now) }
{
    text.split(|c| *c == mark).collect(alloc)
}

/// The parts of a text before, between and after its marks.
pub fn parts(alloc: Global, text: &[u8], mark: u8) -> Result<Vec<&[u8]>, NoMemory>
    ensures { IfOk result (λ v. texts v.items ≡ slice_split (λ c. c == mark) text.now) }
{
    Ok(collected(alloc, text, mark)?)
}

/// Whether a word is this text.
pub fn is_word(word: &[u8], text: &[u8]) -> bool
    ensures { result ≡ bytes_eq word.now text.now }
{
    word == text
}
