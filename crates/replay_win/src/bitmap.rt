// Words of 64 bits, used in turn: each has the numbers of one block of 64.
ghost use Rattle.std.specs.Prelude.{◌≡◌, ℕ, ◌+◌, ◌-◌, ◌*◌, ◌<◌, ◌≤◌, ◌/◌, ◌%◌, ◌==◌, ◌&&◌, ◌||◌, length, max, not, if◌then◌else◌};
ghost use Rattle.replay_win.specs.Bitmap.{is_bit_set, is_one_word, is_one_bit, is_block_word, is_held, IsClearAhead};

// The place of a block's word.
fn word_of(block: u64, words: usize) -> usize
    requires { 0 < words }
    ensures place { result ≡ block % words }
    ensures within { result < words }
{
    (block % words as u64) as usize
}

fn is_set(words: &[u64], s: u64) -> bool
    requires { 0 < length words.now }
    ensures { result ≡ is_bit_set words.now s }
{
    let word = words[word_of(s / 64, words.len())];
    (word >> (s % 64)) & 1 == 1
}

// Whether the number was marked, where it isn't too old to tell.
pub(crate) fn holds(words: &[u64], top: u64, s: u64) -> bool
    requires { 0 < length words.now }
    ensures { result ≡ is_held words.now top s }
{
    s <= top && is_set(words, s)
}

fn set(words: &mut [u64], s: u64)
    requires { 0 < length words.old }
    ensures length { length words.new ≡ length words.old }
    ensures bits { (k : ℕ) → is_bit_set words.new k ≡ (is_one_bit (length words.old) s k || is_bit_set words.old k) }
{
    let i = word_of(s / 64, words.len());
    words[i] |= 1 << (s % 64);
}

// Gives a number's word to its block, with this number alone.
fn begin(words: &mut [u64], s: u64)
    requires { 0 < length words.old }
    ensures length { length words.new ≡ length words.old }
    ensures bits { (k : ℕ) → is_bit_set words.new k ≡ (if is_one_word (length words.old) s k then s % 64 == k % 64 else is_bit_set words.old
        k) }
{
    let i = word_of(s / 64, words.len());
    words[i] = 1 << (s % 64);
}

// Clears the words of these blocks.
fn clear(words: &mut [u64], first: u64, end: u64)
    requires some { 0 < length words.old }
    requires order { first ≤ end }
    ensures length { length words.new ≡ length words.old }
    ensures bits { (k : ℕ)
        → is_bit_set words.new k ≡ (not (is_block_word (length words.old) first (end - first) (k / 64 % length words.old))
        && is_bit_set words.old k) }
{
    for block in first..end {
        let i = word_of(block, words.len());
        words[i] = 0;
    }
}

// Marks a number that isn't too far below the greatest one. The words of blocks that were passed over are cleared first.
pub(crate) fn mark_bit(words: &mut [u64], top: u64, s: u64)
    requires some { 0 < length words.old }
    requires near { top < s + 64 * (length words.old - 1) }
    requires ahead { IsClearAhead words.old top }
    ensures length { length words.new ≡ length words.old }
    ensures ahead { IsClearAhead words.new (max top s) }
    ensures held { (k : ℕ) → max top s < k + 64 * (length words.old - 1)
        → is_held words.new (max top s) k ≡ ((s == k) || is_held words.old top k) }
{
    let block = s / 64;
    let newest = top / 64;
    if block <= newest {
        set(words, s);
        return;
    }
    let span = words.len() as u64 - 1;
    let first = (newest + 1).max(block.saturating_sub(span));
    clear(words, first, block);
    begin(words, s);
}
