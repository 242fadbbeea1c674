// Runs of bits in a row of words: bit i is bit i % 64, from the least significant, of word i / 64. A bit that
// the words do not have is 0. Each loop goes word by word, whatever the ends of its run.
#![tactic(auto)]

ghost use Rattle.std.specs.Prelude.{◌≡◌, ℕ, ◌+◌, ◌*◌, ◌/◌, ◌<◌, ◌≤◌, min, not, ◌&&◌, ◌++◌, length, drop, replicate, if◌then◌else◌, MatchOption, nat_lt, slice_index};
ghost use Rattle.bits.specs.Bit.{on, bit, within};

use std::ops::Range;

// Whether bit i is set.
pub fn bit_at(words: &[u64], i: usize) -> bool
    ensures { result ≡ bit words.now i }
{
    words.get(i / 64).is_some_and(|w| (w >> (i % 64)) % 2 == 1)
}

// A mask of the bits of word w that come before the end of a run, which reaches into that word.
fn part(w: usize, end: usize) -> u64
    requires to { 64 * w < end }
    ensures { (j : ℕ) → j < 64 → on result j ≡ nat_lt (64 * w + j) end }
{
    let over = (64 * w + 63).saturating_sub(end - 1);
    u64::MAX >> over
}

// The first bit of a run that is `SET`.
pub fn first<const SET: bool>(words: &[u64], run: Range<usize>) -> Option<usize>
    ensures { MatchOption result
        ((k : ℕ) → run.start ≤ k → k < run.end → bit words.now k ≡ not SET)
        (λ i. (run.start ≤ i) × (i < run.end) × (bit words.now i ≡ SET) × ((k : ℕ) → run.start ≤ k → k < i → bit words.now k ≡ not SET)) }
{
    let Range { start, end } = run;
    let mut from = u64::MAX << (start % 64);
    for w in start / 64..end.div_ceil(64).min(words.len()) {
        let word = if SET { words[w] } else { !words[w] };
        let hits = word & from;
        if hits != 0 {
            // The words are read upward, so where this one is past the run, none is in it.
            let i = 64 * w + hits.trailing_zeros() as usize;
            if i >= end {
                return None;
            }
            return Some(i);
        }
        from = u64::MAX;
    }
    // Behind the words every bit is clear.
    let behind = words.len().saturating_mul(64).max(start);
    (!SET && behind < end).then_some(behind)
}

// Sets a run to `SET`, as far as the words go.
pub fn fill_run<const SET: bool>(words: &mut [u64], run: Range<usize>)
    ensures bits { (k : ℕ) → bit words.new k ≡ (if within run.start run.end k && nat_lt k (64 * length words.old) then SET else bit words.old k) }
    ensures beyond { (k : ℕ) → run.end ≤ 64 * k → slice_index words.new k ≡ slice_index words.old k }
{
    let Range { start, end } = run;
    let mut from = u64::MAX << (start % 64);
    for w in start / 64..end.div_ceil(64).min(words.len()) {
        let bits = from & part(w, end);
        words[w] = if SET {
            words[w] | bits
        } else {
            words[w] & !bits
        };
        from = u64::MAX;
    }
}

// Clears the first n words, or all if there are fewer.
pub fn wipe(words: &mut [u64], n: usize)
    ensures { words.new ≡ replicate (min n (length words.old)) 0 ++ drop (min n (length words.old)) words.old }
{
    let m = n.min(words.len());
    words[..m].fill(0);
}
