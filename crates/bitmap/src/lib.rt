// A space whose places out are marked in two shares of lent words.
#![tactic(auto)]

ghost use Rattle.std.specs.Prelude.{◌≡◌, ℕ, ◌+◌, ◌*◌, ◌^◌, ◌<◌, ◌≤◌, true, false, not, ◌&&◌, ◌++◌, length, take, drop, replicate, if◌then◌else◌, MatchOption, slice_index};
ghost use Rattle.space.specs.Meaning.{Free, blocked, is_open, is_busy, after_take, after_give, fresh, shut};
ghost use Rattle.bitmap.specs.Map.{has, Spans, share, room, marked, starts, map_meaning, Tidy, Marks, drawn};
ghost use Rattle.bitmap.specs.Whole.{map_sound};

use bits::{bit_at, fill_run, first, wipe};
use space::Space;
use space::places::{depth_of, is_place, places_at};
use std::ops::Range;

// How many words a share has.
fn share_of(d: usize) -> usize
    requires { d ≤ 12 }
    ensures value { result ≡ share d }
    ensures bound { (2 ^ d ≤ 64 * result) × (result ≤ 64) }
{
    ((1 << d) / 64).max(1)
}

// Marks units in the words of a map of depth d, and the first of them as a start, or clears both.
fn mark<const OUT: bool>(words: &mut [u64], d: usize, units: Range<usize>)
    requires shallow { d ≤ 12 }
    requires room { 2 * share d ≤ length words.old }
    requires some { units.start < units.end }
    requires inside { units.end ≤ 2 ^ d }
    ensures bits { Marks d units.start units.end OUT words.old words.new }
    ensures beyond { (k : ℕ) → 2 * share d ≤ k → slice_index words.new k ≡ slice_index words.old k }
{
    let Range { start, end } = units;
    let share = 64 * share_of(d);
    fill_run::<OUT>(words, start..end);
    fill_run::<OUT>(words, share + start..share + start + 1);
}

// Returns the words; only a call tells the proof that each is below 2^64.
fn numbers(words: &[u64]) -> &[u64]
    ensures same { result.now ≡ words.now }
    ensures fits { (k : ℕ) → slice_index words.now k < 2 ^ 64 }
{
    words.iter().as_slice()
}

// The memory of a map of depth D is two equal shares of 2^D / 64 words, one word for D below 6; unit u is bit
// u mod 64, from the least significant, of word u / 64 of a share; the first share marks the units of places
// out, the second the first unit of each place out; unused bits are 0. Depth 0 is a shut space.
#[derive(Drop)]
pub struct Bitmap<'a> {
    depth: usize,
    words: &'a mut [u64],
    ghost shallow: { depth ≤ 12 },
    ghost sized: { (0 < depth → 2 * share depth ≤ length words.now) },
    ghost tidy: { (0 < depth → Tidy depth words.now) },
}

impl<'a> Bitmap<'a> {
    // A map with nothing out, in the first words of `words`. Where the depth is not one of 1 to 12 or the words
    // are too few, a shut space, which leaves the words as they were.
    pub fn new(depth: usize, words: &'a mut [u64]) -> Bitmap<'a>
        ensures meaning { map_meaning result.depth result.words.now ≡ (if room depth (length words.old) then fresh depth else shut) }
        ensures memory { result.words.now ≡ (if room depth (length words.old) then replicate (2 * share depth) 0 ++ drop (2 * share depth) words.old else words.old) }
        ensures named { result.words.ghost_name ≡ words.entry.ghost_name }
    {
        if !(1..=12).contains(&depth) {
            return Bitmap { depth: 0, words };
        }
        let n = 2 * share_of(depth);
        if words.len() < n {
            return Bitmap { depth: 0, words };
        }
        wipe(words, n);
        Bitmap { depth, words }
    }

    // The memory lent. Of a map that is not shut, the set of places out says what every word of the shares is.
    pub fn words(&self) -> &[u64]
        ensures whole { result.now ≡ self.now.words.now }
        ensures drawn { 0 < self.now.depth → take (2 * share self.now.depth) result.now ≡ drawn self.now.depth (map_meaning self.now.depth self.now.words.now).out }
    {
        numbers(self.words)
    }

    // The units of n, where the space is not shut and n is a place of it.
    fn units(&self, n: usize) -> Option<Range<usize>>
        ensures { MatchOption result (has self.now.depth n ≡ false)
            (λ r. (has self.now.depth n ≡ true) × Spans self.now.depth n r.start r.end) }
    {
        if self.depth == 0 || !is_place(self.depth, n) {
            return None;
        }
        let size = 1 << (self.depth - depth_of(n));
        let start = n * size - (1 << self.depth);
        Some(start..start + size)
    }

    // Whether n is out: its units are a start, all marked, with no further start, and behind them stands no mark
    // without a start. Called and not inlined, it takes over half as long again.
    #[inline(always)]
    fn is_out(&self, n: usize) -> bool
        ensures { result ≡ (map_meaning self.now.depth self.now.words.now).out n }
    {
        let Some(Range { start, end }) = self.units(n) else {
            return false;
        };
        let share = 64 * share_of(self.depth);
        bit_at(self.words, share + start)
            && first::<false>(self.words, start..end).is_none()
            && first::<true>(self.words, share + start + 1..share + end).is_none()
            && self.parts_at(end)
    }

    // Whether no place out has units both before unit e and at it.
    fn parts_at(&self, e: usize) -> bool
        ensures { result ≡ not (marked self.now.depth self.now.words.now e && not (starts self.now.depth self.now.words.now e)) }
    {
        let share = 64 * share_of(self.depth);
        e >= share || !bit_at(self.words, e) || bit_at(self.words, share + e)
    }

    // The first of some places of depth d that overlaps no place out. Behind a marked unit it goes on at the first
    // place that begins where the marked units end.
    fn first_free(&self, d: usize, places: Range<usize>) -> Option<usize>
        requires live { 0 < self.now.depth }
        requires deep { d ≤ self.now.depth }
        requires from { 2 ^ d ≤ places.start }
        requires to { places.end ≤ 2 ^ (d + 1) }
        ensures { MatchOption result ((k : ℕ) → places.start ≤ k → k < places.end → blocked (map_meaning self.now.depth self.now.words.now) k ≡ true) (Free (map_meaning self.now.depth self.now.words.now) places.start places.end) }
    {
        let size = 1 << (self.depth - d);
        let top = 1 << self.depth;
        let mut n = places.start;
        while n < places.end {
            let start = n * size - top;
            let Some(marked) = first::<true>(self.words, start..start + size) else {
                return Some(n);
            };
            let clear = first::<false>(self.words, marked..top).unwrap_or(top);
            n = (top + clear).div_ceil(size);
        }
        None
    }
}

impl<'a> Space for Bitmap<'a> {
    ghost meaning = { λ s. map_meaning s.depth s.words.now };

    ghost sound = { λ s. map_sound s.depth s.words.now s.shallow };

    fn depth(&self) -> usize {
        self.depth
    }

    fn open(&self, n: usize) -> bool {
        let Some(Range { start, end }) = self.units(n) else {
            return false;
        };
        first::<true>(self.words, start..end).is_none()
    }

    #[inline(always)]
    fn out(&self, n: usize) -> bool {
        self.is_out(n)
    }

    // A place out starts in w, and w is no part of a larger one.
    fn busy(&self, w: usize) -> bool {
        let Some(Range { start, end }) = self.units(w) else {
            return false;
        };
        let share = 64 * share_of(self.depth);
        first::<true>(self.words, share + start..share + end).is_some() && self.parts_at(end)
    }

    fn seek(&self, w: usize, d: usize, f: usize) -> Option<usize> {
        if self.depth == 0 || d > self.depth {
            return None;
        }
        let places = places_at(w, d)?;
        self.first_free(d, places.start.max(f)..places.end)
    }

    fn take(&mut self, n: usize) -> bool
        ensures value { result ≡ is_open (map_meaning self.old.depth self.old.words.now) n }
        ensures after { map_meaning self.new.depth self.new.words.now ≡ after_take (map_meaning self.old.depth self.old.words.now) n }
        ensures refused { result ≡ false → self.new ≡ self.old }
        ensures named { self.new.words.ghost_name ≡ self.old.words.ghost_name }
        ensures beyond { (k : ℕ) → 2 * share self.old.depth ≤ k → slice_index self.new.words.now k ≡ slice_index self.old.words.now k }
    {
        match self.units(n) {
            Some(units) if self.open(n) => {
                mark::<true>(self.words, self.depth, units);
                true
            }
            _ => false,
        }
    }

    fn give(&mut self, n: usize) -> bool
        ensures value { result ≡ (map_meaning self.old.depth self.old.words.now).out n }
        ensures after { map_meaning self.new.depth self.new.words.now ≡ after_give (map_meaning self.old.depth self.old.words.now) n }
        ensures refused { result ≡ false → self.new ≡ self.old }
        ensures named { self.new.words.ghost_name ≡ self.old.words.ghost_name }
        ensures beyond { (k : ℕ) → 2 * share self.old.depth ≤ k → slice_index self.new.words.now k ≡ slice_index self.old.words.now k }
    {
        match self.units(n) {
            Some(units) if self.out(n) => {
                mark::<false>(self.words, self.depth, units);
                true
            }
            _ => false,
        }
    }
}
