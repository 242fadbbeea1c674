// A space kept as a binary tree of bytes in lent memory, one byte for each place.
#![tactic(auto)]

ghost use Rattle.std.specs.Prelude.{◌≡◌, ℕ, ◌+◌, ◌/◌, ◌^◌, ◌<◌, ◌≤◌, true, false, ◌&&◌, ◌++◌, length, take, drop, replicate, if◌then◌else◌, MatchOption, ◌≢◌, nat_eq, nat_lt};
ghost use Rattle.space.specs.Places.{overlap, is_place, depth_of};
ghost use Rattle.space.specs.Meaning.{Free, blocked, is_open, adding, removing, after_take, after_give, fresh, shut};
ghost use Rattle.tree.specs.Tree.{byte, Tidy, tree_out, tree_meaning, room, drawn, Blocked};
ghost use Rattle.tree.specs.Sound.{tree_sound};

use space::Space;
use space::places::{depth_of, is_place, places_at};
use std::ops::Range;

// Byte n is 1 when n is out, 2 when another place that lies in n is out, else 0; byte 0 is 0.
// The ghost fields say so by each byte and the two below it, and a shut space has depth 0.
#[derive(Drop)]
pub struct BuddyTree<'a> {
    depth: usize,
    bytes: &'a mut [u8],
    ghost shallow: { depth ≤ 12 },
    ghost sized: { (0 < depth → 2 ^ (depth + 1) ≤ length bytes.now) },
    ghost tidy: { (0 < depth → Tidy depth bytes.now) },
    ghost first: { (0 < depth → byte bytes.now 0 ≡ 0) },
}

impl<'a> BuddyTree<'a> {
    // A tree in the first 2^(depth + 1) bytes, with nothing out; a shut one if the depth or the memory does not do.
    pub fn new(depth: usize, bytes: &'a mut [u8]) -> BuddyTree<'a>
        ensures meaning { tree_meaning result.depth result.bytes.now ≡ (if room depth (length bytes.old) then fresh depth else shut) }
        ensures memory { result.bytes.now ≡ (if room depth (length bytes.old) then replicate (2 ^ (depth + 1)) 0 ++ drop (2 ^ (depth + 1)) bytes.old else bytes.old) }
        ensures named { result.bytes.ghost_name ≡ bytes.entry.ghost_name }
    {
        if !(1..=12).contains(&depth) {
            return BuddyTree { depth: 0, bytes };
        }
        let n = 1usize << (depth + 1);
        if bytes.len() < n {
            return BuddyTree { depth: 0, bytes };
        }
        bytes[..n].fill(0);
        BuddyTree { depth, bytes }
    }

    // The memory lent, of which the places out say what each byte in use is.
    pub fn bytes(&self) -> &[u8]
        ensures whole { result.now ≡ self.now.bytes.now }
        ensures drawn { 0 < self.now.depth → take (2 ^ (self.now.depth + 1)) result.now ≡ drawn self.now.depth (tree_out self.now.depth self.now.bytes.now) }
    {
        &*self.bytes
    }

    // Whether n is a place of the space and the space is not shut.
    fn has(&self, n: usize) -> bool
        ensures { result ≡ (nat_lt 0 self.now.depth && is_place self.now.depth n) }
    {
        0 < self.depth && is_place(self.depth, n)
    }

    // Writes whether n is out, and sets each byte above it: on a take to 2, on a give by its two halves. No other place
    // out may overlap n.
    fn set_out(&mut self, n: usize, out: bool)
        requires live { 0 < self.old.depth }
        requires place { is_place self.old.depth n ≡ true }
        requires apart { (k : ℕ) → tree_out self.old.depth self.old.bytes.now k ≡ true → overlap k n ≡ true → k ≡ n }
        ensures depth { self.new.depth ≡ self.old.depth }
        ensures outs { tree_out self.old.depth self.new.bytes.now ≡ (if out then adding (tree_out self.old.depth self.old.bytes.now) n else removing (tree_out self.old.depth self.old.bytes.now) n) }
        ensures named { self.new.bytes.ghost_name ≡ self.old.bytes.ghost_name }
        ensures beyond { (k : ℕ) → 2 ^ (self.old.depth + 1) ≤ k → byte self.new.bytes.now k ≡ byte self.old.bytes.now k }
    {
        // Works on the bytes and not on `self`: they are not tidy until the walk up ends.
        let b = &mut *self.bytes;
        b[n] = u8::from(out);
        let mut a = n / 2;
        while a > 0 {
            if out {
                b[a] = 2;
            } else {
                let v = above(b[2 * a], b[2 * a + 1]);
                b[a] = v;
            }
            a /= 2;
        }
    }

    // How often n is halved, once or more, until it is a place that is out; nothing where none above n is.
    fn out_above(&self, n: usize) -> Option<usize>
        requires live { 0 < self.now.depth }
        requires place { is_place self.now.depth n ≡ true }
        ensures { MatchOption result ((k : ℕ) → 0 < k → k ≤ depth_of n → byte self.now.bytes.now (n / 2 ^ k) ≢ 1) (λ k. (k < 64) × (k ≤ depth_of n) × (byte self.now.bytes.now (n / 2 ^ k) ≡ 1)) }
    {
        (1..depth_of(n) + 1).find(|k| self.bytes[n >> *k] == 1)
    }

    // Nothing where n overlaps no place out; else a number from n on, up to which every place overlaps one.
    // Where a place above n is out, that is the last of n's depth in it, so that a search leaves it in one step.
    fn obstacle(&self, n: usize) -> Option<usize>
        requires live { 0 < self.now.depth }
        requires place { is_place self.now.depth n ≡ true }
        ensures { MatchOption result (blocked (tree_meaning self.now.depth self.now.bytes.now) n ≡ false) (Blocked (tree_meaning self.now.depth self.now.bytes.now) n) }
    {
        if self.bytes[n] != 0 {
            return Some(n);
        }
        let k = self.out_above(n)?;
        let a = n >> k;
        Some(((a + 1) << k) - 1)
    }

    // The first of the places that overlaps no place out. Each turn leaves a place out behind, so the cost goes
    // with the number of those and not with that of the places.
    fn first_free(&self, places: Range<usize>) -> Option<usize>
        requires live { 0 < self.now.depth }
        requires above { 0 < places.start }
        requires below { places.end ≤ 2 ^ (self.now.depth + 1) }
        ensures { MatchOption result ((j : ℕ) → places.start ≤ j → j < places.end → blocked (tree_meaning self.now.depth self.now.bytes.now) j ≡ true) (Free (tree_meaning self.now.depth self.now.bytes.now) places.start places.end) }
    {
        let mut k = places.start;
        while k < places.end {
            let Some(last) = self.obstacle(k) else {
                return Some(k);
            };
            k = last + 1;
        }
        None
    }
}

impl<'a> Space for BuddyTree<'a> {
    ghost meaning = { λ s. tree_meaning s.depth s.bytes.now };

    ghost sound = { λ s. tree_sound s.depth s.bytes.now s.shallow s.tidy };

    fn depth(&self) -> usize {
        self.depth
    }

    fn open(&self, n: usize) -> bool {
        self.has(n) && self.obstacle(n).is_none()
    }

    fn out(&self, n: usize) -> bool {
        self.has(n) && self.bytes[n] == 1
    }

    fn busy(&self, w: usize) -> bool {
        self.has(w) && self.bytes[w] != 0
    }

    fn seek(&self, w: usize, d: usize, f: usize) -> Option<usize> {
        if !self.has(w) || d > self.depth {
            return None;
        }
        let places = places_at(w, d)?;
        self.first_free(f.max(places.start)..places.end)
    }

    fn take(&mut self, n: usize) -> bool
        ensures value { result ≡ is_open (tree_meaning self.old.depth self.old.bytes.now) n }
        ensures after { tree_meaning self.new.depth self.new.bytes.now ≡ after_take (tree_meaning self.old.depth self.old.bytes.now) n }
        ensures refused { result ≡ false → self.new ≡ self.old }
        ensures named { self.new.bytes.ghost_name ≡ self.old.bytes.ghost_name }
        ensures beyond { (k : ℕ) → 2 ^ (self.old.depth + 1) ≤ k → byte self.new.bytes.now k ≡ byte self.old.bytes.now k }
    {
        let open = self.open(n);
        if open {
            self.set_out(n, true);
        }
        open
    }

    fn give(&mut self, n: usize) -> bool
        ensures value { result ≡ tree_out self.old.depth self.old.bytes.now n }
        ensures after { tree_meaning self.new.depth self.new.bytes.now ≡ after_give (tree_meaning self.old.depth self.old.bytes.now) n }
        ensures refused { result ≡ false → self.new ≡ self.old }
        ensures named { self.new.bytes.ghost_name ≡ self.old.bytes.ghost_name }
        ensures beyond { (k : ℕ) → 2 ^ (self.old.depth + 1) ≤ k → byte self.new.bytes.now k ≡ byte self.old.bytes.now k }
    {
        let out = self.out(n);
        if out {
            self.set_out(n, false);
        }
        out
    }
}

// The byte of a place that is not out, by those of its halves.
fn above(l: u8, r: u8) -> u8
    ensures { result ≡ (if nat_eq (l + r) 0 then 0 else 2) }
{
    if l == 0 && r == 0 { 0 } else { 2 }
}
