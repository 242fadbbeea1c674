// What grants blocks: a space of places with a set of places out, and the calls on it. Places are numbers;
// `places` has their arithmetic.
#![tactic(auto)]

ghost use Rattle.std.specs.Prelude.{◌≡◌, false};
ghost use Rattle.space.specs.Meaning.{Meaning, Sound, Least, is_open, is_busy, answers, after_take, after_give};

pub mod places;

// Every call answers by the meaning, for every argument whatever: 0, past the end, deeper than the space.
pub trait Space {
    ghost meaning: { Self → Meaning };

    fn depth(&self) -> usize
        ensures { result ≡ (meaning self.now).depth };

    // Whether n may be taken.
    fn open(&self, n: usize) -> bool
        ensures { result ≡ is_open (meaning self.now) n };

    // Whether n is out.
    fn out(&self, n: usize) -> bool
        ensures { result ≡ (meaning self.now).out n };

    // Whether a place out lies in w.
    fn busy(&self, w: usize) -> bool
        ensures { result ≡ is_busy (meaning self.now) w };

    // The first open place of depth d that lies in w and is at least f.
    fn seek(&self, w: usize, d: usize, f: usize) -> Option<usize>
        ensures { Least result (answers (meaning self.now) w d f) };

    // Takes n, if it is open.
    fn take(&mut self, n: usize) -> bool
        ensures value { result ≡ is_open (meaning self.old) n }
        ensures after { meaning self.new ≡ after_take (meaning self.old) n }
        ensures refused { result ≡ false → self.new ≡ self.old };

    // Gives n back, if it is out.
    fn give(&mut self, n: usize) -> bool
        ensures value { result ≡ (meaning self.old).out n }
        ensures after { meaning self.new ≡ after_give (meaning self.old) n }
        ensures refused { result ≡ false → self.new ≡ self.old };

    ghost sound: { (s : Self) → Sound (meaning s) };
}
