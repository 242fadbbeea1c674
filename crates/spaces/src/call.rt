// Calls on a space and their answers, on one space and on two side by side.
ghost use Rattle.std.specs.Prelude.{◌≡◌, IfOk};
ghost use Rattle.spaces.specs.Calls.{Performed, Ran, Alike};

use space::Space;
use std::alloc::{AllocError, Global};
use std::fmt;

#[derive(Clone, Copy)]
pub enum Call {
    Take(usize),
    Give(usize),
    Open(usize),
    Out(usize),
    Busy(usize),
    Seek {
        within: usize,
        depth: usize,
        from: usize,
    },
}

#[derive(Clone, Copy)]
pub enum Answer {
    Said(bool),
    Found(Option<usize>),
}

impl fmt::Display for Answer {
    fn fmt<W: fmt::Write>(&self, f: &mut fmt::Formatter<W>) -> fmt::Result {
        match self {
            Answer::Said(true) => write!(f, "yes"),
            Answer::Said(false) => write!(f, "no"),
            Answer::Found(Some(n)) => write!(f, "{n}"),
            Answer::Found(None) => write!(f, "none"),
        }
    }
}

// Makes a call on a space.
pub fn perform<S: Space>(space: &mut S, call: Call) -> Answer
    ensures { Performed call (S.meaning space.old) result (S.meaning space.new) }
{
    match call {
        Call::Take(n) => Answer::Said(space.take(n)),
        Call::Give(n) => Answer::Said(space.give(n)),
        Call::Open(n) => Answer::Said(space.open(n)),
        Call::Out(n) => Answer::Said(space.out(n)),
        Call::Busy(w) => Answer::Said(space.busy(w)),
        Call::Seek {
            within,
            depth,
            from,
        } => Answer::Found(space.seek(within, depth, from)),
    }
}

// The answers of two spaces to one call.
#[derive(Clone, Copy)]
pub struct Both {
    pub one: Answer,
    pub other: Answer,
}

// Makes a call on two spaces. Those that mean the same answer the same and go on meaning the same, whatever
// their make.
pub fn perform_both<A: Space, B: Space>(a: &mut A, b: &mut B, call: Call) -> Both
    ensures one { Performed call (A.meaning a.old) result.one (A.meaning a.new) }
    ensures other { Performed call (B.meaning b.old) result.other (B.meaning b.new) }
    ensures alike { A.meaning a.old ≡ B.meaning b.old → (result.one ≡ result.other) × (A.meaning a.new ≡ B.meaning b.new) }
{
    let one = perform(a, call);
    let other = perform(b, call);
    Both { one, other }
}

// Makes a list of calls on two spaces. Where both mean the same, each call gets the same answer from both.
pub fn run<A: Space, B: Space>(
    heap: Global,
    a: &mut A,
    b: &mut B,
    calls: &[Call],
) -> Result<Vec<Both>, AllocError>
    ensures ran { IfOk result (λ v. Ran calls.now (A.meaning a.old) (B.meaning b.old) v.items (A.meaning a.new) (B.meaning b.new)) }
    ensures alike { IfOk result (λ v. A.meaning a.old ≡ B.meaning b.old → Alike v.items × (A.meaning a.new ≡ B.meaning b.new)) }
{
    let mut answers = Vec::new(heap);
    for call in calls {
        answers.push(perform_both(a, b, *call))?;
    }
    Ok(answers)
}
