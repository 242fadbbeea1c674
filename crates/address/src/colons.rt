// IPv6 addresses in text: groups joined by colons, two colons once for one or more zero groups.
ghost use Rattle.std.specs.Prelude.{◌≡◌, ℕ, ◌≤◌, false, List, ◌++◌, length, take, drop, MatchOption, MatchResult};
ghost use Rattle.fault.specs.Causes.{alone};
ghost use Rattle.fault.specs.declared.Cause.TheVariants.{Malformed};
ghost use Rattle.address.specs.Colons.{Address};
ghost use Rattle.address.specs.Canonical.{colons, text6};
ghost use Rattle.address.specs.Steps.{more, Next, Took};

use crate::zeros::leftmost_run;
use fault::{Cause, Fault};
use numeral::draft::Draft;
use numeral::group::leading_group;
use numeral::leading::Leading;

// The group that begins a text behind `count` others: the first at once, any other behind a colon.
fn next_group(text: &[u8], count: usize) -> Option<Leading<'_, u16>>
    ensures { MatchOption result
        (more count text.now ≡ false)
        (λ g. Next count text.now g.value g.rest.now) }
{
    match (count, text) {
        (0, _) => leading_group(text),
        (_, [b':', rest @ ..]) => leading_group(rest),
        _ => None,
    }
}

// Reads groups joined by colons from the front of a text to the front of `into`, as many as there
// are and as it holds; the value is how many. What is behind them in `into` stays.
fn read_groups<'a>(text: &'a [u8], into: &mut [u16]) -> Leading<'a, usize>
    ensures groups { Took (length into.old) text.now (take result.value into.new) result.rest.now }
    ensures within { result.value ≤ length into.old }
    ensures behind { drop result.value into.new ≡ drop result.value into.old }
{
    let mut rest = text;
    for (count, place) in into.iter_mut().enumerate() {
        let Some(group) = next_group(rest, count) else {
            return Leading { value: count, rest };
        };
        *place = group.value;
        rest = group.rest;
    }
    Leading {
        value: into.len(),
        rest,
    }
}

// Reads a whole text into a lent address, which a refusal leaves as it was: it is written last.
pub fn read(text: &[u8], into: &mut [u16; 8]) -> Result<(), Fault>
    ensures { MatchResult result
        (λ _. Address text.now into.new)
        (λ f. (f ≡ alone Malformed) × (into.new ≡ into.old) × ((gs : List ℕ) → Address text.now gs → ⊥)) }
{
    let mut groups = [0u16; 8];
    let head = read_groups(text, &mut groups);
    match head.rest {
        [] if head.value == 8 => {}
        // Two colons stand for a group or more, so the tail has at most seven less the head's.
        [b':', b':', behind @ ..] if head.value < 8 => {
            let mut last = [0u16; 8];
            let tail = read_groups(behind, &mut last[..7 - head.value]);
            if !tail.rest.is_empty() {
                return Err(Fault::alone(Cause::Malformed));
            }
            groups[8 - tail.value..].copy_from_slice(&last[..tail.value]);
        }
        _ => return Err(Fault::alone(Cause::Malformed)),
    }
    *into = groups;
    Ok(())
}

// Groups in hexadecimal, joined by colons.
fn push_groups(draft: &mut Draft, groups: &[u16])
    requires { length draft.old ≤ 43 }
    ensures { draft.new ≡ take 43 (draft.old ++ colons groups.now) }
{
    let [first, rest @ ..] = groups else {
        return;
    };
    draft.hex(*first);
    for g in rest {
        draft.push(b':');
        draft.hex(*g);
    }
}

// The canonical text of an address.
pub fn write(groups: [u16; 8]) -> Draft
    ensures { result ≡ text6 groups }
{
    let mut draft = Draft::new();
    match leftmost_run(&groups) {
        None => push_groups(&mut draft, &groups),
        Some(gap) => {
            push_groups(&mut draft, &groups[..gap.start]);
            draft.push(b':');
            draft.push(b':');
            push_groups(&mut draft, &groups[gap.end..]);
        }
    }
    draft
}
