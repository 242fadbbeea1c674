// The answer to a line: the canonical text of what it spells, or its fault.
ghost use Rattle.std.specs.Prelude.{◌≡◌, ℕ, ◌≤◌, ◌∷◌, length, IfOk, if◌then◌else◌, MatchResult, Result};
ghost use Rattle.fault.specs.declared.Fault.{Fault as Faults};
ghost use Rattle.prefixes.specs.Lines.{Answered, NoHead, Rewrites, alone_digit, at_text, digit, malformed};

use crate::cut::part_end;
use crate::line::Version;
use fault::{Cause, Fault};
use prefix::four::V4;
use prefix::six::V6;
use text::rewriting::rewrite;

// The family of a line, and the text behind its digit and space.
fn version(line: &[u8]) -> Result<(Version, &[u8]), Fault>
    ensures { MatchResult result
        (λ p. line.now ≡ digit p.0 ∷ (32 ∷ p.1.now))
        (λ f. NoHead line.now × (f ≡ malformed (if alone_digit line.now then 2 else 1))) }
{
    match line {
        [b'4', b' ', rest @ ..] => Ok((Version::Four, rest)),
        [b'6', b' ', rest @ ..] => Ok((Version::Six, rest)),
        [b'4'] | [b'6'] => Err(Fault::alone(Cause::Malformed).at(2)),
        _ => Err(Fault::alone(Cause::Malformed)),
    }
}

// Rewrites a line's text in the family that the line names. The text begins at column 3.
fn rewrite_in(version: Version, text: &[u8], memory: &mut [u8]) -> Result<usize, Fault>
    ensures { (r : Result ℕ Faults) × Rewrites version text.now memory.old memory.new r × (result ≡ at_text r) }
{
    let rewritten = match version {
        Version::Four => rewrite::<V4>(text, memory),
        Version::Six => rewrite::<V6>(text, memory),
    };
    rewritten.map_err(|fault| fault.at(3))
}

// Answers a line: the canonical text of what it spells to the front of lent memory, with its count.
pub fn answer(line: &[u8], memory: &mut [u8]) -> Result<usize, Fault>
    ensures cases { Answered line.now memory.old memory.new result }
    ensures bound { IfOk result (λ n. n ≤ length memory.old) }
{
    let (version, rest) = version(line)?;
    let end = part_end(rest, b' ');
    let text = &rest[..end];
    if end < rest.len() {
        let mut blank = [0u8; 43];
        rewrite_in(version, text, &mut blank)?;
        return Err(Fault::alone(Cause::Malformed).at(end + 4));
    }
    rewrite_in(version, text, memory)
}
