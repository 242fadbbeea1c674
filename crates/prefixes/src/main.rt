// Reads texts of prefixes and addresses, one a line behind the digit of its family, and prints each
// in canonical form, or its fault: line, layer, number and column.
#![tactic(auto)]

ghost use Rattle.std.specs.Prelude.{◌≡◌, ℕ, List, [], ◌∷◌, ◌++◌, IfOk, Err, string_bytes, OnOk};
ghost use Rattle.prefixes.specs.Printing.{Line, Lines, printed};

mod answer;
mod cut;
mod line;

use answer::answer;
use fault::Fault;
use std::alloc::{AllocError, Global};
use std::io::{Read, Write};

// Adds the line of a canonical text to the output.
fn add_text(out: &mut Vec<u8>, text: &[u8]) -> Result<(), AllocError>
    ensures { OnOk result (out.new.items ≡ out.old.items ++ (43 ∷ (32 ∷ (text.now ++ (10 ∷ []))))) }
{
    out.extend_from_slice(b"+ ")?;
    out.extend_from_slice(text)?;
    out.push(b'\n')?;
    Ok(())
}

// The line of a fault that was met in line `number`.
fn fault_line(heap: Global, number: usize, fault: Fault) -> Result<String, AllocError>
    ensures { IfOk result (λ t. string_bytes t ≡ printed number [] (Err fault)) }
{
    format!(in heap; "! {number} {fault}\n")
}

// Adds the answer to a line, the `number`th, to the output.
fn report(heap: Global, out: &mut Vec<u8>, number: usize, line: &[u8]) -> Result<(), AllocError>
    ensures { OnOk result ((text : List ℕ) × Line number line.now text × (out.new.items ≡ out.old.items ++ text)) }
{
    let mut memory = [0u8; 43];
    match answer(line, &mut memory) {
        Ok(count) => add_text(out, &memory[..count])?,
        Err(fault) => out.extend_from_slice(fault_line(heap, number, fault)?.as_bytes())?,
    }
    Ok(())
}

// The answers to all lines of an input.
fn reports(heap: Global, input: &[u8]) -> Result<Vec<u8>, AllocError>
    ensures { IfOk result (λ out. Lines 1 input.now out.items) }
{
    let mut out = Vec::new(heap);
    for (number, line) in (1usize..).zip(input.split_inclusive(|byte| *byte == b'\n')) {
        let line = line.strip_suffix(b"\n").unwrap_or(line);
        report(heap, &mut out, number, line)?;
    }
    Ok(out)
}

fn main(rt: HostRuntime) -> anyhow::Result<()> {
    let heap = rt.alloc();
    let mut input = Vec::new(heap);
    rt.stdin().read_to_end(&mut input)?;
    let out = reports(heap, &input)?;
    rt.stdout().write_all(&out)?;
    Ok(())
}
