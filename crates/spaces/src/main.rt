// Makes the same calls on a buddy tree and on a bitmap, and prints each answer and the memory of both.
#![tactic(auto)]

ghost use Rattle.std.specs.Prelude.{◌≤◌};

mod call;
mod read;

use anyhow::anyhow;
use bitmap::Bitmap;
use call::{Call, run};
use fault::Fault;
use numeral::number::number;
use read::read_call;
use std::alloc::{AllocFailed, Global};
use std::io::Read;
use tree::BuddyTree;

// What a line asks for.
#[derive(Drop)]
struct Run {
    depth: usize,
    calls: Vec<Call>,
}

// Why a line has no run: it is at fault, or there is no memory for its calls.
#[derive(Drop)]
enum Trouble {
    Fault(Fault),
    Memory,
}

impl From<Fault> for Trouble {
    fn from(fault: Fault) -> Trouble {
        Trouble::Fault(fault)
    }
}

impl<T: Drop> From<AllocFailed<T>> for Trouble {
    fn from(_refused: AllocFailed<T>) -> Trouble {
        Trouble::Memory
    }
}

// Reads a line: its depth and its calls. The fault of the first field at fault has that field's column.
fn read_run(heap: Global, line: &str) -> Result<Run, Trouble> {
    let mut fields = line.split(' ');
    let first = fields.next().unwrap_or("");
    let depth = number(first.as_bytes(), 65535)? as usize;
    let mut calls = Vec::new(heap);
    let mut column = first.len() + 2;
    for field in fields {
        let call = read_call(field.as_bytes()).map_err(|fault| fault.at(column))?;
        calls.push(call)?;
        column = column.saturating_add(field.len() + 1);
    }
    Ok(Run { depth, calls })
}

// The units of a space of this depth; 0 where it would be shut.
fn units_of(depth: usize) -> usize
    ensures { result ≤ 4096 }
{
    match depth {
        1..=12 => 1 << depth,
        _ => 0,
    }
}

// Prints the answers to a line's calls, first the tree's and then the bitmap's, and the memory that they leave.
fn report(rt: HostRuntime, asked: &Run) -> anyhow::Result<()> {
    let heap = rt.alloc();
    let units = units_of(asked.depth);
    let mut bytes = vec![in heap; 0u8; 2 * units]?;
    let mut words = vec![in heap; 0u64; 2 * units.div_ceil(64)]?;
    {
        let mut tree = BuddyTree::new(asked.depth, &mut bytes);
        let mut map = Bitmap::new(asked.depth, &mut words);
        for both in run(heap, &mut tree, &mut map, &asked.calls)? {
            println!(rt; "{} {}", both.one, both.other)?;
        }
    }
    println!(rt; "tree {bytes:?}")?;
    println!(rt; "bitmap {words:?}")?;
    Ok(())
}

// Answers a line, the `number`th.
fn answer(rt: HostRuntime, number: usize, line: &str) -> anyhow::Result<()> {
    match read_run(rt.alloc(), line) {
        Ok(asked) => report(rt, &asked),
        Err(Trouble::Memory) => Err(anyhow!("no memory")),
        Err(Trouble::Fault(fault)) => {
            println!(rt; "! {number} {fault}")?;
            Ok(())
        }
    }
}

fn main(rt: HostRuntime) -> anyhow::Result<()> {
    let mut input = String::new(rt.alloc());
    rt.stdin().read_to_string(&mut input)?;
    for (number, line) in (1usize..).zip(input.lines()) {
        answer(rt, number, line)?;
    }
    Ok(())
}
