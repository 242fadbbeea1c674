// Why anything is refused: the closed list of causes, and the fault that carries one upward, whole.
#![tactic(auto)]

ghost use Rattle.std.specs.Prelude.{◌≡◌, Some};
ghost use Rattle.fault.specs.Causes.{number, layer, letter, alone, moved, shown};

use std::fmt;

// A reason of refusal, with the number by which it is reported. docs/RULES.md has the table of causes.
#[derive(Clone, Copy, PartialEq, Eq, Debug)]
pub enum Cause {
    Malformed = 1,
    LengthAboveWidth = 2,
    HostBitSet = 3,
    MemoryTooShort = 13,
}

// The part of the product that refuses: texts, prefixes, or the plan and its memory.
#[derive(Clone, Copy, PartialEq, Eq, Debug)]
pub enum Layer {
    Text,
    Prefix,
    Plan,
}

impl Cause {
    // The number by which a cause is reported.
    pub fn number(self) -> u8
        ensures { result ≡ number self }
    {
        self as u8
    }

    // The layer that refuses for this cause.
    pub fn layer(self) -> Layer
        ensures { result ≡ layer self }
    {
        match self {
            Cause::Malformed => Layer::Text,
            Cause::LengthAboveWidth | Cause::HostBitSet => Layer::Prefix,
            Cause::MemoryTooShort => Layer::Plan,
        }
    }
}

impl Layer {
    // The letter by which a layer is reported.
    pub fn letter(self) -> char
        ensures { result ≡ letter self }
    {
        match self {
            Layer::Text => 't',
            Layer::Prefix => 'k',
            Layer::Plan => 'p',
        }
    }
}

// A cause and the column where it was met, counted from 1. Number and layer are the cause's own, so
// no fault can pair a cause with another's number.
#[derive(Clone, Copy, PartialEq, Eq, Debug)]
pub struct Fault {
    pub cause: Cause,
    pub column: usize,
}

impl Fault {
    // The fault of what is judged alone, outside any line: its column is 1.
    pub fn alone(cause: Cause) -> Fault
        ensures { result ≡ alone cause }
    {
        Fault { cause, column: 1 }
    }

    // The same fault, met at another column: what a line adds to the fault of one of its fields.
    pub fn at(self, column: usize) -> Fault
        ensures { result ≡ moved column self }
    {
        Fault { column, ..self }
    }
}

// A fault as a report prints it: the letter of its layer, its number and its column, one space apart.
impl fmt::Display for Fault {
    ghost output = { λ f. Some (shown f) };

    fn fmt<W: fmt::Write>(&self, f: &mut fmt::Formatter<W>) -> fmt::Result {
        let Fault { cause, column } = *self;
        write!(f, "{} {} {column}", cause.layer().letter(), cause.number())
    }
}
