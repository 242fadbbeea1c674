// The draft that a text is written to before it is handed out: contracts see a draft as its text.
use std::marker::Model;

// The longest text of a prefix, of either family: eight groups of four digits, seven colons, a slash
// and three digits.
pub const LONGEST: usize = 43;

// The bytes of a text so far, at most `LONGEST`; the first `len` of them count, and the rest are 0.
#[derive(Clone, Copy)]
pub struct Draft {
    pub(crate) bytes: [u8; LONGEST],
    pub(crate) len: usize,
}

impl Model for Draft {
    ghost use Rattle.std.specs.Prelude.{ℕ, List, take};

    ghost Value = { List ℕ };

    ghost use Rattle.numeral.specs.Drafts.{IsPadded, padded, padded_text};

    ghost view = { λ d. take d.len d.bytes };

    ghost invariant = { IsPadded };

    ghost inverse = { padded };

    ghost inverse_ok = { padded_text };
}
