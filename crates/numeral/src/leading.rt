// What a reader found at the front of a text.

// A value read from the front of a text, and the rest of that text.
#[derive(Clone, Copy, PartialEq, Eq, Debug)]
pub struct Leading<'a, T> {
    pub value: T,
    pub rest: &'a [u8],
}
