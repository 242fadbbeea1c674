// A row of a table of blocks: a bare address and length, which need not make a prefix.

#[derive(Clone, Copy, PartialEq, Eq, Debug)]
pub struct Row<A> {
    pub address: A,
    pub length: u8,
}
