// What a line names first.

// The family that a line names by its first character.
#[derive(Clone, Copy, PartialEq, Eq, Debug)]
pub enum Version {
    Four,
    Six,
}
