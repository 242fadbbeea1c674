// Cutting a text at a byte: a line into fields.
ghost use Rattle.std.specs.Prelude.{◌≡◌, ◌<◌, ◌≤◌, length, take, slice_index};
ghost use Rattle.std.specs.Str.Iter.{LacksByte as Without};

// Where a text's first part ends: at the first `stop`, or with the text.
pub fn part_end(text: &[u8], stop: u8) -> usize
    ensures within { result ≤ length text.now }
    ensures part { Without stop (take result text.now) }
    ensures behind { result < length text.now → slice_index text.now result ≡ stop }
{
    text.iter()
        .position(|byte| *byte == stop)
        .unwrap_or(text.len())
}
