// The bits of a number, cut off or raised in one step, for any count.
ghost use Rattle.std.specs.Prelude.{◌≡◌, ◌-◌, ◌*◌, ◌/◌, ◌%◌, ◌^◌, ◌<◌};

// The number without its last k bits.
pub fn upper(n: u128, k: u8) -> u128
    ensures { result ≡ n / 2 ^ k }
{
    n.checked_shr(u32::from(k)).unwrap_or(0)
}

// The last k bits of the number.
pub fn lower(n: u128, k: u8) -> u128
    ensures { result ≡ n % 2 ^ k }
{
    match 1u128.checked_shl(u32::from(k)) {
        Some(unit) => n & (unit - 1),
        None => n,
    }
}

// The number with k zeros behind it, as far as they fit.
pub fn raised(n: u128, k: u8) -> u128
    ensures { result ≡ (n * 2 ^ k) % 2 ^ 128 }
{
    n.checked_shl(u32::from(k)).unwrap_or(0)
}
