//! Numbers as a map file writes them.
ghost use Rattle.std.specs.Prelude.{◌≡◌, ◌≤◌, ◌<◌, cond, nat_lt};
ghost use Rattle.std.specs.Char.{digit_value};
ghost use Rattle.std.specs.declared.option.Option.TheVariants.{None, Some};
ghost use Rattle.rescue_text.specs.Lines.{decimal_number, number, numeral};

/// The number that a whole text spells: decimal digits without a leading zero, or `0x` and hexadecimal digits of either
/// case, leading zeros and all. `None` for any other text, and for a number from 2 to the power 64 on.
///
/// Source: the positions and sizes of the map file of GNU ddrescue.
pub(crate) fn read_number(text: &[u8]) -> Option<u64>
    ensures { result ≡ number text.now }
{
    match text {
        [b'0', b'x', digits @ ..] => read_numeral(digits, 16),
        _ => read_decimal(text),
    }
}

/// The number that a whole text spells in decimal digits, without a leading zero.
pub(crate) fn read_decimal(text: &[u8]) -> Option<u64>
    ensures { result ≡ decimal_number text.now }
{
    match text {
        [b'0', _, ..] => None,
        _ => read_numeral(text, 10),
    }
}

/// The number that digits spell in a radix.
fn read_numeral(digits: &[u8], radix: u32) -> Option<u64>
    requires least { 2 ≤ radix }
    requires most { radix ≤ 36 }
    ensures { result ≡ numeral radix digits.now }
{
    if digits.is_empty() {
        return None;
    }
    let mut value: u64 = 0;
    for byte in digits {
        let digit = char::from(*byte).to_digit(radix)?;
        value = value
            .checked_mul(u64::from(radix))?
            .checked_add(u64::from(digit))?;
    }
    Some(value)
}
