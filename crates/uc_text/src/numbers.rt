ghost use Rattle.std.specs.Prelude.{◌≡◌, ◌≤◌, ◌^◌, Some, length, take, IfSome};
ghost use Rattle.uc_text.specs.Numbers.{below, spelled_in, number_of};

/// A number to which one more digit can be put without passing 32 bits.
const ROOM_FOR_A_DIGIT: u32 = 400_000_000;

/// The number that a text spells: one or more decimal digits, or `0x` and one or more hexadecimal digits of either
/// case. `None` where the text is no such spelling, or where the number passes the greatest `u64`.
#[tactic(auto, unfolding(crate::specs::Numbers::spelled))]
pub fn number(text: &[u8]) -> Option<u64>
    ensures { result ≡ number_of text.now }
{
    match text {
        [b'0', b'x', digits @ ..] => number_in(16, digits),
        _ => number_in(10, text),
    }
}

/// The number that digits of a radix spell.
fn number_in(radix: u32, digits: &[u8]) -> Option<u64>
    requires least { 2 ≤ radix }
    requires greatest { radix ≤ 36 }
    ensures { result ≡ below (2 ^ 64) (spelled_in radix digits.now) }
{
    if digits.is_empty() {
        return None;
    }
    let mut value = 0u64;
    for byte in digits {
        let digit = char::from(*byte).to_digit(radix)?;
        value = value
            .checked_mul(u64::from(radix))?
            .checked_add(u64::from(digit))?;
    }
    Some(value)
}

/// The number that the decimal digits at the front of a text spell, and how many they are. `None` where there is none, and
/// where there are so many that the number may pass 32 bits.
pub fn leading_number(text: &[u8]) -> Option<(u32, usize)>
    ensures { IfSome result (λ found. (found.1 ≤ length text.now) × (spelled_in 10 (take found.1 text.now) ≡ Some found.0)) }
{
    let mut value = 0u32;
    let mut count = 0;
    for byte in text {
        if *byte < b'0' || *byte > b'9' {
            break;
        }
        if value > ROOM_FOR_A_DIGIT {
            return None;
        }
        value = value * 10 + u32::from(*byte - b'0');
        count += 1;
    }
    if count == 0 {
        return None;
    }
    Some((value, count))
}
