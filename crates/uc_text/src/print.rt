ghost use Rattle.std.specs.Prelude.{◌≡◌, ◌<◌, ◌/◌, ◌%◌, decimal};
ghost use Rattle.uc_text.specs.Digits.{digit_at, hex8_of};

use arrayvec::ArrayVec;
use itoa::Buffer;

/// The shortest decimal spelling of `value`.
pub fn dec(value: u64) -> ArrayVec<u8, 20>
    ensures { result.items ≡ decimal value }
{
    let mut digits = ArrayVec::new();
    digits
        .try_extend_from_slice(Buffer::new().format(value).as_bytes())
        .unwrap();
    digits
}

/// `0x` and the eight lower-case hexadecimal digits of `value`.
#[tactic(auto, unfolding(crate::specs::Digits::hex8_of))]
pub fn hex8(value: u32) -> [u8; 10]
    ensures { result ≡ hex8_of value }
{
    let digit = |place: u32| hex_digit_at(value, place);
    [
        b'0',
        b'x',
        digit(7),
        digit(6),
        digit(5),
        digit(4),
        digit(3),
        digit(2),
        digit(1),
        digit(0),
    ]
}

/// The character of the hexadecimal digit of `value` at a place counted from the lowest.
fn hex_digit_at(value: u32, place: u32) -> u8
    requires { place < 8 }
    ensures { result ≡ digit_at value place }
{
    let digit = (value >> (4 * place)) % 16;
    b"0123456789abcdef"[digit as usize]
}
