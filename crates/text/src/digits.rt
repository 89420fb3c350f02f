// Hexadecimal digits.
ghost use Rattle.std.specs.Prelude.{◌≡◌, ◌+◌, ◌*◌, ◌^◌, ◌<◌, ◌≤◌, length, unwrap_or};
ghost use Rattle.text.specs.Text.{hex_digit, value as value_of_digits};

// The value of a lower-case hexadecimal digit.
pub fn digit(c: char) -> Option<u64>
    ensures { result ≡ hex_digit c }
{
    match c {
        '0'..='9' => Some(c as u64 - '0' as u64),
        'a'..='f' => Some(c as u64 - 'a' as u64 + 10),
        _ => None,
    }
}

// The value with one more digit behind it.
fn with_digit(value: u64, byte: u8) -> u64
    requires { value < 2 ^ 60 }
    ensures { result ≡ value * 16 + unwrap_or (hex_digit byte) 0 }
{
    value * 16 + digit(byte as char).unwrap_or(0)
}

// The number that the digits write, the highest first.
pub(crate) fn value(digits: &[u8]) -> u64
    requires { length digits.now ≤ 16 }
    ensures { result ≡ value_of_digits digits.now }
{
    digits
        .iter()
        .fold(0, |value, byte| with_digit(value, *byte))
}
