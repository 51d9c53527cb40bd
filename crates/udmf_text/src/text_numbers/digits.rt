//! Digits.

ghost use Rattle.std.specs.Prelude.{◌≡◌, ◌<◌, ◌≤◌, ◌^◌, IfSome, length};
ghost use Rattle.udmf_text.specs.TextNumbers.Whole.{digit_of, digits_of, value_in, are_digits};

/// What a digit of hexadecimal counts; 16 for another byte.
pub fn digit(byte: u8) -> u8
    ensures value { result ≡ digit_of byte }
    ensures within { result ≤ 16 }
{
    if byte >= b'0' && byte <= b'9' {
        return byte - b'0';
    }
    if byte >= b'a' && byte <= b'f' {
        return byte - b'a' + 10;
    }
    if byte >= b'A' && byte <= b'F' {
        return byte - b'A' + 10;
    }
    16
}

/// The number that these digits spell in this base; None where there are none, or another byte is among them.
pub fn digits_in(base: u128, word: &[u8]) -> Option<u128>
    requires base { base ≤ 16 }
    requires short { length word.now ≤ 30 }
    ensures value { result ≡ digits_of base word.now }
    ensures within { IfSome result (λ n. n < 16 ^ 30) }
{
    if word.is_empty() {
        return None;
    }
    let mut value = 0u128;
    let mut rest = word;
    while let [byte, more @ ..] = rest {
        let digit = u128::from(digit(*byte));
        if digit >= base {
            return None;
        }
        value = base * value + digit;
        rest = more;
    }
    Some(value)
}
