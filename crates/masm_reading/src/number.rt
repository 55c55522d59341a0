ghost use Rattle.std.specs.Prelude.{◌≡◌, ◌<◌, ◌≤◌, ◌^◌, length};
ghost use Rattle.masm_reading.specs.Numbers.{digit_of, digit_value, value_from, value_within, number};

// The value of a hexadecimal digit; 16 for another byte.
fn hexadecimal_value(byte: u8) -> u8
    ensures { result ≡ digit_value byte }
{
    match byte {
        b'0'..=b'9' => byte - b'0',
        b'a'..=b'f' => byte - b'a' + 10,
        b'A'..=b'F' => byte - b'A' + 10,
        _ => 16,
    }
}

// The value of one to `most` digits.
fn digits_value(base: u8, most: usize, digits: &[u8]) -> Option<u128>
    requires base { base ≤ 16 }
    requires most { most ≤ 20 }
    ensures { result ≡ value_within base most digits.now }
{
    if digits.is_empty() || digits.len() > most {
        return None;
    }
    let mut value = 0u128;
    for byte in digits {
        let digit = hexadecimal_value(*byte);
        if digit >= base {
            return None;
        }
        value = value * base as u128 + digit as u128;
    }
    Some(value)
}

/// The number that a text spells, by 1 to 20 decimal digits, or by `0x` and 1 to 16 hexadecimal
/// digits.
#[tactic(auto, unfolding(crate::specs::Numbers::number))]
pub fn read_number(text: &[u8]) -> Option<u128>
    ensures { result ≡ number text.now }
{
    if text.len() >= 2 && text[0] == b'0' && text[1] == b'x' {
        digits_value(16, 16, &text[2..])
    } else {
        digits_value(10, 20, text)
    }
}
