ghost use Rattle.std.specs.Prelude.{◌≡◌, ◌≤◌, length, option_map, IfSome};
ghost use Rattle.std.specs.List.{list_all};
ghost use Rattle.vm_field.specs.Limits.{most_name_bytes};
ghost use Rattle.vm_field.specs.FileName.{is_file_name, is_name_byte as name_byte, begins_with_dash as first_is_dash};
ghost use Rattle.cmd_words.specs.Words.{file_name_of, number_of_word};

use vm_field::{Felt, MOST_NAME_BYTES};

/// The word as a file name, if it is one.
pub fn file_name(word: &[u8]) -> Option<&str>
    ensures name { option_map (λ n. n.now) result ≡ file_name_of word.entry.now }
    ensures short { IfSome result (λ n. length n.now ≤ most_name_bytes) }
{
    let Ok(name) = std::str::from_utf8(word) else {
        return None;
    };
    if is_name(word) { Some(name) } else { None }
}

/// The word as a number from `least` to `most`, if it is one: decimal digits without sign or leading
/// zero.
pub fn number_in(least: u64, most: u64, word: &[u8]) -> Option<u64>
    ensures number { result ≡ number_of_word least most word.now }
    ensures large { IfSome result (λ n. least ≤ n) }
    ensures small { IfSome result (λ n. n ≤ most) }
{
    let number = Felt::read_decimal(word)?.value();
    if least <= number && number <= most {
        Some(number)
    } else {
        None
    }
}

fn is_name(word: &[u8]) -> bool
    ensures { result ≡ is_file_name word.now }
{
    1 <= word.len()
        && word.len() <= MOST_NAME_BYTES
        && has_name_bytes(word)
        && !begins_with_dash(word)
}

fn has_name_bytes(word: &[u8]) -> bool
    ensures { result ≡ list_all name_byte word.now }
{
    word.iter().all(|byte| is_name_byte(*byte))
}

fn begins_with_dash(word: &[u8]) -> bool
    ensures { result ≡ first_is_dash word.now }
{
    word.first() == Some(&b'-')
}

fn is_name_byte(byte: u8) -> bool
    ensures { result ≡ name_byte byte }
{
    byte.is_ascii_alphanumeric() || matches!(byte, b'.' | b'_' | b'-' | b'/')
}
