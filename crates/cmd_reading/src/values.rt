//! The names of files and the numbers that the texts of words give.
ghost use Rattle.std.specs.Prelude.{◌≡◌, ◌≤◌, length, option_map, IfSome};
ghost use Rattle.vm_field.specs.Limits.{most_name_bytes};
ghost use Rattle.cmd_words.specs.Words.{file_name_of, number_of_word, optional};
ghost use Rattle.cmd_reading.specs.Meaning.{text_at, texts_read};
ghost use Rattle.cmd_reading.specs.Values.{name_in, number_in as number_at_place, option_name, option_number, option_number_or_most};

use crate::reading::ReadWords;
use cmd_words::{file_name, number_in};

/// The file name at a place.
pub fn place_name<'a>(read: &ReadWords<'a>, i: usize) -> Option<&'a str>
    ensures name { option_map (λ n. n.now) result ≡ name_in i (texts_read read.now).places }
    ensures short { IfSome result (λ n. length n.now ≤ most_name_bytes) }
{
    match read.place(i) {
        Some(text) => file_name(text.as_bytes()),
        None => None,
    }
}

/// The number from `least` to `most` at a place.
pub fn place_number(least: u64, most: u64, read: &ReadWords<'_>, i: usize) -> Option<u64>
    ensures number { result ≡ number_at_place least most i (texts_read read.now).places }
    ensures large { IfSome result (λ n. least ≤ n) }
    ensures small { IfSome result (λ n. n ≤ most) }
{
    match read.place(i) {
        Some(text) => number_in(least, most, text.as_bytes()),
        None => None,
    }
}

/// The file name that an option which must stand gives. `None` where its text is no file name.
pub fn needed_name<'a>(read: &ReadWords<'a>, i: usize) -> Option<Option<&'a str>>
    ensures name { option_map (λ o. option_map (λ n. n.now) o) result ≡ option_name i (texts_read read.now).needed }
    ensures short { IfSome result (λ o. IfSome o (λ n. length n.now ≤ most_name_bytes)) }
{
    optional_name(read.needed(i))
}

/// The file name that an option which may stand gives, if it stands. `None` where its text is no
/// file name.
pub fn free_name<'a>(read: &ReadWords<'a>, i: usize) -> Option<Option<&'a str>>
    ensures name { option_map (λ o. option_map (λ n. n.now) o) result ≡ option_name i (texts_read read.now).free }
    ensures short { IfSome result (λ o. IfSome o (λ n. length n.now ≤ most_name_bytes)) }
{
    optional_name(read.free(i))
}

/// The number from `least` to `most` that an option which must stand gives. `None` where its text is
/// no such number.
pub fn needed_number(least: u64, most: u64, read: &ReadWords<'_>, i: usize) -> Option<Option<u64>>
    ensures number { result ≡ option_number least most i (texts_read read.now).needed }
    ensures large { IfSome result (λ o. IfSome o (λ n. least ≤ n)) }
    ensures small { IfSome result (λ o. IfSome o (λ n. n ≤ most)) }
{
    optional_number(least, most, read.needed(i))
}

/// The number from `least` to `most` that an option which may stand gives, if it stands. `None`
/// where its text is no such number.
pub fn free_number(least: u64, most: u64, read: &ReadWords<'_>, i: usize) -> Option<Option<u64>>
    ensures number { result ≡ option_number least most i (texts_read read.now).free }
    ensures large { IfSome result (λ o. IfSome o (λ n. least ≤ n)) }
    ensures small { IfSome result (λ o. IfSome o (λ n. n ≤ most)) }
{
    optional_number(least, most, read.free(i))
}

/// The number from `least` to `most` that an option which may stand gives, and `most` where it does
/// not stand. `None` where its text is no such number.
pub fn free_number_or_most(least: u64, most: u64, read: &ReadWords<'_>, i: usize) -> Option<u64>
    requires some { least ≤ most }
    ensures number { result ≡ option_number_or_most least most i (texts_read read.now).free }
    ensures large { IfSome result (λ n. least ≤ n) }
    ensures small { IfSome result (λ n. n ≤ most) }
{
    match free_number(least, most, read, i) {
        Some(Some(number)) => Some(number),
        Some(None) => Some(most),
        None => None,
    }
}

// A text as a number from `least` to `most`, if there is a text.
fn optional_number(least: u64, most: u64, text: Option<&str>) -> Option<Option<u64>>
    ensures number { result ≡ optional (number_of_word least most) (option_map (λ t. t.now) text.entry) }
    ensures large { IfSome result (λ o. IfSome o (λ n. least ≤ n)) }
    ensures small { IfSome result (λ o. IfSome o (λ n. n ≤ most)) }
{
    match text {
        Some(text) => match number_in(least, most, text.as_bytes()) {
            Some(number) => Some(Some(number)),
            None => None,
        },
        None => Some(None),
    }
}

// A text as a file name, if there is a text.
fn optional_name(text: Option<&str>) -> Option<Option<&str>>
    ensures name { option_map (λ o. option_map (λ n. n.now) o) result ≡ optional file_name_of (option_map (λ t. t.now) text.entry) }
    ensures short { IfSome result (λ o. IfSome o (λ n. length n.now ≤ most_name_bytes)) }
{
    match text {
        Some(text) => match file_name(text.as_bytes()) {
            Some(name) => Some(Some(name)),
            None => None,
        },
        None => Some(None),
    }
}
