use cmd_reading::{ReadWords, WordsStop, read_words, texts_of};
use cmd_words::{file_name, number_in};
use std::alloc::Global;
use std::process::Abort;
use std::test::Fail;
use vm_field::Memory;

static PLACES: [&str; 3] = ["params", "source", "inputs"];

static FREE: [&str; 2] = ["kernel", "limit"];

/// The words behind a command of three names, a name `--kernel` and a number `--limit` from 1 to
/// 524,287, which is that where it is not given; the third name, the kernel's and the limit.
type Row = (&'static [&'static str], &'static str, &'static str, u64);

static READ: [Row; 6] = [
    (&["z", "s", "i"], "i", "", 524287),
    (&["--kernel", "k", "z", "s", "i"], "i", "k", 524287),
    (
        &["z", "--kernel=k", "s", "--limit", "3", "a/b"],
        "a/b",
        "k",
        3,
    ),
    (&["z", "s", "i", "--limit=524287", "--"], "i", "", 524287),
    (&["--", "z", "s", "i"], "i", "", 524287),
    (&["--limit", "1", "z", "--", "s", "i"], "i", "", 1),
];

// Words of no such form.
static REFUSED: [&[&str]; 24] = [
    &["z", "s"],
    &["z", "s", "i", "j"],
    &["z", "s", "i", "--limit", "0"],
    &["z", "s", "i", "--limit=524288"],
    &["z", "s", "i", "--limit="],
    &["z", "s", "i", "--limit"],
    &["z", "s", "i", "--limit", "01"],
    &["z", "s", "i", "--limit", "+1"],
    &["z", "s", "i", "--limit", "-5"],
    &["z", "s", "i", "--limit", "123456789012345678901234567890"],
    &["z", "s", "i", "--limit", "3", "--limit", "3"],
    &["--kernel", "k", "z", "s", "i", "--kernel=k"],
    &["z", "s", "i", "--out", "t"],
    &["z", "s", "i", "--=x"],
    &["z", "s", "-i"],
    &["z", "s", "-"],
    &["z", "--", "s", "--"],
    &["z", "s", "i", "--kernel", "--"],
    &["--", "z", "s", "i", "--kernel", "k"],
    &["z", "s", "i", "--lim", "3"],
    &["z", "s", "i", "--kernel="],
    &["z", "s", "i", "--kernel=a=b"],
    &["z", "s", "i", "--help"],
    &["z", "s", "a b"],
];

fn words_of(alloc: Global, texts: &[&str]) -> Result<Vec<Vec<u8>>, Memory> {
    let mut words = Vec::new(alloc);
    for text in texts {
        words.push(Vec::from_slice(alloc, text.as_bytes())?)?;
    }
    Ok(words)
}

// The third name, the kernel's and the limit, where the texts are names and a number.
fn named<'a>(read: &ReadWords<'a>) -> Option<(&'a str, &'a str, u64)> {
    let third = file_name(read.place(2)?.as_bytes())?;
    let kernel = match read.free(0) {
        Some(text) => file_name(text.as_bytes())?,
        None => "",
    };
    let limit = match read.free(1) {
        Some(text) => number_in(1, 524_287, text.as_bytes())?,
        None => 524_287,
    };
    Some((third, kernel, limit))
}

// Whether the words are read as these names and this number. A limit 0 says that they are refused.
fn is_read(
    alloc: Global,
    words: &[Vec<u8>],
    third: &str,
    kernel: &str,
    limit: u64,
) -> Result<bool, Memory> {
    let texts = match texts_of(alloc, words) {
        Ok(texts) => texts,
        Err(WordsStop::Usage) => return Ok(limit == 0),
        Err(WordsStop::Memory) => return Err(Memory::Memory),
    };
    match read_words(alloc, &PLACES, &[], &FREE, texts.as_slice()) {
        Ok(read) => Ok(match named(&read) {
            Some((name, other, number)) => name == third && other == kernel && number == limit,
            None => limit == 0,
        }),
        Err(WordsStop::Usage) => Ok(limit == 0),
        Err(WordsStop::Memory) => Err(Memory::Memory),
    }
}

fn all_read(rt: &(impl Abort + AllocGlobal), rows: &[Row]) -> Result<(), Fail> {
    for row in rows {
        let (texts, third, kernel, limit) = *row;
        let words = words_of(rt.alloc(), texts)?;
        let holds = is_read(rt.alloc(), words.as_slice(), third, kernel, limit)?;
        assert!(rt; holds);
    }
    Ok(())
}

fn all_refused(rt: &(impl Abort + AllocGlobal), rows: &[&[&str]]) -> Result<(), Fail> {
    for texts in rows {
        let words = words_of(rt.alloc(), texts)?;
        let holds = is_read(rt.alloc(), words.as_slice(), "", "", 0)?;
        assert!(rt; holds);
    }
    Ok(())
}

#[test]
fn words_are_read(rt: HostRuntime) -> Result<(), Fail> {
    all_read(&rt, &READ)
}

#[test]
fn words_are_refused(rt: HostRuntime) -> Result<(), Fail> {
    all_refused(&rt, &REFUSED)
}
