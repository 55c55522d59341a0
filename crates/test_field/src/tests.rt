use std::alloc::Global;
use std::test::Fail;
use vm_field::{
    Bytes, Felt, Felts, Memory, Sequence, Word, Words, felt_at, field_laws, machine_laws,
    text_laws, types_cross,
};

const LAST: u64 = 18446744069414584320;

fn felt(number: u64) -> Felt {
    Felt::try_from_u64(number).unwrap_or(Felt::ZERO)
}

fn results() -> [Felt; 10] {
    let two = Felt::ONE + Felt::ONE;
    let last = felt(LAST);
    [
        last + two,
        Felt::ONE - two,
        -last,
        last * last,
        last.add(two),
        Felt::ZERO.pow(0),
        two.pow(64),
        two.pow(96),
        two.inv(),
        Felt::from_u32(4294967295),
    ]
}

static RESULTS: [u64; 10] = [
    1,
    LAST,
    1,
    1,
    1,
    1,
    4294967295,
    LAST,
    9223372034707292161,
    4294967295,
];

// A number, and its seventh root.
static ROOTS: [(u64, u64); 5] = [(0, 0), (1, 1), (128, 2), (2187, 3), (823543, 7)];

fn are(elements: &[Felt; 10], numbers: &[u64; 10]) -> bool {
    for i in 0..10 {
        if elements[i].value() != numbers[i] {
            return false;
        }
    }
    true
}

fn have_roots(rows: &[(u64, u64)]) -> bool {
    for (power, root) in rows {
        if felt(*power).root7().value() != *root {
            return false;
        }
    }
    true
}

#[test]
fn computes_modulo_the_prime(rt: HostRuntime) {
    assert!(rt; are(&results(), &RESULTS));
    assert!(rt; have_roots(&ROOTS));
    assert!(rt; Felt::try_from_u64(LAST + 1).is_err());
}

static DECIMALS: [(&[u8], u64); 4] = [
    (b"0", 0),
    (b"7", 7),
    (b"4294967296", 4294967296),
    (b"18446744069414584320", LAST),
];

static NO_DECIMALS: [&[u8]; 9] = [
    b"",
    b"00",
    b"01",
    b"+1",
    b"-0",
    b"1a",
    b"1 ",
    b"18446744069414584321",
    b"18446744073709551617",
];

fn reads(rows: &[(&[u8], u64)]) -> bool {
    for (text, number) in rows {
        if Felt::read_decimal(text) != Some(felt(*number)) {
            return false;
        }
    }
    true
}

fn refuses(texts: &[&[u8]]) -> bool {
    for text in texts {
        if Felt::read_decimal(text).is_some() || Word::from_hex(text).is_some() {
            return false;
        }
    }
    true
}

#[test]
fn reads_canonical_decimals(rt: HostRuntime) -> Result<(), Fail> {
    assert!(rt; reads(&DECIMALS));
    assert!(rt; refuses(&NO_DECIMALS));
    assert!(rt; felt(LAST).decimal(rt.alloc())?.as_str() == "18446744069414584320");
    Ok(())
}

static WORD: &str = "00000000000000ffffffffff0000000000000000000000000123456789abcdef";

static UPPER: &[u8] = b"00000000000000FFFFFFFFFF0000000000000000000000000123456789aBcDeF";

static NO_WORDS: [&[u8]; 3] = [
    b"00000000000000ffffffffff0000000000000000000000000123456789abcde",
    b"00000000000000ffffffffff0000000100000000000000000123456789abcdef",
    b"00000000000000ffffffffff0000000000000000000000000123456789abcdeg",
];

fn word() -> Word {
    Word([felt(255), felt(LAST), Felt::ZERO, felt(0x0123456789abcdef)])
}

fn writes(alloc: Global, word: &Word, text: &str) -> Result<bool, Memory> {
    Ok(word.hex(alloc)?.as_str() == text && format!(in alloc; "{word}")?.as_str() == text)
}

#[test]
fn reads_and_writes_words(rt: HostRuntime) -> Result<(), Fail> {
    assert!(rt; writes(rt.alloc(), &word(), WORD)?);
    assert!(rt;
        Word::from_hex(WORD.as_bytes()) == Some(word()) && Word::from_hex(UPPER) == Some(word())
    );
    assert!(rt; refuses(&NO_WORDS));
    Ok(())
}

fn keeps_elements(alloc: Global) -> Result<bool, Memory> {
    let mut elements = Felts::new(alloc);
    let was_empty = elements.is_empty();
    elements.push(Felt::ONE)?;
    let elements = Felts::copied(alloc, elements.as_slice())?;
    let same = elements == Felts::from_vec(vec![in alloc; Felt::ONE]?);
    Ok(was_empty && same && elements.len() == 1 && elements.at(0) == felt_at(&[Felt::ONE], 0))
}

fn keeps_words(alloc: Global) -> Result<bool, Memory> {
    let mut words = Words::new(alloc);
    let was_empty = words.is_empty();
    words.push(Word::ZERO)?;
    let words = Words::copied(alloc, words.as_slice())?;
    let same = words == Words::from_vec(vec![in alloc; Word::ZERO]?);
    Ok(was_empty && same && words.len() == 1 && words.at(0).at(3) == Felt::ZERO)
}

fn keeps_bytes(alloc: Global) -> Result<bool, Memory> {
    let mut bytes = Bytes::copied(alloc, b"ab")?;
    bytes.push(b'c')?;
    bytes.append(b"de")?;
    Ok(bytes.len() == 5 && bytes.as_slice() == b"abcde".as_slice() && bytes != Bytes::new(alloc))
}

fn keeps_items(alloc: Global) -> Result<bool, Memory> {
    let mut words = Sequence::new(alloc);
    let was_empty = words.is_empty();
    words.push(Word::ZERO)?;
    words.append(&[word(), Word::ZERO])?;
    let words = Sequence::copied(alloc, words.as_slice())?;
    let nested = Sequence::from_vec(vec![in alloc; words]?);
    let words = nested.at(0);
    Ok(was_empty && words.len() == 3 && *words.at(1) == word())
}

#[test]
fn keeps_lists(rt: HostRuntime) -> Result<(), Fail> {
    assert!(rt; keeps_elements(rt.alloc())? && keeps_words(rt.alloc())?);
    assert!(rt; keeps_bytes(rt.alloc())? && keeps_items(rt.alloc())?);
    Ok(())
}

#[test]
fn states_laws() {
    field_laws();
    text_laws();
    machine_laws();
    types_cross();
}
