use crate::tests::calls::{all_hold, all_wrong, answers_words};
use crate::tests::row::{Row, row, rows};
use std::test::Fail;
use vm_io::MemShelf;

// Words of a command, and the file that is looked for first.
static READ: [Row; 21] = rows! {
    b"hash z n" {} => 6 "missing z\n";
    b"hash z n --" {} => 6 "missing z\n";
    b"hash z -- n" {} => 6 "missing z\n";
    b"hash -- z n" {} => 6 "missing z\n";
    b"hash help n" {} => 6 "missing help\n";
    b"hash a-b/c_d.e n" {} => 6 "missing a-b/c_d.e\n";
    b"check --evidence e z t s" {} => 6 "missing z\n";
    b"check --evidence=e z t s" {} => 6 "missing z\n";
    b"check z --evidence e t s" {} => 6 "missing z\n";
    b"check z t --evidence=e s" {} => 6 "missing z\n";
    b"check z t s --evidence e" {} => 6 "missing z\n";
    b"check z t s --evidence=e" {} => 6 "missing z\n";
    b"check z t s --evidence e --" {} => 6 "missing z\n";
    b"check --evidence e -- z t s" {} => 6 "missing z\n";
    b"check z z z --evidence e" {} => 6 "missing z\n";
    b"assemble z s --kernel s" {} => 6 "missing z\n";
    b"run z s i --out t --statement u" {} => 6 "missing z\n";
    b"run --statement=u z --limit 1 s --out t i" {} => 6 "missing z\n";
    b"run z s i --out t --statement u --limit=524287" {} => 6 "missing z\n";
    b"run --kernel k --limit 7 --out=t --statement u -- z s i" {} => 6 "missing z\n";
    b"run z s s --out t --statement u --kernel s" {} => 6 "missing z\n";
};

// Words of no command.
static WRONG: [&[u8]; 24] = [
    b"",
    b"-",
    b"--",
    b"help",
    b"--help",
    b"-h",
    b"--version",
    b"Hash z n",
    b"hashes z n",
    b"hash=z n",
    b" hash z n",
    b"-- hash z n",
    b"--limit 3 hash z n",
    b"hash",
    b"hash z",
    b"hash z n m",
    b"hash -- z",
    b"hash -- z n m",
    b"check z t --evidence e",
    b"check z t s r --evidence e",
    b"check z t s",
    b"check z t s e",
    b"assemble z s k",
    b"run z s i --out t",
];

// Words that begin with a dash, and empty ones, where a name has to stand.
static DASHED: [&[u8]; 24] = [
    b"hash z -n",
    b"hash -abc n",
    b"hash z -5",
    b"hash z -=x",
    b"hash z -",
    b"hash - n",
    b"hash z ",
    b"hash  n",
    b"hash -- z -n",
    b"hash -- -h n",
    b"hash -- --help n",
    b"hash -- z --",
    b"hash -- -- z n",
    b"hash -- z -- n",
    b"hash z -- --",
    b"check -- z t s --evidence e",
    b"check z t s -- --evidence e",
    b"check z t s --evidence -",
    b"check z t s --evidence -e",
    b"check z t s --evidence --",
    b"check z t s --evidence -- e",
    b"check z t s --evidence ",
    b"check z t s --evidence=",
    b"check z t s --evidence=-",
];

// Options that are unknown, lack their text, come again or are cut short.
static OPTIONS: [&[u8]; 22] = [
    b"hash -h z n",
    b"hash --help z n",
    b"hash z n --help",
    b"hash z n --version",
    b"hash z n --kernel k",
    b"hash z n --=n",
    b"hash z n ---",
    b"check -h",
    b"check --help",
    b"check z t s --evidence",
    b"check z t s --=e",
    b"check z t s --evi e",
    b"check z t s --evidenc=e",
    b"check z t s --evidences e",
    b"check z t s -evidence e",
    b"check z t s -e e",
    b"check z t s --Evidence e",
    b"check z t s --evidence --evidence",
    b"check z t s --evidence=a=b",
    b"check z t s --evidence e --evidence e",
    b"check z t s --evidence=e --evidence f",
    b"check --evidence e z t s --evidence=e",
];

// Numbers that are no limit, and names that two files would have.
static NUMBERS_AND_NAMES: [&[u8]; 23] = [
    b"run z s i --out t --statement u --limit 0",
    b"run z s i --out t --statement u --limit 007",
    b"run z s i --out t --statement u --limit +1",
    b"run z s i --out t --statement u --limit -1",
    b"run z s i --out t --statement u --limit 1.0",
    b"run z s i --out t --statement u --limit 0x1",
    b"run z s i --out t --statement u --limit 524288",
    b"run z s i --out t --statement u --limit=18446744073709551617",
    b"run z s i --out t --statement u --limit ",
    b"run z s i --out t --statement u --limit=",
    b"run z s i --out t --statement u --limit many",
    b"run z s i --out t --statement t",
    b"run z s i --out z --statement u",
    b"run z s i --out s --statement u",
    b"run z s i --out t --statement i",
    b"run z s i --out t --statement k --kernel k",
    b"check z t s --evidence z",
    b"check z t s --evidence=t",
    b"check --evidence s z t s",
    b"hash z n\tm",
    b"hash z a=b",
    b"hash ~z n",
    b"hash z \xc3\xa9",
];

// Words of which one is no text.
static NO_TEXT: [&[u8]; 17] = [
    b"\xff",
    b"hash\xff z n",
    b"\x80hash z n",
    b"hash z\xff n",
    b"hash z \xc3",
    b"hash -- z \xff",
    b"hash -\xff z n",
    b"hash z n --\xff",
    b"check z t s --evidence \xff",
    b"check z t s --evidence=\xff",
    b"check z t s --evidence e\xff",
    b"check z t s --evidence\xff e",
    b"check z t s --\xff=e",
    b"check z t s --evidence e --\xff",
    b"check z t s -\xff --evidence e",
    b"run z s i --out t --statement u --limit 1\xff",
    b"run z s i --out t --statement u --kernel=\xed\xa0\x80",
];

#[test]
fn words_are_read(rt: HostRuntime) -> Result<(), Fail> {
    all_hold(&rt, &READ)
}

static USAGE: Row = row! {
    b"" {} => 2 "usage\n"
};

#[test]
fn no_word_is_no_command(rt: HostRuntime) -> Result<(), Fail> {
    let mut shelf = MemShelf::new(rt.alloc());
    let holds = answers_words(&rt, rt.alloc(), &[], &USAGE, &mut shelf)?;
    assert!(rt; holds);
    Ok(())
}

#[test]
fn words_of_no_command_are_wrong(rt: HostRuntime) -> Result<(), Fail> {
    all_wrong(&rt, &WRONG)
}

#[test]
fn words_with_dashes_are_no_names(rt: HostRuntime) -> Result<(), Fail> {
    all_wrong(&rt, &DASHED)
}

#[test]
fn other_options_are_wrong(rt: HostRuntime) -> Result<(), Fail> {
    all_wrong(&rt, &OPTIONS)
}

#[test]
fn other_numbers_and_names_are_wrong(rt: HostRuntime) -> Result<(), Fail> {
    all_wrong(&rt, &NUMBERS_AND_NAMES)
}

#[test]
fn words_that_are_no_text_are_wrong(rt: HostRuntime) -> Result<(), Fail> {
    all_wrong(&rt, &NO_TEXT)
}
