use cmd_kit::{Answer, Outcome};
use show_why::{WhyNames, why_files};
use std::alloc::Global;
use std::test::Fail;
use vm_field::Memory;
use vm_io::MemShelf;

// What is written elsewhere, and here (docs/DIFFERENCES.md).
static NAMES: [(&str, &str); 34] = [
    ("u32and", "u32checked_and"),
    ("u32or", "u32checked_or"),
    ("u32xor", "u32checked_xor"),
    ("u32not", "u32checked_not"),
    ("u32shl", "u32checked_shl"),
    ("u32shr", "u32checked_shr"),
    ("u32rotl", "u32checked_rotl"),
    ("u32rotr", "u32checked_rotr"),
    ("u32lt", "u32checked_lt"),
    ("u32lte", "u32checked_lte"),
    ("u32gt", "u32checked_gt"),
    ("u32gte", "u32checked_gte"),
    ("u32min", "u32checked_min"),
    ("u32max", "u32checked_max"),
    ("u32div", "u32checked_div"),
    ("u32mod", "u32checked_mod"),
    ("u32divmod", "u32checked_divmod"),
    ("u32unchecked_and", "u32checked_and"),
    ("u32unchecked_shl", "u32checked_shl"),
    ("u32unchecked_shr", "u32checked_shr"),
    ("u32unchecked_rotl", "u32checked_rotl"),
    ("u32unchecked_rotr", "u32checked_rotr"),
    ("u32unchecked_lt", "u32checked_lt"),
    ("u32unchecked_lte", "u32checked_lte"),
    ("u32unchecked_gt", "u32checked_gt"),
    ("u32unchecked_gte", "u32checked_gte"),
    ("u32unchecked_div", "u32checked_div"),
    ("u32unchecked_mod", "u32checked_mod"),
    ("u32unchecked_divmod", "u32checked_divmod"),
    ("u32assert2", "u32assert.2"),
    ("mem_loadw_be", "mem_loadw"),
    ("mem_storew_be", "mem_storew"),
    ("loc_loadw_be", "loc_loadw"),
    ("loc_storew_be", "loc_storew"),
];

// Names that are none here, and look like those above.
static NAMELESS: [&str; 9] = [
    "u32",
    "u32unchecked",
    "u32unchecked_",
    "u32unchecked_popcnt",
    "u32popcnt",
    "u32wrapping_and",
    "u3and",
    "U32and",
    "mem_loadw_le",
];

// What is told of a program of one token.
fn told(alloc: Global, token: &str) -> Result<Answer, Memory> {
    let mut source = Vec::new(alloc);
    source.extend_from_slice(b"begin ")?;
    source.extend_from_slice(token.as_bytes())?;
    source.extend_from_slice(b" end")?;
    let mut shelf = MemShelf::new(alloc);
    shelf.put("p", source.as_slice())?;
    let names = WhyNames {
        source: "p",
        kernel: None,
    };
    match why_files(alloc, &mut shelf, names) {
        Outcome::Ends(answer) => Ok(answer),
        Outcome::Memory => Err(Memory::Memory),
    }
}

// The lines on a token that no instruction has, with so much behind its name.
fn expected(alloc: Global, token: &str, behind: &[u8], here: &str) -> Result<Vec<u8>, Memory> {
    let mut lines = Vec::new(alloc);
    lines.extend_from_slice(b"source p 1 7 UnknownInstruction\nbegin ")?;
    lines.extend_from_slice(token.as_bytes())?;
    lines.extend_from_slice(b" end\n      ^\nthere is no instruction ")?;
    lines.extend_from_slice(token.as_bytes())?;
    lines.extend_from_slice(behind)?;
    lines.extend_from_slice(here.as_bytes())?;
    lines.extend_from_slice(b"\n")?;
    Ok(lines)
}

#[test]
fn other_names_are_told(rt: HostRuntime) -> Result<(), Fail> {
    for (other, here) in &NAMES {
        let lines = expected(rt.alloc(), other, b": here it is ", here)?;
        let answer = told(rt.alloc(), other)?;
        assert!(rt; answer.line.as_slice() == lines.as_slice(), "{}", other);
    }
    Ok(())
}

#[test]
fn names_that_are_told_are_names(rt: HostRuntime) -> Result<(), Fail> {
    for (_, here) in &NAMES {
        let answer = told(rt.alloc(), here)?;
        let is_unknown = answer
            .line
            .as_slice()
            .starts_with(b"source p 1 7 UnknownInstruction");
        assert!(rt; !is_unknown, "{}", here);
    }
    Ok(())
}

#[test]
fn other_names_have_no_names_here(rt: HostRuntime) -> Result<(), Fail> {
    for token in &NAMELESS {
        let lines = expected(rt.alloc(), token, b"", "")?;
        let answer = told(rt.alloc(), token)?;
        assert!(rt; answer.line.as_slice() == lines.as_slice(), "{}", token);
    }
    Ok(())
}
