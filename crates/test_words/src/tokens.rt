use masm_lex::{LexError, MAX_SOURCE, Tokens, end_place, lex, token_text};
use std::alloc::Global;
use std::process::Abort;

// start, end, line, column
type Row = (usize, usize, u32, u32);

// A source, and its tokens.
static CUT: [(&[u8], &[Row]); 9] = [
    (b"", &[]),
    (b" \t\r\n", &[]),
    (b"begin end", &[(0, 5, 1, 1), (6, 9, 1, 7)]),
    (
        b"begin\tadd\r\n end\n\n",
        &[(0, 5, 1, 1), (6, 9, 1, 7), (12, 15, 2, 2)],
    ),
    (b"add#x y\n end", &[(0, 3, 1, 1), (9, 12, 2, 2)]),
    (b"# only", &[]),
    (b"#a\rb\nc#\n#\nd", &[(5, 6, 2, 1), (10, 11, 4, 1)]),
    (b"#\x00\x7f\xff\nx", &[(5, 6, 2, 1)]),
    (b"!~", &[(0, 2, 1, 1)]),
];

// A source, and the line and column of its first bad byte.
static BAD: [(&[u8], u32, u32); 7] = [
    (b"begin add\n\x7f", 2, 1),
    (b"begin \x00add\n\x7f", 1, 7),
    (b"ad\x80", 1, 3),
    (b"a\t\x1f", 1, 3),
    (b"a\r\x0b", 1, 3),
    (b"\n\n \x0c", 3, 2),
    (b"x#\x00\n\xff", 2, 1),
];

// A source, and the line and column behind its last byte.
static ENDS: [(&[u8], u32, u32); 6] = [
    (b"", 1, 1),
    (b"begin", 1, 6),
    (b"begin end\n", 2, 1),
    (b"# only", 1, 7),
    (b"add \r", 1, 6),
    (b"\n\n# x\n ", 4, 2),
];

fn are_tokens(source: &[u8], tokens: &Tokens, rows: &[Row]) -> bool {
    if tokens.len() != rows.len() {
        return false;
    }
    for (token, row) in tokens.as_slice().iter().zip(rows) {
        if (token.start, token.end, token.line, token.column) != *row || token.end > source.len() {
            return false;
        }
    }
    true
}

fn is_cut(alloc: Global, source: &[u8], rows: &[Row]) -> bool {
    if source.len() > MAX_SOURCE {
        return false;
    }
    match lex(alloc, source) {
        Ok(tokens) => are_tokens(source, &tokens, rows),
        Err(_) => false,
    }
}

fn cuts(rt: &impl Abort, alloc: Global, table: &[(&[u8], &[Row])]) {
    for (source, rows) in table {
        assert!(rt; is_cut(alloc, source, rows), "at {source:?}");
    }
}

fn refuses(alloc: Global, source: &[u8], line: u32, column: u32) -> bool {
    if source.len() > MAX_SOURCE {
        return false;
    }
    matches!(lex(alloc, source), Err(LexError::Bad { line: found, column: place }) if found == line && place == column)
}

fn names_bad(rt: &impl Abort, alloc: Global, table: &[(&[u8], u32, u32)]) {
    for (source, line, column) in table {
        assert!(rt; refuses(alloc, source, *line, *column), "at {source:?}");
    }
}

fn ends_at(source: &[u8], line: u32, column: u32) -> bool {
    if source.len() > MAX_SOURCE {
        return false;
    }
    let end = end_place(source);
    end.index == source.len() && end.line == line && end.column == column
}

fn ends(rt: &impl Abort, table: &[(&[u8], u32, u32)]) {
    for (source, line, column) in table {
        assert!(rt; ends_at(source, *line, *column), "at {source:?}");
    }
}

fn reads(alloc: Global, source: &[u8], i: usize, text: &[u8]) -> bool {
    if source.len() > MAX_SOURCE {
        return false;
    }
    let Ok(tokens) = lex(alloc, source) else {
        return false;
    };
    i < tokens.len() && token_text(source, &tokens, i) == text
}

#[test]
fn cuts_tokens(rt: HostRuntime) {
    cuts(&rt, rt.alloc(), &CUT);
}

#[test]
fn names_the_first_bad_byte(rt: HostRuntime) {
    names_bad(&rt, rt.alloc(), &BAD);
}

#[test]
fn finds_the_end(rt: HostRuntime) {
    ends(&rt, &ENDS);
}

#[test]
fn reads_a_token(rt: HostRuntime) {
    assert!(rt; reads(rt.alloc(), b"begin push.1 end", 1, b"push.1"));
}
