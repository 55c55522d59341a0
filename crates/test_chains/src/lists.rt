use run_chain::{
    LinkCause, LinkError, Links, MOST_LINKS, cause_text, list_laws, read_links, types_cross,
};
use std::alloc::{AllocError, Global};
use std::test::Fail;

// The names of the lines, with a comma behind each, and a semicolon behind each line.
fn shown(alloc: Global, links: &Links<'_>) -> Result<String, AllocError> {
    let mut text = String::new(alloc);
    for line in 0..links.len() {
        for name in links.names(line) {
            text.push_str(*name)?;
            text.push_str(",")?;
        }
        text.push_str(";")?;
    }
    Ok(text)
}

// What is read of a list: its names, or the first line that is wrong.
fn answer(alloc: Global, bytes: &[u8], evidence: Option<&str>) -> Result<String, AllocError> {
    match read_links(alloc, bytes, "p", "l", evidence) {
        Ok(links) => shown(alloc, &links),
        Err(error) => format!(in alloc; "{error}"),
    }
}

// A list, where a stroke stands for a line feed, an arrow, and its answer for a chain. The parameters are p, the list l, the evidence e.
static CHAINS: &str = " => Count at line 1
t s| => t,s,;
t s|t u| => t,s,;t,u,;
t t|p l| => t,t,;p,l,;
a/b.c_d-E 09| => a/b.c_d-E,09,;
t s => Line at line 1
| => Line at line 1
t| => Line at line 1
e| => Line at line 1
t s u| => Line at line 1
t  s| => Line at line 1
 t s| => Line at line 1
t s | => Line at line 1
t\ts| => Line at line 1
-t s| => Line at line 1
t -| => Line at line 1
t é| => Line at line 1
t s|| => Line at line 2
t s|x => Line at line 2
t s|t u => Line at line 2
t s|t e => Line at line 2
e s| => Output at line 1
t e| => Output at line 1
t s|t s|e u| => Output at line 3
t e|t| => Output at line 1
t|t e| => Line at line 1
";

// The same for runs.
static RUNS: &str = " => Count at line 1
a i t s| => a,i,t,s,;
a i t s|a i u v| => a,i,t,s,;a,i,u,v,;
a a t s|p l e v| => a,a,t,s,;p,l,e,v,;
t s| => Line at line 1
a i t| => Line at line 1
a i t s u| => Line at line 1
a i t s|a i u v => Line at line 2
a i p s| => Output at line 1
a i t p| => Output at line 1
a i l s| => Output at line 1
a i t l| => Output at line 1
a i a s| => Output at line 1
a i t i| => Output at line 1
a i t t| => Output at line 1
a i t s|b j t v| => Output at line 2
a i t s|b j s v| => Output at line 2
a i t s|b j a v| => Output at line 2
a i t s|b j u i| => Output at line 2
a i t s|t j u v| => Output at line 2
a i t s|b s u v| => Output at line 2
a i t s|b j u v|c t w x| => Output at line 3
";

#[test]
fn reads_lists_of_chains(rt: HostRuntime) -> Result<(), Fail> {
    let alloc = rt.alloc();
    for row in CHAINS.lines() {
        let (list, want) = row.split_once(" => ").ok_or("no arrow")?;
        let text = list.replace(alloc, "|", "\n")?;
        let found = answer(alloc, text.as_bytes(), Some("e"))?;
        assert_eq!(rt; found.as_str(), want, "at {list}");
    }
    Ok(())
}

#[test]
fn reads_lists_of_runs(rt: HostRuntime) -> Result<(), Fail> {
    let alloc = rt.alloc();
    for row in RUNS.lines() {
        let (list, want) = row.split_once(" => ").ok_or("no arrow")?;
        let text = list.replace(alloc, "|", "\n")?;
        let found = answer(alloc, text.as_bytes(), None)?;
        assert_eq!(rt; found.as_str(), want, "at {list}");
    }
    Ok(())
}

// So many lines that are good ones of a chain.
fn repeated(alloc: Global, lines: usize) -> Result<String, AllocError> {
    let mut text = String::new(alloc);
    for _ in 0..lines {
        text.push_str("t s\n")?;
    }
    Ok(text)
}

#[test]
fn counts_lines(rt: HostRuntime) -> Result<(), Fail> {
    let alloc = rt.alloc();
    let mut text = repeated(alloc, 64)?;
    let lines = read_links(alloc, text.as_bytes(), "p", "l", Some("e"))?.len();
    assert_eq!(rt; lines, MOST_LINKS);
    // whatever stands in the 65th line, and whether a line feed ends it
    for more in ["x", "\n", "t s\n", "t e\n"] {
        let kept = text.len();
        text.push_str(more)?;
        let found = answer(alloc, text.as_bytes(), Some("e"))?;
        assert_eq!(rt; found.as_str(), "Count at line 65");
        text.truncate(kept);
    }
    let mut text = repeated(alloc, 63)?;
    text.push_str("t e\nx")?;
    let found = answer(alloc, text.as_bytes(), Some("e"))?;
    assert_eq!(rt; found.as_str(), "Output at line 64");
    Ok(())
}

#[test]
fn refuses_evidence_that_is_read(rt: HostRuntime) -> Result<(), Fail> {
    let alloc = rt.alloc();
    for name in ["p", "l"] {
        let found = answer(alloc, b"t s\n", Some(name))?;
        assert_eq!(rt; found.as_str(), "Output at line 1");
        let found = answer(alloc, b"t\n", Some(name))?;
        assert_eq!(rt; found.as_str(), "Line at line 1");
        let found = answer(alloc, b"", Some(name))?;
        assert_eq!(rt; found.as_str(), "Count at line 1");
    }
    Ok(())
}

#[test]
fn takes_names_of_200_bytes(rt: HostRuntime) -> Result<(), Fail> {
    let alloc = rt.alloc();
    let mut text = String::from_str(alloc, "t ")?;
    for _ in 0..200 {
        text.push_str("s")?;
    }
    let longest = text.len();
    text.push_str("\n")?;
    assert_eq!(rt;
        read_links(alloc, text.as_bytes(), "p", "l", Some("e"))?.len(),
        1
    );
    text.truncate(longest);
    text.push_str("s\n")?;
    let found = answer(alloc, text.as_bytes(), Some("e"))?;
    assert_eq!(rt; found.as_str(), "Line at line 1");
    Ok(())
}

#[test]
fn names_lines_and_causes(rt: HostRuntime) -> Result<(), Fail> {
    let alloc = rt.alloc();
    let refused = read_links(alloc, b"t s\n\xff s\n", "p", "l", Some("e")).err();
    let wrong = LinkError::Bad {
        line: 2,
        cause: LinkCause::Line,
    };
    assert_eq!(rt; refused, Some(wrong));
    assert_eq!(rt; cause_text(LinkCause::Count), "Count");
    assert_eq!(rt; cause_text(LinkCause::Output), "Output");
    list_laws();
    types_cross();
    Ok(())
}
