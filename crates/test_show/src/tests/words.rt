use crate::tests::row::{Row, all_hold};
use std::test::Fail;

static WRONG: [&[&str]; 22] = [
    &[],
    &["shows", "t"],
    &["show"],
    &["show", "t", "stack"],
    &["show", "t", "stack", "0"],
    &["show", "t", "main", "00"],
    &["show", "t", "main", "4194304"],
    &["show", "t", "main", "2", "1"],
    &["show", "t", "main", "0", "1", "2"],
    &["show", "t", "stack", "0", "1"],
    &["show", "t", "main", "00", "1"],
    &["show", "t", "main", "0", "4194304"],
    &["show", "-t"],
    &["explain", "z", "t"],
    &["explain", "z", "t", "s", "--pieces=1"],
    &["evidence"],
    &["evidence", "e", "f"],
    &["trace", "z", "s"],
    &["trace", "z", "s", "i", "--kernel"],
    &["trace", "z", "s", "i", "--limit=524288"],
    &["why"],
    &["why", "s", "--limit=3"],
];

#[test]
fn other_words_are_usage(rt: HostRuntime) -> Result<(), Fail> {
    for words in WRONG {
        let row = Row {
            words,
            files: &[],
            failing_call: 0,
            number: 2,
            printed: "usage\n",
        };
        all_hold(&rt, &[row])?;
    }
    Ok(())
}
