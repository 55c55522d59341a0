use crate::tests::content::Content;
use crate::tests::row::{Row, all_hold};
use std::test::Fail;

static ROWS: [Row; 9] = [
    Row {
        words: &["evidence", "e"],
        files: &[(
            "e",
            Content::Text("run\ncycles 3\ntape\nspan 1\nbatch 0 0 0 0 0 0 0 0\n"),
        )],
        failing_call: 0,
        number: 0,
        printed: "run\ncycles 3\ntape\nspan 1\nbatch NOOP\n",
    },
    Row {
        words: &["evidence", "e"],
        files: &[(
            "e",
            Content::Text(
                "ran\ntape 5 18446744069414584320\njoin\nspan 1\nbatch 145318597 2 3 7 0 0 0 0\ndyn 1\n\
                opaque 00000000000000000000000000000000000000000000000000000000000000aB\n",
            ),
        )],
        failing_call: 0,
        number: 0,
        printed: "ran\ntape 5 18446744069414584320\njoin\nspan 1\nbatch PUSH 2 PUSH 3 ADD PUSH 7 NOOP\ndyn 1\n\
            opaque 00000000000000000000000000000000000000000000000000000000000000aB\n",
    },
    Row {
        words: &["evidence", "e"],
        files: &[(
            "e",
            Content::Text(
                "link 1\npair 1 9\nclash file 1 node 2\nclash file 1 file 9\nsplit\nloop\ncall\nsyscall\n",
            ),
        )],
        failing_call: 0,
        number: 0,
        printed: "link 1\npair 1 9\nclash file 1 node 2\nclash file 1 file 9\nsplit\nloop\ncall\nsyscall\n",
    },
    Row {
        words: &["evidence", "e"],
        files: &[("e", Content::Text(""))],
        failing_call: 0,
        number: 0,
        printed: "",
    },
    Row {
        words: &["evidence", "e"],
        files: &[("e", Content::Text("run\ncycle 3\n"))],
        failing_call: 0,
        number: 10,
        printed: "malformed e line 2 Line\n",
    },
    // No line feed ends the line.
    Row {
        words: &["evidence", "e"],
        files: &[("e", Content::Text("run\ncycles 3"))],
        failing_call: 0,
        number: 10,
        printed: "malformed e line 2 Line\n",
    },
    // 70 is the code of JOIN, which no batch holds.
    Row {
        words: &["evidence", "e"],
        files: &[("e", Content::Text("batch 70 0 0 0 0 0 0 0\n"))],
        failing_call: 0,
        number: 10,
        printed: "malformed e line 1 Line\n",
    },
    Row {
        words: &["evidence", "e"],
        files: &[("e", Content::Text("batch 0 0 0 0 0 0 0\n"))],
        failing_call: 0,
        number: 10,
        printed: "malformed e line 1 Line\n",
    },
    Row {
        words: &["evidence", "f"],
        files: &[("e", Content::Text("run\n"))],
        failing_call: 0,
        number: 6,
        printed: "missing f\n",
    },
];

#[test]
fn evidence_is_told(rt: HostRuntime) -> Result<(), Fail> {
    all_hold(&rt, &ROWS)
}
