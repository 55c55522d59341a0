use crate::tests::content::Content;
use crate::tests::row::{Row, all_hold};
use std::test::Fail;

static ROWS: [Row; 15] = [
    Row {
        words: &["show", "t"],
        files: &[("t", Content::Table(&[], 3748))],
        failing_call: 0,
        number: 0,
        printed: "main rows 4\nrange rows 42\nhasher rows 8\nbitwise rows 0\nmemory rows 0\nkernel rows 0\nleft rows 0\n\
            clk 0 SPAN depth 16 stack 0 0 0 0 addr 0\n\
            clk 1 NOOP depth 16 stack 0 0 0 0 addr 1\n\
            clk 2 END depth 16 stack 0 0 0 0 addr 1\n\
            clk 3 HALT depth 16 stack 0 0 0 0 addr 0\n",
    },
    // The bits of row 1 spell 81, those of row 2 are none.
    Row {
        words: &["show", "t"],
        files: &[(
            "t",
            Content::Table(
                &[
                    (74, 1),
                    (78, 1),
                    (80, 1),
                    (95, 4),
                    (96, 3),
                    (97, 2),
                    (98, 1),
                    (141, 2),
                ],
                3748,
            ),
        )],
        failing_call: 0,
        number: 0,
        printed: "main rows 4\nrange rows 42\nhasher rows 8\nbitwise rows 0\nmemory rows 0\nkernel rows 0\nleft rows 0\n\
            clk 0 SPAN depth 16 stack 0 0 0 0 addr 0\n\
            clk 1 ?81 depth 16 stack 4 3 2 1 addr 1\n\
            clk 2 ?80 depth 16 stack 0 0 0 0 addr 1\n\
            clk 3 HALT depth 16 stack 0 0 0 0 addr 0\n",
    },
    Row {
        words: &["show", "t", "main", "0", "1"],
        files: &[("t", Content::Table(&[(260, 5)], 3748))],
        failing_call: 0,
        number: 0,
        printed: "row 0 SPAN fmp=1073741824 b0=1 b3=1 b6=1 depth=16\n\
            row 1 NOOP clk=1 fmp=1073741824 addr=1 sp=1 depth=16 ha=1 lv=1\n",
    },
    Row {
        words: &["show", "t", "range", "6", "7"],
        files: &[("t", Content::Table(&[], 3748))],
        failing_call: 0,
        number: 0,
        printed: "row 6 v=1020\nrow 7 count=1 v=1023\n",
    },
    // All rows. The bits of row 1 spell 81, those of row 2 are none.
    Row {
        words: &["show", "t", "main"],
        files: &[(
            "t",
            Content::Table(&[(74, 1), (78, 1), (80, 1), (95, 4), (141, 2)], 3748),
        )],
        failing_call: 0,
        number: 0,
        printed: "row 0 SPAN fmp=1073741824 b0=1 b3=1 b6=1 depth=16\n\
            row 1 ?81 clk=1 fmp=1073741824 addr=1 b0=1 b4=1 b6=1 sp=1 s0=4 depth=16 ha=1 lv=1\n\
            row 2 ?80 clk=2 fmp=1073741824 addr=1 b2=2 b3=1 b6=1 h5=1 depth=16 ha=1 lv=1\n\
            row 3 HALT clk=3 fmp=1073741824 b0=1 b1=1 b2=1 b3=1 b6=1 depth=16\n",
    },
    Row {
        words: &["show", "t", "hasher"],
        files: &[("t", Content::Table(&[(463, 9)], 3748))],
        failing_call: 0,
        number: 0,
        printed: "row 0\nrow 1\nrow 2\nrow 3\nrow 4\nrow 5\nrow 6\nrow 7 x11=9\n",
    },
    Row {
        words: &["show", "t", "bitwise"],
        files: &[("t", Content::Table(&[], 3748))],
        failing_call: 0,
        number: 0,
        printed: "",
    },
    // One row.
    Row {
        words: &["show", "--", "t", "main", "2"],
        files: &[("t", Content::Table(&[], 3748))],
        failing_call: 0,
        number: 0,
        printed: "row 2 END clk=2 fmp=1073741824 addr=1 b2=1 b3=1 b6=1 h5=1 depth=16 ha=1 lv=1\n",
    },
    Row {
        words: &["show", "t", "range", "7"],
        files: &[("t", Content::Table(&[], 3748))],
        failing_call: 0,
        number: 0,
        printed: "row 7 count=1 v=1023\n",
    },
    Row {
        words: &["show", "t", "range", "42"],
        files: &[("t", Content::Table(&[], 3748))],
        failing_call: 0,
        number: 0,
        printed: "",
    },
    // There are no rows behind the last one.
    Row {
        words: &["show", "t", "hasher", "7", "4194303"],
        files: &[("t", Content::Table(&[(463, 9)], 3748))],
        failing_call: 0,
        number: 0,
        printed: "row 7 x11=9\n",
    },
    Row {
        words: &["show", "t", "left", "0", "0"],
        files: &[("t", Content::Table(&[], 3748))],
        failing_call: 0,
        number: 0,
        printed: "",
    },
    Row {
        words: &["show", "t"],
        files: &[],
        failing_call: 0,
        number: 6,
        printed: "missing t\n",
    },
    Row {
        words: &["show", "t", "main", "0", "1"],
        files: &[("t", Content::Table(&[], 3747))],
        failing_call: 0,
        number: 10,
        printed: "malformed t offset 3740 Ended\n",
    },
    Row {
        words: &["show", "t"],
        files: &[("t", Content::Table(&[], 3748))],
        failing_call: 1,
        number: 7,
        printed: "read fault t\n",
    },
];

#[test]
fn rows_and_runs_are_told(rt: HostRuntime) -> Result<(), Fail> {
    all_hold(&rt, &ROWS)
}
