use crate::tests::content::{Cells, Content};
use crate::tests::row::{Row, all_hold};
use std::test::Fail;

// The statement of `begin end`.
const STATEMENT: &str =
    r#"{"digest":"0000000000000000000000000000000000000000000000000000000000000000","inputs":[],"kernel":[],"outputs":[0,0,0,0,0,0,0,0,0,0,0,0,0,0,0,0]}"#;

// That of `begin end` under a kernel of one procedure.
const OTHER_KERNEL: &str =
    "{\"digest\":\"0000000000000000000000000000000000000000000000000000000000000000\",\"inputs\":[],\
    \"kernel\":[\"0000000000000000000000000000000000000000000000000000000000000000\"],\
    \"outputs\":[0,0,0,0,0,0,0,0,0,0,0,0,0,0,0,0]}";

// That of a run which ends with 5.
const OTHER_OUTPUTS: &str =
    r#"{"digest":"0000000000000000000000000000000000000000000000000000000000000000","inputs":[],"kernel":[],"outputs":[5,0,0,0,0,0,0,0,0,0,0,0,0,0,0,0]}"#;

// That of another program.
const OTHER_DIGEST: &str =
    r#"{"digest":"0000000000000000000000000000000000000000000000000000000000000001","inputs":[],"kernel":[],"outputs":[0,0,0,0,0,0,0,0,0,0,0,0,0,0,0,0]}"#;

// Those of runs with one cell of the stack that is not 0: that on top at both ends, and the sixteenth at the first row.
const OF_NOT: &str =
    r#"{"digest":"0000000000000000000000000000000000000000000000000000000000000000","inputs":[2],"kernel":[],"outputs":[18446744069414584320,0,0,0,0,0,0,0,0,0,0,0,0,0,0,0]}"#;

const SIXTEENTH: &str =
    r#"{"digest":"0000000000000000000000000000000000000000000000000000000000000000","inputs":[0,0,0,0,0,0,0,0,0,0,0,0,0,0,0,5],"kernel":[],"outputs":[0,0,0,0,0,0,0,0,0,0,0,0,0,0,0,0]}"#;

// A span of two groups, 0 and 1, of which the second one is not executed.
const SECOND_GROUP: &[Cells] = &[
    &[
        (1, 1073741824),
        (9, 1),
        (12, 1),
        (15, 1),
        (17, 1),
        (29, 1),
        (46, 16),
        (51, 1),
    ],
    &[
        (0, 1),
        (1, 1073741824),
        (8, 1),
        (24, 1),
        (25, 1),
        (46, 16),
        (49, 1),
        (50, 1),
    ],
    &[
        (0, 2),
        (1, 1073741824),
        (8, 1),
        (24, 1),
        (46, 16),
        (49, 1),
        (50, 1),
    ],
    &[
        (0, 3),
        (1, 1073741824),
        (8, 1),
        (11, 1),
        (12, 1),
        (15, 1),
        (21, 1),
        (46, 16),
        (49, 1),
        (50, 1),
    ],
    &[
        (0, 4),
        (1, 1073741824),
        (9, 1),
        (10, 1),
        (11, 1),
        (12, 1),
        (15, 1),
        (46, 16),
    ],
];

// PAD pushes a 5 below the sixteenth cell, and DROP brings a 0 back. The group is PAD + 128 DROP.
const LOST_CELL: &[Cells] = &[
    &[
        (1, 1073741824),
        (9, 1),
        (12, 1),
        (15, 1),
        (16, 5556),
        (45, 5),
        (46, 16),
    ],
    &[
        (0, 1),
        (1, 1073741824),
        (8, 1),
        (11, 1),
        (13, 1),
        (14, 1),
        (16, 5556),
        (24, 1),
        (45, 5),
        (46, 16),
        (49, 1),
        (50, 1),
        (54, 1712624676502698508),
    ],
    &[
        (0, 2),
        (1, 1073741824),
        (8, 1),
        (9, 1),
        (10, 1),
        (12, 1),
        (14, 1),
        (16, 43),
        (24, 1),
        (26, 1),
        (46, 17),
        (47, 1),
        (48, 1),
        (49, 1),
        (50, 1),
    ],
    &[
        (0, 3),
        (1, 1073741824),
        (8, 1),
        (11, 1),
        (12, 1),
        (15, 1),
        (21, 1),
        (46, 16),
        (49, 1),
        (50, 1),
    ],
    &[
        (0, 4),
        (1, 1073741824),
        (9, 1),
        (10, 1),
        (11, 1),
        (12, 1),
        (15, 1),
        (46, 16),
    ],
];

static FAULTS: [Row; 14] = [
    Row {
        words: &["explain", "z", "t", "s"],
        files: &[
            ("z", Content::Zeros(168)),
            ("t", Content::Table(&[], 3748)),
            ("s", Content::Text(STATEMENT)),
        ],
        failing_call: 0,
        number: 0,
        printed: "accepted\n",
    },
    // A cell of row 1 that SPAN does not leave, and that NOOP does not keep.
    Row {
        words: &["explain", "z", "t", "s"],
        files: &[
            ("z", Content::Zeros(168)),
            ("t", Content::Table(&[(95, 7)], 3748)),
            ("s", Content::Text(STATEMENT)),
        ],
        failing_call: 0,
        number: 1,
        printed: "refused main row 0 constraint 119 value 7\n\
            constraint 119..134 P must be 0: the sum over all operations of [op] T(op, j); without it: cell j is not what \
            the operation leaves\n\
            here s0' is 7, SPAN leaves 0\n\
            row 0 SPAN fmp=1073741824 b0=1 b3=1 b6=1 depth=16\n\
            row 1 NOOP clk=1 fmp=1073741824 addr=1 sp=1 s0=7 depth=16 ha=1 lv=1\n\
            also main row 1 constraint 119 value 18446744069414584314\n\
            rows refused 2\n",
    },
    // The greatest value that is told once, and the least one that is told as a negative number, too.
    Row {
        words: &["explain", "z", "t", "s"],
        files: &[
            ("z", Content::Zeros(168)),
            ("t", Content::Table(&[(95, 9223372034707292160)], 3748)),
            ("s", Content::Text(STATEMENT)),
        ],
        failing_call: 0,
        number: 1,
        printed: "refused main row 0 constraint 119 value 9223372034707292160\n\
            constraint 119..134 P must be 0: the sum over all operations of [op] T(op, j); without it: cell j is not what \
            the operation leaves\n\
            here s0' is 9223372034707292160, SPAN leaves 0\n\
            row 0 SPAN fmp=1073741824 b0=1 b3=1 b6=1 depth=16\n\
            row 1 NOOP clk=1 fmp=1073741824 addr=1 sp=1 s0=9223372034707292160 depth=16 ha=1 lv=1\n\
            also main row 1 constraint 119 value 9223372034707292161\n\
            rows refused 2\n",
    },
    Row {
        words: &["explain", "z", "t", "s"],
        files: &[
            ("z", Content::Zeros(168)),
            ("t", Content::Table(&[(95, 9223372034707292161)], 3748)),
            ("s", Content::Text(STATEMENT)),
        ],
        failing_call: 0,
        number: 1,
        printed: "refused main row 0 constraint 119 value 9223372034707292161\n\
            value 9223372034707292161 is -9223372034707292160\n\
            constraint 119..134 P must be 0: the sum over all operations of [op] T(op, j); without it: cell j is not what \
            the operation leaves\n\
            here s0' is 9223372034707292161, SPAN leaves 0\n\
            row 0 SPAN fmp=1073741824 b0=1 b3=1 b6=1 depth=16\n\
            row 1 NOOP clk=1 fmp=1073741824 addr=1 sp=1 s0=9223372034707292161 depth=16 ha=1 lv=1\n\
            also main row 1 constraint 119 value 9223372034707292160\n\
            rows refused 2\n",
    },
    // The clock of row 1.
    Row {
        words: &["explain", "z", "t", "s"],
        files: &[
            ("z", Content::Zeros(168)),
            ("t", Content::Table(&[(65, 5)], 3748)),
            ("s", Content::Text(STATEMENT)),
        ],
        failing_call: 0,
        number: 1,
        printed: "refused main row 0 constraint 10 value 4\n\
            constraint 10 P must be 0: clk' - clk - 1; without it: keys and memory's order, which rest on different clocks, \
            can be faked\n\
            here clk' is 5, must be 1\n\
            row 0 SPAN fmp=1073741824 b0=1 b3=1 b6=1 depth=16\n\
            row 1 NOOP clk=5 fmp=1073741824 addr=1 sp=1 depth=16 ha=1 lv=1\n\
            also main row 1 constraint 10 value 18446744069414584317\n\
            rows refused 2\n",
    },
    // The kernel table has no row.
    Row {
        words: &["explain", "z", "t", "s"],
        files: &[
            ("z", Content::Zeros(168)),
            ("t", Content::Table(&[], 3748)),
            ("s", Content::Text(OTHER_KERNEL)),
        ],
        failing_call: 0,
        number: 1,
        printed: "refused main row 0 constraint 39 value 18446744069414584320\n\
            value 18446744069414584320 is -1\n\
            constraint 39 F must be 0: kernel rows - length of the kernel; without it: a syscall goes to a digest that the \
            statement does not list\n\
            here kernel rows is 0, must be 1\n\
            row 0 SPAN fmp=1073741824 b0=1 b3=1 b6=1 depth=16\n\
            row 1 NOOP clk=1 fmp=1073741824 addr=1 sp=1 depth=16 ha=1 lv=1\n\
            rows refused 1\n",
    },
    // The stack of the last row is not that of the outputs, and behind that row there is none.
    Row {
        words: &["explain", "z", "t", "s"],
        files: &[
            ("z", Content::Zeros(168)),
            ("t", Content::Table(&[], 3748)),
            ("s", Content::Text(OTHER_OUTPUTS)),
        ],
        failing_call: 0,
        number: 1,
        printed: "refused main row 3 constraint 44 value 18446744069414584316\n\
            value 18446744069414584316 is -5\n\
            constraint 44..59 L must be 0: s_j - output j, j = 0..15; without it: it ends with other outputs\n\
            here s0 is 0, must be 5\n\
            row 3 HALT clk=3 fmp=1073741824 b0=1 b1=1 b2=1 b3=1 b6=1 depth=16\n\
            rows refused 1\n",
    },
    // The bits of row 1 spell no operation.
    Row {
        words: &["explain", "z", "t", "s"],
        files: &[
            ("z", Content::Zeros(168)),
            ("t", Content::Table(&[(75, 2)], 3748)),
            ("s", Content::Text(STATEMENT)),
        ],
        failing_call: 0,
        number: 1,
        printed: "refused main row 1 constraint 2 value 2\n\
            constraint 1..7 E must be 0: b_j (b_j - 1), j = 0..6; without it: a \"bit\" 2 makes several flags non-zero, and \
            a row is half of two operations\n\
            here b1 (b1 - 1)\n\
            row 1 ?4 clk=1 fmp=1073741824 addr=1 b1=2 sp=1 depth=16 ha=1 lv=1\n\
            row 2 END clk=2 fmp=1073741824 addr=1 b2=1 b3=1 b6=1 h5=1 depth=16 ha=1 lv=1\n\
            rows refused 1\n",
    },
    // Row 1 is an EQZ of 0 that leaves 0.
    Row {
        words: &["explain", "z", "t", "s"],
        files: &[
            ("z", Content::Zeros(168)),
            ("t", Content::Table(&[(16, 1), (74, 1), (81, 1)], 3748)),
            ("s", Content::Text(STATEMENT)),
        ],
        failing_call: 0,
        number: 1,
        printed: "refused main row 1 constraint 119 value 18446744069414584320\n\
            value 18446744069414584320 is -1\n\
            constraint 119..134 P must be 0: the sum over all operations of [op] T(op, j); without it: cell j is not what \
            the operation leaves\n\
            here s0' - 1 + s0 w0\n\
            row 1 EQZ clk=1 fmp=1073741824 addr=1 b0=1 h0=1 sp=1 depth=16 ha=1 lv=1\n\
            row 2 END clk=2 fmp=1073741824 addr=1 b2=1 b3=1 b6=1 h5=1 depth=16 ha=1 lv=1\n\
            rows refused 1\n",
    },
    // The first value of the range table.
    Row {
        words: &["explain", "z", "t", "s"],
        files: &[
            ("z", Content::Zeros(168)),
            ("t", Content::Table(&[(261, 5)], 3748)),
            ("s", Content::Text(STATEMENT)),
        ],
        failing_call: 0,
        number: 1,
        printed: "refused range row 0 constraint 1 value 5\n\
            constraint 1 F must be 0: v; without it: the table begins below 0, with p - 1 or less, and vouches for that\n\
            here v is 5, must be 0\n\
            row 0 v=5\n\
            row 1 v=729\n\
            rows refused 1\n",
    },
    // The last state of the permutation of zeros, of which nothing but 0 is left: the value is 9 to the seventh.
    Row {
        words: &["explain", "z", "t", "s"],
        files: &[
            ("z", Content::Zeros(168)),
            ("t", Content::Table(&[(463, 9)], 3748)),
            ("s", Content::Text(STATEMENT)),
        ],
        failing_call: 0,
        number: 1,
        printed: "refused hasher row 6 constraint 29 value 4782969\n\
            constraint 18..29 P, k < 7 must be 0: x_j'^7 - u_j, j = 0..11; without it: states are not those of the permutation\n\
            here x11'^7 - u11\n\
            row 6\n\
            row 7 x11=9\n\
            rows refused 1\n",
    },
    // Rows of two tables. That of the hasher is told by its first entry: `mode` is no bit, and another one in the next row.
    Row {
        words: &["explain", "z", "t", "s"],
        files: &[
            ("z", Content::Zeros(168)),
            ("t", Content::Table(&[(95, 7), (344, 2)], 3748)),
            ("s", Content::Text(STATEMENT)),
        ],
        failing_call: 0,
        number: 1,
        printed: "refused main row 0 constraint 119 value 7\n\
            constraint 119..134 P must be 0: the sum over all operations of [op] T(op, j); without it: cell j is not what \
            the operation leaves\n\
            here s0' is 7, SPAN leaves 0\n\
            row 0 SPAN fmp=1073741824 b0=1 b3=1 b6=1 depth=16\n\
            row 1 NOOP clk=1 fmp=1073741824 addr=1 sp=1 s0=7 depth=16 ha=1 lv=1\n\
            also main row 1 constraint 119 value 18446744069414584314\n\
            also hasher row 0 constraint 1 value 2\n\
            rows refused 3\n",
    },
    // Twenty-four rows, and sixteen of them are told.
    Row {
        words: &["explain", "z", "t", "s"],
        files: &[
            ("z", Content::Zeros(168)),
            ("t", Content::BitwiseRows(24)),
            ("s", Content::Text(STATEMENT)),
        ],
        failing_call: 0,
        number: 1,
        printed: "refused bitwise row 0 constraint 1 value 2\n\
            constraint 1 E must be 0: op (op - 1); without it: a row mixes both operations\n\
            row 0 op=2\n\
            row 1 op=2\n\
            also bitwise row 1 constraint 1 value 2\n\
            also bitwise row 2 constraint 1 value 2\n\
            also bitwise row 3 constraint 1 value 2\n\
            also bitwise row 4 constraint 1 value 2\n\
            also bitwise row 5 constraint 1 value 2\n\
            also bitwise row 6 constraint 1 value 2\n\
            also bitwise row 7 constraint 1 value 2\n\
            also bitwise row 8 constraint 1 value 2\n\
            also bitwise row 9 constraint 1 value 2\n\
            also bitwise row 10 constraint 1 value 2\n\
            also bitwise row 11 constraint 1 value 2\n\
            also bitwise row 12 constraint 1 value 2\n\
            also bitwise row 13 constraint 1 value 2\n\
            also bitwise row 14 constraint 1 value 2\n\
            also bitwise row 15 constraint 1 value 2\n\
            rows refused 24\n",
    },
    Row {
        words: &["explain", "z", "t", "s"],
        files: &[("z", Content::Zeros(168)), ("t", Content::Table(&[], 3748))],
        failing_call: 0,
        number: 6,
        printed: "missing s\n",
    },
];

// Of constraints that are sums over operations, the term of the row's operation.
static TERMS: [Row; 6] = [
    // Row 1 is an INV of 0.
    Row {
        words: &["explain", "z", "t", "s"],
        files: &[
            ("z", Content::Zeros(168)),
            (
                "t",
                Content::Table(&[(16, 3), (74, 1), (75, 1), (81, 3)], 3748),
            ),
            ("s", Content::Text(STATEMENT)),
        ],
        failing_call: 0,
        number: 1,
        printed: "refused main row 1 constraint 119 value 18446744069414584320\n\
            value 18446744069414584320 is -1\n\
            constraint 119..134 P must be 0: the sum over all operations of [op] T(op, j); without it: cell j is not what \
            the operation leaves\n\
            here s0 s0' - 1\n\
            row 1 INV clk=1 fmp=1073741824 addr=1 b0=1 b1=1 h0=3 sp=1 depth=16 ha=1 lv=1\n\
            row 2 END clk=2 fmp=1073741824 addr=1 b2=1 b3=1 b6=1 h5=1 depth=16 ha=1 lv=1\n\
            rows refused 1\n",
    },
    // It is a NOT of 2, which leaves 1 - 2.
    Row {
        words: &["explain", "z", "t", "s"],
        files: &[
            ("z", Content::Zeros(168)),
            (
                "t",
                Content::Table(
                    &[
                        (16, 5),
                        (30, 2),
                        (74, 1),
                        (76, 1),
                        (81, 5),
                        (95, 2),
                        (160, 18446744069414584320),
                        (225, 18446744069414584320),
                    ],
                    3748,
                ),
            ),
            ("s", Content::Text(OF_NOT)),
        ],
        failing_call: 0,
        number: 1,
        printed: "refused main row 1 constraint 137 value 2\n\
            constraint 137, 138 E must be 0: ([NOT] + [AND] + [OR] + [CSWAP] + [CSWAPW]) s0 (s0 - 1); ([AND] + [OR]) s1 \
            (s1 - 1); without it: operations on bits run on other numbers\n\
            here s0 (s0 - 1)\n\
            row 1 NOT clk=1 fmp=1073741824 addr=1 b0=1 b2=1 h0=5 sp=1 s0=2 depth=16 ha=1 lv=1\n\
            row 2 END clk=2 fmp=1073741824 addr=1 b2=1 b3=1 b6=1 h5=1 s0=18446744069414584320 depth=16 ha=1 lv=1\n\
            rows refused 1\n",
    },
    // It is a U32ADD whose sum is 1 by its limbs, and 0 in its cell.
    Row {
        words: &["explain", "z", "t", "s"],
        files: &[
            ("z", Content::Zeros(168)),
            (
                "t",
                Content::Table(
                    &[
                        (16, 30),
                        (75, 1),
                        (76, 1),
                        (77, 1),
                        (78, 1),
                        (81, 30),
                        (124, 1),
                    ],
                    3748,
                ),
            ),
            ("s", Content::Text(STATEMENT)),
        ],
        failing_call: 0,
        number: 1,
        printed: "refused main row 1 constraint 143 value 18446744069414584320\n\
            value 18446744069414584320 is -1\n\
            constraint 143 P must be 0: [U32SPLIT](s1' - L(0)) + ([U32ADD] + [U32SUB] + [U32MUL] + [U32DIV])(s1' - L(4)) + \
            Three (s1' - L(6)); without it: the low word, the difference or the quotient may have more than 32 bits, and \
            145 holds with other results\n\
            here s1' is 0, must be 1\n\
            row 1 U32ADD clk=1 fmp=1073741824 addr=1 b1=1 b2=1 b3=1 b4=1 h0=30 sp=1 depth=16 ha=1 lv=1 t4=1\n\
            row 2 END clk=2 fmp=1073741824 addr=1 b2=1 b3=1 b6=1 h5=1 depth=16 ha=1 lv=1\n\
            rows refused 1\n",
    },
    // Its carry is 1 by its limb, and 0 in its cell.
    Row {
        words: &["explain", "z", "t", "s"],
        files: &[
            ("z", Content::Zeros(168)),
            (
                "t",
                Content::Table(
                    &[
                        (16, 30),
                        (75, 1),
                        (76, 1),
                        (77, 1),
                        (78, 1),
                        (81, 30),
                        (126, 1),
                    ],
                    3748,
                ),
            ),
            ("s", Content::Text(STATEMENT)),
        ],
        failing_call: 0,
        number: 1,
        printed: "refused main row 1 constraint 144 value 18446744069414584320\n\
            value 18446744069414584320 is -1\n\
            constraint 144 P must be 0: [U32SPLIT](s0' - L(2)) + [U32ADD](s0' - t6) + [U32ADD3](s0' - t8) + [U32SUB] s0' \
            (s0' - 1) + ([U32MUL] + [U32DIV])(s0' - L(6)) + [U32MADD](s0' - L(8)); without it: so may the high word, the \
            carry, the borrow or the remainder\n\
            here s0' is 0, must be 1\n\
            row 1 U32ADD clk=1 fmp=1073741824 addr=1 b1=1 b2=1 b3=1 b4=1 h0=30 sp=1 depth=16 ha=1 lv=1 t6=1\n\
            row 2 END clk=2 fmp=1073741824 addr=1 b2=1 b3=1 b6=1 h5=1 depth=16 ha=1 lv=1\n\
            rows refused 1\n",
    },
    // It is a U32SUB with a borrow of 2.
    Row {
        words: &["explain", "z", "t", "s"],
        files: &[
            ("z", Content::Zeros(168)),
            (
                "t",
                Content::Table(
                    &[
                        (16, 31),
                        (74, 1),
                        (75, 1),
                        (76, 1),
                        (77, 1),
                        (78, 1),
                        (81, 31),
                        (160, 2),
                    ],
                    3748,
                ),
            ),
            ("s", Content::Text(STATEMENT)),
        ],
        failing_call: 0,
        number: 1,
        printed: "refused main row 1 constraint 144 value 2\n\
            constraint 144 P must be 0: [U32SPLIT](s0' - L(2)) + [U32ADD](s0' - t6) + [U32ADD3](s0' - t8) + [U32SUB] s0' \
            (s0' - 1) + ([U32MUL] + [U32DIV])(s0' - L(6)) + [U32MADD](s0' - L(8)); without it: so may the high word, the \
            carry, the borrow or the remainder\n\
            here s0' (s0' - 1)\n\
            row 1 U32SUB clk=1 fmp=1073741824 addr=1 b0=1 b1=1 b2=1 b3=1 b4=1 h0=31 sp=1 depth=16 ha=1 lv=1\n\
            row 2 END clk=2 fmp=1073741824 addr=1 b2=1 b3=1 b6=1 h5=1 s0=2 depth=16 ha=1 lv=1\n\
            also main row 2 constraint 119 value 18446744069414584319\n\
            rows refused 2\n",
    },
    // It takes 0 off 0, and 1 is left.
    Row {
        words: &["explain", "z", "t", "s"],
        files: &[
            ("z", Content::Zeros(168)),
            (
                "t",
                Content::Table(
                    &[
                        (16, 31),
                        (74, 1),
                        (75, 1),
                        (76, 1),
                        (77, 1),
                        (78, 1),
                        (81, 31),
                        (124, 1),
                        (161, 1),
                    ],
                    3748,
                ),
            ),
            ("s", Content::Text(STATEMENT)),
        ],
        failing_call: 0,
        number: 1,
        printed: "refused main row 1 constraint 145 value 18446744069414584320\n\
            value 18446744069414584320 is -1\n\
            constraint 145 P must be 0: [U32SPLIT](s0 - r) + [U32ADD](s0 + s1 - r) + [U32ADD3](s0 + s1 + s2 - r) + \
            [U32MUL](s0 s1 - r) + [U32MADD](s0 s1 + s2 - r) + [U32SUB](s1 - s0 - s1' + 2^32 s0') + [U32DIV](s1 - s0 s1' - \
            s0'); without it: the result is another number\n\
            here s1 - s0 - s1' + 2^32 s0'\n\
            row 1 U32SUB clk=1 fmp=1073741824 addr=1 b0=1 b1=1 b2=1 b3=1 b4=1 h0=31 sp=1 depth=16 ha=1 lv=1 t4=1\n\
            row 2 END clk=2 fmp=1073741824 addr=1 b2=1 b3=1 b6=1 h5=1 s1=1 depth=16 ha=1 lv=1\n\
            also main row 2 constraint 120 value 18446744069414584320\n\
            rows refused 2\n",
    },
];

static BUSES: [Row; 10] = [
    // The value 1023 is given twice.
    Row {
        words: &["explain", "z", "t", "s"],
        files: &[
            ("z", Content::Zeros(168)),
            ("t", Content::Table(&[(274, 2)], 3748)),
            ("s", Content::Text(STATEMENT)),
        ],
        failing_call: 0,
        number: 1,
        printed: "refused bus range tuple 1023 asked 1 given 2\n\
            bus range must be even: numbers of 16 bits; no more than 1,024 blocks nest; without it a false run could take \
            any element for a limb, so that words and addresses have no bound and memory may stand in any order, and nest \
            more than 1,024 blocks\n\
            tuple v=1023\n\
            main row 0 SPAN asks 1\n\
            range row 7 gives 2\n\
            rows asking 1 giving 1\n",
    },
    // Twenty rows give 0, which no row asks, and sixteen of them are told.
    Row {
        words: &["explain", "z", "t", "s"],
        files: &[
            ("z", Content::Zeros(168)),
            ("t", Content::RangeRows(20)),
            ("s", Content::Text(STATEMENT)),
        ],
        failing_call: 0,
        number: 1,
        printed: "refused bus range tuple 0 asked 0 given 20\n\
            bus range must be even: numbers of 16 bits; no more than 1,024 blocks nest; without it a false run could take \
            any element for a limb, so that words and addresses have no bound and memory may stand in any order, and nest \
            more than 1,024 blocks\n\
            tuple v=0\n\
            range row 0 gives 1\n\
            range row 1 gives 1\n\
            range row 2 gives 1\n\
            range row 3 gives 1\n\
            range row 4 gives 1\n\
            range row 5 gives 1\n\
            range row 6 gives 1\n\
            range row 7 gives 1\n\
            range row 8 gives 1\n\
            range row 9 gives 1\n\
            range row 10 gives 1\n\
            range row 11 gives 1\n\
            range row 12 gives 1\n\
            range row 13 gives 1\n\
            range row 14 gives 1\n\
            range row 15 gives 1\n\
            rows asking 0 giving 20\n",
    },
    // The statement names another digest than the END of the program, which is not given.
    Row {
        words: &["explain", "z", "t", "s"],
        files: &[
            ("z", Content::Zeros(168)),
            ("t", Content::Table(&[], 3748)),
            ("s", Content::Text(OTHER_DIGEST)),
        ],
        failing_call: 0,
        number: 1,
        printed: "refused bus children tuple 0 0 0 0 0 0 asked 1 given 0\n\
            bus children must be even: the block that ran is the one that its parent's hash names, or, behind DYN, the \
            digest on top of the stack, first child before second; the outermost one has the statement's digest; without it \
            a false run could run any block in place of a child, run a join's first child alone or twice, and show a tree \
            of another digest than the statement's\n\
            tuple parent=0 d0=0 d1=0 d2=0 d3=0 more=0\n\
            where more 0 is a child behind which no block starts\n\
            main row 2 END asks 1\n\
            rows asking 1 giving 0\n",
    },
    // The END of the program names another digest than the statement, whose digest is not asked.
    Row {
        words: &["explain", "z", "t", "s"],
        files: &[
            ("z", Content::Zeros(168)),
            ("t", Content::Table(&[(149, 1)], 3748)),
            ("s", Content::Text(STATEMENT)),
        ],
        failing_call: 0,
        number: 1,
        printed: "refused bus children tuple 0 0 0 0 0 0 asked 0 given 1\n\
            bus children must be even: the block that ran is the one that its parent's hash names, or, behind DYN, the \
            digest on top of the stack, first child before second; the outermost one has the statement's digest; without it \
            a false run could run any block in place of a child, run a join's first child alone or twice, and show a tree \
            of another digest than the statement's\n\
            tuple parent=0 d0=0 d1=0 d2=0 d3=0 more=0\n\
            where more 0 is a child behind which no block starts\n\
            statement gives 1\n\
            rows asking 0 giving 0\n\
            beside main row 2 END clk=2 fmp=1073741824 addr=1 b2=1 b3=1 b6=1 h3=1 h5=1 depth=16 ha=1 lv=1\n",
    },
    // No row asks for what the first access gives, and one at its address and its clock gives another word.
    Row {
        words: &["explain", "z", "t", "s"],
        files: &[
            ("z", Content::Zeros(168)),
            ("t", Content::MemoryRows(2)),
            ("s", Content::Text(STATEMENT)),
        ],
        failing_call: 0,
        number: 1,
        printed: "refused bus memory tuple 0 0 0 0 0 0 0 0 asked 0 given 1\n\
            bus memory must be even: words are what was written last; without it a false run could read any word\n\
            tuple kind=0 ctx=0 addr=0 clk=0 v0=0 v1=0 v2=0 v3=0\n\
            where kind 0 is a word that is read\n\
            memory row 0 gives 1\n\
            rows asking 0 giving 1\n\
            beside main row 0 SPAN fmp=1073741824 b0=1 b3=1 b6=1 depth=16\n\
            beside memory row 1 kind=1 v0=1 d0=18446744069414584320\n",
    },
    // Seventeen of them do, and sixteen are told.
    Row {
        words: &["explain", "z", "t", "s"],
        files: &[
            ("z", Content::Zeros(168)),
            ("t", Content::MemoryRows(18)),
            ("s", Content::Text(STATEMENT)),
        ],
        failing_call: 0,
        number: 1,
        printed: "refused bus memory tuple 0 0 0 0 0 0 0 0 asked 0 given 1\n\
            bus memory must be even: words are what was written last; without it a false run could read any word\n\
            tuple kind=0 ctx=0 addr=0 clk=0 v0=0 v1=0 v2=0 v3=0\n\
            where kind 0 is a word that is read\n\
            memory row 0 gives 1\n\
            rows asking 0 giving 1\n\
            beside main row 0 SPAN fmp=1073741824 b0=1 b3=1 b6=1 depth=16\n\
            beside memory row 1 kind=1 v0=1 d0=18446744069414584320\n\
            beside memory row 2 kind=1 v0=1 d0=18446744069414584320\n\
            beside memory row 3 kind=1 v0=1 d0=18446744069414584320\n\
            beside memory row 4 kind=1 v0=1 d0=18446744069414584320\n\
            beside memory row 5 kind=1 v0=1 d0=18446744069414584320\n\
            beside memory row 6 kind=1 v0=1 d0=18446744069414584320\n\
            beside memory row 7 kind=1 v0=1 d0=18446744069414584320\n\
            beside memory row 8 kind=1 v0=1 d0=18446744069414584320\n\
            beside memory row 9 kind=1 v0=1 d0=18446744069414584320\n\
            beside memory row 10 kind=1 v0=1 d0=18446744069414584320\n\
            beside memory row 11 kind=1 v0=1 d0=18446744069414584320\n\
            beside memory row 12 kind=1 v0=1 d0=18446744069414584320\n\
            beside memory row 13 kind=1 v0=1 d0=18446744069414584320\n\
            beside memory row 14 kind=1 v0=1 d0=18446744069414584320\n\
            beside memory row 15 kind=1 v0=1 d0=18446744069414584320\n\
            beside memory row 16 kind=1 v0=1 d0=18446744069414584320\n",
    },
    // The END of the span ends a block of another kind.
    Row {
        words: &["explain", "z", "t", "s"],
        files: &[
            ("z", Content::Zeros(168)),
            ("t", Content::Table(&[(151, 0)], 3748)),
            ("s", Content::Text(STATEMENT)),
        ],
        failing_call: 0,
        number: 1,
        printed: "refused bus blocks tuple 1 0 0 0 0 0 0 0 0 0 0 0 asked 1 given 0\n\
            bus blocks must be even: each END closes the block that was started, returns to its parent, and a call gives \
            back what it set aside; without it a false run could end a block twice, or one that was never started, return to \
            another parent, and bring back any context, frame, depth and cells below the sixteenth behind a call\n\
            tuple block=1 parent=0 kind=0 ctx=0 fmp=0 sys=0 depth=0 key=0 f0=0 f1=0 f2=0 f3=0\n\
            where kind 0 is a JOIN, a SPLIT, a DYN, or a LOOP with s0 = 0\n\
            main row 2 END asks 1\n\
            rows asking 1 giving 0\n\
            beside main row 0 SPAN fmp=1073741824 b0=1 b3=1 b6=1 depth=16\n",
    },
    // The second group of a span is not the one that it started with.
    Row {
        words: &["explain", "z", "t", "s"],
        files: &[
            ("z", Content::Zeros(168)),
            ("t", Content::Main(SECOND_GROUP)),
            ("s", Content::Text(STATEMENT)),
        ],
        failing_call: 0,
        number: 1,
        printed: "refused bus groups tuple 1 1 0 asked 1 given 0\n\
            bus groups must be even: groups and immediates are the positions of the batch, in order, each once; without it a \
            false run could run groups behind the first one, and push immediates, that are not the batch's\n\
            tuple batch=1 left=1 group=0\n\
            main row 1 NOOP asks 1\n\
            rows asking 1 giving 0\n\
            beside main row 0 SPAN fmp=1073741824 b0=1 b3=1 b6=1 h1=1 c2=1 depth=16 w0=1\n",
    },
    // A cell comes back as another one.
    Row {
        words: &["explain", "z", "t", "s"],
        files: &[
            ("z", Content::Zeros(168)),
            ("t", Content::Main(LOST_CELL)),
            ("s", Content::Text(SIXTEENTH)),
        ],
        failing_call: 0,
        number: 1,
        printed: "refused bus overflow tuple 1 0 0 asked 1 given 0\n\
            bus overflow must be even: cells below the sixteenth come back as they went; without it a false run could bring \
            in any cell from below the sixteenth, and end with other outputs there\n\
            tuple key=1 cell=0 below=0\n\
            main row 2 DROP asks 1\n\
            rows asking 1 giving 0\n\
            beside main row 1 PAD clk=1 fmp=1073741824 addr=1 b2=1 b4=1 b5=1 h0=5556 sp=1 s15=5 depth=16 ha=1 lv=1 \
            w3=1712624676502698508\n",
    },
    // The permutation is one of HPERM, and the span's hash begins nowhere.
    Row {
        words: &["explain", "z", "t", "s"],
        files: &[
            ("z", Content::Zeros(168)),
            (
                "t",
                Content::Table(
                    &[
                        (344, 1),
                        (359, 1),
                        (374, 1),
                        (389, 1),
                        (404, 1),
                        (419, 1),
                        (434, 1),
                        (449, 1),
                    ],
                    3748,
                ),
            ),
            ("s", Content::Text(STATEMENT)),
        ],
        failing_call: 0,
        number: 1,
        printed: "refused bus hasher tuple 1 1 0 0 0 0 0 0 0 0 0 asked 1 given 0\n\
            bus hasher must be even: a block's digest is the hash of what its start shows; without it a false run could show \
            a batch or children that the block's digest does not come from, and leave any state at HPERM\n\
            tuple tag=1 address=1 x0=0 x1=0 x2=0 x3=0 x4=0 x5=0 x6=0 x7=0 x8=0\n\
            where tag 1 is the beginning of a hash\n\
            main row 0 SPAN asks 1\n\
            rows asking 1 giving 0\n\
            beside hasher row 0 mode=1\n",
    },
];

#[test]
fn faults_are_explained(rt: HostRuntime) -> Result<(), Fail> {
    all_hold(&rt, &FAULTS)
}

#[test]
fn terms_of_operations_are_told(rt: HostRuntime) -> Result<(), Fail> {
    all_hold(&rt, &TERMS)
}

#[test]
fn buses_are_explained(rt: HostRuntime) -> Result<(), Fail> {
    all_hold(&rt, &BUSES)
}
