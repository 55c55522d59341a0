//! The constraints in words (docs/CONSTRAINTS.md).
ghost use Rattle.std.specs.Prelude.{◌≡◌, map};
ghost use Rattle.show_constraints.specs.Words.{rows_of, text_for, words_of};

use air_kit::TableName;

// Constraints that stand in one row of the page have one text, behind the last of their numbers.

// What docs/CONSTRAINTS.md says.
const MAIN: [(u16, &str); 57] = [
    (
        7,
        "1..7 E must be 0: b_j (b_j - 1), j = 0..6; without it: a \"bit\" 2 makes several \
         flags non-zero, and a row is half of two operations",
    ),
    (
        8,
        "8 E must be 0: 1 - the sum of all flags; without it: a row has no operation, and \
         every constraint under a flag is void in it",
    ),
    (
        9,
        "9 F must be 0: clk; without it: the run counts from another clock, and CLK leaves a \
         wrong number",
    ),
    (
        10,
        "10 P must be 0: clk' - clk - 1; without it: keys and memory's order, which rest on \
         different clocks, can be faked",
    ),
    (
        11,
        "11 F must be 0: 1 - [Start]; without it: the run begins inside a block that nobody \
         started",
    ),
    (
        20,
        "12..20 F must be 0: addr; ctx; fmp - 2^30; sys; f0..f3; lv; without it: it begins \
         inside a call, a syscall or with blocks open",
    ),
    (
        22,
        "21, 22 F must be 0: depth - d, where d is the number of inputs, 16 at least; key - \
         k, where k is p - 1 where there are more than sixteen inputs, else 0; without it: \
         it begins with cells below the sixteenth that no statement names, or without some \
         that are named",
    ),
    (
        38,
        "23..38 F must be 0: s_j - input j, j = 0..15; without it: it begins from other \
         inputs",
    ),
    (
        39,
        "39 F must be 0: kernel rows - length of the kernel; without it: a syscall goes to a \
         digest that the statement does not list",
    ),
    (
        40,
        "40 F must be 0: left rows - (length of the outputs - 16); without it: outputs below \
         the sixteenth are not asked, or more are",
    ),
    (
        41,
        "41 L must be 0: 1 - [HALT]; without it: the run stops in the middle of the program",
    ),
    (
        43,
        "42, 43 L must be 0: depth - length of the outputs; key - the first left key, 0 \
         where there is none; without it: it ends with more or fewer cells than the outputs; \
         it ends with other cells below the sixteenth",
    ),
    (
        59,
        "44..59 L must be 0: s_j - output j, j = 0..15; without it: it ends with other \
         outputs",
    ),
    (
        60,
        "60 P must be 0: [HALT]; without it: rows follow the end",
    ),
    (
        61,
        "61 E must be 0: sp - [Ord]; without it: ordinary operations run outside a span, \
         where no batch names them",
    ),
    (
        62,
        "62 P must be 0: ([JOIN] + [SPLIT] + C + [REPEAT] + [DYN] + [LOOP] s0)(1 - \
         [Start]'); without it: a child, a callee, a target or a loop's body is skipped",
    ),
    (
        63,
        "63 P must be 0: [LOOP](1 - s0)(1 - [END]'); without it: a loop whose condition is 0 \
         runs something",
    ),
    (
        64,
        "64 P must be 0: B (1 - sp'); without it: a batch runs nothing",
    ),
    (
        65,
        "65 P must be 0: sp (1 - sp' - [END]' - [RESPAN]'); without it: a span breaks off \
         into another block",
    ),
    (
        66,
        "66 P must be 0: [END](1 - [Start]' - [END]' - [REPEAT]' - [HALT]'); without it: \
         operations follow a block without a span",
    ),
    (
        69,
        "67, 68, 69 E must be 0: ([SPLIT] + [LOOP]) s0 (s0 - 1); [REPEAT](s0 - 1); [END] h4 \
         s0; without it: a condition is no bit; a loop goes on where its condition is not 1; \
         it ends where that is not 0",
    ),
    (
        74,
        "70..73, 74 E must be 0: [END] h_j (h_j - 1), j = 4..7; [END] q (q - 1), q = h4 + h5 \
         + h6 + h7; without it: the kinds of an END are no bits; a block ends as two kinds \
         at once",
    ),
    (
        78,
        "75..78 E must be 0: ([LOOP] + C + [DYN]) h_j, j = 4..7; without it: a block with \
         one child hashes something beside its digest, and a dynamic block something beside \
         the zeros of 148 to 151",
    ),
    (
        81,
        "79, 80, 81 E must be 0: C sys; [CALLER](1 - sys); [HALT] addr; without it: calls \
         inside a syscall; CALLER outside of one; 81 alone refuses nothing: a block that is \
         open at the end leaves the blocks bus uneven",
    ),
    (
        82,
        "82 P must be 0: [CALL](ctx' - clk - 1) + [SYSCALL] ctx' + (1 - C - X)(ctx' - ctx); \
         without it: a function reads another one's memory",
    ),
    (
        83,
        "83 P must be 0: [CALL](fmp' - 2^30) + [SYSCALL](fmp' - 2^31) + [FMPUPDATE](fmp' - \
         fmp - s0) + (1 - C - X - [FMPUPDATE])(fmp' - fmp); without it: locals lie on other \
         locals",
    ),
    (
        84,
        "84 P must be 0: [CALL] sys' + [SYSCALL](sys' - 1) + (1 - C - X)(sys' - sys); \
         without it: code passes for the kernel's",
    ),
    (
        88,
        "85..88 P must be 0: [CALL](f_j' - h_j) + (1 - [CALL] - X)(f_j' - f_j), j = 0..3; \
         without it: CALLER names another function",
    ),
    (
        89,
        "89 P must be 0: (1 - [Start] - [END])(addr' - addr); without it: rows move into \
         another block",
    ),
    (
        90,
        "90 P must be 0: lv' - lv - [Start] + [END]; without it: nesting is not counted, and \
         its bound on the range bus is void",
    ),
    (
        91,
        "91 P must be 0: [SPAN](ha' - addr') + [RESPAN](ha' - ha - 8) + sp (ha' - ha); \
         without it: a span takes a batch of another hash",
    ),
    (
        95,
        "92..94, 95 E must be 0: B c_j (c_j - 1), j = 0..2; B (c0 + c1 + c2)(c0 + c1 + c2 - \
         1); without it: a batch has a count of positions that no batch has",
    ),
    (
        102,
        "96..102 E must be 0: B u_q h_q, q = 1..7; u1 = 1 - c0 - c1 - c2, u2 = u3 = 1 - c0 - \
         c1, u4 to u7 = 1 - c0; without it: positions that were hashed are never executed",
    ),
    (
        103,
        "103 E must be 0: B (c0 (h4 w0 + h5 w1 + h6 w2 + h7 w3 - 1) + c1 (h2 w0 + h3 w1 - 1) \
         + c2 (h1 w0 - 1)); without it: zeros behind the batch are executed as NOOPs",
    ),
    (
        106,
        "104, 105, 106 P must be 0: B (h0' - h0); B (gc' - 7 c0 - 3 c1 - c2); B ox'; without \
         it: a batch begins with another group than its first; 105 and 106 alone refuse \
         nothing: the groups bus names each position of a batch once, and by 114 a count \
         that starts late only makes a group shorter",
    ),
    (
        107,
        "107 E must be 0: sp z (1 - nz); without it: a group that is not empty passes for an \
         empty one",
    ),
    (
        109,
        "108, 109 P must be 0: sp stay (1 - sp'); sp stay (128 h0' - z); without it: a group \
         is left early; its digits are changed",
    ),
    (
        110,
        "110 P must be 0: sp stay (ox' - ox - 1); without it: the operations of a group are \
         not counted, and 114 bounds nothing",
    ),
    (
        111,
        "111 P must be 0: sp (1 - stay) sp' ox'; without it: nothing alone, as 106: a count \
         that starts late makes a group shorter",
    ),
    (
        112,
        "112 P must be 0: sp (1 - sp') gc; without it: a batch ends with positions left",
    ),
    (
        113,
        "113 P must be 0: sp sp' (gc' - gc + [PUSH] + 1 - stay); without it: groups and \
         immediates take positions twice, or none",
    ),
    (
        114,
        "114 E must be 0: sp times the product of (ox - j), j = 0..8; without it: a group of \
         ten digits runs an operation that its number, taken modulo p, does not name",
    ),
    (
        115,
        "115 E must be 0: (depth - 16)(1 - o); without it: a deep stack passes for one of \
         sixteen cells, and loses the cells below",
    ),
    (
        116,
        "116 P must be 0: Rt (depth' - depth - 1) + Lf (depth' - depth + o) + C (depth' - \
         16) + N (depth' - depth); without it: the depth is not that of the stack",
    ),
    (
        117,
        "117 E must be 0: X (depth - 16); without it: nothing alone: the blocks bus brings \
         the caller's depth and key back, and the overflow bus refuses cells that a callee \
         leaves",
    ),
    (
        118,
        "118 P must be 0: Rt (key' - clk) + Lf (1 - o)(key' - key) + C key' + N (key' - \
         key); without it: cells come back in another order",
    ),
    (
        134,
        "119..134 P must be 0: the sum over all operations of [op] T(op, j); without it: \
         cell j is not what the operation leaves",
    ),
    (
        136,
        "135, 136 P must be 0: [EQZ] s0 s0'; [EQ](s0 - s1) s0'; without it: EQZ leaves 1 of \
         a cell that is not 0, EQ of two that differ",
    ),
    (
        138,
        "137, 138 E must be 0: ([NOT] + [AND] + [OR] + [CSWAP] + [CSWAPW]) s0 (s0 - 1); \
         ([AND] + [OR]) s1 (s1 - 1); without it: operations on bits run on other numbers",
    ),
    (
        139,
        "139 E must be 0: [ASSERT](s0 - 1); without it: an assertion that fails passes",
    ),
    (
        142,
        "140, 141, 142 E must be 0: Two (s0 - L(0)); Two (s1 - L(2)); Three (s2 - L(4)); \
         without it: the first, the second or the third operand may have more than 32 bits",
    ),
    (
        143,
        "143 P must be 0: [U32SPLIT](s1' - L(0)) + ([U32ADD] + [U32SUB] + [U32MUL] + \
         [U32DIV])(s1' - L(4)) + Three (s1' - L(6)); without it: the low word, the \
         difference or the quotient may have more than 32 bits, and 145 holds with other \
         results",
    ),
    (
        144,
        "144 P must be 0: [U32SPLIT](s0' - L(2)) + [U32ADD](s0' - t6) + [U32ADD3](s0' - t8) \
         + [U32SUB] s0' (s0' - 1) + ([U32MUL] + [U32DIV])(s0' - L(6)) + [U32MADD](s0' - \
         L(8)); without it: so may the high word, the carry, the borrow or the remainder",
    ),
    (
        145,
        "145 P must be 0: [U32SPLIT](s0 - r) + [U32ADD](s0 + s1 - r) + [U32ADD3](s0 + s1 + \
         s2 - r) + [U32MUL](s0 s1 - r) + [U32MADD](s0 s1 + s2 - r) + [U32SUB](s1 - s0 - s1' \
         + 2^32 s0') + [U32DIV](s1 - s0 s1' - s0'); without it: the result is another number",
    ),
    (
        146,
        "146 P must be 0: ([U32SPLIT] + [U32MUL] + [U32MADD])(1 - (2^32 - 1 - s0') w0) s1'; \
         without it: a number below 2^32 - 1 is written a second way, as itself plus p",
    ),
    (
        147,
        "147 E must be 0: [U32DIV](s0 - L(6) - 1 - L(8)); without it: a remainder may be the \
         divisor or more",
    ),
    (
        151,
        "148..151 E must be 0: [DYN] h_j, j = 0..3; without it: a dynamic block has a digest \
         that no tree's dynamic block has, and the statement's digest is that of no tree",
    ),
];

const RANGE: [(u16, &str); 3] = [
    (
        1,
        "1 F must be 0: v; without it: the table begins below 0, with p - 1 or less, and \
         vouches for that",
    ),
    (
        2,
        "2 L must be 0: v - 65535; without it: it goes on above 65535, and vouches for \
         numbers of more than 16 bits",
    ),
    (
        3,
        "3 P must be 0: the product of (v' - v - e), e = 0, 1, 3, 9, 27, 81, 243, 729, 2187; \
         without it: a row holds any element and vouches for it",
    ),
];

const HASHER: [(u16, &str); 11] = [
    (
        1,
        "1 E must be 0: mode (mode - 1); without it: a permutation is neither HPERM's nor a \
         hash's, and still gives a hash's tuples",
    ),
    (
        2,
        "2 E must be 0: cont (cont - 1); without it: a permutation neither begins a hash nor \
         goes on with one",
    ),
    (
        3,
        "3 E must be 0: more (more - 1); without it: a hash neither ends with a permutation \
         nor goes on behind it",
    ),
    (
        4,
        "4 E must be 0: mode (cont + more); without it: a permutation of HPERM counts as \
         part of a hash",
    ),
    (
        6,
        "5; 6 F; L must be 0: cont; more; without it: a hash begins in front of the table; \
         it goes on behind it",
    ),
    (
        7,
        "7 E, k < 7 must be 0: more; without it: nothing alone: `more` is read in the last \
         of the eight rows only",
    ),
    (
        9,
        "8, 9 P, k < 7 must be 0: mode' - mode; cont' - cont; without it: a permutation is \
         HPERM's in one row and a hash's in another; 9 alone refuses nothing: `cont` is read \
         in the first of the eight rows only",
    ),
    (
        10,
        "10 P, k = 7 must be 0: cont' - more; without it: a hash that ended is gone on with, \
         from a capacity of choice",
    ),
    (
        13,
        "11, 12, 13 E, k = 0 must be 0: (1 - mode)(1 - cont) x_j, j = 0, 2, 3; without it: a \
         hash begins from a capacity of choice, and any digest can be made",
    ),
    (
        17,
        "14..17 P, k = 7 must be 0: more (x_j' - x_j), j = 0..3; without it: the same in the \
         middle of a hash",
    ),
    (
        29,
        "18..29 P, k < 7 must be 0: x_j'^7 - u_j, j = 0..11; without it: states are not \
         those of the permutation",
    ),
];

const BITWISE: [(u16, &str); 5] = [
    (
        1,
        "1 E must be 0: op (op - 1); without it: a row mixes both operations",
    ),
    (
        9,
        "2..5; 6..9 E must be 0: a_j (a_j - 1); b_j (b_j - 1), j = 0..3; without it: four \
         bits spell any number",
    ),
    (
        12,
        "10, 11, 12 E, k = 0 must be 0: a - A; b - B; z - Z; without it: an operation begins \
         with bits in front of its own",
    ),
    (
        13,
        "13 P, k < 7 must be 0: op' - op; without it: the operation changes on the way",
    ),
    (
        16,
        "14, 15, 16 P, k < 7 must be 0: a' - 16 a - A'; b' - 16 b - B'; z' - 16 z - Z'; \
         without it: the numbers are not those of the eight rows' bits",
    ),
];

const MEMORY: [(u16, &str); 8] = [
    (
        1,
        "1 E must be 0: kind (kind - 1)(kind - 2); without it: nothing alone: accesses of \
         other kinds are asked by no row",
    ),
    (
        4,
        "2, 3, 4 E must be 0: n0 (n0 - 1); n1 (n1 - 1); n0 n1; without it: g is no bit, and \
         a read shows a multiple of the word",
    ),
    (
        5,
        "5 E must be 0: addr - a0 - 65536 a1; without it: an address of more than 32 bits",
    ),
    (
        6,
        "6 F must be 0: 1 - n0; without it: nothing alone: the first row's n0 is read by 2 \
         to 4 only, and 10 to 13 hold its word",
    ),
    (
        8,
        "7, 8 P must be 0: (1 - n0')(ctx' - ctx); (1 - n0')(1 - n1')(addr' - addr); without \
         it: a read shows the word of another context or address",
    ),
    (
        9,
        "9 P must be 0: n0' (ctx' - ctx - 1 - D') + n1' (addr' - addr - 1 - D') + g (clk' - \
         clk - 1 - D'); without it: one word stands in the table twice, or a read shows what \
         is written later",
    ),
    (
        13,
        "10; 11..13 F must be 0: (kind - 1)(kind - 2) v0; (kind - 1) v_j, j = 1..3; without \
         it: memory does not begin as zeros",
    ),
    (
        17,
        "14; 15..17 P must be 0: (kind' - 1)(kind' - 2)(v0' - g v0); (kind' - 1)(v_j' - g \
         v_j), j = 1..3; without it: a read changes the word, or a write of element 0 the \
         others",
    ),
];

const KERNEL: [(u16, &str); 1] = [(
    4,
    "1..4 E must be 0: d_j - element j of the statement's kernel digest i, j = 0..3; \
         without it: a row has a digest that the statement does not list, and a syscall goes \
         to it",
)];

// The end of what it says.

/// The constraint of this number in words: its row's numbers, where they hold, what must be 0, and what a false run could do without
/// it. Empty where there is no such constraint.
#[tactic(auto, unfolding(crate::specs::Words::words_of))]
pub fn words_of(table: TableName, number: u16) -> &'static str
    ensures { result.now ≡ words_of table number }
{
    text_for(number, rows_of(table))
}

// The text at the first number that is not below this one.
#[tactic(auto, unfolding(crate::specs::Words::text_for))]
fn text_for(number: u16, rows: &[(u16, &'static str)]) -> &'static str
    ensures { result.now ≡ text_for number (map (λ row. (row.0, row.1.now)) rows.now) }
{
    match rows {
        [] => "",
        [(last, text), rows @ ..] => {
            if number <= *last {
                text
            } else {
                text_for(number, rows)
            }
        }
    }
}

#[tactic(auto, unfolding(crate::specs::Words::rows_of))]
fn rows_of(table: TableName) -> &'static [(u16, &'static str)]
    ensures { map (λ row. (row.0, row.1.now)) result.now ≡ rows_of table }
{
    match table {
        TableName::Main => &MAIN,
        TableName::Range => &RANGE,
        TableName::Hasher => &HASHER,
        TableName::Bitwise => &BITWISE,
        TableName::Memory => &MEMORY,
        TableName::Kernel => &KERNEL,
        TableName::Left => &[],
    }
}
