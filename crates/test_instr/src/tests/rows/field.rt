//! Field arithmetic, and the order of elements.

use crate::tests::rows::{Gives, Row, UNTOUCHED, gives, or, rows};
use vm_ops::Cause;

pub static FIELD: [Row; 21] = rows! {
    b"add" 200 [5 18446744069414584320] => [4] gone 2;
    b"add.7" 200 [18446744069414584317] => [3] gone 1;
    b"sub" 200 [5 3] => [18446744069414584319] gone 2;
    b"sub.0" 200 [4] => [4] gone 1;
    b"mul" 200 [18446744069414584320 18446744069414584320] => [1] gone 2;
    b"mul.3" 200 [4294967296] => [12884901888] gone 1;
    b"div" 200 [2 7] => [9223372034707292164] gone 2;
    b"div" 200 [0 7] => ZeroInverse;
    b"div.0" 200 [7] => ZeroInverse;
    b"neg" 200 [0] => [0] gone 1;
    b"neg" 200 [1] => [18446744069414584320] gone 1;
    b"inv" 200 [18446744069414584320] => [18446744069414584320] gone 1;
    b"inv" 200 [0] => ZeroInverse;
    b"exp.0" 200 [0] => [1] gone 1;
    b"exp.1" 200 [9] => [9] gone 1;
    b"exp.6" 200 [3] => [729] gone 1;
    b"exp.18446744069414584320" 200 [3] => [1] gone 1;
    b"pow2" 200 [0] => [1] gone 1;
    b"pow2" 200 [63] => [9223372036854775808] gone 1;
    b"pow2" 200 [64] => AssertFailed;
    b"pow2" 200 [4294967296] => NotU32;
};

pub static ORDER: [Row; 16] = rows! {
    b"eq" 200 [7 7] => [1] gone 2;
    b"eq.7" 200 [8] => [0] gone 1;
    b"neq" 200 [7 7] => [0] gone 2;
    b"neq.7" 200 [8] => [1] gone 1;
    b"lt" 200 [5 7] => [0] gone 2;
    b"lt" 200 [7 5] => [1] gone 2;
    b"lt" 200 [4294967296 4294967295] => [1] gone 2;
    b"lt" 200 [18446744069414584320 18446744069414584320] => [0] gone 2;
    b"gt" 200 [5 7] => [1] gone 2;
    b"gt" 200 [4294967296 4294967297] => [1] gone 2;
    b"lte" 200 [5 5] => [1] gone 2;
    b"lte" 200 [5 7] => [0] gone 2;
    b"gte" 200 [5 5] => [1] gone 2;
    b"gte" 200 [7 5] => [0] gone 2;
    b"is_odd" 200 [18446744069414584320] => [0] gone 1;
    b"is_odd" 200 [4294967297] => [1] gone 1;
};
