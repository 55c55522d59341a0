//! Truth values and assertions.

use crate::tests::rows::{Gives, Row, UNTOUCHED, gives, or, rows};
use vm_ops::Cause;

pub static TRUTHS: [Row; 20] = rows! {
    b"not" 200 [0] => [1] gone 1;
    b"not" 200 [2] => NotBinary;
    b"and" 200 [1 1] => [1] gone 2;
    b"and" 200 [0 1] => [0] gone 2;
    b"and" 200 [1 2] => NotBinary;
    b"or" 200 [0 1] => [1] gone 2;
    b"or" 200 [2 0] => NotBinary;
    b"xor" 200 [1 0] => [1] gone 2;
    b"xor" 200 [1 1] => [0] gone 2;
    b"xor" 200 [0 2] => NotBinary;
    b"eqw" 200 [1 2 3 4 1 2 3 4] => [1];
    b"eqw" 200 [1 2 3 4 1 2 3 5] => [0];
    b"assert" 200 [1] => [] gone 1;
    b"assert" 200 [2] => AssertFailed;
    b"assertz" 200 [0] => [] gone 1;
    b"assertz" 200 [1] => AssertFailed;
    b"assert_eq" 200 [18446744069414584320 18446744069414584320] => [] gone 2;
    b"assert_eq" 200 [1 2] => AssertFailed;
    b"assert_eqw" 200 [1 2 3 4 1 2 3 4 9] => [] gone 8;
    b"assert_eqw" 200 [1 2 3 4 1 2 5 4] => AssertFailed;
};
