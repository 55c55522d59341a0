//! Numbers of 32 bits: tests and arithmetic.

use crate::tests::rows::{Gives, Row, UNTOUCHED, gives, or, rows};
use vm_ops::Cause;

pub static RANGES: [Row; 10] = rows! {
    b"u32test" 200 [4294967295] => [1];
    b"u32test" 200 [4294967296] => [0];
    b"u32assert" 200 [4294967295] => [];
    b"u32assert" 200 [4294967296] => NotU32;
    b"u32assert.2" 200 [1 4294967295] => [];
    b"u32assert.2" 200 [1 4294967296] => NotU32;
    b"u32assertw" 200 [1 2 3 4294967295] => [];
    b"u32assertw" 200 [1 2 4294967296 3] => NotU32;
    b"u32cast" 200 [18446744069414584320] => [0] gone 1;
    b"u32split" 200 [18446744069414584320] => [4294967295 0] gone 1;
};

pub static WORDS: [Row; 15] = rows! {
    b"u32checked_add" 200 [1 4294967294] => [4294967295] gone 2;
    b"u32checked_add.1" 200 [4294967295] => AssertFailed;
    b"u32checked_add.4294967295" 200 [0] => [4294967295] gone 1;
    b"u32checked_sub" 200 [7 7] => [0] gone 2;
    b"u32checked_sub.1" 200 [0] => AssertFailed;
    b"u32checked_mul" 200 [65536 65535] => [4294901760] gone 2;
    b"u32checked_mul.65536" 200 [65536] => AssertFailed;
    b"u32checked_add" 200 [4294967296 0] => NotU32;
    b"u32wrapping_add" 200 [4294967295 2] => [1] gone 2;
    b"u32wrapping_add.1" 200 [4294967295] => [0] gone 1;
    b"u32wrapping_sub" 200 [1 0] => [4294967295] gone 2;
    b"u32wrapping_sub.1" 200 [0] => [4294967295] gone 1;
    b"u32wrapping_mul" 200 [4294967295 4294967295] => [1] gone 2;
    b"u32wrapping_mul.2" 200 [4294967295] => [4294967294] gone 1;
    b"u32wrapping_sub" 200 [0 4294967296] => NotU32;
};

pub static CARRIES: [Row; 18] = rows! {
    b"u32overflowing_add" 200 [4294967295 4294967295] => [1 4294967294] gone 2;
    b"u32overflowing_add.1" 200 [4294967295] => [1 0] gone 1;
    b"u32overflowing_sub" 200 [2 1] => [1 4294967295] gone 2;
    b"u32overflowing_sub.1" 200 [2] => [0 1] gone 1;
    b"u32overflowing_mul" 200 [4294967295 4294967295] => [4294967294 1] gone 2;
    b"u32overflowing_mul.4294967295" 200 [2] => [1 4294967294] gone 1;
    b"u32overflowing_add3" 200 [4294967295 4294967295 4294967295] => [2 4294967293] gone 3;
    b"u32wrapping_add3" 200 [4294967295 1 5] => [5] gone 3;
    b"u32overflowing_add3" 200 [1 2 4294967296] => NotU32;
    b"u32overflowing_madd" 200 [4294967295 4294967295 4294967295] => [4294967295 0] gone 3;
    b"u32wrapping_madd" 200 [3 5 7] => [22] gone 3;
    b"u32checked_div" 200 [3 4294967295] => [1431655765] gone 2;
    b"u32checked_div.0" 200 [3] => DivideByZero;
    b"u32checked_div" 200 [0 4294967296] => NotU32;
    b"u32checked_mod" 200 [10 4294967295] => [5] gone 2;
    b"u32checked_mod.7" 200 [20] => [6] gone 1;
    b"u32checked_divmod" 200 [7 4294967295] => [3 613566756] gone 2;
    b"u32checked_divmod.16" 200 [4294967295] => [15 268435455] gone 1;
};
