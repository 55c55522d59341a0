//! Numbers of 32 bits: bits, shifts, rotations and order.

use crate::tests::rows::{Gives, Row, UNTOUCHED, gives, or, rows};
use vm_ops::Cause;

pub static BITS: [Row; 20] = rows! {
    b"u32checked_and" 200 [12 10] => [8] gone 2;
    b"u32checked_xor" 200 [12 10] => [6] gone 2;
    b"u32checked_or" 200 [12 10] => [14] gone 2;
    b"u32checked_or" 200 [4294967296 1] => NotU32;
    b"u32checked_not" 200 [5] => [4294967290] gone 1;
    b"u32checked_not" 200 [4294967296] => NotU32;
    b"u32checked_shl" 200 [31 3] => [2147483648] gone 2;
    b"u32checked_shl" 200 [32 1] => NotU32;
    b"u32checked_shl" 200 [64 1] => AssertFailed;
    b"u32checked_shl" 200 [4294967296 1] => NotU32;
    b"u32checked_shl.4" 200 [4294967295] => [4294967280] gone 1;
    b"u32checked_shr" 200 [31 4294967295] => [1] gone 2;
    b"u32checked_shr" 200 [63 1] => NotU32;
    b"u32checked_shr.0" 200 [4294967295] => [4294967295] gone 1;
    b"u32checked_rotl" 200 [1 2147483649] => [3] gone 2;
    b"u32checked_rotl.31" 200 [6] => [3] gone 1;
    b"u32checked_rotr.0" 200 [4294967294] => [4294967294] gone 1;
    b"u32checked_rotr.1" 200 [5] => [2147483650] gone 1;
    b"u32checked_rotr.31" 200 [5] => [10] gone 1;
    b"u32checked_rotr.3" 200 [4294967296] => NotU32;
};

pub static WORD_ORDER: [Row; 13] = rows! {
    b"u32checked_lt" 200 [7 5] => [1] gone 2;
    b"u32checked_lt" 200 [5 5] => [0] gone 2;
    b"u32checked_gte" 200 [5 5] => [1] gone 2;
    b"u32checked_gte" 200 [7 5] => [0] gone 2;
    b"u32checked_gt" 200 [5 7] => [1] gone 2;
    b"u32checked_gt" 200 [5 5] => [0] gone 2;
    b"u32checked_lte" 200 [5 5] => [1] gone 2;
    b"u32checked_lte" 200 [5 7] => [0] gone 2;
    b"u32checked_max" 200 [5 7] => [7] gone 2;
    b"u32checked_max" 200 [7 5] => [7] gone 2;
    b"u32checked_min" 200 [5 7] => [5] gone 2;
    b"u32checked_min" 200 [7 5] => [5] gone 2;
    b"u32checked_min" 200 [7 4294967296] => NotU32;
};
