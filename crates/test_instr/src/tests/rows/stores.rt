//! State, advice, memory, locals and hashing.

use crate::tests::rows::{Gives, Row, UNTOUCHED, gives, or, rows};
use vm_ops::Cause;

pub static STATES: [Row; 9] = rows! {
    b"sdepth" 101 [] => [16];
    b"sdepth" 101 [] depth 18 => [18];
    b"caller" 101 [] in_syscall true => [24 23 22 21] gone 4;
    b"caller" 101 [] => NotInSyscall;
    b"clk" 101 [] => [9];
    b"adv_push.3" 101 [] tape [7 8 9 10] => [9 8 7] taken 3;
    b"adv_push.3" 101 [] tape [7 8] => AdviceEmpty;
    b"adv_loadw" 101 [] tape [7 8 9 10 11] => [10 9 8 7] gone 4 taken 4;
    b"adv_loadw" 101 [] tape [7 8 9] => AdviceEmpty;
};

pub static STORES: [Row; 20] = rows! {
    b"mem_load" 100 [5] => [11] gone 1;
    b"mem_load.5" 101 [] => [11];
    b"mem_load" 200 [4294967296] => AddressRange;
    b"mem_load" 200 [6] => [0] gone 1;
    b"mem_loadw" 100 [5] depth 17 => [14 13 12 11] gone 5;
    b"mem_loadw.5" 101 [] => [14 13 12 11] gone 4;
    b"mem_store" 100 [5] depth 17 => [] gone 2 word [101 12 13 14];
    b"mem_store.5" 101 [] => [] gone 1 word [101 12 13 14];
    b"mem_store" 200 [4294967296 1] => AddressRange;
    b"mem_storew" 100 [5] depth 17 => [] gone 1 word [104 103 102 101];
    b"mem_storew.5" 101 [] => [] word [104 103 102 101];
    b"locaddr.0" 101 [] => [5];
    b"locaddr.1" 101 [] => [6];
    b"loc_load.0" 101 [] => [11];
    b"loc_load.1" 101 [] => [0];
    b"loc_loadw.0" 101 [] => [14 13 12 11] gone 4;
    b"loc_store.0" 101 [] => [] gone 1 word [101 12 13 14];
    b"loc_storew.0" 101 [] => [] word [104 103 102 101];
    b"hperm" 101 [] => [
        17558995348953077716 17344124605513547403 2565204460526094695 14687870252810790611
        10844520692746146862 10323652847028151378 3338544276314416402 12641046066410089463
        16046446350743321974 1444715563211886901 873877617666374225 14169738976493936140
    ] gone 12;
    b"hmerge" 101 [] => [
        13309776817069347103 13306786751141888698 11524633365268346935 7491041542877191687
    ] gone 8;
};
