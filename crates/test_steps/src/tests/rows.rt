//! What operations do to the cells on top, computed outside.

use vm_ops::{Cause, Op};

/// One operation, and the cells on top of the stack before it. Below them stand those of the
/// standard stack, where each cell holds its place, counted from 1 at the top.
#[derive(Clone, Copy)]
pub struct Row {
    pub op: Op,
    pub top: &'static [u64],
    pub gives: Gives,
    pub besides: Besides,
}

/// What the operation gives: the cells that stand in place of the row's, or its trap.
#[derive(Clone, Copy)]
pub enum Gives {
    Left(&'static [u64]),
    Trap(Cause),
}

/// What changes besides the stack and the clock.
#[derive(Clone, Copy)]
pub enum Besides {
    Nothing,
    /// The frame pointer is this one.
    Pointer(u64),
    /// So many elements of the tape are taken.
    Taken(usize),
    /// This word stands at address 5.
    Word([u64; 4]),
}

// A row is a line: the operation, the cells on top before it, the cells in their place or the trap,
// and what else changes.
macro_rules! rows {
    ($($op:ident [$($cell:literal)*] => $gives:tt $($what:ident $is:tt)?;)*) => {
        [$(Row {
            op: Op::$op,
            top: &[$($cell),*],
            gives: gives!($gives),
            besides: besides!($($what $is)?),
        }),*]
    };
}

macro_rules! gives {
    ([$($cell:literal)*]) => {
        Gives::Left(&[$($cell),*])
    };
    ($cause:ident) => {
        Gives::Trap(Cause::$cause)
    };
}

macro_rules! besides {
    () => {
        Besides::Nothing
    };
    (pointer $fmp:literal) => {
        Besides::Pointer($fmp)
    };
    (taken $count:literal) => {
        Besides::Taken($count)
    };
    (word [$($number:literal)*]) => {
        Besides::Word([$($number),*])
    };
}

pub static FIELD: [Row; 10] = rows! {
    Neg [1377145875] => [18446744068037438446];
    Inv [233919004] => [6176572437631962021];
    Inv [0] => ZeroInverse;
    Incr [1675897225] => [1675897226];
    Add [4230139277 2547145816] => [6777285093];
    Mul [2038778655 1286741147] => [2623380385013817285];
    FmpAdd [1382378960] => [2456120791];
    FmpUpdate [3267903686] => [] pointer 4341645517;
    Eqz [2626415985] => [0];
    Eq [1166591855 140453618] => [0];
};

pub static BITS: [Row; 22] = rows! {
    Not [1] => [0];
    Not [2] => NotBinary;
    Not [809111244] => NotBinary;
    And [1 1] => [1];
    And [2 1] => NotBinary;
    And [1 2] => NotBinary;
    And [1121024804 3901927755] => NotBinary;
    Or [1 0] => [1];
    Or [2 0] => NotBinary;
    Or [0 2] => NotBinary;
    Or [3097667359 1129782171] => NotBinary;
    CSwap [0 0 1] => [0 1];
    CSwap [1 8 9] => [9 8];
    CSwap [2] => NotBinary;
    CSwap [1187356870 999055786 373028982] => NotBinary;
    CSwapW [0 1 0 1 0 1 1 0 1] => [1 0 1 0 1 1 0 1];
    CSwapW [1 2 3 4 5 6 7 8 9] => [6 7 8 9 2 3 4 5];
    CSwapW [2] => NotBinary;
    CSwapW [4202906433 1138349880 369850733 3589995024 1406939074 2107524323 1525355424 1969368280 1393027553] => NotBinary;
    Assert [1] => [];
    Assert [2] => AssertFailed;
    Assert [1539722088] => AssertFailed;
};

pub static WORDS: [Row; 24] = rows! {
    U32Add [2423756376 4253607366] => [1 2382396446];
    U32Add [4294967296 6954187674047982694] => NotU32;
    U32Sub [1545144019 671738769] => [1 3421562046];
    U32Sub [2163394075397886175 2086244505735538828] => NotU32;
    U32Mul [2217861246 1509120188] => [779288630 526789768];
    U32Mul [11990160292344197963 64] => NotU32;
    U32Add3 [2672599475 1983867211 2702026847] => [1 3063526237];
    U32Add3 [1 2 4294967296] => NotU32;
    U32Add3 [1 4294967296 2] => NotU32;
    U32Add3 [31 11304219268725550256 2] => NotU32;
    U32MAdd [1796353829 433663684 3188252856] => [181378196 2412420876];
    U32MAdd [1 2 4294967296] => NotU32;
    U32MAdd [4294967296 2 1] => NotU32;
    U32MAdd [18446744069414584320 2862974591 1757492276] => NotU32;
    U32Split [2665395672] => [0 2665395672];
    U32Div [3850000759 1560572053] => [1560572053 0];
    U32Div [0 1560572053] => DivideByZero;
    U32Div [0 5334587668316757686] => NotU32;
    U32Assert2 [3905882831 3336108057] => [3905882831 3336108057];
    U32Assert2 [32 11243736079278489997] => NotU32;
    U32And [1719509142 2915290992] => [608272400];
    U32And [942914689248102096 7796585848218171001] => NotU32;
    U32Xor [1380678807 3069342348] => [3837333019];
    U32Xor [2439219217 18446744069414584320] => NotU32;
};

pub static COPIES: [Row; 15] = rows! {
    Noop [] => [];
    Drop [823268245] => [];
    Pad [] => [0];
    Dup0 [] => [1];
    Dup1 [] => [2];
    Dup2 [] => [3];
    Dup3 [] => [4];
    Dup4 [] => [5];
    Dup5 [] => [6];
    Dup6 [] => [7];
    Dup7 [] => [8];
    Dup9 [] => [10];
    Dup11 [] => [12];
    Dup13 [] => [14];
    Dup15 [] => [16];
};

pub static MOVES: [Row; 19] = rows! {
    Swap [2366121833 1008274267] => [1008274267 2366121833];
    MovUp2 [1 2 3] => [3 1 2];
    MovDn2 [1 2 3] => [2 3 1];
    MovUp3 [1 2 3 4] => [4 1 2 3];
    MovDn3 [1 2 3 4] => [2 3 4 1];
    MovUp4 [1 2 3 4 5] => [5 1 2 3 4];
    MovDn4 [1 2 3 4 5] => [2 3 4 5 1];
    MovUp5 [1 2 3 4 5 6] => [6 1 2 3 4 5];
    MovDn5 [1 2 3 4 5 6] => [2 3 4 5 6 1];
    MovUp6 [1 2 3 4 5 6 7] => [7 1 2 3 4 5 6];
    MovDn6 [1 2 3 4 5 6 7] => [2 3 4 5 6 7 1];
    MovUp7 [1 2 3 4 5 6 7 8] => [8 1 2 3 4 5 6 7];
    MovDn7 [1 2 3 4 5 6 7 8] => [2 3 4 5 6 7 8 1];
    MovUp8 [1 2 3 4 5 6 7 8 9] => [9 1 2 3 4 5 6 7 8];
    MovDn8 [1 2 3 4 5 6 7 8 9] => [2 3 4 5 6 7 8 9 1];
    SwapW [1 2 3 4 5 6 7 8] => [5 6 7 8 1 2 3 4];
    SwapW2 [1 2 3 4 5 6 7 8 9 10 11 12] => [9 10 11 12 5 6 7 8 1 2 3 4];
    SwapW3 [1 2 3 4 5 6 7 8 9 10 11 12 13 14 15 16] => [13 14 15 16 5 6 7 8 9 10 11 12 1 2 3 4];
    SwapDW [1 2 3 4 5 6 7 8 9 10 11 12 13 14 15 16] => [9 10 11 12 13 14 15 16 1 2 3 4 5 6 7 8];
};

// the word at address 5 is 11, 12, 13, 14
pub static MEMORY: [Row; 8] = rows! {
    MLoad [5] => [11];
    MLoad [12261452873956562541] => AddressRange;
    MLoadW [5 101 102 103 104] => [14 13 12 11];
    MLoadW [3235274250757367850 101 102 103 104] => AddressRange;
    MStore [5 3841087478] => [3841087478] word [3841087478 12 13 14];
    MStore [4294967296] => AddressRange;
    MStoreW [5 101 102 103 104] => [101 102 103 104] word [104 103 102 101];
    MStoreW [4294967296] => AddressRange;
};

// with the digest 21, 22, 23, 24, and a tape of 31 to 36
pub static INSIDE: [Row; 5] = rows! {
    Caller [1 0 1 1] => [24 23 22 21];
    AdvPop [] => [31] taken 1;
    AdvPopW [101 102 103 104] => [34 33 32 31] taken 4;
    Clk [] => [468771];
    Push [] => [14948612764677088114];
};

pub static OUTSIDE: [Row; 1] = rows! {
    Caller [1 0 1 1] => NotInSyscall;
};

pub static SIXTEEN: [Row; 1] = rows! {
    SDepth [] => [16];
};

pub static NINETEEN: [Row; 1] = rows! {
    SDepth [] => [19];
};

// where the tape is empty
pub static NO_TAPE: [Row; 4] = rows! {
    AdvPop [] => AdviceEmpty;
    AdvPop [101] => AdviceEmpty;
    AdvPopW [] => AdviceEmpty;
    AdvPopW [1 1 1 1] => AdviceEmpty;
};

// where three elements are left
pub static THREE_LEFT: [Row; 1] = rows! {
    AdvPopW [1] => AdviceEmpty;
};

// by the round constants of the tests
pub static PERMUTATION: [Row; 1] = rows! {
    HPerm [1 1146197063 63 3680920348 2102571393 32 1209699609 4216914919 0 515614942 4030105383 4009606842] => [
        7430952337935783040 9705634174374476360 1982144474467438249 6059200151802140318
        2847430227205183871 14317384372644365550 11574604025491431035 7918079811248647972
        15176073801650243354 17800667994759002569 12579760496330232650 4091386918737176718
    ];
};
