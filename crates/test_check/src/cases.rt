use crate::making::Change;
use crate::runs::Named;
use air_kit::TableName;
use buses::Bus;

/// What is answered of a trace.
pub enum Answer {
    Accepted,
    /// A fault: its table, row, number and value.
    Fault(TableName, u32, u16, u64),
    /// A bus that is apart: its least tuple, and how often that is asked and given.
    Bus(Bus, &'static [u64], u128, u128),
}

/// A run with some cells changed, and what is answered of it.
pub struct Case {
    pub run: Named,
    pub changes: &'static [Change],
    pub answer: Answer,
}

// A case is a line: the run, the cells that are changed, each with its table, row, column and value, and the answer.
macro_rules! cases {
    ($($run:ident [$($table:ident $row:literal $column:literal $value:literal),*] => $kind:ident $of:tt;)*) => {
        [$(Case {
            run: Named::$run,
            changes: &[$(Change {
                table: TableName::$table,
                cell: ($row, $column, $value),
            }),*],
            answer: cases!(@answer $kind $of),
        }),*]
    };
    (@answer Accepted ()) => {
        Answer::Accepted
    };
    (@answer Fault ($table:ident $row:literal $number:literal $value:expr)) => {
        Answer::Fault(TableName::$table, $row, $number, $value)
    };
    (@answer Bus ($bus:ident [$($element:literal)*] $asked:literal $given:literal)) => {
        Answer::Bus(Bus::$bus, &[$($element),*], $asked, $given)
    };
}

const MINUS_ONE: u64 = 18446744069414584320;

/// Traces that are accepted.
pub static ACCEPTED: [Case; 3] = cases! {
    // the empty program
    Empty [] => Accepted();
    // two cells below the sixteenth at the end
    Pushes [] => Accepted();
    // a kernel that is not called
    EmptyWithKernel [] => Accepted();
};

/// A fault in each group of constraints.
pub static FAULTS: [Case; 20] = cases! {
    // a bit that is none
    Empty [Main 1 9 2] => Fault(Main 1 1 2);
    // a clock that stands still
    Empty [Main 2 0 1] => Fault(Main 1 10 MINUS_ONE);
    // a run that begins in a context of its own
    Empty [Main 0 2 1] => Fault(Main 0 13 1);
    // another input
    KeepsOne [] => Fault(Main 0 23 MINUS_ONE);
    // a run that ends with END
    Empty [Main 3 9 0, Main 3 10 0] => Fault(Main 3 41 1);
    // another output
    EndsWithOne [] => Fault(Main 3 44 MINUS_ONE);
    // a span that breaks off into HALT
    Empty [Main 2 9 1, Main 2 10 1] => Fault(Main 1 65 1);
    // a kind of END that is no bit
    Empty [Main 2 20 2] => Fault(Main 2 70 2);
    // a span whose rows name another batch
    Empty [Main 1 8 2] => Fault(Main 0 91 MINUS_ONE);
    // two positions in use where four were named
    Push [Main 0 28 1, Main 0 29 0] => Fault(Main 0 103 MINUS_ONE);
    // a group that is left early
    Empty [Main 0 16 258, Main 1 9 0, Main 1 10 1, Main 1 16 258] => Fault(Main 1 107 256);
    // a stack that grows by itself
    Empty [Main 1 46 17] => Fault(Main 0 116 1);
    // a cell that changes by itself
    Empty [Main 3 45 1] => Fault(Main 2 134 1);
    // EQZ of 1 that leaves 1
    KeepsOne [Main 0 16 1, Main 0 30 1, Main 1 9 1, Main 1 16 1, Main 1 30 1, Main 2 30 1, Main 3 30 1] => Fault(Main 1 135 1);
    // a range table that begins at 1
    Empty [Range 0 1 1] => Fault(Range 0 1 1);
    // a state that is not permuted
    Empty [Hasher 7 7 1] => Fault(Hasher 6 22 1);
    // a hash that goes on from another capacity
    TwoHashes [Hasher 7 2 1, Hasher 8 1 1, Hasher 9 1 1, Hasher 10 1 1, Hasher 11 1 1, Hasher 12 1 1, Hasher 13 1 1, Hasher 14 1 1, Hasher 15 1 1,
        Hasher 8 3 1] => Fault(Hasher 7 14 1);
    // a bitwise operation of no kind
    BitwiseMore [Bitwise 0 0 2] => Fault(Bitwise 0 1 2);
    // a word that is read, and was never written
    AccessMore [Memory 0 5 1] => Fault(Memory 0 11 MINUS_ONE);
    // a digest that is not in the kernel
    EmptyWithKernel [Kernel 0 2 1] => Fault(Kernel 0 3 1);
};

/// A bus apart; each but that of the loops.
pub static APART: [Case; 9] = cases! {
    // an END of a block of another kind
    Empty [Main 2 21 0] => Bus(Blocks [1 0 0 0 0 0 0 0 0 0 0 0] 1 0);
    // another digest in the statement
    OtherDigest [] => Bus(Children [0 0 0 0 0 0] 1 0);
    // an immediate that is not in the batch
    Pushes [Main 0 17 9] => Bus(Groups [1 3 2] 1 0);
    // another key of a cell that is left
    OtherKey [] => Bus(Overflow [1 0 0] 0 1);
    // a permutation that nobody asks
    TwoHashes [] => Bus(Hasher [1 9 0 0 0 0 0 0 0 0 0] 0 1);
    // a bitwise operation that nobody asks
    BitwiseMore [] => Bus(Bitwise [0 0 0 0] 0 1);
    // an access of memory that nobody asks
    AccessMore [] => Bus(Memory [0 0 0 0 0 0 0 0] 0 1);
    // a value that nobody asks
    Empty [Range 1 0 1] => Bus(Range [729] 0 1);
    // a call of the kernel that nobody makes
    EmptyWithKernel [Kernel 0 4 1] => Bus(Kernel [0 0 0 0] 0 1);
};
