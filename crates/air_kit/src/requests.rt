use vm_field::{Felt, Felts, Sequence, Words};

/// A permutation that the hasher is asked for.
#[derive(Clone, Copy, Debug, Drop)]
pub struct Perm {
    /// Whether HPERM asks it; else it is one of a hash.
    pub mode: bool,
    /// Whether the hash began in an earlier permutation.
    pub cont: bool,
    /// Whether the hash goes on in the next one.
    pub more: bool,
    /// The state before it.
    pub start: [Felt; 12],
}

/// A bitwise operation on numbers of 32 bits.
#[derive(Clone, Copy, Debug, Drop)]
pub struct BitOp {
    /// The exclusive or; else the and.
    pub xor: bool,
    pub a: u32,
    pub b: u32,
}

/// An access of memory.
#[derive(Clone, Copy, Debug, Drop)]
pub struct Access {
    /// 0 reads the word, 1 writes it, 2 writes its element 0.
    pub kind: u8,
    pub ctx: u32,
    pub addr: u32,
    /// The clock of the row that accesses.
    pub clk: u32,
    /// The word behind the access.
    pub word: [Felt; 4],
}

/// What the rows of the main table ask of the small tables.
#[derive(Drop)]
pub struct Requests {
    /// In the order of the asking rows.
    pub perms: Sequence<Perm>,
    /// By clock.
    pub bits: Sequence<BitOp>,
    /// By clock.
    pub accesses: Sequence<Access>,
    /// Numbers of 16 bits, each as often as it is asked.
    pub ranges: Sequence<u16>,
    /// Digests of the kernel, each as often as it is called.
    pub calls: Words,
    /// The keys of the cells below the sixteenth at the end.
    pub keys: Felts,
}
