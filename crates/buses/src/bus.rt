ghost use Rattle.std.specs.Prelude.{◌≡◌, ◌<◌, ◌≤◌};
ghost use Rattle.buses.specs.Names.{bus_number, text_of_bus, every_bus};

use std::fmt;

/// A bus. Each tuple that rows ask on it is to be given as often (docs/CONSTRAINTS.md).
#[derive(Clone, Copy, Debug, PartialEq, Eq)]
pub enum Bus {
    /// Starts of blocks, asked by their ENDs.
    Blocks,
    /// Digests that parents name, asked by the ENDs of their children.
    Children,
    /// Bodies of loops, asked by REPEAT.
    Loops,
    /// Groups and immediates of a batch, asked by the rows that take them.
    Groups,
    /// Cells that went below the sixteenth, asked where they come back.
    Overflow,
    /// Permutations, asked by block rows and by HPERM.
    Hasher,
    /// Bitwise operations, asked by U32AND and U32XOR.
    Bitwise,
    /// Accesses of memory, asked by the memory operations.
    Memory,
    /// Numbers of 16 bits, asked by whoever needs a bound.
    Range,
    /// The kernel's digests, asked by SYSCALL.
    Kernel,
}

impl Bus {
    /// All buses, in the order in which they are compared.
    pub const EVERY: [Bus; 10] = [
        Bus::Blocks,
        Bus::Children,
        Bus::Loops,
        Bus::Groups,
        Bus::Overflow,
        Bus::Hasher,
        Bus::Bitwise,
        Bus::Memory,
        Bus::Range,
        Bus::Kernel,
    ];

    /// The bus's number, from 1 on.
    pub fn number(self) -> u8
        ensures is { result ≡ bus_number self }
    {
        match self {
            Bus::Blocks => 1,
            Bus::Children => 2,
            Bus::Loops => 3,
            Bus::Groups => 4,
            Bus::Overflow => 5,
            Bus::Hasher => 6,
            Bus::Bitwise => 7,
            Bus::Memory => 8,
            Bus::Range => 9,
            Bus::Kernel => 10,
        }
    }
}

/// The bus's name, as it is printed.
pub fn text(bus: Bus) -> &'static str
    ensures { result.now ≡ text_of_bus bus }
{
    match bus {
        Bus::Blocks => "blocks",
        Bus::Children => "children",
        Bus::Loops => "loops",
        Bus::Groups => "groups",
        Bus::Overflow => "overflow",
        Bus::Hasher => "hasher",
        Bus::Bitwise => "bitwise",
        Bus::Memory => "memory",
        Bus::Range => "range",
        Bus::Kernel => "kernel",
    }
}

impl fmt::Display for Bus {
    ghost use Rattle.std.specs.Prelude.{Some};
    ghost use Rattle.buses.specs.Names.{text_of_bus};

    ghost output = { λ bus. Some (text_of_bus bus) };

    fn fmt<W: fmt::Write>(&self, f: &mut fmt::Formatter<W>) -> fmt::Result {
        let name = text(*self);
        write!(f, "{name}")
    }
}

fn crosses<T: Send + Sync>() {}

/// A bus's name may be sent to other threads.
pub fn types_cross() {
    crosses::<Bus>();
}
