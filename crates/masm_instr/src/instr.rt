ghost use Rattle.std.specs.Prelude.{◌≡◌, ℕ, ◌<◌, List, [], ◌∷◌, ◌++◌, OnOk, OnErr, IfOk, true};
ghost use Rattle.masm_instr.specs.Instructions.{IsInForm, names_local};

use crate::name::Name;
use std::alloc::{AllocError, Global};
use std::marker::Model;

/// A list of the numbers of an instruction.
#[derive(Drop)]
pub struct Numbers {
    items: Vec<u128>,
}

impl Model for Numbers {
    ghost use Rattle.std.specs.Prelude.{ℕ, List};

    ghost Value = { List ℕ };

    ghost view = { λ a. a.items.items };
}

impl Numbers {
    /// The empty list. It allocates nothing.
    pub fn new(alloc: Global) -> Numbers
        ensures empty { result ≡ [] }
    {
        Numbers {
            items: Vec::new(alloc),
        }
    }

    /// The empty list, with room for so many numbers.
    pub fn with_capacity(alloc: Global, count: usize) -> Result<Numbers, AllocError>
        ensures empty { IfOk result (λ numbers. numbers ≡ []) }
    {
        Ok(Numbers {
            items: Vec::with_capacity(alloc, count)?,
        })
    }

    /// Adds a number at the end. At an error the list is as before.
    pub fn push(&mut self, x: u128) -> Result<(), AllocError>
        ensures ok { OnOk result (self.new ≡ self.old ++ x ∷ []) }
        ensures err { OnErr result (self.new ≡ self.old) }
    {
        self.items.push(x)?;
        Ok(())
    }

    /// The numbers, in order.
    pub fn as_slice(&self) -> &[u128]
        ensures items { result.now ≡ self.now }
    {
        self.items.as_slice()
    }
}

/// An instruction: its name, and as many numbers in their range as the name takes.
#[derive(Drop)]
pub struct Instr {
    name: Name,
    numbers: Numbers,
}

impl Model for Instr {
    ghost use Rattle.masm_instr.specs.Instructions.{Instruction, IsInForm};

    ghost Value = { Instruction };

    ghost view = { λ a. record { name = a.name; numbers = a.numbers } };

    ghost invariant = { λ a. IsInForm (record { name = a.name; numbers = a.numbers }) };
}

impl Instr {
    /// The instruction of this name with these numbers.
    pub fn new(name: Name, numbers: Numbers) -> Instr
        requires { IsInForm (record { name = name; numbers = numbers }) }
        ensures { result ≡ record { name = name; numbers = numbers } }
    {
        Instr { name, numbers }
    }

    /// Its name.
    pub fn name(&self) -> Name
        ensures name { result ≡ self.now.name }
        ensures in_form { IsInForm self.now }
    {
        self.name
    }

    /// Its numbers.
    pub fn numbers(&self) -> &[u128]
        ensures items { result.now ≡ self.now.numbers }
        ensures in_form { IsInForm self.now }
    {
        self.numbers.as_slice()
    }
}
