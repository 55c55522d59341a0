ghost use Rattle.std.specs.Prelude.{◌≡◌, true, map, IfOk};
ghost use Rattle.masm_link.specs.Libraries.{is_plain};
ghost use Rattle.std_u64.specs.Libraries.{u64_library};
ghost use Rattle.std_u64.specs.Lists.{instructions};
ghost use Rattle.std_u64.specs.Table.{instruction_of};

use crate::names::{EVERY, U64Procedure};
use masm_instr::{Instr, Name, Numbers};
use masm_link::Library;
use std::alloc::{AllocError, Global};
use vm_field::Memory;

// An instruction: its name, and its number if it has one.
#[derive(Clone, Copy)]
pub(crate) struct Step {
    pub name: Name,
    pub number: Option<u128>,
}

macro_rules! number {
    () => {
        None
    };
    ($number:literal) => {
        Some($number)
    };
}

macro_rules! steps {
    ($($name:ident $($number:literal)?),*) => {
        &[$(Step { name: Name::$name, number: number!($($number)?) }),*]
    };
}

// The carry and the sum, and then more.
macro_rules! adding {
    ($($more:ident),*) => {
        steps![Swap, Movup 3, U32OverflowingAdd, Movup 3, Movup 3, U32OverflowingAdd3 $(, $more)*]
    };
}

// The borrow and the difference, and then more. In front may stand an exchange of the numbers.
macro_rules! subtracting {
    ($($front:ident $at:literal),*; $($more:ident $($number:literal)?),*) => {
        steps![
            $($front $at,)* Movup 3, Movup 2, U32OverflowingSub, Movup 3, Movup 3, U32OverflowingSub, Swap, Movup 2,
            U32OverflowingSub, Movup 2, Or $(, $more $($number)?)*
        ]
    };
}

// The instructions of a procedure.
fn steps(procedure: U64Procedure) -> &'static [Step]
    ensures { map instruction_of result.now ≡ instructions procedure }
{
    match procedure {
        U64Procedure::OverflowingAdd => adding!(),
        U64Procedure::WrappingAdd => adding!(Drop),
        U64Procedure::CheckedAdd => adding!(Assertz),
        U64Procedure::OverflowingSub => subtracting!(;),
        U64Procedure::WrappingSub => subtracting!(; Drop),
        U64Procedure::CheckedSub => subtracting!(; Assertz),
        U64Procedure::Lt => subtracting!(; Movdn 2, Drop, Drop),
        U64Procedure::Gte => subtracting!(; Movdn 2, Drop, Drop, Not),
        U64Procedure::Gt => subtracting!(Movup 3, Movup 3; Movdn 2, Drop, Drop),
        U64Procedure::Lte => subtracting!(Movup 3, Movup 3; Movdn 2, Drop, Drop, Not),
        U64Procedure::Eq => steps![U32Assertw, Movup 2, Eq, Movdn 2, Eq, And],
    }
}

fn instruction(alloc: Global, step: Step) -> Result<Instr, AllocError>
    requires { is_plain (instruction_of step) ≡ true }
    ensures { IfOk result (λ instr. instr ≡ instruction_of step) }
{
    let mut numbers = Numbers::new(alloc);
    if let Some(number) = step.number {
        numbers.push(number)?;
    }
    Ok(Instr::new(step.name, numbers))
}

// The instructions of a procedure, in order.
fn instructions(alloc: Global, procedure: U64Procedure) -> Result<Vec<Instr>, AllocError>
    ensures { IfOk result (λ list. list.items ≡ instructions procedure) }
{
    let table = steps(procedure);
    let mut list = Vec::with_capacity(alloc, table.len())?;
    for step in table {
        list.push(instruction(alloc, *step)?)?;
    }
    Ok(list)
}

/// The library of the eleven procedures, by their names in a source.
pub fn library(alloc: Global) -> Result<Library, Memory>
    ensures { IfOk result (λ library. library ≡ u64_library) }
{
    let mut library = Library::new(alloc);
    for procedure in &EVERY {
        library.add(alloc, procedure.name(), instructions(alloc, *procedure)?)?;
    }
    Ok(library)
}
