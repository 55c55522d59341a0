use run_chain::{chain_laws, follows};
use std::alloc::Global;
use std::test::Fail;
use vm_field::{Felt, Felts, Memory, Word, Words};
use vm_state::Statement;

// The elements of these numbers.
fn cells(alloc: Global, numbers: &[u64]) -> Result<Felts, Memory> {
    let mut cells = Felts::new(alloc);
    for number in numbers {
        cells.push(Felt::try_from_u64(*number).unwrap_or(Felt::ZERO))?;
    }
    Ok(cells)
}

// A statement with these inputs and outputs, which are as many as a statement may have.
fn statement(alloc: Global, inputs: &[u64], outputs: &[u64]) -> Result<Statement, Fail> {
    let (inputs, outputs) = (cells(alloc, inputs)?, cells(alloc, outputs)?);
    if inputs.len() > 16 || outputs.len() < 16 || outputs.len() > 17 {
        return Err("not as many as a statement may have".into());
    }
    Ok(Statement::new(Word::ZERO, Words::new(alloc), inputs, outputs))
}

// The outputs of a statement, the inputs of the next one, and whether this follows that.
struct Row {
    outputs: &'static [u64],
    inputs: &'static [u64],
    follows: bool,
}

macro_rules! rows {
    ($([$($output:literal)*] [$($input:literal)*] => $follows:literal;)*) => {
        [$(Row {
            outputs: &[$($output),*],
            inputs: &[$($input),*],
            follows: $follows,
        }),*]
    };
}

static ROWS: [Row; 14] = rows! {
    // sixteen zeros are what a run without inputs starts with, or with fewer zeros
    [0 0 0 0 0 0 0 0 0 0 0 0 0 0 0 0] [] => true;
    [0 0 0 0 0 0 0 0 0 0 0 0 0 0 0 0] [0 0] => true;
    [0 0 0 0 0 0 0 0 0 0 0 0 0 0 0 0] [1] => false;
    // inputs are filled up with zeros below
    [3 4 0 0 0 0 0 0 0 0 0 0 0 0 0 0] [3 4] => true;
    [3 4 0 0 0 0 0 0 0 0 0 0 0 0 0 0] [3 4 0 0 0 0 0 0 0 0 0 0 0 0 0 0] => true;
    [3 4 0 0 0 0 0 0 0 0 0 0 0 0 0 0] [3] => false;
    [3 4 0 0 0 0 0 0 0 0 0 0 0 0 0 0] [4 3] => false;
    [3 4 0 0 0 0 0 0 0 0 0 0 0 0 0 9] [3 4] => false;
    // sixteen cells
    [1 2 3 4 5 6 7 8 9 10 11 12 13 14 15 16] [1 2 3 4 5 6 7 8 9 10 11 12 13 14 15 16] => true;
    [1 2 3 4 5 6 7 8 9 10 11 12 13 14 15 16] [1 2 3 4 5 6 7 8 9 10 11 12 13 14 15] => false;
    [1 2 3 4 5 6 7 8 9 10 11 12 13 14 15 16] [1 2 3 4 5 6 7 8 9 10 11 12 13 14 15 17] => false;
    // a seventeenth cell is one too many, and be it a zero
    [0 0 0 0 0 0 0 0 0 0 0 0 0 0 0 0 0] [] => false;
    [1 2 3 4 5 6 7 8 9 10 11 12 13 14 15 16 0] [1 2 3 4 5 6 7 8 9 10 11 12 13 14 15 16] => false;
    [1 2 3 4 5 6 7 8 9 10 11 12 13 14 15 16 17] [1 2 3 4 5 6 7 8 9 10 11 12 13 14 15 16] => false;
};

#[test]
fn follows_where_the_stacks_agree(rt: HostRuntime) -> Result<(), Fail> {
    let alloc = rt.alloc();
    for row in &ROWS {
        let first = statement(alloc, &[], row.outputs)?;
        let second = statement(alloc, row.inputs, &[0; 16])?;
        assert_eq!(rt; follows(&first, &second), row.follows);
    }
    chain_laws();
    Ok(())
}
