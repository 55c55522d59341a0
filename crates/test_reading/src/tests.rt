use masm_expand::expand;
use masm_reading::{Const, Consts, InstrError, read_instr};
use std::alloc::{AllocError, Global};
use std::process::Abort;
use vm_field::{Bytes, Felt, Memory};

// N is 3, and B is 5,000,000,000.
fn constants(alloc: Global) -> Result<Consts, Memory> {
    let mut consts = Consts::new(alloc);
    for (name, number) in [(b'N', 3), (b'B', 5_000_000_000), (b'N', 4)] {
        consts.push(Const {
            name: Bytes::copied(alloc, &[name])?,
            value: Felt::try_from_u64(number).unwrap_or(Felt::ZERO),
            line: 1,
            column: 1,
        })?;
    }
    Ok(consts)
}

// A token that is refused.
static REFUSED: [(&[u8], InstrError); 46] = [
    (b"exp", InstrError::Unsupported),
    (b"emit.1", InstrError::Unsupported),
    (b"use.x", InstrError::Unsupported),
    (b"adv.push_mapval", InstrError::Unsupported),
    (b"mtree_get.99999999999999999999", InstrError::Unsupported),
    (b"frob", InstrError::UnknownInstruction),
    (b"", InstrError::UnknownInstruction),
    (b".add", InstrError::UnknownInstruction),
    (b"ADD", InstrError::UnknownInstruction),
    (b"end", InstrError::UnknownInstruction),
    (b"dynexec", InstrError::UnknownInstruction),
    (b"add.", InstrError::Syntax),
    (b"push", InstrError::Syntax),
    (b"push.", InstrError::Syntax),
    (b"push.1..2", InstrError::Syntax),
    (
        b"push.1.2.3.4.5.6.7.8.9.10.11.12.13.14.15.16.17",
        InstrError::Syntax,
    ),
    (b"push.0Xf", InstrError::Syntax),
    (b"push.0x", InstrError::Syntax),
    (b"push.0x00000000000000001", InstrError::Syntax),
    (b"push.000000000000000000001", InstrError::Syntax),
    (b"push.99999999999999999999.x", InstrError::Syntax),
    (b"push.M", InstrError::Syntax),
    (b"push.1_0", InstrError::Syntax),
    (b"exp.", InstrError::Syntax),
    (b"exp.5.6", InstrError::Syntax),
    (b"dup.N", InstrError::Syntax),
    (b"u32assert.N", InstrError::Syntax),
    (b"movup", InstrError::Syntax),
    (b"u32checked_rotr", InstrError::Syntax),
    (b"u32checked_and.1", InstrError::Syntax),
    (b"pow2.1", InstrError::Syntax),
    (b"push.18446744069414584321", InstrError::NumberRange),
    (b"push.99999999999999999999", InstrError::NumberRange),
    (b"exp.18446744069414584321", InstrError::NumberRange),
    (b"u32checked_add.4294967296", InstrError::NumberRange),
    (b"u32checked_add.B", InstrError::NumberRange),
    (b"mem_store.4294967296", InstrError::NumberRange),
    (b"u32checked_shl.32", InstrError::NumberRange),
    (b"swap.0", InstrError::NumberRange),
    (b"dup.16", InstrError::NumberRange),
    (b"dupw.4", InstrError::NumberRange),
    (b"movup.1", InstrError::NumberRange),
    (b"movup.16", InstrError::NumberRange),
    (b"movupw.1", InstrError::NumberRange),
    (b"adv_push.17", InstrError::NumberRange),
    (b"u32assert.1", InstrError::NumberRange),
];

macro_rules! read {
    ($($token:literal [$($number:literal)*];)*) => {
        [$(($token, &[$($number),*])),*]
    };
}

// A token, and its numbers.
static READ: [(&[u8], &[u128]); 16] = read! {
    b"add" [];
    b"push.007" [7];
    b"push.0xfF.N.18446744069414584320" [255 3 18446744069414584320];
    b"push.1.2.3.4.5.6.7.8.9.10.11.12.13.14.15.16" [1 2 3 4 5 6 7 8 9 10 11 12 13 14 15 16];
    b"push.0xffffffff00000000" [18446744069414584320];
    b"exp.0" [0];
    b"add.4294967296" [4294967296];
    b"div.0" [0];
    b"u32checked_div.N" [3];
    b"dup.0x3" [3];
    b"swap.1" [1];
    b"swapw.1" [1];
    b"dupw.0" [0];
    b"u32assert.02" [2];
    b"loc_load.99999999999999999999" [99999999999999999999];
    b"locaddr.B" [5000000000];
};

macro_rules! listed {
    ($($token:literal => $text:literal;)*) => {
        [$(($token, $text)),*]
    };
}

// A token, and its operations in a procedure of two locals, each with its immediate.
static LISTED: [(&[u8], &str); 40] = listed! {
    b"add" => "ADD ";
    b"add.5" => "PUSH 5 ADD ";
    b"sub.0" => "PAD NEG ADD ";
    b"exp.0" => "PUSH 1 SWAP DROP ";
    b"exp.6" => "PUSH 1 DUP0 MUL DUP1 MUL DUP0 MUL DUP1 MUL DUP0 MUL SWAP DROP ";
    b"lte" => "SWAP U32SPLIT MOVUP2 U32SPLIT MOVUP3 MOVUP2 SWAP U32SUB SWAP DROP MOVDN2 DUP1 DUP1 EQ MOVUP3 AND MOVDN2 SWAP U32SUB SWAP DROP OR NOT ";
    b"is_odd" => "U32SPLIT DROP PUSH 2 U32DIV SWAP DROP ";
    b"u32assert" => "PAD U32ASSERT2 DROP ";
    b"u32assert.2" => "U32ASSERT2 ";
    b"u32checked_add.7" => "PUSH 7 U32ADD EQZ ASSERT ";
    b"u32checked_not" => "PUSH 4294967295 U32ASSERT2 SWAP NEG ADD ";
    b"u32checked_shl.0" => "PUSH 1 U32MUL DROP ";
    b"u32checked_shr.31" => "PUSH 2147483648 U32DIV DROP ";
    b"u32checked_rotr.0" => "PUSH 1 U32MUL ADD ";
    b"u32checked_rotr.31" => "PUSH 2 U32MUL ADD ";
    b"dup" => "DUP0 ";
    b"dup.7" => "DUP7 ";
    b"dup.8" => "PAD DUP9 ADD ";
    b"dup.9" => "DUP9 ";
    b"dup.14" => "PAD DUP15 ADD ";
    b"dupw.2" => "DUP11 DUP11 DUP11 DUP11 ";
    b"movup.8" => "MOVUP8 ";
    b"movup.9" => "SWAPDW SWAP SWAPDW MOVUP8 ";
    b"movup.15" => "SWAPDW MOVUP7 SWAPDW MOVUP8 ";
    b"movdn.9" => "MOVDN8 SWAPDW SWAP SWAPDW ";
    b"swap" => "SWAP ";
    b"swap.2" => "MOVDN2 SWAP ";
    b"swap.10" => "MOVDN8 SWAPDW MOVDN2 SWAPDW SWAPDW SWAP SWAPDW MOVUP8 ";
    b"swapw" => "SWAPW ";
    b"swapw.3" => "SWAPW3 ";
    b"movupw.3" => "SWAPW SWAPW2 SWAPW3 ";
    b"movdnw.2" => "SWAPW2 SWAPW ";
    b"cdropw" => "CSWAPW DROP DROP DROP DROP ";
    b"push.0.1.2" => "PAD PUSH 1 PUSH 2 ";
    b"adv_push.3" => "ADVPOP ADVPOP ADVPOP ";
    b"mem_store.0" => "PAD MSTORE DROP ";
    b"locaddr.0" => "PUSH 18446744069414584319 FMPADD ";
    b"loc_storew.1" => "PUSH 18446744069414584320 FMPADD MSTOREW ";
    b"hmerge" => "PAD PAD PAD PAD SWAPW2 SWAPW HPERM DROP DROP DROP DROP SWAPW DROP DROP DROP DROP ";
    b"u32checked_rotl"
        => "PUSH 1 SWAP PUSH 2 U32DIV PUSH 1 MUL INCR MOVUP2 MUL SWAP PUSH 2 U32DIV PUSH 3 MUL INCR MOVUP2 MUL SWAP PUSH 2 U32DIV PUSH 15 MUL INCR MOVUP2 \
            MUL SWAP PUSH 2 U32DIV PUSH 255 MUL INCR MOVUP2 MUL SWAP PUSH 2 U32DIV PUSH 65535 MUL INCR MOVUP2 MUL SWAP PUSH 2 U32DIV PUSH 4294967295 MUL \
            INCR MOVUP2 MUL SWAP EQZ ASSERT U32MUL ADD ";
};

fn is_refused(alloc: Global, token: &[u8], want: InstrError) -> bool {
    let Ok(consts) = constants(alloc) else {
        return false;
    };
    matches!(read_instr(alloc, token, &consts), Err(error) if error == want)
}

fn refuses(rt: &impl Abort, alloc: Global, table: &[(&[u8], InstrError)]) {
    for (token, want) in table {
        assert!(rt; is_refused(alloc, token, *want), "at {token:?}");
    }
}

fn is_read(alloc: Global, token: &[u8], want: &[u128]) -> bool {
    let Ok(consts) = constants(alloc) else {
        return false;
    };
    match read_instr(alloc, token, &consts) {
        Ok(instr) => instr.numbers() == want,
        Err(_) => false,
    }
}

fn reads(rt: &impl Abort, alloc: Global, table: &[(&[u8], &[u128])]) {
    for (token, want) in table {
        assert!(rt; is_read(alloc, token, want), "at {token:?}");
    }
}

// The operations of a token in a procedure of two locals, with their immediates, each with a space
// behind it.
fn listing(alloc: Global, token: &[u8]) -> Result<String, AllocError> {
    let mut text = String::new(alloc);
    let Ok(instr) = read_instr(alloc, token, &Consts::new(alloc)) else {
        return Ok(text);
    };
    if instr.name().names_local() && instr.numbers().first().is_none_or(|local| *local >= 2) {
        return Ok(text);
    }
    let Ok(items) = expand(alloc, &instr, 2) else {
        return Err(AllocError);
    };
    for item in items.as_slice() {
        let op = item.op;
        text.push_str(format!(in alloc; "{op} ")?.as_str())?;
        if let Some(value) = item.imm {
            text.push_str(format!(in alloc; "{value} ")?.as_str())?;
        }
    }
    Ok(text)
}

fn is_listed(alloc: Global, token: &[u8], want: &str) -> bool {
    match listing(alloc, token) {
        Ok(found) => found.as_str() == want,
        Err(_) => false,
    }
}

fn lists(rt: &impl Abort, alloc: Global, table: &[(&[u8], &str)]) {
    for (token, want) in table {
        assert!(rt; is_listed(alloc, token, want), "at {token:?}");
    }
}

#[test]
fn refuses_tokens(rt: HostRuntime) {
    refuses(&rt, rt.alloc(), &REFUSED);
}

#[test]
fn reads_numbers(rt: HostRuntime) {
    reads(&rt, rt.alloc(), &READ);
}

#[test]
fn expands_instructions(rt: HostRuntime) {
    lists(&rt, rt.alloc(), &LISTED);
}
