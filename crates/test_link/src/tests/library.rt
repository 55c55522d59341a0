use super::{bad, is_refused, pairs, refused};
use block_tree::{Program, digest};
use masm_lex::MAX_SOURCE;
use masm_link::{AsmCause, AsmError, assemble, assemble_with};
use rpo_hash::Params;
use std::alloc::Global;
use std::test::Fail;
use std_u64::{library, library_laws};
use vm_field::{Felt, Word};

// Constants under which different trees have different digests.
const CONSTANTS: Params = Params {
    first: [[Felt::ONE; 12]; 7],
    second: [[Felt::ONE; 12]; 7],
};

// The instructions of the library's procedures, as a source writes them.
static PROCEDURES: [(&str, &str); 11] = pairs! {
    "u64_overflowing_add" => "swap movup.3 u32overflowing_add movup.3 movup.3 u32overflowing_add3";
    "u64_wrapping_add" => "swap movup.3 u32overflowing_add movup.3 movup.3 u32overflowing_add3 drop";
    "u64_checked_add" => "swap movup.3 u32overflowing_add movup.3 movup.3 u32overflowing_add3 assertz";
    "u64_overflowing_sub" => "movup.3 movup.2 u32overflowing_sub movup.3 movup.3 u32overflowing_sub swap movup.2 u32overflowing_sub movup.2 or";
    "u64_wrapping_sub" => "movup.3 movup.2 u32overflowing_sub movup.3 movup.3 u32overflowing_sub swap movup.2 u32overflowing_sub movup.2 or drop";
    "u64_checked_sub" => "movup.3 movup.2 u32overflowing_sub movup.3 movup.3 u32overflowing_sub swap movup.2 u32overflowing_sub movup.2 or assertz";
    "u64_lt" => "movup.3 movup.2 u32overflowing_sub movup.3 movup.3 u32overflowing_sub swap movup.2 u32overflowing_sub movup.2 or movdn.2 drop drop";
    "u64_gte" => "movup.3 movup.2 u32overflowing_sub movup.3 movup.3 u32overflowing_sub swap movup.2 u32overflowing_sub movup.2 or movdn.2 drop drop not";
    "u64_gt"
        => "movup.3 movup.3 movup.3 movup.2 u32overflowing_sub movup.3 movup.3 u32overflowing_sub swap movup.2 u32overflowing_sub movup.2 or movdn.2 drop \
            drop";
    "u64_lte"
        => "movup.3 movup.3 movup.3 movup.2 u32overflowing_sub movup.3 movup.3 u32overflowing_sub swap movup.2 u32overflowing_sub movup.2 or movdn.2 drop \
            drop not";
    "u64_eq" => "u32assertw movup.2 eq movdn.2 eq and";
};

// Sources that mean the same: the first with the library, the second without it.
static SAME: [(&str, &str); 6] = pairs! {
    "begin neg end" => "begin neg end";
    "proc.u64_eq neg end begin exec.u64_eq call.u64_eq procref.u64_eq dynexec end"
        => "proc.u64_eq neg end begin exec.u64_eq call.u64_eq procref.u64_eq dynexec end";
    "proc.f.1 exec.u64_eq loc_store.0 end begin call.f repeat.3 exec.u64_eq end end"
        => "proc.f.1 u32assertw movup.2 eq movdn.2 eq and loc_store.0 end begin call.f repeat.3 u32assertw movup.2 eq movdn.2 eq and end end";
    "proc.u64_lt exec.u64_eq end begin exec.u64_lt end" => "begin u32assertw movup.2 eq movdn.2 eq and end";
    "proc.f neg end begin procref.u64_eq procref.f procref.u64_eq dynexec end"
        => "proc.f neg end proc.u64_eq u32assertw movup.2 eq movdn.2 eq and end begin procref.u64_eq procref.f procref.u64_eq dynexec end";
    "proc.f procref.u64_eq end proc.g dynexec end begin call.g end"
        => "proc.f procref.h end proc.g dynexec end proc.h u32assertw movup.2 eq movdn.2 eq and end begin call.g end";
};

// Sources that are refused with the library on their first line, by the column and the cause. The kernel
// exports `k`. A procedure of seven operations stands 74,898 times in trees of more than 524,288.
static REFUSED: [(&str, u32, AsmCause); 6] = refused! {
    "begin exec.u64_add end" 7 UnknownProcedure;
    "begin exec.u64_eq call.u64_eqz end" 19 UnknownProcedure;
    "begin syscall.u64_eq end" 7 NotInKernel;
    "proc.u64_eq exec.u64_gt exec.u64_eq end begin end" 25 Recursive;
    "begin repeat.10000 repeat.7 exec.u64_wrapping_add end end repeat.4898 exec.u64_wrapping_add end neg neg neg end" 1 TooManyOps;
    "proc.f end proc.g repeat.10000 repeat.7 call.u64_wrapping_add end end repeat.4898 exec.u64_wrapping_add end neg neg neg end begin end" 12 TooManyOps;
};

// A source of 524,288 operations.
static MOST: &str =
    "begin repeat.10000 repeat.7 exec.u64_wrapping_add end end repeat.4898 exec.u64_wrapping_add end neg neg end";

// A source with the library, and with a kernel or with none.
fn with_library(alloc: Global, kernel: Option<&[u8]>, source: &[u8]) -> Result<Program, AsmError> {
    if source.len() > MAX_SOURCE {
        return Err(AsmError::Memory);
    }
    if let Some(text) = kernel {
        if text.len() > MAX_SOURCE {
            return Err(AsmError::Memory);
        }
    }
    let procedures = library(alloc)?;
    assemble_with(alloc, &CONSTANTS, &procedures, source, kernel)
}

fn is_refused_with(alloc: Global, row: &(&str, u32, AsmCause)) -> bool {
    let want = bad(false, 1, row.1, row.2);
    match with_library(alloc, Some(b"export.k end"), row.0.as_bytes()) {
        Ok(_) => false,
        Err(error) => error == want,
    }
}

fn digest_with(alloc: Global, source: &str) -> Result<Word, AsmError> {
    let program = with_library(alloc, None, source.as_bytes())?;
    Ok(digest(&CONSTANTS, &program.tree))
}

fn digest_without(alloc: Global, source: &str) -> Result<Word, AsmError> {
    if source.len() > MAX_SOURCE {
        return Err(AsmError::Memory);
    }
    let program = assemble(alloc, &CONSTANTS, source.as_bytes(), None)?;
    Ok(digest(&CONSTANTS, &program.tree))
}

// Whether the first source with the library has the tree of the second without it.
fn is_same(alloc: Global, with: &str, without: &str) -> Result<bool, AsmError> {
    Ok(digest_with(alloc, with)? == digest_without(alloc, without)?)
}

// Whether a procedure of the library runs these instructions, in place, by a call and by a dynexec.
fn runs(alloc: Global, name: &str, instructions: &str) -> Result<bool, AsmError> {
    let used = format!(in alloc; "begin exec.{name} end")?;
    let written = format!(in alloc; "begin {instructions} end")?;
    let uses = format!(in alloc; "begin call.{name} neg procref.{name} dynexec end")?;
    let defined = format!(in alloc; "proc.{name} {instructions} end {uses}")?;
    Ok(
        is_same(alloc, used.as_str(), written.as_str())?
            && is_same(alloc, uses.as_str(), defined.as_str())?,
    )
}

#[test]
fn has_eleven_procedures(rt: HostRuntime) -> Result<(), Fail> {
    let is = library(rt.alloc()).is_ok_and(|procedures| {
        procedures.len() == 11 && procedures.contains(b"u64_eq") && !procedures.contains(b"u64_mul")
    });
    assert!(rt; is);
    Ok(())
}

#[test]
fn means_its_instructions(rt: HostRuntime) -> Result<(), Fail> {
    library_laws();
    for (name, instructions) in &PROCEDURES {
        let is = runs(rt.alloc(), name, instructions).unwrap_or(false);
        assert!(rt; is, "{name}");
    }
    Ok(())
}

#[test]
fn stands_behind_the_source(rt: HostRuntime) -> Result<(), Fail> {
    for (with, without) in &SAME {
        let is = is_same(rt.alloc(), with, without).unwrap_or(false);
        assert!(rt; is, "{with}");
    }
    let written = "begin u32assertw movup.2 eq movdn.2 eq end";
    let other = is_same(rt.alloc(), "begin exec.u64_eq end", written);
    assert!(rt; !other.unwrap_or(true));
    Ok(())
}

#[test]
fn is_wanted_for_its_names(rt: HostRuntime) -> Result<(), Fail> {
    for (name, _) in &PROCEDURES {
        let source = format!(in rt.alloc(); "begin exec.{name} end")?;
        let want = bad(false, 1, 7, AsmCause::UnknownProcedure);
        assert!(rt;
            is_refused(rt.alloc(), None, source.as_bytes(), want),
            "{name}"
        );
    }
    Ok(())
}

#[test]
fn refuses_other_names(rt: HostRuntime) -> Result<(), Fail> {
    for row in &REFUSED {
        assert!(rt; is_refused_with(rt.alloc(), row), "{}", row.0);
    }
    assert!(rt; with_library(rt.alloc(), None, MOST.as_bytes()).is_ok());
    Ok(())
}

#[test]
fn is_not_the_kernels(rt: HostRuntime) -> Result<(), Fail> {
    let want = bad(true, 1, 10, AsmCause::UnknownProcedure);
    let found = with_library(rt.alloc(), Some(b"export.k exec.u64_eq end"), b"begin end");
    assert!(rt; found.is_err_and(|error| error == want));
    Ok(())
}
