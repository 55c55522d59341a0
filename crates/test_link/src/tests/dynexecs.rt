use super::trees::shape;
use super::{assembled, pairs};
use masm_link::AsmError;
use std::alloc::Global;
use std::test::Fail;

// Trees of dynexecs, whose targets are the blocks of the procedures that procrefs name, each once, in the
// order of their first procrefs. With no constants a procref of an empty procedure is four PAD, 52 each in
// base 128. NEG is 2, and ADD 37.
static TREES: [(&str, &str); 12] = pairs! {
    "begin dynexec end" => "D[]";
    "proc.f end begin procref.f dynexec dropw end" => "((109910580 D[0;]) 90887595)";
    "proc.f end proc.g end begin procref.f procref.g dynexec end" => "(29503896771435060 D[0;0;])";
    "proc.f end proc.g add dynexec end begin procref.f exec.g end" => "(10042022452 D[0;])";
    "proc.f end proc.g add dynexec end begin procref.f call.g end" => "(109910580 C(37 D[0;]))";
    "proc.f end begin procref.f while.true dynexec end end" => "(109910580 LD[0;])";
    "proc.f end begin procref.f if.true dynexec else add end end" => "(109910580 S(D[0;] 37))";
    "proc.f end begin procref.f dynexec dynexec end" => "((109910580 D[0;]) D[0;])";
    "proc.f end begin procref.f repeat.2 dynexec end end" => "((109910580 D[0;]) D[0;])";
    "proc.f end proc.g procref.f end begin procref.g dynexec end" => "(145842885 D[0;109910580;])";
    "proc.f neg end proc.h procref.f end begin dynexec end" => "D[2;]";
    "proc.f end proc.g neg end proc.h procref.g procref.f procref.g end begin dynexec end" => "D[2;0;]";
};

fn is_tree(alloc: Global, row: &(&str, &str)) -> Result<bool, AsmError> {
    let program = assembled(alloc, None, row.0.as_bytes())?;
    let text = shape(alloc, &program.tree)?;
    Ok(text.as_str() == row.1)
}

#[test]
fn runs_targets(rt: HostRuntime) -> Result<(), Fail> {
    for row in &TREES {
        let is = is_tree(rt.alloc(), row).unwrap_or(false);
        assert!(rt; is, "{}", row.0);
    }
    Ok(())
}
