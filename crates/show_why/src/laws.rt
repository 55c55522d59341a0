ghost use Rattle.show_why.specs.RefusalLaws.{RefusalsKnowNoConstants};

/// A source and a kernel that are refused under some constants of the permutation are refused so under all others.
#[tactic(auto, using(crate::proofs::Moved::refusals_know_no_constants))]
pub fn refusals_know_no_constants()
    ensures { RefusalsKnowNoConstants }
{}
