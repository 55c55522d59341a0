//! What follows from the steps of every shelf and sink. These functions do nothing: their contracts
//! are the laws.
ghost use Rattle.vm_io.specs.Laws.{FilesDecide, ReadsLeaveFiles, WholeStands, FrontStands, ReadsNeverLower, WritesNeverLower, PiecesNeverLower, RiseShows};

/// Where a shelf tells its files, they decide the answer of each read that does not fail and is
/// given memory: `Missing` comes exactly where the name is not among them, `TooLong` exactly where
/// the file is longer than was asked for, and otherwise the answer is the file's bytes. No read
/// changes a file.
#[tactic(auto, using(crate::proofs::LawLemmas::read_laws))]
pub fn files_decide_reads()
    ensures decided { FilesDecide }
    ensures left { ReadsLeaveFiles }
{}

/// What was written stands under its name, whole or, where the write failed, a front of it. Every
/// other file stays.
pub fn written_files_stand()
    ensures whole { WholeStands }
    ensures front { FrontStands }
{}

/// No call lowers a count, and a count that rose differs from before, unless it had stopped at
/// 2^64 - 1.
#[tactic(auto, using(crate::proofs::LawLemmas::count_laws))]
pub fn counts_never_fall()
    ensures reads { ReadsNeverLower }
    ensures writes { WritesNeverLower }
    ensures pieces { PiecesNeverLower }
    ensures shows { RiseShows }
{}
