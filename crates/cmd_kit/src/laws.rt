ghost use Rattle.cmd_kit.specs.ChainLaws.{ChainHasEvidence};
ghost use Rattle.cmd_kit.specs.SourceLaws.{AcceptedSourceRan};
ghost use Rattle.cmd_kit.specs.Completeness.{GoodIsOk, OneVerdict};
ghost use Rattle.cmd_kit.specs.RunLaws.{AnsweredRunStands, RunLeavesGoodFiles};
ghost use Rattle.cmd_kit.specs.Laws.{OtherFilesStay, CommandsWrite, UsageMeansNothing, NothingGivesUsage, AcceptedHasEvidence, WrittenRunIsAccepted};
ghost use Rattle.cmd_kit.specs.MakeLaws.{AnsweredMakeStands, MakeIsNotRefused};
ghost use Rattle.cmd_kit.specs.MemberLaws.{MemberHasPath};
ghost use Rattle.cmd_kit.specs.RunsLaws.{AnsweredRunsStand, RunsLeaveLinks, RunsLeaveWholeLinks, RunsMakeAChain, RunsTellTheLink};

use table_file::file_laws;

/// Which files `serve` may change, over a shelf that tells its files: whatever the answer, those
/// that the command writes and no others: `run` its tables and its statement, `check` its evidence, with a source or without,
/// `make` its source and its inputs, `chain` and `member` their evidence, `runs` the table files and the statements that
/// its list names, and no other command a file.
pub fn other_files_stay()
    ensures stay { OtherFilesStay }
    ensures write { CommandsWrite }
{}

/// `Usage` comes exactly at words of no command, unless printing fails or memory is refused. They
/// leave every shelf untouched.
#[tactic(auto, using(crate::proofs::LawLemmas::usage_laws))]
pub fn usage_is_for_no_command()
    ensures only { UsageMeansNothing }
    ensures always { NothingGivesUsage }
{}

/// What `check` vouches for, over a shelf that tells its files: where it answers `Ok`, the table file is
/// accepted for the statement under the parameters, and what stands under the evidence's name is the text of
/// evidence: a run of a tree of the statement's digest, from its inputs to its outputs, or two hashes of the
/// file that have different inputs and one digest.
pub fn accepted_has_evidence()
    ensures { AcceptedHasEvidence }
{}

/// What `check --source` vouches for, over a shelf that tells its files: where it answers `Ok`, the table file is accepted
/// for the statement under the parameters, the source has a program of the statement's digest, and what stands under the
/// evidence's name is the text of evidence for it: a run of a tree that refines the program's, which is the program's own
/// tree where no block of it is dynamic, or two hashes of different inputs and one digest, the second of the file or of a
/// block of the program.
pub fn accepted_source_ran()
    ensures { AcceptedSourceRan }
{}

/// What `member` vouches for, over a shelf that tells its files: where it answers `Ok`, the table file is accepted for the
/// statement under the parameters, the statement has the digest of the program that walks a path of so many steps, and what
/// stands under the evidence's name is the text of evidence for that program. Evidence of a run is one of the program's own
/// tree, its tape is a Merkle path of so many steps, and the line that was printed has the leaf and the root between which
/// this path leads: the first four cells of the stack at the start, and the next four. Other evidence is two hashes of
/// different inputs and one digest.
pub fn member_has_path()
    ensures { MemberHasPath }
{
    file_laws();
}

/// What `chain` vouches for, over a shelf that tells its files: where it answers `Ok`, each statement of its list
/// follows the one before, each table file is accepted for its statement under the parameters, and what stands under
/// the evidence's name is the text of evidence for each link, in order. Where all of it is evidence of runs, they are
/// one run through all of their trees. Files that are such a chain are answered `Ok`, which `good_files_are_served` says.
pub fn chain_has_evidence()
    ensures { ChainHasEvidence }
{}

/// What stands where `run` answers `Ok`, over a shelf that tells its files: the source has a program, which runs from
/// the inputs to an end within the limit; the table file and the statement of that run stand under their names, and its
/// cycles and its stack were printed. The table has a row for each cycle and a last one, takes of the tape what the run
/// took, and is accepted for the statement.
pub fn answered_run_stands()
    ensures { AnsweredRunStands }
{}

/// Where `run` answers `Ok`, over a shelf that tells its files, what it leaves is good for every `check` of the two
/// files that it wrote, under the same parameters: they stand under their names within their lengths, read as the
/// trace and the claim of the run, and the trace is accepted for the claim.
pub fn run_leaves_good_files()
    ensures { RunLeavesGoodFiles }
{}

/// What `run` vouches for, over a shelf that tells its files: where it answers `Ok`, `check` of the two files
/// that it wrote, under the same parameters, is answered `Ok` and not refused, unless a read, a write, the
/// sink or memory fails.
pub fn written_run_is_accepted()
    ensures { WrittenRunIsAccepted }
{}

/// `make` is never answered `Refused`, over any shelf: the trace of a run is accepted, so that no step of it
/// asks whether it is.
pub fn make_is_not_refused()
    ensures { MakeIsNotRefused }
{}

/// What stands where `make` answers `Ok`, over a shelf that tells its files: the source that is made has a program, which
/// runs from the inputs that are made to an end; this source and the one text of these inputs stand under their names, and
/// the cycles and the stack of that run were printed. The trace of the run is accepted, as the last line says.
pub fn answered_make_stands()
    ensures { AnsweredMakeStands }
{}

/// What stands where `runs` answers `Ok`, over a shelf that tells its files: each source of the list has a program,
/// which runs to an end from what the run before it left; the table file and the statement of each stand under their
/// names, and the one is accepted for the other. The number of the links and the stack that the last one left were printed.
pub fn answered_runs_stand()
    ensures { AnsweredRunsStand }
{}

/// What `runs` vouches for, over a shelf that tells its files: where it answers `Ok`, `chain` of the files that it wrote, under
/// the same parameters, by a list of their names and into another file, is answered `Ok`, unless a read, a write, the sink
/// or memory fails.
pub fn runs_make_a_chain()
    ensures { RunsMakeAChain }
{}

/// What stands whatever `runs` answers, over a shelf that tells its files: both files of each link that is done, whole, and no
/// other file was changed but the next link's own two, of which a front may stand. The answer tells how many are done: where its
/// line begins with `link K `, the K - 1 links before link K, and nothing of link K stands; at `broken link K` link K, too; at `Ok`
/// all; and where a file does not serve, or its read or its write failed, it names that file. Where the command itself answers, or a
/// read failed, nothing of the next link stands. Where memory is refused, nothing is told.
pub fn runs_leave_whole_links()
    ensures whole { RunsLeaveWholeLinks }
    ensures left { RunsLeaveLinks }
    ensures told { RunsTellTheLink }
{}

/// No command is refused what it can do, over a shelf that tells its files. Where its files are there,
/// within their lengths and of their forms, and where the source of `assemble` has a program, that of `run`
/// and that of `make` one that ends within the limit, the traces of `check`, of `member` and of `chain` are accepted, the
/// source beside one has a program of the statement's digest, the program of `member` has the digest of its statement, each
/// statement of `chain` follows the one before, and the programs of `runs` end, each from what the one before left, it is
/// answered `Ok`, unless a read, a write, the sink or memory fails. A trace that is accepted with one value of the constants
/// and of the claim is accepted with each.
pub fn good_files_are_served()
    ensures served { GoodIsOk }
    ensures accepted { OneVerdict }
{}
