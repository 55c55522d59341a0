//! What the words ask for, done over a shelf of files and printed to a sink; and the command `hash`.
#![tactic(auto)]

mod hash;
mod names;
mod obeying;
mod serving;
mod words;

pub use cmd_check::Seed;
pub use cmd_kit::{
    Status, accepted_has_evidence, answered_make_stands, answered_run_stands, answered_runs_stand,
    chain_has_evidence, good_files_are_served, make_is_not_refused, member_has_path,
    other_files_stay, run_leaves_good_files, runs_leave_whole_links, runs_make_a_chain,
    usage_is_for_no_command, written_run_is_accepted,
};
pub use serving::serve;
