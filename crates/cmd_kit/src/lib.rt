//! What each command does: its steps over files, how it ends, and the laws of these; and the steps that commands share: files
//! that are loaded, saved, assembled, refused or malformed (docs/FORMATS.md).
#![tactic(auto)]

mod answer;
mod bad_forms;
mod laws;
mod lines;
mod links;
mod loading;
mod outcome;
mod printing;
mod refusals;
mod saving;
mod saving_pieces;
mod source;
mod starts;
mod status;

pub use answer::Answer;
pub use bad_forms::{malformed, malformed_text};
pub use laws::{
    accepted_has_evidence, accepted_source_ran, answered_make_stands, answered_run_stands,
    answered_runs_stand, chain_has_evidence, good_files_are_served, make_is_not_refused,
    member_has_path, other_files_stay, run_leaves_good_files, runs_leave_whole_links,
    runs_make_a_chain, usage_is_for_no_command, written_run_is_accepted,
};
pub use lines::append_word;
pub use links::{MOST_LIST_BYTES, broken_link, lines_of_list, text_of_link};
pub use loading::load;
pub use outcome::{Outcome, answered, named_answer};
pub use printing::print;
pub use refusals::refused_line;
pub use saving::save;
pub use saving_pieces::save_pieces;
pub use source::{SourceFile, assemble_sources, name_of_place, refused_source, source_text};
pub use starts::{load_inputs, load_kernel, load_params, load_source, load_statement, load_trace};
pub use status::Status;
