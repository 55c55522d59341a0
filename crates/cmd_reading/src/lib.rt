//! The words behind a command's name, read by `clap` from lists of names: the texts that stand at
//! its places and that its options give.
#![tactic(auto)]

mod building;
mod reading;
mod texts;
mod values;

pub use building::WordsStop;
pub use reading::{ReadWords, read_words};
pub use texts::texts_of;
pub use values::{
    free_name, free_number, free_number_or_most, needed_name, needed_number, place_name,
    place_number,
};
