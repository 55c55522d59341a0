use machine_cycles::Events;
use perm_memo::Permutations;
use vm_field::{Felts, Word};
use vm_state::State;

/// A run that came to its end.
#[derive(Drop)]
pub struct Run {
    /// The state at the end.
    pub state: State,
    /// The advice that was taken, in order.
    pub tape: Felts,
    /// What each cycle shows.
    pub events: Events,
    /// The digest of the program's tree.
    pub digest: Word,
    /// Those of the permutations computed for it that are kept, so that none of these is computed
    /// again for its tables.
    pub permutations: Permutations,
}
