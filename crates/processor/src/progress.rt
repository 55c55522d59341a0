use machine_cycles::Events;
use vm_state::State;

/// How far a run has come within a limit of cycles.
#[derive(Drop)]
pub struct Progress {
    /// The state at the run's end, or where the limit cut it off.
    pub state: State,
    /// What each cycle before shows.
    pub events: Events,
    /// Whether the run came to its end.
    pub is_done: bool,
}
