/// The code of PUSH, the highest that a batch may hold.
pub(crate) const PUSH: u64 = 69;

/// The greatest number of operations of a group.
pub(crate) const GROUP: usize = 9;
