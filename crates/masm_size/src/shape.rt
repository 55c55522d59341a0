/// A part of a list that is higher than all parts before it: how many there are before it, and its
/// height, up to 1,025. A run of operations is a part of height 1, and a block is one.
#[derive(Clone, Copy)]
pub struct Rise {
    pub index: u32,
    pub height: u32,
}

/// How many parts a list has before a run that stands last, and whether a run stands first and last.
#[derive(Clone, Copy)]
pub struct Outline {
    pub whole: u32,
    pub starts_in_run: bool,
    pub ends_in_run: bool,
}

/// The size of a list: how many operations it has, up to 524,289, and what counts of its parts. Where
/// there are more than 524,288 operations, no parts are kept. A list that is repeated has no more
/// parts that count.
#[derive(Drop)]
pub struct Size {
    pub operations: u32,
    pub outline: Outline,
    pub rises: Vec<Rise>,
}

/// A size that is lent.
#[derive(Clone, Copy)]
pub struct Part<'a> {
    pub operations: u32,
    pub outline: Outline,
    pub rises: &'a [Rise],
}
