ghost use Rattle.complete_buses.specs.EvenBuses.{BlocksAreEven, ChildrenAreEven, GroupsAreEven, LoopsAreEven};

/// The law of children: each child's digest is named as often as a block of it ends, with the statement's for the whole tree.
pub fn children_laws()
    ensures children { ChildrenAreEven }
{}

/// The law of blocks: each END asks for its block, the block around it, its kind and what a call set aside as the start gave them.
pub fn blocks_laws()
    ensures blocks { BlocksAreEven }
{}

/// The law of loops: a loop gives the digest of its body as often as it is repeated.
pub fn loops_laws()
    ensures loops { LoopsAreEven }
{}

/// The law of groups: of each batch every position behind the first is taken once, as a group or as an immediate.
pub fn groups_laws()
    ensures groups { GroupsAreEven }
{}
