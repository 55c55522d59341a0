ghost use Rattle.masm_places.specs.Honest.{PlacesAreHonest};

/// No place is made up, whatever the cycles are. Where an operation is told to belong to a place, an
/// instruction stands there in a procedure of the sources, and the operation is one of its list: the
/// first, or the one behind the operation that came before. Of a procref, whose digest the walk does not
/// know, it is one that puts a number on the stack.
pub fn places_are_honest()
    ensures { PlacesAreHonest }
{}
