//! Laws of the definitions: each is the contract of a function that does nothing.

ghost use Rattle.tag_directory.specs.Laws.{NumbersAreGivenOnce, PlacesAreGivenApart};

/// However a directory is asked, the numbers in its replies count up from its next one. So none is
/// given twice.
pub fn numbers_are_given_once()
    ensures { NumbersAreGivenOnce }
{}

/// However a directory is asked, each claim allocates a slot that is not claimed, and leaves all
/// others as they were. So no slot is claimed twice at a time.
pub fn places_are_given_apart()
    ensures { PlacesAreGivenApart }
{}
