// What is true of orbits and their representatives, apart from any code.
ghost use Rattle.df_orbits.specs.Laws.{RepresentativesTellOrbits, PlacesAreFound};

/// The representatives stand in order, each is that of its own orbit, and a block is in one orbit with its representative and with no other.
pub fn representatives_tell_orbits()
    ensures { RepresentativesTellOrbits }
{}

/// In a list of blocks in order, the place of the first block that is a given one is where it stands.
pub fn places_are_found()
    ensures { PlacesAreFound }
{}
