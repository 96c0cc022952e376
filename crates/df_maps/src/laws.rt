// What is true of the maps x -> mx + h, apart from any code.
ghost use Rattle.df_maps.specs.Laws.{MapsAreGroups, MapsAreMade, PrescribedAreEnough, ProductsAreAll};

/// The residues of the products of multipliers are those of the products of every list of them, and no others.
pub fn products_are_all()
    ensures { ProductsAreAll }
{}

/// Products of units of a group and the members of one of its subgroups make a group of maps.
pub fn maps_are_made()
    ensures { MapsAreMade }
{}

/// A group of maps is closed under composition and inverse, map 0 moves nothing, and no two of the maps are equal.
pub fn maps_are_groups()
    ensures { MapsAreGroups }
{}

/// A list of blocks is invariant under each prescribed map exactly where it is invariant under each full map.
pub fn prescribed_are_enough()
    ensures { PrescribedAreEnough }
{}
