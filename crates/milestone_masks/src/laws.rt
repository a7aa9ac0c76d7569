//! What the kept ranks say of the definitions.
ghost use Rattle.milestone_masks.specs.Laws.{RankedAreReached, MasksAreOfTheWorlds, MissingIsOfTheReached};

/// The nodes that have a rank are those that can be reached.
pub fn ranked_are_reached()
    ensures { RankedAreReached }
{}

/// Where the kept ranks are those of the worlds, a mask is the list of the milestones in whose world the node can't be
/// reached.
pub fn masks_are_of_the_worlds()
    ensures { MasksAreOfTheWorlds }
{}

/// Where the kept ranks are those of the worlds, what a node lacks is what the nodes that can be reached leave open.
pub fn missing_is_of_the_reached()
    ensures { MissingIsOfTheReached }
{}
