// How wide the tolerance of 1X is, at its closest levels: as wide as it can be.
ghost use Rattle.onex.specs.Tolerance.{ClosestBearThree};

// Levels 4 and 20 at eight bits bear samples that are 3 off, and not 4.
pub fn closest_levels_bear_three()
    ensures bears { ClosestBearThree }
{}
