//! Laws of hopeful prefixes.
ghost use Rattle.prune_filters.specs.Laws.{PassingSetsAreHopeful, RowsDecideLevelFive, WholeListsTakeTheLandmarkTest};

/// Where a parameter set of a plan passes, every prefix of its slots is hopeful, whatever bytes the images
/// hold. So a walk that goes on from hopeful prefixes alone leaves out no set that passes.
pub fn passing_sets_are_hopeful()
    ensures { PassingSetsAreHopeful }
{}

/// Of a whole slot list as much is asked of the marks as by the landmark test.
pub fn whole_lists_take_the_landmark_test()
    ensures { WholeListsTakeTheLandmarkTest }
{}

/// At level 5, where every slot list holds every image, the rows in which the images differ decide the parity
/// test: the exclusive or of the members is the same in every order.
pub fn rows_decide_level_five()
    ensures { RowsDecideLevelFive }
{}
