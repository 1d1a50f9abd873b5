//! Laws of hopeful prefixes.
ghost use Rattle.page_engine.specs.Laws.{PassingSetsAreHopeful, WholeListsTakeTheLandmarkTest};

/// Where a parameter set of a plan passes, every prefix of its slots is hopeful, whatever bytes the images hold; where it has bases,
/// for the padded plan and the padded images. So a walk that goes on from hopeful prefixes alone leaves out no set that passes.
pub fn passing_sets_are_hopeful()
    ensures { PassingSetsAreHopeful }
{}

/// Of a whole slot list as much is asked of the padded marks as by the landmark test.
pub fn whole_lists_take_the_landmark_test()
    ensures { WholeListsTakeTheLandmarkTest }
{}
