//! Laws of parameter sets and their ranks.
ghost use Rattle.set_product.specs.Heads.{HeadsHoldTheirRanks, HeadsMakeTheProduct};
ghost use Rattle.set_product.specs.Laws.{RanksAndSetsUndo, SameSetsAreEqual};

/// Two parameter sets are the same, field by field and slot by slot, exactly where they are equal.
pub fn same_sets_are_equal()
    ensures { SameSetsAreEqual }
{}

/// The set at a rank has that rank, and the set at a set's rank is that set: `product_set` and
/// `product_rank` undo each other, and no set of a plan stands twice.
pub fn ranks_and_sets_undo()
    ensures { RanksAndSetsUndo }
{}

/// The sets of a plan are those of its heads, head by head.
pub fn heads_make_the_product()
    ensures { HeadsMakeTheProduct }
{}

/// The sets of a head stand at the ranks from its first on.
pub fn heads_hold_their_ranks()
    ensures { HeadsHoldTheirRanks }
{}
