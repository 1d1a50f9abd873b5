//! Laws of parameter sets and their ranks.
ghost use Rattle.wide_product.specs.Laws.{PartsMakeTheProduct, RanksAndSetsUndo};

/// The set at a rank has that rank, and the set at a set's rank is that set: `product_set` and `product_rank` undo each other, and
/// no set of a plan stands twice.
pub fn ranks_and_sets_undo()
    ensures { RanksAndSetsUndo }
{}

/// The sets of a plan whose images have an offset each are those of its parts, part after part.
pub fn parts_make_the_product()
    ensures { PartsMakeTheProduct }
{}
