//! What holds of the coefficients of all sets.
ghost use Rattle.volume_classes.specs.Laws.{CoefficientsTell, EachItemIsWeighed, RowsRepeat, VolumesAreSums};

/// The roles and exponents of a row are those of its number modulo the period.
pub fn rows_repeat()
    ensures { RowsRepeat }
{}

/// A byte of the volume is the sum, over the images, of the coefficient of its item times the image's byte in the column.
pub fn volumes_are_sums()
    ensures { VolumesAreSums }
{}

/// Each item of a row has a coefficient that is not 0.
pub fn each_item_is_weighed()
    ensures { EachItemIsWeighed }
{}

/// Sets that break no rule are alike exactly where their offsets, chunks, numbers of data items and coefficients are
/// equal.
pub fn coefficients_tell()
    ensures { CoefficientsTell }
{}
