//! Laws of lists of sets.
ghost use Rattle.class_job.specs.Classing.{ListsHaveOneReading};

/// A text says one thing as a list of sets: the text of its classes, or its first refused line.
pub fn lists_have_one_reading()
    ensures { ListsHaveOneReading }
{}
