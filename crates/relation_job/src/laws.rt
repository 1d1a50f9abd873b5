//! Laws of the rows that are looked at. A function does nothing: its clause is the law.
ghost use Rattle.relation_job.specs.Laws.{DefaultStepIsTheLeast, RowsAreThoseBelowTheEnd};

/// Of the rows from the first one on at a step, those are looked at that are below the end.
#[tactic(auto, using(crate::proofs::Steps::below_the_end))]
pub fn rows_are_those_below_the_end()
    ensures { RowsAreThoseBelowTheEnd }
{}

/// The default step is the least one with which at most 4,096 rows are looked at.
#[tactic(auto, using(crate::proofs::Steps::least))]
pub fn default_step_is_the_least()
    ensures { DefaultStepIsTheLeast }
{}
