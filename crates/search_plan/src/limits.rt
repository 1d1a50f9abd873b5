//! The limit of a plan's text.

/// The most bytes of the text of a plan.
pub const PLAN_BYTES: usize = 4_194_304;
