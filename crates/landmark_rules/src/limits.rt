//! The limits of marks, each once.

/// The most marks of one kind of landmark sector in a plan.
pub const MOST_MARKS: usize = 4096;

/// The most origins in a plan: volume sectors at which a file system may begin.
pub const MOST_ORIGINS: usize = 64;
