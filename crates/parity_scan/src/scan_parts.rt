//! What a scan is of, and with.
use raid_params::Geometry;
use search_scope::Scope;

/// What is scanned: parameter sets of a scope.
#[derive(Drop)]
pub struct Scanned<'a> {
    /// The scope.
    pub scope: &'a Scope,
    /// The parameter sets.
    pub sets: &'a [Geometry],
}

/// What runs the pieces of a scan.
#[derive(Drop)]
pub struct Threading<'a, R, G> {
    /// What starts threads.
    pub rt: &'a R,
    /// The gate that each piece of the sets passes before its first rows.
    pub gate: &'a G,
}
