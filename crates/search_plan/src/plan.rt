//! The plan of a search.
ghost use Rattle.std.specs.Prelude.{◌≡◌};
ghost use Rattle.search_plan.specs.Plans.{IsPlan, scope_of};
ghost use Rattle.search_scope.specs.Scopes.{IsScope};

use arrayvec::ArrayVec;
use landmark_rules::{Groups, MarkTests};
use raid_params::{Bounds, MOST};
use search_scope::{Limits, Scope};

/// What a search goes through.
#[derive(Drop)]
pub struct Plan {
    /// The lengths of the images, in sectors.
    pub lengths: ArrayVec<u64, MOST>,
    /// The image sector after the last one that may belong to the array.
    pub end: u64,
    /// The parameters to try.
    pub bounds: Bounds,
    /// How the rows are tested.
    pub limits: Limits,
    /// How the landmarks are tested.
    pub tests: MarkTests,
    /// The landmarks.
    pub groups: Groups,
    /// Whether each image has an offset of its own out of those to try. Otherwise all images of a set share one.
    pub each: bool,
}

impl Plan {
    /// What of the images the plan tests, as what needs no landmark takes it.
    #[tactic(auto, using(crate::proofs::Scopes::plan_scope))]
    pub fn scope(&self) -> Scope
        ensures scope { result ≡ scope_of self.now }
        ensures is { IsPlan self.now → IsScope result }
    {
        let mut lengths = ArrayVec::new();
        lengths
            .try_extend_from_slice(self.lengths.as_slice())
            .unwrap();
        Scope {
            lengths,
            end: self.end,
            limits: self.limits,
        }
    }
}
