//! The verdicts of a scan.
ghost use Rattle.std.specs.Prelude.{◌≡◌, false, IfOk, length, replicate};

use outside::Memory;
use std::alloc::Global;
use std::marker::Model;

/// A verdict for each of some parameter sets. Contracts see it as the list of them.
#[derive(Drop)]
pub struct Verdicts {
    pub(crate) passed: Vec<bool>,
}

impl Model for Verdicts {
    ghost use Rattle.std.specs.Prelude.{Bool, List};

    ghost Value = { List Bool };

    ghost view = { λ v. v.passed.items };
}

impl Verdicts {
    /// `count` verdicts, all against.
    pub(crate) fn against(alloc: Global, count: usize) -> Result<Verdicts, Memory>
        ensures against { IfOk result (λ v. v ≡ replicate count false) }
        ensures length { IfOk result (λ v. length v ≡ count) }
    {
        let passed = vec![in alloc; false; count].map_err(|_| Memory)?;
        Ok(Verdicts { passed })
    }

    /// The verdicts, in the order of the sets.
    pub fn as_slice(&self) -> &[bool]
        ensures { result.now ≡ self.now }
    {
        &self.passed
    }
}
