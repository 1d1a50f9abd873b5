//! The plan that a text is.
ghost use Rattle.std.specs.Prelude.{◌≡◌, ◌≤◌, ◌↔◌, ℕ, All, length};
ghost use Rattle.plan_text.specs.PlanText.{ReadsPlan};

use crate::fault::PlanFault;
use crate::lines::some_delays;
use crate::reader::PlanReader;
use search_plan::Plan;
use std::alloc::Global;

/// Reads the text of a plan, to its last byte, in one go through it.
///
/// It takes memory for the groups and marks alone. A text that is no plan's is refused at a line: those
/// before it begin some plan, and together with it they begin none, or the text has no such line that a line
/// feed ends. Text after the last line is refused at the line after it.
pub fn read_plan(alloc: Global, text: &[u8]) -> Result<Plan, PlanFault>
    ensures { ReadsPlan text.now result }
{
    let mut reader = PlanReader::new(text);
    let version = reader.version()?;
    let each = version.each;
    let lengths = reader.images(each)?;
    let search = reader.search(shortest(&lengths), version)?;
    let delayed = some_delays(&search.bounds.delays);
    let groups = reader.groups(alloc, &lengths, version.third, delayed)?;
    reader.end()?;
    Ok(Plan {
        lengths,
        end: search.end,
        bounds: search.bounds,
        limits: search.limits,
        tests: search.tests,
        groups,
        each,
    })
}

/// The least of the lengths.
fn shortest(lengths: &[u64]) -> u64
    requires { 1 ≤ length lengths.now }
    ensures { (n : ℕ) → (n ≤ result) ↔ All (λ length. n ≤ length) lengths.now }
{
    lengths.iter().copied().min().unwrap_or(0)
}
