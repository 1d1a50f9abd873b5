//! The versions of the text of plans.
ghost use Rattle.std.specs.Prelude.{◌≡◌};
ghost use Rattle.plan_text.specs.Parts.{most_foreign as most_foreign_of, sectors_end as sectors_end_of};
ghost use Rattle.plan_text.specs.PlanText.{mode_name as mode_name_of, version_number as version_number_of};

use raid_params::{MOST, SECTORS_END};

/// The end of the lengths and offsets of images that can be moved: 2^54.
const MOVABLE_END: u64 = 1 << 54;

/// What the version of a text says of its plan.
#[derive(Clone, Copy)]
pub struct Version {
    /// Whether each image has an offset of its own.
    pub each: bool,
    /// Whether it is version 3, which says more than the others can: delays other than one, or bounds of groups.
    pub third: bool,
}

/// The version of the text of a plan: 3 where the plan has delays other than one or a group has bounds of its own, otherwise 2
/// where each image has an offset of its own, and 1 where all share one.
pub fn version_number(version: Version) -> u64
    ensures { result ≡ version_number_of version.each version.third }
{
    if version.third {
        3
    } else if version.each {
        2
    } else {
        1
    }
}

/// The word of the mode: whether each image has an offset of its own.
pub fn mode_name(each: bool) -> &'static [u8]
    ensures { result.now ≡ mode_name_of each }
{
    if each { b"each" } else { b"common" }
}

/// The end of lengths and offsets. Images with offsets of their own are moved by them, so theirs are below 2^54.
pub fn sectors_end(each: bool) -> u64
    ensures { result ≡ sectors_end_of each }
{
    if each { MOVABLE_END } else { SECTORS_END }
}

/// The most foreign images. None is foreign where each image has an offset of its own.
pub fn most_foreign(each: bool) -> u64
    ensures { result ≡ most_foreign_of each }
{
    if each { 0 } else { MOST as u64 }
}
