//! What a search takes where the words name none: how many members it tries, and how many rows of sectors it tests.
//!
//! Both stand in `specs/Asked`.
#![tactic(auto)]

ghost use Rattle.std.specs.Prelude.{◌≡◌, ◌≤◌, length};
ghost use Rattle.asked_values.specs.Asked.{members_for as members_to_try, window_for as window_to_test};

use arrayvec::ArrayVec;
use raid_params::{MOST, MOST_LESS_ONE};

/// The numbers of members to try: those that are asked for, or where none is as many as there are images, and at least 2.
pub fn members_for(asked: &[u8], images: usize) -> ArrayVec<u8, MOST_LESS_ONE>
    requires images { images ≤ MOST }
    requires few { length asked.now ≤ MOST_LESS_ONE }
    ensures { result.items ≡ members_to_try asked.now images }
{
    let mut members = ArrayVec::new();
    if asked.is_empty() {
        members.push(images.max(2) as u8);
    } else {
        members.try_extend_from_slice(asked).unwrap();
    }
    members
}

/// How many sectors of each member are tested at most: the window that is asked for, or all before the image sector `end`. Where
/// that is 0 it is 1, since no window is empty.
pub fn window_for(asked: Option<u64>, end: u64) -> u64
    ensures { result ≡ window_to_test asked end }
{
    asked.unwrap_or(end.max(1))
}
