//! Laws of the ordered list of a space.
ghost use Rattle.slot_math.specs.Laws.{EachListIsShaped, EachListOnce, RanksAndListsUndo};

/// No list stands at two places of a space.
pub fn each_list_once()
    ensures { EachListOnce }
{}

/// The list at a rank has that rank, and the list at a list's rank is that list: `unrank` and
/// `rank` undo each other.
pub fn ranks_and_lists_undo()
    ensures { RanksAndListsUndo }
{}

/// Each list of a space has as many places as members, images below the number of images, no
/// image twice, and from `low` to `high` empty places.
pub fn each_list_is_shaped()
    ensures { EachListIsShaped }
{}
