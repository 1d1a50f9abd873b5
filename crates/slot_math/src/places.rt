//! What stands in the places of a list.
ghost use Rattle.std.specs.Prelude.{◌≡◌};
ghost use Rattle.raid_params.specs.Slots.{is_distinct};
ghost use Rattle.slot_math.specs.Ways.{are_images};

use raid_params::stands_among;

/// No image stands twice in the list.
#[tactic(auto, unfolding(raid_params::specs::Slots::is_distinct))]
pub(crate) fn all_different(list: &[Option<u8>]) -> bool
    ensures { result ≡ is_distinct list.now }
{
    match list {
        [] => true,
        [None, rest @ ..] => all_different(rest),
        [Some(image), rest @ ..] => !stands_among(*image, rest) && all_different(rest),
    }
}

/// The images of the list are below the number of images.
#[tactic(auto, unfolding(crate::specs::Ways::are_images))]
pub(crate) fn all_images(list: &[Option<u8>], images: u8) -> bool
    ensures { result ≡ are_images images list.now }
{
    match list {
        [] => true,
        [None, rest @ ..] => all_images(rest, images),
        [Some(image), rest @ ..] => *image < images && all_images(rest, images),
    }
}
