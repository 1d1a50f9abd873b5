//! What the slots of an array hold.
ghost use Rattle.std.specs.Prelude.{◌≡◌, ◌≤◌, length};
ghost use Rattle.raid_params.specs.Slots.{empties, stands};

/// Whether the image stands in one of the slots.
pub fn stands_among(image: u8, slots: &[Option<u8>]) -> bool
    ensures { result ≡ stands image slots.now }
{
    slots
        .iter()
        .any(|slot| slot.is_some_and(|other| image == other))
}

/// How many slots are empty.
pub fn count_empty(slots: &[Option<u8>]) -> usize
    ensures count { result ≡ empties slots.now }
    ensures within { result ≤ length slots.now }
{
    slots.iter().filter(|slot| slot.is_none()).count()
}
