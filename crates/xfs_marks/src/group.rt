//! The heads of an allocation group.

ghost use Rattle.std.specs.Prelude.{◌≡◌};
ghost use Rattle.xfs_marks.specs.Group.{is_xfs_agf, is_xfs_agi, xfs_group};

use sector_fields::{SECTOR, has_bytes, u32_be};

/// A head of an allocation group, with the group's number.
#[derive(Clone, Copy, PartialEq, Eq)]
pub enum XfsGroup {
    /// Of its free space.
    Agf(u32),
    /// Of its inodes.
    Agi(u32),
}

/// The head that begins in the sector. None where none does: another magic number, or a version other
/// than 1.
#[tactic(auto, unfolding(crate::specs::Group::xfs_group, crate::specs::Group::is_xfs_agf, crate::specs::Group::is_xfs_agi))]
pub fn read_group(sector: &[u8; SECTOR]) -> Option<XfsGroup>
    ensures { result ≡ xfs_group sector.now }
{
    let group = u32_be(sector, 8);
    if u32_be(sector, 4) != 1 {
        None
    } else if has_bytes(sector, 0, b"XAGF") {
        Some(XfsGroup::Agf(group))
    } else if has_bytes(sector, 0, b"XAGI") {
        Some(XfsGroup::Agi(group))
    } else {
        None
    }
}
