//! The parameter set that a word spells.
ghost use Rattle.std.specs.Prelude.{◌≡◌, ◌≢◌, MatchOption};
ghost use Rattle.raid_params.specs.declared.types.Geometry.{Geometry as GeometryOf};
ghost use Rattle.raid_params.specs.declared.wide.Wide.{Wide as WideOf};
ghost use Rattle.value_text.specs.SetText.{HasWord, common, set_word};

use crate::front::cut;
use crate::offset::read_offset;
use crate::rotation::Rotation;
use crate::spelled::{list, value_until};
use raid_params::{Geometry, Head, Slots, Wide};

/// Reads the word `LEVEL:PATTERN:SYNDROME:CHUNK:OFFSET:SLOTS`, to its last byte. It takes no
/// memory.
///
/// `PATTERN` is the name of a pattern, and where parity stays for another number of rows than one a star and that number, from
/// 2 on and below 2^32.
///
/// `OFFSET` is the sector at which the data begin on all images, below 2^55, or from 2 to 24 of them, below 2^54 and joined
/// by `+`, one for each image from image 0 on.
///
/// It answers `None` exactly where the text is no parameter set's word. Whether the set makes
/// sense is not asked.
pub fn read_set(text: &[u8]) -> Option<Wide>
    ensures { MatchOption result
        ((set : WideOf) → HasWord set → text.now ≢ set_word set)
        (λ set. HasWord set × (text.now ≡ set_word set)) }
{
    let (level, after_level) = value_until(text, b':')?;
    let (rotation, after_rotation) = value_until::<Rotation>(after_level, b':')?;
    let (syndrome, after_syndrome) = value_until(after_rotation, b':')?;
    let (chunk, after_chunk) = value_until(after_syndrome, b':')?;
    let (offset_text, after_offset) = cut(after_chunk, b':')?;
    let (offset, bases) = read_offset(offset_text)?;
    let slots: Slots = list(after_offset)?;
    if chunk <= u64::from(u32::MAX) {
        let head = Head {
            level,
            members: slots.len() as u8,
            pattern: rotation.pattern,
            delay: rotation.delay,
            syndrome,
            chunk,
            offset,
        };
        let geo = Geometry { head, slots };
        Some(Wide { geo, bases })
    } else {
        None
    }
}

/// Reads such a word with one offset that is common to all images, to its last byte. It takes no memory.
///
/// It answers `None` exactly where the text is no such word. Whether the set makes sense is not asked.
pub fn read_common_set(text: &[u8]) -> Option<Geometry>
    ensures { MatchOption result
        ((geo : GeometryOf) → HasWord (common geo) → text.now ≢ set_word (common geo))
        (λ geo. HasWord (common geo) × (text.now ≡ set_word (common geo))) }
{
    let set = read_set(text)?;
    if set.bases.is_empty() {
        Some(set.geo)
    } else {
        None
    }
}
