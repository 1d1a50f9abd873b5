//! The map between the sectors of the volume and those of the members.
ghost use Rattle.std.specs.Prelude.{◌≡◌, ◌<◌, ◌+◌, ◌*◌, ◌^◌, IsTrue};
ghost use Rattle.address_map.specs.Places.{IsHome, IsPlace};
ghost use Rattle.raid_params.specs.Validity.{is_valid_head};
ghost use Rattle.raid_params.specs.Size.{area as area_of, data_blocks as data_blocks_of, rows as rows_of, volume_sectors as volume_sectors_of};

use raid_layouts::{SlotRole, role, slot_of_item};
use raid_params::Head;

/// What a sector of a member is for the volume.
#[derive(Clone, Copy, Debug, PartialEq, Eq)]
pub enum MemberPlace {
    /// It lies past the whole rows.
    Outside,
    /// It holds P or Q.
    Parity,
    /// It holds this sector of the volume.
    At(u64),
}

/// Where a sector of the volume lies.
#[derive(Clone, Copy, Debug, PartialEq, Eq)]
pub struct Home {
    /// Its row of chunks.
    pub row: u64,
    /// Its data item in the row.
    pub item: u8,
    /// The slot that holds the item.
    pub slot: u8,
    /// The member sector, counted from the data offset.
    pub sector: u64,
}

/// How many whole rows of chunks lie before the image sector `end`.
#[tactic(auto, using(crate::proofs::Heads::some_chunk))]
pub fn rows(head: &Head, end: u64) -> u64
    requires { IsTrue (is_valid_head head.now) }
    ensures { result ≡ rows_of head.now end }
{
    end.saturating_sub(head.offset) / head.chunk
}

/// How many sectors of a member lie in whole rows.
#[tactic(auto, using(crate::proofs::Heads::whole_below, crate::proofs::Heads::some_chunk))]
pub fn area(head: &Head, end: u64) -> u64
    requires { IsTrue (is_valid_head head.now) }
    ensures { result ≡ area_of head.now end }
{
    rows(head, end) * head.chunk
}

/// How many data items a row has.
#[tactic(auto, using(raid_layouts::proofs::Levels::enough))]
pub fn data_blocks(head: &Head) -> u8
    requires { IsTrue (is_valid_head head.now) }
    ensures { result ≡ data_blocks_of head.now }
{
    head.members - head.level.redundancy()
}

/// How many sectors the volume has.
#[tactic(auto, using(crate::proofs::Heads::volume_fits, crate::proofs::Heads::few_data, crate::proofs::Heads::whole_below))]
pub fn volume_sectors(head: &Head, end: u64) -> u64
    requires head { IsTrue (is_valid_head head.now) }
    requires end { end < 2 ^ 55 }
    ensures { result ≡ volume_sectors_of head.now end }
{
    area(head, end) * data_blocks(head) as u64
}

/// The sector of the volume at a place of the chunk that holds an item of a row.
fn volume_sector(head: &Head, row: u64, item: u8, at: u64) -> u64
    requires head { IsTrue (is_valid_head head.now) }
    requires row { row * head.now.chunk + at < 2 ^ 55 }
    requires item { item < data_blocks_of head.now }
    requires at { at < head.now.chunk }
    ensures { result ≡ (row * data_blocks_of head.now + item) * head.now.chunk + at }
{
    (row * data_blocks(head) as u64 + item as u64) * head.chunk + at
}

/// What a sector of a member is for the volume. `sector` is counted from the data offset, and the
/// member has whole rows up to the image sector `end`.
#[tactic(auto, using(crate::proofs::Lies::made_lies, crate::proofs::Heads::some_chunk, crate::proofs::Heads::whole_below, std::proofs::lemmas::Nat::mod_below))]
pub fn place(head: &Head, end: u64, slot: u8, sector: u64) -> MemberPlace
    requires head { IsTrue (is_valid_head head.now) }
    requires end { end < 2 ^ 55 }
    requires slot { slot < head.now.members }
    ensures { IsPlace head.now end slot sector result }
{
    if sector >= area(head, end) {
        return MemberPlace::Outside;
    }
    let row = sector / head.chunk;
    match role(head, row, slot) {
        SlotRole::P | SlotRole::Q => MemberPlace::Parity,
        SlotRole::Block(item) => {
            MemberPlace::At(volume_sector(head, row, item, sector % head.chunk))
        }
    }
}

/// Where a sector of the volume lies, None exactly from the end of the volume on.
#[tactic(auto, using(crate::proofs::Heads::some_chunk))]
pub fn locate(head: &Head, end: u64, volume_sector: u64) -> Option<Home>
    requires head { IsTrue (is_valid_head head.now) }
    requires end { end < 2 ^ 55 }
    ensures { IsHome head.now end volume_sector result }
{
    if volume_sector >= volume_sectors(head, end) {
        return None;
    }
    let chunk = volume_sector / head.chunk;
    let data = data_blocks(head) as u64;
    let row = chunk / data;
    let item = (chunk % data) as u8;
    Some(Home {
        row,
        item,
        slot: slot_of_item(head, row, item),
        sector: row * head.chunk + volume_sector % head.chunk,
    })
}
