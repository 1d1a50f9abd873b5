//! What marks belong to, and where they may lie.
ghost use Rattle.std.specs.Prelude.{◌≡◌, ◌+◌, ◌*◌, ◌^◌, ◌<◌, ◌≤◌, ◌==◌, false, if◌then◌else◌, All, Some, None, IsTrue};
ghost use Rattle.std.specs.Str.{bytes_eq};
ghost use Rattle.ntfs_marks.specs.Boot.{is_within_limit, record_sector};
ghost use Rattle.xfs_marks.specs.Superblock.{ag_sectors, is_sound};
ghost use Rattle.std.specs.Option.{is_some, option_map, option_map_or};
ghost use Rattle.landmark_rules.specs.declared.marks.Rule.TheVariants.{At};
ghost use Rattle.xfs5.specs.Places.{inode_sector, is_sound as is_sound_place};
ghost use Rattle.survey_engine.specs.Landmarks.{IsSound};
ghost use Rattle.survey_engine.specs.Owners.{group_kind, ag_rule, inode_owner, inode_rule, is_same_boot, is_same_owner, is_same_super, is_mark_of, is_same_volume, inodes_rule, owner_in, record_rule, rule_in, start_rule, begins_sector, tree_rule, volume_of, IsSoundOwner};
ghost use Rattle.survey_engine.specs.declared.owner.Owner.TheVariants.{Extinode, Trees};
ghost use Rattle.survey_engine.specs.Sightings.{sighted_at};

use crate::landmark::{InodePlace, InodeSeen, Landmark, TreeSeen};
use crate::sighting::Sighting;
use crate::systems::system_with;
use ext_marks::ExtSuper;
use landmark_rules::{GroupKind, Rule};
use ntfs_marks::{NtfsBoot, NtfsRecord};
use sector_fields::{DISTANCE_LIMIT, SECTOR};
use uuid::Uuid;
use xfs_marks::XfsSuper;
use xfs5::XfsInodes;

/// A file system of ext2, ext3 or ext4, by what each copy of its superblock says of it.
#[derive(Clone, Copy)]
pub struct ExtVolume {
    /// Its identifier, in the order in which its bytes stand in the sector.
    pub uuid: Uuid,
    /// The bytes of a block.
    pub block: u32,
    /// The blocks of a group.
    pub group_blocks: u32,
}

/// What marks belong to: the partition table, a file system, or a physical volume.
#[derive(Clone, Copy)]
pub enum Owner {
    /// The GUID partition table.
    Table,
    /// The NTFS that a boot sector describes.
    Ntfs(NtfsBoot),
    /// The XFS that a superblock describes.
    Xfs(XfsSuper),
    /// The btrfs of this identifier.
    Btrfs(Uuid),
    /// The physical volume of LVM2 whose label lies there.
    Label {
        /// The number of the label's image.
        image: u8,
        /// Its sector of the image.
        sector: u64,
    },
    /// The ext2, ext3 or ext4 that a copy of a superblock describes.
    Ext(ExtVolume),
    /// The inodes of the XFS of version 5 of which a superblock says where they lie.
    Xfs5(XfsInodes),
    /// The tree blocks of the btrfs of this identifier.
    Trees(Uuid),
    /// The inodes of the ext4 of this identifier.
    Extinode(Uuid),
}

impl Owner {
    /// The owner that a sighting names, where `systems` are the file systems of XFS. File records, AGF and AGI do not say whose
    /// they are. An inode of XFS, a tree block of btrfs and two inodes of ext4 name their file system if they are marks of it.
    pub fn named_by(systems: &[XfsInodes], sighting: &Sighting) -> Option<Owner>
        requires { All (λ x. IsTrue (is_sound_place x)) systems.now }
        ensures owner { result ≡ owner_in systems.now (sighted_at sighting.now) sighting.now.landmark }
    {
        match &sighting.landmark {
            Landmark::Gpt(_) => Some(Owner::Table),
            Landmark::Boot(boot) => Some(Owner::Ntfs(*boot)),
            Landmark::Super(found) => Some(Owner::Xfs(*found)),
            Landmark::Super5(found, _) => Some(Owner::Xfs(*found)),
            Landmark::Btrfs(found) => Some(Owner::Btrfs(found.fsid)),
            Landmark::Lvm(_) => Some(Owner::Label {
                image: sighting.image,
                sector: sighting.sector,
            }),
            Landmark::Ext(copy) => Some(Owner::Ext(volume_of(copy))),
            Landmark::Inode(seen) => inodes_of(systems, seen),
            Landmark::Tree(tree) => trees_of(tree),
            Landmark::Placed(_, place) => extinode_of(place),
            _ => None,
        }
    }

    /// The kind of the group that its marks make.
    pub fn group_kind(&self) -> GroupKind
        ensures { result ≡ group_kind self.now }
    {
        match self {
            Owner::Table => GroupKind::Gpt,
            Owner::Ntfs(_) => GroupKind::Ntfs,
            Owner::Xfs(_) => GroupKind::Xfs,
            Owner::Btrfs(_) => GroupKind::Btrfs,
            Owner::Label { .. } => GroupKind::Lvm,
            Owner::Ext(_) => GroupKind::Ext,
            Owner::Xfs5(_) => GroupKind::Xfs5,
            Owner::Trees(_) => GroupKind::Btrfstree,
            Owner::Extinode(_) => GroupKind::Extinode,
        }
    }

    /// Whether two owners are one, field by field; of inodes by their identifier alone.
    pub fn is_same(&self, other: &Owner) -> bool
        ensures { result ≡ is_same_owner self.now other.now }
    {
        match (self, other) {
            (Owner::Table, Owner::Table) => true,
            (Owner::Ntfs(a), Owner::Ntfs(b)) => is_same_boot(a, b),
            (Owner::Xfs(a), Owner::Xfs(b)) => is_same_super(a, b),
            (Owner::Btrfs(a), Owner::Btrfs(b)) => is_same_uuid(a, b),
            (
                Owner::Label { image, sector },
                Owner::Label {
                    image: other_image,
                    sector: other_sector,
                },
            ) => image == other_image && sector == other_sector,
            (Owner::Ext(a), Owner::Ext(b)) => is_same_volume(a, b),
            (Owner::Xfs5(a), Owner::Xfs5(b)) => is_same_uuid(&a.uuid, &b.uuid),
            (Owner::Trees(a), Owner::Trees(b)) => is_same_uuid(a, b),
            (Owner::Extinode(a), Owner::Extinode(b)) => is_same_uuid(a, b),
            _ => false,
        }
    }

    /// Where a sighting may lie as a mark of this owner, which may be `alone` of its kind, and None where
    /// it is no mark of it.
    #[tactic(auto, unfolding(crate::specs::Owners::rule_in))]
    pub fn rule(&self, alone: bool, sighting: &Sighting) -> Option<Rule>
        requires owner { IsSoundOwner self.now }
        requires landmark { IsSound sighting.now.landmark }
        ensures { result ≡ rule_in self.now alone (sighted_at sighting.now) sighting.now.landmark }
    {
        match (self, &sighting.landmark) {
            (Owner::Table, Landmark::Gpt(table)) => {
                Some(Rule::At(table.unit * table.header.my_lba))
            }
            (Owner::Ntfs(boot), Landmark::Boot(other)) if is_same_boot(boot, other) => {
                Some(Rule::Either(0, boot.total))
            }
            (Owner::Ntfs(boot), Landmark::FileRecord(file)) if alone => record_rule(boot, file),
            (Owner::Xfs(found), Landmark::Super(other)) if is_same_super(found, other) => {
                Some(start_rule(found))
            }
            (Owner::Xfs(found), Landmark::Super5(other, _)) if is_same_super(found, other) => {
                Some(start_rule(found))
            }
            (Owner::Xfs(found), Landmark::Agf(group)) if alone => ag_rule(found, *group, 1),
            (Owner::Xfs(found), Landmark::Agi(group)) if alone => ag_rule(found, *group, 2),
            (Owner::Btrfs(fsid), Landmark::Btrfs(found)) if is_same_uuid(fsid, &found.fsid) => {
                Some(Rule::At(found.address / SECTOR as u64))
            }
            (Owner::Label { image, sector }, Landmark::Lvm(number))
                if *image == sighting.image && *sector == sighting.sector => {
                Some(Rule::At(*number))
            }
            (Owner::Ext(volume), Landmark::Ext(copy)) if is_same_volume(volume, &volume_of(copy)) =>
                { Some(Rule::At(copy.copy_sector)) }
            (Owner::Xfs5(places), Landmark::Inode(seen)) => inode_rule(places, seen),
            (Owner::Trees(identifier), Landmark::Tree(tree))
                if is_same_uuid(identifier, &tree.block.identifier) => tree_rule(tree),
            (Owner::Extinode(identifier), Landmark::Placed(_, place))
                if is_same_uuid(identifier, &place.identifier) => inodes_rule(place),
            _ => None,
        }
    }
}

/// Whether two boot sectors say the same, field by field.
fn is_same_boot(a: &NtfsBoot, b: &NtfsBoot) -> bool
    ensures { result ≡ is_same_boot a.now b.now }
{
    (a.cluster == b.cluster && a.total == b.total && a.mft == b.mft)
        && (a.mirror == b.mirror && a.record_bytes == b.record_bytes && a.serial == b.serial)
}

/// Whether two superblocks say the same, field by field.
fn is_same_super(a: &XfsSuper, b: &XfsSuper) -> bool
    ensures { result ≡ is_same_super a.now b.now }
{
    (a.block == b.block && a.ag_blocks == b.ag_blocks && a.ag_count == b.ag_count)
        && (a.sector == b.sector && a.uuid.as_bytes() == b.uuid.as_bytes())
}

/// Whether two identifiers are one, byte by byte.
pub fn is_same_uuid(a: &Uuid, b: &Uuid) -> bool
    ensures { result ≡ bytes_eq a.now b.now }
{
    a.as_bytes() == b.as_bytes()
}

/// The file system that a copy of a superblock of ext names.
fn volume_of(copy: &ExtSuper) -> ExtVolume
    ensures { result ≡ volume_of copy.now }
{
    ExtVolume {
        uuid: copy.uuid,
        block: copy.block,
        group_blocks: copy.group_blocks,
    }
}

/// Whether two of these are one, field by field.
fn is_same_volume(a: &ExtVolume, b: &ExtVolume) -> bool
    ensures { result ≡ is_same_volume a.now b.now }
{
    is_same_uuid(&a.uuid, &b.uuid) && a.block == b.block && a.group_blocks == b.group_blocks
}

/// Where a file record may lie that has the size of the records of its volume.
#[tactic(auto, unfolding(crate::specs::Owners::record_rule), using(crate::proofs::Marks::in_table, crate::proofs::Marks::in_mirror))]
fn record_rule(boot: &NtfsBoot, file: &NtfsRecord) -> Option<Rule>
    requires boot { IsTrue (is_within_limit boot.now) }
    requires number { file.now.number < 16 }
    ensures { result ≡ record_rule boot.now file.now }
{
    if file.bytes != boot.record_bytes {
        return None;
    }
    Some(Rule::Either(
        record_sector(boot, boot.mft, file.number),
        record_sector(boot, boot.mirror, file.number),
    ))
}

/// The sector of a file record, in a table that begins at a cluster.
#[tactic(auto, unfolding(ntfs_marks::specs::Boot::record_sector))]
fn record_sector(boot: &NtfsBoot, first_cluster: u64, number: u32) -> u64
    requires { record_sector boot.now first_cluster number < 2 ^ 55 }
    ensures { result ≡ record_sector boot.now first_cluster number }
{
    first_cluster * boot.cluster + number as u64 * (boot.record_bytes / SECTOR as u32) as u64
}

/// Whether an inode is a mark of an XFS: it has its identifier, as many bytes as the inodes there, and begins a stretch of
/// 64 KiB.
#[tactic(auto, unfolding(crate::specs::Owners::is_mark_of))]
fn is_mark_of(places: &XfsInodes, seen: &InodeSeen) -> bool
    ensures { result ≡ is_mark_of places.now seen.now }
{
    is_same_uuid(&places.uuid, &seen.inode.uuid)
        && has_size(places, seen.bytes)
        && places.is_mark(seen.inode.number)
}

/// Whether inodes of an XFS have so many bytes.
fn has_size(places: &XfsInodes, bytes: Option<u16>) -> bool
    ensures { result ≡ option_map_or (λ bytes. bytes == places.now.inode) bytes false }
{
    match bytes {
        Some(bytes) => bytes == places.inode,
        None => false,
    }
}

/// The owner that an inode of XFS names: of these file systems the one with its identifier, if it is a mark of that.
#[tactic(auto, using(crate::proofs::Stated::sound_system))]
fn inodes_of(systems: &[XfsInodes], seen: &InodeSeen) -> Option<Owner>
    requires { All (λ x. IsTrue (is_sound_place x)) systems.now }
    ensures { result ≡ inode_owner systems.now seen.now }
{
    let places = system_with(systems, &seen.inode.uuid)?;
    if inode_rule(&places, seen).is_some() {
        Some(Owner::Xfs5(places))
    } else {
        None
    }
}

/// Where an inode may lie that is a mark of a file system, if that has its group and block.
fn inode_rule(places: &XfsInodes, seen: &InodeSeen) -> Option<Rule>
    requires { IsTrue (is_sound_place places.now) }
    ensures { result ≡ inode_rule places.now seen.now }
{
    if is_mark_of(places, seen) {
        places.inode_sector(seen.inode.number).map(Rule::At)
    } else {
        None
    }
}

/// The owner that a tree block names, where it is known where it lies.
fn trees_of(tree: &TreeSeen) -> Option<Owner>
    ensures { result ≡ if is_some (tree_rule tree.now) then Some (Trees tree.now.block.identifier) else None }
{
    if tree_rule(tree).is_some() {
        Some(Owner::Trees(tree.block.identifier))
    } else {
        None
    }
}

/// The owner that two inodes of ext4 name.
fn extinode_of(place: &InodePlace) -> Option<Owner>
    ensures { result ≡ if is_some (inodes_rule place.now) then Some (Extinode place.now.identifier) else None }
{
    if inodes_rule(place).is_some() {
        Some(Owner::Extinode(place.identifier))
    } else {
        None
    }
}

/// Where two inodes of ext4 may lie: in the sector in which they are known to lie, below 2^55.
#[tactic(auto, unfolding(crate::specs::Owners::inodes_rule))]
fn inodes_rule(place: &InodePlace) -> Option<Rule>
    ensures { result ≡ inodes_rule place.now }
{
    if place.sector < DISTANCE_LIMIT {
        Some(Rule::At(place.sector))
    } else {
        None
    }
}

/// Where a tree block may lie: at the one place, or at one of the two, at which it is known to lie.
#[tactic(auto, unfolding(crate::specs::Owners::placed_rule))]
fn tree_rule(tree: &TreeSeen) -> Option<Rule>
    ensures { result ≡ tree_rule tree.now }
{
    match (tree.first, tree.second) {
        (Some(a), None) if begins_sector(a) => Some(Rule::At(a / SECTOR as u64)),
        (Some(a), Some(b)) if begins_sector(a) && begins_sector(b) => Some(Rule::Either(
            a / SECTOR as u64,
            b / SECTOR as u64,
        )),
        _ => None,
    }
}

/// Whether a byte begins a sector below 2^55.
#[tactic(auto, unfolding(crate::specs::Owners::begins_sector))]
fn begins_sector(byte: u64) -> bool
    ensures { result ≡ begins_sector byte }
{
    byte % SECTOR as u64 == 0 && (byte / SECTOR as u64) < DISTANCE_LIMIT
}

/// Where a superblock may lie: at the start of each group.
fn start_rule(found: &XfsSuper) -> Rule
    ensures { result ≡ start_rule found.now }
{
    Rule::Every {
        step: ag_sectors(found),
        count: found.ag_count as u64,
        plus: 0,
    }
}

/// The sectors of an allocation group.
#[tactic(auto, unfolding(xfs_marks::specs::Superblock::ag_sectors))]
fn ag_sectors(found: &XfsSuper) -> u64
    ensures { result ≡ ag_sectors found.now }
{
    found.ag_blocks as u64 * found.block as u64 / SECTOR as u64
}

/// Where a head of an allocation group may lie, if there is such a group: `sectors` sectors of the file
/// system after its start.
#[tactic(auto, unfolding(crate::specs::Owners::ag_rule), using(crate::proofs::Marks::ag_near, crate::proofs::Marks::head_near))]
fn ag_rule(found: &XfsSuper, group: u32, sectors: u64) -> Option<Rule>
    requires found { IsTrue (is_sound found.now) }
    requires sectors { sectors ≤ 2 }
    ensures { result ≡ ag_rule found.now group sectors }
{
    if group >= found.ag_count {
        return None;
    }
    let start = group as u64 * ag_sectors(found);
    Some(Rule::At(start + sectors * (found.sector / SECTOR as u32) as u64))
}
