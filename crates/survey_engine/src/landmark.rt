//! What a sector may be.
ghost use Rattle.std.specs.Prelude.{◌≡◌, ◌≢◌, ℕ, ◌<◌, ◌^◌, false, None, IfSome, IsTrue, slice_index};
ghost use Rattle.gpt_marks.specs.Header.{gpt_header, IsUnit};
ghost use Rattle.more_marks.specs.Btrfs.{btrfs_super, is_super_address};
ghost use Rattle.btrfstree.specs.Header.{is_block, tree_block};
ghost use Rattle.inode_marks.specs.Inode.{has_extra};
ghost use Rattle.mft.specs.Boot.{is_record_size};
ghost use Rattle.survey_engine.specs.Landmarks.{front_in, has_inodes, head_in, inner_in, inode_in, is_asked, kind_of, landmark_in, last_in, is_own, mft_in, record_in, record_or_label_in, start_in, super_in, super_of, table_in, untold, IsSound};

use btrfstree::{TreeBlock, read_block};
use ext_marks::{ExtSuper, MAGIC as EXT_MAGIC, read_ext};
use gpt_marks::{GptHeader, own_table, read_header};
use inode_marks::{InodePair, LEAST_EXTRA, MOST_EXTRA, read_any_pair};
use landmark_rules::Kind;
use mark_kinds::Kinds;
use mft::{MftBoot, RecordStart, read_boot as read_volume, read_start as read_record_start};
use more_marks::{BtrfsSuper, read_btrfs, read_lvm};
use ntfs_marks::{NtfsBoot, NtfsRecord, read_boot, read_record};
use sector_fields::{DISTANCE_LIMIT, SECTOR, u16_le, u64_le};
use uuid::Uuid;
use xfs_marks::{XfsGroup, XfsSuper, read_group, read_super};
use xfs5::{VERSION as INODE_VERSION, XfsInode, XfsInodes, read_inode, read_inodes, read_start};

/// The bytes of the smallest inodes of XFS: such an inode stands in one sector.
const SMALLEST: u16 = 512;

/// Of so many of the smallest inodes the first begins a stretch of 64 KiB.
const STRETCH: u64 = 128;

/// Of so many of the largest inodes the first does.
const LARGEST_STRETCH: u64 = 32;

/// A header of a partition table, on a disk whose blocks have `unit` sectors each.
#[derive(Clone, Copy)]
pub struct GptTable {
    /// What the header says.
    pub header: GptHeader,
    /// The sectors of a block, 1 or 8.
    pub unit: u64,
}

/// A tree block of btrfs, with what leaves of the tree of chunks told of where its address lies.
#[derive(Clone, Copy)]
pub struct TreeSeen {
    /// What the tree block says of itself.
    pub block: TreeBlock,
    /// The generation of the newest leaf that tells of it: None where none does.
    pub told: Option<u64>,
    /// The byte of the file system at which it lies, the first time: None where that is not known.
    pub first: Option<u64>,
    /// The byte at which it lies the second time: None where it lies once.
    pub second: Option<u64>,
}

/// An inode of XFS of version 5, with how many bytes it has.
#[derive(Clone, Copy)]
pub struct InodeSeen {
    /// What its first sector says of it.
    pub inode: XfsInode,
    /// Its bytes: None where they are more than its first sector, and what lies past that was not looked at or is of no
    /// inode.
    pub bytes: Option<u16>,
}

/// Where two inodes of ext4 lie.
#[derive(Clone, Copy)]
pub struct InodePlace {
    /// The identifier of their file system.
    pub identifier: Uuid,
    /// The sector of the file system that holds them.
    pub sector: u64,
}

/// A landmark sector, with what it says.
#[derive(Clone, Copy)]
pub enum Landmark {
    /// A header of a GUID partition table.
    Gpt(GptTable),
    /// A boot sector of NTFS.
    Boot(NtfsBoot),
    /// A file record of NTFS.
    FileRecord(NtfsRecord),
    /// A superblock of XFS.
    Super(XfsSuper),
    /// A superblock of XFS of version 5, with what it says of where inodes lie.
    Super5(XfsSuper, XfsInodes),
    /// A head of the free space of an XFS allocation group, with the group's number.
    Agf(u32),
    /// A head of the inodes of an XFS allocation group, with the group's number.
    Agi(u32),
    /// A superblock of btrfs.
    Btrfs(BtrfsSuper),
    /// A label of a physical volume of LVM2, with the sector of that volume that it names.
    Lvm(u64),
    /// A copy of a superblock of ext2, ext3 or ext4.
    Ext(ExtSuper),
    /// An inode of XFS of version 5 whose number begins a stretch of 64 KiB, or what may begin such a one.
    Inode(InodeSeen),
    /// The first sector of a tree block of btrfs that counts.
    Tree(TreeSeen),
    /// Two inodes of ext4, of which the second has a number that is a multiple of 32.
    Inodes(InodePair),
    /// Two such inodes, with what a copy of a superblock told of where they lie.
    Placed(InodePair, InodePlace),
    /// A file record of NTFS that begins a stretch of its table.
    Record(RecordStart),
    /// A boot sector of NTFS that is none by the rules of `Boot`, as one of a volume with larger clusters.
    Volume(MftBoot),
}

/// The landmark in a sector, on a disk whose blocks have `unit` sectors. A header of a partition table is
/// nothing else, also where it names a sector of 2^55 or more and so is no landmark. A superblock of btrfs or a
/// copy of one of ext is what is no landmark by its front, an inode of XFS of 512 bytes what is none of these, a tree block
/// of btrfs what is no such inode either, two inodes of ext4 what is no tree block either, what may begin a larger inode of
/// XFS what is none of these, and a file record or boot sector of `mft` what is no other landmark.
#[tactic(auto, unfolding(crate::specs::Landmarks::landmark_in, gpt_marks::specs::Header::gpt_header))]
pub fn read_landmark(sector: &[u8; SECTOR], unit: u64) -> Option<Landmark>
    requires { IsUnit unit }
    ensures landmark { result ≡ landmark_in unit sector.now }
    ensures sound { IfSome result IsSound }
{
    if is_plain(sector) {
        return None;
    }
    match find_header(sector) {
        Some(header) => table_of(header, unit),
        None => match read_front(sector) {
            Some(landmark) => Some(landmark),
            None => match read_inner(sector) {
                Some(landmark) => Some(landmark),
                None => read_last(sector),
            },
        },
    }
}

/// Whether a sector is no landmark by the few bytes that tell so of most sectors: byte 3, which says what it may be by its
/// front; the version of an inode of XFS; and what copies of ext, superblocks and tree blocks of btrfs, and inodes of ext4
/// begin with.
#[tactic(auto, using(crate::proofs::Plain::none_in))]
fn is_plain(sector: &[u8; SECTOR]) -> bool
    ensures none { IsTrue result → (unit : ℕ) → landmark_in unit sector.now ≡ None }
{
    !is_front(sector[3])
        && sector[4] != INODE_VERSION
        && u16_le(sector, 56) != EXT_MAGIC
        && sector[64] != b'_'
        && is_no_block(sector)
        && is_no_pair(sector)
}

/// Whether a sector is no tree block of btrfs by its address or its revision.
#[tactic(auto, using(crate::proofs::Plain::no_address, crate::proofs::Plain::no_revision))]
fn is_no_block(sector: &[u8; SECTOR]) -> bool
    ensures { IsTrue result → is_block sector.now ≡ false }
{
    1 < sector[63] || u64_le(sector, 48) == 0
}

/// Whether a sector is no two inodes of ext4 by how much the first uses of its second half.
#[tactic(auto, using(crate::proofs::Plain::few_extra, crate::proofs::Plain::most_extra))]
fn is_no_pair(sector: &[u8; SECTOR]) -> bool
    ensures { IsTrue result → has_extra sector.now 0 ≡ false }
{
    let extra = u16_le(sector, 128);
    extra < LEAST_EXTRA || MOST_EXTRA < extra
}

/// Whether byte 3 of a sector is one that landmarks have which are told by their fronts.
fn is_front(byte: u8) -> bool
    ensures other { result ≡ false → (byte ≢ 32) × (byte ≢ 78) × (byte ≢ 69) × (byte ≢ 66) × (byte ≢ 70) × (byte ≢ 73) }
{
    match byte {
        b' ' | b'N' | b'E' | b'B' | b'F' | b'I' => true,
        _ => false,
    }
}

/// The header of a partition table in a sector. Most sectors need no more than a look at byte 3.
#[tactic(auto, unfolding(gpt_marks::specs::Header::gpt_header), using(crate::proofs::Landmarks::not_gpt))]
fn find_header(sector: &[u8; SECTOR]) -> Option<GptHeader>
    ensures header { result ≡ gpt_header sector.now }
    ensures within { IfSome result (λ h. h.my_lba < 2 ^ 55) }
{
    if sector[3] == b' ' {
        read_header(sector)
    } else {
        None
    }
}

/// The landmark that a header is, unless it names a sector of 2^55 or more.
#[tactic(auto, unfolding(crate::specs::Landmarks::table_in), using(crate::proofs::Marks::block_small))]
fn table_of(header: GptHeader, unit: u64) -> Option<Landmark>
    requires unit { IsUnit unit }
    requires within { header.my_lba < 2 ^ 55 }
    ensures table { result ≡ table_in unit header }
    ensures sound { IfSome result IsSound }
{
    if unit * header.my_lba < DISTANCE_LIMIT {
        Some(Landmark::Gpt(GptTable { header, unit }))
    } else {
        None
    }
}

/// The landmark of NTFS, XFS or LVM2 in a sector. Byte 3 differs from kind to kind, but for file records and
/// labels, so most sectors need no more than a look at it.
#[tactic(auto, using(crate::proofs::Landmarks::boot_is, crate::proofs::Landmarks::record_or_label_is, crate::proofs::Landmarks::super_is, crate::proofs::Landmarks::agf_is, crate::proofs::Landmarks::agi_is, crate::proofs::Landmarks::none_is))]
fn read_front(sector: &[u8; SECTOR]) -> Option<Landmark>
    ensures landmark { result ≡ front_in sector.now }
    ensures sound { IfSome result IsSound }
{
    match sector[3] {
        b'N' => read_boot(sector).map(Landmark::Boot),
        b'E' => read_record_or_label(sector),
        b'B' => read_xfs(sector),
        b'F' | b'I' => read_head(sector),
        _ => None,
    }
}

/// A superblock of XFS.
#[tactic(auto, unfolding(crate::specs::Landmarks::super_in, crate::specs::Landmarks::super_of, xfs_marks::specs::Superblock::xfs_super))]
fn read_xfs(sector: &[u8; SECTOR]) -> Option<Landmark>
    ensures landmark { result ≡ super_in sector.now }
    ensures sound { IfSome result IsSound }
{
    match read_super(sector) {
        Some(found) => match read_inodes(sector) {
            Some(places) => Some(Landmark::Super5(found, places)),
            None => Some(Landmark::Super(found)),
        },
        None => None,
    }
}

/// The inode of 512 bytes in a sector, where its number begins a stretch of 64 KiB.
#[tactic(auto, unfolding(crate::specs::Landmarks::inode_in))]
fn read_mark(sector: &[u8; SECTOR]) -> Option<InodeSeen>
    ensures { result ≡ inode_in sector.now }
{
    match read_inode(sector, &[]) {
        Some(inode) if inode.number % STRETCH == 0 => Some(InodeSeen {
            inode,
            bytes: Some(SMALLEST),
        }),
        _ => None,
    }
}

/// The inode of more bytes that may begin in a sector, where its number may begin a stretch of 64 KiB.
#[tactic(auto, unfolding(crate::specs::Landmarks::start_in))]
fn read_larger_start(sector: &[u8; SECTOR]) -> Option<InodeSeen>
    ensures { result ≡ start_in sector.now }
{
    let inode = read_start(sector)?;
    if inode.number % LARGEST_STRETCH == 0 && read_inode(sector, &[]).is_none() {
        Some(InodeSeen { inode, bytes: None })
    } else {
        None
    }
}

/// An inode of XFS, a tree block of btrfs, two inodes of ext4, what may begin a larger inode of XFS, or what tells of file
/// records of NTFS.
#[tactic(auto, unfolding(crate::specs::Landmarks::last_in))]
fn read_last(sector: &[u8; SECTOR]) -> Option<Landmark>
    ensures landmark { result ≡ last_in sector.now }
    ensures sound { IfSome result IsSound }
{
    match read_mark(sector) {
        Some(inode) => Some(Landmark::Inode(inode)),
        None => match find_tree(sector) {
            Some(block) => Some(untold(block)),
            None => match read_any_pair(sector) {
                Some(pair) => Some(Landmark::Inodes(pair)),
                None => match read_larger_start(sector) {
                    Some(inode) => Some(Landmark::Inode(inode)),
                    None => read_mft(sector),
                },
            },
        },
    }
}

/// A file record of NTFS that counts, or a boot sector of a volume of NTFS with clusters of any size.
#[tactic(auto, unfolding(crate::specs::Landmarks::mft_in))]
fn read_mft(sector: &[u8; SECTOR]) -> Option<Landmark>
    ensures landmark { result ≡ mft_in sector.now }
    ensures sound { IfSome result IsSound }
{
    match read_spread(sector) {
        Some(start) => Some(Landmark::Record(start)),
        None => read_volume(sector).map(Landmark::Volume),
    }
}

/// The file record that begins in a sector, if it is one that counts.
#[tactic(auto, unfolding(crate::specs::Landmarks::record_in))]
fn read_spread(sector: &[u8; SECTOR]) -> Option<RecordStart>
    ensures start { result ≡ record_in sector.now }
    ensures size { IfSome result (λ r. IsTrue (is_record_size r.bytes)) }
{
    match read_record_start(sector) {
        Some(start) if start.is_spread() => Some(start),
        _ => None,
    }
}

/// The tree block of btrfs in a sector. Most sectors need no more than a look at byte 63, the revision of its back
/// references.
#[tactic(auto, using(crate::proofs::Landmarks::other_revision))]
fn find_tree(sector: &[u8; SECTOR]) -> Option<TreeBlock>
    ensures { result ≡ tree_block sector.now }
{
    match sector[63] {
        0 | 1 => read_block(sector),
        _ => None,
    }
}

/// A tree block of which nothing is told yet.
fn untold(block: TreeBlock) -> Landmark
    ensures { result ≡ untold block }
{
    Landmark::Tree(TreeSeen {
        block,
        told: None,
        first: None,
        second: None,
    })
}

/// A file record of NTFS or a label of LVM2.
#[tactic(auto, unfolding(crate::specs::Landmarks::record_or_label_in, ntfs_marks::specs::FileRecord::ntfs_record, more_marks::specs::Lvm::lvm_label))]
fn read_record_or_label(sector: &[u8; SECTOR]) -> Option<Landmark>
    ensures landmark { result ≡ record_or_label_in sector.now }
    ensures sound { IfSome result IsSound }
{
    match read_record(sector) {
        Some(record) => Some(Landmark::FileRecord(record)),
        None => read_lvm(sector).map(Landmark::Lvm),
    }
}

/// A head of an allocation group of XFS.
#[tactic(auto, unfolding(crate::specs::Landmarks::head_in, xfs_marks::specs::Group::xfs_group))]
fn read_head(sector: &[u8; SECTOR]) -> Option<Landmark>
    ensures head { result ≡ head_in sector.now }
    ensures sound { IfSome result IsSound }
{
    match read_group(sector) {
        Some(XfsGroup::Agf(group)) => Some(Landmark::Agf(group)),
        Some(XfsGroup::Agi(group)) => Some(Landmark::Agi(group)),
        None => None,
    }
}

/// A superblock of btrfs, or a copy of one of ext.
#[tactic(auto, unfolding(crate::specs::Landmarks::inner_in, more_marks::specs::Btrfs::btrfs_super, ext_marks::specs::Copy::ext_super))]
fn read_inner(sector: &[u8; SECTOR]) -> Option<Landmark>
    ensures landmark { result ≡ inner_in sector.now }
    ensures sound { IfSome result IsSound }
{
    match find_btrfs(sector) {
        Some(found) => Some(Landmark::Btrfs(found)),
        None => read_ext(sector).map(Landmark::Ext),
    }
}

/// The superblock of btrfs in a sector. Most sectors need no more than a look at byte 64.
#[tactic(auto, unfolding(more_marks::specs::Btrfs::btrfs_super), using(crate::proofs::Landmarks::not_btrfs))]
fn find_btrfs(sector: &[u8; SECTOR]) -> Option<BtrfsSuper>
    ensures superblock { result ≡ btrfs_super sector.now }
    ensures placed { IfSome result (λ x. IsTrue (is_super_address x.address)) }
{
    if sector[64] == b'_' {
        read_btrfs(sector)
    } else {
        None
    }
}

impl Landmark {
    /// Its kind.
    pub fn kind(&self) -> Kind
        ensures { result ≡ kind_of self.now }
    {
        match self {
            Landmark::Gpt(_) => Kind::Gpt,
            Landmark::Boot(_) => Kind::Boot,
            Landmark::FileRecord(_) => Kind::FileRecord,
            Landmark::Super(_) => Kind::Super,
            Landmark::Super5(_, _) => Kind::Super,
            Landmark::Agf(_) => Kind::Agf,
            Landmark::Agi(_) => Kind::Agi,
            Landmark::Btrfs(_) => Kind::Btrfs,
            Landmark::Lvm(_) => Kind::Lvm,
            Landmark::Ext(_) => Kind::Ext,
            Landmark::Inode(_) => Kind::Xfs5,
            Landmark::Tree(_) => Kind::Btrfstree,
            Landmark::Inodes(_) => Kind::Extinode,
            Landmark::Placed(_, _) => Kind::Extinode,
            Landmark::Record(_) => Kind::Mft,
            Landmark::Volume(_) => Kind::Mft,
        }
    }

    /// Whether landmarks like it are looked for, where these kinds are: also one that tells of others, where those are.
    pub fn is_asked(&self, kinds: &Kinds) -> bool
        ensures { result ≡ is_asked kinds.now self.now }
    {
        kinds.has(self.kind().group()) || self.has_inodes(kinds)
    }

    /// Whether inodes or file records are looked for of which it tells.
    fn has_inodes(&self, kinds: &Kinds) -> bool
        ensures { result ≡ has_inodes kinds.now self.now }
    {
        match self {
            Landmark::Super5(_, _) => kinds.xfs5,
            Landmark::Ext(_) => kinds.extinode,
            Landmark::Boot(_) => kinds.mft,
            Landmark::FileRecord(_) => kinds.mft,
            _ => false,
        }
    }

    /// Whether it is, in sector `sector` of an image of `length` sectors, a header of the image's own
    /// partition table.
    pub fn is_own(&self, sector: u64, length: u64) -> bool
        requires sector { sector < length }
        requires sound { IsSound self.now }
        ensures { result ≡ is_own self.now sector length }
    {
        match self {
            Landmark::Gpt(table) => own_table(&table.header, sector, length, table.unit),
            _ => false,
        }
    }
}
