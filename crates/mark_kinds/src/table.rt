//! The kinds of landmarks: what landmark sectors are, what the groups are to which they belong, and which are looked for.
ghost use Rattle.std.specs.Prelude.{◌≡◌, ◌==◌};
ghost use Rattle.mark_kinds.specs.Table.{group_of, group_place, group_row, has_group, is_group_asked, is_same_group, kind_place, kind_row, kinds_among, most_groups, usual_kinds};
ghost use Rattle.mark_kinds.specs.declared.table.Begin.TheVariants.{AtOrigins};

/// What the marks of a group belong to.
#[derive(Clone, Copy, Default)]
pub enum GroupKind {
    /// A GUID partition table.
    #[default]
    Gpt,
    /// An NTFS file system.
    Ntfs,
    /// An XFS file system.
    Xfs,
    /// A btrfs file system.
    Btrfs,
    /// A physical volume of LVM2.
    Lvm,
    /// An ext2, ext3 or ext4 file system.
    Ext,
    /// The inodes of an ext4 file system with checksums.
    Extinode,
    /// The inodes of an XFS file system of version 5.
    Xfs5,
    /// The tree blocks of a btrfs file system.
    Btrfstree,
    /// The file records of an NTFS file system.
    Mft,
}

/// How many kinds of groups there are.
pub const GROUP_COUNT: usize = 10;

/// All kinds of groups, in the order in which they stand in plans and lists.
pub const GROUPS: [GroupKind; GROUP_COUNT] = [
    GroupKind::Gpt,
    GroupKind::Ntfs,
    GroupKind::Xfs,
    GroupKind::Btrfs,
    GroupKind::Lvm,
    GroupKind::Ext,
    GroupKind::Extinode,
    GroupKind::Xfs5,
    GroupKind::Btrfstree,
    GroupKind::Mft,
];

/// The most groups of one kind of file system in a plan.
pub const MOST_GROUPS: usize = 32;

/// Where on the volume the groups of a kind begin.
#[derive(Clone, Copy)]
pub enum Begin {
    /// At the first sector of the volume.
    WithVolume,
    /// At one of the origins that are tried: the groups float.
    AtOrigins,
}

/// What holds of all groups of a kind: a row of the table.
#[derive(Clone, Copy)]
pub struct GroupRow {
    /// The place of the kind among all kinds of groups, from 0.
    pub place: usize,
    /// The name of the kind, in plans, words and reports.
    pub name: &'static str,
    /// Where such groups begin.
    pub begin: Begin,
    /// The most of them in a plan.
    pub most: usize,
}

/// The row of a kind whose groups float: a file system, or what file systems lie in.
fn file_system(place: usize, name: &'static str) -> GroupRow
    ensures place { result.place ≡ place }
    ensures name { result.name.now ≡ name.entry.now }
    ensures begin { result.begin ≡ AtOrigins }
    ensures most { result.most ≡ 32 }
{
    GroupRow {
        place,
        name,
        begin: Begin::AtOrigins,
        most: MOST_GROUPS,
    }
}

impl GroupKind {
    /// The row of the kind in the table.
    pub fn row(self) -> GroupRow
        ensures place { result.place ≡ (group_row self).place }
        ensures name { result.name.now ≡ (group_row self).name }
        ensures begin { result.begin ≡ (group_row self).begin }
        ensures most { result.most ≡ (group_row self).most }
    {
        match self {
            GroupKind::Gpt => GroupRow {
                place: 0,
                name: "gpt",
                begin: Begin::WithVolume,
                most: 1,
            },
            GroupKind::Ntfs => file_system(1, "ntfs"),
            GroupKind::Xfs => file_system(2, "xfs"),
            GroupKind::Btrfs => file_system(3, "btrfs"),
            GroupKind::Lvm => file_system(4, "lvm"),
            GroupKind::Ext => file_system(5, "ext"),
            GroupKind::Extinode => file_system(6, "extinode"),
            GroupKind::Xfs5 => file_system(7, "xfs5"),
            GroupKind::Btrfstree => file_system(8, "btrfstree"),
            GroupKind::Mft => file_system(9, "mft"),
        }
    }

    /// The place of the kind among all kinds of groups, from 0.
    pub fn place(self) -> usize
        ensures { result ≡ group_place self }
    {
        self.row().place
    }

    /// The name of the kind, in plans, words and reports.
    pub fn name(self) -> &'static str
        ensures { result.now ≡ (group_row self).name }
    {
        self.row().name
    }

    /// Where groups of the kind begin.
    pub fn begin(self) -> Begin
        ensures { result ≡ (group_row self).begin }
    {
        self.row().begin
    }

    /// The most groups of the kind in a plan.
    pub fn most(self) -> usize
        ensures { result ≡ most_groups self }
    {
        self.row().most
    }

    /// Whether another kind of groups is this one.
    pub fn is_same(self, other: GroupKind) -> bool
        ensures { result ≡ is_same_group self other }
    {
        self.place() == other.place()
    }
}

/// What a landmark sector is.
#[derive(Clone, Copy)]
pub enum Kind {
    /// A header of a GUID partition table.
    Gpt,
    /// A boot sector of NTFS.
    Boot,
    /// A file record of NTFS.
    FileRecord,
    /// A superblock of XFS.
    Super,
    /// A header of the free space of an XFS allocation group.
    Agf,
    /// A header of the inodes of an XFS allocation group.
    Agi,
    /// A superblock of btrfs.
    Btrfs,
    /// A label of a physical volume of LVM2.
    Lvm,
    /// A superblock of ext2, ext3 or ext4 in a later block group.
    Ext,
    /// Two inodes of ext4 beside each other.
    Extinode,
    /// An inode of an XFS file system of version 5.
    Xfs5,
    /// A tree block of btrfs.
    Btrfstree,
    /// A file record of NTFS, or a boot sector, that tells of the records of a whole table.
    Mft,
}

/// How many kinds of landmark sectors there are.
pub const KIND_COUNT: usize = 13;

/// All kinds of landmark sectors, in their order.
pub const KINDS: [Kind; KIND_COUNT] = [
    Kind::Gpt,
    Kind::Boot,
    Kind::FileRecord,
    Kind::Super,
    Kind::Agf,
    Kind::Agi,
    Kind::Btrfs,
    Kind::Lvm,
    Kind::Ext,
    Kind::Extinode,
    Kind::Xfs5,
    Kind::Btrfstree,
    Kind::Mft,
];

/// What holds of all landmark sectors of a kind: a row of the table.
#[derive(Clone, Copy)]
pub struct KindRow {
    /// The place of the kind among all kinds of landmark sectors, from 0.
    pub place: usize,
    /// The name of the kind in plans.
    pub name: &'static str,
    /// The kind of group to which such sectors belong.
    pub group: GroupKind,
}

impl Kind {
    /// The row of the kind in the table.
    pub fn row(self) -> KindRow
        ensures place { result.place ≡ (kind_row self).place }
        ensures name { result.name.now ≡ (kind_row self).name }
        ensures group { result.group ≡ (kind_row self).group }
    {
        match self {
            Kind::Gpt => row_of(0, "gpt", GroupKind::Gpt),
            Kind::Boot => row_of(1, "boot", GroupKind::Ntfs),
            Kind::FileRecord => row_of(2, "record", GroupKind::Ntfs),
            Kind::Super => row_of(3, "super", GroupKind::Xfs),
            Kind::Agf => row_of(4, "agf", GroupKind::Xfs),
            Kind::Agi => row_of(5, "agi", GroupKind::Xfs),
            Kind::Btrfs => row_of(6, "btrfs", GroupKind::Btrfs),
            Kind::Lvm => row_of(7, "lvm", GroupKind::Lvm),
            Kind::Ext => row_of(8, "ext", GroupKind::Ext),
            Kind::Extinode => row_of(9, "extinode", GroupKind::Extinode),
            Kind::Xfs5 => row_of(10, "xfs5", GroupKind::Xfs5),
            Kind::Btrfstree => row_of(11, "btrfstree", GroupKind::Btrfstree),
            Kind::Mft => row_of(12, "mft", GroupKind::Mft),
        }
    }

    /// The place of the kind among all kinds of landmark sectors, from 0.
    pub fn place(self) -> usize
        ensures { result ≡ kind_place self }
    {
        self.row().place
    }

    /// The name of the kind in plans.
    pub fn name(self) -> &'static str
        ensures { result.now ≡ (kind_row self).name }
    {
        self.row().name
    }

    /// The kind of group to which such sectors belong.
    pub fn group(self) -> GroupKind
        ensures { result ≡ group_of self }
    {
        self.row().group
    }
}

/// A row of the table.
fn row_of(place: usize, name: &'static str, group: GroupKind) -> KindRow
    ensures place { result.place ≡ place }
    ensures name { result.name.now ≡ name.entry.now }
    ensures group { result.group ≡ group }
{
    KindRow { place, name, group }
}

/// Which kinds of landmarks are looked for.
#[derive(Clone, Copy)]
pub struct Kinds {
    /// GUID partition tables.
    pub gpt: bool,
    /// NTFS file systems.
    pub ntfs: bool,
    /// XFS file systems.
    pub xfs: bool,
    /// btrfs file systems.
    pub btrfs: bool,
    /// Physical volumes of LVM2.
    pub lvm: bool,
    /// ext2, ext3 and ext4 file systems.
    pub ext: bool,
    /// Inodes of ext4 file systems with checksums.
    pub extinode: bool,
    /// Inodes of XFS file systems of version 5.
    pub xfs5: bool,
    /// Tree blocks of btrfs file systems.
    pub btrfstree: bool,
    /// File records of NTFS file systems.
    pub mft: bool,
}

/// The most sectors that a survey may be asked to pass over.
pub const MOST_DROPS: usize = 64;

/// A sector of an image that is passed over.
#[derive(Clone, Copy, Default)]
pub struct DropAt {
    /// The number of the image.
    pub image: u8,
    /// The sector of the image.
    pub sector: u64,
}

impl Kinds {
    /// The kinds that are looked for where none is named: all but ext, extinode, xfs5, btrfstree and mft.
    pub fn usual() -> Kinds
        ensures { result ≡ usual_kinds }
    {
        Kinds {
            gpt: true,
            ntfs: true,
            xfs: true,
            btrfs: true,
            lvm: true,
            ext: false,
            extinode: false,
            xfs5: false,
            btrfstree: false,
            mft: false,
        }
    }

    /// The kinds that are among these, and no others.
    pub fn among(kinds: &[GroupKind]) -> Kinds
        ensures { result ≡ kinds_among kinds.now }
    {
        Kinds {
            gpt: has_group(kinds, GroupKind::Gpt),
            ntfs: has_group(kinds, GroupKind::Ntfs),
            xfs: has_group(kinds, GroupKind::Xfs),
            btrfs: has_group(kinds, GroupKind::Btrfs),
            lvm: has_group(kinds, GroupKind::Lvm),
            ext: has_group(kinds, GroupKind::Ext),
            extinode: has_group(kinds, GroupKind::Extinode),
            xfs5: has_group(kinds, GroupKind::Xfs5),
            btrfstree: has_group(kinds, GroupKind::Btrfstree),
            mft: has_group(kinds, GroupKind::Mft),
        }
    }

    /// Whether landmarks of this kind are looked for.
    pub fn has(&self, kind: GroupKind) -> bool
        ensures { result ≡ is_group_asked self.now kind }
    {
        match kind {
            GroupKind::Gpt => self.gpt,
            GroupKind::Ntfs => self.ntfs,
            GroupKind::Xfs => self.xfs,
            GroupKind::Btrfs => self.btrfs,
            GroupKind::Lvm => self.lvm,
            GroupKind::Ext => self.ext,
            GroupKind::Extinode => self.extinode,
            GroupKind::Xfs5 => self.xfs5,
            GroupKind::Btrfstree => self.btrfstree,
            GroupKind::Mft => self.mft,
        }
    }
}

/// Whether a kind of groups is among these.
fn has_group(kinds: &[GroupKind], kind: GroupKind) -> bool
    ensures { result ≡ has_group kind kinds.now }
{
    kinds.iter().any(|other| kind.is_same(*other))
}
