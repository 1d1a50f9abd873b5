//! The commands.
use arrayvec::ArrayVec;
use landmark_rules::MarkTests;
use mark_kinds::{DropAt, Kinds, MOST_DROPS};
use near_mirror::{CopyLayout, NearSet};
use raid_params::{Bounds, MOST_CHUNKS, MOST_LESS_ONE, MOST_OFFSETS, Wide};

/// The first word: which command it is.
#[derive(Clone, Copy)]
pub enum Verb {
    /// `survey`: the plan of a search over the images.
    Survey,
    /// `list`: pages of the sets that pass.
    List,
    /// `check`: the tests of one set.
    Check,
    /// `map`: where a sector of the volume lies.
    Map,
    /// `write`: the volume.
    Write,
    /// `rebuild`: the member of an empty slot.
    Rebuild,
    /// `sample`: an array that is generated.
    Sample,
    /// `classes`: which of the listed sets give the same volume.
    Classes,
    /// `mirrors`: a page of the mirrors that pass.
    Mirrors,
    /// `mirrorwrite`: the volume of a mirror.
    MirrorWrite,
    /// `salvage`: the volume of damaged members, or what of it is lost.
    Salvage,
    /// `relations`: how the images depend on one another.
    Relations,
}

/// How a listing is written.
#[derive(Clone, Copy)]
pub enum Form {
    /// Lines of words.
    Text,
    /// Lines of JSON objects.
    Json,
}

/// What a survey is asked for. What depends on the images where it is not among the words is empty or
/// None here: the numbers of members in `bounds`, `end` and `window`.
#[derive(Drop)]
pub struct SurveyWords {
    /// The parameters to try.
    pub bounds: Bounds,
    /// The image sector after the last one that may belong to the array.
    pub end: Option<u64>,
    /// The most tested sector rows that may be unsound.
    pub badrows: u64,
    /// The member sector from which on none is tested.
    pub window: Option<u64>,
    /// How the landmarks are to be tested.
    pub tests: MarkTests,
    /// Which landmarks are looked for.
    pub kinds: Kinds,
    /// The sectors that are passed over, by image, then sector. An image may be none of those given.
    pub drops: ArrayVec<DropAt, MOST_DROPS>,
    /// Whether each image has an offset of its own. Then no image may be foreign, and all offsets to try are below
    /// 2^54.
    pub each: bool,
    /// The sectors of a block of a partition table, 1 or 8.
    pub unit: u64,
    /// The number of words up to the names of the images.
    pub names: usize,
}

/// What `relations` is asked for. What depends on the images where it is not among the words is empty or None here.
#[derive(Drop)]
pub struct RelationWords {
    /// The first row.
    pub from: u64,
    /// The row after the last one that may be looked at.
    pub end: Option<u64>,
    /// How many rows lie from one to the next, at least 1.
    pub step: Option<u64>,
    /// The sector of row 0 of each image, in the order of the images; empty: row 0 is sector 0 of each.
    pub offsets: ArrayVec<u64, MOST_RELATED>,
    /// How the lines are written.
    pub form: Form,
    /// The number of words up to the names of the images.
    pub names: usize,
}

/// The most images that `relations` takes.
pub const MOST_RELATED: usize = 64;

/// The most layouts of copies: three ways in which two to four copies lie.
pub const MOST_LAYOUTS: usize = 9;

/// What the words ask for. In each, `names` is the number of words up to `--` and with it: the names of
/// the images follow. `end` is the image sector after the last one that may belong to the array; where it
/// is None the members end with the shortest image.
#[derive(Drop)]
pub enum Command {
    /// The plan of a search over the images.
    Survey(SurveyWords),
    /// Pages of the sets that pass.
    List {
        /// The first rank.
        from: u64,
        /// The most lines of a page.
        size: u64,
        /// The most ranks that a page goes through.
        span: u64,
        /// The most pages.
        pages: u64,
        /// How they are written.
        form: Form,
        names: usize,
    },
    /// The tests of one set.
    Check {
        /// The set.
        set: Wide,
        names: usize,
    },
    /// Where a sector of the volume lies.
    Map {
        /// The set of the volume.
        set: Wide,
        /// The sector of the volume.
        sector: u64,
        end: Option<u64>,
        names: usize,
    },
    /// The volume.
    Write {
        /// The set of the volume.
        set: Wide,
        end: Option<u64>,
        names: usize,
    },
    /// The member of an empty slot.
    Rebuild {
        /// The set, with that slot empty.
        set: Wide,
        /// The slot, counted from 0.
        slot: u8,
        end: Option<u64>,
        names: usize,
    },
    /// An array that is generated. It reads no images.
    Sample {
        /// The number from which its bytes are made.
        number: u64,
        /// The set of its volume.
        set: Wide,
        /// The number of its rows of chunks.
        rows: u64,
        /// Whether it gets the landmarks of an XFS file system.
        xfs: bool,
    },
    /// Which of the listed sets give the same volume. It reads no images.
    Classes {
        /// How many images the sets are of, from 1 to `MOST`.
        images: u8,
        /// The image sector after the last one that may belong to the array.
        end: u64,
    },
    /// A page of the mirrors that pass: RAID 10 of the Linux md driver. What depends on
    /// the images where it is not among the words is empty or None here: `members`, `window` and `end`.
    Mirrors {
        /// The layouts to try.
        layouts: ArrayVec<CopyLayout, MOST_LAYOUTS>,
        /// The numbers of members to try.
        members: ArrayVec<u8, MOST_LESS_ONE>,
        /// The chunks to try, in sectors.
        chunks: ArrayVec<u64, MOST_CHUNKS>,
        /// The image sectors to try at which the data of each member may begin.
        offsets: ArrayVec<u64, MOST_OFFSETS>,
        /// The most empty slots.
        missing: u8,
        /// The most images that stand in no slot.
        foreign: u8,
        /// The most pairs of copies of tested sectors of the volume that may differ.
        badrows: u64,
        /// The member sector from which on none is tested.
        window: Option<u64>,
        end: Option<u64>,
        /// The first rank.
        from: u64,
        /// The most lines of the page.
        size: u64,
        /// The most ranks that the page goes through.
        span: u64,
        names: usize,
    },
    /// The volume of a mirror.
    MirrorWrite {
        /// The set of the mirror.
        set: NearSet,
        end: Option<u64>,
        names: usize,
    },
    /// The volume of damaged members, or what of it is lost.
    Salvage {
        /// The set of the volume.
        set: Wide,
        /// Whether the text of what is lost is asked for, in place of the volume.
        lost: bool,
        end: Option<u64>,
        names: usize,
    },
    /// How the images depend on one another.
    Relations(RelationWords),
    /// The text that says how the program is used. It reads no images.
    Help,
    /// The version of the program. It reads no images.
    Version,
}
