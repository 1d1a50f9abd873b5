//! Which parameters make sense, and the first rule that a parameter set breaks.
ghost use Rattle.std.specs.Prelude.{◌≡◌, ◌<◌, ◌≤◌, IfSome, MatchResult, Some, None, length, nat_eq};
ghost use Rattle.std.specs.List.{find, range_with_len};
ghost use Rattle.raid_params.specs.Size.{redundancy as redundancy_of, rows};
ghost use Rattle.raid_params.specs.Validity.{first_absent as first_absent_of, first_fault, first_repeat as first_repeat_of, has_members as has_members_of, has_pattern as has_pattern_of, has_syndrome as has_syndrome_of, is_absent as is_absent_at, is_chunk as is_chunk_size, is_met_again as is_met_again_at, is_shaped as is_shaped_over, is_valid_head, moves as moves_of, has_delay as has_delay_of, early_fault, shape_fault, slots_fault};

use crate::limits::{LONGEST_DELAY, MOST, MOST_CHUNKS};
use crate::slots::{count_empty, stands_among};
use crate::types::{GeoFault, Geometry, Head, Level, Pattern, Syndrome};

impl Level {
    /// How many lost members an array of the level survives.
    pub fn redundancy(&self) -> u8
        ensures { result ≡ redundancy_of self.now }
    {
        match self {
            Level::Raid0 => 0,
            Level::Raid5 => 1,
            Level::Raid6 => 2,
        }
    }

    /// Whether the level has arrays of `members` members: at least 2, 3 or 4 by the level, and at most
    /// `MOST`.
    pub fn has_members(&self, members: usize) -> bool
        ensures { result ≡ has_members_of self.now members }
    {
        self.redundancy() as usize + 2 <= members && members <= MOST
    }

    /// Whether the pattern is one of the level's.
    pub fn has_pattern(&self, pattern: Pattern) -> bool
        ensures { result ≡ has_pattern_of self.now pattern }
    {
        match self {
            Level::Raid0 => matches!(pattern, Pattern::Plain),
            Level::Raid5 => matches!(
                pattern,
                Pattern::La
                    | Pattern::Ra
                    | Pattern::Ls
                    | Pattern::Rs
                    | Pattern::ParityFirst
                    | Pattern::ParityLast
            ),
            Level::Raid6 => !matches!(pattern, Pattern::Plain),
        }
    }

    /// Whether the level has this order of Q: level 6 has one, the others none.
    pub fn has_syndrome(&self, syndrome: Syndrome) -> bool
        ensures { result ≡ has_syndrome_of self.now syndrome }
    {
        match self {
            Level::Raid0 | Level::Raid5 => matches!(syndrome, Syndrome::NoQ),
            Level::Raid6 => !matches!(syndrome, Syndrome::NoQ),
        }
    }
}

impl Pattern {
    /// Whether the parity moves from slot to slot.
    pub fn moves(&self) -> bool
        ensures { result ≡ moves_of self.now }
    {
        !matches!(
            self,
            Pattern::Plain | Pattern::ParityFirst | Pattern::ParityLast | Pattern::ParityFirst6
        )
    }

    /// Whether the parity may stay for so many rows: for one, or where it moves for up to `LONGEST_DELAY`.
    pub fn has_delay(&self, delay: u64) -> bool
        ensures { result ≡ has_delay_of self.now delay }
    {
        delay == 1 || self.moves() && 1 <= delay && delay <= LONGEST_DELAY
    }
}

/// Whether the chunk is a power of two from 1 to `LARGEST_CHUNK`.
pub fn is_chunk(chunk: u64) -> bool
    ensures { result ≡ is_chunk_size chunk }
{
    (0..MOST_CHUNKS).any(|doublings| chunk == 1 << doublings)
}

impl Head {
    /// Whether the members, the pattern, the order of Q and the chunk suit the level, and the delay the
    /// pattern.
    pub fn is_valid(&self) -> bool
        ensures { result ≡ is_valid_head self.now }
    {
        self.level.has_members(self.members as usize)
            && self.level.has_pattern(self.pattern)
            && self.level.has_syndrome(self.syndrome)
            && is_chunk(self.chunk)
            && self.pattern.has_delay(self.delay)
    }
}

impl Geometry {
    /// Whether the set has a sensible shape over `images` images: `validate` without the rule on whole
    /// rows.
    pub fn is_shaped(&self, images: u8) -> bool
        ensures { result ≡ is_shaped_over self.now images }
    {
        self.broken_shape(images).is_none() && self.head.pattern.has_delay(self.head.delay)
    }

    /// The first broken rule of the set over `images` images, whose members end before the image sector
    /// `end`. The rules, in their order: the number of members, the pattern, the order of Q, the chunk,
    /// the images that the slots name, that no image stands twice, the number of empty slots, that there is
    /// a whole row, and the delay.
    pub fn validate(&self, images: u8, end: u64) -> Result<(), GeoFault>
        ensures { MatchResult result (λ _. first_fault self.now images end ≡ None) (λ fault. first_fault self.now images end ≡ Some fault) }
    {
        match self.validate_early(images, end) {
            Ok(()) if !self.head.pattern.has_delay(self.head.delay) => {
                Err(GeoFault::Delay(self.head.delay))
            }
            early => early,
        }
    }

    /// The first broken rule but for that on the delay, which comes after all others: also after those on more
    /// than a geometry, as on the bases of its images.
    #[tactic(auto, using(crate::proofs::Chunks::some_chunk))]
    pub fn validate_early(&self, images: u8, end: u64) -> Result<(), GeoFault>
        ensures { MatchResult result (λ _. early_fault self.now images end ≡ None) (λ fault. early_fault self.now images end ≡ Some fault) }
    {
        match self.broken_shape(images) {
            Some(fault) => Err(fault),
            None if self.has_no_row(end) => Err(GeoFault::NoRow(self.head.offset)),
            None => Ok(()),
        }
    }

    /// Whether no whole row lies between the offset and the image sector `end`.
    fn has_no_row(&self, end: u64) -> bool
        requires { 1 ≤ self.now.head.chunk }
        ensures { result ≡ nat_eq (rows self.now.head end) 0 }
    {
        end.saturating_sub(self.head.offset) / self.head.chunk == 0
    }

    /// The first broken rule on the shape.
    fn broken_shape(&self, images: u8) -> Option<GeoFault>
        ensures { result ≡ shape_fault self.now images }
    {
        let head = &self.head;
        let slots = self.slots.as_slice();
        if !head.level.has_members(slots.len()) || head.members as usize != slots.len() {
            Some(GeoFault::Members(head.members))
        } else if !head.level.has_pattern(head.pattern) {
            Some(GeoFault::Pattern(head.pattern))
        } else if !head.level.has_syndrome(head.syndrome) {
            Some(GeoFault::Syndrome(head.syndrome))
        } else if !is_chunk(head.chunk) {
            Some(GeoFault::Chunk(head.chunk))
        } else {
            broken_slots(head.level, images, slots)
        }
    }
}

/// The first broken rule on what the slots hold.
fn broken_slots(level: Level, images: u8, slots: &[Option<u8>]) -> Option<GeoFault>
    requires { length slots.now ≤ MOST }
    ensures { result ≡ slots_fault level images slots.now (first_absent_of images slots.now) (first_repeat_of slots.now) }
{
    match (first_absent(slots, images), first_repeat(slots)) {
        (Some(image), _) => Some(GeoFault::Image(image)),
        (None, Some(image)) => Some(GeoFault::Repeat(image)),
        (None, None) => {
            let empty = count_empty(slots) as u8;
            if empty <= level.redundancy() {
                None
            } else {
                Some(GeoFault::Missing(empty))
            }
        }
    }
}

/// The first image in a slot that is not below `images`: one that is not there.
pub fn first_absent(slots: &[Option<u8>], images: u8) -> Option<u8>
    ensures { result ≡ first_absent_of images slots.now }
{
    match absent_place(slots, images) {
        Some(at) => slots[at],
        None => None,
    }
}

/// The first slot that holds an image that is not below `images`.
fn absent_place(slots: &[Option<u8>], images: u8) -> Option<usize>
    ensures place { result ≡ find (is_absent_at images slots.now) (range_with_len 0 (length slots.now)) }
    ensures within { IfSome result (λ at. at < length slots.now) }
{
    (0..slots.len()).find(|at: &usize| is_absent(slots, *at, images))
}

/// Whether this slot holds an image that is not below `images`.
fn is_absent(slots: &[Option<u8>], at: usize, images: u8) -> bool
    requires { at < length slots.now }
    ensures { result ≡ is_absent_at images slots.now at }
{
    match slots[at] {
        Some(image) => images <= image,
        None => false,
    }
}

/// The first image, in the order of the slots, that stands in a slot before it too.
pub fn first_repeat(slots: &[Option<u8>]) -> Option<u8>
    ensures { result ≡ first_repeat_of slots.now }
{
    match repeated_place(slots) {
        Some(at) => slots[at],
        None => None,
    }
}

/// The first slot whose image stands in a slot before it too.
fn repeated_place(slots: &[Option<u8>]) -> Option<usize>
    ensures place { result ≡ find (is_met_again_at slots.now) (range_with_len 0 (length slots.now)) }
    ensures within { IfSome result (λ at. at < length slots.now) }
{
    (0..slots.len()).find(|at: &usize| is_met_again(slots, *at))
}

/// Whether the image in this slot stands in a slot before it too.
fn is_met_again(slots: &[Option<u8>], at: usize) -> bool
    requires { at < length slots.now }
    ensures { result ≡ is_met_again_at slots.now at }
{
    match slots[at] {
        Some(image) => stands_among(image, &slots[..at]),
        None => false,
    }
}
