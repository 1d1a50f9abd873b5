//! The lines of a plan before its groups, one after the other.
ghost use Rattle.std.specs.Prelude.{◌≡◌, ◌≤◌, ◌++◌, ◌∷◌, [], All, IsTrue, codes, decimal, length, map};
ghost use Rattle.search_plan.specs.Plans.{AreRising};
ghost use Rattle.plan_text.specs.Parts.{AreArrays, AreBelow, AreCounts, AreImages, AreSizes, IsSearch, lines_of_arrays, lines_of_sizes, lines_of_counts, lines_of_search, MayComeAfter, line_after};
ghost use Rattle.value_text.specs.Bounded.{AreMembers, AreChunks};
ghost use Rattle.plan_text.specs.PlanText.{image_lines, mode_line, version_lines};
ghost use Rattle.plan_text.specs.Reading.{Reads, is_line};
ghost use Rattle.value_text.specs.Spelling.{commas, named};

use crate::fault::PlanFault;
use crate::lines::{
    after_patterns, chunks_after, list_after, members_after, mode_after, number_after,
    sectors_after,
};
use crate::parts::{AfterPatterns, Arrays, Counts, Search, Sizes};
use crate::reader::PlanReader;
use crate::version::{Version, most_foreign, sectors_end};
use arrayvec::ArrayVec;
use landmark_rules::MarkTests;
use raid_params::{
    Bounds, MOST, MOST_CHUNKS, MOST_DELAYS, MOST_LESS_ONE, MOST_MISSING, SECTORS_END,
};
use search_plan::Limits;
use value_text::{Field, Listed};

impl<'a> PlanReader<'a> {
    /// What the version of the text says: whether each image has an offset of its own, and whether it is version 3.
    pub fn version(&mut self) -> Result<Version, PlanFault>
        ensures { Reads (λ _. Unit {0}) (λ version. version_lines version.each version.third) self.old self.new result }
    {
        let number = self.number(b"reraid-plan ", 1, 3)?;
        if number == 3 {
            let each = self.mode()?;
            Ok(Version { each, third: true })
        } else {
            Ok(Version {
                each: number == 2,
                third: false,
            })
        }
    }

    /// Whether each image has an offset of its own, as the line of the mode says.
    fn mode(&mut self) -> Result<bool, PlanFault>
        ensures { Reads (λ _. Unit {0}) (λ each. mode_line each ∷ []) self.old self.new result }
    {
        let line = self.next_line()?;
        mode_after(line).ok_or(self.refusal())
    }

    /// The number of images, from 1 to `MOST`, and their lengths in sectors.
    pub fn images(&mut self, each: bool) -> Result<ArrayVec<u64, MOST>, PlanFault>
        ensures { Reads (λ lengths. AreImages each lengths.items) (λ lengths. image_lines lengths.items) self.old self.new result }
    {
        let count = self.number(b"images ", 1, MOST as u64)?;
        let mut lengths = ArrayVec::new();
        for _ in 0..count {
            lengths.push(self.number(b"length ", 0, sectors_end(each) - 1)?);
        }
        Ok(lengths)
    }

    /// What is searched, and how it is tested: `end` is at most the shortest length.
    pub fn search(&mut self, shortest: u64, version: Version) -> Result<Search, PlanFault>
        ensures { Reads (IsSearch shortest version.each version.third) lines_of_search self.old self.new result }
    {
        let end = self.number(b"end ", 0, shortest)?;
        let arrays = self.arrays(version.third)?;
        let sizes = self.sizes(version.each)?;
        let counts = self.counts(version.each)?;
        let bounds = Bounds {
            levels: arrays.levels,
            members: arrays.members,
            patterns: arrays.patterns,
            delays: arrays.delays,
            syndromes: arrays.syndromes,
            chunks: sizes.chunks,
            offsets: sizes.offsets,
            missing: counts.missing,
            foreign: counts.foreign,
        };
        let limits = Limits {
            badrows: counts.badrows,
            window: counts.window,
        };
        let tests = MarkTests {
            origins: sizes.origins,
            misfits: counts.misfits,
            least: counts.least,
        };
        Ok(Search {
            end,
            bounds,
            limits,
            tests,
        })
    }

    /// The levels, members, patterns, delays and orders of Q. Without a line of delays parity stays for one row.
    fn arrays(&mut self, third: bool) -> Result<Arrays, PlanFault>
        ensures { Reads (AreArrays third) lines_of_arrays self.old self.new result }
    {
        let levels = self.list(b"levels ")?;
        let members = self.members()?;
        let patterns = self.list(b"patterns ")?;
        match self.after_patterns(third)? {
            AfterPatterns::Delays(delays) => {
                let syndromes = self.list(b"syndromes ")?;
                Ok(Arrays {
                    levels,
                    members,
                    patterns,
                    delays,
                    syndromes,
                })
            }
            AfterPatterns::Syndromes(syndromes) => Ok(Arrays {
                levels,
                members,
                patterns,
                delays: one_delay(),
                syndromes,
            }),
        }
    }

    /// The line after the patterns.
    fn after_patterns(&mut self, third: bool) -> Result<AfterPatterns, PlanFault>
        ensures { Reads (MayComeAfter third) (λ what. line_after what ∷ []) self.old self.new result }
    {
        let line = self.next_line()?;
        after_patterns(line, third).ok_or(self.refusal())
    }

    /// The chunk sizes, the offsets and the origins.
    fn sizes(&mut self, each: bool) -> Result<Sizes, PlanFault>
        ensures { Reads (AreSizes each) lines_of_sizes self.old self.new result }
    {
        let chunks = self.chunks()?;
        let offsets = self.sectors(b"offsets ", sectors_end(each))?;
        let origins = self.sectors(b"origins ", SECTORS_END)?;
        Ok(Sizes {
            chunks,
            offsets,
            origins,
        })
    }

    /// The numbers between the origins and the groups.
    fn counts(&mut self, each: bool) -> Result<Counts, PlanFault>
        ensures { Reads (AreCounts each) lines_of_counts self.old self.new result }
    {
        let missing = self.number(b"missing ", 0, MOST_MISSING as u64)? as u8;
        let foreign = self.number(b"foreign ", 0, most_foreign(each))? as u8;
        let badrows = self.number(b"badrows ", 0, SECTORS_END - 1)?;
        let window = self.number(b"window ", 1, SECTORS_END - 1)?;
        let misfits = self.number(b"misfits ", 0, SECTORS_END - 1)?;
        let least = self.number(b"least ", 0, SECTORS_END - 1)?;
        Ok(Counts {
            missing,
            foreign,
            badrows,
            window,
            misfits,
            least,
        })
    }

    /// The numbers of members.
    fn members(&mut self) -> Result<ArrayVec<u8, MOST_LESS_ONE>, PlanFault>
        ensures { Reads (λ ns. AreMembers ns.items) (λ ns. named (codes "members") (commas (map decimal ns.items)) ∷ []) self.old self.new result }
    {
        let line = self.next_line()?;
        members_after(line, b"members ").ok_or(self.refusal())
    }

    /// The chunk sizes.
    fn chunks(&mut self) -> Result<ArrayVec<u64, MOST_CHUNKS>, PlanFault>
        ensures { Reads (λ ns. AreChunks ns.items) (λ ns. named (codes "chunks") (commas (map decimal ns.items)) ∷ []) self.old self.new result }
    {
        let line = self.next_line()?;
        chunks_after(line, b"chunks ").ok_or(self.refusal())
    }

    /// The list after the word, of places in sectors, each below `end`.
    fn sectors<const CAP: usize>(
        &mut self,
        word: &[u8],
        end: u64,
    ) -> Result<ArrayVec<u64, CAP>, PlanFault>
        requires word { IsTrue (is_line word.now) }
        requires room { 1 ≤ CAP }
        requires some { 1 ≤ end }
        ensures { Reads (λ ns. AreBelow end CAP ns.items) (λ ns. (word.now ++ commas (map decimal ns.items)) ∷ []) self.old self.new result }
    {
        let line = self.next_line()?;
        sectors_after(line, word, end).ok_or(self.refusal())
    }

    /// The list after the word, of values in strictly rising order.
    fn list<T: Field + Listed, const CAP: usize>(
        &mut self,
        word: &[u8],
    ) -> Result<ArrayVec<T, CAP>, PlanFault>
        requires word { IsTrue (is_line word.now) }
        requires some { (x : T) × T.IsSpelled x }
        requires room { 1 ≤ CAP }
        ensures { Reads
            (λ xs. AreRising (map T.place xs.items) × (length xs.items ≤ CAP) × All T.IsSpelled xs.items)
            (λ xs. (word.now ++ commas (map T.name xs.items)) ∷ []) self.old self.new result }
    {
        let line = self.next_line()?;
        list_after(line, word).ok_or(self.refusal())
    }

    /// The number after the word, from `least` to `most`.
    fn number(&mut self, word: &[u8], least: u64, most: u64) -> Result<u64, PlanFault>
        requires word { IsTrue (is_line word.now) }
        requires some { least ≤ most }
        ensures { Reads (λ n. (least ≤ n) × (n ≤ most)) (λ n. (word.now ++ decimal n) ∷ []) self.old self.new result }
    {
        let line = self.next_line()?;
        number_after(line, word, least, most).ok_or(self.refusal())
    }
}

/// The delay of one row alone.
fn one_delay() -> ArrayVec<u64, MOST_DELAYS>
    ensures { result.items ≡ 1 ∷ [] }
{
    let mut delays = ArrayVec::new();
    delays.push(1);
    delays
}
