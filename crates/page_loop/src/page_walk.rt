//! What pages are made with.
ghost use Rattle.std.specs.Prelude.{◌≡◌, ◌<◌, ◌≤◌, ℕ, [], List, Option, Bool, true, false, IfErr, IfOk};
ghost use Rattle.outside.specs.Seen.{Seen};
ghost use Rattle.page_loop.specs.Parts.{Ends, Fits, Gains, Same, Whole};

use outside::Images;

/// How far a part brought a page.
#[derive(Clone, Copy)]
pub enum Part {
    /// The page is not full, and has come to this rank.
    UpTo(u64),
    /// The page is full, and the next one begins at this rank.
    Full(u64),
}

/// A search that goes through its ranks part after part, and gathers those that pass into a page in the making.
pub trait PageWalk {
    /// A page in the making.
    type Page: Drop;

    /// Why a part was not gathered.
    type Fault: Drop;

    /// How many ranks there are.
    ghost total_of: { Self → ℕ };

    /// The most lines of a page.
    ghost size_of: { Self → ℕ };

    /// What passes at a rank, over images that mean this; None where it is not known.
    ghost passes: { Self → Seen → Option (ℕ → Bool) };

    /// Pages can be made over such images.
    ghost can_page: { Self → Seen → Type 0 };

    /// The ranks of the lines of a page.
    ghost ranks_of: { Self → Self.Page → List ℕ };

    /// The rank before which each rank that passes is among the lines of a page.
    ghost tested: { Self → Self.Page → ℕ };

    /// Each line of a page is what stands at its rank.
    ghost holds: { Self → Self.Page → Type 0 };

    /// A page in the making has come to a rank: of the ranks before it each that may pass is among the lines or waits.
    ghost stands: { Self → Seen → Self.Page → ℕ → Type 0 };

    /// What was read from one rank to another, at the end of a page or before.
    ghost reads: { Self → Seen → ℕ → Self → Seen → ℕ → Bool → Type 0 };

    /// Why the ranks from one up to a stop were not gathered, and what was read.
    ghost fails: { Self → Seen → ℕ → Self → Seen → ℕ → Self.Fault → Type 0 };

    /// The most parts that are left.
    ghost parts_left: { Self → ℕ };

    /// How many ranks there are.
    fn total(&self) -> u64
        ensures { result ≡ total_of self.now };

    /// Goes to a rank, and begins a page there.
    fn begin<I: Images>(&mut self, images: &I, from: u64) -> Self::Page
        requires can { can_page self.old (I.seen images.now) }
        requires within { from ≤ total_of self.old }
        ensures none { ranks_of self.new result ≡ [] }
        ensures tested { tested self.new result ≡ from }
        ensures holds { holds self.new result }
        ensures stands { stands self.new (I.seen images.now) result from }
        ensures reads { reads self.old (I.seen images.now) from self.new (I.seen images.now) from false }
        ensures same { Same (total_of self.old) (size_of self.old) (passes self.old (I.seen images.now)) (total_of self.new) (size_of self.new) (passes self.new (I.seen images.now)) };

    /// Gathers the part at a rank, or what is before `stop` of it.
    fn gather_part<I: Images>(
        &mut self,
        images: &mut I,
        at: u64,
        stop: u64,
        page: &mut Self::Page,
    ) -> Result<Part, Self::Fault>
        requires range { at < stop }
        requires within { stop ≤ total_of self.old }
        requires stands { stands self.old (I.seen images.old) page.old at }
        requires holds { holds self.old page.old }
        ensures gains { IfOk result (Gains (passes self.old (I.seen images.old)) (size_of self.old) (tested self.old page.old) (tested self.new page.new) (ranks_of self.old page.old) (ranks_of self.new page.new) at stop) }
        ensures stands { IfOk result (Fits (stands self.new (I.seen images.new) page.new)) }
        ensures reads { IfOk result (Ends (tested self.new page.new) (reads self.old (I.seen images.old) (tested self.old page.old) self.new (I.seen images.new))) }
        ensures holds { IfOk result (λ part. holds self.new page.new) }
        ensures can { IfOk result (λ part. can_page self.new (I.seen images.new)) }
        ensures same { Same (total_of self.old) (size_of self.old) (passes self.old (I.seen images.old)) (total_of self.new) (size_of self.new) (passes self.new (I.seen images.new)) }
        ensures fewer { parts_left self.new < parts_left self.old }
        ensures fails { IfErr result (fails self.old (I.seen images.old) (tested self.old page.old) self.new (I.seen images.new) stop) };

    /// Makes a page whole that has come to the end of its range, and gives the rank at which the next one begins.
    fn finish<I: Images>(
        &mut self,
        images: &mut I,
        stop: u64,
        page: &mut Self::Page,
    ) -> Result<u64, Self::Fault>
        requires stands { stands self.old (I.seen images.old) page.old stop }
        requires holds { holds self.old page.old }
        ensures whole { IfOk result (Whole (passes self.old (I.seen images.old)) (size_of self.old) (tested self.old page.old) (ranks_of self.old page.old) (ranks_of self.new page.new) stop) }
        ensures reads { IfOk result (λ next. reads self.old (I.seen images.old) (tested self.old page.old) self.new (I.seen images.new) next true) }
        ensures holds { IfOk result (λ next. holds self.new page.new) }
        ensures can { IfOk result (λ next. can_page self.new (I.seen images.new)) }
        ensures fails { IfErr result (fails self.old (I.seen images.old) (tested self.old page.old) self.new (I.seen images.new) stop) };

    /// What stands at a rank was tested up to there at most.
    ghost tested_before: { (w : Self) (s : Seen) (page : Self.Page) (at : ℕ) → stands w s page at → tested w page ≤ at };

    /// Nothing was read.
    ghost reads_none: { (w : Self) (s : Seen) (a : ℕ) → reads w s a w s a false };

    /// What was read for ranges one after the other.
    ghost reads_join: { (u v w : Self) (r s t : Seen) (a b c : ℕ) (whole : Bool) → a ≤ b → b ≤ c → reads u r a v s b false → reads v s b w t c whole → reads u r a w t c whole };

    /// What was read up to a range that was not gathered.
    ghost fails_on: { (u v w : Self) (r s t : Seen) (a b stop : ℕ) (fault : Self.Fault) → a ≤ b → b ≤ stop → reads u r a v s b false → fails v s b w t stop fault → fails u r a w t stop fault };
}
