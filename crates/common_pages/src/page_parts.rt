//! Pages and their parts.
ghost use Rattle.std.specs.Prelude.{◌≡◌};
ghost use Rattle.common_pages.specs.Pages.{page_fault};

use head_walk::{Lines, WalkFault};
use outside::ListOf;
use thiserror::Error;

/// A page: its lines, the rank from which the next page goes on, and the number of all ranks.
#[derive(Drop)]
pub struct ListPage {
    /// The sets that pass, by rank.
    pub lines: Lines,
    /// The rank from which the next page goes on.
    pub next: u64,
    /// How many parameter sets the plan has.
    pub total: u64,
}

/// Pages in their order.
pub type PageList = ListOf<ListPage>;

/// The first rank asked for, which is past the total.
#[derive(Clone, Copy, Debug)]
pub struct CursorFault {
    /// The first rank asked for.
    pub from: u64,
    /// How many parameter sets the plan has.
    pub total: u64,
}

/// Why there is no page.
#[derive(Clone, Copy, Debug, Error)]
pub enum PageFault {
    /// There are 2 to the power 64 parameter sets or more.
    #[error("there are too many parameter sets")]
    Many,
    /// The first rank asked for is past the total.
    #[error("the first rank is past the total")]
    Cursor(CursorFault),
    /// The images failed.
    #[error("the images could not be read")]
    ReadFault,
    /// Memory ran out.
    #[error("out of memory")]
    Memory,
}

impl From<WalkFault> for PageFault {
    ghost from_gives = { λ fault page. page ≡ page_fault fault };

    fn from(fault: WalkFault) -> PageFault {
        match fault {
            WalkFault::ReadFault => PageFault::ReadFault,
            WalkFault::Memory => PageFault::Memory,
        }
    }
}
