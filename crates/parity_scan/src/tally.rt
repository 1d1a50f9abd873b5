//! How the test of a parameter set stands.
ghost use Rattle.std.specs.Prelude.{◌≡◌};
ghost use Rattle.parity_scan.specs.Tallies.{is_open as is_open_tally, has_passed as has_passed_tally};

/// How the test of a parameter set stands in a scan.
#[derive(Clone, Copy)]
pub enum Tally {
    /// So many more of its rows may be unsound.
    Left(u64),
    /// It passes, whatever rows it has left: none of them has to be tested.
    Passes,
    /// It fails: more of its rows are unsound than may be.
    Fails,
}

impl Tally {
    /// Whether more rows of the set may decide.
    pub fn is_open(self) -> bool
        ensures { result ≡ is_open_tally self }
    {
        match self {
            Tally::Left(_) => true,
            Tally::Passes | Tally::Fails => false,
        }
    }

    /// Whether the set passes, by the rows that are counted.
    pub fn has_passed(self) -> bool
        ensures { result ≡ has_passed_tally self }
    {
        match self {
            Tally::Left(_) | Tally::Passes => true,
            Tally::Fails => false,
        }
    }
}
