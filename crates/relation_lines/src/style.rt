//! How lines are written.
ghost use Rattle.std.specs.Prelude.{◌≡◌, ◌≤◌, length};
ghost use Rattle.relation_lines.specs.Text.{mark_text};

/// How lines are written.
#[derive(Clone, Copy)]
pub enum Style {
    /// Words.
    Text,
    /// An object of JSON a line.
    Json,
}

/// What stands between the numbers of a line.
#[derive(Clone, Copy)]
pub enum Mark {
    /// Before the first row of a run.
    RowsOpen,
    /// Before its last row.
    RowsTo,
    /// Before its zero images.
    RowsZero,
    /// Before its ties.
    RowsTied,
    /// After its ties.
    RowsEnd,
    /// Before a list.
    ListOpen,
    /// Between the numbers of a list.
    ListBetween,
    /// In a list that has none.
    ListNone,
    /// After a list.
    ListEnd,
    /// Between ties.
    TieBetween,
    /// Before the dependent image of a tie.
    TieOpen,
    /// Between it and its sum.
    TieOf,
    /// After the sum.
    TieEnd,
    /// Between the terms of a sum.
    TermBetween,
    /// Before the weight of a term.
    TermOpen,
    /// Between it and its image.
    TermOf,
    /// After the image.
    TermEnd,
    /// Before a set of images.
    TogetherOpen,
    /// Before the number of its rows.
    TogetherIn,
    /// After it.
    TogetherEnd,
    /// Before the number of other sets.
    OthersOpen,
    /// After it.
    OthersEnd,
    /// Before the images in no tie.
    AloneOpen,
    /// After them.
    AloneEnd,
    /// Before the number of rows without a tie.
    FreeOpen,
    /// Before the number of all rows.
    FreeOf,
    /// After it.
    FreeEnd,
}

impl Mark {
    /// The text of the mark.
    pub fn text(&self, style: Style) -> &'static str
        ensures text { result.now ≡ mark_text style self.now }
        ensures short { length result.now ≤ 12 }
    {
        match style {
            Style::Text => self.words(),
            Style::Json => self.json(),
        }
    }

    /// The text between words.
    fn words(&self) -> &'static str
        ensures text { result.now ≡ mark_text Style.Text self.now }
        ensures short { length result.now ≤ 12 }
    {
        match self {
            Mark::RowsOpen => "rows ",
            Mark::RowsTo => " ",
            Mark::RowsZero => " zero ",
            Mark::RowsTied => " tied ",
            Mark::RowsEnd | Mark::OthersEnd | Mark::AloneEnd | Mark::FreeEnd => "\n",
            Mark::ListOpen | Mark::ListEnd | Mark::TieOpen => "",
            Mark::TieEnd | Mark::TermOpen | Mark::TermEnd => "",
            Mark::ListBetween => ",",
            Mark::ListNone => "-",
            Mark::TieBetween => " ",
            Mark::TieOf => "=",
            Mark::TermBetween => "+",
            Mark::TermOf => "*",
            Mark::TogetherOpen => "together ",
            Mark::TogetherIn => " in ",
            Mark::TogetherEnd => " rows\n",
            Mark::OthersOpen => "others ",
            Mark::AloneOpen => "alone ",
            Mark::FreeOpen => "free ",
            Mark::FreeOf => " of ",
        }
    }

    /// The text in an object of JSON.
    fn json(&self) -> &'static str
        ensures text { result.now ≡ mark_text Style.Json self.now }
        ensures short { length result.now ≤ 12 }
    {
        match self {
            Mark::RowsOpen => "{\"rows\":[",
            Mark::RowsZero => "],\"zero\":",
            Mark::RowsTied => ",\"tied\":",
            Mark::RowsEnd | Mark::TogetherEnd | Mark::OthersEnd => "}\n",
            Mark::AloneEnd | Mark::FreeEnd => "}\n",
            Mark::ListOpen | Mark::TieOpen | Mark::TermOpen => "[",
            Mark::ListNone => "",
            Mark::ListEnd | Mark::TermEnd => "]",
            Mark::RowsTo | Mark::ListBetween | Mark::TieBetween => ",",
            Mark::TermBetween | Mark::TermOf => ",",
            Mark::TieOf => ",[",
            Mark::TieEnd => "]]",
            Mark::TogetherOpen => "{\"together\":",
            Mark::TogetherIn => ",\"rows\":",
            Mark::OthersOpen => "{\"others\":",
            Mark::AloneOpen => "{\"alone\":",
            Mark::FreeOpen => "{\"free\":",
            Mark::FreeOf => ",\"of\":",
        }
    }
}
