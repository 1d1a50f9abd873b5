//! Laws of what is torn.
ghost use Rattle.near_tables.specs.Laws.{PrefixesAreTornLess, TablesTellWhatIsTorn};

/// The whole table of a head tells how many sectors are torn where the slots begin so.
pub fn tables_tell_what_is_torn()
    ensures { TablesTellWhatIsTorn }
{}

/// No more sectors are torn in the beginning of a slot list than in the list: where it passes, each beginning is hopeful.
pub fn prefixes_are_torn_less()
    ensures { PrefixesAreTornLess }
{}
