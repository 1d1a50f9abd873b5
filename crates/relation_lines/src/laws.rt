//! Laws of reports. A function does nothing: its clause is the law.
ghost use Rattle.relation_lines.specs.Laws.{PartsShareNoImage, ReportsAreOfAllRows, TablesAreComputed, TiesLieInParts};

/// What a report says row by row, and then at its end, is the report of all rows.
pub fn reports_are_of_all_rows()
    ensures { ReportsAreOfAllRows }
{}

/// The table of a row is the one that is computed.
pub fn tables_are_computed()
    ensures { TablesAreComputed }
{}

/// The parts of a row are apart from each other, and each tie of the row lies in one of them.
pub fn ties_connect_images_to_parts()
    ensures apart { PartsShareNoImage }
    ensures ties { TiesLieInParts }
{}
