// What small sequence constructors and stylesheets become.
ghost use Rattle.translation_rows.specs.Rows.{Rows};
ghost use Rattle.translation_rows.specs.Sheets.{SheetRows};

/// Each row follows from the definitions by computing.
pub fn each_row_is_what_the_definitions_give()
    ensures { Rows }
{}

/// The functions and the body of each query follow from the definitions by computing.
pub fn each_stylesheet_has_the_query_that_the_definitions_give()
    ensures { SheetRows }
{}
