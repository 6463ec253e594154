//! The query of a stylesheet: definitions, and laws of its form.
//!
//! `query_of_sheet` (`Sheets`) is the query: a function for each mode, which takes the first rule that
//! matches (`Rules`, `Ranks`), one for each rule in each of its modes, for each named template
//! (`Templates`) and for each key (`Keys`), the functions of the stylesheet, the helper functions, and
//! its globals (`Globals`). `Tables` and `Found` have what is fixed for the whole stylesheet, `Prefixes`
//! and `Uris` the namespaces that the query declares. `translatable` (`Translatable`, `Stands`) says which
//! stylesheets have such a query.
#![tactic(auto)]

mod laws;

pub use laws::{a_query_is_regular_and_nests_at_most_400_levels, variables_are_the_globals};
