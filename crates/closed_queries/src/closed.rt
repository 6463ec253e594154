ghost use Rattle.std.specs.Prelude.{◌≡◌, IfOk};
ghost use Rattle.closed_queries.specs.Closed.{is_closed};

use crate::names_kept::{has_different_names, query_keeps_names};
use crate::parts::has_good_parts;
use std::alloc::AllocError;
use xt_syntax::Query;

/// Whether the query is closed (XQuery 1.0, 2.2.4 and 4), which all of the following make it.
///
/// - Each variable that it names is bound where it is named, or is one of its own, wherever that is declared; each
///   function that it calls is one of its own, or of those that every expression may call.
/// - No two of its variables have one name, no two of its functions one name and number of parameters, no two parameters
///   of one function one name, and no `for` one name for its item and its position.
/// - All its expressions and types are regular.
/// - Its texts are of characters of XML, and its names can be written. It declares neither the prefixes xml and xmlns
///   nor their uris.
#[tactic(auto, unfolding(crate::specs::Closed::is_closed))]
pub fn query_closed(query: &Query) -> Result<bool, AllocError>
    ensures { IfOk result (λ closed. closed ≡ is_closed query.now) }
{
    if !has_good_parts(query) {
        return Ok(false);
    }
    if !has_different_names(query)? {
        return Ok(false);
    }
    query_keeps_names(query)
}
