// The whole test.
ghost use Rattle.std.specs.Prelude.{◌≡◌, IfOk};
ghost use Rattle.std.specs.List.{list_all};
ghost use Rattle.sheet_closure.specs.Declared.{has_uri};
ghost use Rattle.sheet_closure.specs.Closed.{is_space_test, is_closed};

use crate::declared::{has_different_names, has_uri, keeps_names};
use crate::numbers::{has_numbers, has_order};
use crate::standing_parts::parts_stand;
use closed_sheets::has_good_parts;
use std::alloc::AllocError;
use xt_names::is_ascii_text;
use xt_sheets::{Sheet, SheetFunction, SpaceRule};
use xt_types::NameTest;

fn have_uris(all: &[SheetFunction]) -> bool
    ensures { result ≡ list_all has_uri all.now }
{
    all.iter().all(|function| has_uri(function))
}

#[tactic(auto, unfolding(crate::specs::Closed::is_space_test))]
fn is_space_test(test: &NameTest) -> bool
    ensures { result ≡ is_space_test test.now }
{
    match test {
        NameTest::Uri(uri) => {
            !uri.is_empty() && !is_ascii_text(uri.as_str(), "http://www.w3.org/2000/xmlns/")
        }
        NameTest::Any | NameTest::Local(_) | NameTest::Exact(_) => true,
    }
}

fn are_space_rules(all: &[SpaceRule]) -> bool
    ensures { result ≡ list_all (λ r. is_space_test r.test) all.now }
{
    for rule in all {
        if !is_space_test(&rule.test) {
            return false;
        }
    }
    true
}

/// Whether the stylesheet is closed, as every one is that is loaded (XSLT 2.0, 2 and 3). All of
/// the following make it so.
///
/// - Its expressions are regular ones of XPath, its types are regular, and XML allows its texts
///   and names (`closed_sheets::has_good_parts`).
/// - Its expressions, patterns, variables and parameters may stand where they do, and it nests at
///   most 40 levels (`crate::standing_parts::parts_stand`).
/// - No two of its global variables and parameters have one name, no two of its functions one name
///   and number of parameters, and each function name has a uri.
/// - Its places of templates, its levels and its numbers of modes are in range, and the default
///   mode is there.
/// - No test in its rules of white space is of a namespace that has no uri or is that of xmlns.
/// - Each variable, function, named template, key and mode that it uses is declared in it or bound
///   where it is used, and no grouping key and no `use` of a key calls a function that it
///   declares.
/// - Each global variable or parameter comes after those on which it depends.
#[tactic(auto, unfolding(crate::specs::Closed::is_closed))]
pub fn sheet_closed(sheet: &Sheet) -> Result<bool, AllocError>
    ensures { IfOk result (λ closed. closed ≡ is_closed sheet.now) }
{
    Ok(
        has_good_parts(sheet)
            && parts_stand(sheet)?
            && has_different_names(sheet)?
            && have_uris(sheet.functions.as_slice())
            && has_numbers(sheet)
            && are_space_rules(sheet.space.as_slice())
            && keeps_names(sheet)?
            && has_order(sheet)?,
    )
}
