// Queries and expressions as texts.
ghost use Rattle.std.specs.Prelude.{◌≡◌, [], true, IfOk, OnOk};
ghost use Rattle.expr_raws.specs.Raws.{tokens_of};
ghost use Rattle.query_pages.specs.Laid.{IsTextOf};
ghost use Rattle.printed_laws.specs.QueryRaws.Queries.{prefixes_of, late, can_print};
ghost use Rattle.printed_laws.specs.QueryRaws.Queries.{prolog_tokens, query_tokens};
ghost use Rattle.printed_laws.specs.XquerySyntax.Spelled.{SpellsWithin};
ghost use Rattle.query_printer.specs.Printable.{is_printable, deepest};

use crate::printable_queries::prefixes_in;
use crate::prolog_drafts::{
    push_functions, push_namespaces, push_omit, push_preserved, push_space, push_variables,
    push_version,
};
use expr_drafts::name_prefixes::NamePrefixes;
use expr_drafts::{Draft, Spot};
use expr_pages::{expr_page, settled};
use query_pages::Page;
use std::alloc::{AllocError, Global};
use xt_names::Text;
use xt_syntax::{Expr, Prefixes, Query};

/// The declarations after the setters, before the tokens of the draft.
fn push_late<'a>(
    alloc: Global,
    draft: &mut Draft<'a>,
    prefixes: &'a NamePrefixes,
    query: &'a Query,
) -> Result<(), AllocError>
    requires same { prefixes.now ≡ prefixes_of query.now }
    requires can { can_print query.now ≡ true }
    ensures { OnOk result (draft.new ≡ prolog_tokens (late query.now) draft.old) }
{
    push_functions(alloc, draft, prefixes, query.functions.as_slice())?;
    push_variables(alloc, draft, prefixes, query.variables.as_slice())?;
    push_omit(alloc, draft, prefixes, query.omit)?;
    push_space(alloc, draft, prefixes, query.space.as_slice())?;
    Ok(())
}

/// The whole query.
fn push_query<'a>(
    alloc: Global,
    draft: &mut Draft<'a>,
    prefixes: &'a NamePrefixes,
    query: &'a Query,
) -> Result<(), AllocError>
    requires same { prefixes.now ≡ prefixes_of query.now }
    requires can { can_print query.now ≡ true }
    requires empty { draft.old ≡ [] }
    ensures { OnOk result (draft.new ≡ query_tokens query.now) }
{
    draft.push_expr(prefixes, Spot::on_line(0), &query.body)?;
    push_late(alloc, draft, prefixes, query)?;
    push_preserved(alloc, draft)?;
    push_namespaces(alloc, draft, query.prefixes.as_slice())?;
    push_version(alloc, draft)?;
    Ok(())
}

/// The page of the tokens of the query.
pub(crate) fn page_of<'a>(
    alloc: Global,
    prefixes: &'a NamePrefixes,
    query: &'a Query,
) -> Result<Page, AllocError>
    requires same { prefixes.now ≡ prefixes_of query.now }
    requires can { can_print query.now ≡ true }
    ensures { IfOk result (λ page. page ≡ query_tokens query.now) }
{
    let mut draft = Draft::new(alloc);
    push_query(alloc, &mut draft, prefixes, query)?;
    settled(alloc, &mut draft)
}

/// The text of a printable query: one of the texts of its tokens, with lines for people; it spells
/// just this query.
/// (XQuery 1.0, 2.2.4, 3.7.1, 4 and A)
pub fn print(alloc: Global, query: &Query) -> Result<Text, AllocError>
    requires { is_printable query.now ≡ true }
    ensures tokens { IfOk result (λ text. IsTextOf (query_tokens query.now) text) }
    ensures spelled { IfOk result (λ text. SpellsWithin deepest text query.now) }
{
    let prefixes = prefixes_in(alloc, query)?;
    let page = page_of(alloc, &prefixes, query)?;
    page.text(alloc)
}

/// The text of an expression under the prefixes: one of the texts of its tokens.
/// (XPath 2.0, A; XQuery 1.0, A)
pub fn print_expr(alloc: Global, prefixes: &Prefixes, e: &Expr) -> Result<Text, AllocError>
    ensures { IfOk result (λ text. IsTextOf (tokens_of prefixes.now e.now) text) }
{
    let prefixes = NamePrefixes::new(alloc, prefixes)?;
    let page = expr_page(alloc, &prefixes, Spot::behind_space(0), e)?;
    page.text(alloc)
}
