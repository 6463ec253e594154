//! Queries that can be turned into stylesheets, and the stylesheet of such a query: definitions and laws
//! alone, nothing runs.
//!
//! A query of this profile (`Rules`, and for its names `Spelled`) makes one document of constructors that
//! XSLT has as instructions. Each form becomes an instruction (`Forms`), each function a stylesheet
//! function, and each external variable a required parameter (`Sheets`). The stylesheet makes the tree
//! that the query makes, or fails where the query fails.
//!
//! Example: `for $i in /l/i order by $i/@k return element e { string($i/@k) }` becomes xsl:for-each with
//! an xsl:sort, in which a variable holds the item.
#![tactic(auto)]

ghost use Rattle.std.specs.Prelude.{◌≤◌, ℕ, List};
ghost use Rattle.xt_names.specs.declared.names.Binding.{Binding as Namespace};
ghost use Rattle.xt_tree.specs.Forest.{Forest};
ghost use Rattle.xt_syntax.specs.declared.exprs.Expr.{Expr};
ghost use Rattle.xt_syntax.specs.declared.queries.Query.{Query};
ghost use Rattle.doc_set.specs.Sets.{DocumentSet};
ghost use Rattle.expr_meaning.specs.Queries.{Given};
ghost use Rattle.closed_sheets.specs.SheetForms.InstrNest.{body_nest_of};
ghost use Rattle.way_back.specs.Forms.{back_at};
ghost use Rattle.way_back.specs.Rules.{count_at};
ghost use Rattle.way_back.specs.Sheets.{IsBack, MakesTheSame};

/// On every sound document, with every number of calls, the stylesheet of a query, which has one more
/// call for its rule, makes the tree that the query with counted loops makes, fails where that fails,
/// and lacks a call where that lacks one. This is so where the query is of the profile, the content of
/// each of its elements gives attributes of different names, and its names are spelled in the scope.
pub fn what_a_query_makes_its_stylesheet_makes()
    ensures { (levels : ℕ) (scope : List Namespace) (q : Query) (content : Expr) (kids : Forest)
        (documents : DocumentSet) (given : List Given) →
        IsBack levels scope q content kids documents given →
        MakesTheSame levels scope q content kids documents given }
{}

/// The instructions of a form nest at most as deep as the form counts: a variable adds a level to what
/// follows it, and so does each instruction to what is within it.
pub fn instructions_nest_at_most_as_counted()
    ensures { (scope : List Namespace) (levels : ℕ) (e : Expr) →
        body_nest_of (back_at scope levels e) ≤ count_at levels e }
{}
