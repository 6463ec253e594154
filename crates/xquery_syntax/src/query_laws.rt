//! What is known of each query that a text spells: it is closed where it breaks no rule, and nests
//! no deeper than its text has characters (XQuery 1.0, 2.2.4 and 4). Laws alone.
//!
//! `specs/Shapes` says which queries have direct elements that end alike, which the grammar leaves
//! to its values.

ghost use Rattle.std.specs.Prelude.{◌≡◌, ◌≤◌, ℕ, List, [], length, true};
ghost use Rattle.closed_queries.specs.Closed.{is_closed};
ghost use Rattle.query_grammar.specs.declared.declared.RawQuery.{RawQuery};
ghost use Rattle.xquery_syntax.specs.QueryLaws.Shapes.{is_shaped_query};
ghost use Rattle.query_resolve.specs.Queries.{rules_broken, query_meant};
ghost use Rattle.query_texts.specs.Texts.{SpellsText, query_nest};

/// A query that a text spells, whose direct elements end with the name that they begin with, is
/// closed where it breaks no static rule: its expressions and types are regular, XML allows its
/// texts and names, no two things are declared alike, and it names nothing but what it declares.
/// (XQuery 1.0, 2.2.4 and 4)
pub fn unbroken_queries_are_closed()
    ensures { (text : List ℕ) (raw : RawQuery) → SpellsText text raw → is_shaped_query raw ≡ true
        → rules_broken raw ≡ [] → is_closed (query_meant raw) ≡ true }
{}

/// A query nests no deeper than its text has characters.
/// (XQuery 1.0, 3 and A)
pub fn deep_queries_are_long()
    ensures { (text : List ℕ) (raw : RawQuery) → SpellsText text raw
        → query_nest raw ≤ length text }
{}
