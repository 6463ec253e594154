// Runs of queries.
ghost use Rattle.std.specs.Prelude.{◌+◌, [], length, None};
ghost use Rattle.xdm_items.specs.declared.items.Item.TheVariants.{Node as a_node};
ghost use Rattle.expr_meaning.specs.Queries.{query_outcome};
ghost use Rattle.xquery_eval.specs.Runs.{IsResult, given_of};

use crate::calls::QueryRun;
use crate::functions::FunctionTable;
use crate::globals::{eval_at_top, global_variables};
use crate::params::Param;
use doc_set::DocSet;
use eval_scopes::EvalFault;
use std::alloc::{AllocError, Global};
use xdm_items::{Item, ItemList};
use xt_names::List;
use xt_syntax::Query;
use xt_tree::{Node, Tree};

/// The items of a query at a document, whose tree has the number 0, where doc() finds the documents
/// of the set and at most `depth` calls of its functions are open at once (XQuery 1.0, 2.2.3).
/// `Error` comes with the code of the first error, and `Deep` where one more call would have to be
/// open.
pub fn run_query_in(
    alloc: Global,
    query: &Query,
    document: &Tree,
    set: &DocSet,
    params: &List<Param>,
    depth: u32,
) -> Result<ItemList, EvalFault>
    ensures { IsResult result (query_outcome
        (record { query = query.now; documents = set.now; given = given_of params.now })
        (a_node (record { number = 0; tree = document.now; path = []; attribute = None })) depth
        (length set.now + 1)) }
{
    let functions = FunctionTable::of(alloc, query.functions.as_slice())?;
    let run = QueryRun {
        query: &*query,
        functions: &functions,
        documents: &*set,
        given: params.as_slice(),
    };
    let root = Item::Node(Node::root_of(alloc, 0, document.copy()?)?);
    let mut next = match set.len().checked_add(1) {
        Some(next) => next,
        None => return Err(EvalFault::Memory(AllocError)),
    };
    let globals = global_variables(alloc, &run, depth, &root, &mut next)?;
    eval_at_top(alloc, &run, &globals, depth, &root, &mut next, &query.body)
}

/// The same with no documents for doc() (XQuery 1.0, 2.2.3).
pub fn run_query(
    alloc: Global,
    query: &Query,
    document: &Tree,
    params: &List<Param>,
    depth: u32,
) -> Result<ItemList, EvalFault>
    ensures { IsResult result (query_outcome
        (record { query = query.now; documents = []; given = given_of params.now })
        (a_node (record { number = 0; tree = document.now; path = []; attribute = None })) depth
        1) }
{
    let none = DocSet::new(alloc);
    run_query_in(alloc, query, document, &none, params, depth)
}
