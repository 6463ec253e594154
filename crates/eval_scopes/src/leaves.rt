// The forms that evaluate no expression.
ghost use Rattle.std.specs.Prelude.{ℕ, ◌≡◌, IfOk};
ghost use Rattle.expr_meaning.specs.Env.{Calls, Keys};
ghost use Rattle.expr_meaning.specs.Values.{variable, context};
ghost use Rattle.std.specs.Prelude.{◌∷◌, []};
ghost use Rattle.expr_meaning.specs.Paths.{root_of, root_place, document_root as root_of_item};
ghost use Rattle.std.specs.Option.{SomeIff};
ghost use Rattle.std.specs.Prelude.{true};
ghost use Rattle.doc_set.specs.Sets.{is_document};
ghost use Rattle.expr_meaning.specs.Calls.{document_value};
ghost use Rattle.expr_meaning.specs.Outcomes.Outcome.{step_outcome};
ghost use Rattle.eval_scopes.specs.Answers.{Answers};
ghost use Rattle.eval_scopes.specs.Scopes.{env_of, program_of, value_at};
ghost use Rattle.expr_meaning.specs.Env.{variable_value};

use crate::environments::{Env, Fixed, Focus};
use crate::eval_values::one;
use crate::faults::EvalFault;
use crate::scopes::look_up;
use expr_meaning::lazy_seq::Seq;
use std::alloc::{AllocError, Global};
use xdm_items::function_arguments::{no_items, optional_text};
use xdm_items::{Item, ItemList};
use xt_names::{Code, DynamicCode, ExprName};
use xt_tree::{Node, Tree};

const NO_VALUE: Code = Code::Dynamic(DynamicCode::XPDY0002);

/// The value of a variable, where it is held (XPath 2.0, 3.1.2): XPDY0002 where it has none.
pub fn variable<'a>(
    fixed: &'a Fixed<'a>,
    env: &'a Env<'a>,
    name: &ExprName,
) -> Result<&'a Seq, Code>
    ensures { (calls : Calls) (keys : Keys) →
        value_at result ≡
        variable_value (program_of fixed.entry.now calls keys) (env_of env.entry.now) name.now }
{
    match look_up(env.locals, name) {
        Some(value) => Ok(value),
        None => match fixed.globals.find(name) {
            Some(value) => Ok(value),
            None => Err(NO_VALUE),
        },
    }
}

/// The list of a variable (XPath 2.0, 3.1.2): XPDY0002 where it has no value.
#[inline(never)]
pub fn variable_list(
    alloc: Global,
    fixed: &Fixed,
    env: &Env,
    name: &ExprName,
) -> Result<ItemList, EvalFault>
    ensures { (calls : Calls) (keys : Keys) (k : ℕ) → Answers result k
        (variable (program_of fixed.now calls keys) name.now (env_of env.now) k) }
{
    match variable(&*fixed, &*env, name) {
        Ok(value) => Ok(value.listed(alloc)?),
        Err(code) => Err(EvalFault::Error(code)),
    }
}

/// The context item (XPath 2.0, 3.1.4): XPDY0002 where there is none.
#[inline(never)]
pub fn context_item(alloc: Global, env: &Env) -> Result<ItemList, EvalFault>
    ensures { (k : ℕ) → Answers result k (context (env_of env.now) k) }
{
    match env.focus {
        Focus::Absent => Err(EvalFault::Error(NO_VALUE)),
        Focus::At { item, .. } => Ok(one(alloc, item.copy()?)?),
    }
}

/// `/`: the root of the context node's tree (XPath 2.0, 3.2). XPDY0002 comes where there is no
/// context item, XPTY0020 where it is an atom, and XPDY0050 where the root is no document.
#[inline(never)]
pub fn document_root(alloc: Global, env: &Env) -> Result<ItemList, EvalFault>
    ensures { (k : ℕ) → Answers result k (root_of (env_of env.now) k) }
{
    match env.focus {
        Focus::Absent => Err(EvalFault::Error(NO_VALUE)),
        Focus::At { item, .. } => root_of_item(alloc, item),
    }
}

fn root_of_item(alloc: Global, item: &Item) -> Result<ItemList, EvalFault>
    ensures { (k : ℕ) → Answers result k (step_outcome (root_of_item item.now) k) }
{
    match item {
        Item::Atom(_) => Err(EvalFault::Error(Code::Dynamic(DynamicCode::XPTY0020))),
        Item::Node(node) => {
            match document_of(alloc, node)? {
                Some(root) => Ok(one(alloc, Item::Node(root))?),
                None => Err(EvalFault::Error(Code::Dynamic(DynamicCode::XPDY0050))),
            }
        }
    }
}

/// The root of the node's tree where it is a document (XPath 2.0, 3.2).
pub fn document_of(alloc: Global, node: &Node) -> Result<Option<Node>, AllocError>
    ensures { IfOk result (λ root. SomeIff root (is_document node.now.tree ≡ true)
        (root_place node.now)) }
{
    if !is_document(node.tree()) {
        return Ok(None);
    }
    Ok(Some(Node::root_of(alloc, node.number(), node.tree().copy()?)?))
}

fn is_document(tree: &Tree) -> bool
    ensures { result ≡ is_document tree.now }
{
    match tree {
        Tree::Doc(_) => true,
        _ => false,
    }
}

/// doc() and document() of an argument: empty of the empty list, the root of the document of that
/// name, and FODC0002 where the set has none (Functions and Operators, 15.5.4). XPTY0004 comes
/// where the argument is no text.
#[tactic(auto, unfolding(expr_meaning::specs::Documents::document_in))]
#[inline(never)]
pub fn document_value(
    alloc: Global,
    fixed: &Fixed,
    argument: &ItemList,
) -> Result<ItemList, EvalFault>
    ensures { (calls : Calls) (keys : Keys) (k : ℕ) → Answers result k
        (step_outcome (document_value (program_of fixed.now calls keys) argument.now) k) }
{
    match optional_text(alloc, argument)? {
        None => Ok(no_items(alloc)),
        Some(name) => match fixed.documents.find(name.as_str())? {
            None => Err(EvalFault::Error(Code::Dynamic(DynamicCode::FODC0002))),
            Some(root) => Ok(one(alloc, Item::Node(root))?),
        },
    }
}
