// What an expression can read.
ghost use Rattle.std.specs.Prelude.{◌≡◌, []};
ghost use Rattle.expr_meaning.specs.Env.{no_state as without_state};
ghost use Rattle.eval_scopes.specs.Scopes.{bindings, state_of};

use crate::eval_values::Place;
use crate::globals::Globals;
use crate::scopes::Scope;
use doc_set::DocSet;
use xdm_items::{Item, ItemList};
use xt_atoms::Atom;
use xt_names::{Binding, Text};

/// The focus (XPath 2.0, 2.1.2).
#[derive(Clone, Copy)]
pub enum Focus<'a> {
    /// There is none.
    Absent,
    /// The context item with its position, from 1, and the context size.
    At {
        item: &'a Item,
        position: Place,
        size: Place,
    },
}

/// The current group of a stylesheet, and its key where it has one (XSLT 2.0, 14.2).
#[derive(Clone, Copy)]
pub struct Group<'a> {
    pub key: Option<&'a Atom>,
    pub members: &'a ItemList,
}

/// What a stylesheet adds (XSLT 2.0, 5.4.3): the item with which the whole expression began, the
/// current rule, the mode, the current group and the tunnel parameters.
#[derive(Clone, Copy)]
pub struct State<'a> {
    pub current: Option<&'a Item>,
    pub rule: Option<u32>,
    pub mode: u32,
    pub group: Option<&'a Group<'a>>,
    pub tunnel: &'a Scope<'a>,
}

/// What a query has of it, which is nothing (XQuery 1.0, 2.1.2). The scope is one without variables.
pub fn no_state<'a>(outermost: &'a Scope<'a>) -> State<'a>
    requires { bindings outermost.now ≡ [] }
    ensures { state_of result ≡ without_state }
{
    State {
        current: None,
        rule: None,
        mode: 0,
        group: None,
        tunnel: outermost,
    }
}

/// What an expression can read (XPath 2.0, 2.1.2).
#[derive(Clone, Copy)]
pub struct Env<'a> {
    pub locals: &'a Scope<'a>,
    pub focus: &'a Focus<'a>,
    pub state: &'a State<'a>,
}

/// What is fixed while a program runs: the global variables that are evaluated, the documents that
/// doc() finds, and the namespaces that computed names use.
#[derive(Clone, Copy)]
pub struct Fixed<'a> {
    pub globals: &'a Globals,
    pub documents: &'a DocSet,
    pub namespaces: &'a [Binding],
    /// The namespace of an element's name without a prefix.
    pub element_default: &'a Text,
}
