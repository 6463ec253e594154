// What a call names.
ghost use Rattle.std.specs.Prelude.{◌≡◌, IsTrue, nat_lt};
ghost use Rattle.std.specs.List.{list_all};
ghost use Rattle.expr_meaning.specs.Calls.{called, called_in_library, is_local, of_library};
ghost use Rattle.eval_calls.specs.Called.{called_as};

use function_table::{Builtin, find, is_in_fn};
use xt_names::{ExprName, is_ascii_text};

/// What is called by a name with so many arguments.
#[derive(Clone, Copy)]
pub enum Called {
    /// A function of the library.
    Library(Builtin),
    /// doc() or document().
    Document,
    /// current().
    Current,
    /// current-group().
    CurrentGroup,
    /// current-grouping-key().
    CurrentKey,
    /// key().
    Key,
    /// A function that the program declares.
    Declared,
}

fn is_local(name: &ExprName, arity: usize, local: &str, wanted: usize) -> bool
    requires { IsTrue (list_all (λ b. nat_lt b 128) local.now) }
    ensures { result ≡ is_local name.now arity local.now wanted }
{
    is_ascii_text(name.local.as_str(), local) && arity == wanted
}

fn of_library(name: Option<Builtin>) -> Called
    ensures { called_as result ≡ of_library name }
{
    match name {
        None => Called::Declared,
        Some(f) => Called::Library(f),
    }
}

fn called_in_library(name: &ExprName, arity: usize) -> Called
    ensures { called_as result ≡ called_in_library name.now arity }
{
    if is_local(name, arity, "doc", 1) || is_local(name, arity, "document", 1) {
        Called::Document
    } else if is_local(name, arity, "current", 0) {
        Called::Current
    } else if is_local(name, arity, "current-group", 0) {
        Called::CurrentGroup
    } else if is_local(name, arity, "current-grouping-key", 0) {
        Called::CurrentKey
    } else if is_local(name, arity, "key", 2) {
        Called::Key
    } else {
        of_library(find(name, arity))
    }
}

/// What is called by the name with so many arguments (XPath 2.0, 3.1.5).
#[tactic(auto, unfolding(expr_meaning::specs::Calls::called))]
#[inline(never)]
pub fn find_called(name: &ExprName, arity: usize) -> Called
    ensures { called_as result ≡ called name.now arity }
{
    if is_in_fn(name) {
        called_in_library(name, arity)
    } else {
        Called::Declared
    }
}
