// What a stylesheet declares.
ghost use Rattle.std.specs.Prelude.{◌≡◌, IfOk};
ghost use Rattle.name_rules.specs.Scopes.{with_name, has_name};
ghost use Rattle.sheet_expressions.specs.Keys.{braced};
ghost use Rattle.sheet_expressions.specs.SheetNames.Names.{as_name};

use crate::braced;
use expr_names::no_text;
use name_rules::{Functions, VariableScope};
use std::alloc::{AllocError, Global};
use xt_names::{ExprName, Text};

/// The names that a stylesheet declares.
#[derive(Drop)]
pub struct Names {
    /// Its global variables and parameters.
    pub variables: VariableScope,
    /// Its functions, with their numbers of parameters.
    pub functions: Functions,
    /// The names of its keys, each as one text that stands as a local part; `with_key` adds one.
    pub keys: VariableScope,
    /// How many of the templates that are called it declares: those with the numbers below.
    pub templates: u32,
}

/// A text as a name without uri.
fn as_name(alloc: Global, text: &Text) -> Result<ExprName, AllocError>
    ensures { IfOk result (λ name. name ≡ as_name text.now) }
{
    Ok(ExprName {
        uri: no_text(alloc)?,
        local: text.copy()?,
    })
}

/// The keys with one of this name too (XSLT 2.0, 16.3.1).
pub fn with_key(
    alloc: Global,
    keys: VariableScope,
    name: &ExprName,
) -> Result<VariableScope, AllocError>
    ensures { IfOk result (λ all. all ≡ with_name keys (as_name (braced name.now))) }
{
    let text = braced(alloc, name)?;
    keys.with(as_name(alloc, &text)?)
}

/// Whether a key with this name, as one text, is declared.
pub(crate) fn has_key(alloc: Global, keys: &VariableScope, text: &Text) -> Result<bool, AllocError>
    ensures { IfOk result (λ has. has ≡ has_name keys.now (as_name text.now)) }
{
    let name = as_name(alloc, text)?;
    Ok(keys.has(&name))
}
