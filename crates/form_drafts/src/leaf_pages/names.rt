// Names on a draft.
ghost use Rattle.std.specs.Prelude.{◌≡◌, ◌∷◌, OnOk};
ghost use Rattle.expr_keys.specs.declared.keys.Key.TheVariants as key_of;
ghost use Rattle.expr_keys.specs.declared.tokens.Token.TheVariants as token;
ghost use Rattle.expr_raws.specs.PathRaws.Paths.{variable};
ghost use Rattle.expr_raws.specs.ControlRaws.Bindings.{variable_name};

use expr_drafts::Draft;
use expr_drafts::name_prefixes::NamePrefixes;
use expr_drafts::name_tokens::name_token;
use expr_terms::Key;
use query_pages::Gap;
use std::alloc::{AllocError, Global};
use xt_names::ExprName;

/// Puts the name of a variable, without the dollar.
/// (XPath 2.0, 3.1.2)
pub fn push_name(
    alloc: Global,
    draft: &mut Draft<'_>,
    prefixes: &NamePrefixes,
    name: &ExprName,
) -> Result<(), AllocError>
    ensures { OnOk result (draft.new
        ≡ (variable_name prefixes.now name.now).tokens draft.old) }
{
    match name_token(alloc, prefixes, name)? {
        None => Ok(()),
        Some(token) => draft.push(Gap::Space, token),
    }
}

/// Puts `$v`; nothing where the name has no token.
/// (XPath 2.0, 3.1.2)
pub fn push_var(
    alloc: Global,
    draft: &mut Draft<'_>,
    prefixes: &NamePrefixes,
    first: Gap,
    name: &ExprName,
) -> Result<(), AllocError>
    ensures { OnOk result (draft.new ≡ (variable prefixes.now name.now).tokens draft.old) }
{
    match name_token(alloc, prefixes, name)? {
        None => Ok(()),
        Some(token) => {
            draft.push(Gap::Space, token)?;
            draft.push_key(first, Key::Dollar)
        }
    }
}

/// Puts a dollar, and the name of a variable where it has a token.
/// (XPath 2.0, 3.1.2)
pub fn push_variable(
    alloc: Global,
    draft: &mut Draft<'_>,
    prefixes: &NamePrefixes,
    first: Gap,
    name: &ExprName,
) -> Result<(), AllocError>
    ensures { OnOk result (draft.new ≡ token.Key key_of.Dollar
        ∷ (variable_name prefixes.now name.now).tokens draft.old) }
{
    push_name(alloc, draft, prefixes, name)?;
    draft.push_key(first, Key::Dollar)
}
