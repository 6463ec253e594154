// Names of keys.
ghost use Rattle.std.specs.Prelude.{◌≡◌, [], IfOk, List as Items};
ghost use Rattle.xt_names.specs.declared.codes.Code.{Code};
ghost use Rattle.xt_names.specs.declared.names.ExprName.{ExprName as AnyName};
ghost use Rattle.expr_names.specs.Answers.{Answers};
ghost use Rattle.sheet_expressions.specs.Keys.{braced, braced_unless, written_key, key_text};

use bound_prefixes::BoundPrefixes;
use expr_names::{ResolveFault, Written, expr_name, no_text};
use sheet_values::written_name;
use std::alloc::{AllocError, Global};
use xt_names::{ExprName, Text, TextBuilder};

/// The name of a key as one text: its local part, with its uri in braces before it where it has one
/// (XSLT 2.0, 16.3).
#[tactic(auto, unfolding(crate::specs::Keys::braced))]
pub fn braced(alloc: Global, name: &ExprName) -> Result<Text, AllocError>
    ensures { IfOk result (λ text. text ≡ braced name.now) }
{
    if name.uri.is_empty() {
        return name.local.copy();
    }
    let mut text = TextBuilder::new(alloc);
    text.push('{')?;
    text.push_text(&name.uri)?;
    text.push('}')?;
    text.push_text(&name.local)?;
    text.finish()
}

#[tactic(auto, unfolding(crate::specs::Keys::braced_unless))]
fn braced_unless(alloc: Global, found: Result<ExprName, ResolveFault>) -> Result<Text, AllocError>
    ensures { IfOk result (λ text. (faults : Items Code) (name : AnyName)
        → Answers found faults name → text ≡ braced_unless faults name) }
{
    match found {
        Ok(name) => braced(alloc, &name),
        Err(ResolveFault::Static(_)) => no_text(alloc),
        Err(ResolveFault::Memory(e)) => Err(e),
    }
}

#[tactic(auto, unfolding(crate::specs::Keys::written_key))]
fn written_key(
    alloc: Global,
    bound: &BoundPrefixes,
    written: &Option<Written>,
) -> Result<Text, AllocError>
    ensures { IfOk result (λ text. text ≡ written_key bound.now written.now) }
{
    match written {
        None => no_text(alloc),
        Some(written) => {
            let none = no_text(alloc)?;
            let found = expr_name(alloc, bound, &none, written);
            braced_unless(alloc, found)
        }
    }
}

/// The name of a key that the literal writes, as one text: the local part, and before it the uri in
/// braces where it has one (XSLT 2.0, 16.3). A name without a prefix has none. A literal that is no
/// QName, or whose prefix is not declared, gives the text of no characters, which names no key.
pub fn key_text(alloc: Global, bound: &BoundPrefixes, literal: &Text) -> Result<Text, AllocError>
    ensures { IfOk result (λ text. text ≡ key_text bound.now literal.now) }
{
    let written = written_name(alloc, literal.as_str())?;
    written_key(alloc, bound, &written)
}
