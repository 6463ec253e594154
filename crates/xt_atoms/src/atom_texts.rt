// The texts of atoms.
ghost use Rattle.std.specs.Prelude.{◌≡◌, IfOk};
ghost use Rattle.std.specs.Fmt.{signed_decimal};
ghost use Rattle.std.specs.Str.{chars};
ghost use Rattle.xt_atoms.specs.AtomTexts.{text_of, boolean_text, lexical_qname};

use crate::atoms::Atom;
use std::alloc::{AllocError, Global};
use xt_names::{Name, Text, TextBuilder};

/// The text of the atom: an integer in decimal, `true` or `false`, and a QName as `prefix:local` or `local`
/// (XPath and XQuery Functions and Operators, 17.1.2).
#[tactic(auto, unfolding(crate::specs::AtomTexts::text_of))]
pub fn to_text(alloc: Global, a: &Atom) -> Result<Text, AllocError>
    ensures { IfOk result (λ text. text ≡ text_of a.now) }
{
    match a {
        Atom::Str(text) | Atom::Untyped(text) => text.copy(),
        Atom::Int(number) => integer_text(alloc, *number),
        Atom::Bool(truth) => Text::make(alloc, boolean_text(*truth)),
        Atom::QName(name) => qname_text(alloc, name.get()),
    }
}

fn integer_text(alloc: Global, number: i64) -> Result<Text, AllocError>
    ensures { IfOk result (λ text. text ≡ signed_decimal number) }
{
    Text::of_string(number.to_string(alloc)?)
}

#[tactic(auto, unfolding(crate::specs::AtomTexts::boolean_text))]
fn boolean_text(truth: bool) -> &'static str
    ensures { chars result.now ≡ boolean_text truth }
{
    if truth { "true" } else { "false" }
}

/// The prefix of the name, where it has one, a colon, and the local name (Functions and Operators, 17.1.2).
#[tactic(auto, unfolding(crate::specs::AtomTexts::lexical_qname))]
pub fn qname_text(alloc: Global, name: &Name) -> Result<Text, AllocError>
    ensures { IfOk result (λ text. text ≡ lexical_qname name.now.prefix name.now.local) }
{
    if name.prefix.is_empty() {
        return name.local.copy();
    }
    let mut text = TextBuilder::new(alloc);
    text.push_text(&name.prefix)?;
    text.push(':')?;
    text.push_text(&name.local)?;
    text.finish()
}
