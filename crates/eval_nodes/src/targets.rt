// Targets of processing instructions.
ghost use Rattle.std.specs.Prelude.{◌≡◌, codes};
ghost use Rattle.std.specs.Str.{bytes_eq, chars, str_to_ascii_lowercase};
ghost use Rattle.xt_atoms.specs.Casts.{Answers};
ghost use Rattle.expr_meaning.specs.Names.{target_of_text, target_of_atom, target_of_items};

use expr_meaning::operator_values::atom_of;
use std::alloc::Global;
use xdm_items::ItemList;
use xt_atoms::{Atom, ValueFault, to_text};
use xt_names::{Code, QueryDynamicCode, Text, is_ncname};

const NO_TARGET: ValueFault = ValueFault::Error(Code::QueryDynamic(QueryDynamicCode::XQDY0041));

fn is_xml(text: &str) -> bool
    ensures { result ≡ bytes_eq (str_to_ascii_lowercase (chars text.now)) (codes "xml") }
{
    text.eq_ignore_ascii_case("xml")
}

/// The text as a target: XQDY0041 where it is no NCName, XQDY0064 where it is `xml` in any case
/// (XQuery 1.0, 3.7.3.5).
#[inline(never)]
pub fn fixed_target(text: Text) -> Result<Text, ValueFault>
    ensures { Answers (target_of_text text) result }
{
    if !is_ncname(text.as_str()) {
        drop(text);
        return Err(NO_TARGET);
    }
    if is_xml(text.as_str()) {
        drop(text);
        return Err(ValueFault::Error(Code::QueryDynamic(QueryDynamicCode::XQDY0064)));
    }
    Ok(text)
}

#[tactic(auto, unfolding(xt_atoms::specs::AtomTexts::text_of))]
fn target_of_atom(alloc: Global, atom: &Atom) -> Result<Text, ValueFault>
    ensures { Answers (target_of_atom atom.now) result }
{
    match atom {
        Atom::QName(_) | Atom::Str(_) | Atom::Untyped(_) => fixed_target(to_text(alloc, atom)?),
        Atom::Int(_) | Atom::Bool(_) => Err(NO_TARGET),
    }
}

/// The target that one atom gives: the text of a QName, a string or an untyped value (XQuery 1.0,
/// 3.7.3.5). All else is XQDY0041.
#[inline(never)]
pub fn computed_target(alloc: Global, items: &ItemList) -> Result<Text, ValueFault>
    ensures { Answers (target_of_items items.now) result }
{
    match items.as_slice() {
        [only] => {
            let atom = atom_of(alloc, only)?;
            let target = target_of_atom(alloc, &atom);
            drop(atom);
            target
        }
        _ => Err(NO_TARGET),
    }
}
