// Keys.
ghost use Rattle.std.specs.Prelude.{◌≡◌, map, IfOk, codes};
ghost use Rattle.expr_names.specs.Answers.{Answers};
ghost use Rattle.sheet_table.specs.Attributes.{attribute};
ghost use Rattle.sheet_bodies.specs.SheetHeads.Attributes.{needed_faults, needed_value};
ghost use Rattle.sheet_parts.specs.Keys.{key_of, keys_of, use_faults};
ghost use Rattle.sheet_parts.specs.Keys.{element_faults, element_value};

use expr_names::ResolveFault;
use sheet_bodies::sheet_heads::{needed_name, refuse_if};
use sheet_modules::{KeyPart, Part};
use sheet_table::sheet_nodes::{Node, check_none};
use sheet_table::{XslElement, attribute, check_attributes};
use sheet_values::sheet_fault;
use sheet_values::sheet_texts::{Reader, StaticContext};
use std::alloc::{AllocError, Global};
use std::collections::VecDeque;
use xt_names::{ExprName, List, Shared, SheetStaticCode, Text};
use xt_tree::Attribute;

fn key_use<R: Reader>(
    alloc: Global,
    reader: &R,
    place: &StaticContext,
    text: &Text,
) -> Result<Shared<R::Expr>, ResolveFault>
    ensures { Answers result (use_faults (R.reads reader.now) place.now text.now)
        ((R.reads reader.now).expr_value place.now text.now) }
{
    let key = reader.expr(alloc, place, text)?;
    refuse_if(SheetStaticCode::XTUN0001, !reader.is_key_use(key.get()))?;
    Ok(key)
}

fn needed_use<R: Reader>(
    alloc: Global,
    reader: &R,
    place: &StaticContext,
    attributes: &[Attribute],
) -> Result<Shared<R::Expr>, ResolveFault>
    ensures { Answers result
        (needed_faults (use_faults (R.reads reader.now) place.now)
        (attribute attributes.now (codes "use")))
        (needed_value ((R.reads reader.now).expr_value place.now)
        (attribute attributes.now (codes "use"))) }
{
    match attribute(attributes, "use") {
        None => Err(sheet_fault(SheetStaticCode::XTSE0010)),
        Some(text) => key_use(alloc, reader, place, text),
    }
}

fn needed_patterns<R: Reader>(
    alloc: Global,
    reader: &R,
    place: &StaticContext,
    attributes: &[Attribute],
) -> Result<List<R::Pattern>, ResolveFault>
    ensures { Answers result
        (needed_faults ((R.reads reader.now).patterns_faults place.now)
        (attribute attributes.now (codes "match")))
        (needed_value ((R.reads reader.now).patterns_value place.now)
        (attribute attributes.now (codes "match"))) }
{
    match attribute(attributes, "match") {
        None => Err(sheet_fault(SheetStaticCode::XTSE0010)),
        Some(text) => reader.patterns(alloc, place, text),
    }
}

fn keys_of<E: Drop, P: Drop>(
    alloc: Global,
    name: &ExprName,
    key: &Shared<E>,
    patterns: List<P>,
) -> Result<List<KeyPart<E, P>>, AllocError>
    ensures { IfOk result (λ keys. keys ≡ keys_of name.now key.now patterns) }
{
    let mut made = List::new(alloc);
    let mut left = VecDeque::from(patterns.into_vec());
    while let Some(pattern) = left.pop_front() {
        let name = name.copy()?;
        let key = key.copy()?;
        made.push(KeyPart { name, pattern, key })?;
    }
    Ok(made)
}

/// The key that the element declares, once for each alternative of its pattern (XSLT 2.0, 16.3.1).
/// XTUN0001 comes of a `use` that names or binds a variable, or calls key().
pub(crate) fn key<R: Reader>(
    alloc: Global,
    reader: &R,
    place: &StaticContext,
    attributes: &[Attribute],
    kids: &[Node],
) -> Result<Part<R::Expr, R::Pattern>, ResolveFault>
    ensures { Answers result
        (element_faults (R.reads reader.now) place.now attributes.now kids.now)
        (element_value (R.reads reader.now) place.now attributes.now) }
{
    check_attributes(XslElement::Key, attributes)?;
    check_none(kids)?;
    let name = needed_name(alloc, place, attributes)?;
    let key = needed_use(alloc, reader, place, attributes)?;
    let patterns = needed_patterns(alloc, reader, place, attributes)?;
    let keys = keys_of(alloc, &name, &key, patterns)?;
    Ok(Part::Key(keys))
}
