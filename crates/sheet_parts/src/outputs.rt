// Declarations without names: links, white space and output.
ghost use Rattle.std.specs.Prelude.{◌≡◌, map, IfOk, codes};
ghost use Rattle.expr_names.specs.Answers.{Answers};
ghost use Rattle.sheet_table.specs.Attributes.{attribute};
ghost use Rattle.sheet_bodies.specs.SheetHeads.Attributes.{needed_faults, needed_value};
ghost use Rattle.sheet_values.specs.Elements.{name_tests_faults, name_tests_value};
ghost use Rattle.sheet_modules.specs.declared.modules.Part.TheVariants.{Linked};
ghost use Rattle.sheet_table.specs.declared.elements.XslElement.TheVariants.{Output};
ghost use Rattle.sheet_parts.specs.Outputs.{empty_faults, space_rule, space_rules, omits};
ghost use Rattle.sheet_parts.specs.Outputs.{space_faults, space_value, output_value};

use expr_names::ResolveFault;
use sheet_modules::Part;
use sheet_table::sheet_nodes::{Node, check_none};
use sheet_table::{XslElement, attribute, check_attributes};
use sheet_values::sheet_texts::StaticContext;
use sheet_values::{name_tests, sheet_fault};
use std::alloc::{AllocError, Global};
use std::collections::VecDeque;
use xt_names::{List, SheetStaticCode, is_ascii_text};
use xt_tree::Attribute;
use xt_types::{NameTest, SpaceRule};

/// Refuses attributes that the table forbids, and content.
fn check_empty(
    element: XslElement,
    attributes: &[Attribute],
    kids: &[Node],
) -> Result<(), ResolveFault>
    ensures { Answers result (empty_faults element attributes.now kids.now) tt }
{
    check_attributes(element, attributes)?;
    check_none(kids)
}

/// The link to another module (XSLT 2.0, 3.10).
pub(crate) fn link<E, P>(
    element: XslElement,
    attributes: &[Attribute],
    kids: &[Node],
) -> Result<Part<E, P>, ResolveFault>
    ensures { Answers result (empty_faults element attributes.now kids.now) Linked }
{
    check_empty(element, attributes, kids)?;
    Ok(Part::Linked)
}

fn needed_tests(
    alloc: Global,
    place: &StaticContext,
    attributes: &[Attribute],
) -> Result<List<NameTest>, ResolveFault>
    ensures { Answers result
        (needed_faults (name_tests_faults place.now.bound)
        (attribute attributes.now (codes "elements")))
        (needed_value (name_tests_value place.now.bound)
        (attribute attributes.now (codes "elements"))) }
{
    match attribute(attributes, "elements") {
        None => Err(sheet_fault(SheetStaticCode::XTSE0010)),
        Some(text) => name_tests(alloc, &place.bound, text),
    }
}

fn space_rules(
    alloc: Global,
    strip: bool,
    tests: List<NameTest>,
) -> Result<List<SpaceRule>, AllocError>
    ensures { IfOk result (λ rules. rules ≡ space_rules strip tests) }
{
    let mut made = List::new(alloc);
    let mut left = VecDeque::from(tests.into_vec());
    while let Some(test) = left.pop_front() {
        made.push(SpaceRule { strip, test })?;
    }
    Ok(made)
}

/// The rules of `xsl:strip-space`, or of `xsl:preserve-space` (XSLT 2.0, 4.4).
pub(crate) fn space<E, P>(
    alloc: Global,
    place: &StaticContext,
    element: XslElement,
    strip: bool,
    attributes: &[Attribute],
    kids: &[Node],
) -> Result<Part<E, P>, ResolveFault>
    ensures { Answers result (space_faults place.now element attributes.now kids.now)
        (space_value place.now strip attributes.now) }
{
    check_empty(element, attributes, kids)?;
    let tests = needed_tests(alloc, place, attributes)?;
    let rules = space_rules(alloc, strip, tests)?;
    Ok(Part::Space(rules))
}

#[tactic(auto, unfolding(crate::specs::Outputs::omits))]
fn omits(attributes: &[Attribute]) -> Option<bool>
    ensures { result ≡ omits (attribute attributes.now (codes "omit-xml-declaration")) }
{
    match attribute(attributes, "omit-xml-declaration") {
        Some(text) => Some(is_ascii_text(text.as_str(), "yes")),
        None => None,
    }
}

/// What `xsl:output` says of the XML declaration (XSLT 2.0, 20).
pub(crate) fn output<E, P>(
    attributes: &[Attribute],
    kids: &[Node],
) -> Result<Part<E, P>, ResolveFault>
    ensures { Answers result (empty_faults Output attributes.now kids.now)
        (output_value attributes.now) }
{
    check_empty(XslElement::Output, attributes, kids)?;
    Ok(Part::Output(omits(attributes)))
}
