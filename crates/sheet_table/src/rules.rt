// What the table forbids in the attributes of an element.
ghost use Rattle.std.specs.Prelude.{◌≡◌, ◌++◌, map, not, IsTrue, List as Items};
ghost use Rattle.xt_names.specs.declared.codes.Code.{Code};
ghost use Rattle.std.specs.Str.{chars};
ghost use Rattle.expr_names.specs.Answers.{first, Answers};
ghost use Rattle.sheet_table.specs.Rows.{Row as RowOfTable, row_of};
ghost use Rattle.sheet_table.specs.RowsOfCode.{row_as, is_ascii_row};
ghost use Rattle.sheet_table.specs.Choices.{choice, choices_of};
ghost use Rattle.sheet_table.specs.ChoicesOfCode.{choices_as, are_ascii_choices};
ghost use Rattle.sheet_table.specs.Texts.{is_ascii, are_ascii};
ghost use Rattle.sheet_table.specs.Attributes.{attribute};
ghost use Rattle.sheet_table.specs.Rules.{broken, each, preserves_space, is_expected, is_left_out, unexpected};
ghost use Rattle.sheet_table.specs.Rules.{name_faults, missing_faults, value_faults, choice_faults, attribute_faults};
ghost use Rattle.sheet_table.specs.Rules.{literal_faults, literal_attribute_faults};
ghost use Rattle.xt_names.specs.declared.codes.Code.TheVariants.{SheetStatic};

use crate::attributes::{attribute, has};
use crate::choices::{Choice, choices_of};
use crate::elements::XslElement;
use crate::rows::{Row, left_out_everywhere, row_of};
use crate::texts::is_one_of;
use expr_names::ResolveFault;
use xt_names::{Code, SheetStaticCode, is_ascii_text, is_in_xslt};
use xt_tree::Attribute;

#[tactic(auto, unfolding(crate::specs::Rules::preserves_space))]
fn preserves_space(attribute: &Attribute) -> bool
    ensures { result ≡ preserves_space attribute.now }
{
    is_ascii_text(
        attribute.name.uri.as_str(),
        "http://www.w3.org/XML/1998/namespace",
    ) && is_ascii_text(attribute.name.local.as_str(), "space")
        && is_ascii_text(attribute.value.as_str(), "preserve")
}

#[tactic(auto, unfolding(crate::specs::Rules::is_expected))]
fn is_expected(row: &Row, local: &str) -> bool
    requires { IsTrue (is_ascii_row row.now) }
    ensures { result ≡ is_expected (row_as row.now) (chars local.now) }
{
    is_one_of(local, row.0) || is_one_of(local, row.1)
}

#[tactic(auto, unfolding(crate::specs::Rules::is_left_out))]
fn is_left_out(row: &Row, local: &str) -> bool
    requires { IsTrue (is_ascii_row row.now) }
    ensures { result ≡ is_left_out (row_as row.now) (chars local.now) }
{
    is_one_of(local, row.2) || is_one_of(local, left_out_everywhere())
}

#[tactic(auto, unfolding(crate::specs::Rules::unexpected))]
fn unexpected(row: &Row, local: &str) -> SheetStaticCode
    requires { IsTrue (is_ascii_row row.now) }
    ensures { result ≡ unexpected (row_as row.now) (chars local.now) }
{
    if is_left_out(row, local) {
        SheetStaticCode::XTUN0001
    } else {
        SheetStaticCode::XTSE0090
    }
}

/// The rule that one attribute breaks by its name.
#[tactic(auto, unfolding(crate::specs::Rules::name_faults))]
fn name_fault(row: &Row, attribute: &Attribute) -> Option<Code>
    requires { IsTrue (is_ascii_row row.now) }
    ensures { result ≡ first (name_faults (row_as row.now) attribute.now) }
{
    if is_in_xslt(&attribute.name) {
        return Some(Code::SheetStatic(SheetStaticCode::XTSE0090));
    }
    if preserves_space(attribute) {
        return Some(Code::SheetStatic(SheetStaticCode::XTUN0001));
    }
    let local = attribute.name.local.as_str();
    if !attribute.name.uri.is_empty() || is_expected(row, local) {
        return None;
    }
    Some(Code::SheetStatic(unexpected(row, local)))
}

#[tactic(auto, using(crate::proofs::Firsts::first_some, crate::proofs::Firsts::first_none))]
fn names_fault(row: &Row, attributes: &[Attribute]) -> Option<Code>
    requires { IsTrue (is_ascii_row row.now) }
    ensures { result ≡ first (each (name_faults (row_as row.now)) attributes.now) }
{
    for attribute in attributes {
        if let Some(code) = name_fault(row, attribute) {
            return Some(code);
        }
    }
    None
}

#[tactic(auto, using(crate::proofs::Firsts::first_some, crate::proofs::Firsts::first_none))]
fn missing_fault(names: &[&str], attributes: &[Attribute]) -> Option<Code>
    requires { IsTrue (are_ascii (map (λ n. n.now) names.now)) }
    ensures { result ≡ first (each (missing_faults attributes.now) (map (λ n. n.now) names.now)) }
{
    for name in names {
        if !has(attributes, name) {
            return Some(Code::SheetStatic(SheetStaticCode::XTSE0010));
        }
    }
    None
}

#[tactic(auto, unfolding(crate::specs::Rules::value_faults, crate::specs::Rules::choice_faults))]
fn value_fault(
    name: &str,
    values: &[&str],
    code: SheetStaticCode,
    attributes: &[Attribute],
) -> Option<Code>
    requires name { IsTrue (is_ascii name.now) }
    requires values { IsTrue (are_ascii (map (λ n. n.now) values.now)) }
    ensures { result ≡ first (choice_faults attributes.now (choice name.now (map (λ n. n.now) values.now) code)) }
{
    match attribute(attributes, name) {
        Some(value) => {
            if is_one_of(value.as_str(), values) {
                None
            } else {
                Some(Code::SheetStatic(code))
            }
        }
        None => None,
    }
}

#[tactic(auto, using(crate::proofs::Firsts::first_some, crate::proofs::Firsts::first_none))]
fn choices_fault(choices: &[Choice], attributes: &[Attribute]) -> Option<Code>
    requires { IsTrue (are_ascii_choices choices.now) }
    ensures { result ≡ first (each (choice_faults attributes.now) (choices_as choices.now)) }
{
    for choice in choices {
        match value_fault(choice.0, choice.1, choice.2, attributes) {
            Some(code) => return Some(code),
            None => {}
        }
    }
    None
}

/// Nothing where no rule is broken, and else the code of the first.
fn answer_to(found: Option<Code>) -> Result<(), ResolveFault>
    ensures { (broken_ones : Items Code) → found ≡ first broken_ones → Answers result broken_ones tt }
{
    match found {
        None => Ok(()),
        Some(code) => Err(ResolveFault::Static(code)),
    }
}

/// Refuses the attributes that the table forbids on the element, an element without one that it
/// wants, and values that are not taken (XSLT 2.0, 3.3 and appendix D).
#[tactic(auto, using(expr_names::proofs::Follow::fault_first, expr_names::proofs::Follow::fault_next), unfolding(crate::specs::Rules::attribute_faults))]
pub fn check_attributes(element: XslElement, attributes: &[Attribute]) -> Result<(), ResolveFault>
    ensures { Answers result (attribute_faults element attributes.now) tt }
{
    let row = row_of(element);
    answer_to(names_fault(&row, attributes))?;
    answer_to(missing_fault(row.0, attributes))?;
    answer_to(choices_fault(choices_of(element), attributes))
}

#[tactic(auto, unfolding(crate::specs::Rules::literal_faults))]
fn literal_fault(attribute: &Attribute) -> Option<Code>
    ensures { result ≡ first (literal_faults attribute.now) }
{
    let is_left_out = if is_in_xslt(&attribute.name) {
        !is_ascii_text(attribute.name.local.as_str(), "exclude-result-prefixes")
    } else {
        preserves_space(attribute)
    };
    if is_left_out {
        Some(Code::SheetStatic(SheetStaticCode::XTUN0001))
    } else {
        None
    }
}

#[tactic(auto, using(crate::proofs::Firsts::first_some, crate::proofs::Firsts::first_none))]
fn literals_fault(attributes: &[Attribute]) -> Option<Code>
    ensures { result ≡ first (literal_attribute_faults attributes.now) }
{
    for attribute in attributes {
        if let Some(code) = literal_fault(attribute) {
            return Some(code);
        }
    }
    None
}

/// Refuses the attributes that may not stand on a literal result element: of XSLT all but
/// `xsl:exclude-result-prefixes`, and `xml:space="preserve"` (XSLT 2.0, 11.1).
pub fn check_literal_attributes(attributes: &[Attribute]) -> Result<(), ResolveFault>
    ensures { Answers result (literal_attribute_faults attributes.now) tt }
{
    answer_to(literals_fault(attributes))
}
