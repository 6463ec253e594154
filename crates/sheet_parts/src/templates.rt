// Templates.
ghost use Rattle.std.specs.Prelude.{◌≡◌, ◌∷◌, ◌++◌, [], map, IfOk, codes, List as Items};
ghost use Rattle.expr_names.specs.Answers.{Answers};
ghost use Rattle.xt_names.specs.declared.codes.Code.{Code};
ghost use Rattle.xt_names.specs.declared.codes.SheetStaticCode.TheVariants.{XTSE0020};
ghost use Rattle.sheet_table.specs.Attributes.{attribute};
ghost use Rattle.sheet_bodies.specs.SheetHeads.Attributes.{optional_faults, optional_value};
ghost use Rattle.sheet_values.specs.SheetTexts.Names.{number_of};
ghost use Rattle.sheet_values.specs.Names.{declared_faults, qname_value};
ghost use Rattle.sheet_values.specs.Priorities.{priority_faults, priority_value};
ghost use Rattle.sheet_modules.specs.declared.modules.Part.TheVariants.{Template};
ghost use Rattle.sheet_parts.specs.declared.parameters.Content.{Content as AnyContent};
ghost use Rattle.sheet_parts.specs.Parameters.{front, params_faults, params_value};
ghost use Rattle.sheet_parts.specs.Parameters.{behind_faults, behind_value};
ghost use Rattle.sheet_parts.specs.Templates.{numbers_of, mode_set, modes_faults, modes_value};
ghost use Rattle.sheet_parts.specs.Templates.{rule_priority, rule_of, rules_of, rules_in};
ghost use Rattle.sheet_parts.specs.Templates.{use_faults, rules_faults, rules_value};
ghost use Rattle.sheet_parts.specs.Templates.{head_faults, head_value};
ghost use Rattle.sheet_parts.specs.Templates.{template_faults, template_value};

use crate::parameters::{Content, params, with_behind};
use expr_names::ResolveFault;
use sheet_bodies::sheet_heads::{optional_type, refuse_if};
use sheet_modules::{ModeSet, Part, RulePart, TemplatePart};
use sheet_table::sheet_nodes::{Node, split_front};
use sheet_table::{Content as Contents, XslElement, attribute, check_attributes, has};
use sheet_values::sheet_texts::{NameTable, Reader, StaticContext};
use sheet_values::{Modes, declared_name, mode_list, priority};
use std::alloc::{AllocError, Global};
use std::collections::VecDeque;
use xt_names::{ExprName, List, Shared, SheetStaticCode};
use xt_tree::Attribute;
use xt_types::SeqType;

/// What a template says by its attributes.
#[derive(Drop)]
pub(crate) struct TemplateHead<P> {
    /// The name by which it is called.
    pub(crate) name: Option<ExprName>,
    /// The type after `as`.
    pub(crate) kind: Option<SeqType>,
    /// Whether it has `match`.
    pub(crate) has_match: bool,
    /// Its rules.
    pub(crate) rules: List<RulePart<P>>,
}

fn numbers_of(alloc: Global, table: &NameTable, names: &[ExprName]) -> Result<List<u32>, AllocError>
    ensures { IfOk result (λ numbers. numbers ≡ numbers_of table.now names.now) }
{
    let mut made = List::new(alloc);
    for name in names {
        made.push(table.number(name))?;
    }
    Ok(made)
}

fn mode_set(alloc: Global, table: &NameTable, modes: &Modes) -> Result<ModeSet, AllocError>
    ensures { IfOk result (λ set. set ≡ mode_set table.now modes.now) }
{
    match modes {
        Modes::All => Ok(ModeSet::All),
        Modes::Names(names) => {
            let numbers = numbers_of(alloc, table, names.as_slice())?;
            Ok(ModeSet::Numbers(Shared::make(alloc, numbers)?))
        }
    }
}

fn default_modes(alloc: Global) -> Result<Shared<List<u32>>, AllocError>
    ensures { IfOk result (λ numbers. numbers ≡ 0 ∷ []) }
{
    let mut made = List::new(alloc);
    made.push(0)?;
    Shared::make(alloc, made)
}

fn modes(
    alloc: Global,
    place: &StaticContext,
    attributes: &[Attribute],
) -> Result<ModeSet, ResolveFault>
    ensures { Answers result (modes_faults place.now (attribute attributes.now (codes "mode")))
        (modes_value place.now (attribute attributes.now (codes "mode"))) }
{
    match attribute(attributes, "mode") {
        None => {
            let numbers = default_modes(alloc)?;
            Ok(ModeSet::Numbers(numbers))
        }
        Some(text) => {
            let modes = mode_list(alloc, &place.bound, text)?;
            let set = mode_set(alloc, place.modes.get(), &modes)?;
            Ok(set)
        }
    }
}

fn own_name(
    alloc: Global,
    place: &StaticContext,
    attributes: &[Attribute],
) -> Result<Option<ExprName>, ResolveFault>
    ensures { Answers result
        (optional_faults (declared_faults XTSE0020 place.now.bound)
        (attribute attributes.now (codes "name")))
        (optional_value (qname_value place.now.bound) (attribute attributes.now (codes "name"))) }
{
    match attribute(attributes, "name") {
        None => Ok(None),
        Some(text) => {
            let bound = &place.bound;
            let name = declared_name(alloc, bound, text, SheetStaticCode::XTSE0020)?;
            Ok(Some(name))
        }
    }
}

fn own_priority(alloc: Global, attributes: &[Attribute]) -> Result<Option<i64>, ResolveFault>
    ensures { Answers result
        (optional_faults priority_faults (attribute attributes.now (codes "priority")))
        (optional_value priority_value (attribute attributes.now (codes "priority"))) }
{
    match attribute(attributes, "priority") {
        None => Ok(None),
        Some(text) => Ok(Some(priority(alloc, text)?)),
    }
}

fn patterns<R: Reader>(
    alloc: Global,
    reader: &R,
    place: &StaticContext,
    attributes: &[Attribute],
) -> Result<Option<List<R::Pattern>>, ResolveFault>
    ensures { Answers result
        (optional_faults ((R.reads reader.now).patterns_faults place.now)
        (attribute attributes.now (codes "match")))
        (optional_value ((R.reads reader.now).patterns_value place.now)
        (attribute attributes.now (codes "match"))) }
{
    match attribute(attributes, "match") {
        None => Ok(None),
        Some(text) => Ok(Some(reader.patterns(alloc, place, text)?)),
    }
}

fn rule_priority<R: Reader>(reader: &R, priority: Option<i64>, pattern: &R::Pattern) -> i64
    ensures { result ≡ rule_priority (R.reads reader.now) priority pattern.now }
{
    match priority {
        None => reader.default_priority(pattern),
        Some(n) => n,
    }
}

fn rules_of<R: Reader>(
    alloc: Global,
    reader: &R,
    modes: &ModeSet,
    priority: Option<i64>,
    patterns: List<R::Pattern>,
) -> Result<List<RulePart<R::Pattern>>, AllocError>
    ensures { IfOk result (λ rules. rules ≡ rules_of (R.reads reader.now) modes.now priority
        patterns) }
{
    let mut made = List::new(alloc);
    let mut left = VecDeque::from(patterns.into_vec());
    while let Some(pattern) = left.pop_front() {
        let priority = rule_priority(reader, priority, &pattern);
        let modes = modes.copy()?;
        made.push(RulePart {
            pattern,
            modes,
            priority,
        })?;
    }
    Ok(made)
}

fn rules_in<R: Reader>(
    alloc: Global,
    reader: &R,
    modes: &ModeSet,
    priority: Option<i64>,
    patterns: Option<List<R::Pattern>>,
) -> Result<List<RulePart<R::Pattern>>, AllocError>
    ensures { IfOk result (λ rules. rules ≡ rules_in (R.reads reader.now) modes.now priority
        patterns) }
{
    match patterns {
        None => Ok(List::new(alloc)),
        Some(patterns) => rules_of(alloc, reader, modes, priority, patterns),
    }
}

fn check_use(attributes: &[Attribute]) -> Result<(), ResolveFault>
    ensures { Answers result (use_faults attributes.now) tt }
{
    check_attributes(XslElement::Template, attributes)?;
    let has_match = has(attributes, "match");
    refuse_if(
        SheetStaticCode::XTSE0500,
        !has_match && !has(attributes, "name"),
    )?;
    refuse_if(
        SheetStaticCode::XTSE0500,
        !has_match && (has(attributes, "mode") || has(attributes, "priority")),
    )
}

fn rules<R: Reader>(
    alloc: Global,
    reader: &R,
    place: &StaticContext,
    attributes: &[Attribute],
) -> Result<List<RulePart<R::Pattern>>, ResolveFault>
    ensures { Answers result (rules_faults (R.reads reader.now) place.now attributes.now)
        (rules_value (R.reads reader.now) place.now attributes.now) }
{
    let priority = own_priority(alloc, attributes)?;
    let modes = modes(alloc, place, attributes)?;
    let patterns = patterns(alloc, reader, place, attributes)?;
    let rules = rules_in(alloc, reader, &modes, priority, patterns)?;
    Ok(rules)
}

fn head<R: Reader>(
    alloc: Global,
    reader: &R,
    place: &StaticContext,
    attributes: &[Attribute],
) -> Result<TemplateHead<R::Pattern>, ResolveFault>
    ensures { Answers result (head_faults (R.reads reader.now) place.now attributes.now)
        (head_value (R.reads reader.now) place.now attributes.now) }
{
    check_use(attributes)?;
    let name = own_name(alloc, place, attributes)?;
    let kind = optional_type(alloc, reader, place, attributes, "as")?;
    let rules = rules(alloc, reader, place, attributes)?;
    Ok(TemplateHead {
        name,
        kind,
        has_match: has(attributes, "match"),
        rules,
    })
}

fn content<R: Reader>(
    alloc: Global,
    reader: &R,
    place: &StaticContext,
    kids: &[Node],
) -> Result<Content<R::Expr, R::Pattern>, ResolveFault>
    ensures { Answers result
        (params_faults (R.reads reader.now) place.now (front kids.now)
        ++ behind_faults (R.reads reader.now) place.now
        (params_value (R.reads reader.now) place.now (front kids.now)) kids.now)
        (record {
          params = params_value (R.reads reader.now) place.now (front kids.now);
          body = behind_value (R.reads reader.now) place.now kids.now;
        }) }
{
    let (front, _) = split_front(Contents::Params, kids);
    let params = params(alloc, reader, place, front)?;
    with_behind(alloc, reader, place, params, kids)
}

/// The template of the head and what was read of its content.
fn with_content<E: Drop, P: Drop>(
    head: TemplateHead<P>,
    content: Result<Content<E, P>, ResolveFault>,
) -> Result<Part<E, P>, ResolveFault>
    ensures { (faults : Items Code) (c : AnyContent E P) → Answers content faults c
        → Answers result faults (Template (record {
          name = head.name;
          params = c.params;
          kind = head.kind;
          body = c.body;
          has_match = head.has_match;
        }) head.rules) }
{
    match content {
        Err(fault) => {
            drop(head);
            Err(fault)
        }
        Ok(content) => {
            let template = TemplatePart {
                name: head.name,
                params: content.params,
                kind: head.kind,
                body: content.body,
                has_match: head.has_match,
            };
            Ok(Part::Template(template, head.rules))
        }
    }
}

/// The template that the element declares, with its rules (XSLT 2.0, 6.1 and 10.1). XTSE0500 comes
/// where it has neither `match` nor `name`, or `mode` or `priority` without `match`; XTSE0580 comes
/// of two parameters of one name.
pub(crate) fn template<R: Reader>(
    alloc: Global,
    reader: &R,
    place: &StaticContext,
    attributes: &[Attribute],
    kids: &[Node],
) -> Result<Part<R::Expr, R::Pattern>, ResolveFault>
    ensures { Answers result
        (template_faults (R.reads reader.now) place.now attributes.now kids.now)
        (template_value (R.reads reader.now) place.now attributes.now kids.now) }
{
    let head = head(alloc, reader, place, attributes)?;
    let content = content(alloc, reader, place, kids);
    with_content(head, content)
}
