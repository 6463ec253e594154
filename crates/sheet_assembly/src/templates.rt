// Templates and their rules.
ghost use Rattle.std.specs.Prelude.{◌≡◌, ◌++◌, map, replicate, None, IfOk, OnOk};
ghost use Rattle.std.specs.List.{range_with_len};
ghost use Rattle.sheet_assembly.specs.Named.{each_by, each};
ghost use Rattle.sheet_assembly.specs.Templates.{name_if, template_of, number_in, chosen_template, chosen_rules, standing_number, standing_in, standing_if, template_in, rules_in, places_of, with_place, no_template, template_at, other_of, templates_of, place_of, one_more, modes_of, rule_of, rules_of};

use crate::declared::{behind, is_marked};
use sheet_modules::{ModeSet, Part, RulePart, TemplatePart};
use sheet_rules::sheet_declarations::Declaration;
use sheet_values::sheet_texts::NameTable;
use std::alloc::{AllocError, Global};
use xt_names::{ExprName, List, Shared};
use xt_sheets::{Rule, Template, copy_bound_list, copy_instr_list};
use xt_syntax::{Expr, Pattern};
use xt_types::copy_option;

/// A template that is in the stylesheet, with its rules: the declaration of both.
#[derive(Drop)]
pub(crate) struct Standing {
    /// The precedence of its level.
    pub(crate) level: u32,
    /// The number of its name among those that are called; how many are, where it is not called.
    pub(crate) number: u32,
    /// Whether it counts; else it has no name.
    pub(crate) counts: bool,
    pub(crate) part: Shared<Part<Expr, Pattern>>,
}

impl Standing {
    fn template(&self, alloc: Global) -> Result<Template, AllocError>
        ensures { IfOk result (λ template. template ≡ template_in self.now) }
    {
        chosen_template(alloc, self.counts, self.part.get())
    }

    fn rules(&self) -> &[RulePart<Pattern>]
        ensures { result.now ≡ rules_in self.now }
    {
        chosen_rules(self.part.get())
    }
}

/// The template that is declared, with its name where it counts.
fn chosen_template(
    alloc: Global,
    counts: bool,
    part: &Part<Expr, Pattern>,
) -> Result<Template, AllocError>
    ensures { IfOk result (λ template. template ≡ chosen_template counts part.now) }
{
    match part {
        Part::Template(template, _) => template_of(counts, template),
        _ => Ok(no_template(alloc)),
    }
}

/// The rules of the template that is declared.
fn chosen_rules(part: &Part<Expr, Pattern>) -> &[RulePart<Pattern>]
    ensures { result.now ≡ chosen_rules part.now }
{
    match part {
        Part::Template(_, rules) => rules.as_slice(),
        _ => &[],
    }
}

/// The templates that stand, in declaration order: those that count, and those that are replaced
/// and have rules, without their names (XSLT 2.0, 6.4 and 10.1).
pub(crate) fn standing_templates(
    alloc: Global,
    called: &NameTable,
    declarations: &[Declaration<Expr, Pattern>],
    marks: &[bool],
) -> Result<List<Standing>, AllocError>
    ensures { IfOk result (λ all. all
        ≡ each_by (standing_if called.now) marks.now declarations.now) }
{
    let mut made = List::new(alloc);
    let mut marks = marks;
    let mut left = declarations;
    while let [declaration, rest @ ..] = left {
        push_standing(
            &mut made,
            called,
            is_marked(marks),
            declaration.level,
            &declaration.part,
        )?;
        marks = behind(marks);
        left = rest;
    }
    Ok(made)
}

#[tactic(auto, using(crate::proofs::Standing::stands, crate::proofs::Standing::falls))]
fn push_standing(
    made: &mut List<Standing>,
    called: &NameTable,
    counts: bool,
    level: u32,
    part: &Shared<Part<Expr, Pattern>>,
) -> Result<(), AllocError>
    ensures { OnOk result (made.new ≡ made.old ++ standing_in called.now counts level part.now) }
{
    match standing_number(called, counts, part.get()) {
        Some(number) => made.push(Standing {
            level,
            number,
            counts,
            part: part.copy()?,
        }),
        None => Ok(()),
    }
}

/// The number of the template that is declared, if it stands.
fn standing_number(called: &NameTable, counts: bool, part: &Part<Expr, Pattern>) -> Option<u32>
    ensures { result ≡ standing_number called.now counts part.now }
{
    match part {
        Part::Template(template, _) => {
            if counts || template.has_match {
                return Some(number_if(called, counts, &template.name));
            }
            None
        }
        _ => None,
    }
}

fn name_if(counts: bool, name: &Option<ExprName>) -> Result<Option<ExprName>, AllocError>
    ensures { IfOk result (λ found. found ≡ name_if counts name.now) }
{
    if counts {
        return copy_option(name);
    }
    Ok(None)
}

/// The template, with its name where it counts.
fn template_of(counts: bool, part: &TemplatePart<Expr, Pattern>) -> Result<Template, AllocError>
    ensures { IfOk result (λ template. template ≡ template_of counts part.now) }
{
    Ok(Template {
        name: name_if(counts, &part.name)?,
        params: copy_bound_list(&part.params)?,
        kind: copy_option(&part.kind)?,
        body: copy_instr_list(&part.body)?,
        has_match: part.has_match,
    })
}

/// The number of the name among those that are called, or how many there are.
fn number_in(called: &NameTable, name: &Option<ExprName>) -> u32
    ensures { result ≡ number_in called.now name.now }
{
    match name {
        Some(name) => called.number(name),
        None => u32::try_from(called.as_slice().len()).unwrap_or(u32::MAX),
    }
}

/// The same of the name of a template, which it has where it counts.
fn number_if(called: &NameTable, counts: bool, name: &Option<ExprName>) -> u32
    ensures { result ≡ number_in called.now (name_if counts name.now) }
{
    if counts {
        return number_in(called, name);
    }
    number_in(called, &None)
}

/// The templates of the stylesheet: those that are called, by their numbers, and then the others.
pub(crate) fn templates(
    alloc: Global,
    count: usize,
    standing: &[Standing],
) -> Result<List<Template>, AllocError>
    ensures { IfOk result (λ all. all ≡ templates_of count standing.now) }
{
    let places = places(alloc, count, standing)?;
    let mut made = List::new(alloc);
    push_called(&mut made, standing, places.as_slice())?;
    push_others(&mut made, count, standing)?;
    Ok(made)
}

/// For each number the place of the template that is called by it.
fn places(
    alloc: Global,
    count: usize,
    standing: &[Standing],
) -> Result<Vec<Option<usize>>, AllocError>
    ensures { IfOk result (λ places. places.items ≡ places_of count standing.now) }
{
    let mut places = no_places(alloc, count)?;
    let mut left = standing.len();
    while left > 0 {
        left -= 1;
        put_place(&mut places, standing[left].number, left);
    }
    Ok(places)
}

/// So many numbers without a place.
#[tactic(auto, using(std::proofs::lemmas::List::replicate_more))]
fn no_places(alloc: Global, count: usize) -> Result<Vec<Option<usize>>, AllocError>
    ensures { IfOk result (λ places. places.items ≡ replicate count None) }
{
    let mut places = Vec::new(alloc);
    for turn in 0..count {
        places.push(None)?;
    }
    Ok(places)
}

fn put_place(places: &mut Vec<Option<usize>>, number: u32, place: usize)
    ensures { places.new.items ≡ with_place places.old.items number place }
{
    let number = number as usize;
    if number < places.len() {
        places[number] = Some(place);
    }
}

fn push_called(
    made: &mut List<Template>,
    standing: &[Standing],
    places: &[Option<usize>],
) -> Result<(), AllocError>
    ensures { OnOk result (made.new ≡ made.old ++ map (template_at standing.now) places.now) }
{
    for place in places {
        let template = template_at(made.allocator(), standing, *place)?;
        made.push(template)?;
    }
    Ok(())
}

#[tactic(auto, using(std::proofs::lemmas::Option::slice_get_past))]
fn template_at(
    alloc: Global,
    standing: &[Standing],
    place: Option<usize>,
) -> Result<Template, AllocError>
    ensures { IfOk result (λ template. template ≡ template_at standing.now place) }
{
    match place {
        None => Ok(no_template(alloc)),
        Some(place) => match standing.get(place) {
            Some(one) => one.template(alloc),
            None => Ok(no_template(alloc)),
        },
    }
}

/// A template without name and content.
fn no_template(alloc: Global) -> Template
    ensures { result ≡ no_template }
{
    Template {
        name: None,
        params: List::new(alloc),
        kind: None,
        body: List::new(alloc),
        has_match: false,
    }
}

fn push_others(
    made: &mut List<Template>,
    count: usize,
    standing: &[Standing],
) -> Result<(), AllocError>
    ensures { OnOk result (made.new ≡ made.old ++ each (other_of count) standing.now) }
{
    let mut left = standing;
    while let [one, rest @ ..] = left {
        push_other(made, count, one)?;
        left = rest;
    }
    Ok(())
}

fn push_other(made: &mut List<Template>, count: usize, one: &Standing) -> Result<(), AllocError>
    ensures { OnOk result (made.new ≡ made.old ++ other_of count one.now) }
{
    if (one.number as usize) < count {
        return Ok(());
    }
    made.push(one.template(made.allocator())?)
}

/// The rules of the templates, in order. `modes` and `count` are how many modes there are, and how
/// many templates are called.
pub(crate) fn rules(
    alloc: Global,
    modes: u32,
    count: u32,
    standing: &[Standing],
) -> Result<List<Rule>, AllocError>
    ensures { IfOk result (λ all. all ≡ rules_of modes count 0 standing.now) }
{
    let mut made = List::new(alloc);
    let mut before: u32 = 0;
    let mut left = standing;
    while let [one, rest @ ..] = left {
        let place = place_of(count, one.number, before);
        push_rules(&mut made, modes, place, one.level, one.rules())?;
        before = one_more(count, one.number, before);
        left = rest;
    }
    Ok(made)
}

/// The place of a template, where so many before it are not called.
fn place_of(count: u32, number: u32, before: u32) -> u32
    ensures { result ≡ place_of count number before }
{
    if number < count {
        return number;
    }
    count.saturating_add(before)
}

fn one_more(count: u32, number: u32, before: u32) -> u32
    ensures { result ≡ one_more count number before }
{
    if number < count {
        return before;
    }
    before.saturating_add(1)
}

fn push_rules(
    made: &mut List<Rule>,
    modes: u32,
    place: u32,
    level: u32,
    rules: &[RulePart<Pattern>],
) -> Result<(), AllocError>
    ensures { OnOk result (made.new ≡ made.old ++ map (rule_of modes place level) rules.now) }
{
    for rule in rules {
        let rule = rule_of(made.allocator(), modes, place, level, rule)?;
        made.push(rule)?;
    }
    Ok(())
}

fn rule_of(
    alloc: Global,
    modes: u32,
    place: u32,
    level: u32,
    rule: &RulePart<Pattern>,
) -> Result<Rule, AllocError>
    ensures { IfOk result (λ made. made ≡ rule_of modes place level rule.now) }
{
    Ok(Rule {
        template: place,
        pattern: rule.pattern.copy()?,
        modes: modes_of(alloc, modes, &rule.modes)?,
        precedence: level,
        priority: rule.priority,
    })
}

fn modes_of(alloc: Global, modes: u32, set: &ModeSet) -> Result<List<u32>, AllocError>
    ensures { IfOk result (λ numbers. numbers ≡ modes_of modes set.now) }
{
    match set {
        ModeSet::All => every_number(alloc, modes),
        ModeSet::Numbers(numbers) => {
            let copied = Vec::from_slice(alloc, numbers.get().as_slice())?;
            Ok(List::of_vec(copied))
        }
    }
}

/// All numbers before this one.
#[tactic(auto, using(xt_names::proofs::ListLemmas::number_more))]
fn every_number(alloc: Global, count: u32) -> Result<List<u32>, AllocError>
    ensures { IfOk result (λ numbers. numbers ≡ range_with_len 0 count) }
{
    let mut made = List::new(alloc);
    for number in 0..count {
        made.push(number)?;
    }
    Ok(made)
}
