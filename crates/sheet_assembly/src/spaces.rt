// White space and the XML declaration.
ghost use Rattle.std.specs.Prelude.{◌≡◌, ◌++◌, map, reverse, IfOk, OnOk, false};
ghost use Rattle.sheet_assembly.specs.Named.{each};
ghost use Rattle.sheet_assembly.specs.Spaces.{leveled, space_rules, spaces_in, weight, has_weight};
ghost use Rattle.sheet_assembly.specs.Spaces.{weighing, on_level, down_from, spaces_of};
ghost use Rattle.sheet_assembly.specs.Spaces.{omit_by, omit_of};

use sheet_modules::Part;
use sheet_rules::sheet_declarations::Declaration;
use std::alloc::{AllocError, Global};
use xt_names::List;
use xt_syntax::{Expr, Pattern};
use xt_types::{NameTest, SpaceRule};

/// A rule on white space with the precedence of its level.
#[derive(Drop)]
pub(crate) struct Leveled {
    pub(crate) level: u32,
    pub(crate) rule: SpaceRule,
}

/// The rules on white space from the one that decides first: by precedence, then by priority, then
/// the later before the earlier (XSLT 2.0, 4.4). There are so many levels.
pub(crate) fn spaces(
    alloc: Global,
    levels: u32,
    declarations: &[Declaration<Expr, Pattern>],
) -> Result<List<SpaceRule>, AllocError>
    ensures { IfOk result (λ all. all ≡ spaces_of levels declarations.now) }
{
    let rules = leveled_rules(alloc, declarations)?;
    down_from(alloc, levels, &rules)
}

/// The rules of this level and those below it.
fn down_from(alloc: Global, levels: u32, rules: &[Leveled]) -> Result<List<SpaceRule>, AllocError>
    ensures { IfOk result (λ all. all ≡ down_from levels rules.now) }
{
    let mut made = List::new(alloc);
    let mut level = levels;
    while level > 0 {
        push_level(&mut made, level, rules)?;
        level -= 1;
    }
    Ok(made)
}

/// Puts the rules of this level at the end.
fn push_level(made: &mut List<SpaceRule>, level: u32, rules: &[Leveled]) -> Result<(), AllocError>
    ensures { OnOk result (made.new ≡ made.old ++ on_level level rules.now) }
{
    push_weighing(made, level, 2, rules)?;
    push_weighing(made, level, 1, rules)?;
    push_weighing(made, level, 0, rules)
}

/// The rules from the last to the first.
fn leveled_rules(
    alloc: Global,
    declarations: &[Declaration<Expr, Pattern>],
) -> Result<Vec<Leveled>, AllocError>
    ensures { IfOk result (λ rules. rules.items ≡ reverse (each spaces_in declarations.now)) }
{
    let mut made = List::new(alloc);
    let mut left = declarations;
    while let [declaration, rest @ ..] = left {
        push_space(&mut made, declaration.level, declaration.part.get())?;
        left = rest;
    }
    let mut rules = made.into_vec();
    rules.reverse();
    Ok(rules)
}

fn push_space(
    made: &mut List<Leveled>,
    level: u32,
    part: &Part<Expr, Pattern>,
) -> Result<(), AllocError>
    ensures { OnOk result (made.new ≡ made.old ++ space_rules level part.now) }
{
    match part {
        Part::Space(rules) => push_leveled(made, level, rules.as_slice()),
        _ => Ok(()),
    }
}

fn push_leveled(made: &mut List<Leveled>, level: u32, rules: &[SpaceRule]) -> Result<(), AllocError>
    ensures { OnOk result (made.new ≡ made.old ++ map (leveled level) rules.now) }
{
    for rule in rules {
        let rule = rule.copy()?;
        made.push(Leveled { level, rule })?;
    }
    Ok(())
}

/// Puts those of this level whose tests say so much at the end.
fn push_weighing(
    made: &mut List<SpaceRule>,
    level: u32,
    said: u8,
    rules: &[Leveled],
) -> Result<(), AllocError>
    ensures { OnOk result (made.new ≡ made.old ++ weighing level said rules.now) }
{
    let mut left = rules;
    while let [one, rest @ ..] = left {
        if has_weight(level, said, one) {
            made.push(one.rule.copy()?)?;
        }
        left = rest;
    }
    Ok(())
}

fn has_weight(level: u32, said: u8, one: &Leveled) -> bool
    ensures { result ≡ has_weight level said one.now }
{
    one.level == level && weight(&one.rule.test) == said
}

/// How much a test says: a name, a part of one, or nothing.
fn weight(test: &NameTest) -> u8
    ensures { result ≡ weight test.now }
{
    match test {
        NameTest::Exact(_) => 2,
        NameTest::Uri(_) => 1,
        NameTest::Local(_) => 1,
        NameTest::Any => 0,
    }
}

/// Whether the XML declaration is left out of the output (XSLT 2.0, 20).
pub(crate) fn omit(declarations: &[Declaration<Expr, Pattern>]) -> bool
    ensures { result ≡ omit_of false declarations.now }
{
    let mut omit = false;
    let mut left = declarations;
    while let [declaration, rest @ ..] = left {
        omit = omit_by(omit, declaration.part.get());
        left = rest;
    }
    omit
}

fn omit_by(omit: bool, part: &Part<Expr, Pattern>) -> bool
    ensures { result ≡ omit_by omit part.now }
{
    match part {
        Part::Output(Some(own)) => *own,
        _ => omit,
    }
}
