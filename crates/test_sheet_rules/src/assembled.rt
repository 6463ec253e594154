// What is in the stylesheet that declarations make up.
use crate::made::name;
use sheet_assembly::assemble;
use sheet_modules::sheet_levels::SheetLevel;
use sheet_modules::{ModeSet, Part, RulePart, TemplatePart};
use sheet_rules::sheet_declarations::Declaration;
use sheet_values::sheet_texts::NameTable;
use std::alloc::AllocGlobal;
use std::process::Abort;
use xt_names::{List, Shared};
use xt_sheets::Sheet;
use xt_syntax::{Expr, Pattern};
use xt_types::{NameTest, SpaceRule};

// What a declaration of a test declares.
#[derive(Clone, Copy)]
enum Told {
    // A template, with its name if it has one, and its rule of this priority in all modes.
    Rule(&'static str, i64),
    // .. in the mode with this number.
    InMode(&'static str, u32),
    // A template that is only called.
    Named(&'static str),
    // White space below elements of the name, or of all, is stripped or kept.
    Space(&'static str, bool),
    // Whether the XML declaration is left out.
    Output(Option<bool>),
}

fn template_part(
    rt: &(impl Abort + AllocGlobal),
    local: &str,
    has_match: bool,
) -> TemplatePart<Expr, Pattern> {
    let named = if local == "" {
        None
    } else {
        Some(name(rt, "", local))
    };
    TemplatePart {
        name: named,
        params: List::new(rt.alloc()),
        kind: None,
        body: List::new(rt.alloc()),
        has_match,
    }
}

fn rules(
    rt: &(impl Abort + AllocGlobal),
    modes: ModeSet,
    priority: i64,
) -> List<RulePart<Pattern>> {
    let pattern = Pattern {
        rooted: true,
        steps: List::new(rt.alloc()),
    };
    let mut rules = List::new(rt.alloc());
    let rule = RulePart {
        pattern,
        modes,
        priority,
    };
    rules.push(rule).expect(rt, "memory");
    rules
}

fn in_mode(rt: &(impl Abort + AllocGlobal), mode: u32) -> ModeSet {
    let mut numbers = List::new(rt.alloc());
    numbers.push(mode).expect(rt, "memory");
    ModeSet::Numbers(Shared::make(rt.alloc(), numbers).expect(rt, "memory"))
}

fn space(rt: &(impl Abort + AllocGlobal), local: &str, strip: bool) -> Part<Expr, Pattern> {
    let test = if local == "" {
        NameTest::Any
    } else {
        NameTest::Exact(name(rt, "", local))
    };
    let mut rules = List::new(rt.alloc());
    rules.push(SpaceRule { test, strip }).expect(rt, "memory");
    Part::Space(rules)
}

fn part(rt: &(impl Abort + AllocGlobal), told: &Told) -> Part<Expr, Pattern> {
    match told {
        Told::Rule(local, priority) => {
            Part::Template(
                template_part(rt, local, true),
                rules(rt, ModeSet::All, *priority),
            )
        }
        Told::InMode(local, mode) => {
            Part::Template(
                template_part(rt, local, true),
                rules(rt, in_mode(rt, *mode), 0),
            )
        }
        Told::Named(local) => Part::Template(
            template_part(rt, local, false),
            List::new(rt.alloc()),
        ),
        Told::Space(local, strip) => space(rt, local, *strip),
        Told::Output(omit) => Part::Output(*omit),
    }
}

fn table(rt: &(impl Abort + AllocGlobal), names: &[&str]) -> NameTable {
    let mut table = NameTable::new(rt.alloc());
    for local in names {
        let name = name(rt, "", local);
        table.add(&name).expect(rt, "memory");
        drop(name);
    }
    table
}

fn declarations(
    rt: &(impl Abort + AllocGlobal),
    all: &[(u32, Told)],
) -> List<Declaration<Expr, Pattern>> {
    let mut made = List::new(rt.alloc());
    for (level, told) in all {
        let declaration = Declaration {
            level: *level,
            part: Shared::make(rt.alloc(), part(rt, told)).expect(rt, "memory"),
        };
        made.push(declaration).expect(rt, "memory");
    }
    made
}

// Two levels; the first is imported into the second.
fn levels(rt: &(impl Abort + AllocGlobal)) -> List<SheetLevel> {
    let mut levels = List::new(rt.alloc());
    let spans = List::new(rt.alloc());
    levels
        .push(SheetLevel { first: 1, spans })
        .expect(rt, "memory");
    let spans = List::new(rt.alloc());
    levels
        .push(SheetLevel { first: 1, spans })
        .expect(rt, "memory");
    levels
}

// As many names as have numbers.
const MOST: usize = 4_294_967_295;

// The stylesheet of these declarations, with their precedences, where the template t is called and
// the modes are the default one and m.
fn sheet(rt: &(impl Abort + AllocGlobal), all: &[(u32, Told)]) -> Sheet {
    let declarations = declarations(rt, all);
    let modes = table(rt, &["", "m"]);
    let called = table(rt, &["t"]);
    let levels = levels(rt);
    assert!(rt; modes.as_slice().len() < MOST, "modes");
    assert!(rt; called.as_slice().len() < MOST, "templates");
    assert!(rt; levels.len() < MOST, "levels");
    let made = assemble(
        rt.alloc(),
        declarations.as_slice(),
        &modes,
        &called,
        levels.as_slice(),
        &[],
    );
    drop(declarations);
    drop(modes);
    drop(called);
    drop(levels);
    made.expect(rt, "memory")
}

// Whether the templates have these names, where an empty one stands for none.
fn are_templates(sheet: &Sheet, names: &[&str]) -> bool {
    let mut left = sheet.templates.as_slice();
    for wanted in names {
        match left {
            [] => return false,
            [template, rest @ ..] => {
                let same = match &template.name {
                    None => *wanted == "",
                    Some(name) => name.local.as_str() == *wanted,
                };
                if !same {
                    return false;
                }
                left = rest;
            }
        }
    }
    left.is_empty()
}

// Whether the rules have these templates, precedences, priorities and modes.
fn are_rules(sheet: &Sheet, all: &[(u32, u32, i64, &[u32])]) -> bool {
    let mut left = sheet.rules.as_slice();
    for (template, precedence, priority, modes) in all {
        match left {
            [] => return false,
            [rule, rest @ ..] => {
                let same = rule.template == *template
                    && rule.precedence == *precedence
                    && rule.priority == *priority
                    && rule.modes.as_slice() == *modes;
                if !same {
                    return false;
                }
                left = rest;
            }
        }
    }
    left.is_empty()
}

// Whether white space is stripped or kept by these rules; an empty name stands for all.
fn are_spaces(sheet: &Sheet, all: &[(&str, bool)]) -> bool {
    let mut left = sheet.space.as_slice();
    for (local, strip) in all {
        match left {
            [] => return false,
            [rule, rest @ ..] => {
                let named = match &rule.test {
                    NameTest::Exact(name) => name.local.as_str() == *local,
                    NameTest::Any => *local == "",
                    NameTest::Uri(_) | NameTest::Local(_) => false,
                };
                if !named || rule.strip != *strip {
                    return false;
                }
                left = rest;
            }
        }
    }
    left.is_empty()
}

#[test]
fn templates_and_their_rules(rt: HostRuntime) {
    let all = [
        (1, Told::Rule("", 0)),
        (2, Told::Rule("t", 500)),
        (2, Told::InMode("", 1)),
        (2, Told::Named("u")),
    ];
    let sheet = sheet(&rt, &all);
    assert!(rt;
        are_templates(&sheet, &["t", "", "", "u"]),
        "what is called comes first"
    );
    let rules: [(u32, u32, i64, &[u32]); 3] = [
        (1, 1, 0, &[0, 1]),
        (0, 2, 500, &[0, 1]),
        (2, 2, 0, &[1]),
    ];
    assert!(rt; are_rules(&sheet, &rules), "rules by precedence");
    drop(sheet);
}

#[test]
fn templates_that_are_replaced(rt: HostRuntime) {
    let all = [
        (1, Told::Rule("t", 0)),
        (1, Told::Named("u")),
        (2, Told::Named("t")),
        (2, Told::Named("u")),
    ];
    let sheet = sheet(&rt, &all);
    assert!(rt;
        are_templates(&sheet, &["t", "", "u"]),
        "one that has a rule stays without its name"
    );
    let rules: [(u32, u32, i64, &[u32]); 1] = [(1, 1, 0, &[0, 1])];
    assert!(rt; are_rules(&sheet, &rules), "the rule stays");
    drop(sheet);
}

#[test]
fn rules_on_white_space(rt: HostRuntime) {
    let all = [
        (1, Told::Space("a", false)),
        (1, Told::Space("", true)),
        (2, Told::Space("", false)),
        (2, Told::Space("b", true)),
        (2, Told::Space("b", false)),
    ];
    let sheet = sheet(&rt, &all);
    let wanted = [
        ("b", false),
        ("b", true),
        ("", false),
        ("a", false),
        ("", true),
    ];
    assert!(rt;
        are_spaces(&sheet, &wanted),
        "precedence, then what the test says, then the last"
    );
    drop(sheet);
}

#[test]
fn declarations_of_the_output(rt: HostRuntime) {
    let last = [
        (1, Told::Output(Some(true))),
        (2, Told::Output(Some(false))),
        (2, Told::Output(None)),
    ];
    let said = sheet(&rt, &last);
    assert!(rt; !said.omit, "what the greatest precedence says");
    drop(said);
    let lower = [(1, Told::Output(Some(true))), (2, Told::Output(None))];
    let said = sheet(&rt, &lower);
    assert!(rt; said.omit, "one that says nothing");
    drop(said);
    let none = sheet(&rt, &[]);
    assert!(rt; !none.omit, "nothing is said");
    drop(none);
}
