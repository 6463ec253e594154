// One change of a declaration makes a stylesheet that is no more closed.
use crate::made::{is_closed, name, text, with_body};
use std::alloc::AllocGlobal;
use std::mem::replace;
use std::process::Abort;
use xt_names::List;
use xt_sheets::{Level, Sheet, SpaceRule, copy_global_list, copy_sheet_function_list};
use xt_types::{Axis, NameTest};

#[derive(Clone, Copy)]
enum Change {
    Nothing,
    SecondGlobal,
    SecondFunction,
    OtherOrder,
    NoGlobals,
    NoFunctions,
    NoUri,
    NoKeys,
    NoModes,
    NoTemplates,
    OtherTemplate,
    NoName,
    OtherMode,
    OtherPrecedence,
    LaterLevel,
    NoLevel,
    SpaceOf(&'static str),
    OtherAxis,
    Unrooted,
}

fn change_rules(rt: &(impl Abort + AllocGlobal), sheet: &mut Sheet, change: Change) {
    let rules = replace(&mut sheet.rules, List::new(rt.alloc()));
    let mut rules = rules.into_vec();
    if rules.len() < 2 {
        panic!(rt; "two rules");
    }
    match change {
        Change::OtherTemplate => rules[0].template = 9,
        Change::OtherMode => rules[0].modes.push(9).expect(rt, "memory"),
        Change::OtherPrecedence => rules[0].precedence = 2,
        Change::Unrooted => rules[0].pattern.rooted = false,
        _ => {
            let steps = replace(&mut rules[1].pattern.steps, List::new(rt.alloc()));
            let mut steps = steps.into_vec();
            if steps.is_empty() {
                panic!(rt; "a step");
            }
            steps[0].axis = Axis::Parent;
            rules[1].pattern.steps = List::of_vec(steps);
        }
    }
    sheet.rules = List::of_vec(rules);
}

fn take_uri(rt: &(impl Abort + AllocGlobal), sheet: &mut Sheet) {
    let functions = replace(&mut sheet.functions, List::new(rt.alloc()));
    let mut functions = functions.into_vec();
    if functions.is_empty() {
        panic!(rt; "a function");
    }
    functions[0].name = name(rt, "", "f");
    sheet.functions = List::of_vec(functions);
}

fn take_name(rt: &(impl Abort + AllocGlobal), sheet: &mut Sheet) {
    let templates = replace(&mut sheet.templates, List::new(rt.alloc()));
    let mut templates = templates.into_vec();
    if templates.len() < 3 {
        panic!(rt; "three templates");
    }
    templates[0].name = None;
    sheet.templates = List::of_vec(templates);
}

fn reverse_globals(rt: &(impl Abort + AllocGlobal), sheet: &mut Sheet) {
    let globals = replace(&mut sheet.globals, List::new(rt.alloc()));
    let mut globals = globals.into_vec();
    globals.reverse();
    sheet.globals = List::of_vec(globals);
}

fn push_level(rt: &(impl Abort + AllocGlobal), sheet: &mut Sheet, first: u32) {
    sheet.levels.push(Level { first }).expect(rt, "memory");
}

fn push_space(rt: &(impl Abort + AllocGlobal), sheet: &mut Sheet, uri: &str) {
    let test = NameTest::Uri(text(rt, uri));
    let rule = SpaceRule { strip: true, test };
    sheet.space.push(rule).expect(rt, "memory");
}

fn push_globals(rt: &(impl Abort + AllocGlobal), sheet: &mut Sheet) {
    let more = copy_global_list(&sheet.globals).expect(rt, "memory");
    for global in more.into_vec() {
        sheet.globals.push(global).expect(rt, "memory");
    }
}

fn push_functions(rt: &(impl Abort + AllocGlobal), sheet: &mut Sheet) {
    let more = copy_sheet_function_list(&sheet.functions).expect(rt, "memory");
    for function in more.into_vec() {
        sheet.functions.push(function).expect(rt, "memory");
    }
}

fn make(rt: &(impl Abort + AllocGlobal), sheet: &mut Sheet, change: Change) {
    match change {
        Change::Nothing => {}
        Change::SecondGlobal => push_globals(rt, sheet),
        Change::SecondFunction => push_functions(rt, sheet),
        Change::OtherOrder => reverse_globals(rt, sheet),
        Change::NoGlobals => sheet.globals = List::new(rt.alloc()),
        Change::NoFunctions => sheet.functions = List::new(rt.alloc()),
        Change::NoUri => take_uri(rt, sheet),
        Change::NoKeys => sheet.keys = List::new(rt.alloc()),
        Change::NoModes => sheet.modes = List::new(rt.alloc()),
        Change::NoTemplates => sheet.templates = List::new(rt.alloc()),
        Change::NoName => take_name(rt, sheet),
        Change::LaterLevel => push_level(rt, sheet, 3),
        Change::NoLevel => push_level(rt, sheet, 0),
        Change::SpaceOf(uri) => push_space(rt, sheet, uri),
        Change::OtherTemplate
        | Change::OtherMode
        | Change::OtherPrecedence
        | Change::OtherAxis
        | Change::Unrooted => change_rules(rt, sheet, change),
    }
}

fn is_closed_with(rt: &(impl Abort + AllocGlobal), of: &str, change: Change) -> bool {
    let mut sheet = with_body(rt, of);
    make(rt, &mut sheet, change);
    is_closed(rt, sheet)
}

#[test]
fn declarations(rt: HostRuntime) {
    let cases = [
        ("no uri of white space", Change::SpaceOf("")),
        (
            "the uri of xmlns",
            Change::SpaceOf("http://www.w3.org/2000/xmlns/"),
        ),
        ("a global twice", Change::SecondGlobal),
        ("a function twice", Change::SecondFunction),
        ("h before g", Change::OtherOrder),
        ("no globals", Change::NoGlobals),
        ("no functions", Change::NoFunctions),
        ("a function without uri", Change::NoUri),
        ("no keys", Change::NoKeys),
        ("no modes", Change::NoModes),
        ("no templates", Change::NoTemplates),
        ("a rule of another template", Change::OtherTemplate),
        ("a call of a template without name", Change::NoName),
        ("a rule in another mode", Change::OtherMode),
        ("a rule of another precedence", Change::OtherPrecedence),
        ("a level of later ones", Change::LaterLevel),
        ("a level of none", Change::NoLevel),
        ("an axis that patterns have not", Change::OtherAxis),
        ("no step and no root", Change::Unrooted),
    ];
    let of = "<xsl:sequence select='$h, p:f(1), key(\"k\", 1)'/>";
    assert!(rt; is_closed_with(&rt, of, Change::Nothing), "as loaded");
    for (what, change) in cases {
        assert!(rt; !is_closed_with(&rt, of, change), "{what}");
    }
    let free = "<xsl:sequence select='1'/>";
    assert!(rt;
        is_closed_with(&rt, free, Change::SpaceOf("urn:u")),
        "a uri"
    );
}
