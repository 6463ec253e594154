// What is declared, and the rules that it breaks.
use crate::made::{FUNCTIONS, codes_told, name, shared};
use sheet_modules::{FunctionPart, GlobalPart, KeyPart, Part, TemplatePart};
use sheet_rules::push_broken_rules;
use sheet_rules::sheet_declarations::Declaration;
use std::alloc::AllocGlobal;
use std::process::Abort;
use xt_names::{ExprName, List, Shared};
use xt_sheets::{Bound, Grouping, Instr, Value};
use xt_syntax::{Expr, Pattern};

// What a declaration of a test declares.
#[derive(Clone, Copy)]
pub(crate) enum Told {
    // A variable, and its select.
    Variable(&'static str, &'static str),
    // A variable whose content calls the template with this number.
    Calls(&'static str, u32),
    // A function without parameters, and what it gives.
    Function(&'static str, &'static str),
    // A function with a parameter.
    Unary(&'static str),
    // A template with a name, and what it gives.
    Template(&'static str, &'static str),
    // A template without a name that groups by this.
    Groups(&'static str),
    // A key, and its use.
    Key(&'static str, &'static str),
    // An output that says whether the declaration is left out.
    Output(bool),
}

fn body_of(rt: &(impl Abort + AllocGlobal), instr: Instr) -> List<Instr> {
    let mut body = List::new(rt.alloc());
    body.push(instr).expect(rt, "memory");
    body
}

fn gives(rt: &(impl Abort + AllocGlobal), words: &str) -> List<Instr> {
    body_of(rt, Instr::Sequence(shared(rt, words)))
}

fn groups(rt: &(impl Abort + AllocGlobal), words: &str) -> List<Instr> {
    let sorts = Shared::make(rt.alloc(), List::new(rt.alloc())).expect(rt, "memory");
    let body = Shared::make(rt.alloc(), List::new(rt.alloc())).expect(rt, "memory");
    let key = Grouping::By(shared(rt, words));
    body_of(rt, Instr::ForEachGroup(shared(rt, "a"), key, sorts, body))
}

fn calls(rt: &(impl Abort + AllocGlobal), number: u32) -> Value {
    let passed = Shared::make(rt.alloc(), List::new(rt.alloc())).expect(rt, "memory");
    let body = body_of(rt, Instr::CallTemplate(number, passed));
    Value::Body(Shared::make(rt.alloc(), body).expect(rt, "memory"))
}

fn variable(rt: &(impl Abort + AllocGlobal), local: &str, value: Value) -> Part<Expr, Pattern> {
    let bound = Bound {
        name: name(rt, "", local),
        kind: None,
        value,
        tunnel: false,
    };
    Part::Global(GlobalPart {
        bound,
        param: false,
    })
}

fn function(
    rt: &(impl Abort + AllocGlobal),
    local: &str,
    params: List<Bound>,
    words: &str,
) -> Part<Expr, Pattern> {
    Part::Function(FunctionPart {
        name: name(rt, FUNCTIONS, local),
        params,
        kind: None,
        body: gives(rt, words),
    })
}

fn one_param(rt: &(impl Abort + AllocGlobal)) -> List<Bound> {
    let mut params = List::new(rt.alloc());
    let param = Bound {
        name: name(rt, "", "p"),
        kind: None,
        value: Value::Required,
        tunnel: false,
    };
    params.push(param).expect(rt, "memory");
    params
}

fn template(
    rt: &(impl Abort + AllocGlobal),
    name: Option<ExprName>,
    body: List<Instr>,
) -> Part<Expr, Pattern> {
    let part = TemplatePart {
        name,
        params: List::new(rt.alloc()),
        kind: None,
        body,
        has_match: false,
    };
    Part::Template(part, List::new(rt.alloc()))
}

fn key(rt: &(impl Abort + AllocGlobal), local: &str, words: &str) -> Part<Expr, Pattern> {
    let mut keys = List::new(rt.alloc());
    let part = KeyPart {
        name: name(rt, "", local),
        pattern: Pattern {
            rooted: true,
            steps: List::new(rt.alloc()),
        },
        key: shared(rt, words),
    };
    keys.push(part).expect(rt, "memory");
    Part::Key(keys)
}

fn part(rt: &(impl Abort + AllocGlobal), told: &Told) -> Part<Expr, Pattern> {
    match told {
        Told::Variable(local, words) => variable(rt, local, Value::Select(shared(rt, words))),
        Told::Calls(local, number) => variable(rt, local, calls(rt, *number)),
        Told::Function(local, words) => function(rt, local, List::new(rt.alloc()), words),
        Told::Unary(local) => function(rt, local, one_param(rt), "1"),
        Told::Template(local, words) => template(rt, Some(name(rt, "", local)), gives(rt, words)),
        Told::Groups(words) => template(rt, None, groups(rt, words)),
        Told::Key(local, words) => key(rt, local, words),
        Told::Output(omit) => Part::Output(Some(*omit)),
    }
}

// The declarations, with their precedences.
pub(crate) fn declarations(
    rt: &(impl Abort + AllocGlobal),
    all: &[(u32, Told)],
) -> List<Declaration<Expr, Pattern>> {
    let mut declarations = List::new(rt.alloc());
    for (level, told) in all {
        let declaration = Declaration {
            level: *level,
            part: Shared::make(rt.alloc(), part(rt, told)).expect(rt, "memory"),
        };
        declarations.push(declaration).expect(rt, "memory");
    }
    declarations
}

fn called_names(rt: &(impl Abort + AllocGlobal), called: &[&str]) -> List<ExprName> {
    let mut names = List::new(rt.alloc());
    for local in called {
        names.push(name(rt, "", local)).expect(rt, "memory");
    }
    names
}

// The codes of the rules that are broken by these declarations, with their precedences, and by
// calls of templates of these names.
fn broken(rt: &(impl Abort + AllocGlobal), all: &[(u32, Told)], called: &[&str]) -> String {
    let declarations = declarations(rt, all);
    let called = called_names(rt, called);
    let mut codes = List::new(rt.alloc());
    push_broken_rules(
        rt.alloc(),
        declarations.as_slice(),
        called.as_slice(),
        &[],
        &mut codes,
    )
    .expect(rt, "memory");
    drop(declarations);
    drop(called);
    let told = codes_told(rt, &codes);
    drop(codes);
    told
}

fn is_broken(
    rt: &(impl Abort + AllocGlobal),
    all: &[(u32, Told)],
    called: &[&str],
    wanted: &str,
) -> bool {
    let found = broken(rt, all, called);
    let same = found.as_str() == wanted;
    drop(found);
    same
}

#[test]
fn variables_twice(rt: HostRuntime) {
    let one = [(1, Told::Variable("v", "1")), (1, Told::Variable("v", "2"))];
    assert!(rt; is_broken(&rt, &one, &[], "XTSE0630"), "at one precedence");
    let two = [(1, Told::Variable("v", "1")), (2, Told::Variable("v", "2"))];
    assert!(rt; is_broken(&rt, &two, &[], ""), "at two");
    let lower = [
        (1, Told::Variable("v", "1")),
        (1, Told::Variable("v", "2")),
        (2, Told::Variable("v", "3")),
    ];
    assert!(rt; is_broken(&rt, &lower, &[], "XTSE0630"), "below a third");
}

#[test]
fn functions_twice(rt: HostRuntime) {
    let same = [(1, Told::Function("f", "1")), (1, Told::Function("f", "2"))];
    assert!(rt;
        is_broken(&rt, &same, &[], "XTSE0770"),
        "as many parameters"
    );
    let other = [(1, Told::Function("f", "1")), (1, Told::Unary("f"))];
    assert!(rt; is_broken(&rt, &other, &[], ""), "other parameters");
    let kinds = [(1, Told::Function("f", "1")), (1, Told::Variable("f", "1"))];
    assert!(rt; is_broken(&rt, &kinds, &[], ""), "other kinds");
}

#[test]
fn templates_twice(rt: HostRuntime) {
    let one = [(3, Told::Template("t", "1")), (3, Told::Template("t", "2"))];
    assert!(rt;
        is_broken(&rt, &one, &["t"], "XTSE0660"),
        "at one precedence"
    );
    let two = [(2, Told::Template("t", "1")), (3, Told::Template("t", "2"))];
    assert!(rt; is_broken(&rt, &two, &["t"], ""), "at two");
    let none = [(3, Told::Groups("1")), (3, Told::Groups("2"))];
    assert!(rt; is_broken(&rt, &none, &[], ""), "without names");
    assert!(rt;
        is_broken(&rt, &two, &["t", "u"], "XTSE0650"),
        "one is not declared"
    );
}

#[test]
fn names_that_are_not_declared(rt: HostRuntime) {
    let variable = [
        (1, Told::Variable("v", "$w")),
        (2, Told::Variable("v", "1")),
    ];
    assert!(rt;
        is_broken(&rt, &variable, &[], "XPST0008"),
        "in what is replaced"
    );
    let later = [
        (1, Told::Variable("v", "$w")),
        (1, Told::Variable("w", "1")),
    ];
    assert!(rt; is_broken(&rt, &later, &[], ""), "declared further behind");
    let function = [
        (1, Told::Template("t", "f(1)")),
        (1, Told::Function("f", "1")),
    ];
    assert!(rt;
        is_broken(&rt, &function, &[], "XPST0017"),
        "with other parameters"
    );
    let key = [
        (1, Told::Function("f", "key('k', 1)")),
        (1, Told::Key("j", "a")),
    ];
    assert!(rt; is_broken(&rt, &key, &[], "XTDE1260"), "another key");
    let known = [
        (1, Told::Function("f", "key('j', 1)")),
        (1, Told::Key("j", "a")),
    ];
    assert!(rt; is_broken(&rt, &known, &[], ""), "the key");
}

#[test]
fn calls_in_keys(rt: HostRuntime) {
    let groups = [(1, Told::Groups("f(a)")), (1, Told::Unary("f"))];
    assert!(rt; is_broken(&rt, &groups, &[], "XTUN0001"), "a grouping key");
    let key = [(1, Told::Key("k", "count(f(a))")), (1, Told::Unary("f"))];
    assert!(rt; is_broken(&rt, &key, &[], "XTUN0001"), "use of a key");
    let known = [
        (1, Told::Groups("count(a)")),
        (1, Told::Key("k", "count(a)")),
    ];
    assert!(rt; is_broken(&rt, &known, &[], ""), "functions that all have");
    let body = [(1, Told::Template("t", "f(a)")), (1, Told::Unary("f"))];
    assert!(rt; is_broken(&rt, &body, &[], ""), "no key");
}

#[test]
fn outputs(rt: HostRuntime) {
    let same = [(1, Told::Output(true)), (1, Told::Output(true))];
    assert!(rt; is_broken(&rt, &same, &[], ""), "the same");
    let other = [(1, Told::Output(true)), (1, Told::Output(false))];
    assert!(rt;
        is_broken(&rt, &other, &[], "XTSE1560"),
        "at one precedence"
    );
    let levels = [(1, Told::Output(true)), (2, Told::Output(false))];
    assert!(rt; is_broken(&rt, &levels, &[], ""), "at two");
    let lower = [
        (1, Told::Output(true)),
        (1, Told::Output(false)),
        (2, Told::Output(true)),
    ];
    assert!(rt; is_broken(&rt, &lower, &[], ""), "below a third");
}
