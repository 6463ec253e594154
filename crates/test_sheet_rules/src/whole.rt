// The stylesheet that declarations make up, and the rule that it is refused for.
use crate::declared::{Told, declarations};
use crate::made::name;
use expr_names::ResolveFault;
use loaded_sheets::whole_sheet;
use sheet_modules::sheet_levels::SheetLevel;
use sheet_values::sheet_texts::NameTable;
use std::alloc::AllocGlobal;
use std::process::Abort;
use xt_names::List;
use xt_sheets::Sheet;

fn table(rt: &(impl Abort + AllocGlobal), names: &[&str]) -> NameTable {
    let mut table = NameTable::new(rt.alloc());
    for local in names {
        let name = name(rt, "", local);
        table.add(&name).expect(rt, "memory");
        drop(name);
    }
    table
}

// So many levels of one module each, without pieces.
fn levels(rt: &(impl Abort + AllocGlobal), count: usize) -> List<SheetLevel> {
    let mut levels = List::new(rt.alloc());
    for place in 0..count {
        let spans = List::new(rt.alloc());
        levels
            .push(SheetLevel { first: 1, spans })
            .expect(rt, "memory");
    }
    levels
}

// The names of the globals in their order, with a space between them.
fn globals_told(rt: &(impl Abort + AllocGlobal), sheet: &Sheet) -> String {
    let mut out = String::new(rt.alloc());
    for (place, global) in sheet.globals.as_slice().iter().enumerate() {
        if place > 0 {
            out.push_str(" ").expect(rt, "memory");
        }
        out.push_str(global.bound.name.local.as_str())
            .expect(rt, "memory");
    }
    out
}

fn told(rt: &(impl Abort + AllocGlobal), made: Result<Sheet, ResolveFault>) -> String {
    match made {
        Ok(sheet) => {
            let out = globals_told(rt, &sheet);
            drop(sheet);
            out
        }
        Err(ResolveFault::Static(code)) => {
            let mut out = String::new(rt.alloc());
            out.push_str(code.text()).expect(rt, "memory");
            out
        }
        Err(ResolveFault::Memory(_)) => panic!(rt; "memory"),
    }
}

// Of these declarations, with their precedences, and calls of templates of these names, the globals
// in order, or the code of the rule that is broken.
fn gives(
    rt: &(impl Abort + AllocGlobal),
    all: &[(u32, Told)],
    called: &[&str],
    wanted: &str,
) -> bool {
    let declarations = declarations(rt, all);
    let modes = table(rt, &[""]);
    let called = table(rt, called);
    let levels = levels(rt, 2);
    assert!(rt; levels.len() < 4_294_967_295, "levels");
    let made = whole_sheet(
        rt.alloc(),
        declarations.as_slice(),
        &modes,
        &called,
        levels.as_slice(),
    );
    drop(declarations);
    drop(modes);
    drop(called);
    drop(levels);
    let found = told(rt, made);
    let same = found.as_str() == wanted;
    drop(found);
    same
}

#[test]
fn orders_of_globals(rt: HostRuntime) {
    let apart = [(1, Told::Variable("x", "1")), (1, Told::Variable("y", "2"))];
    assert!(rt; gives(&rt, &apart, &[], "x y"), "as they are declared");
    let behind = [
        (1, Told::Variable("x", "$y + $z")),
        (1, Told::Variable("y", "$z")),
        (1, Told::Variable("z", "1")),
        (1, Told::Variable("w", "1")),
    ];
    assert!(rt;
        gives(&rt, &behind, &[], "z y x w"),
        "behind what they name"
    );
    let function = [
        (1, Told::Variable("x", "f()")),
        (1, Told::Function("f", "$y")),
        (1, Told::Variable("y", "1")),
    ];
    assert!(rt; gives(&rt, &function, &[], "y x"), "through a function");
    let template = [
        (1, Told::Calls("x", 0)),
        (1, Told::Template("t", "$y")),
        (1, Told::Variable("y", "1")),
    ];
    assert!(rt; gives(&rt, &template, &["t"], "y x"), "through a template");
}

#[test]
fn circles_of_globals(rt: HostRuntime) {
    let itself = [(1, Told::Variable("x", "$x"))];
    assert!(rt; gives(&rt, &itself, &[], "XTDE0640"), "itself");
    let two = [
        (1, Told::Variable("x", "$y")),
        (1, Told::Variable("y", "$x")),
    ];
    assert!(rt; gives(&rt, &two, &[], "XTDE0640"), "two");
    let function = [
        (1, Told::Variable("x", "f()")),
        (1, Told::Function("f", "$x")),
    ];
    assert!(rt;
        gives(&rt, &function, &[], "XTDE0640"),
        "through a function"
    );
    let template = [(1, Told::Calls("x", 0)), (1, Told::Template("t", "$x"))];
    assert!(rt;
        gives(&rt, &template, &["t"], "XTDE0640"),
        "through a template"
    );
    let replaced = [
        (1, Told::Variable("x", "$y")),
        (1, Told::Variable("y", "$x")),
        (2, Told::Variable("y", "1")),
    ];
    assert!(rt; gives(&rt, &replaced, &[], "y x"), "one of it is replaced");
}

#[test]
fn the_rule_of_several(rt: HostRuntime) {
    let name = [(1, Told::Variable("x", "$x + $y"))];
    assert!(rt;
        gives(&rt, &name, &[], "XPST0008"),
        "a name before a circle"
    );
    let twice = [
        (1, Told::Variable("x", "$x")),
        (1, Told::Template("t", "1")),
        (1, Told::Template("t", "2")),
    ];
    assert!(rt;
        gives(&rt, &twice, &["t"], "XTSE0660"),
        "a name twice before a circle"
    );
    let missing = [
        (1, Told::Variable("x", "$x")),
        (1, Told::Template("t", "1")),
    ];
    assert!(rt;
        gives(&rt, &missing, &["u"], "XTSE0650"),
        "no template before a circle"
    );
    let key = [
        (1, Told::Variable("x", "$x")),
        (1, Told::Function("f", "key('k', 1)")),
    ];
    assert!(rt; gives(&rt, &key, &[], "XTDE0640"), "a circle before a key");
}
