// Large stylesheets. `rt try` takes several times as long as the program that is built, and the
// sizes are such that it ends within a minute too.
use crate::made::{is_said, load, repeated, sheet, sheet_gets};
use import_tree::{SheetFault, load_sheet};
use sheet_closure::sheet_closed;
use std::alloc::AllocGlobal;
use std::process::Abort;
use xt_io::MemFiles;
use xt_sheets::Sheet;

// The numbers from 0, each between these two texts and before the third.
fn numbered(
    rt: &(impl Abort + AllocGlobal),
    before: &str,
    between: &str,
    behind: &str,
    count: usize,
) -> String {
    let mut out = String::new(rt.alloc());
    for number in 0..count {
        let one = format!(in rt.alloc(); "{before}{number}{between}{number}{behind}");
        let one = one.expect(rt, "memory");
        out.push_str(one.as_str()).expect(rt, "memory");
        drop(one);
    }
    out
}

// The stylesheet with this content.
fn taken(rt: &(impl Abort + AllocGlobal), content: &str) -> Sheet {
    let text = sheet(rt, content);
    let made = load(rt, &[("s.xsl", text.as_str())]);
    drop(text);
    match made {
        Ok(sheet) => sheet,
        Err(_) => panic!(rt; "refused"),
    }
}

// As many templates with names, of which each calls itself.
#[test]
fn named_templates(rt: HostRuntime) {
    let content = numbered(
        &rt,
        "<xsl:template name='t",
        "'><xsl:call-template name='t",
        "'/></xsl:template>",
        10_000,
    );
    let sheet = taken(&rt, content.as_str());
    assert!(rt; sheet.templates.len() == 10_000, "templates");
    assert!(rt; sheet.rules.len() == 0, "rules");
    drop(sheet);
    drop(content);
}

// As many rules, each in a mode of its own.
#[test]
fn modes(rt: HostRuntime) {
    let content = numbered(
        &rt,
        "<xsl:template match='a' mode='m",
        "'><xsl:apply-templates mode='m",
        "'/></xsl:template>",
        5_000,
    );
    let sheet = taken(&rt, content.as_str());
    assert!(rt; sheet.rules.len() == 5_000, "rules");
    assert!(rt; sheet.modes.len() == 5_001, "modes");
    drop(sheet);
    drop(content);
}

// As many keys, each of which is asked for.
#[test]
fn keys(rt: HostRuntime) {
    let content = numbered(
        &rt,
        "<xsl:key name='k",
        "' match='a' use='b'/><xsl:template match='c[d]'><xsl:copy-of select='key(&quot;k",
        "&quot;, 1)'/></xsl:template>",
        2_000,
    );
    let sheet = taken(&rt, content.as_str());
    assert!(rt; sheet.keys.len() == 2_000, "keys");
    drop(sheet);
    drop(content);
}

// Whether the global of this name is there.
fn is_global(sheet: &Sheet, place: usize, name: &str) -> bool {
    match sheet.globals.as_slice().get(place) {
        Some(global) => global.bound.name.local.as_str() == name,
        None => false,
    }
}

// As many global variables, each of which names the last one, and as many functions, of which that
// one calls one.
#[test]
fn globals_and_functions(rt: HostRuntime) {
    let content = numbered(
        &rt,
        "<xsl:variable name='y",
        "' select='$x'/><xsl:function name='p:f",
        "'/>",
        5_000,
    );
    let last = "<xsl:variable name='x' select='p:f7()'/>";
    let all = format!(in rt.alloc(); "{content}{last}").expect(&rt, "memory");
    let sheet = taken(&rt, all.as_str());
    assert!(rt; sheet.globals.len() == 5_001, "globals");
    assert!(rt; sheet.functions.len() == 5_000, "functions");
    assert!(rt; is_global(&sheet, 0, "x"), "x is evaluated first");
    drop(sheet);
    drop(all);
    drop(content);
}

// As many global variables, each of which calls one function, which names as many others.
#[test]
fn globals_through_a_function(rt: HostRuntime) {
    let callers = numbered(
        &rt,
        "<xsl:variable name='y",
        "' select='p:f(",
        ")'/>",
        5_000,
    );
    let named = numbered(&rt, "<xsl:variable name='x", "' select='", "'/>", 5_000);
    let names = numbered(&rt, " or $x", " = ", "", 5_000);
    let all = format!(in rt.alloc();
        "{callers}{named}<xsl:function name='p:f'><xsl:param name='a'/>\
        <xsl:sequence select='false(){names}'/></xsl:function>"
    );
    let all = all.expect(&rt, "memory");
    let sheet = taken(&rt, all.as_str());
    assert!(rt; sheet.globals.len() == 10_000, "globals");
    assert!(rt;
        is_global(&sheet, 0, "x0"),
        "those that are named are evaluated first"
    );
    assert!(rt; is_global(&sheet, 5_000, "y0"), "and then the others");
    let is_closed = sheet_closed(&sheet).expect(&rt, "memory");
    assert!(rt; is_closed, "closed");
    drop(sheet);
    drop(all);
    drop(names);
    drop(named);
    drop(callers);
}

// As many global variables, each of which calls one function, which names all of them.
#[test]
fn globals_in_circles(rt: HostRuntime) {
    let callers = numbered(
        &rt,
        "<xsl:variable name='y",
        "' select='p:f(",
        ")'/>",
        5_000,
    );
    let names = numbered(&rt, " or $y", " = ", "", 5_000);
    let all = format!(in rt.alloc();
        "{callers}<xsl:function name='p:f'><xsl:param name='a'/>\
        <xsl:sequence select='false(){names}'/></xsl:function>"
    );
    let all = all.expect(&rt, "memory");
    drop(names);
    drop(callers);
    assert!(rt; sheet_gets(&rt, all.as_str(), "XTDE0640"), "circles");
    drop(all);
}

// As many attributes in one tag.
#[test]
fn attributes(rt: HostRuntime) {
    let attributes = numbered(&rt, " b", "='", "'", 30_000);
    let content = format!(in rt.alloc(); "<xsl:template match='a'><b{attributes}/></xsl:template>");
    let content = content.expect(&rt, "memory");
    drop(attributes);
    assert!(rt; sheet_gets(&rt, content.as_str(), ""), "literal element");
    drop(content);
}

// Elements within one another, of which documents have at most 2,000 (the first is the stylesheet).
#[test]
fn nested_elements(rt: HostRuntime) {
    let front = repeated(&rt, "<b>", 40_000);
    let back = repeated(&rt, "</b>", 40_000);
    let content = format!(in rt.alloc(); "<xsl:template match='a'>{front}{back}</xsl:template>");
    let content = content.expect(&rt, "memory");
    drop(front);
    drop(back);
    assert!(rt;
        sheet_gets(&rt, content.as_str(), "malformed s.xsl"),
        "40,000"
    );
    drop(content);
}

// As many elements within one another, each of which declares a prefix.
fn declaring(rt: &(impl Abort + AllocGlobal), before: &str, behind: &str, count: usize) -> String {
    let front = numbered(rt, "<b xmlns:n", "='u", "'>", count);
    let back = repeated(rt, "</b>", count);
    let made = format!(in rt.alloc(); "{before}{front}<b/>{back}{behind}").expect(rt, "memory");
    drop(front);
    drop(back);
    made
}

#[test]
fn nested_declarations(rt: HostRuntime) {
    let passed = declaring(&rt, "<p:a>", "</p:a>", 1_997);
    assert!(rt; sheet_gets(&rt, passed.as_str(), ""), "passed over");
    drop(passed);
    let read = declaring(&rt, "<xsl:template match='a'>", "</xsl:template>", 1_997);
    assert!(rt; sheet_gets(&rt, read.as_str(), "XTLM0004"), "read");
    drop(read);
}

// A module of one byte more than files may have.
#[test]
fn bytes_of_a_module(rt: HostRuntime) {
    let first = sheet(&rt, "<xsl:include href='a.xsl'/>");
    let second = vec![in rt.alloc(); b' '; 67_108_865].expect(&rt, "memory");
    let mut files = MemFiles::new(rt.alloc());
    files.add("s.xsl", first.as_bytes()).expect(&rt, "memory");
    files.add("a.xsl", &second).expect(&rt, "memory");
    drop(first);
    drop(second);
    let is_long = match load_sheet(rt.alloc(), &mut files, "s.xsl") {
        Ok(sheet) => {
            drop(sheet);
            false
        }
        Err(SheetFault::TooLong(name, length)) => {
            let same = name.as_str() == "a.xsl" && length == 67_108_865;
            drop(name);
            same
        }
        Err(fault) => {
            drop(fault);
            false
        }
    };
    assert!(rt; is_long, "too long");
    drop(files);
}

// A module of a large stylesheet that is not there.
#[test]
fn a_missing_module(rt: HostRuntime) {
    let links = repeated(&rt, "<xsl:include href='a.xsl'/>", 10_000);
    let text = sheet(&rt, links.as_str());
    assert!(rt;
        is_said(&rt, &[("s.xsl", text.as_str())], "load a.xsl"),
        "the first link"
    );
    drop(text);
    drop(links);
}
