// Stylesheets of several modules.
use crate::made::{is_said, load, sheet};
use std::alloc::AllocGlobal;
use std::process::Abort;
use xt_sheets::Sheet;

// Whether this is said of the stylesheet whose modules have these names and contents.
fn are_said(rt: &(impl Abort + AllocGlobal), modules: &[(&str, &str)], wanted: &str) -> bool {
    match modules {
        [(a, one)] => {
            let one = sheet(rt, one);
            let same = is_said(rt, &[(*a, one.as_str())], wanted);
            drop(one);
            same
        }
        [(a, one), (b, two)] => {
            let one = sheet(rt, one);
            let two = sheet(rt, two);
            let files = [(*a, one.as_str()), (*b, two.as_str())];
            let same = is_said(rt, &files, wanted);
            drop(one);
            drop(two);
            same
        }
        [(a, one), (b, two), (c, three)] => {
            let one = sheet(rt, one);
            let two = sheet(rt, two);
            let three = sheet(rt, three);
            let files = [(*a, one.as_str()), (*b, two.as_str()), (*c, three.as_str())];
            let same = is_said(rt, &files, wanted);
            drop(one);
            drop(two);
            drop(three);
            same
        }
        _ => panic!(rt; "too many modules"),
    }
}

// Links that lead nowhere or in a circle (XSLT 2.0, 3.10.2 and 3.10.3).
#[test]
fn links(rt: HostRuntime) {
    let held = [
        (
            "s.xsl",
            "<xsl:import href='a.xsl'/><xsl:include href='a.xsl'/>",
        ),
        ("a.xsl", ""),
    ];
    assert!(rt; are_said(&rt, &held, ""), "what is there");
    let missing = [("s.xsl", "<xsl:import href='a.xsl'/>")];
    assert!(rt; are_said(&rt, &missing, "load a.xsl"), "no file");
    let itself = [("s.xsl", "<xsl:import href='s.xsl'/>")];
    assert!(rt; are_said(&rt, &itself, "XTSE0210"), "imports itself");
    let included = [("s.xsl", "<xsl:include href='s.xsl'/>")];
    assert!(rt; are_said(&rt, &included, "XTSE0180"), "includes itself");
    let circle = [
        ("s.xsl", "<xsl:include href='a.xsl'/>"),
        ("a.xsl", "<xsl:import href='s.xsl'/>"),
    ];
    assert!(rt; are_said(&rt, &circle, "XTSE0210"), "through another");
    let before = [("s.xsl", "<xsl:if/><xsl:import href='s.xsl'/>")];
    assert!(rt;
        are_said(&rt, &before, "XTSE0210"),
        "links before all other rules"
    );
    let late = [
        (
            "s.xsl",
            "<xsl:template name='a'/><xsl:import href='a.xsl'/>",
        ),
        ("a.xsl", ""),
    ];
    assert!(rt;
        are_said(&rt, &late, "XTSE0200"),
        "an import behind a declaration"
    );
    let behind = [
        (
            "s.xsl",
            "<xsl:template name='a'/><xsl:include href='a.xsl'/>",
        ),
        ("a.xsl", ""),
    ];
    assert!(rt; are_said(&rt, &behind, ""), "an include there");
    let within = [
        ("s.xsl", "<xsl:import href='a.xsl'><a/></xsl:import>"),
        ("a.xsl", ""),
    ];
    assert!(rt; are_said(&rt, &within, "XTSE0010"), "content");
}

// Files are found beside the module that names them (XSLT 2.0, 3.10.1).
#[test]
fn names_of_files(rt: HostRuntime) {
    let beside = [
        ("s.xsl", "<xsl:import href='d/a.xsl'/>"),
        ("d/a.xsl", "<xsl:import href='b.xsl'/>"),
        ("d/b.xsl", ""),
    ];
    assert!(rt; are_said(&rt, &beside, ""), "in the folder of the importer");
    let top = [
        ("s.xsl", "<xsl:import href='d/a.xsl'/>"),
        ("d/a.xsl", "<xsl:import href='b.xsl'/>"),
        ("b.xsl", ""),
    ];
    assert!(rt; are_said(&rt, &top, "load d/b.xsl"), "not at the top");
}

// A module that is imported is a document, and its root a stylesheet.
#[test]
fn texts_of_modules(rt: HostRuntime) {
    let cases = [
        ("<a>", "malformed d/a.xsl"),
        ("<a/>", "XTUN0001"),
        (
            "<xsl:transform version='2.0' xmlns:xsl='http://www.w3.org/1999/XSL/Transform'/>",
            "",
        ),
    ];
    let first = sheet(&rt, "<xsl:import href='d/a.xsl'/>");
    for (text, wanted) in cases {
        let files = [("s.xsl", first.as_str()), ("d/a.xsl", text)];
        assert!(rt; is_said(&rt, &files, wanted), "{text}");
    }
    drop(first);
}

// Declarations of higher precedence replace others (XSLT 2.0, 3.10.3).
#[test]
fn precedence(rt: HostRuntime) {
    let declared = "<xsl:variable name='v'/><xsl:function name='p:f'/><xsl:template name='t'/>";
    let imported = [
        (
            "s.xsl",
            "<xsl:import href='a.xsl'/><xsl:variable name='v'/><xsl:function name='p:f'/><xsl:template name='t'/>",
        ),
        ("a.xsl", declared),
    ];
    assert!(rt;
        are_said(&rt, &imported, ""),
        "what is imported is replaced"
    );
    let included = [
        (
            "s.xsl",
            "<xsl:include href='a.xsl'/><xsl:variable name='v'/>",
        ),
        ("a.xsl", declared),
    ];
    assert!(rt;
        are_said(&rt, &included, "XTSE0630"),
        "what is included is not"
    );
    let twice = [
        (
            "s.xsl",
            "<xsl:include href='a.xsl'/><xsl:include href='a.xsl'/>",
        ),
        ("a.xsl", "<xsl:template name='t'/>"),
    ];
    assert!(rt;
        are_said(&rt, &twice, "XTSE0660"),
        "one that is included twice"
    );
    let both = [
        (
            "s.xsl",
            "<xsl:import href='a.xsl'/><xsl:import href='a.xsl'/>",
        ),
        ("a.xsl", declared),
    ];
    assert!(rt; are_said(&rt, &both, ""), "one that is imported twice");
    let from = [
        (
            "s.xsl",
            "<xsl:import href='a.xsl'/><xsl:variable name='v' select='p:f()'/>",
        ),
        (
            "a.xsl",
            "<xsl:function name='p:f'><xsl:value-of select='$v'/></xsl:function>",
        ),
    ];
    assert!(rt; are_said(&rt, &from, "XTDE0640"), "a circle through both");
    let outputs = [
        (
            "s.xsl",
            "<xsl:import href='a.xsl'/><xsl:output omit-xml-declaration='no'/>",
        ),
        ("a.xsl", "<xsl:output omit-xml-declaration='yes'/>"),
    ];
    assert!(rt; are_said(&rt, &outputs, ""), "outputs");
}

// Rules of single modules, in the order of loading, come before those of the whole stylesheet.
#[test]
fn which_rule_comes_first(rt: HostRuntime) {
    let own = [
        (
            "s.xsl",
            "<xsl:import href='a.xsl'/><xsl:variable name='v' select='$w'/>",
        ),
        ("a.xsl", "<xsl:template/>"),
    ];
    assert!(rt; are_said(&rt, &own, "XTSE0500"), "of a module alone");
    let first = [
        (
            "s.xsl",
            "<xsl:import href='a.xsl'/><xsl:function name='f'/>",
        ),
        ("a.xsl", "<xsl:template/>"),
    ];
    assert!(rt; are_said(&rt, &first, "XTSE0740"), "of the first module");
    let wide = [
        (
            "s.xsl",
            "<xsl:import href='a.xsl'/><xsl:key name='k' match='a' use='p:f()'/>",
        ),
        (
            "a.xsl",
            "<xsl:function name='p:f'/><xsl:template name='t'/><xsl:template name='t'/>",
        ),
    ];
    assert!(rt; are_said(&rt, &wide, "XTSE0660"), "in the written order");
    let loaded = [("s.xsl", "<xsl:template/><xsl:include href='a.xsl'/>")];
    assert!(rt;
        are_said(&rt, &loaded, "load a.xsl"),
        "all is loaded before"
    );
    assert!(rt;
        is_said(&rt, &[("a.xsl", "")], "load s.xsl"),
        "the first file"
    );
}

const COMMON: &str = "<xsl:template name='money'><xsl:param name='c' as='xs:integer'/>\
    <xsl:value-of select='$c idiv 100'/>.<xsl:value-of select='substring(string(100 + $c mod 100), 2)'/>\
    </xsl:template><xsl:template match='title'><i><xsl:apply-templates/></i></xsl:template>\
    <xsl:template match='note' mode='#all'/>";

const CATALOGUE: &str = "<xsl:import href='common.xsl'/><xsl:output method='xml' indent='yes'/>\
    <xsl:key name='by-id' match='author' use='@id'/><xsl:template match='/catalogue'><report>\
    <xsl:for-each-group select='book' group-by='@year'>\
    <xsl:sort select='current-grouping-key()' data-type='number' order='descending'/>\
    <year n='{current-grouping-key()}' books='{count(current-group())}'>\
    <xsl:apply-templates select='current-group()'><xsl:sort select='title'/>\
    </xsl:apply-templates></year></xsl:for-each-group><toc>\
    <xsl:apply-templates select='book' mode='toc'/></toc></report></xsl:template>\
    <xsl:template match='book'><b by='{key(&quot;by-id&quot;, @author)/@name}'>\
    <xsl:apply-templates select='title, note'/><xsl:text> </xsl:text>\
    <xsl:call-template name='money'><xsl:with-param name='c' select='xs:integer(@cents)'/>\
    </xsl:call-template></b></xsl:template><xsl:template match='title'>\
    <xsl:value-of select='position()'/>:<xsl:apply-imports/></xsl:template>\
    <xsl:template match='book' mode='toc'><e><xsl:value-of select='title'/></e>\
    </xsl:template><xsl:template match='book[@cents &gt; 2000]' mode='toc'>\
    <xsl:next-match/>!</xsl:template>";

// Whether the rules have these templates, precedences, priorities and modes.
fn are_rules(sheet: &Sheet, all: &[(u32, u32, i64, &[u32])]) -> bool {
    let mut left = sheet.rules.as_slice();
    for (template, precedence, priority, modes) in all {
        match left {
            [] => return false,
            [rule, rest @ ..] => {
                let same = rule.template == *template
                    && rule.precedence == *precedence
                    && rule.priority == *priority
                    && rule.modes.as_slice() == *modes;
                if !same {
                    return false;
                }
                left = rest;
            }
        }
    }
    left.is_empty()
}

#[test]
fn a_whole_stylesheet(rt: HostRuntime) {
    let first = sheet(&rt, CATALOGUE);
    let common = sheet(&rt, COMMON);
    let files = [("s.xsl", first.as_str()), ("common.xsl", common.as_str())];
    match load(&rt, &files) {
        Err(_) => panic!(rt; "refused"),
        Ok(sheet) => {
            assert!(rt; sheet.levels.len() == 2, "levels");
            assert!(rt; sheet.templates.len() == 8, "templates");
            assert!(rt; sheet.modes.len() == 2, "modes");
            assert!(rt; sheet.keys.len() == 1, "keys");
            assert!(rt; sheet.globals.len() == 0, "globals");
            let rules: [(u32, u32, i64, &[u32]); 7] = [
                (1, 1, 0, &[0]),
                (2, 1, 0, &[0, 1]),
                (3, 2, 500, &[0]),
                (4, 2, 0, &[0]),
                (5, 2, 0, &[0]),
                (6, 2, 0, &[1]),
                (7, 2, 500, &[1]),
            ];
            assert!(rt; are_rules(&sheet, &rules), "rules");
            drop(sheet);
        }
    }
    drop(first);
    drop(common);
}
