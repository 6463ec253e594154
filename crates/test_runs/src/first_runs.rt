// Stylesheets of the first form, run on documents.
use crate::made::{nested, sheet, tree, widening_sheet};
use sheet_reader::is_first_sheet;
use std::alloc::AllocGlobal;
use std::process::Abort;
use xslt_run::{EvalFault, run_first_sheet};
use xt_names::{Code, DynamicCode};
use xt_tree::Tree;

// What a run is to end with.
#[derive(Clone, Copy)]
enum Want {
    /// A document of exactly one text, this one.
    Text(&'static str),
    /// A document of exactly one empty element, of this name.
    Element(&'static str),
    /// A document.
    Some,
    /// The error of a result with too many levels.
    TooLarge,
    /// More than 100 rules would be open.
    TooDeep,
}

fn is_wanted(tree: &Tree, want: Want) -> bool {
    match (tree.kids(), want) {
        (_, Want::Some) => true,
        ([Tree::Text(text)], Want::Text(wanted)) => text.is(wanted),
        ([Tree::Elem(name, _, kids)], Want::Element(wanted)) => {
            name.local.is(wanted) && kids.as_slice().is_empty()
        }
        _ => false,
    }
}

fn is_wanted_fault(fault: &EvalFault, want: Want) -> bool {
    match fault {
        EvalFault::Error(code) => {
            matches!(want, Want::TooLarge) && *code == Code::Dynamic(DynamicCode::XTLM0002)
        }
        EvalFault::Deep => matches!(want, Want::TooDeep),
        EvalFault::Memory(_) => false,
    }
}

fn ends_with(rt: &(impl Abort + AllocGlobal), sheet: &str, document: &str, want: Want) -> bool {
    let sheet = tree(rt, sheet);
    let document = tree(rt, document);
    if !is_first_sheet(&sheet) {
        panic!(rt; "no stylesheet");
    }
    let is_wanted = match run_first_sheet(rt.alloc(), &sheet, &document, 100) {
        Ok(result) => {
            let is_wanted = is_wanted(&result, want);
            drop(result);
            is_wanted
        }
        Err(fault) => is_wanted_fault(&fault, want),
    };
    drop(sheet);
    drop(document);
    is_wanted
}

const SAMPLE: &str = "<a>x<!--c--><b>y</b></a>";

// The parts of a stylesheet, a document, and what the run ends with: texts by the built-in rules,
// which become one; of two templates the last; the children twice, where a template says so; an
// element, and no white space beside it.
const RUNS: [(&str, &str, Want); 4] = [
    ("", SAMPLE, Want::Text("xy")),
    (
        "<xsl:template match=\"a\">1</xsl:template><xsl:template match=\"a\">2</xsl:template>",
        "<a/>",
        Want::Text("2"),
    ),
    (
        "<xsl:template match=\"/\"><xsl:apply-templates/><xsl:apply-templates/></xsl:template>",
        SAMPLE,
        Want::Text("xyxy"),
    ),
    (
        "<xsl:template match=\"/\">\n <r/></xsl:template>",
        SAMPLE,
        Want::Element("r"),
    ),
];

#[test]
fn rules_and_texts(rt: HostRuntime) {
    for (parts, document, want) in RUNS {
        let sheet = sheet(&rt, parts);
        assert!(rt; ends_with(&rt, sheet.as_str(), document, want), "{parts}");
        drop(sheet);
    }
}

// The document and 99 elements need 100 rules.
#[test]
fn rules_that_are_open(rt: HostRuntime) {
    let sheet = sheet(&rt, "");
    for (count, want) in [(99, Want::Some), (100, Want::TooDeep)] {
        let document = nested(&rt, "a", count, "");
        assert!(rt;
            ends_with(&rt, sheet.as_str(), document.as_str(), want),
            "{count}"
        );
        drop(document);
    }
    drop(sheet);
}

// Whether a run of 39 levels for each element ends so; at most 2,000 levels are allowed.
fn widened(rt: &(impl Abort + AllocGlobal), count: usize, want: Want) -> bool {
    let sheet = widening_sheet(rt);
    let document = nested(rt, "a", count, "");
    let is_wanted = ends_with(rt, sheet.as_str(), document.as_str(), want);
    drop(sheet);
    drop(document);
    is_wanted
}

#[test]
fn levels_of_a_result(rt: HostRuntime) {
    assert!(rt; widened(&rt, 51, Want::Some));
    assert!(rt; widened(&rt, 52, Want::TooLarge));
}

// As many levels as 100 rules can open. `rt try` has too little stack for it, and a built program
// has enough.
#[test]
fn most_levels_of_a_result(rt: HostRuntime) {
    assert!(rt; widened(&rt, 99, Want::TooLarge));
}
