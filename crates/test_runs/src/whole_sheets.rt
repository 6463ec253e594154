// Which documents are stylesheets of the first form.
use crate::made::{nested, sheet, tree};
use sheet_reader::is_first_sheet;
use std::alloc::AllocGlobal;
use std::process::Abort;

fn is_sheet(rt: &(impl Abort + AllocGlobal), text: &str) -> bool {
    let tree = tree(rt, text);
    let is_sheet = is_first_sheet(&tree);
    drop(tree);
    is_sheet
}

// The parts of a stylesheet, and whether that is one of the first form.
const PARTS: [(&str, bool); 6] = [
    ("", true),
    ("<!--c--> \n", true),
    ("<xsl:template match=\"a.b\"/>", true),
    ("<xsl:template match=\"a/b\"/>", false),
    ("<xsl:template match=\"a\" name=\"a\"/>", false),
    ("<xsl:template match=\"/\"><!--c--></xsl:template>", false),
];

#[test]
fn stylesheets_with_parts(rt: HostRuntime) {
    for (parts, wanted) in PARTS {
        let text = sheet(&rt, parts);
        assert!(rt; is_sheet(&rt, text.as_str()) == wanted, "{parts}");
        drop(text);
    }
}

// Other roots.
const OTHERS: [&str; 3] = [
    "<stylesheet/>",
    "<stylesheet version=\"2.0\"/>",
    "<xsl:stylesheet version=\"1.0\" xmlns:xsl=\"http://www.w3.org/1999/XSL/Transform\"/>",
];

#[test]
fn other_documents(rt: HostRuntime) {
    for text in OTHERS {
        assert!(rt; !is_sheet(&rt, text), "{text}");
    }
}

// At most 40 literal elements stand within each other.
#[test]
fn elements_within_each_other(rt: HostRuntime) {
    for (count, wanted) in [(40, true), (41, false)] {
        let inside = nested(&rt, "b", count, "t");
        let template = format!(in rt.alloc(); "<xsl:template match=\"/\">{inside}</xsl:template>");
        let text = sheet(&rt, template.expect(&rt, "memory").as_str());
        assert!(rt; is_sheet(&rt, text.as_str()) == wanted, "{count}");
        drop(text);
        drop(inside);
    }
}
