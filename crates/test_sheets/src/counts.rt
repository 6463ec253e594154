// How many modules stylesheets have.
use crate::made::{is_said, repeated, sheet};
use import_tree::{SheetFault, load_sheet};
use std::alloc::AllocGlobal;
use std::process::Abort;
use xt_io::MemFiles;

// A name for the module with this number, of as many letters.
fn file_name(rt: &(impl Abort + AllocGlobal), number: usize) -> String {
    let mut out = repeated(rt, "a", number);
    out.push_str(".xsl").expect(rt, "memory");
    out
}

fn linked(rt: &(impl Abort + AllocGlobal), number: usize) -> String {
    let next = file_name(rt, number);
    let content = format!(in rt.alloc(); "<xsl:import href='{next}'/>").expect(rt, "memory");
    let text = sheet(rt, content.as_str());
    drop(content);
    drop(next);
    text
}

// What is said of a chain of so many modules, of which each imports the next.
fn chain_is_said(rt: &(impl Abort + AllocGlobal), count: usize, code: &str) -> bool {
    let mut files = MemFiles::new(rt.alloc());
    let first = linked(rt, 1);
    files.add("s.xsl", first.as_bytes()).expect(rt, "memory");
    drop(first);
    for number in 1..count {
        let name = file_name(rt, number);
        let text = if number + 1 < count {
            linked(rt, number + 1)
        } else {
            sheet(rt, "")
        };
        files
            .add(name.as_str(), text.as_bytes())
            .expect(rt, "memory");
        drop(name);
        drop(text);
    }
    let made = load_sheet(rt.alloc(), &mut files, "s.xsl");
    drop(files);
    match made {
        Ok(sheet) => {
            let same = code == "" && sheet.levels.len() == count;
            drop(sheet);
            same
        }
        Err(SheetFault::Static(found)) => found.text() == code,
        Err(fault) => {
            drop(fault);
            false
        }
    }
}

#[test]
fn chains_of_modules(rt: HostRuntime) {
    assert!(rt; chain_is_said(&rt, 2, ""), "two");
    assert!(rt; chain_is_said(&rt, 64, ""), "as many as there may be");
    assert!(rt; chain_is_said(&rt, 65, "XTLM0003"), "one more");
}

// What is said of a stylesheet that includes one module so many times.
fn fan_is_said(rt: &(impl Abort + AllocGlobal), count: usize, code: &str) -> bool {
    let links = repeated(rt, "<xsl:include href='a.xsl'/>", count);
    let first = sheet(rt, links.as_str());
    let second = sheet(rt, "");
    let files = [("s.xsl", first.as_str()), ("a.xsl", second.as_str())];
    let same = is_said(rt, &files, code);
    drop(links);
    drop(first);
    drop(second);
    same
}

#[test]
fn fans_of_modules(rt: HostRuntime) {
    assert!(rt; fan_is_said(&rt, 63, ""), "as many as there may be");
    assert!(rt; fan_is_said(&rt, 64, "XTLM0003"), "one more");
}
