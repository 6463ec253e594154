// The files that links name (XSLT 2.0, 3.10.2).
use sheet_modules::module_names::resolve;
use std::alloc::AllocGlobal;
use std::process::Abort;
use xt_names::Text;

fn leads_to(rt: &(impl Abort + AllocGlobal), importer: &str, href: &str, wanted: &str) -> bool {
    let importer = Text::make(rt.alloc(), importer).expect(rt, "memory");
    let href = Text::make(rt.alloc(), href).expect(rt, "memory");
    let name = resolve(rt.alloc(), &importer, &href).expect(rt, "memory");
    let same = name.as_str() == wanted;
    drop(name);
    drop(href);
    drop(importer);
    same
}

#[test]
fn names_of_files(rt: HostRuntime) {
    assert!(rt; leads_to(&rt, "main.xsl", "a.xsl", "a.xsl"), "no folder");
    assert!(rt;
        leads_to(&rt, "sheets/main.xsl", "parts/a.xsl", "sheets/parts/a.xsl"),
        "a folder in the folder"
    );
    assert!(rt;
        leads_to(&rt, "a/b/main.xsl", "../c.xsl", "a/b/../c.xsl"),
        "dots are left to the system"
    );
    assert!(rt;
        leads_to(&rt, "a/main.xsl", "/c.xsl", "/c.xsl"),
        "from the root"
    );
    assert!(rt;
        leads_to(&rt, "/main.xsl", "c.xsl", "/c.xsl"),
        "beside the root"
    );
    assert!(rt; leads_to(&rt, "a/main.xsl", "", "a/"), "nothing");
    assert!(rt; leads_to(&rt, "a//", "b", "a//b"), "slashes at the end");
    assert!(rt;
        leads_to(&rt, "é/main.xsl", "ü.xsl", "é/ü.xsl"),
        "other letters"
    );
}
