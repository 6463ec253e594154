// Direct elements that end alike (XQuery 1.0, 3.7.1).
use crate::reads::query_in;
use expr_rules::expr_shapes::is_shaped;

#[test]
fn elements(rt: HostRuntime) {
    let cases = [
        ("<a b=''></a>", true),
        ("<a/>", true),
        ("<p:a b=''></p:a>", true),
        ("<p:a></q:a>", false),
        ("<p:a></a>", false),
        ("<a></p:a>", false),
        ("<a></b>", false),
        ("<a><b></b></a>", true),
        ("<a><b></a></b>", false),
        ("<a>{ <b></c> }</a>", false),
        ("<a b='{ <b></c> }'/>", false),
        ("1 + <a><b/></c>", false),
        ("<a xmlns=''/>", false),
        ("<a xmlns:p='u'/>", false),
        ("<a p:xmlns='u'/>", true),
        ("<a><b xmlns='u'/></a>", false),
    ];
    for (text, wanted) in cases {
        let raw = query_in(&rt, text);
        assert_eq!(rt;
            is_shaped(rt.alloc(), &raw.body).expect(&rt, "memory"),
            wanted,
            "{text}"
        );
        drop(raw);
    }
}
