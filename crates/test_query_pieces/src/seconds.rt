// What the tokens that come next tell of the word before them.
use expr_terms::Second;
use query_pieces::{Pieces, second};

fn name_of(second: Second) -> &'static str {
    match second {
        Second::BeforeParen => "paren",
        Second::BeforeColons => "colons",
        Second::BeforeDollar => "dollar",
        Second::BeforeBrace => "brace",
        Second::BeforeNamed => "named",
        Second::Alone => "alone",
    }
}

#[test]
fn seconds(rt: HostRuntime) {
    let cases = [
        ("(1)", "paren"),
        (" (: x :) (1)", "paren"),
        ("::a", "colons"),
        ("$x", "dollar"),
        ("{ 1 }", "brace"),
        ("a { 1 }", "named"),
        ("p:a{1}", "named"),
        ("if (: x :) { 1 }", "named"),
        ("a", "alone"),
        ("a b { 1 }", "alone"),
        ("a ( 1 )", "alone"),
        ("*:a { 1 }", "alone"),
        ("1 { 1 }", "alone"),
        ("'x' { 1 }", "alone"),
        ("<a b='{1}'/>", "alone"),
        ("", "alone"),
        ("a (: x", "alone"),
    ];
    for (text, expected) in cases {
        let pieces = Pieces::new(rt.alloc(), text);
        assert_eq!(rt; name_of(second(pieces.ahead())), expected);
        drop(pieces);
    }
}
