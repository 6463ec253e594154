// Sequence types, as XPath 2.0, 2.5.3 writes them.
use crate::shown::read_type;

#[test]
fn types_alone(rt: HostRuntime) {
    let cases = [
        ("empty-sequence ( )", "EmptyType()"),
        ("item ( )", "AnyItem()"),
        ("item ( ) +", "ItemsType(AnyItem() +)"),
        ("xs:integer ?", "ItemsType(xs:integer ?)"),
        ("element ( a ) *", "ItemsType(NamedKind(element a) *)"),
        ("text ( )", "PlainKind(text)"),
        ("attribute", "attribute"),
        ("empty-sequence ( ) *", "none"),
        ("xs:integer ? ?", "none"),
        ("1", "none"),
        ("if ( )", "none"),
        ("f ( )", "none"),
        ("", "none"),
    ];
    for (words, wanted) in cases {
        let found = read_type(&rt, words);
        assert_eq!(rt; found.as_str(), wanted, "{words}");
        drop(found);
    }
}
