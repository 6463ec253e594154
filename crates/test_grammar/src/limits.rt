// How deep expressions nest: each is read at the limit that it needs, and too deep at one less.
use crate::shown::read_within;
use expr_terms::Language;

#[test]
fn levels(rt: HostRuntime) {
    let cases = [
        ("1", 1),
        ("( 1 )", 1),
        ("( ( ( ) ) )", 1),
        ("- 1", 2),
        ("- + 1", 3),
        ("1 + 2", 2),
        ("1 + 2 + 3", 3),
        ("1 + ( 2 + 3 )", 3),
        ("1 , 2 , 3", 2),
        ("1 or 2 or 3", 2),
        ("1 and 2 or 3", 3),
        ("1 instance of item ( )", 2),
        ("a", 1),
        ("/", 1),
        ("/ a", 2),
        ("a / b / c", 3),
        ("a // b", 3),
        ("// a", 3),
        ("a [ 1 ]", 2),
        ("a [ b [ 1 ] ] [ 2 ]", 3),
        ("f ( )", 1),
        ("f ( 1 , - 2 )", 3),
        ("if ( 1 ) then 2 else 3", 2),
        ("if ( 1 ) then 2 else if ( 3 ) then 4 else 5", 2),
        ("if ( 1 ) then 2 else ( if ( 3 ) then - 4 else 5 )", 3),
        ("if ( 1 ) then ( if ( 2 ) then 3 else 4 ) else 5", 3),
        ("for $ a in 1 return 2", 2),
        ("some $ a in - 1 satisfies 2", 3),
    ];
    for i in 0..cases.len() {
        let (words, levels) = cases[i];
        let at = read_within(&rt, Language::Xpath, words, levels);
        assert!(rt; at.as_str() != "none");
        assert!(rt; at.as_str() != "deep");
        drop(at);
        let below = read_within(&rt, Language::Xpath, words, levels.saturating_sub(1));
        assert_eq!(rt; below.as_str(), "deep");
        drop(below);
    }
}

#[test]
fn what_spells_nothing_is_not_too_deep(rt: HostRuntime) {
    let cases = ["- - - 1 )", "( - - - 1", "a [ b [ c [ 1 ] ]", "- - - 1 2"];
    for i in 0..cases.len() {
        let read = read_within(&rt, Language::Xpath, cases[i], 1);
        assert_eq!(rt; read.as_str(), "none");
        drop(read);
    }
}
