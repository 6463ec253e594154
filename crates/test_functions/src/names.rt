// The functions on names, nodes and QNames, by Functions and Operators, 2, 11 and 14.
use crate::written::answer;

#[test]
fn nodes_have_names(rt: HostRuntime) {
    let cases = [
        ("name", "n:a", "s:p:a"),
        ("name", "n:m", "s:p:m"),
        ("name", "n:k", "s:k"),
        ("name", "n:pi", "s:g"),
        ("name", "n:document", "s:"),
        ("name", "n:text", "s:"),
        ("name", "n:comment", "s:"),
        ("name", "", "s:"),
        ("name", "n:a,n:b", "XPTY0004"),
        ("name", "i:1", "XPTY0004"),
        ("local-name", "n:a", "s:a"),
        ("local-name", "n:m", "s:m"),
        ("local-name", "n:pi", "s:g"),
        ("local-name", "n:document", "s:"),
        ("local-name", "", "s:"),
        ("local-name", "s:a", "XPTY0004"),
        ("namespace-uri", "n:a", "s:urn:p"),
        ("namespace-uri", "n:m", "s:urn:p"),
        ("namespace-uri", "n:b", "s:"),
        ("namespace-uri", "n:pi", "s:"),
        ("namespace-uri", "", "s:"),
        ("namespace-uri", "n:a,n:b", "XPTY0004"),
        ("node-name", "n:a", "q:p{urn:p}a"),
        ("node-name", "n:k", "q:{}k"),
        ("node-name", "n:pi", "q:{}g"),
        ("node-name", "n:text", ""),
        ("node-name", "n:document", ""),
        ("node-name", "", ""),
        ("node-name", "n:k,n:m", "XPTY0004"),
    ];
    for (word, words, wanted) in cases {
        let found = answer(&rt, word, words);
        assert_eq!(rt; found.as_str(), wanted, "{word}({words})");
        drop(found);
    }
}

#[test]
fn roots_and_typed_values(rt: HostRuntime) {
    let cases = [
        ("root", "n:b", "n:/"),
        ("root", "n:m", "n:/"),
        ("root", "n:document", "n:/"),
        ("root", "", ""),
        ("root", "i:1", "XPTY0004"),
        ("root", "n:a,n:a", "XPTY0004"),
        ("data", "n:k,n:comment,n:pi,i:1", "u:1,s:c,s:d,i:1"),
        ("data", "n:document,n:a,n:text", "u:t,u:t,u:t"),
        ("data", "", ""),
        ("deep-equal", "n:a;n:a", "true"),
        ("deep-equal", "n:a;n:b", "false"),
        ("deep-equal", "n:document;n:a", "false"),
        ("deep-equal", "s:1;u:1", "true"),
        ("deep-equal", "i:1;u:1", "false"),
        ("deep-equal", ";", "true"),
        ("deep-equal", "i:1;", "false"),
        ("deep-equal", ";i:1", "false"),
        ("deep-equal", "i:1,n:k;i:1,n:k", "true"),
    ];
    for (word, words, wanted) in cases {
        let found = answer(&rt, word, words);
        assert_eq!(rt; found.as_str(), wanted, "{word}({words})");
        drop(found);
    }
}

#[test]
fn qnames_are_made(rt: HostRuntime) {
    let cases = [
        (
            "QName",
            "s:http://www.example.com/example;s:person",
            "q:{http://www.example.com/example}person",
        ),
        (
            "QName",
            "s:http://www.example.com/example;s:ht:person",
            "q:ht{http://www.example.com/example}person",
        ),
        ("QName", ";s:a", "q:{}a"),
        ("QName", "s:;s:a", "q:{}a"),
        ("QName", "s:;s:p:a", "FOCA0002"),
        ("QName", "s:urn:p;s::a", "FOCA0002"),
        ("QName", "s:urn:p;s:a:", "FOCA0002"),
        ("QName", "s:urn:p;s:a:b:c", "FOCA0002"),
        ("QName", "s:urn:p;s:1", "FOCA0002"),
        ("QName", "s:urn:p;s:1:a", "FOCA0002"),
        ("QName", "s:urn:p;s:", "FOCA0002"),
        ("QName", "s:urn:p;s:a b", "FOCA0002"),
        ("QName", "s:urn:p;s:xml:a", "FOCA0002"),
        (
            "QName",
            "s:http://www.w3.org/XML/1998/namespace;s:xml:lang",
            "q:xml{http://www.w3.org/XML/1998/namespace}lang",
        ),
        (
            "QName",
            "s:http://www.w3.org/XML/1998/namespace;s:lang",
            "FOCA0002",
        ),
        ("QName", "s:urn:p;s:xmlns:a", "FOCA0002"),
        ("QName", "s:http://www.w3.org/2000/xmlns/;s:a", "FOCA0002"),
        ("QName", "s:urn:p;", "XPTY0004"),
        ("QName", "i:1;s:1", "XPTY0004"),
        ("QName", "s:;q:{}a", "XPTY0004"),
    ];
    for (word, words, wanted) in cases {
        let found = answer(&rt, word, words);
        assert_eq!(rt; found.as_str(), wanted, "{word}({words})");
        drop(found);
    }
}

#[test]
fn qnames_have_parts(rt: HostRuntime) {
    let cases = [
        ("prefix-from-QName", "q:p{urn:p}a", "s:p"),
        ("prefix-from-QName", "q:{urn:p}a", ""),
        ("prefix-from-QName", "", ""),
        ("prefix-from-QName", "s:p:a", "XPTY0004"),
        ("prefix-from-QName", "n:k", "XPTY0004"),
        ("local-name-from-QName", "q:p{urn:p}a", "s:a"),
        ("local-name-from-QName", "", ""),
        ("local-name-from-QName", "q:{}a,q:{}b", "XPTY0004"),
        ("namespace-uri-from-QName", "q:p{urn:p}a", "s:urn:p"),
        ("namespace-uri-from-QName", "q:{}a", "s:"),
        ("namespace-uri-from-QName", "", ""),
        ("namespace-uri-from-QName", "u:a", "XPTY0004"),
    ];
    for (word, words, wanted) in cases {
        let found = answer(&rt, word, words);
        assert_eq!(rt; found.as_str(), wanted, "{word}({words})");
        drop(found);
    }
}
