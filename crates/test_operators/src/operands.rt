// Operators on values, by XPath 2.0, 3.3 to 3.5 and 3.10.
use crate::written::{answer, answer_of_one};

#[test]
fn general_comparisons(rt: HostRuntime) {
    let cases = [
        ("<", "i:1,i:5;i:3", "true"),
        (">", "i:1,i:2;i:3", "false"),
        ("=", ";i:1", "false"),
        ("=", "i:1;", "false"),
        ("!=", "i:1,i:2;i:1,i:2", "true"),
        ("=", "n:k;i:1", "true"),
        ("=", "n:m;s:x", "true"),
        ("=", "u:x;i:1", "FORG0001"),
        ("=", "i:1,u:x;i:1", "true"),
        ("=", "u:x,i:1;i:1", "FORG0001"),
        ("=", "i:1;s:1", "XPTY0004"),
        ("=", "i:1;i:1,s:1", "true"),
        ("=", "i:1;s:1,i:1", "XPTY0004"),
        (">=", "s:b;u:a", "true"),
        ("<=", "true;u:false", "false"),
    ];
    for (word, words, wanted) in cases {
        let found = answer(&rt, word, words);
        assert_eq!(rt; found.as_str(), wanted, "{word}({words})");
        drop(found);
    }
}

#[test]
fn single_comparisons(rt: HostRuntime) {
    let cases = [
        ("eq", "i:1;i:1", "true"),
        ("ne", "i:1;i:1", "false"),
        ("lt", "s:a;u:b", "true"),
        ("eq", ";i:1", ""),
        ("eq", "i:1;", ""),
        ("eq", "i:1,i:2;", "XPTY0004"),
        ("eq", ";i:1,i:2", "XPTY0004"),
        ("eq", "i:1;s:1", "XPTY0004"),
        ("eq", "u:1;i:1", "XPTY0004"),
        ("gt", "true;false", "true"),
        ("eq", "n:k;s:1", "true"),
    ];
    for (word, words, wanted) in cases {
        let found = answer(&rt, word, words);
        assert_eq!(rt; found.as_str(), wanted, "{word}({words})");
        drop(found);
    }
}

#[test]
fn arithmetic_and_ranges(rt: HostRuntime) {
    let cases = [
        ("+", "i:1;u:2", "i:3"),
        ("-", "n:k;i:3", "i:-2"),
        ("*", "i:6;i:7", "i:42"),
        ("idiv", "i:-7;i:2", "i:-3"),
        ("mod", "i:-7;i:2", "i:-1"),
        ("idiv", "i:1;i:0", "FOAR0001"),
        ("mod", "i:1;i:0", "FOAR0001"),
        ("idiv", "i:-9223372036854775808;i:-1", "FOAR0002"),
        ("mod", "i:-9223372036854775808;i:-1", "i:0"),
        ("+", "i:9223372036854775807;i:1", "FOAR0002"),
        ("+", ";i:1", ""),
        ("+", "i:1;", ""),
        ("+", "u:x;", "FORG0001"),
        ("+", ";u:x", "FORG0001"),
        ("+", "u:x;s:1", "FORG0001"),
        ("+", "s:1;u:x", "XPTY0004"),
        ("+", "i:1,i:2;u:x", "XPTY0004"),
        ("to", "i:1;u:3", "i:1,i:2,i:3"),
        ("to", "i:3;i:1", ""),
        ("to", "i:3;i:3", "i:3"),
        ("to", ";i:1", ""),
        ("to", "s:1;i:1", "XPTY0004"),
    ];
    for (word, words, wanted) in cases {
        let found = answer(&rt, word, words);
        assert_eq!(rt; found.as_str(), wanted, "{word}({words})");
        drop(found);
    }
}

#[test]
fn comparisons_of_nodes(rt: HostRuntime) {
    let cases = [
        ("is", "n:b;n:b", "true"),
        ("is", "n:b;n:text", "false"),
        ("is", "n:b;o:b", "false"),
        ("is", "n:k;n:a", "false"),
        ("is", ";n:a", ""),
        ("is", "n:a;", ""),
        ("is", "i:1;", "XPTY0004"),
        ("is", "n:a,n:b;", "XPTY0004"),
        ("<<", "n:a;n:k", "true"),
        ("<<", "n:k;n:text", "true"),
        ("<<", "n:b;n:text", "false"),
        ("<<", "n:a;n:a", "false"),
        ("<<", "n:a;o:a", "XTOR0001"),
        (">>", "n:b;n:text", "true"),
        (">>", "n:text;n:b", "false"),
        (">>", "n:a;o:a", "XTOR0001"),
        (">>", ";n:a", ""),
    ];
    for (word, words, wanted) in cases {
        let found = answer(&rt, word, words);
        assert_eq!(rt; found.as_str(), wanted, "{word}({words})");
        drop(found);
    }
}

#[test]
fn signs_types_and_casts(rt: HostRuntime) {
    let cases = [
        ("-", "i:5", "i:-5"),
        ("-", "u:-5", "i:5"),
        ("-", "", ""),
        ("-", "i:-9223372036854775808", "FOAR0002"),
        ("-", "s:5", "XPTY0004"),
        ("+", "u:5", "i:5"),
        ("+", "", ""),
        ("+", "i:1,i:2", "XPTY0004"),
        ("instance of integer", "i:1", "true"),
        ("instance of integer", "u:1", "false"),
        ("instance of integer", "", "false"),
        ("instance of integers", "", "true"),
        ("instance of integers", "i:1,i:2", "true"),
        ("instance of integers", "i:1,s:2", "false"),
        ("treat as integer", "i:1", "i:1"),
        ("treat as integer", "s:1", "XPDY0050"),
        ("treat as integer", "", "XPDY0050"),
        ("cast as integer", "s: 12 ", "i:12"),
        ("cast as integer", "n:k", "i:1"),
        ("cast as integer", "true", "i:1"),
        ("cast as integer", "s:1.5", "FORG0001"),
        ("cast as integer", "", "XPTY0004"),
        ("cast as integer", "i:1,i:2", "XPTY0004"),
        ("cast as integer?", "", ""),
        ("castable as integer", "s:12", "true"),
        ("castable as integer", "s:x", "false"),
        ("castable as integer", "", "false"),
        ("castable as integer", "i:1,i:2", "false"),
        ("castable as integer?", "", "true"),
        ("cast as boolean", "s:0", "false"),
    ];
    for (word, words, wanted) in cases {
        let found = answer_of_one(&rt, word, words);
        assert_eq!(rt; found.as_str(), wanted, "{word}({words})");
        drop(found);
    }
}
