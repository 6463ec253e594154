// The functions on sequences, by the examples of Functions and Operators, 15.
use crate::written::answer;

#[test]
fn items_are_counted(rt: HostRuntime) {
    let cases = [
        ("count", "i:1,i:2", "i:2"),
        ("count", "", "i:0"),
        ("empty", "", "true"),
        ("empty", "s:", "false"),
        ("exists", "", "false"),
        ("exists", "s:", "true"),
        ("zero-or-one", "", ""),
        ("zero-or-one", "i:1", "i:1"),
        ("zero-or-one", "i:1,i:2", "FORG0003"),
        ("one-or-more", "i:1,i:2", "i:1,i:2"),
        ("one-or-more", "", "FORG0004"),
        ("exactly-one", "n:a", "n:/0"),
        ("exactly-one", "", "FORG0005"),
        ("exactly-one", "i:1,i:2", "FORG0005"),
    ];
    for (word, words, wanted) in cases {
        let found = answer(&rt, word, words);
        assert_eq!(rt; found.as_str(), wanted, "{word}({words})");
        drop(found);
    }
}

#[test]
fn values_are_found(rt: HostRuntime) {
    let cases = [
        ("distinct-values", "i:1,i:2,i:3,i:2", "i:1,i:2,i:3"),
        ("distinct-values", "i:1,u:1,s:1,i:1", "i:1,u:1"),
        (
            "distinct-values",
            "n:k,true,s:1,q:p{u}a,q:{u}a,true",
            "u:1,true,q:p{u}a",
        ),
        ("distinct-values", "", ""),
        ("index-of", "i:10,i:20,i:30,i:40;i:35", ""),
        ("index-of", "i:10,i:20,i:30,i:30,i:20,i:10;i:20", "i:2,i:5"),
        ("index-of", "s:a,s:sport,s:and,s:a,s:pastime;s:a", "i:1,i:4"),
        ("index-of", ";i:1", ""),
        ("index-of", "n:k,s:1,i:1;u:1", "i:1,i:2"),
        ("index-of", "i:1;", "XPTY0004"),
        ("index-of", "i:1;i:1,i:2", "XPTY0004"),
    ];
    for (word, words, wanted) in cases {
        let found = answer(&rt, word, words);
        assert_eq!(rt; found.as_str(), wanted, "{word}({words})");
        drop(found);
    }
}

#[test]
fn items_are_put_in_and_left_out(rt: HostRuntime) {
    let cases = [
        ("insert-before", "s:a,s:b,s:c;i:0;s:z", "s:z,s:a,s:b,s:c"),
        ("insert-before", "s:a,s:b,s:c;i:1;s:z", "s:z,s:a,s:b,s:c"),
        ("insert-before", "s:a,s:b,s:c;i:2;s:z", "s:a,s:z,s:b,s:c"),
        ("insert-before", "s:a,s:b,s:c;i:3;s:z", "s:a,s:b,s:z,s:c"),
        ("insert-before", "s:a,s:b,s:c;i:4;s:z", "s:a,s:b,s:c,s:z"),
        (
            "insert-before",
            "s:a,s:b,s:c;i:9223372036854775807;s:y,s:z",
            "s:a,s:b,s:c,s:y,s:z",
        ),
        (
            "insert-before",
            "s:a,s:b,s:c;i:-9223372036854775808;n:k",
            "n:/0@,s:a,s:b,s:c",
        ),
        ("insert-before", ";u:2;i:1", "i:1"),
        ("insert-before", "s:a;u:x;", "FORG0001"),
        ("insert-before", "s:a;;s:z", "XPTY0004"),
        ("remove", "s:a,s:b,s:c;i:0", "s:a,s:b,s:c"),
        ("remove", "s:a,s:b,s:c;i:1", "s:b,s:c"),
        ("remove", "s:a,s:b,s:c;i:6", "s:a,s:b,s:c"),
        ("remove", "s:a,s:b,s:c;i:3", "s:a,s:b"),
        ("remove", "s:a,s:b,s:c;i:9223372036854775807", "s:a,s:b,s:c"),
        (
            "remove",
            "s:a,s:b,s:c;i:-9223372036854775808",
            "s:a,s:b,s:c",
        ),
        ("remove", ";i:3", ""),
        ("remove", "s:a;s:1", "XPTY0004"),
        ("remove", "s:a;u:x", "FORG0001"),
        ("reverse", "s:a,s:b,s:c", "s:c,s:b,s:a"),
        ("reverse", "s:hello", "s:hello"),
        ("reverse", "", ""),
        ("unordered", "s:a,s:b,s:c", "s:a,s:b,s:c"),
    ];
    for (word, words, wanted) in cases {
        let found = answer(&rt, word, words);
        assert_eq!(rt; found.as_str(), wanted, "{word}({words})");
        drop(found);
    }
}

#[test]
fn parts_of_sequences(rt: HostRuntime) {
    let cases = [
        ("subsequence", "s:1,s:2,s:3,s:4,s:5;i:4", "s:4,s:5"),
        ("subsequence", "s:1,s:2,s:3,s:4,s:5;i:3;i:2", "s:3,s:4"),
        ("subsequence", "s:1,s:2,s:3,s:4,s:5;i:-1;i:4", "s:1,s:2"),
        ("subsequence", "s:1,s:2,s:3,s:4,s:5;i:0;i:3", "s:1,s:2"),
        ("subsequence", "s:1,s:2,s:3,s:4,s:5;i:6", ""),
        ("subsequence", "s:1,s:2,s:3,s:4,s:5;i:2;i:-1", ""),
        (
            "subsequence",
            "s:1,s:2,s:3,s:4,s:5;i:2;i:9223372036854775807",
            "s:2,s:3,s:4,s:5",
        ),
        (
            "subsequence",
            "s:1,s:2,s:3,s:4,s:5;i:9223372036854775807;i:9223372036854775807",
            "",
        ),
        (
            "subsequence",
            "s:1,s:2,s:3,s:4,s:5;i:-9223372036854775808;i:9223372036854775807",
            "",
        ),
        (
            "subsequence",
            "s:1,s:2,s:3,s:4,s:5;i:-9223372036854775808",
            "s:1,s:2,s:3,s:4,s:5",
        ),
        ("subsequence", "s:a;u:x;s:y", "FORG0001"),
        ("subsequence", "s:a;s:y;u:x", "XPTY0004"),
        ("subsequence", "s:a;;u:x", "XPTY0004"),
        ("subsequence", "s:a;i:1;", "XPTY0004"),
    ];
    for (word, words, wanted) in cases {
        let found = answer(&rt, word, words);
        assert_eq!(rt; found.as_str(), wanted, "{word}({words})");
        drop(found);
    }
}
