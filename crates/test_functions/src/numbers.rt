// The functions on numbers and truth values, by Functions and Operators, 3, 6, 9, 15 and 16.
use crate::written::answer;

#[test]
fn sums(rt: HostRuntime) {
    let cases = [
        ("sum", "i:1,u:2", "i:3"),
        ("sum", "n:k,i:1", "i:2"),
        ("sum", "", "i:0"),
        ("sum", "s:1", "FORG0006"),
        ("sum", "u:x", "FORG0001"),
        ("sum", "u:x,s:1", "FORG0001"),
        ("sum", "s:1,u:x", "FORG0006"),
        ("sum", "true", "FORG0006"),
        ("sum", "i:9223372036854775807,i:1", "FOAR0002"),
        (
            "sum",
            "i:9223372036854775807,i:1,i:-1",
            "i:9223372036854775807",
        ),
        ("sum", "i:-9223372036854775808,i:-1", "FOAR0002"),
        ("sum", ";s:none", "s:none"),
        ("sum", ";", ""),
        ("sum", "i:1;s:none", "i:1"),
        ("sum", ";i:1,i:2", "XPTY0004"),
        ("sum", "s:1;i:1,i:2", "XPTY0004"),
        ("sum", "u:x;i:1", "FORG0001"),
    ];
    for (word, words, wanted) in cases {
        let found = answer(&rt, word, words);
        assert_eq!(rt; found.as_str(), wanted, "{word}({words})");
        drop(found);
    }
}

#[test]
fn greatest_and_least_values(rt: HostRuntime) {
    let cases = [
        ("max", "i:5,i:4,u:10", "i:10"),
        ("min", "i:5,i:4,u:10", "i:4"),
        ("max", "s:a,s:B", "s:a"),
        ("min", "s:a,s:B", "s:B"),
        ("max", "true,false", "true"),
        ("min", "true,false", "false"),
        ("max", "", ""),
        ("min", "", ""),
        ("max", "i:1,s:a", "FORG0006"),
        ("max", "s:a,true", "FORG0006"),
        ("max", "s:a,u:1", "FORG0006"),
        ("max", "s:a,u:x", "FORG0001"),
        ("min", "q:{}a", "FORG0006"),
        ("min", "u:x,q:{}a", "FORG0001"),
        ("abs", "i:-5", "i:5"),
        ("abs", "i:5", "i:5"),
        ("abs", "u:-7", "i:7"),
        ("abs", "", ""),
        ("abs", "i:-9223372036854775808", "FOAR0002"),
        ("abs", "i:-9223372036854775807", "i:9223372036854775807"),
        ("abs", "s:1", "XPTY0004"),
        ("abs", "u:x", "FORG0001"),
        ("abs", "i:1,i:2", "XPTY0004"),
    ];
    for (word, words, wanted) in cases {
        let found = answer(&rt, word, words);
        assert_eq!(rt; found.as_str(), wanted, "{word}({words})");
        drop(found);
    }
}

#[test]
fn truth_values(rt: HostRuntime) {
    let cases = [
        ("boolean", "", "false"),
        ("boolean", "n:a,i:0", "true"),
        ("boolean", "s:", "false"),
        ("boolean", "u:0", "true"),
        ("boolean", "u:", "false"),
        ("boolean", "i:0", "false"),
        ("boolean", "i:-1", "true"),
        ("boolean", "false", "false"),
        ("boolean", "i:1,i:2", "FORG0006"),
        ("boolean", "q:{}a", "FORG0006"),
        ("not", "", "true"),
        ("not", "n:a", "false"),
        ("not", "i:0", "true"),
        ("not", "s:a", "false"),
        ("not", "i:1,n:a", "FORG0006"),
        ("true", "none", "true"),
        ("false", "none", "false"),
        ("error", "none", "FOER0000"),
        ("position", "i:3", "i:3"),
        ("last", "i:5", "i:5"),
    ];
    for (word, words, wanted) in cases {
        let found = answer(&rt, word, words);
        assert_eq!(rt; found.as_str(), wanted, "{word}({words})");
        drop(found);
    }
}
