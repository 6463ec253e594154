// Words, and what they ask for.
use crate::shown::asked;
use std::alloc::AllocGlobal;
use std::process::Abort;

type Case = (&'static [&'static str], &'static str);

const COMMANDS: [Case; 17] = [
    (&[], "usage"),
    (&["transform"], "usage"),
    (&["transform", "s.xsl"], "usage"),
    (
        &["transform", "s.xsl", "d.xml"],
        "transform s.xsl d.xml 100",
    ),
    (&["query", "q.xq", "d.xml"], "query q.xq d.xml 202"),
    (&["query", "q.xq"], "usage"),
    (&["Transform", "s.xsl", "d.xml"], "usage"),
    (&["", "s.xsl", "d.xml"], "usage"),
    (&["translate", "s.xsl"], "usage"),
    (&["explain", "s.xsl", "d.xml", "/"], "usage"),
    (&["sample", "1"], "usage"),
    (&["help"], "usage"),
    (&["--help"], "usage"),
    (&["--depth", "9", "query", "q", "d"], "usage"),
    (&["query", "a=b", "c=d"], "query a=b c=d 202"),
    (&["query", "", ""], "query   202"),
    (&["transform", "-", "-"], "transform - - 100"),
];

const DEPTHS: [Case; 26] = [
    (
        &["transform", "s", "d", "--depth", "300"],
        "transform s d 300",
    ),
    (&["transform", "s", "d", "--depth", "301"], "usage"),
    (&["transform", "s", "d", "--depth", "0"], "usage"),
    (&["transform", "s", "d", "--depth", "1"], "transform s d 1"),
    (&["transform", "--depth=17", "s", "d"], "transform s d 17"),
    (
        &["transform", "s", "--depth", "17", "d"],
        "transform s d 17",
    ),
    (&["query", "q", "d", "--depth=602"], "query q d 602"),
    (&["query", "q", "d", "--depth=603"], "usage"),
    (&["query", "q", "d", "--depth=000602"], "query q d 602"),
    (
        &["query", "q", "d", "--depth=00000000000000000000000001"],
        "query q d 1",
    ),
    (
        &["query", "q", "d", "--depth=18446744073709551617"],
        "usage",
    ),
    (&["query", "q", "d", "--depth=4294967297"], "usage"),
    (&["query", "q", "d", "--depth=000"], "usage"),
    (&["query", "q", "d", "--depth="], "usage"),
    (&["query", "q", "d", "--depth", ""], "usage"),
    (&["query", "q", "d", "--depth=+7"], "usage"),
    (&["query", "q", "d", "--depth=-7"], "usage"),
    (&["query", "q", "d", "--depth= 7"], "usage"),
    (&["query", "q", "d", "--depth=7a"], "usage"),
    (&["query", "q", "d", "--depth=\u{663}"], "usage"),
    (
        &["query", "q", "d", "--depth", "7", "--depth", "7"],
        "usage",
    ),
    (&["query", "--depth=7", "q", "d", "--depth", "8"], "usage"),
    (&["query", "q", "d", "--depth"], "usage"),
    (&["query", "q", "d", "--depth", "--", "7"], "usage"),
    (&["query", "q", "d", "--depths=7"], "usage"),
    (&["query", "q", "d", "-depth=7"], "usage"),
];

const DOCUMENTS: [Case; 13] = [
    (&["query", "q", "d", "--doc", "e"], "query q d 202 +e"),
    (&["query", "q", "d", "--doc=e"], "query q d 202 +e"),
    (
        &["transform", "--doc", "e", "s", "--doc=f", "d"],
        "transform s d 100 +e +f",
    ),
    (&["query", "q", "d", "--doc", "d"], "query q d 202 +d"),
    (&["query", "q", "d", "--doc", "e", "--doc=e"], "usage"),
    (
        &["query", "q", "d", "--doc", "e", "--doc=./e"],
        "query q d 202 +e +./e",
    ),
    (&["query", "q", "d", "--doc"], "usage"),
    (&["query", "q", "d", "--doc="], "query q d 202 +"),
    (&["query", "q", "d", "--doc", "--"], "query q d 202 +--"),
    (
        &["query", "--doc", "--depth", "q", "d", "--depth", "5"],
        "query q d 5 +--depth",
    ),
    (&["query", "q", "d", "--doc=a=b"], "query q d 202 +a=b"),
    (&["query", "q", "d", "--docs=e"], "usage"),
    (&["query", "q", "--doc", "d"], "usage"),
];

const ENDS: [Case; 13] = [
    (&["query", "--", "-q", "--doc=d"], "query -q --doc=d 202"),
    (&["query", "-q", "d"], "usage"),
    (&["query", "q", "-d"], "usage"),
    (&["query", "q", "d", "--", "n=1"], "query q d 202 n=1"),
    (
        &["query", "q", "--depth=5", "--", "d", "n=1"],
        "query q d 5 n=1",
    ),
    (&["query", "q", "d", "--", "--depth=5"], "usage"),
    (&["query", "q", "--", "d", "--"], "usage"),
    (&["query", "--", "--", "--"], "query -- -- 202"),
    (&["query", "q", "d", "--"], "query q d 202"),
    (&["--", "query", "q", "d"], "usage"),
    (&["query", "q", "d", "--mode", "m"], "usage"),
    (&["transform", "s", "d", "--mode=m"], "usage"),
    (&["transform", "s", "d", "-h"], "usage"),
];

const PARAMETERS: [Case; 20] = [
    (&["query", "q", "d", "n=41"], "query q d 202 n=41"),
    (&["query", "q", "d", "n=1", "n=2"], "usage"),
    (&["query", "q", "d", "n=1", "m=1", "n=1"], "usage"),
    (&["query", "q", "d", "n=1", "N=2"], "query q d 202 n=1 N=2"),
    (
        &["transform", "n=1", "n=2", "n=3"],
        "transform n=1 n=2 100 n=3",
    ),
    (&["query", "q", "d", "n="], "query q d 202 n="),
    (&["query", "q", "d", "n=a=b"], "query q d 202 n=a=b"),
    (&["query", "q", "d", "n"], "usage"),
    (&["query", "q", "d", ""], "usage"),
    (&["query", "q", "d", "-"], "usage"),
    (&["query", "q", "d", "=1"], "usage"),
    (&["query", "q", "d", "1n=1"], "usage"),
    (&["query", "q", "d", "p:n=1"], "usage"),
    (&["query", "q", "d", "a b=1"], "usage"),
    (&["query", "q", "d", "_-.9=1"], "query q d 202 _-.9=1"),
    (
        &["query", "q", "d", "\u{E9}=\u{1F600}"],
        "query q d 202 \u{E9}=\u{1F600}",
    ),
    (&["query", "q", "d", "n=\t\r\n"], "query q d 202 n=\t\r\n"),
    (&["query", "q", "d", "n=\u{1}"], "usage"),
    (&["query", "q", "d", "n=\u{FFFE}"], "usage"),
    (
        &["query", "q", "d", "n=1", "--depth=5", "m=2", "--doc", "e"],
        "query q d 5 +e n=1 m=2",
    ),
];

fn try_all(rt: &(impl Abort + AllocGlobal), cases: &[Case]) {
    for (words, expected) in cases {
        let found = asked(rt, words);
        assert_eq!(rt; found.as_str(), *expected);
        drop(found);
    }
}

#[test]
fn words_and_requests(rt: HostRuntime) {
    try_all(&rt, &COMMANDS);
    try_all(&rt, &DEPTHS);
    try_all(&rt, &DOCUMENTS);
    try_all(&rt, &ENDS);
    try_all(&rt, &PARAMETERS);
}

const SIXTEEN: [&str; 16] = [
    "--doc=a", "--doc=b", "--doc=c", "--doc=d", "--doc=e", "--doc=f", "--doc=g", "--doc=h",
    "--doc=i", "--doc=j", "--doc=k", "--doc=l", "--doc=m", "--doc=n", "--doc=o", "--doc=p",
];

#[test]
fn documents_up_to_sixteen(rt: HostRuntime) {
    let mut words = Vec::new(rt.alloc());
    words.push("query").expect(&rt, "memory");
    for word in SIXTEEN {
        words.push(word).expect(&rt, "memory");
    }
    words.push("q").expect(&rt, "memory");
    words.push("d").expect(&rt, "memory");
    let found = asked(&rt, &words);
    assert_eq!(rt;
        found.as_str(),
        "query q d 202 +a +b +c +d +e +f +g +h +i +j +k +l +m +n +o +p"
    );
    drop(found);
    words.push("--doc=z").expect(&rt, "memory");
    let found = asked(&rt, &words);
    assert_eq!(rt; found.as_str(), "usage");
    drop(found);
    drop(words);
}

// Words with so many parameters of different names.
fn many(rt: &(impl Abort + AllocGlobal), count: usize) -> Vec<String> {
    let mut words = Vec::new(rt.alloc());
    for word in ["query", "q", "d"] {
        let word = String::from_str(rt.alloc(), word).expect(rt, "memory");
        words.push(word).expect(rt, "memory");
    }
    for place in 0..count {
        let word = format!(in rt.alloc(); "n{place}=1");
        words.push(word.expect(rt, "memory")).expect(rt, "memory");
    }
    words
}

#[test]
fn a_hundred_thousand_parameters(rt: HostRuntime) {
    let mut words = many(&rt, 100_000);
    let request = command_words::read_request(rt.alloc(), &words).expect(&rt, "memory");
    assert!(rt; request.is_some());
    drop(request);
    let word = String::from_str(rt.alloc(), "n0=2").expect(&rt, "memory");
    words.push(word).expect(&rt, "memory");
    let request = command_words::read_request(rt.alloc(), &words).expect(&rt, "memory");
    assert!(rt; request.is_none());
    drop(request);
    drop(words);
}
