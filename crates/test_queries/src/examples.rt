// The examples of queries in the folder examples/ at the top: the same queries, documents, words and
// results.
use crate::made::{QUERY, files_with, status_of};
use xt_io::MemSink;

// Words, a query, a document and the result.
type Example = (
    &'static [&'static str],
    &'static str,
    &'static str,
    &'static str,
);

const EXAMPLES: [Example; 3] = [
    (
        QUERY,
        r#"(: The books by year, the newest first. :)
<list>{
  for $book in /books/book
  order by xs:integer($book/@year) descending
  return <book year="{$book/@year}">{string($book/title)}</book>
}</list>
"#,
        r#"<books>
  <book year="1968"><title>Sorting</title></book>
  <book year="1976"><title>Discipline</title></book>
  <book year="1972"><title>Notes</title></book>
</books>
"#,
        r#"<?xml version="1.0" encoding="UTF-8"?><list><book year="1976">Discipline</book><book year="1972">Notes</book><book year="1968">Sorting</book></list>"#,
    ),
    (
        QUERY,
        r#"(: The titles of the sections, within each other as the sections are. :)
declare function local:outline($sections) {
  for $section in $sections
  return <item title="{$section/@title}">{local:outline($section/section)}</item>
};
<outline>{local:outline(/article/section)}</outline>
"#,
        r#"<article>
  <section title="Trees"><p>Nodes.</p>
    <section title="Order"/>
    <section title="Names"/>
  </section>
  <section title="Texts"/>
</article>
"#,
        r#"<?xml version="1.0" encoding="UTF-8"?><outline><item title="Trees"><item title="Order"/><item title="Names"/></item><item title="Texts"/></outline>"#,
    ),
    (
        &["query", "q.xq", "d.xml", "--doc", "prices.xml", "least=10"],
        r#"(: The items whose price is not below what is given, from a document of prices. :)
declare namespace o = "urn:xslt2xq";
declare option o:declaration "omit";
declare variable $least as xs:integer external;
for $item in /order/item
let $price := doc("prices.xml")/prices/price[@of = $item]
where $price >= $least
return <line>{concat($item, ": ", $price)}</line>
"#,
        r#"<order><item>ink</item><item>paper</item><item>pens</item></order>
"#,
        r#"<line>ink: 12</line><line>pens: 15</line>"#,
    ),
];

// The further document of one of them.
const PRICES: &[u8] =
    br#"<prices><price of="ink">12</price><price of="paper">7</price><price of="pens">15</price></prices>
"#;

#[test]
fn examples_give_their_results(rt: HostRuntime) {
    for (words, query, document, result) in EXAMPLES {
        let mut files = files_with(&rt, query.as_bytes(), document.as_bytes());
        files.add("prices.xml", PRICES).expect(&rt, "memory");
        let mut out = MemSink::new(rt.alloc());
        let mut notes = MemSink::new(rt.alloc());
        assert_eq!(rt; status_of(&rt, words, &mut files, &mut out, &mut notes), 0);
        assert!(rt; out.bytes() == result.as_bytes(), "{query}");
        assert!(rt; notes.bytes().is_empty());
        drop(files);
        drop(out);
        drop(notes);
    }
}
