// The examples of the folder examples/ at the top: the same stylesheets, documents and results.
use crate::made::{TRANSFORM, files_of, status_of};
use xt_io::MemSink;

// A stylesheet, a document and the result.
type Example = (&'static str, &'static str, &'static str);

const EXAMPLES: [Example; 5] = [
    (
        r#"<xsl:stylesheet version="2.0" xmlns:xsl="http://www.w3.org/1999/XSL/Transform">
  <xsl:template match="/"><greeting>Hello, world</greeting></xsl:template>
</xsl:stylesheet>
"#,
        r#"<anything/>
"#,
        r#"<?xml version="1.0" encoding="UTF-8"?><greeting>Hello, world</greeting>"#,
    ),
    (
        r#"<xsl:stylesheet version="2.0" xmlns:xsl="http://www.w3.org/1999/XSL/Transform">
</xsl:stylesheet>
"#,
        r#"<p>Built-in rules keep <em>all</em> text &amp; drop the <b>markup</b>.<!-- and comments --></p>
"#,
        r#"<?xml version="1.0" encoding="UTF-8"?>Built-in rules keep all text &amp; drop the markup."#,
    ),
    (
        r#"<xsl:stylesheet version="2.0" xmlns:xsl="http://www.w3.org/1999/XSL/Transform">
  <xsl:template match="article"><html><body><xsl:apply-templates/></body></html></xsl:template>
  <xsl:template match="title"><h1><xsl:apply-templates/></h1></xsl:template>
  <xsl:template match="para"><p><xsl:apply-templates/></p></xsl:template>
  <xsl:template match="emphasis"><em><xsl:apply-templates/></em></xsl:template>
</xsl:stylesheet>
"#,
        r#"<article><title>Trees</title><para>A tree has <emphasis>one</emphasis> root.</para><para>Texts are leaves.</para></article>
"#,
        r#"<?xml version="1.0" encoding="UTF-8"?><html><body><h1>Trees</h1><p>A tree has <em>one</em> root.</p><p>Texts are leaves.</p></body></html>"#,
    ),
    (
        r#"<xsl:stylesheet version="2.0" xmlns:xsl="http://www.w3.org/1999/XSL/Transform">
  <xsl:template match="letter"><letter><xsl:apply-templates/></letter></xsl:template>
  <xsl:template match="remark"/>
</xsl:stylesheet>
"#,
        r#"<letter>Dear reader,<remark>too stiff</remark> all is <b>well</b>.</letter>
"#,
        r#"<?xml version="1.0" encoding="UTF-8"?><letter>Dear reader, all is well.</letter>"#,
    ),
    (
        r#"<xsl:stylesheet version="2.0" xmlns:xsl="http://www.w3.org/1999/XSL/Transform">
  <!-- Where two rules of one priority match, the last one is taken (XSLT 2.0, 6.4). -->
  <xsl:template match="item"><first/></xsl:template>
  <xsl:template match="list"><list><xsl:apply-templates/></list></xsl:template>
  <xsl:template match="item"><last/></xsl:template>
</xsl:stylesheet>
"#,
        r#"<list>
  <item>1</item>
  <item>2</item>
</list>
"#,
        r#"<?xml version="1.0" encoding="UTF-8"?><list>
  <last/>
  <last/>
</list>"#,
    ),
];

#[test]
fn examples_give_their_results(rt: HostRuntime) {
    for (sheet, document, result) in EXAMPLES {
        let mut files = files_of(&rt, sheet.as_bytes(), Some(document.as_bytes()));
        let mut out = MemSink::new(rt.alloc());
        let mut notes = MemSink::new(rt.alloc());
        assert_eq!(rt;
            status_of(&rt, TRANSFORM, &mut files, &mut out, &mut notes),
            0
        );
        assert!(rt; out.bytes() == result.as_bytes());
        assert!(rt; notes.bytes().is_empty());
        drop(files);
        drop(out);
        drop(notes);
    }
}
