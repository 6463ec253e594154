// What is loaded is closed.
use crate::made::{is_closed, loaded, with_body};

#[test]
fn stylesheets(rt: HostRuntime) {
    let cases = [
        "",
        "<xsl:template match='/'/>",
        "<xsl:template match='a|b//@c|*[2]|text()|processing-instruction(t)|p:*' priority='1.5'/>",
        "<xsl:variable name='a' select='$b'/><xsl:param name='b' required='yes'/>",
        "<xsl:variable name='a' as='xs:integer' select='count($b)'/>\
         <xsl:variable name='b'><xsl:apply-templates/></xsl:variable>\
         <xsl:template match='/'><xsl:value-of select='$c'/></xsl:template>\
         <xsl:param name='c'/>",
        "<xsl:strip-space elements='* p:* *:a p:b'/><xsl:output omit-xml-declaration='yes'/>",
        "<xsl:template match='a' mode='x p:y #default'/><xsl:template match='b' mode='#all'/>",
        "<xsl:key name='p:k' match='a[@b]' use='@c, d'/>\
         <xsl:variable name='v' select='/*/key(\"p:k\", 1)'/>",
        "<xsl:function name='p:f'><xsl:param name='a'/><xsl:param name='b'/></xsl:function>\
         <xsl:function name='p:f'><xsl:param name='a'/>\
         <xsl:sequence select='p:f($a, 1)'/></xsl:function>",
    ];
    for of in cases {
        let sheet = loaded(&rt, of);
        assert!(rt; is_closed(&rt, sheet), "{of}");
    }
}

#[test]
fn sequence_constructors(rt: HostRuntime) {
    let cases = [
        "",
        "<a b='{1}{{' p:c='{$g}d'/>",
        "<xsl:element name='{$g}' xmlns:q='urn:q'/><xsl:attribute name='p:a' select='1'/>",
        "<xsl:comment select='1'/>\
         <xsl:processing-instruction name='t'>a</xsl:processing-instruction>",
        "<xsl:value-of select='1 to 3' separator=', '/><xsl:value-of>a</xsl:value-of>",
        "<xsl:variable name='x' select='$g'/><xsl:sequence select='$x, for $y in $x return $y'/>",
        "<xsl:for-each select='a'><xsl:sort select='@b' order='descending'/>\
         <xsl:copy-of select='current()'/></xsl:for-each>",
        "<xsl:for-each-group select='a' group-by='b'><xsl:sort select='current-grouping-key()'/>\
         <xsl:if test='1'><a b='{count(current-group())}'/></xsl:if></xsl:for-each-group>",
        "<xsl:for-each-group select='a' group-starting-with='b[1]|c'><d/></xsl:for-each-group>",
        "<xsl:apply-templates select='a' mode='m'><xsl:with-param name='x' select='1'/>\
         <xsl:with-param name='p:x' tunnel='yes' select='2'/></xsl:apply-templates>",
        "<xsl:call-template name='t'><xsl:with-param name='a' select='p:f($h)'/>\
         </xsl:call-template>",
        "<xsl:choose><xsl:when test='key(\"k\", 1)'/><xsl:otherwise><xsl:next-match/>\
         </xsl:otherwise></xsl:choose>",
        "<xsl:perform-sort select='a'><xsl:sort/></xsl:perform-sort>\
         <xsl:copy><xsl:document/></xsl:copy>",
        "<xsl:sequence select='document(\"d.xml\")'/>",
    ];
    for of in cases {
        let sheet = with_body(&rt, of);
        assert!(rt; is_closed(&rt, sheet), "{of}");
    }
}
