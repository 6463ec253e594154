// Which rule an instruction breaks: its code, or nothing.
use crate::made::body_gets;

// Conditions (XSLT 2.0, 8).
#[test]
fn choices(rt: HostRuntime) {
    let cases = [
        (
            "<xsl:choose><xsl:when test='1'>a</xsl:when></xsl:choose>",
            "",
        ),
        (
            "<xsl:choose><xsl:when test='1'/><xsl:when test='2'/><xsl:otherwise>b</xsl:otherwise></xsl:choose>",
            "",
        ),
        ("<xsl:choose/>", "XTSE0010"),
        ("<xsl:choose><xsl:otherwise/></xsl:choose>", "XTSE0010"),
        (
            "<xsl:choose><xsl:when test='1'/><xsl:otherwise/><xsl:when test='1'/></xsl:choose>",
            "XTSE0010",
        ),
        (
            "<xsl:choose><xsl:when test='1'/><xsl:otherwise/><xsl:otherwise/></xsl:choose>",
            "XTSE0010",
        ),
        ("<xsl:choose>a<xsl:when test='1'/></xsl:choose>", "XTSE0010"),
        ("<xsl:choose><xsl:when test='1'/>a</xsl:choose>", "XTSE0010"),
        (
            "<xsl:choose><xsl:when test='1'/><a/></xsl:choose>",
            "XTSE0010",
        ),
        ("<xsl:choose><xsl:when/></xsl:choose>", "XTSE0010"),
        ("<xsl:choose><xsl:when test=''/></xsl:choose>", "XPST0003"),
        (
            "<xsl:choose test='1'><xsl:when test='1'/></xsl:choose>",
            "XTSE0090",
        ),
        (
            "<xsl:choose><xsl:when test='1'/><xsl:otherwise test='1'/></xsl:choose>",
            "XTSE0090",
        ),
        (
            "<xsl:choose><xsl:when test='1'><xsl:if/></xsl:when></xsl:choose>",
            "XTSE0010",
        ),
    ];
    for (of, code) in cases {
        assert!(rt; body_gets(&rt, of, code), "{of}");
    }
}

// Sort keys and groups (XSLT 2.0, 7, 13 and 14).
#[test]
fn orders(rt: HostRuntime) {
    let cases = [
        ("<xsl:for-each select='1'><xsl:sort/>a</xsl:for-each>", ""),
        (
            "<xsl:for-each select='1'><xsl:sort select='1' order='descending' data-type='number'/></xsl:for-each>",
            "",
        ),
        ("<xsl:for-each/>", "XTSE0010"),
        ("<xsl:for-each select='1' group-by='1'/>", "XTSE0090"),
        (
            "<xsl:for-each select='1'>a<xsl:sort/></xsl:for-each>",
            "XTSE0010",
        ),
        (
            "<xsl:for-each select='1'><xsl:sort>a</xsl:sort></xsl:for-each>",
            "XTSE0010",
        ),
        (
            "<xsl:for-each select='1'><xsl:sort order='up'/></xsl:for-each>",
            "XTSE0020",
        ),
        (
            "<xsl:for-each select='1'><xsl:sort order='{1}'/></xsl:for-each>",
            "XTSE0020",
        ),
        (
            "<xsl:for-each select='1'><xsl:sort data-type='date'/></xsl:for-each>",
            "XTSE0020",
        ),
        (
            "<xsl:for-each select='1'><xsl:sort lang='en'/></xsl:for-each>",
            "XTUN0001",
        ),
        (
            "<xsl:for-each select='1'><xsl:sort stable='yes'/></xsl:for-each>",
            "XTUN0001",
        ),
        (
            "<xsl:for-each select='1'><xsl:sort collation='u'/></xsl:for-each>",
            "XTUN0001",
        ),
        (
            "<xsl:for-each select='1'><xsl:sort select=''/></xsl:for-each>",
            "XPST0003",
        ),
        ("<xsl:for-each-group select='1' group-by='1'/>", ""),
        ("<xsl:for-each-group select='1' group-adjacent='1'/>", ""),
        (
            "<xsl:for-each-group select='1' group-starting-with='a'/>",
            "",
        ),
        ("<xsl:for-each-group group-by='1'/>", "XTSE0010"),
        ("<xsl:for-each-group select='1'/>", "XTSE1080"),
        (
            "<xsl:for-each-group select='1' group-by='1' group-adjacent='1'/>",
            "XTSE1080",
        ),
        (
            "<xsl:for-each-group select='1' group-ending-with='a'/>",
            "XTUN0001",
        ),
        (
            "<xsl:for-each-group select='1' group-by='1' collation='u'/>",
            "XTUN0001",
        ),
        ("<xsl:value-of select='current-group()'/>", "XTUN0001"),
        (
            "<xsl:for-each-group select='1' group-by='1'><xsl:sort select='current-group()'/>\
            <a b='{current-group()}'/></xsl:for-each-group>",
            "",
        ),
        (
            "<xsl:for-each-group select='1' group-by='current-group()'/>",
            "XTUN0001",
        ),
        (
            "<xsl:for-each select='1'><xsl:sort select='current-group()'/></xsl:for-each>",
            "XTUN0001",
        ),
        (
            "<xsl:perform-sort select='1'><xsl:sort/></xsl:perform-sort>",
            "",
        ),
        ("<xsl:perform-sort><xsl:sort/><a/></xsl:perform-sort>", ""),
        ("<xsl:perform-sort select='1'/>", ""),
        (
            "<xsl:perform-sort select='1'><xsl:sort/><a/></xsl:perform-sort>",
            "XTSE1040",
        ),
        ("<xsl:perform-sort order='ascending'/>", "XTSE0090"),
        (
            "<xsl:value-of select='current-grouping-key()'/>",
            "XTUN0001",
        ),
        (
            "<xsl:for-each-group select='1' group-by='p:f(1)'/>",
            "XTUN0001",
        ),
        (
            "<xsl:for-each-group select='1' group-by='key(&quot;k&quot;, 1)'/>",
            "",
        ),
        (
            "<xsl:for-each-group select='1' group-starting-with='a union b'/>",
            "XTSE0340",
        ),
    ];
    for (of, code) in cases {
        assert!(rt; body_gets(&rt, of, code), "{of}");
    }
}

// Variables (XSLT 2.0, 9).
#[test]
fn variables(rt: HostRuntime) {
    let cases = [
        ("<xsl:variable name='a'/>", ""),
        ("<xsl:variable name='p:a' select='1' as='xs:integer'/>", ""),
        ("<xsl:variable name='a'>b</xsl:variable>", ""),
        ("<xsl:variable/>", "XTSE0010"),
        (
            "<xsl:variable name='a' select='1'>b</xsl:variable>",
            "XTSE0620",
        ),
        ("<xsl:variable name='1a'/>", "XTSE0020"),
        ("<xsl:variable name=' a'/>", "XTSE0020"),
        ("<xsl:variable name='{1}'/>", "XTSE0020"),
        ("<xsl:variable name='q:a'/>", "XTSE0280"),
        ("<xsl:variable name='q:a' xmlns:q='u'/>", ""),
        ("<xsl:variable name='xsl:a'/>", "XTSE0080"),
        ("<xsl:variable name='xml:a'/>", "XTSE0080"),
        ("<xsl:variable name='a' as=''/>", "XPST0003"),
        ("<xsl:variable name='a' select=''/>", "XPST0003"),
        ("<xsl:variable name='a' tunnel='yes'/>", "XTSE0090"),
        ("<xsl:variable name='a' required='yes'/>", "XTSE0090"),
        ("<xsl:variable name='a' as='xs:date'/>", "XPST0051"),
        ("<xsl:variable name='a' as='q:a'/>", "XPST0081"),
        ("<xsl:variable name='a' as='xs:integer*'/>", ""),
        ("<xsl:variable name='a' as='element(a)'/>", ""),
        ("<xsl:variable name='a' as='item()?'/>", ""),
        ("<xsl:variable name='a' as='empty-sequence()'/>", ""),
    ];
    for (of, code) in cases {
        assert!(rt; body_gets(&rt, of, code), "{of}");
    }
}

// Templates that are applied and called, and what is passed to them (XSLT 2.0, 6 and 10.1).
#[test]
fn calls(rt: HostRuntime) {
    let cases = [
        ("<xsl:apply-templates/>", ""),
        ("<xsl:apply-templates select='1' mode='m'/>", ""),
        ("<xsl:apply-templates mode=' #current '/>", ""),
        ("<xsl:apply-templates mode='#default'/>", ""),
        ("<xsl:apply-templates mode='#all'/>", "XTSE0020"),
        ("<xsl:apply-templates mode=''/>", "XTSE0020"),
        ("<xsl:apply-templates mode='m n'/>", "XTSE0020"),
        ("<xsl:apply-templates mode='q:m'/>", "XTSE0280"),
        (
            "<xsl:apply-templates><xsl:with-param name='a'/><xsl:sort/></xsl:apply-templates>",
            "",
        ),
        ("<xsl:apply-templates>a</xsl:apply-templates>", "XTSE0010"),
        (
            "<xsl:apply-templates><xsl:sort/><a/></xsl:apply-templates>",
            "XTSE0010",
        ),
        (
            "<xsl:apply-templates><xsl:with-param name='a'/><xsl:with-param name='a'/></xsl:apply-templates>",
            "XTSE0670",
        ),
        (
            "<xsl:apply-templates><xsl:with-param name='a' tunnel='yes'/><xsl:with-param name='a'/></xsl:apply-templates>",
            "XTSE0670",
        ),
        (
            "<xsl:apply-imports><xsl:with-param name='a' select='1'/></xsl:apply-imports>",
            "",
        ),
        ("<xsl:apply-imports select='1'/>", "XTSE0090"),
        (
            "<xsl:apply-imports><xsl:sort/></xsl:apply-imports>",
            "XTSE0010",
        ),
        (
            "<xsl:next-match><xsl:with-param name='a'>b</xsl:with-param></xsl:next-match>",
            "",
        ),
        ("<xsl:next-match mode='m'/>", "XTSE0090"),
        ("<xsl:next-match><a/></xsl:next-match>", "XTSE0010"),
        (
            "<xsl:call-template name='t'><xsl:with-param name='a'/><xsl:with-param name='p:a'/></xsl:call-template>",
            "",
        ),
        ("<xsl:call-template/>", "XTSE0010"),
        ("<xsl:call-template name='1'/>", "XTSE0020"),
        ("<xsl:call-template name='q:t'/>", "XTSE0280"),
        (
            "<xsl:call-template name='t'><xsl:sort/></xsl:call-template>",
            "XTSE0010",
        ),
        (
            "<xsl:call-template name='t'><xsl:with-param name='a' select='1'>b</xsl:with-param></xsl:call-template>",
            "XTSE0620",
        ),
        (
            "<xsl:call-template name='t'><xsl:with-param name='a' tunnel='maybe'/></xsl:call-template>",
            "XTSE0020",
        ),
        (
            "<xsl:call-template name='t'><xsl:with-param name='a' required='no'/></xsl:call-template>",
            "XTSE0090",
        ),
        (
            "<xsl:call-template name='t'><xsl:with-param/></xsl:call-template>",
            "XTSE0010",
        ),
        (
            "<xsl:call-template name='t'><xsl:with-param name='a'><xsl:if/></xsl:with-param></xsl:call-template>",
            "XTSE0010",
        ),
        (
            "<xsl:call-template name='t'><xsl:with-param name='z'/></xsl:call-template>",
            "XTSE0680",
        ),
        (
            "<xsl:call-template name='t'><xsl:with-param name='z' tunnel='yes'/></xsl:call-template>",
            "",
        ),
        ("<xsl:call-template name='r'/>", "XTSE0690"),
        (
            "<xsl:call-template name='r'><xsl:with-param name='a' tunnel='yes'/></xsl:call-template>",
            "XTSE0690",
        ),
        (
            "<xsl:call-template name='r'><xsl:with-param name='a'/></xsl:call-template>",
            "",
        ),
        ("<xsl:call-template name='none'/>", "XTSE0650"),
        ("<xsl:call-template name='p:t'/>", "XTSE0650"),
        (
            "<xsl:apply-templates><xsl:with-param name='z'/></xsl:apply-templates>",
            "",
        ),
    ];
    for (of, code) in cases {
        assert!(rt; body_gets(&rt, of, code), "{of}");
    }
}
