//! Loops, sorts and groups of a stylesheet do in its query what they do in the stylesheet: lemmas for
//! the laws above, nothing runs.
//!
//! They stand over the places of `lockstep`: xsl:for-each, xsl:perform-sort, xsl:apply-templates, and
//! groups by keys. A binding that nothing mentions may be left out (`Unmentioned`, `Needed`), and the
//! keys of an order are the same on both sides (`SortKeys`).
#![tactic(auto)]
