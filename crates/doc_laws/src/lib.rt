//! Laws of what is written: which items have a text, and that the text of a document is read back.
//!
//! Definitions and laws alone; nothing runs. `IsDocument` of doc_grammar says which tree a text stands
//! for, and `written_tree` of doc_writer which bytes are written for a tree. A sound document with one
//! element and no text at its top, and no carriage return in comments and instructions, is read back
//! from what is written of it, with the XML declaration and without it; sound items have a text
//! exactly where none of them is an attribute.
#![tactic(auto)]

ghost use Rattle.std.specs.Prelude.{◌≡◌, ℕ, List, [], ◌∷◌, ◌++◌, true};
ghost use Rattle.xt_names.specs.Classes.{is_xml_text};
ghost use Rattle.xt_tree.specs.Sound.{is_sound_comment, is_sound_pi};
ghost use Rattle.xt_tree.specs.declared.trees.Tree.TheVariants.{Comment, Pi};
ghost use Rattle.doc_grammar.specs.Document.{Valued};
ghost use Rattle.doc_grammar.specs.Lexemes.{Misc};
ghost use Rattle.doc_writer.specs.Escapes.{escaped_value};
ghost use Rattle.doc_writer.specs.Written.{written_comment, written_pi, written_tree, written_bare};
ghost use Rattle.doc_writer.specs.WrittenItems.{written_items, written_items_bare};
ghost use Rattle.doc_laws.specs.ItemTexts.{AttributesHaveNoText};
ghost use Rattle.doc_laws.specs.ReadBack.{DocumentsReadBack, TextsReadBack};

/// What is written for a text is read back as that text, wherever it is in an element, and what is written for a value as
/// that value, in double quotes (XML 1.0, 2.4 and 3.3.3; Serialization, 5).
pub fn written_texts_read_back()
    ensures texts { TextsReadBack }
    ensures values { (value rest : List ℕ) → is_xml_text value ≡ true → Valued 34 [] (escaped_value value ++ 34 ∷ rest) value rest }
{}

/// What is written for a sound comment or processing instruction is read back as that (XML 1.0, 2.5 and 2.6).
pub fn written_markup_reads_back()
    ensures comments { (t rest : List ℕ) → is_sound_comment t ≡ true → Misc (written_comment t ++ rest) (Comment t) rest }
    ensures instructions { (target t rest : List ℕ) → is_sound_pi target t ≡ true → Misc (written_pi target t ++ rest) (Pi target t) rest }
{}

/// The bytes that are written for a readable document are a document, which stands for the same tree with the prefixes that are
/// written: `as_written` of doc_writer; with the XML declaration before them and without it. Readable is a sound document of one element and no text, whose comments and
/// processing instructions hold no carriage return (XML 1.0; Namespaces in XML 1.0; Serialization, 5).
pub fn written_documents_read_back()
    ensures declared { DocumentsReadBack written_tree }
    ensures bare { DocumentsReadBack written_bare }
{}

/// Sound items have a text exactly where none of them is an attribute (Serialization, 2).
pub fn attributes_alone_have_no_text()
    ensures declared { AttributesHaveNoText written_items }
    ensures bare { AttributesHaveNoText written_items_bare }
{}
