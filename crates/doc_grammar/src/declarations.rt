// The namespace declarations of a document, and how much a document holds.

ghost use Rattle.std.specs.Prelude.{◌≡◌, ℕ, ◌≤◌, List, length};
ghost use Rattle.std.specs.Str.{IsUtf8, chars};
ghost use Rattle.xt_names.specs.declared.names.Binding.{Binding as AnyBinding};
ghost use Rattle.xt_tree.specs.declared.trees.Tree.{Tree as AnyTree};
ghost use Rattle.doc_grammar.specs.Scopes.{opened};
ghost use Rattle.doc_grammar.specs.Lines.{text_of};
ghost use Rattle.doc_grammar.specs.Document.{IsDocument};
ghost use Rattle.doc_grammar.specs.Declarations.{IsDeclared};
ghost use Rattle.doc_grammar.specs.Amounts.{element_count, value_size};
ghost use Rattle.doc_grammar.specs.Machine.{run, start, whole};

/// The declarations that a reading finds are those of the text, and it finds all of them.
pub fn declarations_are_read()
    ensures found { (bytes : List ℕ) (t : AnyTree) (ds : List (List AnyBinding)) →
        IsUtf8 bytes → run opened (text_of (chars bytes)) start ≡ whole t ds →
        IsDeclared bytes t ds }
    ensures all { (bytes : List ℕ) (t : AnyTree) (ds : List (List AnyBinding)) →
        IsDeclared bytes t ds → run opened (text_of (chars bytes)) start ≡ whole t ds }
{}

/// A document has one list of declarations for each of its elements, in one way alone.
pub fn declarations_are_one()
    ensures some { (bytes : List ℕ) (t : AnyTree) → IsDocument bytes t →
        (ds : List (List AnyBinding)) × IsDeclared bytes t ds }
    ensures one { (bytes : List ℕ) (s t : AnyTree) (ds es : List (List AnyBinding)) →
        IsDeclared bytes s ds → IsDeclared bytes t es → ds ≡ es }
    ensures each { (bytes : List ℕ) (t : AnyTree) (ds : List (List AnyBinding)) →
        IsDeclared bytes t ds → length ds ≡ element_count t }
{}

/// The values of all attributes of a document have no more characters together than the text has
/// bytes.
pub fn values_are_small()
    ensures { (bytes : List ℕ) (t : AnyTree) → IsDocument bytes t → value_size t ≤ length bytes }
{}
