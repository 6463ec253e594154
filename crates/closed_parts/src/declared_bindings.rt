//! Declarations of namespaces in documents: those that may stand (Namespaces in XML 1.0, 3). A law
//! alone.

ghost use Rattle.std.specs.Prelude.{◌≡◌, ℕ, List, true};
ghost use Rattle.doc_grammar.specs.Declarations.{IsDeclared};
ghost use Rattle.closed_parts.specs.SoundNodes.Sound.{are_good_declarations};
ghost use Rattle.xt_names.specs.declared.names.Binding.{Binding};
ghost use Rattle.xt_tree.specs.declared.trees.Tree.{Tree};

/// Each declaration of a namespace in a document is that of the prefix xml with its own uri, or
/// one that may be declared, with a prefix and a uri of characters of XML (Namespaces in XML 1.0,
/// 3).
pub fn declarations_of_documents_may_stand()
    ensures { (bytes : List ℕ) (tree : Tree) (declared : List (List Binding))
        → IsDeclared bytes tree declared → are_good_declarations declared ≡ true }
{}
