// What is read of bytes can be read as a module.
ghost use Rattle.std.specs.Prelude.{ℕ, List};
ghost use Rattle.xt_names.specs.declared.names.Binding.{Binding};
ghost use Rattle.xt_tree.specs.declared.trees.Tree.{Tree};
ghost use Rattle.doc_grammar.specs.Declarations.{IsDeclared};
ghost use Rattle.module_loading.specs.ModuleReader.Modules.{CanBeRead};

/// Of a document each element has its declarations, so it can be read as a module (Namespaces in
/// XML 1.0, 3).
pub fn documents_can_be_read()
    ensures { (bytes : List ℕ) (tree : Tree) (declared : List (List Binding))
        → IsDeclared bytes tree declared → CanBeRead tree declared }
{}
