// What the helper functions give.
ghost use Rattle.std.specs.Prelude.{ℕ, List};
ghost use Rattle.expr_meaning.specs.Outcomes.Outcome.{Every};
ghost use Rattle.xdm_items.specs.declared.items.Item.{Item};
ghost use Rattle.expr_meaning.specs.Env.{Binding};
ghost use Rattle.expr_meaning.specs.Queries.{Run};
ghost use Rattle.meaning_laws.specs.SoundValues.Sound.{IsSound};
ghost use Rattle.query_helpers.specs.Bounds.{IsHelper};
ghost use Rattle.query_helpers.specs.Last.{IsPlaced};
ghost use Rattle.query_helpers.specs.LastBody.{last_function};
ghost use Rattle.query_helpers.specs.CopyBody.{copy_function};
ghost use Rattle.query_helpers.specs.NodesBody.{nodes_function};
ghost use Rattle.query_helpers.specs.SimpleBody.{simple_function};
ghost use Rattle.query_helpers.specs.Helpers.{CopyGives, Has, KeepsContent, LastGives, NodesGives, SimpleGives};

/// `nodes` gives its items where all are nodes, and fails otherwise.
pub fn nodes_gives_nodes()
    ensures { (run : Run) → Has run nodes_function → (globals : List Binding) (n : ℕ) →
        NodesGives run globals n }
{}

/// `last` gives what is kept of its items. It counts them only where two are attributes with one name.
pub fn last_gives_what_is_kept()
    ensures { (run : Run) → Has run last_function → (globals : List Binding) (n : ℕ) →
        LastGives run globals n }
{}

/// An element of a query takes of what is kept what an element of a stylesheet takes of all, or both
/// fail (XSLT 2.0, 5.7.1; XQuery 1.0, 3.7.1.3).
pub fn what_is_kept_has_the_same_content()
    ensures { (xs : List Item) → Every IsPlaced xs → KeepsContent xs }
{}

/// Each sound node has a tree below it, and no document has an attribute as its child.
pub fn nodes_of_sound_trees_are_placed()
    ensures { (x : Item) → IsSound x → IsPlaced x }
{}

/// `simple` gives the simple content of its items (XSLT 2.0, 5.7.2). It counts them only where one is a
/// text node.
pub fn simple_gives_simple_content()
    ensures { (run : Run) → Has run simple_function → (globals : List Binding) (n : ℕ) →
        SimpleGives run globals n }
{}

/// `copy` gives a new node with the tree below its node, which has the next number, and an atom as it is
/// (XSLT 2.0, 11.9).
pub fn copy_gives_an_equal_tree()
    ensures { (run : Run) → Has run copy_function → (globals : List Binding) (n : ℕ) →
        CopyGives run globals n }
{}

/// The helper functions have the form that the grammar gives, their names and texts are those that XML
/// allows, and they name nothing but their parameters, what they bind themselves, and functions of the
/// library. None nests more than eleven levels.
pub fn helpers_fit_into_every_query()
    ensures nodes { IsHelper nodes_function 1 }
    ensures copy { IsHelper copy_function 5 }
    ensures last { IsHelper last_function 10 }
    ensures simple { IsHelper simple_function 11 }
{}
