//! The grammar of documents: which text stands for which tree, and where a text fails to be one.
//!
//! Definitions and laws alone; nothing runs. `IsDocument` of specs/Document.antt is the grammar, by the
//! productions of XML 1.0 and Namespaces in XML 1.0, without internal subsets and with no encoding but
//! UTF-8. `IsDeclared` of specs/Declarations.antt says which namespace declarations a document has, and
//! `HasSpot` of specs/SpotCases.antt which spot a refused text gets. specs/Machine.antt is a machine
//! that reads a text character by character; the laws below tie it to the grammar.
#![tactic(auto)]

ghost use Rattle.std.specs.Prelude.{◌≡◌, ℕ, ◌≤◌, List, ◌++◌, length, true};
ghost use Rattle.xt_tree.specs.Sound.{is_sound_tree};
ghost use Rattle.xt_tree.specs.TreeView.{tree_size};
ghost use Rattle.xt_tree.specs.declared.trees.Tree.{Tree as AnyTree};
ghost use Rattle.doc_grammar.specs.Scopes.{opened};
ghost use Rattle.doc_grammar.specs.Document.{IsDocument};
ghost use Rattle.doc_grammar.specs.Machine.{run, start, Stop as AnyStop, stops};
ghost use Rattle.doc_grammar.specs.Skeleton.{IsFirstFault};
ghost use Rattle.doc_grammar.specs.Lines.{text_of, offset};
ghost use Rattle.doc_grammar.specs.Places.{IsPlace};
ghost use Rattle.doc_grammar.specs.Faults.{first_fault};
ghost use Rattle.doc_grammar.specs.SpotCases.{IsSpot, HasSpot};
ghost use Rattle.doc_grammar.specs.declared.spots.Spot.{Spot as AnySpot};

mod declarations;
mod spots;

pub use declarations::{declarations_are_one, declarations_are_read, values_are_small};
pub use spots::Spot;

/// At most one tree stands for a text (XML 1.0; Namespaces in XML 1.0).
pub fn documents_are_one()
    ensures { (bytes : List ℕ) (s t : AnyTree) → IsDocument bytes s → IsDocument bytes t → s ≡ t }
{}

/// A reading that stops leaves an end of the text, and the first fault stands right before it. But for the rules on names,
/// what was read begins the skeleton of some document, and with the character that follows it begins none. At a start tag
/// that breaks a rule on names, what was read and `>` begin a skeleton, but no document.
pub fn stops_at_the_first_fault()
    ensures leaves { (cs rest : List ℕ) (why : AnyStop) → run opened cs start ≡ stops why rest → (front : List ℕ) × (cs ≡ front ++ rest) }
    ensures first { (cs front rest : List ℕ) (why : AnyStop) → run opened cs start ≡ stops why rest → cs ≡ front ++ rest → IsFirstFault why front rest }
{}

/// A text that is no document has the spot that the grammar tells: the first that fits of a start tag
/// that breaks a rule on names, an internal subset, another encoding, an entity, an element too many,
/// and any other place. Only one fits a text that is parted at its fault.
pub fn spots_fit_the_grammar()
    ensures fits { (bytes : List ℕ) → HasSpot bytes (first_fault bytes) }
    ensures one { (s t : AnySpot) (front rest : List ℕ) (at : ℕ) → IsSpot s front rest at
        → IsSpot t front rest at → s ≡ t }
{}

/// The place of a fault is the number of bytes before it: the characters of the text are parted there, the first ones have so many
/// bytes and are read as what was read, and the others are read as what was left. A byte order mark and each byte of a line end
/// count.
pub fn places_are_bytes()
    ensures offsets { (cs front rest : List ℕ) → text_of cs ≡ front ++ rest → IsPlace cs rest (offset cs rest) }
    ensures faults { (cs rest : List ℕ) (why : AnyStop) → run opened (text_of cs) start ≡ stops why rest → IsPlace cs rest (offset cs rest) }
{}

/// What stands for a text of fewer than 2^63 bytes is a sound tree: it has allowed names, no attribute twice, no empty or
/// neighbouring texts, and at most 2,000 elements inside of one another. It has no more nodes and attributes than the text has
/// bytes.
pub fn documents_are_sound()
    ensures sound { (bytes : List ℕ) (t : AnyTree) → length bytes ≤ 0x7FFF_FFFF_FFFF_FFFF → IsDocument bytes t → is_sound_tree t ≡ true }
    ensures small { (bytes : List ℕ) (t : AnyTree) → IsDocument bytes t → tree_size t ≤ length bytes }
{}
