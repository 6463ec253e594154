ghost use Rattle.std.specs.Prelude.{◌≡◌, IfOk};

use node_tests::xt_tree::Node;
use std::alloc::AllocError;
use xt_atoms::Atom;
use xt_names::Share;

/// An item: a node or an atomic value (XDM, 2.1).
#[derive(Drop)]
pub enum Item {
    Node(Node),
    Atom(Atom),
}

impl Item {
    /// The same item, which shares its parts.
    pub fn copy(&self) -> Result<Item, AllocError>
        ensures { IfOk result (λ copy. copy ≡ self.now) }
    {
        match self {
            Item::Node(node) => Ok(Item::Node(node.copy()?)),
            Item::Atom(atom) => Ok(Item::Atom(atom.copy()?)),
        }
    }
}

impl Share for Item {
    fn share(&self) -> Result<Item, AllocError> {
        self.copy()
    }
}
