// What holds of look-ups, whatever is looked up.
ghost use Rattle.std.specs.Prelude.{List};
ghost use Rattle.xdm_items.specs.declared.items.Item.{Item};
ghost use Rattle.key_index.specs.Answers.{IsKeyAnswer, StandInOrder};
ghost use Rattle.key_index.specs.Keys.{key_nodes};
ghost use Rattle.key_index.specs.declared.indexes.KeyPair.{KeyPair};

/// Where the pairs stand in document order, a look-up gives the nodes in document order, each of
/// them once: exactly those that have a value which is the same as a given one, as the function key
/// is to answer (XSLT 2.0, 16.3.2).
pub fn look_ups_stand_in_document_order()
    ensures { (pairs : List KeyPair) (values : List Item) → StandInOrder pairs
        → IsKeyAnswer pairs values (key_nodes pairs values) }
{}
