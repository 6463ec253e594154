// What the parts of one document share.
ghost use Rattle.std.specs.Prelude.{◌≡◌, [], IfOk};
ghost use Rattle.std.specs.Str.{chars};
ghost use Rattle.xt_tree.specs.TreeView.{forest_of};

use std::alloc::{AllocError, Global};
use std::collections::HashMap;
use std::marker::Model;
use xt_names::{List, Text};
use xt_tree::{Attribute, Attrs, Kids, Tree};

/// So many names are kept, so that a document of ever new names takes no more memory for them.
const MOST: usize = 4096;

/// What the parts of one document share: the texts of names, the empty text, and the empty lists.
#[derive(Drop)]
pub(crate) struct Pool {
    empty: Text,
    no_attributes: Attrs,
    no_kids: Kids,
    /// Each text by its bytes.
    texts: HashMap<String, Text>,
}

impl Model for Pool {
    ghost use Rattle.std.specs.Prelude.{List, ℕ};
    ghost use Rattle.std.specs.HashMap.{get_by_text};
    ghost use Rattle.doc_reader.specs.Pools.{IsPool};

    ghost Value = { List ℕ };

    ghost view = { λ p. p.empty };

    ghost invariant = { λ p. IsPool p.empty p.no_attributes p.no_kids (λ bytes. get_by_text p.texts bytes) };
}

impl Pool {
    /// Before the first name.
    #[tactic(auto, using(crate::proofs::ScopeLemmas::chars_empty))]
    pub(crate) fn new(alloc: Global) -> Result<Pool, AllocError> {
        Ok(Pool {
            empty: Text::make(alloc, "")?,
            no_attributes: Attrs::make(alloc, List::new(alloc))?,
            no_kids: Kids::make(alloc, List::new(alloc))?,
            texts: HashMap::new(alloc),
        })
    }

    /// The empty text.
    pub(crate) fn empty(&self) -> Result<Text, AllocError>
        ensures { IfOk result (λ text. text ≡ []) }
    {
        self.empty.copy()
    }

    /// The text of a name, which is made once.
    pub(crate) fn text(&mut self, alloc: Global, name: &str) -> Result<Text, AllocError>
        ensures { IfOk result (λ text. text ≡ chars name.now) }
    {
        if let Some(text) = self.texts.get(name) {
            return text.copy();
        }
        let text = Text::make(alloc, name)?;
        if self.texts.len() < MOST {
            self.keep(alloc, name, &text)?;
        }
        Ok(text)
    }

    // Keeps the text of a name. Where the table cannot grow, the name is not kept.
    fn keep(&mut self, alloc: Global, name: &str, text: &Text) -> Result<(), AllocError>
        requires { text.now ≡ chars name.now }
    {
        let key = String::from_str(alloc, name)?;
        match self.texts.insert(key, text.copy()?) {
            Ok(_) => Ok(()),
            Err(_) => Ok(()),
        }
    }

    /// The attributes of an element.
    pub(crate) fn attributes(
        &self,
        alloc: Global,
        items: List<Attribute>,
    ) -> Result<Attrs, AllocError>
        ensures { IfOk result (λ attributes. attributes ≡ items) }
    {
        if items.is_empty() {
            self.no_attributes.copy()
        } else {
            Attrs::make(alloc, items)
        }
    }

    /// The children of an element.
    pub(crate) fn kids(&self, alloc: Global, items: List<Tree>) -> Result<Kids, AllocError>
        ensures { IfOk result (λ kids. kids ≡ forest_of items) }
    {
        if items.is_empty() {
            self.no_kids.copy()
        } else {
            Kids::make(alloc, items)
        }
    }
}
