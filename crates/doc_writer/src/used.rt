ghost use Rattle.std.specs.Prelude.{◌≡◌, ◌++◌, ◌∷◌, [], ℕ, List, IfOk, OnOk, OnErr, true, if◌then◌else◌};
ghost use Rattle.std.specs.HashSet.{contains};
ghost use Rattle.std.specs.List.{list_any};
ghost use Rattle.std.specs.Str.{bytes_eq};

use std::alloc::{AllocError, Global};
use std::collections::HashSet;
use std::marker::Model;
use xt_names::Text;

/// The prefixes that a start tag writes so far; contracts see them as a list in the order written.
#[derive(Drop)]
pub(crate) struct UsedPrefixes {
    alloc: Global,
    prefixes: Vec<Text>,
    /// The first of them, so many as were there when one was last looked for.
    known: HashSet<Text>,
    count: usize,
}

impl Model for UsedPrefixes {
    ghost use Rattle.std.specs.Prelude.{List, ℕ};
    ghost use Rattle.std.specs.HashSet.{contains};
    ghost use Rattle.std.specs.Str.{bytes_eq};
    ghost use Rattle.doc_writer.specs.Used.{AreKnown};

    ghost Value = { List (List ℕ) };

    ghost view = { λ u. u.prefixes.items };

    ghost invariant = { λ u. AreKnown u.prefixes.items (λ p. contains bytes_eq u.known p) u.count };
}

impl UsedPrefixes {
    /// No prefixes.
    pub fn new(alloc: Global) -> UsedPrefixes
        ensures { result ≡ [] }
    {
        UsedPrefixes {
            alloc,
            prefixes: Vec::new(alloc),
            known: HashSet::new(alloc),
            count: 0,
        }
    }

    /// The prefixes in the order written.
    pub fn as_slice(&self) -> &[Text]
        ensures { result.now ≡ self.now }
    {
        self.prefixes.as_slice()
    }

    /// Begins a start tag.
    pub fn clear(&mut self)
        ensures { self.new ≡ [] }
    {
        self.prefixes.clear();
        // Most tags look for none. A table is not cleared but given up, since that takes no time where it was large once.
        if self.count > 0 {
            self.known = HashSet::new(self.alloc);
            self.count = 0;
        }
    }

    /// Puts a prefix at the end.
    pub fn push(&mut self, prefix: Text) -> Result<(), AllocError>
        ensures { OnOk result (self.new ≡ self.old ++ prefix ∷ []) }
    {
        self.prefixes.push(prefix)?;
        Ok(())
    }

    /// Whether the prefix is among them.
    pub fn has(&mut self, prefix: &Text) -> Result<bool, AllocError>
        ensures prefixes { self.new ≡ self.old }
        ensures found { IfOk result (λ found. found ≡ list_any (λ p. bytes_eq p prefix.now) self.old) }
    {
        while self.count < self.prefixes.len() {
            put_prefix(&mut self.known, &self.prefixes[self.count])?;
            self.count += 1;
        }
        Ok(self.known.contains(prefix))
    }
}

/// Puts the prefix into the table.
fn put_prefix(known: &mut HashSet<Text>, prefix: &Text) -> Result<(), AllocError>
    ensures ok { OnOk result ((p : List ℕ) → contains bytes_eq known.new p ≡ (if bytes_eq prefix.now p then true else contains bytes_eq known.old p)) }
    ensures err { OnErr result ((p : List ℕ) → contains bytes_eq known.new p ≡ contains bytes_eq known.old p) }
{
    known.insert(prefix.copy()?)?;
    Ok(())
}
