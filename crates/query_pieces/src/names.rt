// The names of direct elements and of their attributes.
ghost use Rattle.std.specs.Prelude.{◌≡◌, MatchBool, MatchOption, Some, None};
ghost use Rattle.std.specs.Str.{chars};
ghost use Rattle.query_pieces.specs.Fronts.{local_at, NameAt, name_at};

use crate::classes::NameChar;
use crate::scans::Scan;
use std::alloc::{AllocError, Global};
use xt_names::Text;

impl<'a> Scan<'a> {
    /// Takes a colon that a name directly follows; else nothing.
    fn colon(&mut self) -> bool
        ensures { MatchBool result (local_at self.old ≡ Some self.new)
            ((local_at self.old ≡ None) × (self.new ≡ self.old)) }
    {
        let before = self.rest();
        if self.eat(':') {
            if self.begins_name() {
                return true;
            }
            *self = Scan::new(before);
        }
        false
    }

    /// Takes a name: its prefix, which may be empty, and its local part.
    pub(crate) fn name(&mut self) -> Option<(&'a str, &'a str)>
        ensures { MatchOption result (name_at self.old ≡ None)
            (λ name. name_at self.old ≡ Some (record {
              prefix = chars name.0.now;
              local = chars name.1.now;
              rest = self.new;
            })) }
    {
        if !self.begins_name() {
            return None;
        }
        let first = self.take_run::<NameChar>();
        if self.colon() {
            let local = self.take_run::<NameChar>();
            return Some((first, local));
        }
        Some(("", first))
    }
}
