// Which functions expressions of stylesheets may call.
ghost use Rattle.std.specs.Prelude.{◌≡◌};
ghost use Rattle.std.specs.Str.{chars};
ghost use Rattle.sheet_expressions.specs.Calls.{is_left_out_text, is_left_out_other, is_left_out};
ghost use Rattle.sheet_expressions.specs.Calls.{is_of_group, call_in_fn, sheet_call};

use function_table::is_in_fn;
use xt_names::{ExprName, is_ascii_text};

/// What a stylesheet asks of a call of a function.
#[derive(Clone, Copy)]
pub enum SheetCall {
    /// Nothing.
    Plain,
    /// Not to stand anywhere: the function is left out.
    LeftOut,
    /// To stand within an `xsl:for-each-group` (XSLT 2.0, 14.1).
    InGroup,
    /// To have a literal first, which writes the name of a key (XSLT 2.0, 16.3).
    Key,
}

#[tactic(auto, unfolding(crate::specs::Calls::is_left_out_text))]
fn is_left_out_text(local: &str) -> bool
    ensures { result ≡ is_left_out_text (chars local.now) }
{
    is_ascii_text(local, "lower-case")
        || is_ascii_text(local, "matches")
        || is_ascii_text(local, "normalize-unicode")
        || is_ascii_text(local, "replace")
        || is_ascii_text(local, "tokenize")
        || is_ascii_text(local, "upper-case")
        || is_ascii_text(local, "format-number")
}

#[tactic(auto, unfolding(crate::specs::Calls::is_left_out_other))]
fn is_left_out_other(local: &str) -> bool
    ensures { result ≡ is_left_out_other (chars local.now) }
{
    is_ascii_text(local, "avg")
        || is_ascii_text(local, "generate-id")
        || is_ascii_text(local, "id")
        || is_ascii_text(local, "idref")
        || is_ascii_text(local, "number")
        || is_ascii_text(local, "system-property")
        || is_ascii_text(local, "unparsed-text")
}

fn is_left_out(local: &str, arity: usize) -> bool
    ensures { result ≡ is_left_out (chars local.now) arity }
{
    is_left_out_text(local)
        || is_left_out_other(local)
        || (is_ascii_text(local, "error") && !(arity == 0))
        || (is_ascii_text(local, "key") && arity == 3)
}

fn is_of_group(local: &str, arity: usize) -> bool
    ensures { result ≡ is_of_group (chars local.now) arity }
{
    (is_ascii_text(local, "current-group") || is_ascii_text(local, "current-grouping-key"))
        && arity == 0
}

fn call_in_fn(local: &str, arity: usize) -> SheetCall
    ensures { result ≡ call_in_fn (chars local.now) arity }
{
    if is_left_out(local, arity) {
        SheetCall::LeftOut
    } else if is_of_group(local, arity) {
        SheetCall::InGroup
    } else if is_ascii_text(local, "key") && arity == 2 {
        SheetCall::Key
    } else {
        SheetCall::Plain
    }
}

/// What a stylesheet asks of a call of the function with so many arguments. Whether there is such a
/// function is not told here.
#[tactic(auto, unfolding(crate::specs::Calls::sheet_call))]
pub fn sheet_call(name: &ExprName, arity: usize) -> SheetCall
    ensures { result ≡ sheet_call name.now arity }
{
    if is_in_fn(name) {
        call_in_fn(name.local.as_str(), arity)
    } else {
        SheetCall::Plain
    }
}
