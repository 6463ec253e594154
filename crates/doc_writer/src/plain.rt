// Texts of ASCII characters, which are their own bytes.
ghost use Rattle.std.specs.Prelude.{◌≡◌, ◌++◌, IfOk, IsTrue, OnOk, nat_lt};
ghost use Rattle.std.specs.List.{list_all};

use std::alloc::{AllocError, Global};
use xt_names::{Text, TextBuilder};

/// Writes ASCII characters.
#[tactic(auto, using(xt_names::proofs::TextLemmas::ascii_same))]
pub(crate) fn push_ascii(out: &mut TextBuilder, s: &str) -> Result<(), AllocError>
    requires { IsTrue (list_all (λ b. nat_lt b 128) s.now) }
    ensures { OnOk result (out.new ≡ out.old ++ s.now) }
{
    out.push_str(s)
}

/// The text of ASCII characters.
#[tactic(auto, using(xt_names::proofs::TextLemmas::ascii_same))]
pub(crate) fn ascii_text(alloc: Global, s: &str) -> Result<Text, AllocError>
    requires { IsTrue (list_all (λ b. nat_lt b 128) s.now) }
    ensures { IfOk result (λ text. text ≡ s.now) }
{
    Text::make(alloc, s)
}
