// Attributes with one of two values.
ghost use Rattle.std.specs.Prelude.{IsTrue, nat_lt};
ghost use Rattle.std.specs.List.{list_all};
ghost use Rattle.expr_names.specs.Answers.{Answers};
ghost use Rattle.sheet_values.specs.Choices.{choice_faults, choice_value, yes_faults, yes_value};

use crate::faults::refuse_if;
use expr_names::ResolveFault;
use xt_names::{SheetStaticCode, Text, is_ascii_text};

/// Whether the text is the first of two words of ASCII characters; XTSE0020 where it is neither
/// (XSLT 2.0, 3.6).
pub fn choice(text: &Text, first: &str, second: &str) -> Result<bool, ResolveFault>
    requires first { IsTrue (list_all (λ b. nat_lt b 128) first.now) }
    requires second { IsTrue (list_all (λ b. nat_lt b 128) second.now) }
    ensures { Answers result (choice_faults first.now second.now text.now)
        (choice_value first.now text.now) }
{
    let is_first = is_ascii_text(text.as_str(), first);
    let is_second = is_ascii_text(text.as_str(), second);
    refuse_if(SheetStaticCode::XTSE0020, !(is_first || is_second))?;
    Ok(is_first)
}

/// Whether the text is `yes`; XTSE0020 where it is neither that nor `no` (XSLT 2.0, 3.6).
pub fn yes_or_no(text: &Text) -> Result<bool, ResolveFault>
    ensures { Answers result (yes_faults text.now) (yes_value text.now) }
{
    choice(text, "yes", "no")
}
