// What comes before a token.
ghost use Rattle.std.specs.Prelude.{◌≡◌, ◌++◌, OnOk};
ghost use Rattle.query_pages.specs.Gaps.{spaces, gap_text};

use std::alloc::AllocError;
use xt_names::TextBuilder;

/// What comes before a token of expressions.
#[derive(Clone, Copy)]
pub enum Gap {
    /// One space.
    Space,
    /// One space, or a new line that is indented by so many spaces where the line would be long.
    Soft(u8),
    /// A new line that is indented by so many spaces.
    Line(u8),
}

fn push_spaces(out: &mut TextBuilder, count: u8) -> Result<(), AllocError>
    ensures { OnOk result (out.new ≡ out.old ++ spaces count) }
{
    let mut left = count;
    while left > 0 {
        out.push(' ')?;
        left -= 1;
    }
    Ok(())
}

/// Writes what comes before a token.
pub(crate) fn push_gap(out: &mut TextBuilder, gap: Gap) -> Result<(), AllocError>
    ensures { OnOk result (out.new ≡ out.old ++ gap_text gap) }
{
    match gap {
        Gap::Space => out.push(' '),
        Gap::Soft(_) => out.push(' '),
        Gap::Line(count) => {
            out.push('\n')?;
            push_spaces(out, count)?;
            Ok(())
        }
    }
}
