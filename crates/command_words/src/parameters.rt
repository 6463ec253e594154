// Parameters: names with their texts.
ghost use Rattle.std.specs.Prelude.{◌≡◌, map, true, false, Some, None, option_map};
ghost use Rattle.std.specs.Prelude.{MatchOption, IfOk, if◌then◌else◌};
ghost use Rattle.std.specs.List.{before_first, after_first};
ghost use Rattle.command_words.specs.Requests.{has_equals, is_equals, is_parameter, given_in};
ghost use Rattle.command_words.specs.Requests.{given_of, parameters_of};

use crate::different::are_different;
use std::alloc::{AllocError, Global};
use xt_names::{List, Text, is_ncname, is_xml_text};

/// A parameter of a stylesheet, or an external variable of a query. Its name has no namespace.
#[derive(Drop)]
pub struct Parameter {
    /// The name, which has no colon.
    pub name: Text,
    /// What it is given, as characters of XML.
    pub value: Text,
}

// The parts before and after the first `=`.
fn split(word: &str) -> Option<(&str, &str)>
    ensures { MatchOption result (has_equals word.now ≡ false)
        (λ p. (has_equals word.now ≡ true) × (p.0.now ≡ before_first is_equals word.now)
        × (p.1.now ≡ after_first is_equals word.now)) }
{
    word.split_once('=')
}

fn parameter_of(alloc: Global, word: &str) -> Result<Option<Parameter>, AllocError>
    ensures { IfOk result (λ parameter. option_map given_of parameter
        ≡ (if is_parameter word.now then Some (given_in word.now) else None)) }
{
    let Some((name, value)) = split(word) else {
        return Ok(None);
    };
    if !is_ncname(name) || !is_xml_text(value) {
        return Ok(None);
    }
    Ok(Some(Parameter {
        name: Text::make(alloc, name)?,
        value: Text::make(alloc, value)?,
    }))
}

/// The parameters that the words are, if all are and no name stands twice.
pub(crate) fn parameters_of(
    alloc: Global,
    words: &[&str],
) -> Result<Option<List<Parameter>>, AllocError>
    ensures { IfOk result (λ parameters. option_map (map given_of) parameters
        ≡ parameters_of (map (λ b. b.now) words.now)) }
{
    let mut names = List::new(alloc);
    let mut parameters = List::new(alloc);
    for word in words {
        let Some(parameter) = parameter_of(alloc, word)? else {
            return Ok(None);
        };
        names.push(parameter.name.copy()?)?;
        parameters.push(parameter)?;
    }
    if !are_different(alloc, names.as_slice())? {
        return Ok(None);
    }
    Ok(Some(parameters))
}
