// Variables, functions and options, one after another.
ghost use Rattle.std.specs.Prelude.{◌≡◌, ◌++◌, ◌∷◌, [], List as Items};
ghost use Rattle.xt_names.specs.declared.codes.Code.{Code};
ghost use Rattle.closed_queries.specs.declared.prolog_rules.declarations.Declaration.{Declaration};
ghost use Rattle.closed_queries.specs.declared.prolog_rules.declarations.Declaration.TheVariants as declaration;
ghost use Rattle.expr_names.specs.Answers.{Answers};
ghost use Rattle.query_options.specs.Options.{no_options, option_broken, with_option};
ghost use Rattle.query_resolve.specs.Declarations.{variable_broken, variable_meant};
ghost use Rattle.query_resolve.specs.Declarations.{function_broken, function_meant};
ghost use Rattle.query_resolve.specs.Late.{late_broken, late_behind, late_meant, all_broken};
ghost use Rattle.query_resolve.specs.Late.{declaration_in, options_behind};

use crate::declarations::{function_of, variable_of};
use closed_queries::prolog_rules::Declaration;
use expr_names::ResolveFault;
use expr_resolve::Setting;
use expr_terms::Token;
use query_grammar::Declared;
use query_options::{Options, no_options, with_option};
use std::alloc::Global;
use xt_names::{List, Text};
use xt_syntax::{QueryFunction, QueryVar};

/// What the second part of a prolog means so far.
/// (XQuery 1.0, 4.14 to 4.16)
#[derive(Drop)]
pub struct Late {
    /// The variables and functions, in order.
    pub declarations: List<Declaration>,
    /// What the options say.
    pub options: Options,
}

fn with_declaration(late: Late, declaration: Declaration) -> Result<Late, ResolveFault>
    ensures { Answers result []
        (record { declarations = late.declarations ++ declaration ∷ []; options = late.options }) }
{
    let mut declarations = late.declarations;
    declarations.push(declaration)?;
    Ok(Late {
        declarations,
        options: late.options,
    })
}

fn with_variable(late: Late, variable: Result<QueryVar, ResolveFault>) -> Result<Late, ResolveFault>
    ensures { (codes : Items Code) (v : QueryVar) → Answers variable codes v
        → Answers result codes (record {
          declarations = late.declarations ++ declaration.Variable v ∷ [];
          options = late.options;
        }) }
{
    match variable {
        Err(fault) => Err(fault),
        Ok(variable) => with_declaration(late, Declaration::Variable(variable)),
    }
}

fn with_function(
    late: Late,
    function: Result<QueryFunction, ResolveFault>,
) -> Result<Late, ResolveFault>
    ensures { (codes : Items Code) (f : QueryFunction) → Answers function codes f
        → Answers result codes (record {
          declarations = late.declarations ++ declaration.Function f ∷ [];
          options = late.options;
        }) }
{
    match function {
        Err(fault) => Err(fault),
        Ok(function) => with_declaration(late, Declaration::Function(function)),
    }
}

fn with_setting(
    alloc: Global,
    s: &Setting,
    late: Late,
    name: &Token,
    text: &Text,
) -> Result<Late, ResolveFault>
    ensures { Answers result (option_broken s.now.prefixes.bound late.options name.now text.now)
        (record {
          declarations = late.declarations;
          options = with_option s.now.prefixes.bound late.options name.now text.now;
        }) }
{
    let options = with_option(alloc, &s.prefixes.bound, late.options, name, text)?;
    Ok(Late {
        declarations: late.declarations,
        options,
    })
}

#[tactic(auto, unfolding(crate::specs::Late::late_broken, crate::specs::Late::declaration_in, crate::specs::Late::options_behind))]
fn with_declared(
    alloc: Global,
    s: &Setting,
    late: Late,
    declared: &Declared,
) -> Result<Late, ResolveFault>
    ensures { Answers result (late_broken s.now late.options declared.now)
        (late_behind s.now late declared.now) }
{
    match declared {
        Declared::Setting(name, text) => with_setting(alloc, s, late, name, text),
        Declared::Variable(variable, value) => {
            with_variable(late, variable_of(alloc, s, variable, value))
        }
        Declared::Function(name, params, kind, body) => {
            let function = function_of(alloc, s, name, params.as_slice(), kind, body);
            with_function(late, function)
        }
        _ => Ok(late),
    }
}

fn nothing_late(alloc: Global) -> Late
    ensures { result ≡ record { declarations = []; options = no_options } }
{
    Late {
        declarations: List::new(alloc),
        options: no_options(alloc),
    }
}

/// What the variables, functions and options of a prolog mean, or the code of the first rule that
/// they break in how they are written.
/// (XQuery 1.0, 4.14 to 4.16)
#[tactic(auto, using(expr_names::proofs::Follow::fault_first, expr_names::proofs::Follow::fault_next))]
pub(crate) fn late_of(
    alloc: Global,
    s: &Setting,
    declared: &[Declared],
) -> Result<Late, ResolveFault>
    ensures { Answers result (all_broken s.now no_options declared.now)
        (late_meant s.now declared.now) }
{
    let mut late = nothing_late(alloc);
    let mut left = declared;
    while let [first, rest @ ..] = left {
        late = with_declared(alloc, s, late, first)?;
        left = rest;
    }
    Ok(late)
}
