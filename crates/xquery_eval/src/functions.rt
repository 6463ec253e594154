// The functions of a query.
ghost use Rattle.std.specs.Prelude.{◌≡◌, IfOk, OnOk, slice_get};
ghost use Rattle.std.specs.Option.{option_copied};
ghost use Rattle.indexmap.specs.IndexMap.{get};
ghost use Rattle.name_rules.specs.Scopes.{same_signature};
ghost use Rattle.name_rules.specs.declared.functions.Signature.{Signature as ASignature};
ghost use Rattle.expr_meaning.specs.Queries.{find_function};
ghost use Rattle.xquery_eval.specs.Tables.{first_place, signature_of};

use indexmap::IndexMap;
use name_rules::Signature;
use std::alloc::{AllocError, Global};
use std::marker::Model;
use xt_names::ExprName;
use xt_syntax::QueryFunction;

/// The functions of a query, which are found by a table; contracts see their list.
#[derive(Drop)]
pub(crate) struct FunctionTable<'a> {
    functions: &'a [QueryFunction],
    places: IndexMap<Signature, usize>,
}

impl<'a> Model for FunctionTable<'a> {
    ghost use Rattle.std.specs.Prelude.{List};
    ghost use Rattle.std.specs.Coded.{codes};
    ghost use Rattle.xt_syntax.specs.contracts.exprs.Expr as e;
    ghost use Rattle.xt_syntax.specs.declared.queries.QueryFunction.{QueryFunction};
    ghost use Rattle.xquery_eval.specs.Tables.{IsTableOf};

    ghost Value = { List QueryFunction };

    ghost coded = { Prim.hlevel (codes, e.the_row.coded) };

    ghost view = { λ t. t.functions.now };

    ghost invariant = { λ t. IsTableOf t.functions.now t.places };
}

impl<'a> FunctionTable<'a> {
    /// The table of the functions. Where two have one name and as many parameters, the first
    /// counts.
    pub(crate) fn of(
        alloc: Global,
        functions: &'a [QueryFunction],
    ) -> Result<FunctionTable<'a>, AllocError>
        ensures { IfOk result (λ table. table ≡ functions.entry.now) }
    {
        let mut places = IndexMap::new(alloc);
        let mut left = functions.len();
        while left > 0 {
            left -= 1;
            put_place(&mut places, &functions[left], left)?;
        }
        Ok(FunctionTable { functions, places })
    }

    /// The function of the name with so many parameters (XQuery 1.0, 4.15).
    pub(crate) fn find(
        &self,
        name: &ExprName,
        arity: usize,
    ) -> Result<Option<&'a QueryFunction>, AllocError>
        ensures { IfOk result (λ f. option_copied f ≡ find_function self.now name.now arity) }
    {
        let signature = Signature {
            name: name.copy()?,
            arity,
        };
        match self.places.get(&signature) {
            None => Ok(None),
            Some(place) => Ok(function_at(self.functions, *place)),
        }
    }
}

fn function_at<'a>(functions: &'a [QueryFunction], place: usize) -> Option<&'a QueryFunction>
    ensures { option_copied result ≡ slice_get functions.entry.now place }
{
    functions.get(place)
}

/// Puts the function's place under its signature.
fn put_place(
    places: &mut IndexMap<Signature, usize>,
    function: &QueryFunction,
    place: usize,
) -> Result<(), AllocError>
    ensures { OnOk result ((s : ASignature) → get same_signature places.new s
        ≡ first_place (signature_of function.now) place (get same_signature places.old s) s) }
{
    let signature = Signature {
        name: function.name.copy()?,
        arity: function.params.len(),
    };
    places.insert(signature, place)?;
    Ok(())
}
