// Which expressions are regular and plain, and which predicates are quiet.
use crate::exprs::{comma, text_of};
use crate::made::{list_of, shared, text};
use std::alloc::AllocGlobal;
use std::process::Abort;
use xt_forms::{
    a_whole_nests_one_more_than_its_parts, is_plain, is_quiet, is_regular,
    plain_and_quiet_expressions_are_regular,
};
use xt_names::{ExprName, List};
use xt_syntax::Expr;

const FN: &str = "http://www.w3.org/2005/xpath-functions";

// the call of a function of XPath without arguments
fn call(rt: &(impl Abort + AllocGlobal), local: &str) -> Expr {
    let name = ExprName {
        uri: text(rt, FN),
        local: text(rt, local),
    };
    Expr::Call(name, shared(rt, List::new(rt.alloc())))
}

fn has_forms(e: Expr, regular: bool, plain: bool, quiet: bool) -> bool {
    let answer = is_regular(&e) == regular && is_plain(&e) == plain && is_quiet(&e) == quiet;
    drop(e);
    answer
}

#[test]
fn forms_are_told(rt: HostRuntime) {
    assert!(rt; has_forms(call(&rt, "last"), true, true, true));
    assert!(rt; has_forms(call(&rt, "current"), true, false, false));
    assert!(rt; has_forms(text_of(&rt, Expr::Context), true, false, false));
    plain_and_quiet_expressions_are_regular();
    a_whole_nests_one_more_than_its_parts();
}

fn is_spelled(e: Expr) -> bool {
    let answer = is_regular(&e);
    drop(e);
    answer
}

#[test]
fn no_text_spells_a_negative_integer_or_a_list_of_one_item(rt: HostRuntime) {
    assert!(rt; !is_spelled(Expr::Int(-1)));
    assert!(rt; !is_spelled(comma(&rt, list_of(&rt, Expr::Root))));
}
