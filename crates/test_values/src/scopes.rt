// Scopes as a writer of elements uses them.
use crate::made::text;
use name_scopes::NamespaceScope;
use std::alloc::AllocGlobal;
use std::process::Abort;
use xt_names::{Binding, List};

fn binding(rt: &(impl Abort + AllocGlobal), prefix: &str, uri: &str) -> Binding {
    Binding {
        prefix: text(rt, prefix),
        uri: text(rt, uri),
    }
}

// `p` is bound to `u`, and `q` to `v`.
fn scope(rt: &(impl Abort + AllocGlobal)) -> NamespaceScope {
    let mut bindings = List::new(rt.alloc());
    bindings.push(binding(rt, "p", "u")).expect(rt, "memory");
    bindings.push(binding(rt, "q", "v")).expect(rt, "memory");
    let mut scope = NamespaceScope::new(rt.alloc());
    scope.push_all(bindings.as_slice()).expect(rt, "memory");
    scope
}

#[test]
fn all_the_bindings_are_in_force(rt: HostRuntime) {
    let scope = scope(&rt);
    assert!(rt; scope.binds_to(&text(&rt, "p"), &text(&rt, "u")));
    assert!(rt; !scope.binds_to(&text(&rt, "p"), &text(&rt, "v")));
    drop(scope);
}

#[test]
fn only_the_last_is_from_its_place_on(rt: HostRuntime) {
    let scope = scope(&rt);
    assert!(rt; scope.binds_from(1, &text(&rt, "q")));
    assert!(rt; !scope.binds_from(1, &text(&rt, "p")));
    drop(scope);
}

#[test]
fn the_last_binding_stands_behind_the_first(rt: HostRuntime) {
    let scope = scope(&rt);
    assert_eq!(rt; scope.len(), 2);
    assert!(rt; matches!(scope.from(1), [only] if only.binding.prefix.is("q")));
    drop(scope);
}
