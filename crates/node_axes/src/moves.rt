// Moves from place to place in a tree. A path has room for the longest way down, so no move takes memory.
ghost use Rattle.std.specs.Prelude.{◌≡◌, ◌+◌, ◌<◌, ◌≤◌, ◌++◌, ◌∷◌, [], true, false, length, nat_lt, List, ℕ};
ghost use Rattle.std.specs.Option.{SomeIff};
ghost use Rattle.std.specs.Vec.{vec_len, vec_capacity};
ghost use Rattle.xt_tree.specs.TreeView.{tree_depth};
ghost use Rattle.node_axes.specs.Moves.{count_at, attribute_count_at, Down, Right, NoRight, Left, NoLeft, Up, Skips, AllBehind, Backs, NoneBack};
ghost use Rattle.node_axes.specs.Paths.{stands, is_before_all, is_earlier, is_not_later, is_over, has_path};

use xt_tree::{Tree, tree_at};

/// How many children the node at the path has.
fn child_count(tree: &Tree, path: &[usize]) -> usize
    ensures { result ≡ count_at tree.now path.now }
{
    match tree_at(tree, path) {
        Some(tree) => tree.kids().len(),
        None => 0,
    }
}

/// How many attributes the node at the path has.
pub(crate) fn attribute_count(tree: &Tree, path: &[usize]) -> usize
    ensures { result ≡ attribute_count_at tree.now path.now }
{
    match tree_at(tree, path) {
        Some(tree) => tree.attributes().len(),
        None => 0,
    }
}

/// The place of the child after the place; None where there is none.
fn next_place(tree: &Tree, path: &[usize], place: usize) -> Option<usize>
    ensures { SomeIff result (place + 1 < count_at tree.now path.now) (place + 1) }
{
    let count = child_count(tree, path);
    if count > 0 && place < count - 1 {
        Some(place + 1)
    } else {
        None
    }
}

/// One step more, for which there is room.
fn push(path: &mut Vec<usize>, place: usize)
    requires { vec_len path.old < vec_capacity path.old }
    ensures items { path.new.items ≡ path.old.items ++ place ∷ [] }
    ensures room { vec_capacity path.old ≤ vec_capacity path.new }
{
    if path.push(place).is_err() {
        unreachable!();
    }
}

/// To the first child; false where there is none.
pub(crate) fn go_down(tree: &Tree, path: &mut Vec<usize>) -> bool
    requires exists { has_path tree.now path.old.items ≡ true }
    requires room { tree_depth tree.now ≤ vec_capacity path.old }
    ensures yes { result ≡ true → Down tree.now path.old.items path.new.items }
    ensures no { result ≡ false → count_at tree.now path.old.items ≡ 0 }
    ensures stays { result ≡ false → path.new.items ≡ path.old.items }
    ensures room { vec_capacity path.old ≤ vec_capacity path.new }
{
    if child_count(tree, path.as_slice()) == 0 {
        return false;
    }
    push(path, 0);
    true
}

/// To the next child of the same parent; false where there is none.
pub(crate) fn go_right(tree: &Tree, path: &mut Vec<usize>) -> bool
    requires exists { has_path tree.now path.old.items ≡ true }
    requires room { tree_depth tree.now ≤ vec_capacity path.old }
    ensures yes { result ≡ true → Right tree.now path.old.items path.new.items }
    ensures no { result ≡ false → NoRight tree.now path.old.items }
    ensures room { vec_capacity path.old ≤ vec_capacity path.new }
{
    match path.pop() {
        Some(place) => match next_place(tree, path.as_slice(), place) {
            Some(next) => {
                push(path, next);
                true
            }
            None => false,
        },
        None => false,
    }
}

/// To the child before, of the same parent; false where there is none.
pub(crate) fn go_left(tree: &Tree, path: &mut Vec<usize>) -> bool
    requires exists { has_path tree.now path.old.items ≡ true }
    requires room { tree_depth tree.now ≤ vec_capacity path.old }
    ensures yes { result ≡ true → Left tree.now path.old.items path.new.items }
    ensures no { result ≡ false → NoLeft path.old.items }
    ensures room { vec_capacity path.old ≤ vec_capacity path.new }
{
    match path.pop() {
        Some(place) => {
            if place == 0 {
                return false;
            }
            push(path, place - 1);
            true
        }
        None => false,
    }
}

/// To the node above; false at the root.
pub(crate) fn go_up(tree: &Tree, path: &mut Vec<usize>) -> bool
    requires { has_path tree.now path.old.items ≡ true }
    ensures yes { result ≡ true → Up tree.now path.old.items path.new.items }
    ensures no { result ≡ false → path.old.items ≡ [] }
    ensures room { vec_capacity path.old ≤ vec_capacity path.new }
{
    let _ = tree;
    match path.pop() {
        Some(_) => true,
        None => false,
    }
}

/// To the first node after all that is below the node, whose way has more steps than so many; false where there is none.
pub(crate) fn skip(tree: &Tree, path: &mut Vec<usize>, base: usize) -> bool
    requires exists { has_path tree.now path.old.items ≡ true }
    requires room { tree_depth tree.now ≤ vec_capacity path.old }
    requires base { base ≤ length path.old.items }
    ensures yes { result ≡ true → Skips is_before_all tree.now base path.old.items path.new.items }
    ensures no { result ≡ false → AllBehind is_before_all tree.now base path.old.items }
    ensures room { vec_capacity path.old ≤ vec_capacity path.new }
{
    while path.len() > base {
        if let Some(place) = path.pop() {
            if let Some(next) = next_place(tree, path.as_slice(), place) {
                push(path, next);
                return true;
            }
        }
    }
    false
}

/// To the first node after the node, whose way has more steps than so many; false where there is none.
pub(crate) fn go_on(tree: &Tree, path: &mut Vec<usize>, base: usize) -> bool
    requires exists { has_path tree.now path.old.items ≡ true }
    requires room { tree_depth tree.now ≤ vec_capacity path.old }
    requires base { base ≤ length path.old.items }
    ensures yes { result ≡ true → Skips is_earlier tree.now base path.old.items path.new.items }
    ensures no { result ≡ false → AllBehind is_earlier tree.now base path.old.items }
    ensures room { vec_capacity path.old ≤ vec_capacity path.new }
{
    if go_down(tree, path) {
        return true;
    }
    skip(tree, path, base)
}

/// To the last node below.
fn go_last(tree: &Tree, path: &mut Vec<usize>)
    requires exists { has_path tree.now path.old.items ≡ true }
    requires room { tree_depth tree.now ≤ vec_capacity path.old }
    ensures exists { has_path tree.now path.new.items ≡ true }
    ensures last { count_at tree.now path.new.items ≡ 0 }
    ensures behind { (m : List ℕ) → has_path tree.now m ≡ true → is_before_all (stands path.new.items m) ≡ is_before_all (stands path.old.items m) }
    ensures room { vec_capacity path.old ≤ vec_capacity path.new }
{
    let mut count = child_count(tree, path.as_slice());
    while count > 0 {
        push(path, count - 1);
        count = child_count(tree, path.as_slice());
    }
}

/// To the last node before that is not above the start; false where there is none.
pub(crate) fn go_back(tree: &Tree, start: &[usize], path: &mut Vec<usize>) -> bool
    requires exists { has_path tree.now path.old.items ≡ true }
    requires start { has_path tree.now start.now ≡ true }
    requires room { tree_depth tree.now ≤ vec_capacity path.old }
    requires clear { is_not_later (stands path.old.items start.now) ≡ true }
    ensures yes { result ≡ true → Backs tree.now start.now path.old.items path.new.items }
    ensures no { result ≡ false → NoneBack tree.now start.now path.old.items }
    ensures room { vec_capacity path.old ≤ vec_capacity path.new }
{
    while let Some(place) = path.pop() {
        if place > 0 {
            push(path, place - 1);
            go_last(tree, path);
            return true;
        }
        if !is_above(path.as_slice(), start) {
            return true;
        }
    }
    false
}

/// Whether the way to the second goes by the first.
fn is_above(above: &[usize], path: &[usize]) -> bool
    ensures { result ≡ is_over (stands above.now path.now) }
{
    path.starts_with(above)
}
