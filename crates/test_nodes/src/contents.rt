// Content as it is before it becomes a tree.
use crate::made::{REFUSE, two_items, word};
use node_builder::{Content, Holder, content_of};
use xt_tree::Tree;

fn is_joined(content: &Content) -> bool {
    content.attributes.is_empty()
        && matches!(content.kids.as_slice(), [Tree::Text(text)] if text.is("a b"))
}

#[test]
fn two_words_become_one_text(rt: HostRuntime) {
    let items = two_items(&rt, word(&rt, "a"), word(&rt, "b"));
    let content = content_of(rt.alloc(), REFUSE, Holder::Element, &items).expect(&rt, "content");
    drop(items);
    assert!(rt; is_joined(&content));
    drop(content);
}
