// Sets of documents, and their files.
use crate::made::text;
use doc_set::{DocSet, FetchFault, fetch};
use std::alloc::AllocGlobal;
use std::process::Abort;
use xt_io::MemFiles;
use xt_names::{List, Text};
use xt_tree::{Kids, Tree};

fn document(rt: &(impl Abort + AllocGlobal), comment: &str) -> Tree {
    let mut kids = List::new(rt.alloc());
    kids.push(Tree::Comment(text(rt, comment)))
        .expect(rt, "memory");
    Tree::Doc(Kids::make(rt.alloc(), kids).expect(rt, "memory"))
}

fn added(
    rt: &(impl Abort + AllocGlobal),
    set: &mut DocSet,
    name: &str,
    comment: &str,
) -> Option<u64> {
    set.add(name, document(rt, comment)).expect(rt, "memory")
}

// the number of the tree, or 0 where the name is not there
fn number_of(rt: &(impl Abort + AllocGlobal), set: &DocSet, name: &str) -> u64 {
    match set.find(name).expect(rt, "memory") {
        Some(node) => {
            let number = node.number();
            drop(node);
            number
        }
        None => 0,
    }
}

#[test]
fn documents_are_found_by_name(rt: HostRuntime) {
    let mut set = DocSet::new(rt.alloc());
    assert!(rt; added(&rt, &mut set, "a", "1") == Some(1));
    assert!(rt; added(&rt, &mut set, "b", "2") == Some(2));
    assert!(rt; added(&rt, &mut set, "a", "3") == None);
    let copy = set.copy().expect(&rt, "memory");
    assert!(rt; number_of(&rt, &copy, "a") == 1 && number_of(&rt, &copy, "b") == 2);
    assert!(rt; number_of(&rt, &copy, "c") == 0 && copy.len() == 2);
    drop(copy);
    drop(set);
}

fn files(rt: &(impl Abort + AllocGlobal)) -> MemFiles {
    let mut files = MemFiles::new(rt.alloc());
    files.add("a", b"12").expect(rt, "memory");
    files.add("b", b"3").expect(rt, "memory");
    files
}

fn names(rt: &(impl Abort + AllocGlobal), list: &[&str]) -> List<Text> {
    let mut names = List::new(rt.alloc());
    for name in list {
        names.push(text(rt, name)).expect(rt, "memory");
    }
    names
}

// the bytes of all files, or the name of the file that is not read
fn fetched(rt: &(impl Abort + AllocGlobal), list: &[&str]) -> List<u8> {
    let mut files = files(rt);
    let names = names(rt, list);
    let answer = fetch(rt.alloc(), &mut files, &names);
    drop(names);
    drop(files);
    bytes_of(rt, answer)
}

fn bytes_of(
    rt: &(impl Abort + AllocGlobal),
    answer: Result<List<List<u8>>, FetchFault>,
) -> List<u8> {
    let mut bytes = List::new(rt.alloc());
    match answer {
        Ok(texts) => {
            for text in texts.as_slice() {
                add_bytes(rt, &mut bytes, text.as_slice());
            }
            drop(texts);
        }
        Err(FetchFault::Load(name)) => {
            add_bytes(rt, &mut bytes, name.as_str().as_bytes());
            drop(name);
        }
        Err(fault) => drop(fault),
    }
    bytes
}

fn add_bytes(rt: &(impl Abort + AllocGlobal), bytes: &mut List<u8>, more: &[u8]) {
    for byte in more {
        bytes.push(*byte).expect(rt, "memory");
    }
}

#[test]
fn files_are_fetched_in_turn(rt: HostRuntime) {
    let both = fetched(&rt, &["b", "a"]);
    assert!(rt; both.as_slice() == b"312".as_slice());
    let refused = fetched(&rt, &["a", "c", "d"]);
    assert!(rt; refused.as_slice() == b"c".as_slice());
    drop(both);
    drop(refused);
}

// How many bytes the one file has as it is fetched, or, where it is too long, how many are told,
// and whether it is too long.
fn fetched_size(rt: &(impl Abort + AllocGlobal), size: usize) -> (u64, bool) {
    let bytes = vec![in rt.alloc(); b'a'; size].expect(rt, "memory");
    let mut files = MemFiles::new(rt.alloc());
    files.add("a", bytes.as_slice()).expect(rt, "memory");
    drop(bytes);
    let names = names(rt, &["a"]);
    let answer = fetch(rt.alloc(), &mut files, &names);
    drop(names);
    drop(files);
    size_of(answer)
}

fn size_of(answer: Result<List<List<u8>>, FetchFault>) -> (u64, bool) {
    match answer {
        Ok(texts) => {
            let size = match texts.as_slice() {
                [text] => text.len() as u64,
                _ => 0,
            };
            drop(texts);
            (size, false)
        }
        Err(FetchFault::TooLong(name, size)) => {
            drop(name);
            (size, true)
        }
        Err(fault) => {
            drop(fault);
            (0, true)
        }
    }
}

// 64 MiB are fetched, and one byte more is not.
#[test]
fn the_longest_file_is_fetched(rt: HostRuntime) {
    assert!(rt; fetched_size(&rt, 67_108_864) == (67_108_864, false));
    assert!(rt; fetched_size(&rt, 67_108_865) == (67_108_865, true));
}
