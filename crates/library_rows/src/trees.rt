//! Rows of trees: a call, and behind ` = ` its answer; and a wide and a deep tree, where there is memory.
use crate::words::{first_word, row_of, told};
use dav_path_core::errors::{FsError, FsResult};
use dav_path_core::tree::{ROOT_ID, Tree};
use std::alloc::Global;
use std::test::Fail;

type Letters = Tree<u64, u64>;

// `add PARENT KEY ITEM` and `move ID PARENT KEY`, with `!` to overwrite; `lost N` counts unknown numbers up to N, `children ID` the children;
// `walk 1` tells all in the order of a walk, and `raise N` the next number once it is N at least.
// No node is 0. The last two trees have wide nodes.
const ROWS: &str = "new = 0
add 1 a 20 = 2
add 2 b 30 = 3
add 1 a 40 = Exists
add 9 a 40 = NotFound
add 1 c 40 = 4
get 1 a = 2
get 2 a = NotFound
find 2 b = 3
find 1 b = NotFound
set 3 31 = 0
item 3 = 31
item 2 = 20
item 4 = 40
item 5 = NotFound
set 5 31 = NotFound
new = 0
first 1 = 0
add 1 a 20 = 2
add 1 b 30 = 3
add 3 c 40 = 4
first 1 = 3
first 3 = 4
next 3 = 2
next 2 = 0
next 4 = 0
first 4 = 0
parent 4 = 3
parent 3 = 1
parent 1 = 0
next 1 = 0
parent 5 = NotFound
first 5 = NotFound
next 5 = NotFound
new = 0
add 1 a 20 = 2
add 1 b 30 = 3
add 1 c 40 = 4
delete 3 = 30
first 1 = 4
next 4 = 2
item 3 = NotFound
get 1 b = NotFound
delete 3 = NotFound
delete 1 = Forbidden
add 4 a 50 = 5
delete 4 = Forbidden
item 5 = 50
delete 5 = 50
delete 4 = 40
first 1 = 2
next 2 = 0
add 1 b 60 = 6
new = 0
add 1 a 20 = 2
add 1 b 30 = 3
add 1 c 40 = 4
move 3 2 b = 0
first 1 = 4
next 4 = 2
next 2 = 0
first 2 = 3
parent 3 = 2
next 3 = 0
get 2 b = 3
get 1 b = NotFound
move! 2 3 a = Forbidden
move! 2 2 a = Forbidden
move! 1 1 b = Forbidden
move! 9 1 b = NotFound
move! 3 9 b = NotFound
move! 4 1 a = Exists
move 3 2 b = Exists
move! 3 2 b = 0
get 2 b = 3
move! 3 1 c = 0
item 4 = NotFound
get 1 c = 3
item 3 = 30
first 2 = 0
new = 0
add 1 a 10 = 2
add 2 b 11 = 3
add 1 a 12 = Exists
add! 1 a 13 = 4
item 2 = NotFound
item 3 = NotFound
first 1 = 4
next 4 = 0
add 4 b 14 = 5
move! 4 5 c = Forbidden
move! 4 1 a = Exists
move! 5 4 b = 0
get 4 b = 5
parent 5 = 4
move 5 4 b = Exists
move 5 1 z = 0
move! 4 1 z = 0
item 5 = NotFound
delete 4 = 13
delete 1 = Forbidden
delete-subtree 1 = Forbidden
move! 1 1 z = Forbidden
add 1 b 15 = 6
new = 0
add 1 a 20 = 2
add 1 b 20 = 3
add 1 c 20 = 4
add 3 a 20 = 5
add 3 b 20 = 6
add 3 c 20 = 7
add 7 a 30 = 8
lost 8 = 0
delete-subtree 3 = 0
lost 8 = 5
item 2 = 20
item 4 = 20
first 1 = 4
next 4 = 2
next 2 = 0
get 1 b = NotFound
delete-subtree 3 = NotFound
delete-subtree 2 = 0
lost 8 = 6
add 1 b 100 = 9
new = 0
add 1 a 20 = 2
add 1 b 20 = 3
add 1 c 20 = 4
add 3 a 20 = 5
add 3 b 20 = 6
add 3 c 20 = 7
add 7 a 30 = 8
add! 1 b 80 = 9
lost 9 = 5
get 1 b = 9
item 9 = 80
first 1 = 9
next 9 = 4
next 4 = 2
next 2 = 0
get 1 a = 2
first 9 = 0
add! 3 b 90 = NotFound
add! 9 b 90 = 10
new = 0
add 1 a 20 = 2
add 1 b 30 = 3
add 1 c 40 = 4
children 1 = 3
add 2 a 50 = 5
move 3 2 b = 0
children 1 = 2
children 2 = 2
children 4 = 0
children 9 = NotFound
new = 0
add 1 a 1 = 2
add 1 b 1 = 3
add 1 c 1 = 4
add 1 d 1 = 5
add 1 e 1 = 6
add 1 f 1 = 7
add 1 g 1 = 8
add 1 h 1 = 9
add 1 i 1 = 10
add 1 j 1 = 11
add 1 k 1 = 12
add 1 l 1 = 13
add 1 m 1 = 14
add 1 n 1 = 15
add 1 o 1 = 16
add 1 p 1 = 17
add 1 q 1 = 18
add 1 r 1 = 19
add 1 s 1 = 20
add 1 t 1 = 21
get 1 a = 2
get 1 p = 17
find 1 q = 18
get 1 t = 21
find 1 z = NotFound
get 2 a = NotFound
get 9999 a = NotFound
add 1 k 2 = Exists
delete 12 = 1
get 1 k = NotFound
add 1 k 5 = 22
get 1 k = 22
find 1 j = 11
move 22 1 z = 0
get 1 k = NotFound
get 1 z = 22
add 2 k 6 = 23
move 23 1 k = 0
get 1 k = 23
get 2 k = NotFound
move! 23 1 z = 0
get 1 z = 23
get 1 k = NotFound
item 22 = NotFound
add! 1 z 9 = 24
get 1 z = 24
item 23 = NotFound
add 24 a 1 = 25
add! 1 z 9 = 26
lost 26 = 5
get 1 z = 26
get 26 a = NotFound
add 26 z 1 = 27
move! 27 1 k = 0
get 26 z = NotFound
find 1 k = 27
delete-subtree 26 = 0
find 1 z = NotFound
get 1 s = 20
parent 20 = 1
set 20 7 = 0
get 1 s = 20
new = 0
add 1 a 1 = 2
add 2 a 1 = 3
add 2 b 1 = 4
add 2 c 1 = 5
add 2 d 1 = 6
add 2 e 1 = 7
add 2 f 1 = 8
add 2 g 1 = 9
add 2 h 1 = 10
add 2 i 1 = 11
add 2 j 1 = 12
add 2 k 1 = 13
add 2 l 1 = 14
add 2 m 1 = 15
add 2 n 1 = 16
add 2 o 1 = 17
add 1 p 1 = 18
move 18 2 p = 0
get 2 p = 18
find 2 a = 3
get 2 q = NotFound
add 2 q 1 = 19
get 2 q = 19
delete 18 = 1
get 2 p = NotFound
move 3 1 b = 0
get 2 a = NotFound
get 1 b = 3
delete-subtree 2 = 0
get 1 a = NotFound
get 2 c = NotFound
add 1 a 1 = 20
get 20 c = NotFound
new = 0
add 1 a 10 = 2
add 1 b 20 = 3
add 2 c 30 = 4
walk 1 = 1324
raise 18446744073709551614 = 18446744073709551614
add 1 d 40 = 18446744073709551614
raise 0 = 18446744073709551615
add 1 e 50 = InsufficientStorage
raise 0 = 18446744073709551615
get 1 e = NotFound";

fn answer_to(alloc: Global, tree: &mut Letters, call: &str) -> FsResult<u64> {
    let (name, rest) = first_word(call);
    let (id, rest) = first_word(rest);
    let (second, third) = first_word(rest);
    let id = number(id)?;
    if second.is_empty() {
        return of_node(alloc, tree, name, id);
    }
    if third.is_empty() {
        return of_child(tree, name, id, second);
    }
    changed(tree, name, id, second, third)
}

fn of_node(alloc: Global, tree: &mut Letters, name: &str, id: u64) -> FsResult<u64> {
    match name {
        "item" => Ok(*tree.get_node(id)?),
        "parent" => Ok(tree.parent_of(id)?.unwrap_or(0)),
        "first" => Ok(tree.first_child(id)?.unwrap_or(0)),
        "next" => Ok(tree.next_sibling(id)?.unwrap_or(0)),
        "children" => children(alloc, tree, id),
        "lost" => Ok(lost(tree, id)),
        "walk" => Ok(walked(tree)),
        "raise" => Ok(raised(tree, id)),
        "delete" => Ok(tree.delete_node(id)?.item),
        "delete-subtree" => done(tree.delete_subtree(id)),
        _ => Err(FsError::NotImplemented),
    }
}

fn of_child(tree: &mut Letters, name: &str, id: u64, word: &str) -> FsResult<u64> {
    match name {
        "get" => tree.get_child(id, &key(word)),
        "find" => find(tree, id, key(word)),
        "set" => set(tree, id, number(word)?),
        _ => Err(FsError::NotImplemented),
    }
}

fn find(tree: &Letters, id: u64, key: u64) -> FsResult<u64> {
    tree.find_child(id, |other| *other == key)
}

fn set(tree: &mut Letters, id: u64, item: u64) -> FsResult<u64> {
    *tree.get_node_mut(id)? = item;
    Ok(0)
}

fn changed(tree: &mut Letters, name: &str, id: u64, second: &str, third: &str) -> FsResult<u64> {
    match name {
        "add" => tree.add_child(id, key(second), number(third)?, false),
        "add!" => tree.add_child(id, key(second), number(third)?, true),
        "move" => done(tree.move_node(id, number(second)?, key(third), false)),
        "move!" => done(tree.move_node(id, number(second)?, key(third), true)),
        _ => Err(FsError::NotImplemented),
    }
}

fn done(answer: FsResult<()>) -> FsResult<u64> {
    answer?;
    Ok(0)
}

fn children(alloc: Global, tree: &Letters, id: u64) -> FsResult<u64> {
    let pairs: Vec<(u64, u64)> = tree.get_children(id)?.collect(alloc)?;
    Ok(pairs.len() as u64)
}

// The numbers that a walk meets, in order, as the digits of one.
fn walked(tree: &Letters) -> u64 {
    let mut digits = 0u64;
    for id in tree.walk() {
        digits = digits.saturating_mul(10).saturating_add(id);
    }
    digits
}

// The next number, once it is raised.
fn raised(tree: &mut Letters, next: u64) -> u64 {
    tree.raise_next_number(next);
    tree.next_number()
}

// How many numbers from 1 to another are unknown.
fn lost(tree: &Letters, to: u64) -> u64 {
    let mut lost = 0u64;
    for id in 1..=to {
        if tree.get_node(id).is_err() {
            lost = lost.saturating_add(1);
        }
    }
    lost
}

fn number(word: &str) -> FsResult<u64> {
    word.parse().map_err(|_| FsError::GeneralFailure)
}

// A letter as a key.
fn key(word: &str) -> u64 {
    word.bytes().next().unwrap_or(0) as u64
}

fn answered(alloc: Global, tree: &mut Letters, call: &str) -> Result<String, Fail> {
    if call == "new" {
        *tree = Tree::new(alloc, 0)?;
        return Ok(told(alloc, done(Ok(())))?);
    }
    Ok(told(alloc, answer_to(alloc, tree, call))?)
}

#[test]
fn plays_on_trees(rt: HostRuntime) -> Result<(), Fail> {
    let mut tree: Letters = Tree::new(rt.alloc(), 0)?;
    for row in ROWS.split('\n') {
        let (call, wanted) = row_of(row)?;
        let answer = answered(rt.alloc(), &mut tree, call)?;
        assert!(rt; answer.as_str() == wanted, "{row}, not {answer}");
    }
    Ok(())
}

const MANY: u64 = 10_000;

// How many children a wide node has: to add one, a tree walks those that are there.
const WIDE: u64 = 1_000;

/// A tree whose root has so many children.
fn wide(alloc: Global) -> FsResult<Letters> {
    let mut tree = Tree::new(alloc, 0)?;
    for key in 0..WIDE {
        tree.add_child(ROOT_ID, key, key, false)?;
    }
    Ok(tree)
}

/// A chain of so many nodes below the root.
fn deep(alloc: Global) -> FsResult<Letters> {
    let mut tree = Tree::new(alloc, 0)?;
    let mut at = ROOT_ID;
    for turn in 0..MANY {
        at = tree.add_child(at, 0, turn, false)?;
    }
    Ok(tree)
}

// Puts another node at the end, and carries the lower half to the root: the item that went, the number that came, and the parent of the half.
fn carry_half(tree: &mut Letters) -> FsResult<[Option<u64>; 3]> {
    *tree.get_node_mut(10_001)? = 7;
    let gone = tree.delete_node(10_001)?.item;
    let added = tree.add_child(9_999, 0, 7, true)?;
    tree.move_node(5_000, ROOT_ID, 1, false)?;
    Ok([Some(gone), Some(added), tree.parent_of(5_000)?])
}

// Drops both halves: what is left of each, and below the root.
fn drop_halves(tree: &mut Letters) -> FsResult<[Option<u64>; 3]> {
    tree.delete_subtree(2)?;
    let cut = tree.get_node(4_999).ok().copied();
    tree.delete_subtree(5_000)?;
    let end = tree.get_node(10_002).ok().copied();
    Ok([cut, end, tree.first_child(ROOT_ID)?])
}

#[test]
fn keeps_wide_and_deep_trees(rt: HostRuntime) -> Result<(), Fail> {
    assert!(rt; children(rt.alloc(), &wide(rt.alloc())?, ROOT_ID)? == WIDE);
    let mut tree = deep(rt.alloc())?;
    assert!(rt; carry_half(&mut tree)? == [Some(7), Some(10_002), Some(ROOT_ID)]);
    assert!(rt; drop_halves(&mut tree)? == [None, None, None]);
    Ok(())
}
