//! A tree of words.

ghost use Rattle.std.specs.Prelude.{◌≡◌, ◌<◌, ◌∷◌, ◌++◌, List, map, reverse, length, IfOk, Some};
ghost use Rattle.machine_code.specs.declared.tree.Letter.{Letter as Symbol};
ghost use Rattle.machine_code.specs.inner.Tree.{IsTree, Extends, edge as edge_of, with_edge as put, empty, reaches};
ghost use Rattle.machine_code.specs.inner.Tree.{letter_of, word};

use causes::NoMemory;
use std::alloc::Global;
use wasm_syntax::{FuncType, ValType};

/// A letter of the word that a function type is: its parameters, an arrow, its results.
#[derive(Clone, Copy)]
pub(crate) enum Letter {
    I32,
    I64,
    Arrow,
}

/// Where the words go on from a node of the tree: the index of a node for each next letter.
#[derive(Clone, Copy)]
pub(crate) struct Node {
    on_i32: Option<usize>,
    on_i64: Option<usize>,
    on_arrow: Option<usize>,
}

fn of_type(t: ValType) -> Letter
    ensures { result ≡ letter_of t }
{
    match t {
        ValType::I32 => Letter::I32,
        ValType::I64 => Letter::I64,
    }
}

fn leaf() -> Node
    ensures { result ≡ empty }
{
    Node {
        on_i32: None,
        on_i64: None,
        on_arrow: None,
    }
}

fn edge(node: Node, letter: Letter) -> Option<usize>
    ensures { result ≡ edge_of node letter }
{
    match letter {
        Letter::I32 => node.on_i32,
        Letter::I64 => node.on_i64,
        Letter::Arrow => node.on_arrow,
    }
}

fn with_edge(node: Node, letter: Letter, to: usize) -> Node
    ensures { result ≡ put node letter to }
{
    let mut node = node;
    match letter {
        Letter::I32 => node.on_i32 = Some(to),
        Letter::I64 => node.on_i64 = Some(to),
        Letter::Arrow => node.on_arrow = Some(to),
    }
    node
}

/// A tree of the empty word alone.
pub(crate) fn new_tree(alloc: Global) -> Result<Vec<Node>, NoMemory>
    ensures { IfOk result (λ nodes. IsTree nodes.items) }
{
    let mut nodes = Vec::new(alloc);
    nodes.push(leaf())?;
    Ok(nodes)
}

/// The node one letter on, which is made where it is not there.
fn go(nodes: &mut Vec<Node>, at: usize, letter: Letter) -> Result<usize, NoMemory>
    requires tree { IsTree nodes.old.items }
    requires there { at < length nodes.old.items }
    ensures tree { IsTree nodes.new.items }
    ensures extends { Extends nodes.old.items nodes.new.items }
    ensures there { IfOk result (λ to. to < length nodes.new.items) }
    ensures goes { (w : List Symbol) → reaches nodes.old.items w ≡ Some at
        → IfOk result (λ to. reaches nodes.new.items (letter ∷ w) ≡ Some to) }
{
    let node = nodes[at];
    match edge(node, letter) {
        Some(to) => Ok(to),
        None => {
            let to = nodes.as_slice().len();
            nodes.push(leaf())?;
            nodes[at] = with_edge(node, letter, to);
            Ok(to)
        }
    }
}

/// The node some types on.
fn go_all(nodes: &mut Vec<Node>, at: usize, types: &[ValType]) -> Result<usize, NoMemory>
    requires tree { IsTree nodes.old.items }
    requires there { at < length nodes.old.items }
    ensures tree { IsTree nodes.new.items }
    ensures extends { Extends nodes.old.items nodes.new.items }
    ensures there { IfOk result (λ to. to < length nodes.new.items) }
    ensures goes { (w : List Symbol) → reaches nodes.old.items w ≡ Some at
        → IfOk result (λ to. reaches nodes.new.items (reverse (map letter_of types.now) ++ w)
        ≡ Some to) }
{
    let mut to = at;
    for t in types {
        to = go(nodes, to, of_type(*t))?;
    }
    Ok(to)
}

/// The number of a type, by which its word stands in the tree from then on.
pub(crate) fn number(nodes: &mut Vec<Node>, ftype: &FuncType) -> Result<usize, NoMemory>
    requires { IsTree nodes.old.items }
    ensures tree { IsTree nodes.new.items }
    ensures extends { Extends nodes.old.items nodes.new.items }
    ensures number { IfOk result (λ to. reaches nodes.new.items (word ftype.now) ≡ Some to) }
{
    let params = go_all(nodes, 0, ftype.params.as_slice())?;
    let arrow = go(nodes, params, Letter::Arrow)?;
    let results = go_all(nodes, arrow, ftype.results.as_slice())?;
    Ok(results)
}
