//! An order in which each node stands behind those that it leads to.
ghost use Rattle.std.specs.Prelude.{◌≡◌, ◌<◌, ◌^◌, ◌∷◌, [], IfOk, length};
ghost use Rattle.graph_order.specs.Orders.{IsAnswer, IsGraph};

use crate::traversal::Traversal;
use dom_base::OutOfMemory;
use smallvec::SmallVec;
use std::alloc::Global;
use std::marker::Model;

/// The numbers of the nodes that a node leads to: none or one, for which no memory is taken, a list of its own, or one
/// that stands elsewhere.
#[derive(Drop)]
pub enum Numbers<'a> {
    None,
    One([u32; 1]),
    Own(Box<Vec<u32>>),
    Lent(&'a SmallVec<u32, 4>),
}

/// A node: the numbers of the nodes that it leads to.
#[derive(Drop)]
pub struct Node<'a> {
    numbers: Numbers<'a>,
}

impl<'a> Model for Node<'a> {
    ghost use Rattle.std.specs.Prelude.{List, ℕ};
    ghost use Rattle.graph_order.specs.Numbers.{numbers_of};

    ghost Value = { List ℕ };

    ghost view = { λ n. numbers_of n.numbers };
}

impl<'a> Node<'a> {
    /// A node that leads to none.
    pub fn alone() -> Node<'a>
        ensures { result ≡ [] }
    {
        Node {
            numbers: Numbers::None,
        }
    }

    /// A node that leads to this one.
    pub fn leading_to(next: u32) -> Node<'a>
        ensures { result ≡ next ∷ [] }
    {
        Node {
            numbers: Numbers::One([next]),
        }
    }

    /// A node that leads to these; of none or one it keeps no list. The one error is out of memory.
    pub fn owning(alloc: Global, next: Vec<u32>) -> Result<Node<'a>, OutOfMemory>
        ensures { IfOk result (λ node. node ≡ next.items) }
    {
        let numbers = match next.as_slice() {
            [] => Numbers::None,
            [number] => Numbers::One([*number]),
            _ => Numbers::Own(Box::new(alloc, next)?),
        };
        Ok(Node { numbers })
    }

    /// A node that leads to these, which stand elsewhere.
    pub fn lending(next: &'a SmallVec<u32, 4>) -> Node<'a>
        ensures { result ≡ next.now.items }
    {
        Node {
            numbers: Numbers::Lent(next),
        }
    }

    /// The numbers of the nodes that it leads to.
    pub fn next(&self) -> &[u32]
        ensures { result.now ≡ self.now }
    {
        match &self.numbers {
            Numbers::None => &[],
            Numbers::One(number) => number.as_slice(),
            Numbers::Own(numbers) => numbers.as_slice(),
            Numbers::Lent(numbers) => numbers.as_slice(),
        }
    }
}

/// The nodes in order, or that some node leads back to itself.
#[derive(Drop)]
pub enum Order {
    Of(Vec<u32>),
    Circular,
}

/// Puts the nodes of a graph in order, each behind those that it leads to.
pub fn put_in_order(alloc: Global, nodes: &[Node<'_>]) -> Result<Order, OutOfMemory>
    requires graph { IsGraph nodes.now }
    requires few { length nodes.now < 2 ^ 32 }
    ensures { IfOk result (IsAnswer nodes.now) }
{
    let mut traversal = Traversal::new(alloc, nodes.len())?;
    for k in 0..nodes.len() {
        if traversal.visit(nodes, k as u32)? {
            return Ok(Order::Circular);
        }
    }
    Ok(Order::Of(traversal.done))
}
