//! A depth-first traversal of a graph, with its own stack.
ghost use Rattle.std.specs.Prelude.{◌≡◌, ◌<◌, ◌+◌, ◌^◌, IfOk, OnOk, OnSome, Some, [], length, slice_get};
ghost use Rattle.graph_order.specs.Orders.{IsGraph, successors};
ghost use Rattle.graph_order.specs.Traversals.{IsAdvance, IsFresh, IsSound, IsVisit, with_finished, looked, with_opened, with_frame};

use crate::order::Node;
use dom_base::OutOfMemory;
use std::alloc::Global;
use std::marker::Model;

/// Whether a node was met, and whether all that it leads to was.
#[derive(Clone, Copy)]
pub enum Mark {
    New,
    Open,
    Done,
}

/// A node on the way, and how many of the nodes that it leads to were looked at.
#[derive(Clone, Copy)]
pub struct Frame {
    pub node: u32,
    pub next: usize,
}

/// The marks of all nodes, the nodes on the way, and those that are done, in order.
#[derive(Drop)]
pub struct Traversal {
    pub marks: Vec<Mark>,
    pub stack: Vec<Frame>,
    pub done: Vec<u32>,
}

impl Model for Traversal {
    ghost use Rattle.graph_order.specs.Traversals.{TraversalData};

    ghost Value = { TraversalData };

    ghost view = { λ w. record { marks = w.marks.items; stack = w.stack.items; done = w.done.items } };
}

impl Traversal {
    /// A traversal that has met none of so many nodes. The one error is want of memory.
    pub fn new(alloc: Global, count: usize) -> Result<Traversal, OutOfMemory>
        ensures { IfOk result (IsFresh count) }
    {
        let mut marks = Vec::with_capacity(alloc, count)?;
        for _ in 0..count {
            marks.push(Mark::New)?;
        }
        Ok(Traversal {
            marks,
            stack: Vec::new(alloc),
            done: Vec::new(alloc),
        })
    }

    /// Visits all nodes that a node leads to, and then the node itself. It answers whether a node
    /// was met that leads back to itself. The one error is want of memory.
    pub fn visit(&mut self, nodes: &[Node<'_>], node: u32) -> Result<bool, OutOfMemory>
        requires graph { IsGraph nodes.now }
        requires within { node < length nodes.now }
        requires sound { IsSound nodes.now self.old }
        requires ended { self.old.stack ≡ [] }
        ensures { IfOk result (IsVisit nodes.now node self.old self.new) }
    {
        if let Mark::New = self.mark(node) {
            self.open(node)?;
        }
        'frames: while let Some(frame) = self.stack.pop() {
            if self.advance(nodes, frame)? {
                return Ok(true);
            }
        }
        Ok(false)
    }

    /// Goes on to a node that wasn't met.
    fn open(&mut self, node: u32) -> Result<(), OutOfMemory>
        requires within { node < length self.old.marks }
        ensures { OnOk result (self.new ≡ with_opened self.old node) }
    {
        self.stack.push(Frame { node, next: 0 })?;
        self.marks[node as usize] = Mark::Open;
        Ok(())
    }

    /// Puts a node behind all that are done.
    fn finish(&mut self, node: u32) -> Result<(), OutOfMemory>
        requires within { node < length self.old.marks }
        ensures { OnOk result (self.new ≡ with_finished self.old node) }
    {
        self.done.push(node)?;
        self.marks[node as usize] = Mark::Done;
        Ok(())
    }

    /// Looks at the next node that the top one leads to, which was taken from the stack, or is done
    /// with it. It answers whether a node was met that leads back to itself.
    fn advance(&mut self, nodes: &[Node<'_>], frame: Frame) -> Result<bool, OutOfMemory>
        requires graph { IsGraph nodes.now }
        requires sound { IsSound nodes.now (with_frame self.old frame) }
        ensures { IfOk result (IsAdvance nodes.now (with_frame self.old frame) self.new) }
    {
        let Some(child) = next_of(nodes, frame) else {
            self.finish(frame.node)?;
            return Ok(false);
        };
        self.look(frame)?;
        match self.mark(child) {
            Mark::Done => Ok(false),
            Mark::Open => Ok(true),
            Mark::New => {
                self.open(child)?;
                Ok(false)
            }
        }
    }

    /// The mark of a node.
    fn mark(&self, node: u32) -> Mark
        requires within { node < length self.now.marks }
        ensures { slice_get self.now.marks node ≡ Some result }
    {
        self.marks[node as usize]
    }

    /// Puts a frame back that looked at one node more.
    fn look(&mut self, frame: Frame) -> Result<(), OutOfMemory>
        requires few { frame.next + 1 < 2 ^ 64 }
        ensures { OnOk result (self.new ≡ with_frame self.old (looked frame)) }
    {
        self.stack.push(Frame {
            node: frame.node,
            next: frame.next + 1,
        })?;
        Ok(())
    }
}

/// The next node that the node of a frame leads to.
fn next_of(nodes: &[Node<'_>], frame: Frame) -> Option<u32>
    requires within { frame.node < length nodes.now }
    ensures next { result ≡ slice_get (successors nodes.now frame.node) frame.next }
    ensures few { OnSome result (frame.next + 1 < 2 ^ 64) }
{
    let node = &nodes[frame.node as usize];
    node.next().get(frame.next).copied()
}
