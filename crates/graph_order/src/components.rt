//! The strongly connected components of a graph, by one search with its own stacks.
ghost use Rattle.std.specs.Prelude.{◌≡◌, ◌<◌, ◌≤◌, ◌+◌, ◌-◌, ◌^◌, ◌↔◌, All, IfOk, IsTrue, OnOk, OnSome, Some, length, slice_get};
ghost use Rattle.graph_order.specs.Components.{AreCircleMarks, AreComponents, HasOneOf};
ghost use Rattle.graph_order.specs.ComponentSearches.{HasGoneOn, HasMetBelow, IsJoinedFrom, IsSoundPath};
ghost use Rattle.graph_order.specs.ComponentSearches.{all_within, looked_further, nothing_met, with_component, with_entered, with_stop};
ghost use Rattle.graph_order.specs.Orders.{IsGraph, successors};

use crate::order::Node;
use dom_base::OutOfMemory;
use std::alloc::Global;
use std::marker::Model;

/// Where a node is: not met, at this index of the path, or within the component whose first node is this.
#[derive(Clone, Copy)]
pub enum Place {
    New,
    OnPath(usize),
    Within(usize),
}

/// A node to come back to: its index in the path, and how many of the nodes that it leads to were looked
/// at.
#[derive(Clone, Copy)]
pub struct Stop {
    pub node: usize,
    pub place: usize,
    pub next: usize,
}

/// The places of all nodes; the path of the nodes that are met and in no component yet; where its
/// stretches start, each of nodes that lead to each other; and the stops.
#[derive(Drop)]
pub struct ComponentSearch {
    pub places: Vec<Place>,
    pub path: Vec<usize>,
    pub starts: Vec<usize>,
    pub stops: Vec<Stop>,
}

impl Model for ComponentSearch {
    ghost use Rattle.graph_order.specs.ComponentSearches.{ComponentData};

    ghost Value = { ComponentData };

    ghost view = { λ s. record { places = s.places.items; path = s.path.items; starts = s.starts.items; stops = s.stops.items } };
}

/// The number of the strongly connected component of each node: two nodes have the same exactly where they
/// are one or each leads to the other. It takes a time that is linear in the graph, and fails only for want
/// of memory.
pub fn component_numbers(alloc: Global, nodes: &[Node<'_>]) -> Result<Vec<usize>, OutOfMemory>
    requires graph { IsGraph nodes.now }
    ensures { IfOk result (λ numbers. AreComponents nodes.now numbers.items) }
{
    let mut search = ComponentSearch::new(alloc, nodes.len())?;
    for k in 0..nodes.len() {
        search.visit(nodes, k)?;
    }
    let mut numbers = Vec::with_capacity(alloc, nodes.len())?;
    for place in &search.places {
        let Place::Within(first) = place else {
            unreachable!()
        };
        numbers.push(*first)?;
    }
    Ok(numbers)
}

/// Whether each node leads back to itself. It takes a time that is linear in the graph, and fails only for
/// want of memory.
pub fn circle_marks(alloc: Global, nodes: &[Node<'_>]) -> Result<Vec<bool>, OutOfMemory>
    requires graph { IsGraph nodes.now }
    ensures { IfOk result (λ marks. AreCircleMarks nodes.now marks.items) }
{
    let numbers = component_numbers(alloc, nodes)?;
    let mut marks = Vec::with_capacity(alloc, nodes.len())?;
    for k in 0..nodes.len() {
        let node = &nodes[k];
        marks.push(has_one_of(&numbers, numbers[k], node.next()))?;
    }
    Ok(marks)
}

/// Whether one of these nodes has this number.
fn has_one_of(numbers: &[usize], number: usize, nodes: &[u32]) -> bool
    requires within { All (λ node. node < length numbers.now) nodes.now }
    ensures { IsTrue result ↔ HasOneOf numbers.now number nodes.now }
{
    for node in nodes {
        if numbers[*node as usize] == number {
            return true;
        }
    }
    false
}

impl ComponentSearch {
    /// A search that has met none of so many nodes. The one error is want of memory.
    fn new(alloc: Global, count: usize) -> Result<ComponentSearch, OutOfMemory>
        ensures { IfOk result (λ s. s ≡ nothing_met count) }
    {
        let mut places = Vec::with_capacity(alloc, count)?;
        for _ in 0..count {
            places.push(Place::New)?;
        }
        Ok(ComponentSearch {
            places,
            path: Vec::new(alloc),
            starts: Vec::new(alloc),
            stops: Vec::new(alloc),
        })
    }

    /// Finds the components of a node and of all that it leads to. The one error is want of memory.
    fn visit(&mut self, nodes: &[Node<'_>], node: usize) -> Result<(), OutOfMemory>
        requires graph { IsGraph nodes.now }
        requires within { node < length nodes.now }
        requires met { HasMetBelow nodes.now node self.old }
        ensures { OnOk result (HasMetBelow nodes.now (node + 1) self.new) }
    {
        if let Place::New = self.place(node) {
            self.enter(node)?;
        }
        'stops: while let Some(stop) = self.stops.pop() {
            self.advance(nodes, stop)?;
        }
        Ok(())
    }

    /// Looks at the next node that a stop leads to, which was taken from the stops, or is done with it.
    fn advance(&mut self, nodes: &[Node<'_>], stop: Stop) -> Result<(), OutOfMemory>
        requires graph { IsGraph nodes.now }
        requires sound { IsSoundPath nodes.now (with_stop self.old stop) }
        ensures { OnOk result (HasGoneOn nodes.now (with_stop self.old stop) self.new) }
    {
        let Some(child) = next_of(nodes, stop) else {
            if self.last_start() == Some(stop.place) {
                self.starts.pop();
                self.close(stop.node, stop.place);
            }
            return Ok(());
        };
        self.look(stop)?;
        match self.place(child) {
            Place::New => self.enter(child)?,
            Place::OnPath(place) => self.join_from(place),
            Place::Within(_) => {}
        }
        Ok(())
    }

    /// The place of a node.
    fn place(&self, node: usize) -> Place
        requires within { node < length self.now.places }
        ensures { slice_get self.now.places node ≡ Some result }
    {
        self.places[node]
    }

    /// Where the last stretch of the path starts.
    fn last_start(&self) -> Option<usize>
        ensures { result ≡ slice_get self.now.starts (length self.now.starts - 1) }
    {
        self.starts.last().copied()
    }

    /// Puts a new node at the end of the path, as a stretch of its own.
    fn enter(&mut self, node: usize) -> Result<(), OutOfMemory>
        requires within { node < length self.old.places }
        ensures { OnOk result (self.new ≡ with_entered self.old node) }
    {
        let place = self.path.len();
        self.path.push(node)?;
        self.starts.push(place)?;
        self.stops.push(Stop {
            node,
            place,
            next: 0,
        })?;
        self.places[node] = Place::OnPath(place);
        Ok(())
    }

    /// Puts a stop back that looked at one node more.
    fn look(&mut self, stop: Stop) -> Result<(), OutOfMemory>
        requires few { stop.next + 1 < 2 ^ 64 }
        ensures { OnOk result (self.new ≡ with_stop self.old (looked_further stop)) }
    {
        self.stops.push(Stop {
            node: stop.node,
            place: stop.place,
            next: stop.next + 1,
        })?;
        Ok(())
    }

    /// Joins the stretches behind a place to the one that has it.
    fn join_from(&mut self, place: usize)
        ensures { IsJoinedFrom place self.old self.new }
    {
        let mut kept = self.starts.len();
        'starts: while kept > 0 && place < self.starts[kept - 1] {
            kept -= 1;
        }
        self.starts.truncate(kept);
    }

    /// Makes a component of the nodes of the path from a place on, with the name of the first of them.
    fn close(&mut self, first: usize, place: usize)
        requires place { place ≤ length self.old.path }
        requires within { All (λ node. node < length self.old.places) self.old.path }
        ensures { self.new ≡ with_component self.old first place }
    {
        put_within(&mut self.places, &self.path[place..], first);
        self.path.truncate(place);
    }
}

/// Puts nodes within the component of this name.
fn put_within(places: &mut [Place], nodes: &[usize], first: usize)
    requires within { All (λ node. node < length places.old) nodes.now }
    ensures { places.new ≡ all_within places.old nodes.now first }
{
    for node in nodes {
        places[*node] = Place::Within(first);
    }
}

/// The next node that the node of a stop leads to.
fn next_of(nodes: &[Node<'_>], stop: Stop) -> Option<usize>
    requires within { stop.node < length nodes.now }
    ensures next { result ≡ slice_get (successors nodes.now stop.node) stop.next }
    ensures few { OnSome result (stop.next + 1 < 2 ^ 64) }
{
    let node = &nodes[stop.node];
    let next = node.next().get(stop.next)?;
    Some(*next as usize)
}
