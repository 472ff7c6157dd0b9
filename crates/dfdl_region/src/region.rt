// The nodes of one document.
ghost use Rattle.std.specs.Prelude.{◌≡◌, ◌<◌, ◌≤◌, ◌↔◌, ◌++◌, ◌∷◌, [], vec_capacity, Some, length, slice_get, take, IfOk, IsErr, OnErr};
ghost use Rattle.dfdl_region.specs.Nodes.{with_node, with_content, with_lengths};

use crate::node::{Content, Lengths, Node};
use dfdl_terms::RowId;
use std::alloc::{AllocError, Global};
use std::marker::Model;
use thiserror::Error;

/// There are as many nodes as there may be.
#[derive(Debug, Clone, Copy, PartialEq, Eq, Error)]
#[error("as many elements as there may be")]
pub struct Full;

/// The nodes of a document in the order in which the elements began. A node's number is its place, from 0.
#[derive(Drop)]
pub struct NodeRegion {
    nodes: Vec<Node>,
    most: u32,
}

impl Model for NodeRegion {
    ghost use Rattle.std.specs.Prelude.{◌<◌, ◌≤◌, ◌^◌, length, vec_capacity};
    ghost use Rattle.dfdl_region.specs.Nodes.{Nodes};

    ghost Value = { Nodes };

    ghost view = { λ r. record { nodes = r.nodes.items; most = r.most } };

    ghost invariant = { λ r. (length r.nodes.items ≤ r.most) × (r.most ≤ vec_capacity r.nodes) × (r.most < 2 ^ 32) };
}

impl NodeRegion {
    /// No nodes, with the memory for `most` of them. No other call takes memory.
    pub fn open(alloc: Global, most: u32) -> Result<NodeRegion, AllocError>
        ensures { IfOk result (λ region. region ≡ record { nodes = []; most = most }) }
    {
        Ok(NodeRegion {
            nodes: Vec::with_capacity(alloc, most as usize)?,
            most,
        })
    }

    /// Adds a node behind the others and answers its number. It is `Full`, and nothing changes, exactly where there
    /// are as many as there may be.
    pub fn add(&mut self, node: Node) -> Result<u32, Full>
        ensures number { IfOk result (λ number. number ≡ length self.old.nodes) }
        ensures added { IfOk result (λ _. self.new ≡ with_node self.old node) }
        ensures full { IsErr result ↔ (self.old.most ≤ length self.old.nodes) }
        ensures same { OnErr result (self.new ≡ self.old) }
    {
        let number = self.nodes.len() as u32;
        if number >= self.most {
            return Err(Full);
        }
        put(
            &mut self.nodes,
            node.element,
            node.parent,
            node.content,
            node.lengths,
        );
        Ok(number)
    }

    /// The node of this number.
    pub fn get(&self, number: u32) -> Node
        requires { number < length self.now.nodes }
        ensures { slice_get self.now.nodes number ≡ Some result }
    {
        self.nodes[number as usize]
    }

    /// Gives the node of this number another content. Nothing changes where there is none.
    pub fn set_content(&mut self, number: u32, content: Content)
        ensures { self.new ≡ record self.old { nodes = with_content self.old.nodes number content } }
    {
        if number < self.count() {
            self.put_content(number, content);
        }
    }

    fn put_content(&mut self, number: u32, content: Content)
        requires { number < length self.old.nodes }
        ensures { self.new ≡ record self.old { nodes = with_content self.old.nodes number content } }
    {
        let node = &mut self.nodes[number as usize];
        node.content = content;
    }

    /// Tells how long the element of the node of this number is. Nothing changes where there is none.
    pub fn set_lengths(&mut self, number: u32, lengths: Option<Lengths>)
        ensures { self.new ≡ record self.old { nodes = with_lengths self.old.nodes number lengths } }
    {
        if self.count() > number {
            self.put_lengths(number, lengths);
        }
    }

    fn put_lengths(&mut self, number: u32, lengths: Option<Lengths>)
        requires { number < length self.old.nodes }
        ensures { self.new ≡ record self.old { nodes = with_lengths self.old.nodes number lengths } }
    {
        let node = &mut self.nodes[number as usize];
        node.lengths = lengths;
    }

    /// How many nodes there are.
    pub fn count(&self) -> u32
        ensures count { result ≡ length self.now.nodes }
        ensures few { result ≤ self.now.most }
    {
        self.nodes.len() as u32
    }

    /// How many nodes there may be.
    pub fn most(&self) -> u32
        ensures { result ≡ self.now.most }
    {
        self.most
    }

    /// The nodes in the order of their numbers.
    pub fn nodes(&self) -> &[Node]
        ensures { result.now ≡ self.now.nodes }
    {
        self.nodes.as_slice()
    }

    /// Keeps the first so many nodes, as they are, and takes the others away. The memory is kept.
    pub fn undo_to(&mut self, count: u32)
        ensures { self.new ≡ record self.old { nodes = take count self.old.nodes } }
    {
        self.nodes.truncate(count as usize);
    }

    /// Takes all nodes away, and keeps the memory.
    pub fn clear(&mut self)
        ensures { self.new ≡ record self.old { nodes = [] } }
    {
        self.nodes.clear();
    }
}

// Puts a node behind those of a list that has room for it.
fn put(
    nodes: &mut Vec<Node>,
    element: RowId,
    parent: u32,
    content: Content,
    lengths: Option<Lengths>,
)
    requires { length nodes.old.items < vec_capacity nodes.old }
    ensures items { nodes.new.items ≡ nodes.old.items ++ record { element = element; parent = parent; content = content; lengths = lengths } ∷ [] }
    ensures capacity { vec_capacity nodes.old ≤ vec_capacity nodes.new }
{
    let node = Node {
        element,
        parent,
        content,
        lengths,
    };
    match nodes.push(node) {
        Ok(()) => (),
        Err(_) => unreachable!(),
    }
}
