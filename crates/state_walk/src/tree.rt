//! The states that the walk came to, as a tree.

use super::outlook::EVEN;
use numbered_trace::{NONE, Stop, Tried, at, put, short};
use std::alloc::Global;
use std::cmp::Reverse;
use std::collections::BinaryHeap;

/// A state that the walk came to by a store from its parent, in 16 bytes.
#[derive(Clone, Copy)]
pub(crate) struct Node {
    pub(crate) parent: u32,
    /// How many stores led to it.
    pub(crate) depth: u32,
    /// How many operations led to it.
    pub(crate) length: u32,
    /// The core that performed the last store.
    pub(crate) core: u8,
    /// Whether its likeliest child was taken already, and only the others are left.
    pub(crate) is_half: bool,
}

/// The states to which the same number of stores leads.
#[derive(Drop)]
struct Layer {
    depth: u32,
    /// Those from which the walk didn't go on yet, the likeliest first, then the oldest.
    open: BinaryHeap<(u64, Reverse<u32>)>,
    /// How many it went on from.
    left: u32,
}

/// The tree.
#[derive(Drop)]
pub(crate) struct Tree {
    alloc: Global,
    pub(crate) nodes: Vec<Node>,
    /// How many stores led to the deepest node.
    depth: u32,
    layers: Vec<Layer>,
    /// For each depth, the number of its layer, or NONE.
    numbers: Vec<u32>,
    /// The layers with open states, the foremost first: a layer falls back by one for each of its states that the walk went on from.
    queue: BinaryHeap<(u64, u32)>,
    /// States that are open again after their likeliest child was taken, the deepest last, until they come into their layers.
    halves: Vec<u32>,
    /// The state from which the walk goes on before any other.
    next: Option<u32>,
}

impl Tree {
    /// A tree of its root alone, a state to which this many operations led.
    pub(crate) fn new(alloc: Global, length: u32) -> Tried<Tree> {
        let mut tree = Tree {
            alloc,
            nodes: Vec::new(alloc),
            depth: 0,
            layers: Vec::new(alloc),
            numbers: Vec::new(alloc),
            queue: BinaryHeap::new(alloc),
            halves: Vec::new(alloc),
            next: None,
        };
        let root = Node {
            parent: 0,
            depth: 0,
            length,
            core: 0,
            is_half: false,
        };
        tree.next = Some(tree.push(root)?);
        Ok(tree)
    }

    /// The node of a number. The search gives up if there is none.
    pub(crate) fn node(&self, number: u32) -> Tried<Node> {
        self.nodes
            .get(number as usize)
            .copied()
            .ok_or(Stop::GivenUp)
    }

    /// Whether there is no state from which the walk can go on.
    pub(crate) fn is_closed(&self) -> bool {
        self.next.is_none() && self.halves.is_empty() && self.queue.is_empty()
    }

    /// Adds a state with this outlook, and gives its number.
    pub(crate) fn add(&mut self, node: Node, outlook: u64) -> Tried<u32> {
        let layer = self.layer_of(node.depth)?;
        let number = self.push(node)?;
        self.open(layer, number, outlook)?;
        Ok(number)
    }

    /// Adds a state that is its parent's likeliest child, and gives its number. The walk goes on from it if no other state is as deep.
    pub(crate) fn add_only(&mut self, node: Node) -> Tried<u32> {
        if node.depth <= self.depth {
            return self.add(node, EVEN);
        }
        let number = self.push(node)?;
        self.next = Some(number);
        Ok(number)
    }

    /// Adds a node, and gives its number.
    fn push(&mut self, node: Node) -> Tried<u32> {
        let number = short(self.nodes.len())?;
        self.nodes.push(node)?;
        self.depth = self.depth.max(node.depth);
        Ok(number)
    }

    /// Opens a state again after its likeliest child was taken: behind all others of its layer, or among the halves if it is deeper than they are.
    pub(crate) fn halve(&mut self, number: u32) -> Tried<()> {
        let node = self.nodes.get_mut(number as usize).ok_or(Stop::GivenUp)?;
        node.is_half = true;
        let depth = node.depth;
        if let Some(last) = self.halves.last().copied()
            && depth <= self.node(last)?.depth
        {
            let layer = self.layer_of(depth)?;
            return self.open(layer, number, 0);
        }
        Ok(self.halves.push(number)?)
    }

    /// The number of a depth's layer, which is made if there is none. Then, if some state is as deep, the walk has gone on from one.
    fn layer_of(&mut self, depth: u32) -> Tried<u32> {
        let number = at(&self.numbers, depth);
        if number != NONE {
            return Ok(number);
        }
        let number = short(self.layers.len())?;
        self.layers.push(Layer {
            depth,
            open: BinaryHeap::new(self.alloc),
            left: u32::from(depth <= self.depth),
        })?;
        let length = (depth as usize).saturating_add(1).max(self.numbers.len());
        self.numbers.resize(length, NONE)?;
        put(&mut self.numbers, depth, number)?;
        Ok(number)
    }

    /// Opens a state of a layer.
    fn open(&mut self, layer: u32, number: u32, outlook: u64) -> Tried<()> {
        let of_layer = self.layers.get_mut(layer as usize).ok_or(Stop::GivenUp)?;
        let is_queued = !of_layer.open.is_empty();
        of_layer.open.push((outlook, Reverse(number)))?;
        if !is_queued {
            let foremost = foremost(of_layer.depth, of_layer.left);
            self.queue.push((foremost, layer))?;
        }
        Ok(())
    }

    /// Takes the open state from which the walk goes on: the likeliest one of the foremost layer. None if no state is open.
    pub(crate) fn take(&mut self) -> Tried<Option<u32>> {
        if let Some(number) = self.next.take() {
            return Ok(Some(number));
        }
        self.open_halves()?;
        match self.queue.pop() {
            Some((_, layer)) => Ok(Some(self.take_of(layer)?)),
            None => Ok(None),
        }
    }

    /// Puts the halves into their layers, behind all others, as long as one of them may be foremost.
    fn open_halves(&mut self) -> Tried<()> {
        for _ in 0..self.halves.len() {
            let Some(half) = self.halves.last().copied() else {
                break;
            };
            let depth = self.node(half)?.depth;
            if let Some((best, _)) = self.queue.peek()
                && *best > foremost(depth, 1)
            {
                break;
            }
            self.halves.pop();
            let layer = self.layer_of(depth)?;
            self.open(layer, half, 0)?;
        }
        Ok(())
    }

    /// Takes the likeliest open state of a layer.
    fn take_of(&mut self, layer: u32) -> Tried<u32> {
        let of_layer = self.layers.get_mut(layer as usize).ok_or(Stop::GivenUp)?;
        let (_, Reverse(number)) = of_layer.open.pop().ok_or(Stop::GivenUp)?;
        of_layer.left = of_layer.left.saturating_add(1);
        if !of_layer.open.is_empty() {
            let foremost = foremost(of_layer.depth, of_layer.left);
            self.queue.push((foremost, layer))?;
        }
        Ok(number)
    }
}

/// How far in front a layer of this depth is after the walk went on from this many of its states. The greater, the farther.
fn foremost(depth: u32, left: u32) -> u64 {
    EVEN.saturating_add(u64::from(depth))
        .saturating_sub(u64::from(left))
}
