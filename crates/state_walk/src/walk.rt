//! The walk.

use super::state::State;
use super::tree::{Node, Tree};
use super::visited::Visited;
use numbered_trace::{
    Budget, Classes, Clocks, Operation, Operations, Place, SearchWatch, Tried, short,
};
use std::alloc::Global;

/// How many nodes a tree has at most: this many, and `NODES_EACH` more for each operation.
const NODES: usize = 4_000_000;

const NODES_EACH: usize = 4;

/// How much harm a store counts that writes over a word which is still read, if it seems to do none.
const MUCH: u32 = u32::MAX - 1;

/// A walk over the states of the operations of some cores.
#[derive(Drop)]
pub struct Walk<'a> {
    state: State<'a>,
    tree: Tree,
    /// The node of this state.
    at: u32,
    visited: Visited,
    /// The nodes on the way down to a node.
    path: Vec<u32>,
    /// The node to which the most operations lead.
    deepest: u32,
}

impl<'a> Walk<'a> {
    /// A walk over the states of these cores' operations, in which each comes after what is known to be before it. The cores share no address with
    /// others.
    pub fn new(
        alloc: Global,
        operations: &'a Operations,
        classes: &'a Classes,
        cores: &'a [u32],
        clocks: Option<&'a Clocks>,
    ) -> Tried<Walk<'a>> {
        let mut state = State::new(alloc, operations, classes, cores, clocks)?;
        state.go_on()?;
        let mut visited = Visited::new(alloc)?;
        visited.insert(state.number)?;
        Ok(Walk {
            tree: Tree::new(alloc, short(state.order.len())?)?,
            state,
            at: 0,
            visited,
            path: Vec::new(alloc),
            deepest: 0,
        })
    }

    /// The operations that were performed, in the order in which the walk performed them.
    pub fn order(&self) -> &[Place] {
        &self.state.order
    }

    /// Whether every state that can be reached was visited.
    pub fn is_closed(&self) -> bool {
        self.tree.is_closed()
    }

    /// The numbers, sorted, of the addresses that each core touches by its next operations, at most this many, in the state to which the most
    /// operations lead.
    pub fn deepest_addresses(&mut self, alloc: Global, count: u32) -> Tried<Vec<u32>> {
        self.go_to(self.deepest)?;
        self.addresses_ahead(alloc, count)
    }

    /// The numbers, sorted, of all addresses that are touched from the first state on.
    pub fn all_addresses(&mut self, alloc: Global) -> Tried<Vec<u32>> {
        self.go_to(0)?;
        self.addresses_ahead(alloc, u32::MAX)
    }

    /// The numbers, sorted, of the addresses that each core touches by its next operations, at most this many.
    fn addresses_ahead(&self, alloc: Global, count: u32) -> Tried<Vec<u32>> {
        let mut addresses = Vec::new(alloc);
        for core in self.state.cores {
            for operation in self.state.ahead(*core, count) {
                addresses.push(operation.address)?;
            }
        }
        addresses.sort_unstable();
        addresses.dedup();
        Ok(addresses)
    }

    /// Walks until there is an order, or no state is left, or the budget is spent, or the tree is full. Says whether there is an order. The walk can
    /// go on where it stopped.
    pub fn run<W: SearchWatch>(&mut self, budget: &mut Budget, watch: &W) -> Tried<bool> {
        if self.state.is_final() {
            return Ok(true);
        }
        let each = self.state.total.saturating_mul(NODES_EACH);
        let most = each.saturating_add(NODES);
        for _ in 0..u64::MAX {
            if self.tree.nodes.len() >= most || budget.left() == 0 {
                break;
            }
            budget.tell(watch)?;
            let performed = self.state.performed;
            let Some(number) = self.tree.take()? else {
                break;
            };
            self.go_to(number)?;
            if self.expand(number)? {
                return Ok(true);
            }
            let steps = self.state.performed.saturating_sub(performed);
            budget.use_up(steps.saturating_add(1));
        }
        Ok(false)
    }

    /// Goes to the state of a node: back to where the ways part, and on from there.
    fn go_to(&mut self, number: u32) -> Tried<()> {
        let parting = self.parting(number)?;
        let parting = self.tree.node(parting)?;
        self.state.undo(parting.length as usize)?;
        for _ in 0..self.path.len() {
            let Some(node) = self.path.pop() else {
                break;
            };
            let node = self.tree.node(node)?;
            self.step(u32::from(node.core))?;
        }
        self.at = number;
        Ok(())
    }

    /// The node where the way to a node parts from the way to where the walk is. The path leads down from there, last node first.
    fn parting(&mut self, number: u32) -> Tried<u32> {
        let (mut from, mut to) = (self.at, number);
        self.path.clear();
        for _ in 0..u64::MAX {
            if from == to {
                break;
            }
            let (here, there) = (self.tree.node(from)?, self.tree.node(to)?);
            if here.depth >= there.depth {
                from = here.parent;
            } else {
                self.path.push(to)?;
                to = there.parent;
            }
        }
        Ok(from)
    }

    /// Performs a core's store, and then all by which nothing is lost.
    fn step(&mut self, core: u32) -> Tried<()> {
        self.state.perform(core)?;
        self.state.go_on()
    }

    /// Adds the children of a node whose state the walk is in: at first the likeliest one alone, if one stands out. Says whether one of them is
    /// final.
    fn expand(&mut self, number: u32) -> Tried<bool> {
        if !self.tree.node(number)?.is_half
            && let Some(core) = self.likely()
        {
            self.tree.halve(number)?;
            return self.visit(number, core, true);
        }
        self.expand_all(number)
    }

    /// Adds all children of a node.
    fn expand_all(&mut self, number: u32) -> Tried<bool> {
        for core in self.state.cores {
            if self.state.able(*core).is_some() && self.visit(number, *core, false)? {
                return Ok(true);
            }
        }
        Ok(false)
    }

    /// The core whose store is tried first, since it seems to do the least harm. None if none stands out.
    fn likely(&self) -> Option<u32> {
        let mut likely = None;
        let mut least = u32::MAX;
        for core in self.state.cores {
            if let Some(store) = self.state.able(*core)
                && let Some(harm) = self.harm(*core, &store)
                && harm < least
            {
                (likely, least) = (Some(*core), harm);
            }
        }
        likely
    }

    /// How much harm a core's next operation, a store, seems to do; None if that is too much for a first choice.
    fn harm(&self, core: u32, store: &Operation) -> Option<u32> {
        match self.state.hold(core, store) {
            None if self.state.seems_harmless(core, store) => Some(MUCH),
            hold => hold,
        }
    }

    /// Adds the state after a core's store, unless it was visited, is dead, or is final. Says whether it is final. The walk stays there if it is the
    /// only child.
    fn visit(&mut self, parent: u32, core: u32, is_only: bool) -> Tried<bool> {
        let Node { length, depth, .. } = self.tree.node(parent)?;
        let ruined = self.state.ruined_by(core);
        self.step(core)?;
        if self.state.is_final() {
            return Ok(true);
        }
        if self.visited.insert(self.state.number)? && self.state.dead(ruined).is_none() {
            let child = Node {
                parent,
                depth: depth.saturating_add(1),
                length: short(self.state.order.len())?,
                core: u8::try_from(core).unwrap_or(u8::MAX),
                is_half: false,
            };
            if self.tree.node(self.deepest)?.length < child.length {
                self.deepest = short(self.tree.nodes.len())?;
            }
            if is_only {
                self.at = self.tree.add_only(child)?;
                return Ok(false);
            }
            self.state.count_look();
            self.tree.add(child, self.state.outlook())?;
        }
        self.state.undo(length as usize)?;
        Ok(false)
    }
}
