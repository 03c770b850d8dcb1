//! Patterns in the order of their prefixes, each with the nearest one before it that covers it.
//!
//! Those that cover a prefix are nested. So one binary search finds the last one that may cover it. A walk from each
//! to the nearest one before it that covers it finds the others.

ghost use Rattle.std.specs.Prelude.{◌≡◌, ◌-◌, ◌≤◌, ◌<◌, ◌^◌, [], ◌∷◌, ◌++◌, IfOk, OnOk, length, map};
ghost use Rattle.std.specs.Prelude.{slice_index_or, true};
ghost use Rattle.std.specs.List.{AllWithin, HoldsAt};
ghost use Rattle.rs_types.specs.Covering.{covers};
ghost use Rattle.rs_import.specs.Nesting.{IsLastCover, IsNested, IsNotBefore, IsUpTo, IsWhole, pattern_of};
ghost use Rattle.rs_import.specs.Nesting.{prefix_of, rank_of};

use crate::blocks::{Blocks, Numbered};
use rs_types::{Pattern, Prefix, a_prefix_covers_itself, covers};
use std::alloc::{AllocError, Global};
use std::marker::Model;

// A pattern, and how many patterns stand up to the nearest one before it that covers its prefix: 0 if none does. It
// takes 12 octets.
#[derive(Clone, Copy, Debug)]
pub(crate) struct Node {
    pub(crate) address: u32,
    pub(crate) parent: u32,
    pub(crate) len: u8,
    pub(crate) least: u8,
    pub(crate) most: u8,
}

impl Numbered for Node {
    ghost number_of = { λ node. node.address };

    fn number(&self) -> u32 {
        self.address
    }
}

// Patterns in the order of their prefixes.
#[derive(Debug, Drop)]
pub(crate) struct Nesting {
    nodes: Vec<Node>,
    // The blocks of their addresses, if these were made.
    blocks: Blocks,
}

impl Model for Nesting {
    ghost use Rattle.std.specs.Prelude.{List, map};
    ghost use Rattle.rs_types.specs.declared.pattern.Pattern.{Pattern};
    ghost use Rattle.rs_import.specs.Blocks.{AreStarts};
    ghost use Rattle.rs_import.specs.Nesting.{IsNested, pattern_of};

    ghost Value = { List Pattern };

    ghost view = { λ nesting. map pattern_of nesting.nodes.items };

    ghost invariant = { λ nesting.
        IsNested nesting.nodes.items
        × AreStarts (λ node. node.address) nesting.nodes.items nesting.blocks.shift nesting.blocks.starts.items };
}

impl Nesting {
    // No pattern.
    pub(crate) fn empty(alloc: Global) -> Nesting
        ensures { result ≡ [] }
    {
        Nesting {
            nodes: Vec::new(alloc),
            blocks: Blocks::none(alloc),
        }
    }

    // No pattern, with room for some.
    pub(crate) fn with_capacity(alloc: Global, capacity: usize) -> Result<Nesting, AllocError>
        ensures { IfOk result (λ nesting. nesting ≡ []) }
    {
        Ok(Nesting {
            nodes: Vec::with_capacity(alloc, capacity)?,
            blocks: Blocks::none(alloc),
        })
    }

    // Adds a pattern behind all others. Blocks that were made are gone.
    pub(crate) fn push(&mut self, pattern: Pattern) -> Result<(), AllocError>
        requires room { length self.old < 2 ^ 32 - 1 }
        requires order { IsNotBefore self.old pattern }
        ensures { OnOk result (self.new ≡ self.old ++ pattern ∷ []) }
    {
        a_prefix_covers_itself(pattern.prefix);
        let address = pattern.prefix.address();
        let len = pattern.prefix.len();
        let parent = last_cover(&self.nodes, pattern.prefix, self.nodes.len());
        self.nodes.push(Node {
            address,
            parent: parent as u32,
            len,
            least: pattern.least,
            most: pattern.most,
        })?;
        self.blocks = Blocks::none(*self.nodes.allocator());
        Ok(())
    }

    // The same patterns, of which one is found faster if they are many. Each 8 of them take 4 octets more.
    pub(crate) fn with_blocks(self) -> Result<Nesting, AllocError>
        ensures { IfOk result (λ nesting. nesting ≡ self) }
    {
        let nodes = self.nodes;
        let blocks = Blocks::of(*nodes.allocator(), &nodes)?;
        Ok(Nesting { nodes, blocks })
    }

    // How many patterns stand up to the last one that covers a prefix: 0 if none does.
    pub(crate) fn first(&self, prefix: Prefix) -> usize
        ensures { IsLastCover self.now prefix (length self.now) result }
    {
        let nodes = self.nodes.as_slice();
        let count = self.blocks.count_up_to(nodes, prefix.address());
        last_cover(nodes, prefix, count)
    }

    // How many patterns stand up to the last one that covers a prefix and stands before a place where one covers it.
    pub(crate) fn next(&self, prefix: Prefix, place: usize) -> usize
        requires inside { place < length self.now }
        requires covering { HoldsAt (λ pattern. covers pattern.prefix prefix ≡ true) self.now place }
        ensures { IsLastCover self.now prefix place result }
    {
        let parent = self.nodes[place].parent as usize;
        last_cover(&self.nodes, prefix, parent)
    }

    // The pattern at a place.
    pub(crate) fn pattern(&self, place: usize) -> Pattern
        requires { place < length self.now }
        ensures { result ≡ slice_index_or self.now place result }
    {
        let node = &self.nodes[place];
        Pattern {
            prefix: prefix_of(node.address, node.len),
            least: node.least,
            most: node.most,
        }
    }

    // How many patterns there are.
    pub(crate) fn len(&self) -> usize
        ensures { result ≡ length self.now }
    {
        self.nodes.len()
    }
}

// A number by which prefixes are in order: by address, then by length.
pub(crate) fn rank_of(prefix: Prefix) -> u64
    ensures { result ≡ rank_of prefix }
{
    u64::from(prefix.address()) * 64 + u64::from(prefix.len())
}

// How many nodes stand up to the last one before the end that covers a prefix: 0 if none does.
fn last_cover(nodes: &[Node], prefix: Prefix, end: usize) -> usize
    requires nested { IsNested nodes.now }
    requires within { end ≤ length nodes.now }
    requires up_to { IsUpTo nodes.now prefix end }
    ensures { IsLastCover (map pattern_of nodes.now) prefix end result }
{
    let mut count = end;
    while count > 0 {
        let node = &nodes[count - 1];
        if covers(prefix_of(node.address, node.len), prefix) {
            return count;
        }
        count = node.parent as usize;
    }
    0
}

// The prefix of an address whose bits past the length are 0.
fn prefix_of(address: u32, len: u8) -> Prefix
    requires { IsWhole (record { address = address; len = len }) }
    ensures { result ≡ record { address = address; len = len } }
{
    match Prefix::new(address, len) {
        Some(prefix) => prefix,
        None => unreachable!(),
    }
}
