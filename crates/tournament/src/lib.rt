//! Ranks at places 0, 1, 2 and so on, and the places that have the greatest of them: a tournament
//! tree (Knuth, "The Art of Computer Programming", 5.4.1). A change takes a time that grows with
//! the logarithm of the number of places.
#![tactic(auto)]

mod tree;

ghost use Rattle.std.specs.Prelude.{◌≡◌, ◌+◌, ◌-◌, ◌*◌, ◌<◌, ◌≤◌, ◌^◌, ◌++◌, ◌∷◌, [], ℕ, List, length, take, replicate, slice_index, slice_set, IfOk, OnOk, OnErr};
ghost use Rattle.tournament.specs.Winner.{IsWinner, IsLastWinner};
ghost use Rattle.tournament.specs.Tree.{IsTournament, IsTree, node, leaf, spare};

use crate::tree::{Node, better, put};
use std::alloc::{AllocError, Global};
use std::marker::Model;

/// No list of ranks has more places than this: asking for more is want of memory.
const MOST: usize = 1 << 40;

/// A list of ranks that knows its greatest, seen as the list.
#[derive(Drop)]
pub struct Tournament {
    alloc: Global,
    ranks: Vec<u32>,
    nodes: Vec<Node>,
}

impl Model for Tournament {
    ghost use Rattle.std.specs.Prelude.{List, ℕ, ◌/◌, length};
    ghost use Rattle.tournament.specs.Tree.{IsTournament};

    ghost Value = { List ℕ };

    ghost view = { λ t. t.ranks.items };

    ghost invariant = { λ t. IsTournament (length t.nodes.items / 2) t.ranks.items t.nodes.items };
}

impl Tournament {
    /// No ranks. It takes no memory.
    pub fn new(alloc: Global) -> Tournament
        ensures { result ≡ [] }
    {
        Tournament {
            alloc,
            ranks: Vec::new(alloc),
            nodes: Vec::new(alloc),
        }
    }

    /// So many places of one rank. It takes a time that grows with their number, and memory twice.
    pub fn filled(alloc: Global, len: usize, rank: u32) -> Result<Tournament, AllocError>
        requires { len < 2 ^ 40 }
        ensures { IfOk result (λ t. t ≡ replicate len rank) }
    {
        let mut ranks = Vec::new(alloc);
        ranks.resize(len, rank)?;
        let nodes = even_tree(alloc, len, rank)?;
        Ok(Tournament {
            alloc,
            ranks,
            nodes,
        })
    }

    /// The number of places.
    pub fn len(&self) -> usize
        ensures { result ≡ length self.now }
    {
        self.ranks.len()
    }

    /// The rank at a place.
    pub fn rank(&self, place: usize) -> u32
        requires { place < length self.now }
        ensures { result ≡ slice_index self.now place }
    {
        self.ranks[place]
    }

    /// One more place, the last, with this rank.
    pub fn push(&mut self, rank: u32) -> Result<(), AllocError>
        ensures ok { OnOk result (self.new ≡ self.old ++ rank ∷ []) }
        ensures err { OnErr result (self.new ≡ self.old) }
    {
        let place = self.ranks.len();
        let mut room = self.nodes.len() / 2;
        if place == room {
            if room >= MOST {
                return Err(AllocError);
            }
            room = 2 * room + 1;
            let nodes = nodes_of(self.alloc, &self.ranks, room)?;
            self.nodes = nodes;
        }
        self.ranks.push(rank)?;
        put(&mut self.nodes, room, place, Node::leaf(rank, place));
        Ok(())
    }

    /// Takes the last place away. It takes no memory.
    pub fn pop(&mut self)
        requires { 0 < length self.old }
        ensures { self.new ≡ take (length self.old - 1) self.old }
    {
        let place = self.ranks.len() - 1;
        let room = self.nodes.len() / 2;
        self.ranks.pop();
        put(&mut self.nodes, room, place, Node::spare(place));
    }

    /// Gives a place this rank. It takes no memory.
    pub fn set(&mut self, place: usize, rank: u32)
        requires { place < length self.old }
        ensures { self.new ≡ slice_set self.old place rank }
    {
        let room = self.nodes.len() / 2;
        self.ranks[place] = rank;
        put(&mut self.nodes, room, place, Node::leaf(rank, place));
    }

    /// The place of the greatest rank, the first such place on a tie.
    pub fn winner(&self) -> usize
        requires { 0 < length self.now }
        ensures { IsWinner self.now result }
    {
        self.nodes[1].first
    }

    /// The place of the greatest rank, the last such place on a tie.
    pub fn last_winner(&self) -> usize
        requires { 0 < length self.now }
        ensures { IsLastWinner self.now result }
    {
        self.nodes[1].last
    }
}

/// The tree of so many places of one rank.
fn even_tree(alloc: Global, room: usize, rank: u32) -> Result<Vec<Node>, AllocError>
    requires { room < 2 ^ 62 }
    ensures long { IfOk result (λ nodes. length nodes.items ≡ 2 * room) }
    ensures tree { IfOk result (λ nodes. IsTree room nodes.items) }
    ensures leaves { IfOk result (λ nodes. (i : ℕ) → i < room
        → node nodes.items (room + i) ≡ leaf rank i) }
{
    let mut nodes = Vec::new(alloc);
    nodes.resize(2 * room, Node::spare(0))?;
    for place in 0..room {
        nodes[room + place] = Node::leaf(rank, place);
    }
    for at in (1..room).rev() {
        nodes[at] = better(nodes[2 * at], nodes[2 * at + 1]);
    }
    Ok(nodes)
}

// The leaf of a place, with its rank if it has one.
fn leaf_of(ranks: &[u32], place: usize) -> Node
    ensures leaf { place < length ranks.now → result ≡ leaf (slice_index ranks.now place) place }
    ensures spare { length ranks.now ≤ place → result ≡ spare place }
{
    if place < ranks.len() {
        Node::leaf(ranks[place], place)
    } else {
        Node::spare(place)
    }
}

/// The tree of some ranks with room for more. It takes a time that grows with the room.
fn nodes_of(alloc: Global, ranks: &[u32], room: usize) -> Result<Vec<Node>, AllocError>
    requires fits { length ranks.now ≤ room }
    requires small { room < 2 ^ 62 }
    ensures { IfOk result (λ nodes. IsTournament room ranks.now nodes.items) }
{
    let mut nodes = Vec::new(alloc);
    nodes.resize(2 * room, Node::spare(0))?;
    for place in 0..room {
        nodes[room + place] = leaf_of(ranks, place);
    }
    for at in (1..room).rev() {
        nodes[at] = better(nodes[2 * at], nodes[2 * at + 1]);
    }
    Ok(nodes)
}

#[cfg(test)]
mod tests {
    use super::*;
    use std::test::Fail;

    #[test]
    fn winners(rt: HostRuntime) -> Result<(), Fail> {
        let mut ranks = Tournament::new(rt.alloc());
        for rank in [3, 7, 7, 1, 7] {
            ranks.push(rank)?;
        }
        assert_eq!(rt; ranks.len(), 5);
        assert_eq!(rt; ranks.winner(), 1);
        assert_eq!(rt; ranks.last_winner(), 4);
        ranks.set(1, 0);
        assert_eq!(rt; ranks.winner(), 2);
        ranks.pop();
        assert_eq!(rt; (ranks.len(), ranks.last_winner()), (4, 2));
        Ok(())
    }
}
