//! Rings of nodes, linked both ways: a node comes and goes in as many steps, however many the others are.

ghost use Rattle.std.specs.Prelude.{◌≡◌, ◌≢◌, ◌<◌, ℕ, IfOk, length};
ghost use Rattle.transactions.specs.Rings.{nodes, link, next_older, next_newer, IsAlone, IsJoined, IsParted};

use sip_text::NoMemory;
use std::alloc::Global;

/// What stands beside a node in its ring.
#[derive(Clone, Copy, Debug)]
pub struct Link {
    /// The node that came before it; the newest, at a head.
    pub older: usize,
    /// The node that came after it; the oldest, at a head.
    pub newer: usize,
}

/// Nodes in rings. Each ring has a head, and leads from it over its newest node to its oldest one and back to the head.
#[derive(Drop)]
pub struct Rings {
    /// What stands beside each node. Both lie together, so that a step touches one place in memory.
    pub links: Vec<Link>,
}

/// So many nodes, each beside itself.
fn own_links(alloc: Global, count: usize) -> Result<Vec<Link>, NoMemory>
    ensures count { IfOk result (λ v. length v.items ≡ count) }
    ensures own { IfOk result (λ v. (n : ℕ) → n < count → link v.items n ≡ record { older = n; newer = n }) }
{
    let mut links = Vec::with_capacity(alloc, count)?;
    for node in 0..count {
        links.push(Link {
            older: node,
            newer: node,
        })?;
    }
    Ok(links)
}

impl Rings {
    /// So many nodes, each the head of a ring of its own.
    pub fn new(alloc: Global, count: usize) -> Result<Rings, NoMemory>
        ensures { IfOk result (IsAlone count) }
    {
        let links = own_links(alloc, count)?;
        Ok(Rings { links })
    }

    /// The node that came before this one; the newest, at a head.
    pub fn next_older(&self, node: usize) -> usize
        requires { node < nodes self.now }
        ensures { result ≡ next_older self.now node }
    {
        self.links[node].older
    }

    /// The node comes into the ring of the head, as its newest.
    pub fn join(&mut self, head: usize, node: usize)
        requires head { head < nodes self.old }
        requires node { node < nodes self.old }
        requires newest { next_older self.old head < nodes self.old }
        requires apart { node ≢ head }
        requires comes { node ≢ next_older self.old head }
        ensures { IsJoined self.old self.new head node }
    {
        let second = self.links[head].older;
        self.links[node] = Link {
            older: second,
            newer: head,
        };
        self.links[head].older = node;
        self.links[second].newer = node;
    }

    /// The node goes out of its ring.
    pub fn part(&mut self, node: usize)
        requires node { node < nodes self.old }
        requires older { next_older self.old node < nodes self.old }
        requires newer { next_newer self.old node < nodes self.old }
        ensures { IsParted self.old self.new node }
    {
        let Link {
            older: before,
            newer: after,
        } = self.links[node];
        self.links[after].older = before;
        self.links[before].newer = after;
    }
}
