// The order in which keys go (02, [6]): each time the least from which no link leads to a key that is left.
// Helpers between crates, with what each asks of its caller.
#![tactic(auto)]

ghost use Rattle.std.specs.Prelude.{◌≡◌, ◌+◌, ◌<◌, ◌≤◌, length, get_or};
ghost use Rattle.least.specs.Board.{There, Board};
ghost use Rattle.format.specs.Limits.{node_limit};
ghost use Rattle.order.specs.Steps.{Released, Releasable, Releases, Peelable, PeelsAll};
ghost use Rattle.threads.specs.Threads.{Sortable};
ghost use Rattle.order.specs.Setup.{Sorted, LeafOf, Planted};

use filing::Cabinet;
use keyset::{BYTES, KeySet};
use least::{Leasts, NONE};
use rank::Ranking;
use reader::NODES;
use threads::thread_all;

// Room for a tree with a leaf for each key that a record may have.
const TREE: usize = 2 * NODES;

// The keys that go have numbers: their places among `keys`, which ascend. For each number the last row that leads to its key.
#[derive(Drop)]
struct Numbered {
    keys: [u16; NODES],
    heads: [u16; NODES],
}

// What changes while keys go: for each number how many rows lead from its key to one that is left, and the numbers of those that are free.
#[derive(Drop)]
struct Going {
    counters: [u16; NODES],
    free: Leasts<TREE>,
}

// The leaf of the number r: r itself if its counter is 0.
fn leaf(counter: u16, r: usize) -> u16
    requires { r < node_limit }
    ensures { LeafOf counter r result }
{
    if counter == 0 { r as u16 } else { NONE }
}

impl Going {
    // Gives the tree its leaves, and builds it.
    fn plant(&mut self)
        requires { (self.old.free.n ≤ node_limit) × (length self.old.free.tree ≡ 8192) }
        ensures { Planted self.old.free.n self.old.counters self.new.free.tree × (self.new.free.n ≡ self.old.free.n) × (self.new.counters ≡ self.old.counters) }
    {
        let n = self.free.n;
        for r in 0..n {
            self.free.tree[n + r] = leaf(self.counters[r], r);
        }
        self.free.build();
    }

    // One less for the counter of u; if that is 0, u comes into the tree of those that are free. The `release` of cycles has but the
    // subtraction in common with this: its numbers go into a queue.
    fn release(&mut self, u: usize)
        requires board { Board self.old.free.n self.old.free.tree }
        requires u_lt_n { (u < self.old.free.n) × (self.old.free.n ≤ node_limit) × (0 < get_or self.old.counters u 0) × (¬ There self.old.free.n self.old.free.tree u) }
        ensures { Released self.old.free.n u self.old.counters self.old.free.tree self.new.counters self.new.free.tree × (self.new.free.n ≡ self.old.free.n) }
    {
        let left = self.counters[u] - 1;
        self.counters[u] = left;
        if left == 0 {
            self.free.put(u);
        }
    }

    // The key with the number r is out: releases each key right above it, once for each row. The rows are a list in the cabinet: a loop over
    // a range cannot go along it.
    fn release_all(&mut self, cabinet: &Cabinet, numbered: &Numbered, r: usize)
        requires { Releasable cabinet.now numbered.now r self.old }
        ensures { Releases cabinet.now numbered.now r self.old self.new }
    {
        let mut link = usize::from(numbered.heads[r]);
        while 0 < link {
            self.release(usize::from(cabinet.upper[link]));
            link = usize::from(cabinet.older[link]);
        }
    }

    // Takes the keys out, each time the least that is free, and writes them to the front of the row in this order.
    fn peel(&mut self, cabinet: &Cabinet, numbered: &Numbered, row: &mut [u16])
        requires peelable { Peelable cabinet.now numbered.now self.old }
        requires n_in_bounds { self.old.free.n ≤ length row.old }
        ensures { PeelsAll cabinet.now numbered.now self.old row.old row.new }
    {
        for out in 0..self.free.n {
            let r = self.free.take();
            row[out] = numbered.keys[r];
            self.release_all(cabinet, numbered, r);
        }
    }
}

// Writes the n keys of a set to the front of the row, in the order in which they go: each time the least from which no link leads to a key
// of the set that is left. The links stand in the rows 1 to `links` of the cabinet, whose upper keys and older links are then overwritten.
pub fn order(set: &KeySet, n: usize, links: usize, cabinet: &mut Cabinet, row: &mut [u16])
    requires sortable { Sortable set.now.bytes n links cabinet.old.upper cabinet.old.lower }
    requires older_len { (length cabinet.old.older ≡ length cabinet.old.upper) × (n ≤ length row.old) }
    ensures sorted { Sorted set.now.bytes n cabinet.old.upper cabinet.old.lower row.old row.new }
    ensures kept { (cabinet.new.lower ≡ cabinet.old.lower) × (cabinet.new.latest ≡ cabinet.old.latest) }
{
    let mut base = [0u16; BYTES];
    let mut numbered = Numbered {
        keys: [0; NODES],
        heads: [0; NODES],
    };
    let mut going = Going {
        counters: [0; NODES],
        free: Leasts { n, tree: [0; TREE] },
    };
    let ranks = Ranking::of(set, n, &mut base);
    set.list(n, &mut numbered.keys);
    thread_all(
        links,
        &ranks,
        cabinet,
        &mut numbered.heads,
        &mut going.counters,
    );
    going.plant();
    going.peel(cabinet, &numbered, row);
}
