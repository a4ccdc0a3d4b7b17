// The places of a part that show one of some labels, listed in rising order.
#![tactic(auto)]

ghost use Rattle.std.specs.Prelude.{◌≡◌, ◌+◌, ◌≤◌, ◌<◌, length, take};
ghost use Rattle.format.specs.Limits.{node_limit};
ghost use Rattle.labelset.specs.Set.{Shows};
ghost use Rattle.index.specs.Whole.{SomePartAt};
ghost use Rattle.showing.specs.Listed.{Pushed, Listed, Lists};

use index::{Form, Rows};
use labelset::Labels;
use reader::NODES;
use wanted::shows_none;

// Places in a row: the first `count` of it.
#[derive(Clone, Copy)]
pub struct Places {
    pub row: [u16; NODES],
    pub count: usize,
}

impl Places {
    // No place.
    pub fn new() -> Places
        ensures { result.count ≡ 0 }
    {
        Places {
            row: [0; NODES],
            count: 0,
        }
    }

    // The nodes of the places.
    pub fn nodes(&self) -> &[u16]
        requires { self.now.count ≤ node_limit }
        ensures { (result.now ≡ take self.now.count self.now.row) × (length result.now ≡ self.now.count) }
    {
        &self.row[..self.count]
    }

    // Puts node n behind the places that are there.
    pub fn push(&mut self, n: usize)
        requires { (n < node_limit) × (self.old.count < node_limit) }
        ensures { Pushed self.old n self.new }
    {
        self.row[self.count] = n as u16;
        self.count += 1;
    }
}

// Lists the prefix at node n, whose action is a, if its action is wanted.
fn list_own(n: usize, a: u8, want: Labels, places: &mut Places)
    requires { (n < node_limit) × (places.old.count ≤ n) }
    ensures { Listed (λ i. (i ≡ n) × Shows want a) places.old places.new × (places.new.count ≤ n + 1) }
{
    if want.has(a) {
        places.push(n);
    }
}

// Lists the places of the part at node n that show one of the labels, behind those that are listed. A part of which it is noted that it shows
// none of them is not entered, and only where both parts of a node may show some does the search call itself: the way to a single place is a
// loop.
pub fn list(n: usize, want: Labels, rows: &Rows, sets: &[Labels], places: &mut Places)
    requires some_part { SomePartAt rows.now n }
    requires few { places.old.count ≤ n }
    ensures { Lists rows.now sets.now n (Shows want) places.old places.new }
{
    let mut seek = want;
    let mut at = n;
    // Nodes are passed along links: there is no range to go over.
    'down: loop {
        if rows.has_form(at, Form::Nothing) {
            return;
        }
        if rows.has_form(at, Form::Own) {
            list_own(at, rows.args[at], seek, places);
            return;
        }
        let next = at + 1;
        if rows.has_form(at, Form::Next) {
            at = next;
            continue 'down;
        }
        if rows.has_form(at, Form::Hidden) {
            seek = seek.without_name(rows.args[at]);
            at = next;
            continue 'down;
        }
        let second = rows.second_part(at);
        if rows.has_form(at, Form::Second) {
            at = second;
            continue 'down;
        }
        if shows_none(next, seek, sets) {
            at = second;
            continue 'down;
        }
        if shows_none(second, seek, sets) {
            at = next;
            continue 'down;
        }
        list(next, seek, rows, sets, places);
        at = second;
    }
}
