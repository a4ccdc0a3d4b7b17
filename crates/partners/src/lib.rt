// The partners of a place: a way down to it, and on the way back what stands to the right of it at each parallel.
#![tactic(auto)]

ghost use Rattle.std.specs.Prelude.{◌≡◌, ◌+◌, ◌<◌, ◌≤◌, get_or};
ghost use Rattle.format.specs.Limits.{node_limit};
ghost use Rattle.index.specs.Whole.{SomePartAt};
ghost use Rattle.showing.specs.Listed.{Lists};
ghost use Rattle.partners.specs.Met.{Hides, Answers, Meets};
ghost use Rattle.partners.specs.Way.{OnWay, WayTo};

use index::{Form, Rows};
use labelset::Labels;
use shared::{Name, is_on};
use showing::{Places, list};
use wanted::shows_none;

// A way down to a place: the nodes at which it turns, the node where it stands, and the label that its goal shows there.
#[derive(Clone, Copy)]
pub struct Way {
    pub turns: Places,
    pub node: usize,
    pub label: Option<u8>,
}

// What a restriction on the name leaves of a label.
fn hide(name: u8, label: Option<u8>) -> Option<u8>
    ensures { Hides name label result }
{
    label.filter(|l| !is_on(Name(name), *l))
}

// Lists the places of the part at node n that show the complement of the label, if there is a label, unless it is noted that no place does.
fn list_answers(n: usize, label: Option<u8>, rows: &Rows, sets: &[Labels], mates: &mut Places)
    requires some_part { SomePartAt rows.now n }
    requires few { mates.old.count ≤ n }
    ensures { Lists rows.now sets.now n (Answers label) mates.old mates.new }
{
    match label {
        None => {}
        Some(shown) => {
            let want = Labels::only(shown).complements();
            if !shows_none(n, want, sets) {
                list(n, want, rows, sets, mates);
            }
        }
    }
}

impl Way {
    // The way that stands at the root, where every way begins.
    pub fn new() -> Way
        ensures { (result.turns.count ≡ 0) × (result.node ≡ 0) }
    {
        Way {
            turns: Places::new(),
            node: 0,
            label: None,
        }
    }

    // The node of a turn; there is one below it.
    fn turn_at(&self, k: usize) -> usize
        requires { (k < node_limit) × (get_or self.now.turns.row k 0 + 1 < node_limit) }
        ensures { (result ≡ get_or self.now.turns.row k 0) × (result + 1 < node_limit) }
    {
        usize::from(self.turns.row[k])
    }

    // Leads the way on to node i: back from the parts that end before it, then down as far as it goes.
    pub fn lead(&mut self, i: usize, rows: &Rows)
        requires { OnWay rows.now i self.old }
        ensures { WayTo rows.now i self.new }
    {
        // Turns are taken off the end of the row until one stays, and nodes are passed along links: there is no range to go over.
        'back: while 0 < self.turns.count {
            let last = self.turn_at(self.turns.count - 1);
            if i < rows.second_part(last) {
                break 'back;
            }
            self.turns.count -= 1;
            self.node = last;
        }
        'down: loop {
            let n = self.node;
            if rows.has_form(n, Form::Nothing) {
                self.label = None;
                return;
            }
            if rows.has_form(n, Form::Own) {
                self.label = (n == i).then_some(rows.args[n]);
                return;
            }
            let next = n + 1;
            if rows.has_form(n, Form::Next) {
                self.node = next;
                continue 'down;
            }
            if rows.has_form(n, Form::Hidden) {
                self.turns.push(n);
                self.node = next;
                continue 'down;
            }
            let second = rows.second_part(n);
            if rows.has_form(n, Form::Second) {
                self.node = second;
                continue 'down;
            }
            if second <= i {
                self.node = second;
                continue 'down;
            }
            self.turns.push(n);
            self.node = next;
        }
    }

    // The label that node i shows at the root, to which the way leads: at each turn on the way back a restriction may hide it. If it is asked to,
    // this also lists, at each parallel, the places of the second part that step together with node i.
    pub fn meet(
        &self,
        i: usize,
        listing: bool,
        rows: &Rows,
        sets: &[Labels],
        mates: &mut Places,
    ) -> Option<u8>
        requires { WayTo rows.now i self.now }
        ensures { Meets rows.now sets.now 0 i listing (record mates.old { count = 0 }) mates.new result }
    {
        let mut label = self.label;
        mates.count = 0;
        for k in (0..self.turns.count).rev() {
            let n = self.turn_at(k);
            match rows.form_at(n) {
                Form::Hidden => label = hide(rows.args[n], label),
                Form::Both => {
                    if listing {
                        list_answers(rows.second_part(n), label, rows, sets, mates);
                    }
                }
                _ => {}
            }
        }
        label
    }
}
