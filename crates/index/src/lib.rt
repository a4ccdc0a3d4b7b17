// The rows of a record: for each node how a search goes on from it, its action or name, and where what begins there ends. Two loops fill
// them: the record is read from the first node to the last, then forms and ends are settled from the last node to the first.
#![tactic(auto)]

ghost use Rattle.std.specs.Prelude.{◌≡◌, ◌+◌, ◌<◌, length, get_or, replicate, min};
ghost use Rattle.format.specs.Limits.{node_limit};
ghost use Rattle.shared.specs.Tells.{Tells};
ghost use Rattle.index.specs.Lines.{Notes, keyless, own_form, choice_form, form_of, holds_of, end_of, Notable, Settles};
ghost use Rattle.index.specs.Whole.{number_of, Indexes};

use keys::key_at;
use reader::{DEPTH, DUE, Kind, NODES, pass_node};
use shared::{NOT_DONE, Refusal};

// How a search goes on from a node, each form with its number in a row.
#[derive(Clone, Copy, PartialEq, Eq)]
pub enum Form {
    // Nothing from here on steps.
    Nothing = 0,
    // The prefix itself does.
    Own = 1,
    // What begins at the next node does.
    Next = 2,
    // What begins at the second part does.
    Second = 3,
    // Either part does.
    Either = 4,
    // Both parts do, and together.
    Both = 5,
    // What a restriction lets through does.
    Hidden = 6,
}

impl From<Form> for u8 {
    ghost from_gives = { λ form number. number ≡ number_of form };

    fn from(form: Form) -> u8 {
        form as u8
    }
}

// The form with this number. A greater one, which stands in no line of a part, counts as the last.
fn with_number(number: u8) -> Form
    ensures { number_of result ≡ min number 6 }
{
    match number {
        0 => Form::Nothing,
        1 => Form::Own,
        2 => Form::Next,
        3 => Form::Second,
        4 => Form::Either,
        5 => Form::Both,
        _ => Form::Hidden,
    }
}

// The numbers of the forms of the five kinds where no key stands, in the order of the kinds.
const KEYLESS: [u8; 5] = [
    Form::Nothing as u8,
    Form::Own as u8,
    Form::Either as u8,
    Form::Both as u8,
    Form::Hidden as u8,
];

// The number of the form of a node of this kind where no key stands: from a table, since a match becomes a branch for each kind.
fn keyless(kind: Kind) -> u8
    ensures { result ≡ number_of (keyless kind) }
{
    KEYLESS[kind as usize]
}

// The form of a prefix, by whether it is done and whether something below it holds a key.
fn own_form(done: bool, below: bool) -> Form
    ensures { result ≡ own_form done below }
{
    if done {
        Form::Next
    } else if below {
        Form::Nothing
    } else {
        Form::Own
    }
}

// The form of a choice, by which of its sides hold a key.
fn choice_form(below: bool, beside: bool) -> Form
    ensures { result ≡ choice_form below beside }
{
    match (below, beside) {
        (true, true) => Form::Nothing,
        (true, false) => Form::Next,
        (false, true) => Form::Second,
        (false, false) => Form::Either,
    }
}

impl Form {
    // The form of a node that has this one where no key stands, by whether it is done and which of its parts hold a key. Here and below
    // tests of equality stand, which become moves: a match on forms, which come in no order, becomes a jump through a table.
    fn settled(self, done: bool, below: bool, beside: bool) -> Form
        ensures { result ≡ form_of self done below beside }
    {
        if self == Form::Own {
            own_form(done, below)
        } else if self == Form::Either {
            choice_form(below, beside)
        } else {
            self
        }
    }

    // Whether what begins at the node holds a key.
    fn holds(self, done: bool, below: bool, beside: bool) -> bool
        ensures { result ≡ holds_of self done below beside }
    {
        if self == Form::Nothing {
            false
        } else if self == Form::Either || self == Form::Both {
            below || beside
        } else {
            done || below
        }
    }

    // Where what begins at the node ends: its first part ends at `end`, its second at `last`.
    fn end(self, next: u16, end: u16, last: u16) -> u16
        ensures { result ≡ end_of self next end last }
    {
        if self == Form::Nothing {
            next
        } else if self == Form::Either || self == Form::Both {
            last
        } else {
            end
        }
    }
}

// The rows, one line a node. Forms stand there by their numbers; where no part begins, any byte may stand.
#[derive(Drop)]
pub struct Rows {
    pub forms: [u8; NODES],
    pub args: [u8; NODES],
    pub ends: [u16; NODES],
}

// Where the second part of node n begins, by the row of ends: behind what begins at the next node.
pub fn second_part(n: usize, ends: &[u16; NODES]) -> usize
    requires { n + 1 < node_limit }
    ensures { result ≡ get_or ends.now (n + 1) 0 }
{
    usize::from(ends[n + 1])
}

// The byte after the place `at`; 0 if that is the last.
fn byte_after(bytes: &[u8], at: usize) -> u8
    requires { at < length bytes.now }
    ensures { (at + 1 < length bytes.now → result ≡ get_or bytes.now (at + 1) 0) × (at < length bytes.now) }
{
    bytes.get(at + 1).copied().unwrap_or(0)
}

impl Rows {
    // Rows without a line yet.
    pub fn new() -> Rows
        ensures { (result.forms ≡ replicate node_limit 0) × (result.args ≡ replicate node_limit 0) × (result.ends ≡ replicate node_limit 0) }
    {
        Rows {
            forms: [0; NODES],
            args: [0; NODES],
            ends: [0; NODES],
        }
    }

    // Whether node n has this form. A search asks so for one form after the other: a match would become a jump through a table that is
    // guessed badly.
    pub fn has_form(&self, n: usize, form: Form) -> bool
        requires { n < node_limit }
        ensures { (Tells result (get_or self.now.forms n 0 ≡ number_of form)) × (n < node_limit) }
    {
        self.forms[n] == u8::from(form)
    }

    // The form of node n.
    pub fn form_at(&self, n: usize) -> Form
        requires { n < node_limit }
        ensures { (number_of result ≡ min (get_or self.now.forms n 0) 6) × (n < node_limit) }
    {
        with_number(self.forms[n])
    }

    // Where the second part of node n begins.
    pub fn second_part(&self, n: usize) -> usize
        requires { n + 1 < node_limit }
        ensures { result ≡ get_or self.now.ends (n + 1) 0 }
    {
        second_part(n, &self.ends)
    }

    // Reads the record and notes of each node the form that its kind has where no key stands, the byte after it, which is its action or name
    // if it has one, and whether it is done: how many nodes there are.
    fn note_all(&mut self, bytes: &[u8], holds: &mut [bool; NODES]) -> Result<usize, Refusal>
        ensures { Notes bytes.now self.new.forms self.new.args holds.new result }
    {
        let mut due = [DEPTH; DUE];
        let mut many: usize = 1;
        let mut at: usize = 0;
        let mut count: usize = 0;
        // The terms that are due grow and shrink, and nodes differ in length: there is no range to go over.
        while 0 < many {
            let head = pass_node(bytes, at, NODES - count, many, &mut due)?;
            self.forms[count] = keyless(head.kind);
            self.args[count] = byte_after(bytes, at);
            holds[count] = key_at(bytes, at) != NOT_DONE;
            many = many - 1 + head.children;
            at = head.next;
            count += 1;
        }
        if at < bytes.len() {
            return Err(Refusal::NoRecord);
        }
        Ok(count)
    }

    // Settles the noted lines of n nodes, from the last to the first. `end` and `held` are what was written at the node settled before, where
    // the first part of node i begins. A node without a second part reads some line in its place and takes nothing from it.
    fn settle(&mut self, n: usize, holds: &mut [bool; NODES])
        requires { Notable n self.old.forms holds.old }
        ensures settles { Settles n self.old.forms holds.old self.new.forms self.new.ends }
        ensures args { self.new.args ≡ self.old.args }
    {
        let mut end: u16 = 0;
        let mut held = false;
        for i in (0..n).rev() {
            let form = with_number(self.forms[i]);
            let done = holds[i];
            let second = usize::from(end) % NODES;
            let beside = holds[second];
            self.forms[i] = u8::from(form.settled(done, held, beside));
            end = form.end(i as u16 + 1, end, self.ends[second]);
            held = form.holds(done, held, beside);
            self.ends[i] = end;
            holds[i] = held;
        }
    }

    // Reads the record and fills the rows: how many nodes it has.
    pub fn index(&mut self, bytes: &[u8]) -> Result<usize, Refusal>
        ensures { Indexes bytes.now self.new result }
    {
        let mut holds = [false; NODES];
        let n = self.note_all(bytes, &mut holds)?;
        self.settle(n, &mut holds);
        Ok(n)
    }
}
