// Which places of a record are wanted: one pass over its rows, down the term and from right to left.
#![tactic(auto)]

ghost use Rattle.std.specs.Prelude.{◌≡◌, ◌⊎◌, true, ℕ, ◌+◌, ◌<◌, length};
ghost use Rattle.ccsk.specs.Term.{Co};
ghost use Rattle.format.specs.Limits.{node_limit};
ghost use Rattle.labelset.specs.Set.{Shows, Exactly};
ghost use Rattle.index.specs.Whole.{SomePartAt};
ghost use Rattle.wanted.specs.Kept.{Keeps, Noted, NoneShown};
ghost use Rattle.wanted.specs.Pass.{Adds, Marks};

use index::{Form, Rows};
use labelset::Labels;
use reader::NODES;

// The mark of a place that is wanted. Every other byte is none, so that a row of any bytes can be lent.
pub const WANTED: u8 = 1;

// Puts a set at a place of the row, if it goes so far.
fn put(place: usize, set: Labels, row: &mut [Labels])
    ensures { Keeps place set row.old row.new }
{
    if place < row.len() {
        row[place] = set;
    }
}

// Tells what the part at node n shows, and notes it for the node.
fn show(n: usize, set: Labels, row: &mut [Labels])
    requires { (n < node_limit) × (0 < length row.old) }
    ensures { Noted n set row.old row.new }
{
    put(0, set, row);
    put(n + 1, set, row);
}

// Whether it is noted that the part at node n shows none of the labels.
pub fn shows_none(n: usize, labels: Labels, row: &[Labels]) -> bool
    requires { n < node_limit }
    ensures { result ≡ true → NoneShown row.now n labels }
{
    n + 1 < row.len() && row[n + 1].apart(labels)
}

// Marks the prefix at node n, whose action is a, if its action is asked for.
fn mark_own(n: usize, a: u8, told: Labels, marks: &mut [u8; NODES])
    requires { n < node_limit }
    ensures { Adds (λ i. (i ≡ n) × Shows told a) marks.old marks.new }
{
    if told.has(a) {
        marks[n] = WANTED;
    }
}

// What the first of two parts is asked for: in a parallel also the complements of what the second shows.
fn asked(form: Form, told: Labels, right: Labels) -> Labels
    ensures { Exactly result (λ l. Shows told l ⊎ ((form ≡ Form.Both) × ((k : ℕ) × Co l k × Shows right k))) }
{
    match form {
        Form::Both => told.joined(right.complements()),
        _ => told,
    }
}

// Marks the wanted places of the part at node n, where the labels `told` are asked for around it. The labels that it shows are left in front
// of the row of sets. Both are handed on in memory, so that the stack of this recursion is small, and where one part alone steps the call is
// the last thing done.
pub fn mark(n: usize, told: &Labels, rows: &Rows, marks: &mut [u8; NODES], sets: &mut [Labels])
    requires some_part { SomePartAt rows.now n }
    requires room { 0 < length sets.old }
    ensures { Marks rows.now n told.now marks.old sets.old marks.new sets.new }
{
    if rows.has_form(n, Form::Nothing) {
        show(n, Labels::empty(), sets);
        return;
    }
    if rows.has_form(n, Form::Own) {
        let a = rows.args[n];
        mark_own(n, a, *told, marks);
        show(n, Labels::only(a), sets);
        return;
    }
    let next = n + 1;
    if rows.has_form(n, Form::Next) {
        mark(next, told, rows, marks, sets);
        return;
    }
    // What is asked below the next node: one variable for two branches, so that it has one place on the stack.
    let mut below = *told;
    if rows.has_form(n, Form::Hidden) {
        let a = rows.args[n];
        below = told.without_name(a);
        mark(next, &below, rows, marks, sets);
        show(n, sets[0].without_name(a), sets);
        return;
    }
    let second = rows.second_part(n);
    if rows.has_form(n, Form::Second) {
        mark(second, told, rows, marks, sets);
        return;
    }
    mark(second, told, rows, marks, sets);
    let right = sets[0];
    let form = rows.form_at(n);
    below = asked(form, *told, right);
    mark(next, &below, rows, marks, sets);
    show(n, sets[0].joined(right), sets);
}
