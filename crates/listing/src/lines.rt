// The lines of a listing. What they say comes from the proved operations; here it is only put in order.
ghost use Rattle.std.specs.Prelude.{◌≡◌, ◌≤◌, ◌<◌};
ghost use Rattle.format.specs.Limits.{node_limit};
ghost use Rattle.operations.specs.Ask.{ReadRecord};
ghost use Rattle.shared.specs.Refusal.{refusal, value};
ghost use Rattle.index.specs.Whole.{SomePartAt};
ghost use Rattle.wanted.specs.Kept.{Covers};

use crate::out::Out;
use crate::text::Text;
use index::Rows;
use labels::undo_labels;
use labelset::Labels;
use partners::Way;
use reader::NODES;
use shared::{NO_ACTION, Refusal};
use showing::Places;
use undos::listing::undo_listing;
use wanted::{WANTED, mark};

// What all lines of one place begin with: a word of 8 bytes, a number and a space take 14.
type Piece = Text<16>;

// A number that an operation answered; the record is read already, so none is refused.
fn number(given: Result<usize, Refusal>) -> u16
    requires { value given < 65536 }
{
    given.unwrap_or(0) as u16
}

// What every line of a step of node i begins with. It is made once for all of them.
fn step_head(i: usize) -> Piece
    requires { i < node_limit }
{
    let mut head = Piece::new();
    head.put_field(b"forward ", i as u16);
    head.put(b" ");
    head
}

// The line of a step alone.
fn put_alone(out: &mut Out, head: &Piece, label: u8) {
    out.line();
    out.put_text(head);
    out.put_field(b"0 ", u16::from(label));
    out.put(b"\n");
}

// The line of a step together with a partner, with tau.
fn put_pair(out: &mut Out, head: &Piece, mate: u16) {
    out.line();
    out.put_text(head);
    out.put_number(mate);
    out.put(b" 0\n");
}

// A line for each forward step, in order: one way leads on from wanted place to wanted place, and each is met once, with all its partners.
fn put_steps(out: &mut Out, rows: &Rows, marks: &[u8; NODES], sets: &[Labels], nodes: usize)
    requires part { SomePartAt rows.now 0 }
    requires covers { Covers rows.now sets.now }
    requires few { nodes ≤ node_limit }
{
    let mut way = Way::new();
    let mut mates = Places::new();
    for i in 0..nodes {
        if marks[i] == WANTED {
            way.lead(i, rows);
            let label = way.meet(i, true, rows, sets, &mut mates);
            let head = step_head(i);
            if let Some(label) = label {
                put_alone(out, &head, label);
            }
            for mate in mates.nodes() {
                put_pair(out, &head, *mate);
            }
        }
    }
}

// The line of one undo.
fn put_undo(out: &mut Out, key: u16, label: u8) {
    out.line();
    out.put_field(b"undo ", key);
    out.put_field(b" ", u16::from(label));
    out.put(b"\n");
}

// A line for each key whose undo is allowed, with its label. The labels are gathered in one pass.
fn put_undos(out: &mut Out, bytes: &[u8]) {
    let mut keys = [0u16; NODES];
    let Ok(count) = undo_listing(bytes, &mut keys) else {
        return;
    };
    let row = &keys[..count];
    let mut labels = [NO_ACTION; NODES];
    undo_labels(bytes, row, &mut labels);
    for (i, key) in row.iter().enumerate() {
        put_undo(out, *key, labels[i]);
    }
}

// The line of a refused record.
fn put_refused(out: &mut Out, refusal: Refusal)
    requires { out.old.len ≡ 0 }
{
    out.put_field(b"refused ", u16::from(u8::from(refusal)));
    out.put(b"\n");
}

// The first line of a record that is read.
fn put_counts(out: &mut Out, bytes: &[u8], nodes: usize)
    requires { (out.old.len ≡ 0) × (nodes ≤ node_limit) }
{
    out.put_field(b"nodes ", nodes as u16);
    out.put_field(b" keys ", number(keys::count(bytes)));
    out.put_field(b" next ", number(keys::least_free(bytes)));
    out.put(b"\n");
}

// Writes all lines of a record, or its refusal, and answers which: the refusal, or the number of nodes. The record is indexed and its
// wanted places are marked once. What each part shows is noted on the way, so that the search for partners enters no part in vain.
pub fn list(bytes: &[u8]) -> Result<usize, Refusal>
    ensures { ReadRecord bytes.now (refusal result) (value result) }
{
    let mut out = Out::new();
    let mut rows = Rows::new();
    match rows.index(bytes) {
        Err(refusal) => {
            put_refused(&mut out, refusal);
            out.flush();
            Err(refusal)
        }
        Ok(nodes) => {
            let mut marks = [0; NODES];
            let mut sets = [Labels::full(); NODES + 1];
            mark(0, &Labels::full(), &rows, &mut marks, &mut sets);
            put_counts(&mut out, bytes, nodes);
            put_steps(&mut out, &rows, &marks, &sets, nodes);
            put_undos(&mut out, bytes);
            out.flush();
            Ok(nodes)
        }
    }
}
