// The first forward step at or after two places (01, Operations): a search over the wanted places of a record.
#![tactic(auto)]

ghost use Rattle.operations.specs.Ask.{FirstStep};
ghost use Rattle.shared.specs.Refusal.{refusal};
ghost use Rattle.search.specs.First.{found, first_place, second_place, label, SomeReady, Next};

use index::Rows;
use labelset::Labels;
use partners::Way;
use reader::NODES;
use shared::{Node, Refusal, TAU};
use showing::Places;
use wanted::{WANTED, mark};

// A forward step: its places and its label. The second place is 0 where the first steps alone.
#[derive(Clone, Copy)]
pub struct Step {
    pub p: u16,
    pub q: u16,
    pub label: u8,
}

// The first step at or after (p, q), by the rows of a record and the marks of its wanted places. A wanted place has a step: no more than two
// places are looked at, the one that the question begins in and the next.
fn next_step(rows: &Rows, marks: &[u8], p: Node, q: Node) -> Option<Step>
    requires { SomeReady rows.now marks.now }
    ensures { Next rows.now marks.now p.0 q.0 result }
{
    let sets: [Labels; 0] = [];
    let mut way = Way::new();
    let mut mates = Places::new();
    let mut from = usize::from(q.0);
    let mut first = None;
    'search: for i in usize::from(p.0)..marks.len() {
        let wanted = marks[i] == WANTED;
        if wanted {
            way.lead(i, rows);
            // Two tests and no chain: after a chain the proof would not know that a place which is passed shows no label.
            if from == 0 {
                if let Some(label) = way.meet(i, false, rows, &sets, &mut mates) {
                    first = Some(Step {
                        p: i as u16,
                        q: 0,
                        label,
                    });
                    break 'search;
                }
            }
            way.meet(i, true, rows, &sets, &mut mates);
            let partners = mates.nodes();
            for mate in partners {
                if from <= usize::from(*mate) {
                    first = Some(Step {
                        p: i as u16,
                        q: *mate,
                        label: TAU,
                    });
                    break 'search;
                }
            }
        }
        from = 0;
    }
    first
}

// The first forward step of the record at or after (p, q).
pub fn first_step(record: &[u8], p: Node, q: Node) -> Result<Option<Step>, Refusal>
    ensures { FirstStep «record».now p.0 q.0 (refusal result) (found result) (first_place result) (second_place result) (label result) }
{
    let mut rows = Rows::new();
    let nodes = rows.index(record)?;
    let mut marks = [0; NODES];
    let mut sets = [Labels::empty()];
    mark(0, &Labels::full(), &rows, &mut marks, &mut sets);
    Ok(next_step(&rows, &marks[..nodes], p, q))
}
