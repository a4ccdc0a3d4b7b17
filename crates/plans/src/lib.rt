// What a forward step or an undo is to do: planned on the bytes as they are.
#![tactic(auto)]

ghost use Rattle.std.specs.Prelude.{◌≡◌};
ghost use Rattle.plans.specs.Plan.{Asked, ForwardPlan, UndoPlan};

use findings::{Ask, Places};
use shared::Refusal;
use survey::survey_all;

// A step to be made: its label, and where the bytes of its one place, or of its two places, begin.
#[derive(Clone, Copy)]
pub struct Plan {
    pub label: u8,
    pub first: u16,
    pub second: Option<u16>,
}

// The first and the second place of a forward step at the node p, or at p and q if q is not 0: refused where there are not so many, or q
// is not behind p.
fn asked(places: Places, p: u16, q: u16) -> Result<(u16, Option<u16>), Refusal>
    ensures { Asked places p q result }
{
    match places {
        Places::One(first) if q == 0 => Ok((first, None)),
        Places::Two(first, second) if p < q => Ok((first, Some(second))),
        _ => Err(Refusal::NoPlaces),
    }
}

// The plan of a forward step at the node p, or at p and q if q is not 0, with the key.
pub fn plan_forward(s: &[u8], p: u16, q: u16, key: u16) -> Result<Plan, Refusal>
    ensures { ForwardPlan s.now p q key result }
{
    let seen = survey_all(s, Ask::Forward { p, q, key })?;
    if key == 0 {
        return Err(Refusal::KeyZero);
    }
    let (first, second) = asked(seen.spots.places(), p, q)?;
    if seen.stands {
        return Err(Refusal::KeyStands);
    }
    let label = seen.moved.label().ok_or(Refusal::NoStep)?;
    Ok(Plan {
        label,
        first,
        second,
    })
}

// The plan of the undo of the key.
pub fn plan_undo(s: &[u8], key: u16) -> Result<Plan, Refusal>
    ensures { UndoPlan s.now key result }
{
    let seen = survey_all(s, Ask::Undo { key })?;
    if key == 0 {
        return Err(Refusal::KeyZero);
    }
    let (first, second) = match seen.spots.places() {
        Places::Zero => return Err(Refusal::KeyAbsent),
        Places::One(first) => (first, None),
        Places::Two(first, second) => (first, Some(second)),
        Places::More(..) => return Err(Refusal::NoUndo), // a step has two places at most
    };
    let label = seen.moved.label().ok_or(Refusal::NoUndo)?;
    Ok(Plan {
        label,
        first,
        second,
    })
}
