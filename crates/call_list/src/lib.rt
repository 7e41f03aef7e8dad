// Extra dependences, lent as a list: the first faulty record, else the first that the key doesn't cut.
#![tactic(auto)]

ghost use Rattle.std.specs.Prelude.{◌≡◌, ◌+◌, ◌^◌, ◌<◌, ◌≤◌, length};
ghost use Rattle.paper_refusals.specs.Numbers.{number_in};
ghost use Rattle.paper_nests.specs.Kinds.{POINTS};
ghost use Rattle.paper_nests.specs.Loops.{HasEnds};
ghost use Rattle.paper_nests.specs.Stored.{dep_in, nest_in, IsCounted};
ghost use Rattle.paper_nests.specs.Valid.{CarriedTo};
ghost use Rattle.desk.specs.Desks.{desk_in, IsMade, record_fault};
ghost use Rattle.desk.specs.Says.{ListSays};
ghost use Rattle.call_list.specs.Lists.{EndsFit, all_deps, begun, step_of};

use desk::{Answer, Desk};
use paper_nests::{CARRIED, Dependence, INDEPENDENT, Nest};
use paper_refusals::Refusal;

// The ENDDO of every DO of a nest, by the DO's point: found once for a list, looked up for each record. A byte each, as
// the table goes into every step by value.
#[derive(Clone, Copy)]
pub struct Ends {
    pub of: [u8; Nest::POINTS],
}

// What is wrong with the first faulty record of the list, else the place of the first that the key doesn't cut, or 0.
// Numbers 10, 11, then 2, 6, 7 with the record's place from 1.
pub fn check_list(desk: Desk, list: &[Dependence]) -> Answer
    requires { IsMade desk }
    ensures { ListSays desk (all_deps list.now) result }
{
    let ends = ends_on(desk);
    let mut found = begin(desk);
    for (i, &e) in list.iter().enumerate() {
        found = step(desk, ends, found, e, i);
    }
    found
}

// The ends of the loops of the desk's nest.
pub fn ends_on(desk: Desk) -> Ends
    requires { IsMade desk }
    ensures { HasEnds (nest_in desk.nest).points result.of }
{
    ends_in(desk.nest.points())
}

// The ends of the loops of some points.
fn ends_in(points: &[u8]) -> Ends
    requires { (length points.now ≤ POINTS) × EndsFit points.now }
    ensures { HasEnds points.now result.of }
{
    let ends = paper_nests::ends_of(points);
    let mut of = [0u8; Nest::POINTS];
    for d in 0..points.len() {
        if points[d] == paper_nests::DO {
            of[d] = ends[d] as u8;
        }
    }
    Ends { of }
}

// The answer before the first record: 10, 11, or nothing yet.
pub fn begin(desk: Desk) -> Answer
    ensures { result ≡ begun (desk_in desk) }
{
    match desk::key_fault(desk.loaded, desk.planned) {
        Err(refusal) => desk::refused(refusal),
        Ok(()) => Answer {
            number: 0,
            line: 0,
            value: 0,
        },
    }
}

// The answer after the record at index i of the list. A refusal stays; a faulty record refuses with its place, i + 1,
// which is at most the list's length and so does not wrap.
pub fn step(desk: Desk, ends: Ends, found: Answer, e: Dependence, i: usize) -> Answer
    requires { IsCounted desk.nest × (HasEnds (nest_in desk.nest).points ends.of × (i + 1 < 2 ^ 64)) }
    ensures { result ≡ step_of (desk_in desk) found (dep_in e) i }
{
    if found.number != 0 {
        return found;
    }
    let end = ends.of[e.d as usize] as usize;
    // The points in an array of their own: lent out of the desk, they would have the nest copied for each record.
    let points = desk.nest.points;
    if let Err(refusal) = record_fault(&points[..desk.nest.count], end, e) {
        return Answer {
            number: u8::from(refusal),
            line: i + 1,
            value: 0,
        };
    }
    if found.value == 0 && paper_placements::cut_in(end, desk.key, e).is_none() {
        return Answer {
            number: 0,
            line: 0,
            value: i + 1,
        };
    }
    found
}

// Whether a listed record may stand: 2 for an unknown kind, 6 or 7; `end` is the ENDDO of the loop that carries it.
fn record_fault(points: &[u8], end: usize, e: Dependence) -> Result<(), Refusal>
    requires { CarriedTo points.now (dep_in e) end }
    ensures { number_in result ≡ record_fault points.now (dep_in e) }
{
    match e.kind {
        INDEPENDENT | CARRIED => paper_nests::dep_fault(points, end, e),
        _ => Err(Refusal::WrongKind),
    }
}
