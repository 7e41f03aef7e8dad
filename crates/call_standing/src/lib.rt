// How a sitting stands: all that a page shows of it after a move, in one reply.
#![tactic(auto)]

ghost use Rattle.std.specs.Prelude.{◌≡◌, ℕ, ◌<◌};
ghost use Rattle.laws.specs.Entries.{at};
ghost use Rattle.paper_refusals.specs.Numbers.{number_of};
ghost use Rattle.paper_nests.specs.Kinds.{POINTS};
ghost use Rattle.desk.specs.Desks.{IsMade};
ghost use Rattle.call_standing.specs.Says.{StandingSays, Blank, Few};

use desk::Desk;
use paper_nests::Nest;
use paper_placements::Placement;
use paper_refusals::Refusal;

// The number and the line of a refusal, 0 and 0 for none; the candidate's barriers; how many of them each loop has at
// its own gaps, by its DO; how many of them cut each dependence; how many dependences none cuts. Every other place has
// 0. No loop has more than the gaps 1 to 255, so that a count fits a byte. The C interface: desk.h lays it out.
#[repr(C)]
#[derive(Clone, Copy)]
pub struct Standing {
    pub number: u8,
    pub line: usize,
    pub placement: Placement,
    pub counts: [u8; Nest::POINTS],
    pub cuts: [u8; Nest::DEPENDENCES],
    pub uncut: usize,
}

// How the desk's sitting stands. Number 10.
pub fn sitting_stands(desk: Desk) -> Standing
    requires { IsMade desk }
    ensures { StandingSays desk result }
{
    if !desk.loaded {
        return blank(Refusal::NoNest);
    }
    let sitting = desk.sitting;
    let placement = sitting.placement;
    // The points in an array of their own: lent out of the desk, they would have the nest copied.
    let points = desk.nest.points;
    let table = paper_counts::counts_of(&points[..desk.nest.count], placement);
    let counts = in_bytes(&table);
    let cuts = sitting.counts;
    Standing {
        number: 0,
        line: 0,
        placement,
        counts,
        cuts,
        uncut: sitting.uncut,
    }
}

// The table's entries as bytes.
fn in_bytes(table: &[usize; Nest::POINTS]) -> [u8; Nest::POINTS]
    requires { Few table.now }
    ensures { (i : ℕ) → i < POINTS → at result i ≡ at table.now i }
{
    let mut bytes = [0; Nest::POINTS];
    for i in 0..Nest::POINTS {
        bytes[i] = table[i] as u8;
    }
    bytes
}

// The reply that tells nothing.
fn blank(refusal: Refusal) -> Standing
    ensures { Blank (number_of refusal) result }
{
    Standing {
        number: u8::from(refusal),
        line: 0,
        placement: Placement::empty(),
        counts: [0; Nest::POINTS],
        cuts: [0; Nest::DEPENDENCES],
        uncut: 0,
    }
}
