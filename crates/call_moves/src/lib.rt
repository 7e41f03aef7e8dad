// The calls at the screen: the candidate puts barriers into the sitting, lifts them, and takes moves back; and the
// sitting is written as text.
#![tactic(auto)]

ghost use Rattle.std.specs.Prelude.{◌≡◌, not, ◌&&◌, ◌<◌, ltb};
ghost use Rattle.laws.specs.Choice.{when, first_of};
ghost use Rattle.paper_refusals.specs.Numbers.{number_of, number_in};
ghost use Rattle.desk.specs.Desks.{IsMade};
ghost use Rattle.paper_nests.specs.Stored.{nest_in};
ghost use Rattle.paper_placements.specs.Words.{GAPS, holds};
ghost use Rattle.desk_sitting.specs.Kept.{Ready};
ghost use Rattle.desk_moves.specs.Ring.{IsRing, PushSays};
ghost use Rattle.call_moves.specs.Says.{PutSays, LiftSays, BackSays, SittingSays};
ghost use Rattle.call_moves.specs.Says.{UndoneSays, refused_as, moved_to};

use desk::{Answer, Desk};
use desk_moves::{Move, Moves};
use desk_sitting::Sitting;
use paper_nests::Nest;
use paper_refusals::Refusal;

// The number of a refusal, 0 for none, with line 0; how many dependences remain uncut; the desk after the call. The C
// interface: desk.h lays it out.
#[repr(C)]
#[derive(Clone, Copy)]
pub struct Moved {
    pub number: u8,
    pub line: usize,
    pub uncut: usize,
    pub desk: Desk,
}

// Puts a barrier at a gap of the sitting. Numbers 10, 8, 12, 16.
pub fn put_gap(desk: Desk, gap: usize) -> Moved
    requires { IsMade desk }
    ensures { PutSays desk gap result }
{
    let nest = desk.nest;
    if let Err(refusal) = gap_fault(desk.loaded, nest.count, gap) {
        return refused(refusal, desk);
    }
    if desk.sitting.placement.holds(gap) {
        return refused(Refusal::NothingMoved, desk);
    }
    if paper_barred::barred_of(nest).holds(gap) {
        return refused(Refusal::BarredGap, desk);
    }
    let after = desk_sitting::put(nest, desk.sitting, gap);
    accepted(desk, after, with_move(desk.moves, gap, true))
}

// Lifts the barrier at a gap of the sitting. Numbers 10, 8, 12.
pub fn lift_gap(desk: Desk, gap: usize) -> Moved
    requires { IsMade desk }
    ensures { LiftSays desk gap result }
{
    if let Err(refusal) = gap_fault(desk.loaded, desk.nest.count, gap) {
        return refused(refusal, desk);
    }
    if !desk.sitting.placement.holds(gap) {
        return refused(Refusal::NothingMoved, desk);
    }
    let after = desk_sitting::lift(desk.nest, desk.sitting, gap);
    accepted(desk, after, with_move(desk.moves, gap, false))
}

// Undoes the latest Put or Lift. Numbers 10, 13.
pub fn take_back(desk: Desk) -> Moved
    requires { IsMade desk }
    ensures { BackSays desk result }
{
    if !desk.loaded {
        return refused(Refusal::NoNest, desk);
    }
    if desk.moves.many == 0 {
        return refused(Refusal::NoMoveLeft, desk);
    }
    let after = undone(desk.nest, desk.sitting, desk.moves.latest());
    accepted(desk, after, desk.moves.pop())
}

// Writes the sitting as text from the start of the buffer. Numbers 10, 9.
pub fn write_sitting(desk: Desk, out: &mut [u8]) -> Answer
    ensures { SittingSays desk out.old out.new result }
{
    desk::write_placement(
        desk::key_fault(desk.loaded, true),
        desk.sitting.placement,
        out,
    )
}

// The moves with one more, of a gap put or lifted; `put` is kept with the move, and chooses no step.
fn with_move(moves: Moves, gap: usize, put: bool) -> Moves
    requires ring { IsRing moves }
    requires gap_bound { gap < GAPS }
    ensures { PushSays moves (record { gap = gap; put = put }) result }
{
    moves.push(Move {
        gap: gap as u8,
        put,
    })
}

// The sitting with the move undone: a gap that was put is lifted, one that was lifted is put.
fn undone(nest: Nest, s: Sitting, m: Move) -> Sitting
    requires ready { Ready nest s m.gap }
    requires gap_value { holds s.placement.words m.gap ≡ m.put }
    ensures { UndoneSays (nest_in nest) m s result }
{
    let gap = m.gap as usize;
    if m.put {
        desk_sitting::lift(nest, s, gap)
    } else {
        desk_sitting::put(nest, s, gap)
    }
}

// Whether a call on a gap may go on: 10 without a nest, 8 out of range.
fn gap_fault(loaded: bool, count: usize, gap: usize) -> Result<(), Refusal>
    ensures { number_in result ≡ first_of (when (not loaded) 10) (when (not (ltb 0 gap && ltb gap count)) 8) }
{
    if !loaded {
        return Err(Refusal::NoNest);
    }
    if gap == 0 || gap >= count {
        return Err(Refusal::WrongGap);
    }
    Ok(())
}

// The desk with this sitting and these moves.
fn accepted(desk: Desk, after: Sitting, moves: Moves) -> Moved
    ensures { result ≡ moved_to desk after moves }
{
    Moved {
        number: 0,
        line: 0,
        uncut: after.uncut,
        desk: Desk {
            sitting: after,
            moves,
            ..desk
        },
    }
}

// The reply that refuses.
fn refused(refusal: Refusal, desk: Desk) -> Moved
    ensures { result ≡ refused_as (number_of refusal) desk }
{
    Moved {
        number: u8::from(refusal),
        line: 0,
        uncut: 0,
        desk,
    }
}
