// The marking desk: one nest, at most one key, and the candidate's sitting with its moves. A desk comes only from these
// calls; each takes it by value.
#![tactic(auto)]

ghost use Rattle.std.specs.Prelude.{◌≡◌, true, not, ℕ};
ghost use Rattle.desk.specs.Desks.{IsMade, IsMadePlain};
ghost use Rattle.laws.specs.Choice.{when, first_of};
ghost use Rattle.paper_refusals.specs.Numbers.{number_of, number_in};
ghost use Rattle.paper_nests.specs.Valid.{is_valid};
ghost use Rattle.paper_nests.specs.Stored.{nest_in, IsCounted};
ghost use Rattle.paper_placements.specs.Placements.{are_gaps};
ghost use Rattle.paper_placements.specs.Words.{gaps_in};
ghost use Rattle.paper_order.specs.Verdicts.{mark_of};
ghost use Rattle.desk.specs.Says.{EmptySays, LoadSays, PlanSays, CountSays, MarkSays, WriteSays, OverSays};
ghost use Rattle.desk.specs.Says.{RefusedAs, NotChosen, WrittenAs, number_by, verdict_in};

use desk_moves::Moves;
use desk_sitting::Sitting;
use paper_nests::Nest;
use paper_placements::{Counts, Placement};
use paper_refusals::{Fault, Refusal};

// A desk: whether there is a nest, the nest, whether there is a key, the key, the candidate's sitting, the moves that
// can be taken back.
// The C interface: desk.h lays out this struct and the four below, with their numbers and flags. C hands a desk in by
// value, so that it may hold anything: that calls made it is a clause (`IsMade`), and not an invariant of the type.
#[repr(C)]
#[derive(Clone, Copy)]
pub struct Desk {
    pub loaded: bool,
    pub nest: Nest,
    pub planned: bool,
    pub key: Placement,
    pub sitting: Sitting,
    pub moves: Moves,
}

// A desk of the kind before sittings.
#[repr(C)]
#[derive(Clone, Copy)]
pub struct PlainDesk {
    pub loaded: bool,
    pub nest: Nest,
    pub planned: bool,
    pub key: Placement,
}

// The number and the line of a refusal, 0 and 0 for none, and the desk after the call.
#[repr(C)]
#[derive(Clone, Copy)]
pub struct Reply {
    pub number: u8,
    pub line: usize,
    pub desk: Desk,
}

// The number and the line of a refusal, 0 and 0 for none, and the answer.
#[repr(C)]
#[derive(Clone, Copy)]
pub struct Answer {
    pub number: u8,
    pub line: usize,
    pub value: usize,
}

// The number and the line of a refusal, 0 and 0 for none, and a set: of gaps by the textbook method, of loops by their
// DOs for the missing runs.
#[repr(C)]
#[derive(Clone, Copy)]
pub struct Chosen {
    pub number: u8,
    pub line: usize,
    pub set: Placement,
}

// What the desk says of a placement: the first uncut dependence, or the first loop that is dearer, or best.
#[derive(Clone, Copy)]
pub enum Verdict {
    Uncut(usize),
    Dearer(Counts),
    Best,
}

// What stands for the number of a refusal: the refusal, or the number itself. Callers may give any number: refused,
// not_chosen and write_placement ask nothing of it.
pub trait Numbered {
    ghost number: { Self → ℕ };

    fn number(self) -> u8
        ensures { result ≡ number self };
}

impl Numbered for Refusal {
    ghost number = { number_of };

    fn number(self) -> u8 {
        u8::from(self)
    }
}

impl Numbered for u8 {
    ghost number = { λ n. n };

    fn number(self) -> u8 {
        self
    }
}

impl Desk {
    // An empty desk.
    pub fn empty() -> Desk
        ensures { EmptySays result }
    {
        Desk {
            loaded: false,
            nest: Nest::empty(),
            planned: false,
            key: Placement::empty(),
            sitting: Sitting::empty(0),
            moves: Moves::empty(),
        }
    }
}

// Reads a nest text; accepted, it replaces the nest and drops key, sitting and moves. Numbers 1 to 8 and 14 with their
// line.
pub fn load_nest(desk: Desk, text: &[u8]) -> Reply
    ensures { LoadSays desk text.now result }
{
    match paper_texts::read_nest(text) {
        Err(fault) => Reply {
            number: u8::from(fault.refusal),
            line: fault.line,
            desk,
        },
        Ok(nest) => Reply {
            number: 0,
            line: 0,
            desk: Desk {
                loaded: true,
                nest,
                planned: false,
                key: Placement::empty(),
                sitting: Sitting::empty(nest.many),
                moves: Moves::empty(),
            },
        },
    }
}

// Works out the key of the nest. Numbers 10, 15.
pub fn plan_key(desk: Desk) -> Reply
    requires { IsMade desk }
    ensures { PlanSays desk result }
{
    if !desk.loaded {
        return Reply {
            number: u8::from(Refusal::NoNest),
            line: 0,
            desk,
        };
    }
    let Some(key) = plan_paper::plan_paper(desk.nest) else {
        return Reply {
            number: u8::from(Refusal::Blocked),
            line: 0,
            desk,
        };
    };
    Reply {
        number: 0,
        line: 0,
        desk: Desk {
            planned: true,
            key,
            ..desk
        },
    }
}

// The barriers of the key at the own gaps of the loop of DO `point`. Numbers 10, 11, 6.
pub fn loop_count(desk: Desk, point: usize) -> Answer
    requires { IsMade desk }
    ensures { CountSays desk point result }
{
    if let Err(refusal) = key_fault(desk.loaded, desk.planned) {
        return refused(refusal);
    }
    // The points in an array of their own: lent out of the desk, they would have the nest copied.
    let points = desk.nest.points;
    let points = &points[..desk.nest.count];
    if !paper_nests::is_do(points, point) {
        return refused(Refusal::WrongPoint);
    }
    Answer {
        number: 0,
        line: 0,
        value: paper_placements::count_of(points, point, desk.key),
    }
}

// Reads a placement text and says how it stands beside the key. Numbers 10, 11, then 1, 2, 8, 16 with their line.
pub fn mark_placement(desk: Desk, text: &[u8]) -> Result<Verdict, Fault>
    requires { IsMade desk }
    ensures { MarkSays desk text.now result }
{
    key_fault(desk.loaded, desk.planned)?;
    let nest = desk.nest;
    let placement = paper_texts::read_placement(nest.count, paper_barred::barred_of(nest), text)?;
    Ok(judge(nest, desk.key, placement))
}

// Writes the key as text from the start of the buffer. Numbers 10, 11, 9.
pub fn write_key(desk: Desk, out: &mut [u8]) -> Answer
    ensures { WriteSays desk out.old out.new result }
{
    write_placement(key_fault(desk.loaded, desk.planned), desk.key, out)
}

// Empties the desk.
pub fn reset(desk: Desk) -> Desk
    ensures { EmptySays result }
{
    let blank = Desk::empty();
    blank
}

// A desk of the kind before sittings goes over: the nest is kept, the sitting is empty, no move was made, and where
// there was a key it is worked out anew, if the nest has one.
pub fn go_over(old: PlainDesk) -> Desk
    requires { IsMadePlain old }
    ensures { OverSays old result }
{
    let nest = old.nest;
    let sitting = Sitting::empty(nest.many);
    let desk = Desk {
        loaded: old.loaded,
        nest,
        planned: false,
        key: Placement::empty(),
        sitting,
        moves: Moves::empty(),
    };
    if old.planned {
        let reply = plan_key(desk);
        return reply.desk;
    }
    desk
}

// How a placement stands beside the key.
pub fn judge(nest: Nest, key: Placement, placement: Placement) -> Verdict
    requires counted { IsCounted nest }
    requires nest_value { is_valid (nest_in nest) ≡ true }
    requires words_value { are_gaps (nest_in nest) (gaps_in key.words) ≡ true }
    requires words_value_2 { are_gaps (nest_in nest) (gaps_in placement.words) ≡ true }
    ensures { verdict_in result ≡ mark_of (nest_in nest) (gaps_in key.words) (gaps_in placement.words) }
{
    if let Some(first) = paper_placements::uncut(nest, placement) {
        return Verdict::Uncut(first);
    }
    match paper_placements::compare(nest.points(), key, placement) {
        Some(counts) => Verdict::Dearer(counts),
        None => Verdict::Best,
    }
}

// Writes a placement as text from the start of the buffer, unless the desk's state refuses it. Number 9.
pub fn write_placement<N: Numbered>(
    state: Result<(), N>,
    placement: Placement,
    out: &mut [u8],
) -> Answer
    ensures { WrittenAs (number_by N.number state) (gaps_in placement.words) out.old out.new result }
{
    let number = match state {
        Ok(()) => 0,
        Err(refusal) => refusal.number(),
    };
    if number != 0 {
        return refused(number);
    }
    if out.len() < paper_texts::text_length(placement) {
        return refused(Refusal::ShortBuffer);
    }
    Answer {
        number: 0,
        line: 0,
        value: paper_texts::write_text(placement, out),
    }
}

// Whether a call that wants a key may go on: 10 without a nest, 11 without a key.
pub fn key_fault(loaded: bool, planned: bool) -> Result<(), Refusal>
    ensures { number_in result ≡ first_of (when (not loaded) 10) (when (not planned) 11) }
{
    if !loaded {
        return Err(Refusal::NoNest);
    }
    if !planned {
        return Err(Refusal::NoKey);
    }
    Ok(())
}

// The answer that refuses.
pub fn refused<N: Numbered>(refusal: N) -> Answer
    ensures { RefusedAs (N.number refusal) result }
{
    Answer {
        number: refusal.number(),
        line: 0,
        value: 0,
    }
}

// The reply that chooses nothing.
pub fn not_chosen<N: Numbered>(refusal: N) -> Chosen
    ensures { NotChosen (N.number refusal) result }
{
    Chosen {
        number: refusal.number(),
        line: 0,
        set: Placement::empty(),
    }
}
