// Barrier calls in a run: the key's, and those of any placement.
#![tactic(auto)]

ghost use Rattle.std.specs.Prelude.{◌≡◌, true};
ghost use Rattle.desk.specs.Desks.{IsMade};
ghost use Rattle.paper_refusals.specs.Numbers.{number_of};
ghost use Rattle.paper_nests.specs.Valid.{is_valid};
ghost use Rattle.paper_nests.specs.Stored.{nest_in, IsCounted};
ghost use Rattle.paper_placements.specs.Placements.{are_gaps};
ghost use Rattle.paper_placements.specs.Words.{gaps_in};
ghost use Rattle.call_runs.specs.Says.{can_count, CallsSays, PlacementSays, refusal, calls_under};

use desk::{Desk, key_fault};
use paper_nests::Nest;
use paper_placements::Placement;
use paper_refusals::{Fault, Refusal};
use run_count::{INNER, OUTER, calls_of, turns_fit};

// The number and the line of a refusal, 0 and 0 for none, and the calls. The C interface: desk.h lays it out.
#[repr(C)]
#[derive(Clone, Copy)]
pub struct Calls {
    pub number: u8,
    pub line: usize,
    pub calls: u64,
}

// The key's barrier calls, given a number of turns for each loop in order of its DO. Numbers 10, 11, 17.
pub fn count_calls(desk: Desk, turns: &[u8]) -> Calls
    requires { IsMade desk }
    ensures { CallsSays desk turns.now result }
{
    if let Err(refusal) = key_fault(desk.loaded, desk.planned) {
        return refused(Fault::from(refusal));
    }
    calls_under(desk.nest, desk.key, turns, INNER)
}

// The barrier calls of the placement that the text spells, given a number of turns, from 1, for each loop in order of
// its DO. Numbers 10, then 1, 2, 8, 16 with their line, then 17.
pub fn placement_calls(desk: Desk, text: &[u8], turns: &[u8]) -> Calls
    requires { IsMade desk }
    ensures { PlacementSays desk text.now turns.now result }
{
    if let Err(refusal) = key_fault(desk.loaded, true) {
        return refused(Fault::from(refusal));
    }
    let nest = desk.nest;
    match paper_texts::read_placement(nest.count, paper_barred::barred_of(nest), text) {
        Err(fault) => refused(fault),
        Ok(placement) => calls_under(nest, placement, turns, OUTER),
    }
}

// The placement's calls; 17 where they cannot be counted. `inner` is a bound that turns are compared with, and chooses
// no step.
fn calls_under(nest: Nest, p: Placement, turns: &[u8], inner: u8) -> Calls
    requires counted { IsCounted nest }
    requires nest_value { is_valid (nest_in nest) ≡ true }
    requires words_value { are_gaps (nest_in nest) (gaps_in p.words) ≡ true }
    ensures { result ≡ calls_under inner (nest_in nest) turns.now (gaps_in p.words) }
{
    if !can_count(nest, turns, inner) {
        return refused(Fault::from(Refusal::WrongTurns));
    }
    Calls {
        number: 0,
        line: 0,
        calls: calls_of(nest.points(), p, turns),
    }
}

// Nothing is barred, every loop runs, and the turns fit the nest's loops, those of the loops inside from `inner`.
pub fn can_count(nest: Nest, turns: &[u8], inner: u8) -> bool
    requires { IsCounted nest }
    ensures { result ≡ can_count inner (nest_in nest) turns.now }
{
    nest.bars == 0 && nest.flags == 0 && turns_fit(nest.points(), turns, OUTER, inner)
}

// The reply that refuses. It fills a struct of its own, as desk.h lays out each reply by itself.
fn refused(fault: Fault) -> Calls
    ensures { result ≡ refusal (number_of fault.refusal) fault.line }
{
    Calls {
        number: u8::from(fault.refusal),
        line: fault.line,
        calls: 0,
    }
}
