// An argument text weighed, against the desk's key or against a placement text.
#![tactic(auto)]

ghost use Rattle.std.specs.Prelude.{◌≡◌, true};
ghost use Rattle.paper_nests.specs.Valid.{is_valid};
ghost use Rattle.paper_nests.specs.Stored.{nest_in, IsCounted};
ghost use Rattle.paper_placements.specs.Placements.{are_gaps, avoids};
ghost use Rattle.paper_placements.specs.Words.{gaps_in};
ghost use Rattle.desk.specs.Desks.{IsMade};
ghost use Rattle.paper_refusals.specs.Numbers.{number_of};
ghost use Rattle.call_argument.specs.Says.{reply, weighed_by, UNHELD, WeighSays, WeighPlacementSays};

use argue_judge::judge;
use argue_texts::argument_fault;
use call_slips::read_on;
use desk::{Desk, key_fault};
use paper_nests::Nest;
use paper_placements::{Placement, uncut};
use paper_refusals::{Fault, Refusal};

// The number of a refusal, and the text at fault (1 the placement, 2 the argument, 0 for neither) with its line; zeros
// where the argument holds. The C interface: desk.h lays it out, and has the texts' numbers.
#[repr(C)]
#[derive(Clone, Copy)]
pub struct Weighed {
    pub number: u8,
    pub text: u8,
    pub line: usize,
}

// The texts at fault.
const NEITHER: u8 = 0;

const PLACEMENT: u8 = 1;

const ARGUMENT: u8 = 2;

// Reads an argument text and says whether it holds of the key. Numbers 10, 11, then 1, 2, 4, 5 with their line, then 21
// with the first line that does not hold.
pub fn weigh(desk: Desk, text: &[u8]) -> Weighed
    requires { IsMade desk }
    ensures { WeighSays desk text.now result }
{
    if let Err(refusal) = key_fault(desk.loaded, desk.planned) {
        return refused(Fault::from(refusal), NEITHER);
    }
    weigh_on(desk.nest, desk.key, text)
}

// Reads a placement text and an argument text, and says whether the argument holds of the placement; no key is wanted.
// Numbers 10; 1, 2, 8, 16 of the placement with their line; 1, 2, 4, 5 of the argument with their line; then 21, with
// line 0 where the placement is not correct, else with the first line of the argument that does not hold.
pub fn weigh_placement(desk: Desk, placement: &[u8], text: &[u8]) -> Weighed
    requires { IsMade desk }
    ensures { WeighPlacementSays desk placement.now text.now result }
{
    if let Err(refusal) = key_fault(desk.loaded, true) {
        return refused(Fault::from(refusal), NEITHER);
    }
    match read_on(desk, placement) {
        Err(fault) => refused(fault, PLACEMENT),
        Ok(read) => weigh_on(desk.nest, read, text),
    }
}

// The reply for a placement without barred gaps.
fn weigh_on(nest: Nest, placement: Placement, text: &[u8]) -> Weighed
    requires counted { IsCounted nest }
    requires nest_value { is_valid (nest_in nest) ≡ true }
    requires words_value { are_gaps (nest_in nest) (gaps_in placement.words) ≡ true }
    requires words_value_2 { avoids (nest_in nest).barred (gaps_in placement.words) ≡ true }
    ensures { result ≡ weighed_by (nest_in nest) (gaps_in placement.words) text.now }
{
    if let Err(fault) = argument_fault(text) {
        return refused(fault, ARGUMENT);
    }
    if uncut(nest, placement).is_some() {
        return unheld(PLACEMENT, 0);
    }
    match judge(nest, placement, text) {
        Some(line) => unheld(ARGUMENT, line),
        None => Weighed {
            number: 0,
            text: NEITHER,
            line: 0,
        },
    }
}

// The reply of a refusal, with the text at fault.
fn refused(fault: Fault, text: u8) -> Weighed
    ensures { result ≡ reply (number_of fault.refusal) text fault.line }
{
    Weighed {
        number: u8::from(fault.refusal),
        text,
        line: fault.line,
    }
}

// The reply where a line does not hold, or the placement is not correct.
fn unheld(text: u8, line: usize) -> Weighed
    ensures { result ≡ reply UNHELD text line }
{
    refused(
        Fault {
            refusal: Refusal::Unheld,
            line,
        },
        text,
    )
}
