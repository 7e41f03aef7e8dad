// Two placement texts held beside each other: whether each placement is as good or better than the other, and which loops
// decide.
#![tactic(auto)]

ghost use Rattle.std.specs.Prelude.{◌≡◌, true};
ghost use Rattle.paper_refusals.specs.Numbers.{number_of};
ghost use Rattle.paper_nests.specs.Valid.{is_valid};
ghost use Rattle.paper_nests.specs.Stored.{nest_in, IsCounted};
ghost use Rattle.paper_placements.specs.Placements.{are_gaps};
ghost use Rattle.paper_placements.specs.Words.{gaps_in};
ghost use Rattle.desk.specs.Desks.{IsMade};
ghost use Rattle.call_compare.specs.Says.{reply_in, refusal, weighed, CompareSays};

use call_slips::read_on;
use desk::{Desk, key_fault};
use paper_nests::Nest;
use paper_placements::Placement;
use paper_refusals::Fault;

// The number of a refusal, the text at fault (1 or 2, or 0 for neither) with its line, zeros for none; whether the first
// placement is as good or better than the second, and the second than the first; and the set of the loops that decide
// between them, by their DOs. The C interface: desk.h lays it out.
#[repr(C)]
#[derive(Clone, Copy)]
pub struct Compared {
    pub number: u8,
    pub text: u8,
    pub line: usize,
    pub first: bool,
    pub second: bool,
    pub deciding: Placement,
}

// Reads two placement texts and says which placement is as good or better than the other, and which loops decide. Numbers
// 10, then 1, 2, 8, 16 of the first text with their line, then those of the second.
pub fn compare(desk: Desk, a: &[u8], b: &[u8]) -> Compared
    requires { IsMade desk }
    ensures { CompareSays desk a.now b.now result }
{
    if let Err(refusal) = key_fault(desk.loaded, true) {
        return refused(Fault::from(refusal), 0);
    }
    let one = match read_on(desk, a) {
        Err(fault) => return refused(fault, 1),
        Ok(one) => one,
    };
    match read_on(desk, b) {
        Err(fault) => refused(fault, 2),
        Ok(two) => weigh(desk.nest, one, two),
    }
}

// The reply for two placements that were read.
fn weigh(nest: Nest, p: Placement, q: Placement) -> Compared
    requires counted { IsCounted nest }
    requires nest_value { is_valid (nest_in nest) ≡ true }
    requires words_value { are_gaps (nest_in nest) (gaps_in p.words) ≡ true }
    requires words_value_2 { are_gaps (nest_in nest) (gaps_in q.words) ≡ true }
    ensures { reply_in result ≡ weighed (nest_in nest) (gaps_in p.words) (gaps_in q.words) }
{
    let standing = paper_weigh::weigh(nest.points(), p, q);
    Compared {
        number: 0,
        text: 0,
        line: 0,
        first: standing.first,
        second: standing.second,
        deciding: standing.deciding,
    }
}

// The reply of a refusal, with the text at fault.
fn refused(fault: Fault, text: u8) -> Compared
    ensures { reply_in result ≡ refusal (number_of fault.refusal) text fault.line }
{
    Compared {
        number: u8::from(fault.refusal),
        text,
        line: fault.line,
        first: false,
        second: false,
        deciding: Placement::empty(),
    }
}
