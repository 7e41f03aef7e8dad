// The argument of the key, written into a lent buffer.
#![tactic(auto)]

ghost use Rattle.std.specs.Prelude.{◌≡◌, true, false, length};
ghost use Rattle.paper_nests.specs.Valid.{is_valid};
ghost use Rattle.paper_nests.specs.Stored.{nest_in, IsCounted};
ghost use Rattle.paper_barred.specs.Reduced.{is_blocked};
ghost use Rattle.desk.specs.Desks.{IsMade};
ghost use Rattle.call_argue.specs.Says.{text_of, AnswersShort, ArgueSays};

use argue_paper::give_argument;
use desk::{Answer, Desk, key_fault, refused};
use paper_nests::Nest;
use paper_refusals::Refusal;

// Writes the argument of the key as text into a lent buffer; the value is its length. Numbers 10, 11, then 9 where the
// buffer is short, with the length that is wanted.
pub fn argue(desk: Desk, out: &mut [u8]) -> Answer
    requires { IsMade desk }
    ensures { ArgueSays desk out.old out.new result }
{
    if let Err(refusal) = key_fault(desk.loaded, desk.planned) {
        return refused(refusal);
    }
    let nest = desk.nest;
    let wanted = count_argument(nest);
    if out.len() < wanted {
        return too_short(wanted);
    }
    Answer {
        number: 0,
        line: 0,
        value: give_argument(nest, out).at,
    }
}

// How long the text of the argument is.
fn count_argument(nest: Nest) -> usize
    requires counted { IsCounted nest }
    requires nest_value { is_valid (nest_in nest) ≡ true }
    requires nest_value_2 { is_blocked (nest_in nest) ≡ false }
    ensures { result ≡ length (text_of (nest_in nest)) }
{
    let mut spare = [0; 1];
    give_argument(nest, &mut spare).at
}

// The reply where the buffer is too short.
fn too_short(length: usize) -> Answer
    ensures { AnswersShort length result }
{
    Answer {
        number: u8::from(Refusal::ShortBuffer),
        line: 0,
        value: length,
    }
}
