// The program's answer: the bytes that it writes for the bytes that it reads.
#![tactic(auto)]

ghost use Rattle.std.specs.Prelude.{◌≡◌, true, ◌<◌, ◌≤◌, length};
ghost use Rattle.paper_refusals.specs.Numbers.{number_of};
ghost use Rattle.paper_nests.specs.Valid.{is_valid};
ghost use Rattle.paper_nests.specs.Stored.{nest_in, IsCounted};
ghost use Rattle.paper_lines.specs.Writing.{over};
ghost use Rattle.paper_placements.specs.Placements.{are_gaps};
ghost use Rattle.paper_placements.specs.Words.{gaps_in};
ghost use Rattle.paper_texts.specs.Program.{refusal_text};
ghost use Rattle.key_answer.specs.Answers.{ROOM, LINES, key_and_counts, Answered};

use paper_lines::put_frame;
use paper_nests::Nest;
use paper_placements::Placement;
use paper_refusals::{Fault, Refusal};
use paper_texts::{read_nest, write_counts, write_text};
use plan_paper::plan_paper;

// The kind of a refusal's line, a byte of the text.
const REFUSAL: u8 = 47;

// The longest input that is read, in bytes.
const LONGEST: usize = 8192;

// Writes the answer to an input from the start of the buffer: the key's frames and the loops' counts, or the line of a
// refusal; gives its length. A buffer that is longer than it need be will do, so that its length is a clause here and
// below.
pub fn answer(input: &[u8], out: &mut [u8]) -> usize
    requires { ROOM ≤ length out.old }
    ensures { Answered input.now out.old out.new result }
{
    if LONGEST < input.len() {
        return write_refusal(Fault::from(Refusal::TooMany), out);
    }
    let nest = match read_nest(input) {
        Err(fault) => return write_refusal(fault, out),
        Ok(nest) => nest,
    };
    match plan_paper(nest) {
        None => write_refusal(Fault::from(Refusal::Blocked), out),
        Some(key) => write_both(nest, key, out),
    }
}

// Writes a key's frames, then the counts; gives the length.
fn write_both(nest: Nest, key: Placement, out: &mut [u8]) -> usize
    requires counted { IsCounted nest }
    requires nest_value { is_valid (nest_in nest) ≡ true }
    requires words_value { are_gaps (nest_in nest) (gaps_in key.words) ≡ true }
    requires in_bounds { ROOM ≤ length out.old }
    ensures value { result ≡ length (key_and_counts (nest_in nest) (gaps_in key.words)) }
    ensures out_after { out.new ≡ over (key_and_counts (nest_in nest) (gaps_in key.words)) out.old }
{
    let at = write_text(key, out);
    at + write_counts(nest.points(), key, &mut out[at..])
}

// Writes a refusal: number, and line in two bytes, high first; gives the length.
fn write_refusal(fault: Fault, out: &mut [u8]) -> usize
    requires line_bound { fault.line < LINES }
    requires in_bounds { ROOM ≤ length out.old }
    ensures value { result ≡ length (refusal_text (number_of fault.refusal) fault.line) }
    ensures out_after { out.new ≡ over (refusal_text (number_of fault.refusal) fault.line) out.old }
{
    let line = fault.line;
    let frame = [
        REFUSAL,
        u8::from(fault.refusal),
        (line / 256 % 256) as u8,
        (line % 256) as u8,
    ];
    put_frame(out, &frame)
}
