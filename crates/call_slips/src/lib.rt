// Slips for two readers: what the candidate may read of a placement, and what the examiner reads of it beside the key.
#![tactic(auto)]

ghost use Rattle.std.specs.Prelude.{◌≡◌, true, ◌<◌, ◌≤◌, length};
ghost use Rattle.paper_refusals.specs.Numbers.{number_of};
ghost use Rattle.paper_nests.specs.Kinds.{DEPENDENCES};
ghost use Rattle.paper_nests.specs.Valid.{is_valid};
ghost use Rattle.paper_nests.specs.Stored.{nest_in, IsCounted};
ghost use Rattle.paper_placements.specs.Answers.{place_of};
ghost use Rattle.paper_placements.specs.Placements.{are_gaps};
ghost use Rattle.paper_placements.specs.Words.{gaps_in};
ghost use Rattle.desk.specs.Desks.{IsMade};
ghost use Rattle.desk.specs.Says.{verdict_in};
ghost use Rattle.call_slips.specs.Texts.{shown, first_text, slip_text, verdict_line, verdict_text, cuts_text, examiner_text};
ghost use Rattle.call_slips.specs.Says.{CandidateSays, ExaminerSays, ReadOn};
ghost use Rattle.call_slips.specs.Writers.{Wrote, Unread, SlipLength, ExaminerLength, InBytes};

use desk::{Answer, Desk, Verdict, judge, key_fault, refused};
use paper_lines::put_frame;
use paper_nests::Nest;
use paper_placements::{Placement, cut_in, uncut};
use paper_refusals::{Fault, Refusal};
use paper_texts::write_counts;

// The kinds of a slip's lines: the first uncut dependence, the verdict, the gap that cuts a dependence. Like the
// verdict's codes below they are bytes of the text, written as they are.
const FIRST_UNCUT: u8 = 35;

const VERDICT: u8 = 36;

const CUT_BY: u8 = 37;

// What a slip shows where no dependence is uncut.
const NONE: usize = 65535;

// The verdict's codes.
const UNCUT: u8 = 0;

const DEARER: u8 = 1;

const BEST: u8 = 2;

// The lengths of a slip's lines.
const FIRST_LINE: usize = 7;

const COUNT_LINE: usize = 7;

const VERDICT_LINE: usize = 11;

const CUT_LINE: usize = 5;

// Writes the candidate's slip of the placement that the text spells; gives its length. Numbers 10, then 1, 2, 8, 16 with
// their line, then 9.
pub fn candidate_slip(desk: Desk, text: &[u8], out: &mut [u8]) -> Answer
    requires { IsMade desk }
    ensures { CandidateSays desk text.now out.old out.new result }
{
    if let Err(refusal) = key_fault(desk.loaded, true) {
        return refused(refusal);
    }
    let nest = desk.nest;
    match read_on(desk, text) {
        Err(fault) => unread(fault),
        Ok(_) if out.len() < slip_length(nest) => refused(Refusal::ShortBuffer),
        Ok(placement) => Answer {
            number: 0,
            line: 0,
            value: write_slip(nest, placement, out),
        },
    }
}

// Writes the examiner's slip: the candidate's, the verdict beside the key, and the gap that cuts each dependence.
// Numbers 10, 11, then 1, 2, 8, 16 with their line, then 9.
pub fn examiner_slip(desk: Desk, text: &[u8], out: &mut [u8]) -> Answer
    requires { IsMade desk }
    ensures { ExaminerSays desk text.now out.old out.new result }
{
    if let Err(refusal) = key_fault(desk.loaded, desk.planned) {
        return refused(refusal);
    }
    let nest = desk.nest;
    match read_on(desk, text) {
        Err(fault) => unread(fault),
        Ok(_) if out.len() < examiner_length(nest) => refused(Refusal::ShortBuffer),
        Ok(placement) => Answer {
            number: 0,
            line: 0,
            value: write_examiner(nest, desk.key, placement, out),
        },
    }
}

// Reads a placement text for the desk's nest, as Mark does.
pub fn read_on(desk: Desk, text: &[u8]) -> Result<Placement, Fault>
    requires made { IsMade desk }
    requires loaded_value { desk.loaded ≡ true }
    ensures { ReadOn desk text.now result }
{
    let nest = desk.nest;
    paper_texts::read_placement(nest.count, paper_barred::barred_of(nest), text)
}

// The answer to a text that is refused. It fills a struct of its own, as desk.h lays out each reply by itself.
fn unread(fault: Fault) -> Answer
    ensures { Unread (number_of fault.refusal) fault.line result }
{
    Answer {
        number: u8::from(fault.refusal),
        line: fault.line,
        value: 0,
    }
}

// The length of the candidate's slip: a line, and one for each loop.
fn slip_length(nest: Nest) -> usize
    requires { IsCounted nest }
    ensures { SlipLength (nest_in nest) result }
{
    let mut length: usize = FIRST_LINE;
    for &point in nest.points() {
        if point == paper_nests::DO {
            length += COUNT_LINE;
        }
    }
    length
}

// The length of the examiner's slip: a line more, and one for each dependence.
fn examiner_length(nest: Nest) -> usize
    requires { IsCounted nest }
    ensures { ExaminerLength (nest_in nest) result }
{
    slip_length(nest) + VERDICT_LINE + CUT_LINE * nest.many
}

// Writes the candidate's slip.
fn write_slip(nest: Nest, placement: Placement, out: &mut [u8]) -> usize
    requires counted { IsCounted nest }
    requires nest_value { is_valid (nest_in nest) ≡ true }
    requires words_value { are_gaps (nest_in nest) (gaps_in placement.words) ≡ true }
    requires words_in_bounds { length (slip_text (nest_in nest) (gaps_in placement.words)) ≤ length out.old }
    ensures { Wrote (slip_text (nest_in nest) (gaps_in placement.words))
        out.old out.new result }
{
    let first = uncut(nest, placement);
    let at = write_first(first, out);
    at + write_counts(nest.points(), placement, &mut out[at..])
}

// Writes the examiner's slip.
fn write_examiner(nest: Nest, key: Placement, placement: Placement, out: &mut [u8]) -> usize
    requires counted { IsCounted nest }
    requires nest_value { is_valid (nest_in nest) ≡ true }
    requires words_value { are_gaps (nest_in nest) (gaps_in key.words) ≡ true }
    requires words_value_2 { are_gaps (nest_in nest) (gaps_in placement.words) ≡ true }
    requires words_in_bounds { length (examiner_text (nest_in nest) (gaps_in key.words) (gaps_in placement.words))
        ≤ length out.old }
    ensures { Wrote (examiner_text (nest_in nest) (gaps_in key.words) (gaps_in placement.words))
        out.old out.new result }
{
    let verdict = judge(nest, key, placement);
    let at = write_slip(nest, placement, out);
    let cuts = at + write_verdict(verdict, &mut out[at..]);
    cuts + write_cuts(nest, placement, &mut out[cuts..])
}

// Writes the line of the first uncut dependence, by its number.
fn write_first(first: Option<usize>, out: &mut [u8]) -> usize
    requires first_bound { place_of first ≤ DEPENDENCES }
    requires first_in_bounds { length (first_text (place_of first)) ≤ length out.old }
    ensures { Wrote (first_text (place_of first)) out.old out.new result }
{
    let number = shown(first);
    let frame = [
        FIRST_UNCUT,
        (number / 256 % 256) as u8,
        (number % 256) as u8,
    ];
    put_frame(out, &frame)
}

// The number that the line shows.
fn shown(first: Option<usize>) -> usize
    ensures { result ≡ shown (place_of first) }
{
    first.unwrap_or(NONE)
}

// Writes the line of the verdict.
fn write_verdict(verdict: Verdict, out: &mut [u8]) -> usize
    requires in_bytes { InBytes (verdict_in verdict) }
    requires verdict_in_bounds { length (verdict_text (verdict_in verdict)) ≤ length out.old }
    ensures { Wrote (verdict_text (verdict_in verdict)) out.old out.new result }
{
    match verdict {
        Verdict::Uncut(_) => put_verdict(UNCUT, 0, 0, 0, out),
        Verdict::Dearer(counts) => put_verdict(DEARER, counts.d, counts.theirs, counts.ours, out),
        Verdict::Best => put_verdict(BEST, 0, 0, 0, out),
    }
}

// A verdict's line, from its code and three numbers.
fn put_verdict(code: u8, d: usize, theirs: usize, ours: usize, out: &mut [u8]) -> usize
    requires d_bound { (d < 256) × ((theirs < 256) × (ours < 256)) }
    requires ours_in_bounds { length (verdict_line code d theirs ours) ≤ length out.old }
    ensures { Wrote (verdict_line code d theirs ours) out.old out.new result }
{
    let frame = [
        VERDICT,
        code,
        (d % 256) as u8,
        (theirs % 256) as u8,
        (ours % 256) as u8,
    ];
    put_frame(out, &frame)
}

// Writes for each dependence in order a line with the lowest gap that cuts it, 0 if none does.
fn write_cuts(nest: Nest, placement: Placement, out: &mut [u8]) -> usize
    requires counted { IsCounted nest }
    requires nest_value { is_valid (nest_in nest) ≡ true }
    requires words_value { are_gaps (nest_in nest) (gaps_in placement.words) ≡ true }
    requires words_in_bounds { length (cuts_text (nest_in nest).points (nest_in nest).deps (gaps_in placement.words))
        ≤ length out.old }
    ensures { Wrote (cuts_text (nest_in nest).points (nest_in nest).deps (gaps_in placement.words))
        out.old out.new result }
{
    let ends = paper_nests::ends_of(nest.points());
    let mut at: usize = 0;
    for &e in nest.dependences() {
        let gap = cut_in(ends[e.d as usize], placement, e).unwrap_or(0);
        let frame = [CUT_BY, (gap % 256) as u8];
        at += put_frame(&mut out[at..], &frame);
    }
    at
}
