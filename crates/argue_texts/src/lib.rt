// Arguments as texts: what a line tells, and the first faulty one.
#![tactic(auto)]

ghost use Rattle.std.specs.Prelude.{◌≡◌};
ghost use Rattle.paper_refusals.specs.Numbers.{number_in};
ghost use Rattle.argue_texts.specs.ArgumentTexts.{part_fault, after};
ghost use Rattle.argue_texts.specs.Parts.{part_in, progress_in, IsPart, IsFaulted, EndedAs};

use paper_lines::{Frame, digit_values, read_line};
use paper_refusals::{Fault, Refusal};

// A claim of loop d, as its line has it: low where a and b are 0.
#[derive(Clone, Copy)]
pub struct Claimed {
    pub d: u8,
    pub a: u8,
    pub b: u8,
}

// The set of a step.
#[derive(Clone, Copy)]
pub enum Set {
    // the supposed gap from a on
    From,
    // the supposed gap up to b
    Upto,
    // the gaps of the dependence with this number
    Dependence(usize),
}

// What a frame of an argument text tells: a claim, that a claim leads the next step, a step with a set, or nothing that
// is known.
#[derive(Clone, Copy)]
pub enum Part {
    Claims(Claimed),
    By(u16),
    Names(Set),
    Unknown,
}

// What was read so far: how many claims, how many steps of the last, and the claim that leads the next step, if one
// does.
#[derive(Clone, Copy)]
pub struct Progress {
    pub claims: usize,
    pub steps: usize,
    pub by: Option<usize>,
}

// The kinds of claims, of the claim that leads a step, and of steps.
// Bytes of the texts: an enum would only be turned into them to be written.
pub const CLAIM: u8 = 49;

pub const BY: u8 = 50;

pub const DEPENDENCE: u8 = 51;

pub const FROM: u8 = 52;

pub const UPTO: u8 = 53;

// How many claims an argument has at most, and how many steps a claim.
pub const CLAIMS: usize = 4096;

pub const STEPS: usize = 1024;

// The refusal of an argument text, at its first faulty line.
// Each reader of lines keeps place and line itself: an iterator over lines would hold text, table and place, and every
// item would be tested as here.
pub fn argument_fault(text: &[u8]) -> Result<(), Fault>
    ensures { IsFaulted text.now result }
{
    let values = digit_values();
    let mut sofar = Progress {
        claims: 0,
        steps: 0,
        by: None,
    };
    let mut at: usize = 0;
    let mut line: usize = 1;
    loop {
        match read_line(text, at, &values) {
            Ok(None) => return ended(sofar, line),
            Err(refusal) => return Err(Fault { refusal, line }),
            Ok(Some(f)) => {
                let part = part_of(f);
                if let Err(refusal) = part_fault(sofar, part) {
                    return Err(Fault { refusal, line });
                }
                sofar = after(sofar, part);
                at = f.next;
                line += 1;
            }
        }
    }
}

// What a frame tells, by its kind and its length.
pub fn part_of(f: Frame) -> Part
    ensures { IsPart f result }
{
    match (f.kind, f.len) {
        (CLAIM, 4) => Part::Claims(Claimed {
            d: f.a,
            a: f.b,
            b: f.c,
        }),
        (BY, 3) => Part::By(256 * f.a as u16 + f.b as u16),
        (DEPENDENCE, 3) => Part::Names(Set::Dependence(256 * f.a as usize + f.b as usize)),
        (FROM, 1) => Part::Names(Set::From),
        (UPTO, 1) => Part::Names(Set::Upto),
        _ => Part::Unknown,
    }
}

// Whether a part may come after what was read so far, else its refusal, 2, 4 or 5.
pub fn part_fault(x: Progress, p: Part) -> Result<(), Refusal>
    ensures { number_in result ≡ part_fault (progress_in x) (part_in p) }
{
    match p {
        Part::Claims(_) if x.by.is_some() => Err(Refusal::Misplaced),
        Part::Claims(_) if CLAIMS <= x.claims => Err(Refusal::TooMany),
        Part::By(_) if x.claims == 0 || x.by.is_some() => Err(Refusal::Misplaced),
        Part::Names(_) if x.claims == 0 => Err(Refusal::Misplaced),
        Part::Names(_) if STEPS <= x.steps => Err(Refusal::TooMany),
        Part::Unknown => Err(Refusal::WrongKind),
        _ => Ok(()),
    }
}

// What was read with a part more, which has no fault.
pub fn after(x: Progress, p: Part) -> Progress
    requires { part_fault (progress_in x) (part_in p) ≡ 0 }
    ensures { progress_in result ≡ after (progress_in x) (part_in p) }
{
    match p {
        Part::Claims(_) => Progress {
            claims: x.claims + 1,
            steps: 0,
            by: None,
        },
        Part::By(m) => Progress {
            by: Some(m as usize),
            ..x
        },
        Part::Names(_) => Progress {
            steps: x.steps + 1,
            by: None,
            ..x
        },
        Part::Unknown => x,
    }
}

// The refusal at the end of a text: a claim may not wait for its step.
fn ended(x: Progress, line: usize) -> Result<(), Fault>
    ensures { EndedAs (progress_in x) line result }
{
    if x.by.is_some() {
        return Err(Fault {
            refusal: Refusal::Misplaced,
            line,
        });
    }
    Ok(())
}
