// The calls, each held to a reply: the desk after a call, whether a call replies this, texts of many lines, and the line
// of a case. The programs of cases are made of them.
// The functions take the numbers that replies must have, as desk.h lays replies out with numbers.
#![tactic(auto)]

ghost use Rattle.std.specs.Prelude.{◌≤◌, length, ◌≡◌, take};
ghost use Rattle.desk.specs.Desks.{IsMade};

use desk::{Answer, Chosen, Desk, PlainDesk, Verdict};
use paper_placements::Placement;
use std::io;

// A desk that has read a text and worked out its key.
pub fn planned(text: &[u8]) -> Desk
    ensures { IsMade result }
{
    let loaded = desk::load_nest(Desk::empty(), text);
    desk::plan_key(loaded.desk).desk
}

// Papers P and R of document 01, with their keys.
pub fn paper_p() -> Desk
    ensures { IsMade result }
{
    planned(
        b"01\n01\n03\n03\n03\n03\n02\n01\n03\n03\n03\n03\n02\n02\n\
        110205\n12010403\n11080b\n12070a09\n12000a02\n110409\n",
    )
}

pub fn paper_r() -> Desk
    ensures { IsMade result }
{
    planned(b"01\n03\n03\n03\n03\n03\n03\n02\n110104\n110306\n12000502\n")
}

// A new desk.
pub fn empty_desk() -> Desk
    ensures { IsMade result }
{
    Desk::empty()
}

// The desk after a Load, a Plan, a Reset, a Put, a Lift, a Take back.
pub fn after_load(desk: Desk, text: &[u8]) -> Desk
    requires { IsMade desk }
    ensures { IsMade result }
{
    desk::load_nest(desk, text).desk
}

pub fn after_plan(desk: Desk) -> Desk
    requires { IsMade desk }
    ensures { IsMade result }
{
    desk::plan_key(desk).desk
}

pub fn after_reset(desk: Desk) -> Desk
    ensures { IsMade result }
{
    desk::reset(desk)
}

pub fn after_put(desk: Desk, gap: usize) -> Desk
    requires { IsMade desk }
    ensures { IsMade result }
{
    call_moves::put_gap(desk, gap).desk
}

pub fn after_lift(desk: Desk, gap: usize) -> Desk
    requires { IsMade desk }
    ensures { IsMade result }
{
    call_moves::lift_gap(desk, gap).desk
}

pub fn after_back(desk: Desk) -> Desk
    requires { IsMade desk }
    ensures { IsMade result }
{
    call_moves::take_back(desk).desk
}

// The desk's nest and key as a desk of the kind before sittings, gone over.
pub fn gone_over(desk: Desk) -> Desk
    requires { IsMade desk }
    ensures { IsMade result }
{
    desk::go_over(PlainDesk {
        loaded: desk.loaded,
        nest: desk.nest,
        planned: desk.planned,
        key: desk.key,
    })
}

// The same with the key of a text in place of the desk's.
pub fn gone_over_with(desk: Desk, text: &[u8]) -> Desk
    requires { IsMade desk }
    ensures { IsMade result }
{
    let nest = desk.nest;
    let key = paper_texts::read_placement(
        nest.count,
        paper_barred::barred_of(nest),
        text,
    ).unwrap_or(Placement::empty());
    desk::go_over(PlainDesk {
        loaded: desk.loaded,
        nest,
        planned: desk.planned,
        key,
    })
}

// Load accepts the text (number 0, line 0), or refuses it with this number and line.
pub fn is_refused(text: &[u8], number: u8, line: usize) -> bool {
    let reply = desk::load_nest(Desk::empty(), text);
    reply.number == number && reply.line == line
}

// Plan replies this number.
pub fn plans(desk: Desk, number: u8) -> bool
    requires { IsMade desk }
{
    let reply = desk::plan_key(desk);
    reply.number == number && reply.line == 0
}

// The key's text is this.
pub fn has_key(desk: Desk, text: &[u8]) -> bool {
    let mut out = [0u8; 4096];
    let written = desk::write_key(desk, &mut out);
    is_written(&out, written, 0, text)
}

// The count of the loop of DO `point` is this.
pub fn has_count(desk: Desk, point: usize, count: usize) -> bool
    requires { IsMade desk }
{
    let answer = desk::loop_count(desk, point);
    answer.number == 0 && answer.value == count
}

// Mark says Uncut with this dependence.
pub fn is_uncut(desk: Desk, text: &[u8], first: usize) -> bool
    requires { IsMade desk }
{
    let Ok(Verdict::Uncut(i)) = desk::mark_placement(desk, text) else {
        return false;
    };
    i == first
}

// Mark says Dearer with this loop and these counts.
pub fn is_dearer(desk: Desk, text: &[u8], d: usize, theirs: usize, ours: usize) -> bool
    requires { IsMade desk }
{
    let Ok(Verdict::Dearer(counts)) = desk::mark_placement(desk, text) else {
        return false;
    };
    counts.d == d && counts.theirs == theirs && counts.ours == ours
}

// Mark says Best.
pub fn is_best(desk: Desk, text: &[u8]) -> bool
    requires { IsMade desk }
{
    matches!(desk::mark_placement(desk, text), Ok(Verdict::Best))
}

// Mark refuses the text with this number and line.
pub fn is_unread(desk: Desk, text: &[u8], number: u8, line: usize) -> bool
    requires { IsMade desk }
{
    let Err(fault) = desk::mark_placement(desk, text) else {
        return false;
    };
    u8::from(fault.refusal) == number && fault.line == line
}

// Put replies this.
pub fn puts(desk: Desk, gap: usize, number: u8, uncut: usize) -> bool
    requires { IsMade desk }
{
    let moved = call_moves::put_gap(desk, gap);
    moved.number == number && moved.line == 0 && moved.uncut == uncut
}

// Lift replies this.
pub fn lifts(desk: Desk, gap: usize, number: u8, uncut: usize) -> bool
    requires { IsMade desk }
{
    let moved = call_moves::lift_gap(desk, gap);
    moved.number == number && moved.line == 0 && moved.uncut == uncut
}

// Take back replies this.
pub fn takes_back(desk: Desk, number: u8, uncut: usize) -> bool
    requires { IsMade desk }
{
    let moved = call_moves::take_back(desk);
    moved.number == number && moved.line == 0 && moved.uncut == uncut
}

// The sitting is written with this number and this text.
pub fn has_sitting(desk: Desk, number: u8, text: &[u8]) -> bool {
    let mut out = [0u8; 4096];
    let written = call_moves::write_sitting(desk, &mut out);
    is_written(&out, written, number, text)
}

// The reply has this number, and the set of this word.
pub fn is_chosen(reply: Chosen, number: u8, set: u64) -> bool {
    let words = reply.set.words;
    reply.number == number
        && reply.line == 0
        && words[0] == set
        && words[1] == 0
        && words[2] == 0
        && words[3] == 0
}

// Puts a line so many times into the text from a place on, as far as there is room; gives the place behind them.
pub fn repeat(text: &mut [u8], at: usize, line: &[u8], times: usize) -> usize
    requires { at ≤ length text.old }
    ensures in_bounds { result ≤ length text.new }
    ensures whole { result ≡ length (take result text.new) }
{
    let mut n = at;
    for _ in 0..times {
        n = put(text, n, line);
    }
    n
}

// Puts a line into the text from a place on, as far as there is room; gives the place behind it.
fn put(text: &mut [u8], at: usize, line: &[u8]) -> usize
    requires { at ≤ length text.old }
    ensures { result ≤ length text.new }
{
    let mut n = at;
    for &byte in line {
        if text.len() <= n {
            return n;
        }
        text[n] = byte;
        n += 1;
    }
    n
}

// The answer has this number, and what it wrote is this text.
fn is_written(out: &[u8], answer: Answer, number: u8, text: &[u8]) -> bool {
    answer.value <= out.len()
        && answer.number == number
        && answer.line == 0
        && check::same(&out[..answer.value], text)
}

// Writes a case's line.
pub fn report(rt: &HostRuntime, number: u64, ok: bool) -> io::Result<()> {
    let word = if ok { "ok" } else { "FAILED" };
    println!(rt; "case {number}: {word}")
}
