// The desk for programs in other languages: each call under its C name, over structs laid out as C lays them out. Most
// only forward. desk.h beside this folder declares them all.
#![tactic(auto)]

ghost use Rattle.call_argue.specs.Says.{ArgueSays};
ghost use Rattle.call_argument.specs.Says.{WeighSays, WeighPlacementSays};
ghost use Rattle.call_compare.specs.Says.{CompareSays};
ghost use Rattle.call_runs.specs.Says.{CallsSays, PlacementSays};
ghost use Rattle.desk.specs.Desks.{IsMade, IsMadePlain};
ghost use Rattle.desk.specs.Says.{EmptySays, LoadSays, PlanSays, CountSays, WriteSays, ListSays, OverSays};
ghost use Rattle.desk.specs.Says.{mark_in, verdict_in};
ghost use Rattle.call_improve.specs.Says.{ImproveSays};
ghost use Rattle.call_join.specs.Says.{JoinSays};
ghost use Rattle.call_moves.specs.Says.{PutSays, LiftSays, BackSays, SittingSays};
ghost use Rattle.call_sheet.specs.Says.{ends_of};
ghost use Rattle.call_sheet.specs.Sheets.{sheet};
ghost use Rattle.call_missing.specs.Says.{MissingSays};
ghost use Rattle.call_skipped.specs.Says.{ReliedSays, OneEndSays};
ghost use Rattle.call_shape.specs.Says.{ShapeSays};
ghost use Rattle.call_gaps.specs.Says.{GapsSays};
ghost use Rattle.call_standing.specs.Says.{StandingSays};
ghost use Rattle.call_slips.specs.Says.{CandidateSays, ExaminerSays};
ghost use Rattle.call_textbook.specs.Says.{TextbookSays};
ghost use Rattle.host.specs.Says.{MarkSays, VersionSays};
ghost use Rattle.host.specs.Marks.{coded, mark_out, verdict_out};
ghost use Rattle.host.specs.Records.{records_of};
ghost use Rattle.std.specs.Prelude.{◌≡◌};

use call_argument::Weighed;
use call_compare::Compared;
use call_improve::Improved;
use call_join::Joined;
use call_moves::Moved;
use call_runs::Calls;
use call_shape::Shape;
use call_sheet::RunEnds;
use call_standing::Standing;
use desk::{Answer, Chosen, Desk, PlainDesk, Reply, Verdict};
use paper_nests::Dependence;
use paper_refusals::Fault;

// Mark's answer in numbers alone: the number and the line of a refusal, or 0 and 0 with the verdict's code. Uncut (0)
// has a dependence in a; Dearer (1) has a loop in a, their count in b and our count in c; Best is 2. All else is 0. The
// C interface: desk.h lays it out, and has the verdict's codes.
#[repr(C)]
#[derive(Clone, Copy)]
pub struct Mark {
    pub number: u8,
    pub line: usize,
    pub verdict: u8,
    pub a: usize,
    pub b: usize,
    pub c: usize,
}

// The version of the library, as the file VERSION has it.
#[repr(C)]
#[derive(Clone, Copy)]
pub struct Version {
    pub major: usize,
    pub minor: usize,
    pub patch: usize,
}

// The bytes of a record in a lent list: kind, d, s, t.
const RECORD: usize = 4;

const MAJOR: usize = 1;

const MINOR: usize = 0;

const PATCH: usize = 0;

// The codes of desk.h; those of a slip's text are bytes of that text, and stand with them.
const UNCUT: u8 = 0;

const DEARER: u8 = 1;

const BEST: u8 = 2;

#[unsafe(no_mangle)]
pub extern "C" fn desk_new() -> Desk
    ensures { EmptySays result }
{
    Desk::empty()
}

#[unsafe(no_mangle)]
pub extern "C" fn desk_reset(desk: Desk) -> Desk
    ensures { EmptySays result }
{
    desk::reset(desk)
}

#[unsafe(no_mangle)]
pub extern "C" fn desk_load(desk: Desk, text: &[u8]) -> Reply
    ensures { LoadSays desk text.now result }
{
    desk::load_nest(desk, text)
}

#[unsafe(no_mangle)]
pub extern "C" fn desk_plan(desk: Desk) -> Reply
    requires { IsMade desk }
    ensures { PlanSays desk result }
{
    desk::plan_key(desk)
}

#[unsafe(no_mangle)]
pub extern "C" fn desk_count(desk: Desk, point: usize) -> Answer
    requires { IsMade desk }
    ensures { CountSays desk point result }
{
    desk::loop_count(desk, point)
}

#[unsafe(no_mangle)]
pub extern "C" fn desk_mark(desk: Desk, text: &[u8]) -> Mark
    requires { IsMade desk }
    ensures { MarkSays desk text.now result }
{
    Mark::from(desk::mark_placement(desk, text))
}

#[unsafe(no_mangle)]
pub extern "C" fn desk_write(desk: Desk, out: &mut [u8]) -> Answer
    ensures { WriteSays desk out.old out.new result }
{
    desk::write_key(desk, out)
}

// The list over bytes, four a record; what is left over at the end is a record of no kind.
#[unsafe(no_mangle)]
pub extern "C" fn desk_list(desk: Desk, list: &[u8]) -> Answer
    requires { IsMade desk }
    ensures { ListSays desk (records_of list.now) result }
{
    let ends = call_list::ends_on(desk);
    let mut found = call_list::begin(desk);
    let records = list.len() / RECORD;
    for i in 0..records {
        let at = i * RECORD;
        let e = Dependence {
            kind: list[at],
            d: list[at + 1],
            s: list[at + 2],
            t: list[at + 3],
        };
        found = call_list::step(desk, ends, found, e, i);
    }
    let end = records * RECORD;
    if end < list.len() {
        let none = Dependence {
            kind: 0,
            d: 0,
            s: 0,
            t: 0,
        };
        return call_list::step(desk, ends, found, none, records);
    }
    found
}

#[unsafe(no_mangle)]
pub extern "C" fn desk_put(desk: Desk, gap: usize) -> Moved
    requires { IsMade desk }
    ensures { PutSays desk gap result }
{
    call_moves::put_gap(desk, gap)
}

#[unsafe(no_mangle)]
pub extern "C" fn desk_lift(desk: Desk, gap: usize) -> Moved
    requires { IsMade desk }
    ensures { LiftSays desk gap result }
{
    call_moves::lift_gap(desk, gap)
}

#[unsafe(no_mangle)]
pub extern "C" fn desk_take_back(desk: Desk) -> Moved
    requires { IsMade desk }
    ensures { BackSays desk result }
{
    call_moves::take_back(desk)
}

#[unsafe(no_mangle)]
pub extern "C" fn desk_sitting(desk: Desk, out: &mut [u8]) -> Answer
    ensures { SittingSays desk out.old out.new result }
{
    call_moves::write_sitting(desk, out)
}

#[unsafe(no_mangle)]
pub extern "C" fn desk_standing(desk: Desk) -> Standing
    requires { IsMade desk }
    ensures { StandingSays desk result }
{
    call_standing::sitting_stands(desk)
}

#[unsafe(no_mangle)]
pub extern "C" fn desk_shape(desk: Desk) -> Shape
    requires { IsMade desk }
    ensures { ShapeSays desk result }
{
    call_shape::nest_shape(desk)
}

#[unsafe(no_mangle)]
pub extern "C" fn desk_gaps(desk: Desk, dependence: usize) -> Chosen
    requires { IsMade desk }
    ensures { GapsSays desk dependence result }
{
    call_gaps::dependence_gaps(desk, dependence)
}

#[unsafe(no_mangle)]
pub extern "C" fn desk_textbook(desk: Desk) -> Chosen
    requires { IsMade desk }
    ensures { TextbookSays desk result }
{
    call_textbook::textbook(desk)
}

#[unsafe(no_mangle)]
pub extern "C" fn desk_candidate_slip(desk: Desk, text: &[u8], out: &mut [u8]) -> Answer
    requires { IsMade desk }
    ensures { CandidateSays desk text.now out.old out.new result }
{
    call_slips::candidate_slip(desk, text, out)
}

#[unsafe(no_mangle)]
pub extern "C" fn desk_examiner_slip(desk: Desk, text: &[u8], out: &mut [u8]) -> Answer
    requires { IsMade desk }
    ensures { ExaminerSays desk text.now out.old out.new result }
{
    call_slips::examiner_slip(desk, text, out)
}

#[unsafe(no_mangle)]
pub extern "C" fn desk_compare(desk: Desk, a: &[u8], b: &[u8]) -> Compared
    requires { IsMade desk }
    ensures { CompareSays desk a.now b.now result }
{
    call_compare::compare(desk, a, b)
}

#[unsafe(no_mangle)]
pub extern "C" fn desk_weigh(desk: Desk, text: &[u8]) -> Weighed
    requires { IsMade desk }
    ensures { WeighSays desk text.now result }
{
    call_argument::weigh(desk, text)
}

#[unsafe(no_mangle)]
pub extern "C" fn desk_weigh_placement(desk: Desk, placement: &[u8], text: &[u8]) -> Weighed
    requires { IsMade desk }
    ensures { WeighPlacementSays desk placement.now text.now result }
{
    call_argument::weigh_placement(desk, placement, text)
}

#[unsafe(no_mangle)]
pub extern "C" fn desk_argue(desk: Desk, out: &mut [u8]) -> Answer
    requires { IsMade desk }
    ensures { ArgueSays desk out.old out.new result }
{
    call_argue::argue(desk, out)
}

#[unsafe(no_mangle)]
pub extern "C" fn desk_missing_runs(desk: Desk) -> Chosen
    requires { IsMade desk }
    ensures { MissingSays desk result }
{
    call_missing::missing_runs(desk)
}

#[unsafe(no_mangle)]
pub extern "C" fn desk_relied_on(desk: Desk, text: &[u8], dependence: usize) -> Chosen
    requires { IsMade desk }
    ensures { ReliedSays desk text.now dependence result }
{
    call_skipped::relied_on(desk, text, dependence)
}

#[unsafe(no_mangle)]
pub extern "C" fn desk_one_end(desk: Desk, dependence: usize) -> Chosen
    requires { IsMade desk }
    ensures { OneEndSays desk dependence result }
{
    call_skipped::one_end(desk, dependence)
}

#[unsafe(no_mangle)]
pub extern "C" fn desk_count_calls(desk: Desk, turns: &[u8]) -> Calls
    requires { IsMade desk }
    ensures { CallsSays desk turns.now result }
{
    call_runs::count_calls(desk, turns)
}

#[unsafe(no_mangle)]
pub extern "C" fn desk_placement_calls(desk: Desk, text: &[u8], turns: &[u8]) -> Calls
    requires { IsMade desk }
    ensures { PlacementSays desk text.now turns.now result }
{
    call_runs::placement_calls(desk, text, turns)
}

#[unsafe(no_mangle)]
pub extern "C" fn desk_improve(desk: Desk, turns: &[u8], budget: usize) -> Improved
    requires { IsMade desk }
    ensures { ImproveSays desk turns.now budget result }
{
    call_improve::improve(desk, turns, budget)
}

#[unsafe(no_mangle)]
pub extern "C" fn desk_join(a: &[u8], b: &[u8], out: &mut [u8]) -> Joined
    ensures { JoinSays a.now b.now out.old out.new result }
{
    call_join::join(a, b, out)
}

#[unsafe(no_mangle)]
pub extern "C" fn desk_sheet(
    processors: usize,
    phases: usize,
    durations: &[u16],
    waits: &[u16],
) -> RunEnds
    ensures { result ≡ ends_of (sheet processors phases durations.now waits.now) }
{
    call_sheet::ends(processors, phases, durations, waits)
}

#[unsafe(no_mangle)]
pub extern "C" fn desk_go_over(old: PlainDesk) -> Desk
    requires { IsMadePlain old }
    ensures { OverSays old result }
{
    desk::go_over(old)
}

#[unsafe(no_mangle)]
pub extern "C" fn desk_version() -> Version
    ensures { VersionSays result }
{
    Version {
        major: MAJOR,
        minor: MINOR,
        patch: PATCH,
    }
}

// Mark's answer in numbers.
impl From<Result<Verdict, Fault>> for Mark {
    ghost from_gives = { λ x m. m ≡ mark_out (mark_in x) };

    fn from(marked: Result<Verdict, Fault>) -> Mark {
        match marked {
            Err(fault) => Mark {
                number: u8::from(fault.refusal),
                line: fault.line,
                verdict: 0,
                a: 0,
                b: 0,
                c: 0,
            },
            Ok(verdict) => Mark::from(verdict),
        }
    }
}

// A verdict in numbers.
impl From<Verdict> for Mark {
    ghost from_gives = { λ v m. m ≡ verdict_out (verdict_in v) };

    fn from(verdict: Verdict) -> Mark {
        match verdict {
            Verdict::Uncut(first) => coded(UNCUT, first, 0, 0),
            Verdict::Dearer(counts) => coded(DEARER, counts.d, counts.theirs, counts.ours),
            Verdict::Best => coded(BEST, 0, 0, 0),
        }
    }
}

fn coded(verdict: u8, a: usize, b: usize, c: usize) -> Mark
    ensures { result ≡ coded verdict a b c }
{
    Mark {
        number: 0,
        line: 0,
        verdict,
        a,
        b,
        c,
    }
}
