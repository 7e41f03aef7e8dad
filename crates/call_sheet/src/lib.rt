// Timing sheets: when a run ends, with the waits of a sheet and with all barriers kept.
#![tactic(auto)]

ghost use Rattle.std.specs.Prelude.{◌≡◌, true, ◌<◌, ◌≤◌, length};
ghost use Rattle.laws.specs.Bits.{bit};
ghost use Rattle.paper_refusals.specs.Numbers.{number_of};
ghost use Rattle.call_sheet.specs.Sheets.{PROCESSORS, PHASES, sheet, anyone, latest, end_waiting};
ghost use Rattle.call_sheet.specs.Sheets.{is_sized, is_set, next_of, are_sets};
ghost use Rattle.call_sheet.specs.Says.{sheet_in, ends_of, LONGEST, IsShort, time_at, barriers_to};
ghost use Rattle.call_sheet.specs.Says.{Timed, pass_time, PassRoom};

use paper_refusals::Refusal;

// The most processors and the most phases of a sheet.
pub const PROCESSORS: usize = 16;

pub const PHASES: usize = 64;

// The set of all processors that a sheet can have.
const ALL: u16 = 65535;

// The number and the line of a refusal, 0 and 0 for none, and when the run ends: with the sheet's waits, and with all
// barriers kept. The C interface: desk.h lays it out.
#[repr(C)]
#[derive(Clone, Copy)]
pub struct RunEnds {
    pub number: u8,
    pub line: usize,
    pub waiting: u32,
    pub barriers: u32,
}

// A sheet as it is handed in. Both slices run phase by phase, processors rising in each; the waits begin with the
// second phase.
#[derive(Clone, Copy)]
struct Sheet<'a> {
    processors: usize,
    phases: usize,
    durations: &'a [u16],
    waits: &'a [u16],
}

// When the run of a sheet ends. Both slices run phase by phase, processors rising in each; the waits begin with the
// second phase.
pub fn ends(processors: usize, phases: usize, durations: &[u16], waits: &[u16]) -> RunEnds
    ensures { result ≡ ends_of (sheet processors phases durations.now waits.now) }
{
    let sheet = Sheet {
        processors,
        phases,
        durations,
        waits,
    };
    if !is_sized(&sheet) {
        return refused(Refusal::WrongSize);
    }
    if !are_sets(processors, waits) {
        return refused(Refusal::WrongSet);
    }
    RunEnds {
        number: 0,
        line: 0,
        waiting: end_waiting(&sheet),
        barriers: end_barriers(&sheet),
    }
}

// The reply that refuses.
fn refused(refusal: Refusal) -> RunEnds
    ensures { result ≡ record { number = number_of refusal; line = 0; waiting = 0; barriers = 0 } }
{
    RunEnds {
        number: u8::from(refusal),
        line: 0,
        waiting: 0,
        barriers: 0,
    }
}

// The counts are in their ranges and the slices as long as they say.
fn is_sized(sheet: &Sheet) -> bool
    ensures { result ≡ is_sized (sheet_in sheet.now) }
{
    (1..=PROCESSORS).contains(&sheet.processors)
        && (1..=PHASES).contains(&sheet.phases)
        && sheet.durations.len() == sheet.phases * sheet.processors
        && sheet.waits.len() == (sheet.phases - 1) * sheet.processors
}

// Every set has its own processor and none that does not exist. From set to set, as the definition goes.
fn are_sets(processors: usize, waits: &[u16]) -> bool
    requires le_processors { 1 ≤ processors }
    requires processors_bound { processors ≤ PROCESSORS }
    ensures { result ≡ are_sets processors 0 waits.now }
{
    let mut p = 0;
    for &set in waits {
        if !is_set(processors, p, set) {
            return false;
        }
        p = next(processors, p);
    }
    true
}

// Processor p is in the set, and none that does not exist.
fn is_set(processors: usize, p: usize, set: u16) -> bool
    requires p_lt_processors { p < processors }
    requires processors_bound { processors ≤ PROCESSORS }
    ensures { result ≡ is_set processors p set }
{
    has(set, p) && (set as u32) >> processors == 0
}

// The processor after p; after the last the first.
fn next(processors: usize, p: usize) -> usize
    requires { p < processors }
    ensures { result ≡ next_of processors p }
{
    if p + 1 < processors { p + 1 } else { 0 }
}

// Processor q is in the set.
fn has(set: u16, q: usize) -> bool
    requires { q < PROCESSORS }
    ensures { result ≡ bit set q }
{
    (set >> q) & 1 == 1
}

// When the run ends with the waits of the sheet. By row, as the times of one phase are those of the phase before and
// this phase's sets and durations.
fn end_waiting(sheet: &Sheet) -> u32
    requires { is_sized (sheet_in sheet.now) ≡ true }
    ensures { result ≡ end_waiting (sheet_in sheet.now) }
{
    let m = sheet.processors;
    let mut earlier = [0; PROCESSORS];
    let mut times = [0; PROCESSORS];
    start(&sheet.durations[..m], &mut earlier);
    for k in 0..sheet.phases - 1 {
        let sets = &sheet.waits[k * m..][..m];
        let row = &sheet.durations[(k + 1) * m..][..m];
        pass(row, sets, &earlier[..m], &mut times);
        earlier = times;
    }
    latest_of(&earlier[..m], ALL)
}

// The times after the first phase: its durations themselves.
fn start(row: &[u16], times: &mut [u32])
    requires { length row.now ≤ length times.old }
    ensures times { Timed (time_at row.now) times.old times.new (length row.now) }
    ensures short { IsShort row.now }
{
    for (p, &duration) in row.iter().enumerate() {
        times[p] = duration as u32;
    }
}

// The times after one phase more, with its durations and its sets.
fn pass(row: &[u16], sets: &[u16], earlier: &[u32], times: &mut [u32])
    requires { PassRoom row.now sets.now earlier.now times.old }
    ensures times { Timed (pass_time row.now sets.now earlier.now) times.old times.new (length row.now) }
    ensures short { IsShort row.now }
{
    for (p, &duration) in row.iter().enumerate() {
        times[p] = latest_of(earlier, sets[p]) + duration as u32;
    }
}

// The latest of the times of the processors in the set.
fn latest_of(times: &[u32], set: u16) -> u32
    requires { length times.now ≤ PROCESSORS }
    ensures { result ≡ latest (bit set) (time_at times.now) (length times.now) }
{
    let mut best = 0;
    for (q, &time) in times.iter().enumerate() {
        if has(set, q) {
            best = best.max(time);
        }
    }
    best
}

// When the run ends with all barriers kept: the longest durations of the phases one after the other.
fn end_barriers(sheet: &Sheet) -> u32
    requires { is_sized (sheet_in sheet.now) ≡ true }
    ensures { result ≡ barriers_to sheet.now.processors sheet.now.durations.now sheet.now.phases }
{
    let mut end = 0;
    for row in sheet.durations.chunks_exact(sheet.processors) {
        end += longest(row);
    }
    end
}

// The longest of the durations of a phase.
fn longest(row: &[u16]) -> u32
    ensures value { result ≡ latest anyone (time_at row.now) (length row.now) }
    ensures upper_bound { result ≤ LONGEST }
{
    let mut best = 0;
    for &duration in row {
        best = best.max(duration as u32);
    }
    best
}
