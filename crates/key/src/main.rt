// The program: reads a nest text on standard input and writes its answer on standard output. A text that was not read
// whole has no answer: a line on standard error says so, and another one where the answer was not written.
#![tactic(auto)]

ghost use Rattle.std.specs.Prelude.{◌≡◌, ◌<◌, length};
ghost use Rattle.key.specs.Inputs.{StepSays, Adds, after_step, IsRead};

use std::io;
use std::io::{ErrorKind, Read, Stdin, Write};
use std::ops::ControlFlow;

// How often a read may be interrupted before that counts as a failure: more than signals that anybody sends, and it
// bounds the reading.
const INTERRUPTS: usize = 65536;

// What one read gave.
#[derive(Clone, Copy)]
enum Step {
    // so many bytes
    More(usize),
    // the input's end
    End,
    // nothing, since a signal came
    Interrupted,
    // a failure
    Failed,
}

// What the reads so far gave: so many bytes at the start of the buffer, and so many interrupts.
#[derive(Clone, Copy)]
struct Reads {
    bytes: usize,
    interrupts: usize,
}

// Hands to `answer` the bytes of standard input, all of them or, where there are more than an answer's input may have,
// the first 8,193; and what `answer` wrote to standard output.
fn main(rt: HostRuntime) -> io::Result<()> {
    // One byte more than the longest input that is read, so that longer input shows.
    let mut input = [0u8; 8193];
    let mut why = None;
    let Some(read) = read_input(&mut rt.stdin(), &mut why, &mut input) else {
        return report(&rt, "standard input was not read", why);
    };
    let mut out = [0u8; 4096];
    let length = key_answer::answer(&input[..read], &mut out);
    match rt.stdout().write_all(&out[..length]) {
        Ok(()) => Ok(()),
        Err(e) => report(&rt, "the answer was not written", Some(e)),
    }
}

// A line on standard error: what failed, and why.
fn report(rt: &HostRuntime, what: &str, why: Option<io::Error>) -> io::Result<()> {
    match why {
        Some(e) => eprintln!(rt; "key: {what}: {e}"),
        None => eprintln!(rt; "key: {what}"),
    }
}

// Reads standard input to its end, or until the buffer is full: gives how many bytes are at the buffer's start, or none
// where a read failed. `why` has what the last read without bytes met.
fn read_input(source: &mut Stdin, why: &mut Option<io::Error>, input: &mut [u8]) -> Option<usize>
    ensures { IsRead input.old result input.new }
{
    let mut reads = Reads {
        bytes: 0,
        interrupts: 0,
    };
    while reads.bytes < input.len() {
        let step = read_more(source, why, input, reads.bytes);
        match after(reads, step) {
            ControlFlow::Continue(more) => reads = more,
            ControlFlow::Break(told) => return told,
        }
    }
    Some(reads.bytes)
}

// What the reads gave, with one more: its bytes are added, and there is a further read; or where the input ends, all
// that they gave is told, and none where the read failed.
fn after(reads: Reads, step: Step) -> ControlFlow<Option<usize>, Reads>
    requires { Adds reads step }
    ensures { result ≡ after_step reads step }
{
    match step {
        Step::More(given) => ControlFlow::Continue(Reads {
            bytes: reads.bytes + given,
            ..reads
        }),
        Step::End => ControlFlow::Break(Some(reads.bytes)),
        Step::Interrupted if reads.interrupts != INTERRUPTS => ControlFlow::Continue(Reads {
            interrupts: reads.interrupts + 1,
            ..reads
        }),
        Step::Interrupted | Step::Failed => ControlFlow::Break(None),
    }
}

// One read, behind the bytes that were read before: these stay. What it met instead of bytes or the end goes to `why`.
fn read_more(source: &mut Stdin, why: &mut Option<io::Error>, input: &mut [u8], at: usize) -> Step
    requires { at < length input.old }
    ensures { StepSays at result input.old input.new }
{
    match source.read(&mut input[at..]) {
        Ok(0) => Step::End,
        Ok(got) => Step::More(got),
        Err(e) => {
            let interrupted = e.kind() == ErrorKind::Interrupted;
            *why = Some(e);
            if interrupted {
                Step::Interrupted
            } else {
                Step::Failed
            }
        }
    }
}
