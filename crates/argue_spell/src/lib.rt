// Claims and steps spelled into a lent buffer from a place on, each line only where there is room for it: without room
// the length alone is counted.
#![tactic(auto)]

ghost use Rattle.std.specs.Prelude.{◌+◌, ◌≤◌, ◌<◌, length};
ghost use Rattle.paper_lines.specs.Lines.{line_text};
ghost use Rattle.argue_claims.specs.Arguments.{st};
ghost use Rattle.argue_texts.specs.ArgumentTexts.{set_frame, by_text};
ghost use Rattle.argue_spell.specs.Added.{FAR, WORD, head_text, step_text, Added};

use argue_texts::{BY, CLAIM, DEPENDENCE, FROM, UPTO};

// The line of a claim; gives the place behind it.
pub fn put_claim(out: &mut [u8], at: usize, d: usize, a: usize, b: usize) -> usize
    requires at_bound { at ≤ FAR }
    requires d_bound { (d < 256) × ((a < 256) × (b < 256)) }
    ensures added { Added (head_text d a b) at out.old out.new result }
    ensures upper_bound { result ≤ at + 9 }
{
    let frame = [CLAIM, (d % 256) as u8, (a % 256) as u8, (b % 256) as u8];
    put_line(out, at, &frame)
}

// The lines of a step; gives the place behind them.
// A set and what leads it are numbers here: a sweep's lists hold them as numbers, and an enum would be made from each
// only to be matched.
// at ≤ FAR is a bound of a number, and no fact of a struct.
pub fn put_step(out: &mut [u8], at: usize, set: usize, via: usize) -> usize
    requires at_bound { at ≤ FAR }
    requires set_bound { (set ≤ WORD) × (via ≤ WORD) }
    ensures added { Added (step_text (st set via)) at out.old out.new result }
    ensures upper_bound { result ≤ at + 14 }
{
    let next = put_by(out, at, via);
    put_set(out, next, set)
}

// The line of the claim that leads, none where there is none.
fn put_by(out: &mut [u8], at: usize, via: usize) -> usize
    requires at_bound { at ≤ FAR }
    requires via_bound { via ≤ WORD }
    ensures added { Added (by_text via) at out.old out.new result }
    ensures upper_bound { result ≤ at + 7 }
{
    if via == 0 {
        return at;
    }
    let m = via - 1;
    let frame = [BY, (m / 256 % 256) as u8, (m % 256) as u8];
    put_line(out, at, &frame)
}

// The line of a set.
fn put_set(out: &mut [u8], at: usize, set: usize) -> usize
    requires at_bound { at ≤ FAR + 7 }
    requires set_bound { set ≤ WORD }
    ensures added { Added (line_text (set_frame set)) at out.old out.new result }
    ensures upper_bound { result ≤ at + 7 }
{
    match set {
        0 => put_line(out, at, &[FROM]),
        1 => put_line(out, at, &[UPTO]),
        _ => {
            let k = set - 2;
            let frame = [DEPENDENCE, (k / 256 % 256) as u8, (k % 256) as u8];
            put_line(out, at, &frame)
        }
    }
}

// One line, where there is room for it; gives the place behind it.
fn put_line(out: &mut [u8], at: usize, frame: &[u8]) -> usize
    requires at_bound { at ≤ FAR + 7 }
    requires frame_len_bound { length frame.now ≤ 4 }
    ensures { Added (line_text frame.now) at out.old out.new result }
{
    let next = at + (2 * frame.len() + 1);
    if out.len() < next {
        return next;
    }
    at + paper_lines::put_frame(&mut out[at..], frame)
}
