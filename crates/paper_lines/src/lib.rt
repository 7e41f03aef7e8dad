// Lines of digits: a reader that answers one line at a time, and the writer of one frame.
#![tactic(auto)]

ghost use Rattle.std.specs.Prelude.{◌≡◌, true, ◌≤◌, ◌<◌, length, get_or};
ghost use Rattle.paper_lines.specs.Lines.{is_hex, value_of, all_hex, is_digits, frame_of, digit_of, line_text};
ghost use Rattle.paper_lines.specs.Reading.{take_digits, line_at, AreValues};
ghost use Rattle.paper_lines.specs.Writing.{over};

use paper_refusals::Refusal;

// A frame's first bytes, how many it has, and where the next line starts.
#[derive(Clone, Copy)]
pub struct Frame {
    pub kind: u8,
    pub len: usize,
    pub a: u8,
    pub b: u8,
    pub c: u8,
    pub next: usize,
}

// The byte that ends a line.
const FEED: u8 = b'\n';

// What the bytes of numbers and of letters have above their values.
const NUMBERS: u8 = b'0';

const LETTERS: u8 = 87;

// How many digits there are; in the table of values, what stands for a byte that is none.
const BASE: u8 = 16;

// The bytes that there are.
const BYTES: usize = 256;

// The value of each byte that is a digit, by the byte; the others have BASE. No type stands for such tables in place
// of `AreValues` in the contracts: `read_line` takes any array that is one, and a type would ask more of its callers.
pub fn digit_values() -> [u8; BYTES]
    ensures { AreValues result }
{
    let mut values = [BASE; BYTES];
    for v in 0..BASE {
        values[digit(v) as usize] = v;
    }
    values
}

// Reads the line that starts at a place of a text, by the table of values: its frame, or nothing past the text's end.
pub fn read_line(text: &[u8], at: usize, values: &[u8; BYTES]) -> Result<Option<Frame>, Refusal>
    requires { AreValues values.now }
    ensures { result ≡ line_at text.now at }
{
    if at >= text.len() {
        return Ok(None);
    }
    let end = at + digits_in(&text[at..], values);
    let line = &text[at..end];
    if end >= text.len() || text[end] != FEED || !is_whole(line) {
        return Err(Refusal::NoFrame);
    }
    Ok(Some(Frame {
        kind: byte_at(line, 0, values),
        len: line.len() / 2,
        a: byte_at(line, 1, values),
        b: byte_at(line, 2, values),
        c: byte_at(line, 3, values),
        next: end + 1,
    }))
}

// Writes a frame as a line from the start of the lent part, where later bytes stay, and gives the line's length.
pub fn put_frame(out: &mut [u8], frame: &[u8]) -> usize
    requires { length (line_text frame.now) ≤ length out.old }
    ensures value { result ≡ length (line_text frame.now) }
    ensures out_after { out.new ≡ over (line_text frame.now) out.old }
{
    for (i, &byte) in frame.iter().enumerate() {
        out[2 * i] = digit(byte / 16);
        out[2 * i + 1] = digit(byte % 16);
    }
    let last = 2 * frame.len();
    out[last] = FEED;
    last + 1
}

// How many digits a text starts with. The loop steps by four: each byte of a text passes here, and a turn for each
// would be slower.
fn digits_in(text: &[u8], values: &[u8; BYTES]) -> usize
    requires { AreValues values.now }
    ensures { result ≡ length (take_digits text.now) }
{
    let mut i = 0;
    while i + 3 < text.len() {
        if !is_hex(text[i], values) {
            return i;
        }
        if !is_hex(text[i + 1], values) {
            return i + 1;
        }
        if !is_hex(text[i + 2], values) {
            return i + 2;
        }
        if !is_hex(text[i + 3], values) {
            return i + 3;
        }
        i += 4;
    }
    i + digits_from(&text[i..], values)
}

// The same, a byte a turn, for what is left of a text.
fn digits_from(text: &[u8], values: &[u8; BYTES]) -> usize
    requires { AreValues values.now }
    ensures { result ≡ length (take_digits text.now) }
{
    text.iter().take_while(|&&b| is_hex(b, values)).count()
}

// The digits are those of whole bytes, and there are some.
fn is_whole(line: &[u8]) -> bool
    requires { all_hex line.now ≡ true }
    ensures { result ≡ is_digits line.now }
{
    !line.is_empty() && line.len() % 2 == 0
}

// A byte is one of the digits 0-9 a-f.
fn is_hex(b: u8, values: &[u8; BYTES]) -> bool
    requires { AreValues values.now }
    ensures { result ≡ is_hex b }
{
    values[b as usize] < BASE
}

// The byte of a frame at an index, 0 past its end.
fn byte_at(line: &[u8], i: usize, values: &[u8; BYTES]) -> u8
    requires line_value { all_hex line.now ≡ true }
    requires are_values { AreValues values.now }
    ensures { result ≡ get_or (frame_of line.now) i 0 }
{
    if i >= line.len() / 2 {
        return 0;
    }
    16 * value(line[2 * i], values) + value(line[2 * i + 1], values)
}

// The value of a digit.
fn value(b: u8, values: &[u8; BYTES]) -> u8
    requires b_value { is_hex b ≡ true }
    requires are_values { AreValues values.now }
    ensures { (result ≡ value_of b) × (result < 16) }
{
    values[b as usize]
}

// The digit of a value.
fn digit(v: u8) -> u8
    requires { v < 16 }
    ensures { result ≡ digit_of v }
{
    if v < 10 { NUMBERS + v } else { LETTERS + v }
}
