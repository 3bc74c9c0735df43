// The numbers of a line of text, read byte by byte; all else in it is passed over.
// Apart from `coefficients`: here any line counts and a number is cut to 32 bits, there a line is bad in which not all is a number of 16 bits.
// Inner: every function.
#![tactic(auto)]

ghost use Rattle.std.specs.Prelude.{◌≡◌};
ghost use Rattle.line.specs.Line.{blank, signed, begun, stored, ended, digit, fed, line_of};

use word::{add32, mul32, neg32};

// The first 64 numbers of a line, and the number that is being read.
// The count stays beside the row: there is no heap, and a program reads the row whole, with zeros behind its numbers.
#[derive(Clone, Copy)]
pub struct Line {
    pub row: [i32; 64],
    pub count: usize,
    value: Option<i32>,
    // A truth value, since only a minus sign is a sign here: a type of signs would be tested for it, and say no more.
    negative: bool,
}

#[tactic(auto, unfolding(crate::specs::Line::blank))]
pub fn blank() -> Line
    ensures { result ≡ blank }
{
    begun([0; 64], 0, false)
}

// A row, before its next number.
#[tactic(auto, unfolding(crate::specs::Line::begun))]
fn begun(row: [i32; 64], count: usize, negative: bool) -> Line
    ensures { result ≡ begun row count negative }
{
    Line {
        row,
        count,
        value: None,
        negative,
    }
}

#[tactic(auto, unfolding(crate::specs::Line::signed))]
fn signed(value: i32, negative: bool) -> i32
    ensures { result ≡ signed value negative }
{
    if negative { neg32(value) } else { value }
}

// A number goes into the row where there is room.
#[tactic(auto, unfolding(crate::specs::Line::stored))]
fn stored(l: Line, value: i32, negative: bool) -> Line
    ensures { result ≡ stored l value negative }
{
    let mut row = l.row;
    if l.count < 64 {
        row[l.count] = signed(value, l.negative);
        begun(row, l.count + 1, negative)
    } else {
        begun(row, l.count, negative)
    }
}

// The byte that is read is no digit, and ends the number before it, if there is one.
#[tactic(auto, unfolding(crate::specs::Line::ended, crate::specs::Line::value_ended))]
fn ended(l: Line, negative: bool) -> Line
    ensures { result ≡ ended l negative }
{
    match l.value {
        Some(value) => stored(l, value, negative),
        None => begun(l.row, l.count, negative),
    }
}

#[tactic(auto, unfolding(crate::specs::Line::digit))]
fn digit(l: Line, d: u8) -> Line
    ensures { result ≡ digit l d }
{
    let value = add32(mul32(l.value.unwrap_or(0), 10), i32::from(d));
    Line {
        value: Some(value),
        ..l
    }
}

// The line with one more byte.
#[tactic(auto, unfolding(crate::specs::Line::fed))]
pub fn fed(l: Line, b: u8) -> Line
    ensures { result ≡ fed l b }
{
    match b {
        b'0'..=b'9' => digit(l, b - b'0'),
        b'-' => ended(l, true),
        _ => ended(l, false),
    }
}

// The numbers in a line's bytes.
#[tactic(auto, unfolding(crate::specs::Line::line_of))]
pub fn line_of(bytes: &[u8]) -> Line
    ensures { result ≡ line_of bytes.now }
{
    bytes.iter().fold(blank(), |l, b| fed(l, *b))
}
