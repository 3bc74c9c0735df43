// An edition and coefficients on a line of text, read byte by byte: up to 17 whole numbers of 16 bits, with blanks or commas between them.
// Apart from `line`: here a byte, a number or a count of numbers that does not belong makes the line bad, there all but the numbers is passed over.
// Inner: every function.
#![tactic(auto)]

ghost use Rattle.std.specs.Prelude.{◌≡◌, ◌<◌, true, cond};
ghost use Rattle.coefficients.specs.Line.{between, blank, number, fits, stored, ended, minus, digit, fed};

// The numbers so far, and the one that is being read: its minus sign, and its size from the first digit on.
// The count stays beside the numbers: there is no heap, and an entry is copied, which the kit's ArrayVec is not.
#[derive(Clone, Copy)]
pub struct Entry {
    pub a: [i16; 17],
    pub count: usize,
    // A truth value, since only a minus sign is a sign here: a type of signs would be tested for it, and say no more.
    negative: bool,
    size: Option<usize>,
}

// A line that is no list of such numbers.
#[derive(Clone, Copy)]
pub struct Bad;

#[tactic(auto, unfolding(crate::specs::Line::between))]
fn between(a: [i16; 17], count: usize) -> Entry
    ensures { result ≡ between a count }
{
    Entry {
        a,
        count,
        negative: false,
        size: None,
    }
}

// The start of a line.
#[tactic(auto, unfolding(crate::specs::Line::blank))]
pub fn blank() -> Entry
    ensures { result ≡ blank }
{
    between([0; 17], 0)
}

// The signed number. By `as`, since the clause bounds the size: `i16::try_from` would bring an error that never comes.
#[tactic(auto, unfolding(crate::specs::Line::number))]
fn number(size: usize, negative: bool) -> i16
    requires { size < cond negative 32769 32768 }
    ensures { result ≡ number size negative }
{
    let v = size as i32;
    if negative { -v as i16 } else { v as i16 }
}

// A number of this size has 16 bits, and a place.
#[tactic(auto, unfolding(crate::specs::Line::fits))]
fn fits(e: Entry, size: usize) -> bool
    ensures { result ≡ fits e size }
{
    let sizes = if e.negative { 32769 } else { 32768 };
    e.count < 17 && size < sizes
}

#[tactic(auto, unfolding(crate::specs::Line::stored, crate::specs::Line::fits))]
fn stored(e: Entry, size: usize) -> Entry
    requires { fits e size ≡ true }
    ensures { result ≡ stored e size }
{
    let mut a = e.a;
    a[e.count] = number(size, e.negative);
    between(a, e.count + 1)
}

// A number's end, or that of the line: a minus sign alone is bad.
#[tactic(auto, unfolding(crate::specs::Line::ended, crate::specs::Line::size_ended))]
pub fn ended(e: Entry) -> Result<Entry, Bad>
    ensures { result ≡ ended e }
{
    match e.size {
        Some(size) if fits(e, size) => Ok(stored(e, size)),
        None if !e.negative => Ok(e),
        _ => Err(Bad),
    }
}

#[tactic(auto, unfolding(crate::specs::Line::minus))]
fn minus(e: Entry) -> Result<Entry, Bad>
    ensures { result ≡ minus e }
{
    if e.size.is_some() || e.negative {
        return Err(Bad);
    }
    Ok(Entry {
        negative: true,
        ..e
    })
}

#[tactic(auto, unfolding(crate::specs::Line::digit))]
fn digit(e: Entry, d: u8) -> Entry
    ensures { result ≡ digit e d }
{
    let size = e.size.unwrap_or(0).min(40000) * 10 + usize::from(d);
    Entry {
        size: Some(size),
        ..e
    }
}

// The line with one more byte.
#[tactic(auto, unfolding(crate::specs::Line::fed, crate::specs::Line::is_blank))]
pub fn fed(e: Entry, b: u8) -> Result<Entry, Bad>
    ensures { result ≡ fed e b }
{
    match b {
        b' ' | b'\t' | b'\r' | b',' => ended(e),
        b'-' => minus(e),
        b'0'..=b'9' => Ok(digit(e, b - b'0')),
        _ => Err(Bad),
    }
}
