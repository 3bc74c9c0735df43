// Makes the calls that standard input lists, and writes each one's answer and the sum of all that a call can write.
#![tactic(auto)]

ghost use Rattle.std.specs.Prelude.{◌≡◌, ◌≤◌, ◌^◌, min, length, take};
ghost use Rattle.word.specs.Int.{mod_ℤ, wrap16};
ghost use Rattle.replay.specs.Put.{room, shorts, put};
ghost use Rattle.replay.specs.Sum.{sum_all};

use input::read_full;
use line::{Line, blank, fed};
use sigproc::copy_at;
use std::io;
use word::{bits32, low16};

// A call that a line names by its number.
#[derive(Clone, Copy)]
enum Call {
    SetUp,
    Frame,
    Core,
    PlcReceived,
    PlcLost,
    Glue,
    Noise,
    Played,
    Stability,
    Filter,
    Cosine,
    Rising,
    SetUpWith,
}

// A slice that a line names by its number, to store into it.
#[derive(Clone, Copy)]
enum Slice {
    Words,
    Halves,
    Frame,
    Coefs,
    Lines,
    Pulses,
    Output,
    Coefficients,
    Result,
}

// A number that names neither.
#[derive(Clone, Copy)]
struct Unknown;

impl TryFrom<i32> for Call {
    type Error = Unknown;

    fn try_from(n: i32) -> Result<Call, Unknown> {
        match n {
            0 => Ok(Call::SetUp),
            1 => Ok(Call::Frame),
            2 => Ok(Call::Core),
            3 => Ok(Call::PlcReceived),
            4 => Ok(Call::PlcLost),
            5 => Ok(Call::Glue),
            6 => Ok(Call::Noise),
            7 => Ok(Call::Played),
            8 => Ok(Call::Stability),
            9 => Ok(Call::Filter),
            10 => Ok(Call::Cosine),
            11 => Ok(Call::Rising),
            12 => Ok(Call::SetUpWith),
            _ => Err(Unknown),
        }
    }
}

impl TryFrom<i32> for Slice {
    type Error = Unknown;

    fn try_from(n: i32) -> Result<Slice, Unknown> {
        match n {
            20 => Ok(Slice::Words),
            21 => Ok(Slice::Halves),
            22 => Ok(Slice::Frame),
            23 => Ok(Slice::Coefs),
            24 => Ok(Slice::Lines),
            25 => Ok(Slice::Pulses),
            26 => Ok(Slice::Output),
            27 => Ok(Slice::Coefficients),
            28 => Ok(Slice::Result),
            _ => Err(Unknown),
        }
    }
}

// The first number of a line that stores and makes no call.
const STORES: i32 = 20;

// What calls are lent parts of: all is kept from call to call.
#[derive(Clone, Copy)]
struct Lent {
    words: [i32; 704],
    halves: [i16; 544],
    frame: [i32; 24],
    coefs: [i16; 80],
    lines: [i16; 24],
    pulses: [i16; 400],
    output: [i16; 400],
    coefficients: [i16; 48],
    result: [i32; 16],
}

fn nothing() -> Lent {
    Lent {
        words: [0; 704],
        halves: [0; 544],
        frame: [0; 24],
        coefs: [0; 80],
        lines: [0; 24],
        pulses: [0; 400],
        output: [0; 400],
        coefficients: [0; 48],
        result: [0; 16],
    }
}

fn size(n: i32) -> usize
    ensures { result ≡ mod_ℤ n (2 ^ 32) }
{
    bits32(n) as usize
}

fn at_most(n: i32, most: usize) -> usize
    ensures { (result ≡ min (mod_ℤ n (2 ^ 32)) most) × (result ≤ most) }
{
    size(n).min(most)
}

// The first n elements, or all.
fn first<T>(s: &mut [T], n: i32) -> &mut [T]
    ensures { result.now ≡ take (min (mod_ℤ n (2 ^ 32)) (length s.old)) s.old }
{
    let m = at_most(n, s.len());
    &mut s[..m]
}

// The same of a slice that a call only reads: one function can't lend both ways.
fn front<T>(s: &[T], n: i32) -> &[T]
    ensures { result.now ≡ take (min (mod_ℤ n (2 ^ 32)) (length s.now)) s.now }
{
    let m = at_most(n, s.len());
    &s[..m]
}

// The answer of a line's call. The line has the call, two numbers, and how much of each slice is lent, in the order of Lent;
// the squelch and the edition of SetUpWith stand behind the two slices that it is lent.
fn made(l: &mut Lent, call: Call, row: [i32; 64]) -> i32 {
    match call {
        Call::SetUp => post::post_set_up(
            row[1],
            row[2],
            first(&mut l.words, row[3]),
            first(&mut l.halves, row[4]),
        ),
        Call::SetUpWith => post::post_set_up_with(
            row[1],
            row[2],
            row[5],
            row[6],
            first(&mut l.words, row[3]),
            first(&mut l.halves, row[4]),
        ),
        Call::Frame => post::post_frame(
            first(&mut l.words, row[3]),
            first(&mut l.halves, row[4]),
            first(&mut l.frame, row[5]),
            first(&mut l.coefs, row[6]),
            front(&l.pulses, row[8]),
            first(&mut l.output, row[9]),
        ),
        Call::Core => post::post_core(
            first(&mut l.words, row[3]),
            first(&mut l.halves, row[4]),
            first(&mut l.frame, row[5]),
            first(&mut l.coefs, row[6]),
            front(&l.pulses, row[8]),
            first(&mut l.output, row[9]),
        ),
        Call::PlcReceived => post::post_plc_received(
            first(&mut l.words, row[3]),
            first(&mut l.halves, row[4]),
            front(&l.frame, row[5]),
            front(&l.coefs, row[6]),
        ),
        Call::PlcLost => post::post_plc_lost(
            first(&mut l.words, row[3]),
            first(&mut l.halves, row[4]),
            first(&mut l.frame, row[5]),
            first(&mut l.output, row[9]),
        ),
        Call::Glue => post::post_glue(
            first(&mut l.words, row[3]),
            first(&mut l.halves, row[4]),
            first(&mut l.output, row[9]),
            size(row[1]),
        ),
        Call::Noise => post::post_noise(
            first(&mut l.words, row[3]),
            first(&mut l.halves, row[4]),
            front(&l.frame, row[5]),
            first(&mut l.output, row[9]),
            size(row[1]),
        ),
        Call::Played => post::post_played(row[1], row[2], front(&l.output, row[9])),
        Call::Stability => post_filters::post_stability(
            front(&l.coefficients, row[10]),
            size(row[1]),
            row[2],
            first(&mut l.result, row[11]),
        ),
        Call::Filter => post_filters::post_filter(
            first(&mut l.coefficients, row[10]),
            front(&l.lines, row[7]),
            size(row[1]),
            row[2],
        ),
        Call::Cosine => post_filters::post_cosine(size(row[1]), first(&mut l.result, row[11])),
        Call::Rising => post_filters::post_rising(
            front(&l.lines, row[7]),
            size(row[1]),
            first(&mut l.result, row[11]),
        ),
    }
}

// Whether a line's numbers after its first two have places in a slice of n from `at` on.
#[tactic(auto, unfolding(crate::specs::Put::room))]
fn room(n: usize, at: usize, count: usize) -> bool
    ensures { result ≡ room n at count }
{
    count >= 2 && count <= 64 && at <= n && count - 2 <= n - at
}

fn shorts(row: [i32; 64]) -> [i16; 64]
    ensures { result ≡ shorts row }
{
    row.map(
        |x: i32| -> i16
            ensures { result ≡ wrap16 x }
        { low16(x) },
    )
}

// A line's numbers after its first two, stored from a place on, where there is room.
#[tactic(auto, using(crate::proofs::Places::fits), unfolding(crate::specs::Put::put))]
fn put<T: Copy>(to: &mut [T], at: i32, row: [T; 64], count: usize)
    ensures { to.new ≡ put to.old row at count }
{
    let at = size(at);
    let row = &row[..];
    if room(to.len(), at, count) {
        copy_at(to, at, &row[2..count]);
    }
}

// The second number of a line that stores is the place.
fn store(l: &mut Lent, slice: Slice, row: [i32; 64], count: usize) {
    let at = row[1];
    match slice {
        Slice::Words => put(&mut l.words, at, row, count),
        Slice::Halves => put(&mut l.halves, at, shorts(row), count),
        Slice::Frame => put(&mut l.frame, at, row, count),
        Slice::Coefs => put(&mut l.coefs, at, shorts(row), count),
        Slice::Lines => put(&mut l.lines, at, shorts(row), count),
        Slice::Pulses => put(&mut l.pulses, at, shorts(row), count),
        Slice::Output => put(&mut l.output, at, shorts(row), count),
        Slice::Coefficients => put(&mut l.coefficients, at, shorts(row), count),
        Slice::Result => put(&mut l.result, at, row, count),
    }
}

// The check sum of all that a call can write.
#[tactic(auto, unfolding(crate::specs::Sum::sum_all))]
fn sum(l: &Lent) -> i32
    ensures { result ≡ sum_all l.now }
{
    let a = checksum::sum(checksum::sum(0, &l.words), &l.halves);
    let b = checksum::sum(checksum::sum(a, &l.frame), &l.coefs);
    let c = checksum::sum(checksum::sum(b, &l.output), &l.coefficients);
    checksum::sum(c, &l.result)
}

// What is written of a call: its number, its answer, the check sum.
fn write_line(rt: &impl Print, calls: u64, answer: i32, left: &Lent) -> io::Result<()> {
    let left = bits32(sum(left));
    println!(rt; "{calls} {answer} {left:08x}")
}

#[derive(Clone, Copy)]
struct Run {
    calls: u64,
    line: Line,
    lent: Lent,
}

fn started() -> Run {
    Run {
        calls: 0,
        line: blank(),
        lent: nothing(),
    }
}

fn more(n: u64) -> u64 {
    n.saturating_add(1).min(1_000_000)
}

// A line that ends: one with no number is passed over.
fn step(rt: &impl Print, r: &mut Run) -> io::Result<()> {
    let line = r.line;
    r.line = blank();
    if line.count == 0 {
        return Ok(());
    }
    let row = line.row;
    if row[0] >= STORES {
        if let Ok(slice) = Slice::try_from(row[0]) {
            store(&mut r.lent, slice, row, line.count);
        }
        return Ok(());
    }
    let answer = match Call::try_from(row[0]) {
        Ok(call) => made(&mut r.lent, call, row),
        Err(Unknown) => -2,
    };
    r.calls = more(r.calls);
    write_line(rt, r.calls, answer, &r.lent)
}

// Byte by byte: a line may begin in one part of the input and end in the next.
fn replay(rt: &impl Print, r: &mut Run, text: &[u8]) -> io::Result<()> {
    for b in text {
        r.line = fed(r.line, *b);
        if *b == b'\n' {
            step(rt, r)?;
        }
    }
    Ok(())
}

fn main(rt: HostRuntime) -> io::Result<()> {
    let mut text = [0u8; 65536];
    let mut input = rt.stdin();
    let mut r = started();
    // At most 64 parts of 65,536 bytes are read.
    for _ in 0..64u8 {
        let n = read_full(&mut input, &mut text)?;
        replay(&rt, &mut r, &text[..n])?;
    }
    let calls = r.calls;
    println!(rt; "{calls} calls")
}
