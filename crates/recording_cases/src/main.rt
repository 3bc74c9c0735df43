// Plays the recordings that the lines of standard input make, and writes the accepted ones again, in order. A line of standard output has the refusal's
// number, or 0, then the frames received and concealed, and counts and check sums: of the samples, of the recording's bytes, and of those written.
#![tactic(auto)]

use checksum::sum;
use input::read_full;
use le::low_byte;
use line::{Line, line_of};
use playback::play;
use recorder::{append, begin};
use recording::read;
use refusal::Refusal;
use std::io;
use word::bits32;

// What a line asks for, by its first number: a recording of the first bytes, bytes stored, or one byte stored many times.
#[derive(Clone, Copy)]
enum Asked {
    Play,
    Put,
    Fill,
}

// A number that asks for nothing.
#[derive(Clone, Copy)]
struct Unknown;

// load_cases has another such enum: an impl is of one type, and a table of cases would be longer than these three arms.
impl TryFrom<i32> for Asked {
    type Error = Unknown;

    fn try_from(n: i32) -> Result<Asked, Unknown> {
        match n {
            0 => Ok(Asked::Play),
            1 => Ok(Asked::Put),
            2 => Ok(Asked::Fill),
            _ => Err(Unknown),
        }
    }
}

// A place or a count. replay has this function too, with a clause that its buffers need: one line, of two programs.
fn size(n: i32) -> usize {
    bits32(n) as usize
}

fn put(file: &mut [u8], at: usize, bytes: &[u8]) {
    if let Some(to) = file.get_mut(at..at.saturating_add(bytes.len())) {
        to.copy_from_slice(bytes);
    }
}

fn fill(file: &mut [u8], at: usize, n: usize, b: u8) {
    if let Some(to) = file.get_mut(at..at.saturating_add(n)) {
        to.fill(b);
    }
}

// A count of bytes and their check sum.
#[derive(Clone, Copy)]
struct Counted {
    size: usize,
    sum: i32,
}

// load_written has this fold too: `sum` goes over word's Numbers, which have a sign, and an impl for bytes would serve these two lines alone.
fn summed(bytes: &[u8]) -> Counted {
    Counted {
        size: bytes.len(),
        sum: bytes.iter().fold(0, |s, b| sum(s, &[i32::from(*b)])),
    }
}

// A recording's frames, written in order.
#[tactic(auto, using(recording::proofs::Accepted::few))]
fn written(file: &[u8]) -> Result<Counted, Refusal> {
    let mut to = [0u8; 65536];
    let r = read(file)?;
    begin(&mut to, r.rate, r.subframes)?;
    let frames = r.frames_in(file);
    for (k, i) in frames.records.iter().enumerate() {
        append(&mut to, k, r.rate, r.subframes, &frames.record(*i))?;
    }
    Ok(summed(&to[..1024 * (r.frames + 1)]))
}

fn tell(rt: &impl Print, file: &[u8]) -> io::Result<()> {
    let mut samples = [0i16; 19200];
    let p = match play(file, &mut samples) {
        Ok(p) => p,
        Err(refusal) => return rt.println(refusal.number()),
    };
    let received = p.received;
    let concealed = p.concealed;
    let played = p.samples;
    let heard = sum(0, &samples[..played]);
    let Counted { size, sum: lent } = summed(file);
    match written(file) {
        Ok(again) => {
            let n = again.size;
            let kept = again.sum;
            println!(rt; "0 {received} {concealed} {played} {heard} {size} {lent} {n} {kept}")
        }
        Err(refusal) => println!(rt; "not written: {refusal}"),
    }
}

// A line that ends; one with no number is passed over.
fn answered(rt: &impl Print, file: &mut [u8], l: Line) -> io::Result<()> {
    let row = l.row;
    if l.count == 0 {
        return Ok(());
    }
    let at = size(row[1]);
    match Asked::try_from(row[0]) {
        Ok(Asked::Play) => tell(rt, &file[..at.min(file.len())]),
        Ok(Asked::Put) => {
            let bytes = row.map(low_byte);
            if let Some(stored) = bytes.get(2..l.count) {
                put(file, at, stored);
            }
            Ok(())
        }
        Ok(Asked::Fill) => {
            fill(file, at, size(row[2]), low_byte(row[3]));
            Ok(())
        }
        Err(Unknown) => println!(rt; "no case"),
    }
}

// At most 131,072 bytes are read, and what follows the last newline is no line.
fn main(rt: HostRuntime) -> io::Result<()> {
    let mut text = [0u8; 131072];
    let mut file = [0u8; 65536];
    let n = read_full(&mut rt.stdin(), &mut text)?;
    // load_cases has the same loop, and a line on it.
    for bytes in text[..n].split_inclusive(|b| *b == b'\n') {
        if bytes.ends_with(b"\n") {
            answered(&rt, &mut file, line_of(bytes))?;
        }
    }
    Ok(())
}
