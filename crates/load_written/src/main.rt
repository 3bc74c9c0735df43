// Answers each line of standard input, a kind and `SEED RATE SUBFRAMES FIRST COUNT`: of frames of a load that are played, kind 1, or recorded, kind 2.
// A line of standard output has the refusal's number, or 0 and for 1 the frames that are lost and the samples' check sum, for 2 the check sum of the
// recording's bytes, and the count and the check sum of the samples that it plays.
#![tactic(auto)]

use checksum::sum;
use input::read_full;
use line::{Line, line_of};
use load::{after, before, is_received};
use load_recording::record_load;
use load_stream::heard_of;
use playback::{play, set_up_for};
use refusal::Refusal;
use std::io;
use word::bits32;

// Frames that a line asks for. make_load reads these numbers behind a form: load_recording, below both, takes them one by one, as its definitions do.
#[derive(Clone, Copy)]
struct Asked {
    seed: i32,
    rate: i32,
    subframes: i32,
    first: u32,
    count: u32,
}

// The lost ones among frames that are played, and a check sum.
#[derive(Clone, Copy)]
struct Heard {
    lost: u32,
    sum: i32,
}

// A load's post has a recording's settings. make_load's `write_frames` goes these turns too, but writes each frame: a function of both would take a closure
// that may fail by its input and output, where these turns fail by a refusal alone.
#[tactic(auto, using(shape::proofs::Shapes::frame_le))]
fn load_heard(a: Asked) -> Result<Heard, Refusal> {
    let mut state = set_up_for(a.rate, a.subframes)?;
    let size = shape::frame_length(a.rate, a.subframes);
    let mut x = before(a.seed, a.first);
    let mut h = Heard { lost: 0, sum: 0 };
    // Rounds that read no number of their own.
    for _ in 0..a.count {
        let t = heard_of(state, a.rate, a.subframes, x)?;
        let lost = h.lost.saturating_add(u32::from(!is_received(x)));
        h = Heard {
            lost,
            sum: sum(h.sum, &t.samples[..size]),
        };
        state = t.state;
        x = after(x);
    }
    Ok(h)
}

// A recording's check sum, and the count and the check sum of the samples that it plays.
#[derive(Clone, Copy)]
struct Written {
    sum: i32,
    played: usize,
    heard: i32,
}

fn load_recorded(a: Asked) -> Result<Written, Refusal> {
    let mut bytes = [0u8; 61440];
    let count = a.count as usize;
    record_load(&mut bytes, a.rate, a.subframes, a.seed, a.first, count)?;
    let file = bytes.get(..1024 * (count + 1)).ok_or(Refusal::Record)?;
    let mut samples = [0i16; 19200];
    let p = play(file, &mut samples)?;
    let played = p.samples;
    Ok(Written {
        sum: file.iter().fold(0, |s, b| sum(s, &[i32::from(*b)])),
        played,
        heard: sum(0, &samples[..played]),
    })
}

fn tell_heard(rt: &impl Print, a: Asked) -> io::Result<()> {
    match load_heard(a) {
        Ok(Heard { lost, sum }) => println!(rt; "0 {lost} {sum}"),
        Err(refusal) => rt.println(refusal.number()),
    }
}

fn tell_written(rt: &impl Print, a: Asked) -> io::Result<()> {
    match load_recorded(a) {
        Ok(Written { sum, played, heard }) => println!(rt; "0 {sum} {played} {heard}"),
        Err(refusal) => rt.println(refusal.number()),
    }
}

// A line that ends; one with no number is passed over.
fn answered(rt: &impl Print, l: Line) -> io::Result<()> {
    let row = l.row;
    if l.count == 0 {
        return Ok(());
    }
    let a = Asked {
        seed: row[1],
        rate: row[2],
        subframes: row[3],
        first: bits32(row[4]),
        count: bits32(row[5]),
    };
    // By number: an enum with a TryFrom, as load_cases has for three kinds, would be longer than these arms.
    match row[0] {
        1 => tell_heard(rt, a),
        2 => tell_written(rt, a),
        _ => println!(rt; "no case"),
    }
}

// At most 65,536 bytes are read, and what follows the last newline is no line.
fn main(rt: HostRuntime) -> io::Result<()> {
    let mut text = [0u8; 65536];
    let n = read_full(&mut rt.stdin(), &mut text)?;
    // load_cases has the same loop, and a line on it.
    for bytes in text[..n].split_inclusive(|b| *b == b'\n') {
        if bytes.ends_with(b"\n") {
            answered(&rt, line_of(bytes))?;
        }
    }
    Ok(())
}
