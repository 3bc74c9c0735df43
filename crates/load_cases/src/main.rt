// Answers each line of standard input: a leap, the draws that undo others, or a frame of a load.
#![tactic(auto)]

use checksum::sum;
use input::read_full;
use line::{Line, line_of};
use load::{before, control_of, is_received, lines_of, params_of, pulses_of, rows_of};
use post_load::{post_load_frame, post_load_leap, post_load_undoing};
use std::io;
use word::bits32;

// What a line asks for, by its first number.
#[derive(Clone, Copy)]
enum Asked {
    Leap,
    Undoing,
    Frame,
}

// A number that asks for nothing.
#[derive(Clone, Copy)]
struct Unknown;

impl TryFrom<i32> for Asked {
    type Error = Unknown;

    fn try_from(n: i32) -> Result<Asked, Unknown> {
        match n {
            1 => Ok(Asked::Leap),
            2 => Ok(Asked::Undoing),
            3 => Ok(Asked::Frame),
            _ => Err(Unknown),
        }
    }
}

// A count of draws, of which a line has the high and the low 32 bits.
fn draws(high: i32, low: i32) -> u64 {
    4294967296 * u64::from(bits32(high)) + u64::from(bits32(low))
}

fn sum_small(x: i32) -> i32 {
    let q = params_of(x);
    let small = [
        i32::from(is_received(x)),
        i32::from(i8::from(q.signal)),
        i32::from(q.quant_offset_type),
        i32::from(q.nlsf_interp_coef_q2),
        i32::from(q.seed),
    ];
    sum(0, &small)
}

// The check sum of a frame's 402 numbers, in the order of their draws.
fn sum_drawn(x: i32, rate: i32) -> i32 {
    let c = control_of(x, rate);
    let rows = rows_of(x);
    let lagged = sum(sum(sum_small(x), &c.pitch_l), &c.gains_q16);
    let rowed = sum(sum(lagged, &rows[0]), &rows[1]);
    let tapped = sum(sum(rowed, &c.ltp_coef_q14), &[c.ltp_scale_q14]);
    sum(sum(tapped, &lines_of(x)), &pulses_of(x))
}

// The answer, the check sum of the frame's numbers, and that of the slices.
fn frame(rt: &impl Print, seed: i32, rate: i32, subframes: i32, number: u32) -> io::Result<()> {
    let mut frame = [0; 16];
    let mut coefs = [0; 68];
    let mut pulses = [0; 320];
    let answer = post_load_frame(
        rate,
        subframes,
        seed,
        number,
        &mut frame,
        &mut coefs,
        &mut pulses,
    );
    let left = sum(sum(sum(0, &frame), &coefs), &pulses);
    let drawn = sum_drawn(before(seed, number), rate);
    println!(rt; "{answer} {drawn} {left}")
}

// A line that ends; one with no number is passed over.
fn answered(rt: &impl Print, l: Line) -> io::Result<()> {
    let row = l.row;
    if l.count == 0 {
        return Ok(());
    }
    match Asked::try_from(row[0]) {
        Ok(Asked::Leap) => rt.println(post_load_leap(row[1], draws(row[2], row[3]))),
        Ok(Asked::Undoing) => rt.println(post_load_undoing(draws(row[1], row[2]))),
        Ok(Asked::Frame) => frame(rt, row[1], row[2], row[3], bits32(row[4])),
        Err(Unknown) => println!(rt; "no case"),
    }
}

// At most 65,536 bytes are read, and what follows the last newline is no line.
fn main(rt: HostRuntime) -> io::Result<()> {
    let mut text = [0u8; 65536];
    let n = read_full(&mut rt.stdin(), &mut text)?;
    // rows, recording_cases and load_written have the same loop: a function of all would take a closure that prints and may fail, and spare three lines.
    for bytes in text[..n].split_inclusive(|b| *b == b'\n') {
        if bytes.ends_with(b"\n") {
            answered(&rt, line_of(bytes))?;
        }
    }
    Ok(())
}
