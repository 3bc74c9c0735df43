// Yard recordings: the writer, which refuses what the reader would. A refused call writes nothing.
// Inner: every function but begin, append_lost, append_received and append.
#![tactic(auto)]

ghost use Rattle.std.specs.Prelude.{◌≡◌, true, suc, ◌+◌, ◌*◌, ◌≤◌, pos, length};
ghost use Rattle.le.specs.Bytes.{bytes_of, with_bytes};
ghost use Rattle.refusal.specs.First.{first_of};
ghost use Rattle.record.specs.Recorded.{lost, received, recorded_in};
ghost use Rattle.recorder.specs.Writing.{head_bytes, frame_bytes, has_room, head_rows, begin_refusal, begin_of, append_of};

use decoder::{Frame, Params, SilkDecoderControl};
use judge::description;
use le::{Word, low_byte, put_bytes, put_zeros};
use record::{Record, put_received};
use recording::{MARK, is_head};
use refusal::{Refusal, refuse_if};

fn put_head(bytes: &mut [u8], rate: i32, subframes: i32)
    requires { 1024 ≤ length bytes.old }
    ensures { bytes.new ≡ with_bytes bytes.old 0 (head_bytes 0 rate subframes) }
{
    put_zeros(bytes, 0, 2);
    put_bytes(bytes, 2, &MARK);
    put_bytes(bytes, 6, &[low_byte(rate), low_byte(subframes)]);
    put_zeros(bytes, 8, 1016);
}

#[tactic(auto, unfolding(crate::specs::Writing::begin_refusal, refusal::specs::First::first_of))]
fn begin_refusal(bytes: &[u8], rate: i32, subframes: i32) -> Result<(), Refusal>
    ensures { result ≡ begin_refusal rate subframes bytes.now }
{
    refuse_if(bytes.len() < 1024, Refusal::Record)?;
    refuse_if(!shape::is_rate(rate), Refusal::Rate)?;
    refuse_if(!shape::is_count(subframes), Refusal::Size)
}

// A recording of no frames.
pub fn begin(bytes: &mut [u8], rate: i32, subframes: i32) -> Result<(), Refusal>
    ensures { record { judged = result; bytes = bytes.new } ≡ begin_of rate subframes bytes.old }
{
    begin_refusal(bytes, rate, subframes)?;
    put_head(bytes, rate, subframes);
    Ok(())
}

#[tactic(auto, unfolding(crate::specs::Writing::has_room))]
fn has_room(bytes: usize, frames: usize) -> bool
    ensures { result ≡ has_room bytes frames }
{
    if frames > 58 {
        return false;
    }
    1024 * (frames + 2) <= bytes
}

// Record 0's rows for a frame of a shape.
fn head_rows(bytes: &[u8], rate: i32, subframes: i32) -> Result<(), Refusal>
    requires { 1024 ≤ length bytes.now }
    ensures { result ≡ first_of (head_rows rate subframes bytes.now) }
{
    refuse_if(!is_head(bytes), Refusal::Record)?;
    let khz = i32::from(bytes[6]);
    refuse_if(!(shape::is_rate(khz) & (rate == khz)), Refusal::Rate)?;
    let nb_subfr = i32::from(bytes[7]);
    refuse_if(
        !(shape::is_count(nb_subfr) & (subframes == nb_subfr)),
        Refusal::Size,
    )
}

// Record n leads to record n + 1.
#[tactic(auto, using(crate::proofs::Laws::room))]
fn link(bytes: &mut [u8], n: usize)
    requires { has_room (length bytes.old) n ≡ true }
    ensures { bytes.new ≡ with_bytes bytes.old (1024 * n) (bytes_of 2 (pos (suc n))) }
{
    ((n + 1) as u16).put(bytes, 1024 * n);
}

// One lost frame more behind frames that are written. The buffer, their number and the shape stand apart: the C interface's caller holds them from call to call.
pub fn append_lost(
    bytes: &mut [u8],
    frames: usize,
    rate: i32,
    subframes: i32,
) -> Result<(), Refusal>
    ensures { record { judged = result; bytes = bytes.new } ≡ append_of rate subframes bytes.old frames lost }
{
    refuse_if(!has_room(bytes.len(), frames), Refusal::Record)?;
    head_rows(bytes, rate, subframes)?;
    link(bytes, frames);
    put_zeros(bytes, 1024 * (frames + 1), 1024);
    Ok(())
}

// A received frame's record, the last, by its parts as document 01 has them.
fn put_frame(
    bytes: &mut [u8],
    at: usize,
    q: Params,
    c: SilkDecoderControl,
    rows: [[i16; 16]; 2],
    lines: [i16; 16],
    pulses: &[i16],
)
    requires { (at + 1024 ≤ length bytes.old) × (320 ≤ length pulses.now) }
    ensures { bytes.new ≡ with_bytes bytes.old at (frame_bytes 0 (received q c rows lines pulses.now)) }
{
    put_zeros(bytes, at, 2);
    put_received(bytes, at + 2, q, c, rows, lines, &pulses[..320]);
    put_zeros(bytes, at + 819, 205);
}

// One received frame more, by its parts as document 01 has them.
pub fn append_received(
    bytes: &mut [u8],
    frames: usize,
    rate: i32,
    subframes: i32,
    q: Params,
    c: SilkDecoderControl,
    rows: [[i16; 16]; 2],
    lines: [i16; 16],
    pulses: &[i16],
) -> Result<(), Refusal>
    ensures { record { judged = result; bytes = bytes.new } ≡ append_of rate subframes bytes.old frames (received q c rows lines pulses.now) }
{
    refuse_if(
        !(has_room(bytes.len(), frames) & (pulses.len() >= 320)),
        Refusal::Record,
    )?;
    head_rows(bytes, rate, subframes)?;
    description(rate, subframes, q, &c, &lines)?;
    link(bytes, frames);
    put_frame(bytes, 1024 * (frames + 1), q, c, rows, lines, pulses);
    Ok(())
}

// One frame more, by its record.
#[tactic(auto, unfolding(record::specs::Recorded::recorded_in, record::specs::Record::frame_in))]
pub fn append(
    bytes: &mut [u8],
    frames: usize,
    rate: i32,
    subframes: i32,
    r: &Record,
) -> Result<(), Refusal>
    ensures { record { judged = result; bytes = bytes.new } ≡ append_of rate subframes bytes.old frames (recorded_in r.now.bytes.now) }
{
    match r.frame() {
        Frame::Lost => append_lost(bytes, frames, rate, subframes),
        Frame::Received(q) => append_received(
            bytes,
            frames,
            rate,
            subframes,
            q,
            r.control(),
            r.rows(),
            r.lines(),
            &r.pulses(),
        ),
    }
}
