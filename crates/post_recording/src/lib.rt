// The functions of recordings, which crate `post_recording_c` exports for a Rust or C program.
// A contract is one equation: the answer and the slices at exit are those of the call's definition.
#![tactic(auto)]

ghost use Rattle.std.specs.Prelude.{◌≡◌, ◌≤◌, ◌++◌, [], ◌∷◌, false, pos, length, drop};
ghost use Rattle.sigproc.specs.Place.{put_at};
ghost use Rattle.refusal.specs.Refusals.{if_accepted};
ghost use Rattle.record.specs.Recorded.{recorded_in};
ghost use Rattle.recording.specs.Frames.{rate_in, count_in};
ghost use Rattle.playback.specs.Playback.{played_samples};
ghost use Rattle.recorder.specs.Writing.{appended};
ghost use Rattle.post_recording.specs.Sizes.{HEAD, short_numbers, short_with_pulses};
ghost use Rattle.post_recording.specs.Reading.{places, head_numbers, head_of, read_judged, read_call, frame_of, coefs_of, pulses_of, frame_at, frame_judged, frame_call, play_judged, play_call};
ghost use Rattle.post_recording.specs.Writing.{begin_call, lent, append_judged, append_call};

use decoder::Frame;
use layout::frame::{COEFS, CoefNumbers, FRAME, FrameNumbers};
use numbers::{put_coefs, put_frame};
use playback::play;
use record::Record;
use recorder::{append_lost, append_received, begin};
use recording::{Recording, read};
use refusal::{Refusal, code, refuse_if};
use sigproc::copy_at;
use word::map_into;

// Rate, subframes, count of frames, and 59 records.
pub const HEAD: usize = 62;

// The first 59 records as numbers.
fn record_numbers(records: [u8; 60]) -> [i32; 59]
    ensures { result ≡ places records }
{
    let mut numbers = [0; 59];
    map_into(&records[..59], &mut numbers, i32::from);
    numbers
}

// What is read of a recording, put into the head.
fn put_head(r: &Recording, head: &mut [i32])
    requires { (r.now.frames ≤ 60) × (HEAD ≤ length head.old) }
    ensures { head.new ≡ put_at head.old 0 (head_of r.now) }
{
    copy_at(head, 0, &[r.rate, r.subframes, r.frames as i32]);
    copy_at(head, 3, &record_numbers(r.records));
}

// The judgement of post_recording_read, and the head.
fn read_into(bytes: &[u8], head: &mut [i32]) -> Result<(), Refusal>
    ensures { (result ≡ read_judged bytes.now head.old) × (head.new ≡ if_accepted result (put_at head.old 0 (head_numbers bytes.now)) head.old) }
{
    refuse_if(head.len() < HEAD, Refusal::Record)?;
    let r = read(bytes)?;
    put_head(&r, head);
    Ok(())
}

// Rate, subframes, count of frames, and the records of the frames.
pub fn post_recording_read(bytes: &[u8], head: &mut [i32]) -> i32
    ensures { record { answer = result; head = head.new } ≡ read_call bytes.now head.old }
{
    code(read_into(bytes, head))
}

// Too few numbers for a frame.
#[tactic(auto, unfolding(crate::specs::Sizes::short_numbers))]
fn short_numbers(frame: usize, coefs: usize) -> bool
    ensures { result ≡ short_numbers frame coefs }
{
    frame < FRAME || coefs < COEFS
}

// The same, or too few places for its pulses. post_load's `short_load` is this test too: one for both would be a public function of layout, with a definition
// there, for one line.
#[tactic(auto, unfolding(crate::specs::Sizes::short_with_pulses))]
fn short_with_pulses(frame: usize, coefs: usize, pulses: usize) -> bool
    ensures { result ≡ short_with_pulses frame coefs pulses }
{
    short_numbers(frame, coefs) || pulses < 320
}

// The frame of a record, put into the slices, which stand apart as the C interface lends them.
#[tactic(auto, using(crate::proofs::Sizes::long))]
fn put_record(
    r: &Record,
    rate: i32,
    subframes: i32,
    frame: &mut [i32],
    coefs: &mut [i16],
    pulses: &mut [i16],
)
    requires { short_with_pulses (length frame.old) (length coefs.old) (length pulses.old) ≡ false }
    ensures { (frame.new ≡ put_at frame.old 0 (frame_of rate subframes (recorded_in r.now.bytes.now)))
        × (coefs.new ≡ put_at coefs.old 0 (coefs_of (recorded_in r.now.bytes.now)))
        × (pulses.new ≡ put_at pulses.old 0 (pulses_of (recorded_in r.now.bytes.now))) }
{
    if !r.is_received() {
        copy_at(
            frame,
            0,
            &[0, rate, subframes, 0, 0, 0, 0, 0, 0, 0, 0, 0, 0, 0, 0, 0],
        );
        copy_at(coefs, 0, &[0; 68]);
        copy_at(pulses, 0, &[0; 320]);
        return;
    }
    let c = r.control();
    put_frame(frame, true, rate, subframes, r.params(), c);
    put_coefs(coefs, c, r.rows(), r.lines());
    copy_at(pulses, 0, &r.pulses());
}

// The judgement of post_recording_frame, and the slices.
fn frame_into(
    bytes: &[u8],
    number: usize,
    frame: &mut [i32],
    coefs: &mut [i16],
    pulses: &mut [i16],
) -> Result<(), Refusal>
    ensures { (result ≡ frame_judged bytes.now number frame.old coefs.old pulses.old)
        × (frame.new ≡ if_accepted result (put_at frame.old 0 (frame_of (rate_in bytes.now) (count_in bytes.now) (frame_at bytes.now number))) frame.old)
        × (coefs.new ≡ if_accepted result (put_at coefs.old 0 (coefs_of (frame_at bytes.now number))) coefs.old)
        × (pulses.new ≡ if_accepted result (put_at pulses.old 0 (pulses_of (frame_at bytes.now number))) pulses.old) }
{
    refuse_if(
        short_with_pulses(frame.len(), coefs.len(), pulses.len()),
        Refusal::Record,
    )?;
    let r = read(bytes)?;
    refuse_if((number == 0) | (r.frames < number), Refusal::Chain)?;
    let frames = r.frames_in(bytes);
    let record = frames.record(frames.records[number - 1]);
    put_record(&record, r.rate, r.subframes, frame, coefs, pulses);
    Ok(())
}

// A frame by its number, counted from 1 along the chain. C interface: each slice is a parameter.
pub fn post_recording_frame(
    bytes: &[u8],
    number: u32,
    frame: &mut [i32],
    coefs: &mut [i16],
    pulses: &mut [i16],
) -> i32
    ensures { record { answer = result; frame = frame.new; coefs = coefs.new; pulses = pulses.new }
        ≡ frame_call bytes.now number frame.old coefs.old pulses.old }
{
    code(frame_into(bytes, number as usize, frame, coefs, pulses))
}

// The count of samples, stored.
fn put_played(samples: usize, played: &mut [i32])
    requires { (samples ≤ 19200) × (1 ≤ length played.old) }
    ensures { played.new ≡ put_at played.old 0 (pos samples ∷ []) }
{
    copy_at(played, 0, &[samples as i32]);
}

// The judgement of post_recording_play, and the slices.
fn play_into(bytes: &[u8], output: &mut [i16], played: &mut [i32]) -> Result<(), Refusal>
    ensures { (result ≡ play_judged bytes.now output.old played.old)
        × (output.new ≡ if_accepted result (played_samples bytes.now ++ drop (length (played_samples bytes.now)) output.old) output.old)
        × (played.new ≡ if_accepted result (put_at played.old 0 (pos (length (played_samples bytes.now)) ∷ [])) played.old) }
{
    refuse_if(played.len() < 1, Refusal::Record)?;
    let p = play(bytes, output)?;
    put_played(p.samples, played);
    Ok(())
}

// The samples of all frames, and their count.
pub fn post_recording_play(bytes: &[u8], output: &mut [i16], played: &mut [i32]) -> i32
    ensures { record { answer = result; output = output.new; played = played.new } ≡ play_call bytes.now output.old played.old }
{
    code(play_into(bytes, output, played))
}

// A recording of no frames.
pub fn post_recording_begin(bytes: &mut [u8], rate: i32, subframes: i32) -> i32
    ensures { record { answer = result; bytes = bytes.new } ≡ begin_call bytes.old rate subframes }
{
    code(begin(bytes, rate, subframes))
}

// The judgement of post_recording_append, and the bytes. recorder's `append` makes this choice of a record, and load_recording's `append_drawn` of a draw: a
// trait of a frame's parts, each with its law, would be longer than the three.
fn append(
    bytes: &mut [u8],
    frames: usize,
    frame: &[i32],
    coefs: &[i16],
    pulses: &[i16],
) -> Result<(), Refusal>
    ensures { (result ≡ append_judged bytes.old frames frame.now coefs.now pulses.now)
        × (bytes.new ≡ if_accepted result (appended bytes.old frames (lent frame.now coefs.now pulses.now)) bytes.old) }
{
    refuse_if(short_numbers(frame.len(), coefs.len()), Refusal::Record)?;
    let numbers = FrameNumbers { numbers: frame };
    let rate = numbers.rate();
    let subframes = numbers.subframes();
    match numbers.frame() {
        Frame::Lost => append_lost(bytes, frames, rate, subframes),
        Frame::Received(q) => {
            let c = numbers.control(coefs);
            let coefs = CoefNumbers { coefs };
            append_received(
                bytes,
                frames,
                rate,
                subframes,
                q,
                c,
                coefs.rows(),
                coefs.lines(),
                pulses,
            )
        }
    }
}

// One frame more behind frames that are written.
pub fn post_recording_append(
    bytes: &mut [u8],
    frames: u32,
    frame: &[i32],
    coefs: &[i16],
    pulses: &[i16],
) -> i32
    ensures { record { answer = result; bytes = bytes.new } ≡ append_call bytes.old frames frame.now coefs.now pulses.now }
{
    code(append(bytes, frames as usize, frame, coefs, pulses))
}
