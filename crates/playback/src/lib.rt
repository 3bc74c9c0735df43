// Yard recordings: the player.
// Inner: every function but play and recording_plays.
// Rate and count stay numbers: the frame's call judges them by rows 1 and 2, and a FrameShape holds only what these let pass.
#![tactic(auto)]

ghost use Rattle.std.specs.Prelude.{◌≡◌, ◌++◌, map, ◌*◌, ◌≤◌, IfOk, length, drop};
ghost use Rattle.decoder.specs.SetUp.{set_up_with};
ghost use Rattle.record.specs.Recorded.{lost, recorded_in};
ghost use Rattle.recording.specs.Frames.{recorded_at};
ghost use Rattle.decode_frame.specs.Answer.{state_left};
ghost use Rattle.playback.specs.Playback.{plain, call_of, sound_of, samples_from, received_in, play_of};
ghost use Rattle.playback.specs.Claims.{RecordingPlays};

use decode_frame::{lost_frame, received_frame};
use decoder::{Answer, Settings, SilkDecoderControl, SilkDecoderState, set_up_with};
use edition::NEWER;
use record::{Record, Sound};
use recording::{Frames, read};
use refusal::{Refusal, refuse_if};
use sigproc::copy_at;

// The state that a call returns, or, refused, leaves.
fn state_left(s: SilkDecoderState, answer: Result<Answer, Refusal>) -> SilkDecoderState
    ensures { result ≡ state_left s answer }
{
    match answer {
        Ok(a) => a.state,
        Err(_) => s,
    }
}

pub fn lost_sound(s: SilkDecoderState, rate: i32, subframes: i32) -> Sound
    ensures { result ≡ sound_of s (call_of rate subframes lost) }
{
    let mut samples = [0; 320];
    let c = SilkDecoderControl {
        pitch_l: [0; 4],
        gains_q16: [0; 4],
        ltp_coef_q14: [0; 20],
        ltp_scale_q14: 0,
    };
    let answer = lost_frame(s, rate, subframes, c, &mut samples);
    let state = state_left(s, answer);
    Sound { state, samples }
}

// The frame of a record.
pub fn frame_sound(s: SilkDecoderState, rate: i32, subframes: i32, r: &Record) -> Sound
    ensures { result ≡ sound_of s (call_of rate subframes (recorded_in r.now.bytes.now)) }
{
    if !r.is_received() {
        return lost_sound(s, rate, subframes);
    }
    let q = r.params();
    let c = r.control();
    let rows = r.rows();
    let lines = r.lines();
    let pulses = r.pulses();
    let mut samples = [0; 320];
    let answer = received_frame(s, rate, subframes, q, c, rows, lines, &pulses, &mut samples);
    let state = state_left(s, answer);
    Sound { state, samples }
}

// Frames from a state: the count of samples that they play.
fn play_frames(
    s: SilkDecoderState,
    rate: i32,
    subframes: i32,
    frames: &Frames,
    output: &mut [i16],
) -> usize
    requires { 320 * length frames.now.records.now ≤ length output.old }
    ensures { (result ≡ length (samples_from rate subframes s (map (recorded_at frames.now.bytes.now) frames.now.records.now)))
        × (output.new ≡ samples_from rate subframes s (map (recorded_at frames.now.bytes.now) frames.now.records.now) ++ drop result output.old)
        × (result ≤ 320 * length frames.now.records.now) }
{
    let size = shape::frame_length(rate, subframes);
    let mut state = s;
    for (k, i) in frames.records.iter().enumerate() {
        let t = frame_sound(state, rate, subframes, &frames.record(*i));
        copy_at(output, k * size, &t.samples[..size]);
        state = t.state;
    }
    frames.records.len() * size
}

// The received ones among frames.
fn received_in(frames: &Frames) -> usize
    ensures { (result ≡ received_in (map (recorded_at frames.now.bytes.now) frames.now.records.now)) × (result ≤ length frames.now.records.now) }
{
    frames
        .records
        .iter()
        .filter(|i| frames.record(**i).is_received())
        .count()
}

// A recording's post; its settings stand here, not decoder::set_up's, so that a default that changes moves no recording.
pub fn set_up_for(rate: i32, subframes: i32) -> Result<SilkDecoderState, Refusal>
    ensures { result ≡ set_up_with rate subframes plain }
{
    let settings = Settings {
        squelch: 0,
        edition: NEWER,
    };
    set_up_with(rate, subframes, settings)
}

// The frames received and concealed, and the samples.
#[derive(Clone, Copy)]
pub struct Played {
    pub received: usize,
    pub concealed: usize,
    pub samples: usize,
}

pub fn play(bytes: &[u8], output: &mut [i16]) -> Result<Played, Refusal>
    ensures { (record { answer = result; output = output.new } ≡ play_of bytes.now output.old) × IfOk result (λ p. p.samples ≤ 19200) }
{
    let most = 320 * (bytes.len() / 1024).saturating_sub(1);
    refuse_if(output.len() < most, Refusal::Record)?;
    let r = read(bytes)?;
    let s = set_up_for(r.rate, r.subframes)?;
    let frames = r.frames_in(bytes);
    let samples = play_frames(s, r.rate, r.subframes, &frames, output);
    let received = received_in(&frames);
    Ok(Played {
        received,
        concealed: r.frames - received,
        samples,
    })
}

// Every frame of an accepted recording is played.
// Its law stands in an answer: the search doesn't take it by `using`.
pub fn recording_plays()
    ensures { RecordingPlays }
{}
