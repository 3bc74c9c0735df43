// Plays a recorded stream: standard input has the stream, standard output gets a WAV file, standard error the report.
// The report has the stream's rate and seconds; its last line counts the frames, if the whole stream was played, else it says why not.
#![tactic(auto)]

ghost use Rattle.std.specs.Prelude.{◌≡◌, ◌+◌, ◌≤◌, ◌<◌};
ghost use Rattle.play.specs.Play.{sound_of, how_of, total, counted_of};

use decode_frame::silk_decode_frame;
use decoder::{Answer, Frame, Settings, SilkDecoderState, set_up_with};
use edition::NEWER;
use input::fill;
use record::Record;
use refusal::Refusal;
use std::io::{self, Read, Write};
use stream::{Head, Told, samples_bytes, wav_header};

// What a record's frame is answered by, and its samples as bytes.
#[derive(Clone, Copy)]
struct Sound {
    answer: Result<Answer, Refusal>,
    bytes: [u8; 640],
}

fn played(s: SilkDecoderState, rate: i32, subframes: i32, r: &Record) -> Sound
    ensures { result ≡ sound_of s rate subframes r.now.bytes.now }
{
    let frame = r.frame();
    let c = r.control();
    let rows = r.rows();
    let lines = r.lines();
    let pulses = r.pulses();
    let mut xq = [0; 320];
    let answer = silk_decode_frame(s, rate, subframes, frame, c, rows, lines, &pulses, &mut xq);
    let bytes = samples_bytes(&xq);
    Sound { answer, bytes }
}

// What became of a record's frame. Not a Result of the frame: a received one brings its parameters, and three counts go by three names.
#[derive(Clone, Copy)]
enum Ended {
    Received,
    Concealed,
    Refused(Refusal),
}

fn how(frame: Frame, answer: Result<Answer, Refusal>) -> Ended
    ensures { result ≡ how_of frame answer }
{
    match answer {
        Err(refusal) => Ended::Refused(refusal),
        Ok(_) => match frame {
            Frame::Received(_) => Ended::Received,
            Frame::Lost => Ended::Concealed,
        },
    }
}

#[derive(Clone, Copy)]
struct Tally {
    received: u32,
    concealed: u32,
    refused: u32,
}

fn counted(t: Tally, e: Ended) -> Tally
    requires { total t < 4294967295 }
    ensures { (result ≡ counted_of t e) × (total result ≤ total t + 1) }
{
    let mut new = t;
    match e {
        Ended::Received => new.received += 1,
        Ended::Concealed => new.concealed += 1,
        Ended::Refused(_) => new.refused += 1,
    }
    new
}

fn play_records(
    input: &mut impl Read,
    out: &mut impl Write,
    err: &mut impl Write,
    s: SilkDecoderState,
    h: Head,
) -> io::Result<()> {
    let rate = i32::from(h.rate);
    let subframes = i32::from(h.subframes);
    let n = h.sample_bytes();
    let mut state = s;
    let mut t = Tally {
        received: 0,
        concealed: 0,
        refused: 0,
    };
    // The index is a record's number, which its message says: the records come out of the input.
    for i in 0..h.records {
        let bytes = match h.next_record(input, i)? {
            Ok(bytes) => bytes,
            Err(unread) => return writeln!(err, "{unread}"),
        };
        let r = Record { bytes: &bytes };
        let sound = played(state, rate, subframes, &r);
        if out.write_all(&sound.bytes[..n]).is_err() {
            return writeln!(err, "the WAV file could not be written");
        }
        match sound.answer {
            Ok(answer) => state = answer.state,
            Err(refusal) => {
                let number = refusal.number();
                writeln!(err, "frame {i} refused: {number} {refusal}")?;
            }
        }
        t = counted(t, how(r.frame(), sound.answer));
    }
    if fill(input, &mut [0; 1])? {
        return writeln!(err, "bytes follow the last record");
    }
    let received = t.received;
    let concealed = t.concealed;
    let refused = t.refused;
    writeln!(
        err,
        "{received} received, {concealed} concealed, {refused} refused"
    )
}

// A frame of 2 subframes has 10 ms, one of 4 has 20.
fn say_stream(err: &mut impl Write, h: Head) -> io::Result<()> {
    let frames = u64::from(h.records);
    let ms = if h.subframes == 2 {
        10 * frames
    } else {
        20 * frames
    };
    let rate = h.rate;
    let seconds = ms / 1000;
    let hundredths = ms / 10 % 100;
    writeln!(err, "{rate} kHz, {seconds}.{hundredths:02} s")
}

fn play(
    input: &mut impl Read,
    out: &mut impl Write,
    err: &mut impl Write,
    h: Head,
) -> io::Result<()> {
    let head = wav_header(1000 * u32::from(h.rate), h.samples);
    if out.write_all(&head).is_err() {
        return writeln!(err, "the WAV file could not be written");
    }
    // Not decoder's defaults, so that one that changes moves no stream: its samples are the Rust's, with no squelch and the newer edition.
    // Not playback's `set_up_for` with the same two either, which would bring the crates of yard recordings below this program.
    let settings = Settings {
        squelch: 0,
        edition: NEWER,
    };
    match set_up_with(i32::from(h.rate), i32::from(h.subframes), settings) {
        Ok(s) => play_records(input, out, err, s, h),
        Err(refusal) => writeln!(err, "no stream: {refusal}"),
    }
}

fn main(rt: HostRuntime) -> io::Result<()> {
    let mut input = rt.stdin();
    let mut out = rt.stdout();
    let mut err = rt.stderr();
    match Head::read(&mut input)? {
        Ok(h) => {
            say_stream(&mut err, h)?;
            play(&mut input, &mut out, &mut err, h)
        }
        Err(why) => {
            let told = Told {
                why,
                done: "played",
            };
            writeln!(err, "{told}")
        }
    }
}
