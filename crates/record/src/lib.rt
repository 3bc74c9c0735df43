// A frame's 817 bytes, from its kind on, in a recorded stream's record and in a yard recording's, and what is heard of it.
// Inner: every function but both_ways.
#![tactic(auto)]

ghost use Rattle.std.specs.Prelude.{◌≡◌, ◌+◌, ◌≤◌, length};
ghost use Rattle.le.specs.Bytes.{with_bytes};
ghost use Rattle.record.specs.Record.{is_received, params_in, frame_in, control_in, rows_in, lines_in, pulses_in};
ghost use Rattle.record.specs.Recorded.{received, small_bytes, record_bytes};
ghost use Rattle.record.specs.Claims.{WrittenIsRead, ReadIsWritten};

use decoder::{Frame, Params, Signal, SilkDecoderControl, SilkDecoderState};
use le::{Word, put_bytes, put_words, words_at};

// The count of a record's bytes.
pub const SIZE: usize = 817;

// A view of a record's bytes; what is behind them is not read.
#[derive(Clone, Copy)]
pub struct Record<'a> {
    pub bytes: &'a [u8],
    pub ghost whole: { 817 ≤ length bytes.now },
}

impl Record<'_> {
    pub fn params(&self) -> Params
        ensures { result ≡ params_in self.now.bytes.now }
    {
        let b = self.bytes;
        let signal = Signal::from(i8::at(b, 1));
        Params {
            signal,
            quant_offset_type: i8::at(b, 2),
            nlsf_interp_coef_q2: i8::at(b, 3),
            seed: i8::at(b, 4),
        }
    }

    pub fn is_received(&self) -> bool
        ensures { result ≡ is_received self.now.bytes.now }
    {
        self.bytes[0] == 1
    }

    #[tactic(auto, unfolding(crate::specs::Record::frame_in))]
    pub fn frame(&self) -> Frame
        ensures { result ≡ frame_in self.now.bytes.now }
    {
        if self.is_received() {
            return Frame::Received(self.params());
        }
        Frame::Lost
    }

    #[tactic(auto, using(crate::proofs::Parts::words_got, word::proofs::Words::kept), unfolding(crate::specs::Record::control_in))]
    pub fn control(&self) -> SilkDecoderControl
        ensures { result ≡ control_in self.now.bytes.now }
    {
        let b = self.bytes;
        SilkDecoderControl {
            pitch_l: words_at(b, 5),
            gains_q16: words_at(b, 21),
            ltp_coef_q14: words_at(b, 101),
            ltp_scale_q14: i32::at(b, 141),
        }
    }

    // The coefficient rows.
    #[tactic(auto, using(crate::proofs::Parts::words_got), unfolding(crate::specs::Record::rows_in))]
    pub fn rows(&self) -> [[i16; 16]; 2]
        ensures { result ≡ rows_in self.now.bytes.now }
    {
        [words_at(self.bytes, 37), words_at(self.bytes, 69)]
    }

    #[tactic(auto, using(crate::proofs::Parts::words_got), unfolding(crate::specs::Record::lines_in))]
    pub fn lines(&self) -> [i16; 16]
        ensures { result ≡ lines_in self.now.bytes.now }
    {
        words_at(self.bytes, 145)
    }

    #[tactic(auto, using(crate::proofs::Parts::words_got), unfolding(crate::specs::Record::pulses_in))]
    pub fn pulses(&self) -> [i16; 320]
        ensures { result ≡ pulses_in self.now.bytes.now }
    {
        words_at(self.bytes, 177)
    }
}

// What is heard of a recorded frame: the state that it leaves, and its samples, of which the first 5rn are played.
#[derive(Clone, Copy)]
pub struct Sound {
    pub state: SilkDecoderState,
    pub samples: [i16; 320],
}

// The kind and the small numbers of a received frame.
fn put_small(to: &mut [u8], at: usize, q: Params)
    requires { at + 5 ≤ length to.old }
    ensures { to.new ≡ with_bytes to.old at (small_bytes q) }
{
    let signal = q.signal;
    let small = [
        1,
        i8::from(signal).cast_unsigned(),
        q.quant_offset_type.cast_unsigned(),
        q.nlsf_interp_coef_q2.cast_unsigned(),
        q.seed.cast_unsigned(),
    ];
    put_bytes(to, at, &small);
}

// A received frame's bytes, stored from place at on, by its parts as document 01 and each caller have them.
pub fn put_received(
    to: &mut [u8],
    at: usize,
    q: Params,
    c: SilkDecoderControl,
    rows: [[i16; 16]; 2],
    lines: [i16; 16],
    pulses: &[i16],
)
    requires { (at + 817 ≤ length to.old) × (length pulses.now ≡ 320) }
    ensures { to.new ≡ with_bytes to.old at (record_bytes (received q c rows lines pulses.now)) }
{
    let lags = c.pitch_l;
    let gains = c.gains_q16;
    let taps = c.ltp_coef_q14;
    put_small(to, at, q);
    put_words(to, at + 5, &lags);
    put_words(to, at + 21, &gains);
    put_words(to, at + 37, &rows[0]);
    put_words(to, at + 69, &rows[1]);
    put_words(to, at + 101, &taps);
    c.ltp_scale_q14.put(to, at + 141);
    put_words(to, at + 145, &lines);
    put_words(to, at + 177, pulses);
}

// What is written is read, a signal type being its number, and what is read is written.
// Its law stands in an answer: the search doesn't take it by `using`.
pub fn both_ways()
    ensures { WrittenIsRead × ReadIsWritten }
{}
