// A frame in numbers: `frame` and `coefs`.
// Inner: every function.
ghost use Rattle.std.specs.Prelude.{◌≡◌, ◌≤◌, length};
ghost use Rattle.layout.specs.Frame.{FRAME, COEFS, short_frame, short_call, small, params_in, frame_in, rate_in, subframes_in, control_in, tapless, rows_in, lines_in, with_lags, with_taps};

use crate::{part, short_state};
use decoder::{Frame, Params, Signal, SilkDecoderControl};
use sigproc::copy_at;

pub const FRAME: usize = 16;

pub const COEFS: usize = 68;

// Too few words or halves for a state, or numbers for a frame.
#[tactic(auto, unfolding(crate::specs::Frame::short_frame))]
pub fn short_frame(words: usize, halves: usize, frame: usize) -> bool
    ensures { result ≡ short_frame words halves frame }
{
    short_state(words, halves) || frame < FRAME
}

// The same, or too few coefficients.
#[tactic(auto, unfolding(crate::specs::Frame::short_call))]
pub fn short_call(words: usize, halves: usize, frame: usize, coefs: usize) -> bool
    ensures { result ≡ short_call words halves frame coefs }
{
    short_frame(words, halves, frame) || coefs < COEFS
}

// Three numbers are read so. Not an Option: for a number outside 8 bits -1 stands, and row 5 refuses both alike.
#[tactic(auto, unfolding(crate::specs::Frame::small))]
fn small(z: i32) -> i8
    ensures { result ≡ small z }
{
    i8::try_from(z).unwrap_or(-1)
}

// A frame in numbers, to be read.
#[derive(Clone, Copy)]
pub struct FrameNumbers<'a> {
    pub numbers: &'a [i32],
    pub ghost long: { FRAME ≤ length numbers.now },
}

impl FrameNumbers<'_> {
    // The small numbers of a received frame.
    #[tactic(auto, unfolding(crate::specs::Frame::params_in))]
    pub fn params(self) -> Params
        ensures { result ≡ params_in self.entry.numbers.now }
    {
        let signal = Signal::from(small(self.numbers[3]));
        // The seed as le's `low_byte`, and then signed: le is no library of this crate, and would be one for this line alone.
        Params {
            signal,
            quant_offset_type: small(self.numbers[4]),
            nlsf_interp_coef_q2: small(self.numbers[5]),
            seed: ((self.numbers[6] & 0xff) as u8).cast_signed(),
        }
    }

    // A frame, received or lost.
    #[tactic(auto, unfolding(crate::specs::Frame::frame_in))]
    pub fn frame(self) -> Frame
        ensures { result ≡ frame_in self.entry.numbers.now }
    {
        if self.numbers[0] == 0 {
            return Frame::Lost;
        }
        let q = self.params();
        Frame::Received(q)
    }

    // The rate that comes with a frame.
    #[tactic(auto, unfolding(crate::specs::Frame::rate_in))]
    pub fn rate(self) -> i32
        ensures { result ≡ rate_in self.entry.numbers.now }
    {
        self.numbers[1]
    }

    // The count of subframes that comes with it.
    #[tactic(auto, unfolding(crate::specs::Frame::subframes_in))]
    pub fn subframes(self) -> i32
        ensures { result ≡ subframes_in self.entry.numbers.now }
    {
        self.numbers[2]
    }

    // The description; of coefs the taps alone are read.
    #[tactic(auto, unfolding(crate::specs::Frame::control_in))]
    pub fn control(self, coefs: &[i16]) -> SilkDecoderControl
        requires { 20 ≤ length coefs.now }
        ensures { result ≡ control_in self.entry.numbers.now coefs.now }
    {
        let pitch_l = part(self.numbers, 7);
        let gains_q16 = part(self.numbers, 11);
        let ltp_coef_q14 = part(coefs, 0);
        SilkDecoderControl {
            pitch_l,
            gains_q16,
            ltp_coef_q14,
            ltp_scale_q14: self.numbers[15],
        }
    }

    // A description without taps, of which concealment and noise read none.
    #[tactic(auto, unfolding(crate::specs::Frame::tapless))]
    pub fn tapless(self) -> SilkDecoderControl
        ensures { result ≡ tapless self.entry.numbers.now }
    {
        let taps = [0i16; 20];
        self.control(&taps)
    }
}

// A frame's coefficients, to be read.
#[derive(Clone, Copy)]
pub struct CoefNumbers<'a> {
    pub coefs: &'a [i16],
    pub ghost long: { COEFS ≤ length coefs.now },
}

impl CoefNumbers<'_> {
    // The two coefficient rows.
    #[tactic(auto, unfolding(crate::specs::Frame::rows_in))]
    pub fn rows(self) -> [[i16; 16]; 2]
        ensures { result ≡ rows_in self.entry.coefs.now }
    {
        let first = part(self.coefs, 20);
        let second = part(self.coefs, 36);
        [first, second]
    }

    pub fn lines(self) -> [i16; 16]
        ensures { result ≡ lines_in self.entry.coefs.now }
    {
        part(self.coefs, 52)
    }
}

// The lags of a new description stored.
#[tactic(auto, unfolding(crate::specs::Frame::with_lags))]
pub fn put_lags(c: &SilkDecoderControl, frame: &mut [i32])
    requires { FRAME ≤ length frame.old }
    ensures { frame.new ≡ with_lags frame.old c.now }
{
    copy_at(frame, 7, &c.pitch_l);
}

// The taps, likewise.
#[tactic(auto, unfolding(crate::specs::Frame::with_taps))]
pub fn put_taps(c: &SilkDecoderControl, coefs: &mut [i16])
    requires { COEFS ≤ length coefs.old }
    ensures { coefs.new ≡ with_taps coefs.old c.now }
{
    copy_at(coefs, 0, &c.ltp_coef_q14);
}

// A frame's numbers and coefficients, to be read and written.
#[derive(Drop)]
pub struct FrameSlices<'a> {
    pub numbers: &'a mut [i32],
    pub coefs: &'a mut [i16],
    pub ghost numbers_long: { FRAME ≤ length numbers.now },
    pub ghost coefs_long: { COEFS ≤ length coefs.now },
}

impl FrameSlices<'_> {
    ghost use Rattle.layout.specs.Lent.{SameFrame};

    pub fn numbers(&self) -> FrameNumbers<'_>
        ensures { result.numbers.now ≡ self.now.numbers.now }
    {
        FrameNumbers {
            numbers: self.numbers,
        }
    }

    pub fn coefs(&self) -> CoefNumbers<'_>
        ensures { result.coefs.now ≡ self.now.coefs.now }
    {
        CoefNumbers { coefs: self.coefs }
    }

    // The lags and the taps of a new description stored.
    pub fn put_lags_and_taps(&mut self, c: &SilkDecoderControl)
        ensures stored { (self.new.numbers.now ≡ with_lags self.old.numbers.now c.now) × (self.new.coefs.now ≡ with_taps self.old.coefs.now c.now) }
        ensures same_reference { SameFrame self.old self.new }
    {
        put_lags(c, self.numbers);
        put_taps(c, self.coefs);
    }
}
