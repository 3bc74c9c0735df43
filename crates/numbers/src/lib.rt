// A frame put into the numbers in which every exported call takes one.
// Inner: every function.
#![tactic(auto)]

ghost use Rattle.std.specs.Prelude.{◌≡◌, ◌++◌, ◌≤◌, length};
ghost use Rattle.sigproc.specs.Place.{put_at};
ghost use Rattle.numbers.specs.Numbers.{small_numbers, frame_numbers, coef_numbers};

use decoder::{Params, SilkDecoderControl};
use sigproc::copy_at;

fn small_numbers(received: bool, rate: i32, subframes: i32, q: Params) -> [i32; 7]
    ensures { result ≡ small_numbers received rate subframes q }
{
    [
        i32::from(received),
        rate,
        subframes,
        i32::from(i8::from(q.signal)),
        i32::from(q.quant_offset_type),
        i32::from(q.nlsf_interp_coef_q2),
        i32::from(q.seed),
    ]
}

// A flag beside the parameters, and no Frame: a load's lost frame has its drawn parameters too, and is lent with them.
pub fn put_frame(
    frame: &mut [i32],
    received: bool,
    rate: i32,
    subframes: i32,
    q: Params,
    c: SilkDecoderControl,
)
    requires { 16 ≤ length frame.old }
    ensures { frame.new ≡ put_at frame.old 0 (frame_numbers received rate subframes q c) }
{
    copy_at(frame, 0, &small_numbers(received, rate, subframes, q));
    copy_at(frame, 7, &c.pitch_l);
    copy_at(frame, 11, &c.gains_q16);
    copy_at(frame, 15, &[c.ltp_scale_q14]);
}

// An array tells its length to a proof as an argument, and not as an element of rows.
fn put_lists(
    coefs: &mut [i16],
    taps: [i16; 20],
    first: [i16; 16],
    second: [i16; 16],
    lines: [i16; 16],
)
    requires { 68 ≤ length coefs.old }
    ensures { coefs.new ≡ put_at coefs.old 0 (taps ++ first ++ second ++ lines) }
{
    copy_at(coefs, 0, &taps);
    copy_at(coefs, 20, &first);
    copy_at(coefs, 36, &second);
    copy_at(coefs, 52, &lines);
}

#[tactic(auto, unfolding(crate::specs::Numbers::coef_numbers))]
pub fn put_coefs(coefs: &mut [i16], c: SilkDecoderControl, rows: [[i16; 16]; 2], lines: [i16; 16])
    requires { 68 ≤ length coefs.old }
    ensures { coefs.new ≡ put_at coefs.old 0 (coef_numbers c rows lines) }
{
    put_lists(coefs, c.ltp_coef_q14, rows[0], rows[1], lines);
}
