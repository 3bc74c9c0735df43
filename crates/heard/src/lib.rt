// A recorded frame played on a state, and whether a sample of it is beyond a limit in size.
// Inner: every function.
// Rate and count stay numbers: the frame's call judges them by rows 1 and 2, and a FrameShape holds only what these let pass.
#![tactic(auto)]

ghost use Rattle.std.specs.Prelude.{◌≡◌};
ghost use Rattle.record.specs.Recorded.{lost, recorded_in};
ghost use Rattle.playback.specs.Playback.{call_of};
ghost use Rattle.heard.specs.Loud.{any_beyond, heard_in, heard_of};

use decoder::SilkDecoderState;
use playback::{frame_sound, lost_sound};
use record::{Record, Sound};
use shape::frame_length;

// The state stays beside the flag: `heard_of` says a loud frame's state too, and a promise is not to shrink.
#[derive(Clone, Copy)]
pub struct Heard {
    pub state: SilkDecoderState,
    pub loud: bool,
}

#[tactic(auto, unfolding(crate::specs::Loud::any_beyond, crate::specs::Loud::is_beyond))]
fn any_beyond(limit: i32, xs: &[i16]) -> bool
    ensures { result ≡ any_beyond limit xs.now }
{
    xs.iter().any(|x| limit < i32::from(x.unsigned_abs()))
}

// A frame's state, and whether its samples have one.
#[tactic(auto, using(shape::proofs::Shapes::frame_le))]
fn heard_in(limit: i32, khz: i32, nb_subfr: i32, t: Sound) -> Heard
    ensures { result ≡ heard_in limit khz nb_subfr t }
{
    let n = frame_length(khz, nb_subfr);
    let state = t.state;
    let loud = any_beyond(limit, &t.samples[..n]);
    Heard { state, loud }
}

// A lost frame.
pub fn lost_heard(s: SilkDecoderState, khz: i32, nb_subfr: i32, limit: i32) -> Heard
    ensures { result ≡ heard_of limit s (call_of khz nb_subfr lost) }
{
    heard_in(limit, khz, nb_subfr, lost_sound(s, khz, nb_subfr))
}

// The frame of a record.
pub fn frame_heard(s: SilkDecoderState, khz: i32, nb_subfr: i32, r: &Record, limit: i32) -> Heard
    ensures { result ≡ heard_of limit s (call_of khz nb_subfr (recorded_in r.now.bytes.now)) }
{
    heard_in(limit, khz, nb_subfr, frame_sound(s, khz, nb_subfr, r))
}
