// The first frame whose loss alone brings a played sample beyond a limit in size. The state before each frame is kept, so that frames before a loss
// are not played again.
// Inner: every function.
// Rate, count and limit stay parameters: the definitions take them one by one, so that each clause below would take a struct of them apart, and
// frame_sound, which takes no limit, would take a part of it.
#![tactic(auto)]

ghost use Rattle.std.specs.Prelude.{◌≡◌, false, ◌&&◌, ◌∷◌, map, length};
ghost use Rattle.record.specs.Recorded.{lost, recorded_in};
ghost use Rattle.recording.specs.Frames.{recorded_at};
ghost use Rattle.culprit.specs.Search.{was_received, passes, is_culprit, first_from};

use decoder::SilkDecoderState;
use heard::{frame_heard, lost_heard};
use playback::frame_sound;
use record::Record;
use recording::Frames;

// The frames bring a sample beyond the limit.
pub fn passes(s: SilkDecoderState, khz: i32, nb_subfr: i32, frames: &Frames, limit: i32) -> bool
    ensures { result ≡ passes limit khz nb_subfr s (map (recorded_at frames.now.bytes.now) frames.now.records.now) }
{
    let mut state = s;
    for i in frames.records {
        let h = frame_heard(state, khz, nb_subfr, &frames.record(*i), limit);
        if h.loud {
            return true;
        }
        state = h.state;
    }
    false
}

// A loss, then the frames behind it.
fn lost_passes(s: SilkDecoderState, khz: i32, nb_subfr: i32, behind: &Frames, limit: i32) -> bool
    ensures { result ≡ passes limit khz nb_subfr s (lost ∷ map (recorded_at behind.now.bytes.now) behind.now.records.now) }
{
    let h = lost_heard(s, khz, nb_subfr, limit);
    h.loud || passes(h.state, khz, nb_subfr, behind, limit)
}

// The same of a record's frame, if it was received; s is the state before it.
#[tactic(auto, using(word::proofs::Words::kept, crate::proofs::Laws::kind_in))]
fn is_culprit(
    s: SilkDecoderState,
    khz: i32,
    nb_subfr: i32,
    r: &Record,
    behind: &Frames,
    limit: i32,
) -> bool
    ensures { result ≡ (was_received (recorded_in r.now.bytes.now) && passes limit khz nb_subfr s (lost ∷ map (recorded_at behind.now.bytes.now) behind.now.records.now)) }
{
    r.is_received() && lost_passes(s, khz, nb_subfr, behind, limit)
}

// The first of the frames, counted from 1, if as recorded they don't pass the limit.
pub fn first_culprit(
    s: SilkDecoderState,
    khz: i32,
    nb_subfr: i32,
    frames: &Frames,
    limit: i32,
) -> Option<usize>
    requires { passes limit khz nb_subfr s (map (recorded_at frames.now.bytes.now) frames.now.records.now) ≡ false }
    ensures { result ≡ first_from (is_culprit limit khz nb_subfr s (map (recorded_at frames.now.bytes.now) frames.now.records.now)) 0 (length frames.now.records.now) }
{
    let mut state = s;
    for (k, i) in frames.records.iter().enumerate() {
        let record = frames.record(*i);
        let behind = Frames {
            bytes: frames.bytes,
            records: &frames.records[k + 1..],
        };
        if is_culprit(state, khz, nb_subfr, &record, &behind, limit) {
            return Some(k + 1);
        }
        let t = frame_sound(state, khz, nb_subfr, &record);
        state = t.state;
    }
    None
}
