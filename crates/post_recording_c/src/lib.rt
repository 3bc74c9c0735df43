// The functions of recordings that a Rust or C program links. Each is one call of crate `post_recording` or `post_single_loss`, with its contract.
// Only a static library exports, and no crate can depend on one, so that each stands again.
#![tactic(auto)]

ghost use Rattle.std.specs.Prelude.{◌≡◌};
ghost use Rattle.post_recording.specs.Reading.{read_call, frame_call, play_call};
ghost use Rattle.post_recording.specs.Writing.{begin_call, append_call};
ghost use Rattle.post_single_loss.specs.Call.{single_loss_call};

// Rate, subframes, count of frames, and the records of the frames.
#[unsafe(no_mangle)]
pub extern "C" fn post_recording_read(bytes: &[u8], head: &mut [i32]) -> i32
    ensures { record { answer = result; head = head.new } ≡ read_call bytes.now head.old }
{
    post_recording::post_recording_read(bytes, head)
}

// A frame by its number, counted from 1 along the chain.
#[unsafe(no_mangle)]
pub extern "C" fn post_recording_frame(
    bytes: &[u8],
    number: u32,
    frame: &mut [i32],
    coefs: &mut [i16],
    pulses: &mut [i16],
) -> i32
    ensures { record { answer = result; frame = frame.new; coefs = coefs.new; pulses = pulses.new }
        ≡ frame_call bytes.now number frame.old coefs.old pulses.old }
{
    post_recording::post_recording_frame(bytes, number, frame, coefs, pulses)
}

// A recording of no frames.
#[unsafe(no_mangle)]
pub extern "C" fn post_recording_begin(bytes: &mut [u8], rate: i32, subframes: i32) -> i32
    ensures { record { answer = result; bytes = bytes.new } ≡ begin_call bytes.old rate subframes }
{
    post_recording::post_recording_begin(bytes, rate, subframes)
}

// One frame more behind frames that are written.
#[unsafe(no_mangle)]
pub extern "C" fn post_recording_append(
    bytes: &mut [u8],
    frames: u32,
    frame: &[i32],
    coefs: &[i16],
    pulses: &[i16],
) -> i32
    ensures { record { answer = result; bytes = bytes.new } ≡ append_call bytes.old frames frame.now coefs.now pulses.now }
{
    post_recording::post_recording_append(bytes, frames, frame, coefs, pulses)
}

// The samples of all frames, and their count.
#[unsafe(no_mangle)]
pub extern "C" fn post_recording_play(bytes: &[u8], output: &mut [i16], played: &mut [i32]) -> i32
    ensures { record { answer = result; output = output.new; played = played.new } ≡ play_call bytes.now output.old played.old }
{
    post_recording::post_recording_play(bytes, output, played)
}

// The number of the first frame whose loss alone brings a sample beyond the limit, 0 if there is none.
#[unsafe(no_mangle)]
pub extern "C" fn post_single_loss(bytes: &[u8], limit: i32, number: &mut [i32]) -> i32
    ensures { record { answer = result; number = number.new } ≡ single_loss_call bytes.now limit number.old }
{
    post_single_loss::post_single_loss(bytes, limit, number)
}
