// The functions that a Rust program links, and a C program by post_c.
// A contract is one equation: the answer and the slices at exit are those of the call's definition.
#![tactic(auto)]

ghost use Rattle.std.specs.Prelude.{◌≡◌, [], pos, length};
ghost use Rattle.shape.specs.Shape.{shape};
ghost use Rattle.decoder.specs.Settings.{default_settings};
ghost use Rattle.decoder.specs.Played.{played_length};
ghost use Rattle.slices.specs.Slices.{slices};
ghost use Rattle.post.specs.Stages.{set_up_call, frame_call, core_call, plc_received_call, plc_lost_call, glue_call, noise_call};

use decoder::Settings;
use layout::frame::{CoefNumbers, FrameNumbers, FrameSlices, short_call, short_frame};
use layout::short_state;
use layout::state::StateSlices;
use refusal::code;

#[tactic(auto, using(layout::proofs::Slices::state_long), unfolding(crate::specs::Stages::set_up_call, crate::specs::Calls::called))]
fn set_up(
    rate: i32,
    subframes: i32,
    settings: Settings,
    words: &mut [i32],
    halves: &mut [i16],
) -> i32
    ensures { record { answer = result; after = slices words.new halves.new [] [] [] [] }
        ≡ set_up_call rate subframes settings (slices words.old halves.old [] [] [] []) }
{
    if short_state(words.len(), halves.len()) {
        return -1;
    }
    let mut state = StateSlices { words, halves };
    code(stages::set_up(rate, subframes, settings, &mut state))
}

// Set-up with the default settings.
pub fn post_set_up(rate: i32, subframes: i32, words: &mut [i32], halves: &mut [i16]) -> i32
    ensures { record { answer = result; after = slices words.new halves.new [] [] [] [] }
        ≡ set_up_call rate subframes default_settings (slices words.old halves.old [] [] [] []) }
{
    let settings = decoder::default_settings();
    set_up(rate, subframes, settings, words, halves)
}

pub fn post_set_up_with(
    rate: i32,
    subframes: i32,
    squelch: i32,
    edition: i32,
    words: &mut [i32],
    halves: &mut [i16],
) -> i32
    ensures { record { answer = result; after = slices words.new halves.new [] [] [] [] }
        ≡ set_up_call rate subframes (record { squelch = squelch; edition = edition }) (slices words.old halves.old [] [] [] []) }
{
    let settings = Settings { squelch, edition };
    set_up(rate, subframes, settings, words, halves)
}

// post_core has this body but for the call in its last line: one function of both would take that call as a closure, and its contract beside it.
#[tactic(auto, using(layout::proofs::Slices::call_long), unfolding(crate::specs::Stages::frame_call, crate::specs::Calls::called))]
pub fn post_frame(
    words: &mut [i32],
    halves: &mut [i16],
    frame: &mut [i32],
    coefs: &mut [i16],
    pulses: &[i16],
    output: &mut [i16],
) -> i32
    ensures { record { answer = result; after = slices words.new halves.new frame.new coefs.new pulses.now output.new }
        ≡ frame_call (slices words.old halves.old frame.old coefs.old pulses.now output.old) }
{
    if short_call(words.len(), halves.len(), frame.len(), coefs.len()) {
        return -1;
    }
    let mut state = StateSlices { words, halves };
    let mut frame = FrameSlices {
        numbers: frame,
        coefs,
    };
    code(slices::play_frame(&mut state, &mut frame, pulses, output))
}

pub fn post_played(rate: i32, subframes: i32, output: &[i16]) -> i32
    ensures { result ≡ pos (played_length (shape rate subframes) (length output.now)) }
{
    let part = decoder::played(rate, subframes, output);
    part.len() as i32
}

#[tactic(auto, using(layout::proofs::Slices::call_long), unfolding(crate::specs::Stages::core_call, crate::specs::Calls::called))]
pub fn post_core(
    words: &mut [i32],
    halves: &mut [i16],
    frame: &mut [i32],
    coefs: &mut [i16],
    pulses: &[i16],
    output: &mut [i16],
) -> i32
    ensures { record { answer = result; after = slices words.new halves.new frame.new coefs.new pulses.now output.new }
        ≡ core_call (slices words.old halves.old frame.old coefs.old pulses.now output.old) }
{
    if short_call(words.len(), halves.len(), frame.len(), coefs.len()) {
        return -1;
    }
    let mut state = StateSlices { words, halves };
    let mut frame = FrameSlices {
        numbers: frame,
        coefs,
    };
    code(stages::core(&mut state, &mut frame, pulses, output))
}

#[tactic(auto, using(layout::proofs::Slices::call_long), unfolding(crate::specs::Stages::plc_received_call, crate::specs::Calls::called))]
pub fn post_plc_received(words: &mut [i32], halves: &mut [i16], frame: &[i32], coefs: &[i16]) -> i32
    ensures { record { answer = result; after = slices words.new halves.new frame.now coefs.now [] [] }
        ≡ plc_received_call (slices words.old halves.old frame.now coefs.now [] []) }
{
    if short_call(words.len(), halves.len(), frame.len(), coefs.len()) {
        return -1;
    }
    let mut state = StateSlices { words, halves };
    let frame = FrameNumbers { numbers: frame };
    let coefs = CoefNumbers { coefs };
    code(stages::plc_received(&mut state, frame, coefs))
}

#[tactic(auto, using(layout::proofs::Slices::frame_long), unfolding(crate::specs::Stages::plc_lost_call, crate::specs::Calls::called))]
pub fn post_plc_lost(
    words: &mut [i32],
    halves: &mut [i16],
    frame: &mut [i32],
    output: &mut [i16],
) -> i32
    ensures { record { answer = result; after = slices words.new halves.new frame.new [] [] output.new }
        ≡ plc_lost_call (slices words.old halves.old frame.old [] [] output.old) }
{
    if short_frame(words.len(), halves.len(), frame.len()) {
        return -1;
    }
    let mut state = StateSlices { words, halves };
    code(stages::plc_lost(&mut state, frame, output))
}

#[tactic(auto, using(layout::proofs::Slices::state_long), unfolding(crate::specs::Stages::glue_call, crate::specs::Calls::called))]
pub fn post_glue(words: &mut [i32], halves: &mut [i16], buffer: &mut [i16], n: usize) -> i32
    ensures { record { answer = result; after = slices words.new halves.new [] [] [] buffer.new }
        ≡ glue_call n (slices words.old halves.old [] [] [] buffer.old) }
{
    if short_state(words.len(), halves.len()) {
        return -1;
    }
    let mut state = StateSlices { words, halves };
    code(stages::glue(&mut state, buffer, n))
}

#[tactic(auto, using(layout::proofs::Slices::frame_long), unfolding(crate::specs::Stages::noise_call, crate::specs::Calls::called))]
pub fn post_noise(
    words: &mut [i32],
    halves: &mut [i16],
    frame: &[i32],
    buffer: &mut [i16],
    n: usize,
) -> i32
    ensures { record { answer = result; after = slices words.new halves.new frame.now [] [] buffer.new }
        ≡ noise_call n (slices words.old halves.old frame.now [] [] buffer.old) }
{
    if short_frame(words.len(), halves.len(), frame.len()) {
        return -1;
    }
    let mut state = StateSlices { words, halves };
    let frame = FrameNumbers { numbers: frame };
    code(stages::noise(&mut state, frame, buffer, n))
}
