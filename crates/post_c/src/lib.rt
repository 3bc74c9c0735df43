// The functions that a C program links: each is the function of post with the same name.
// Only a static library exports, and no crate can depend on one, so that each function stands again with its clauses.
#![tactic(auto)]

ghost use Rattle.std.specs.Prelude.{◌≡◌, [], pos, length};
ghost use Rattle.shape.specs.Shape.{shape};
ghost use Rattle.decoder.specs.Settings.{default_settings};
ghost use Rattle.decoder.specs.Played.{played_length};
ghost use Rattle.slices.specs.Slices.{slices};
ghost use Rattle.post.specs.Stages.{set_up_call, frame_call, core_call, plc_received_call, plc_lost_call, glue_call, noise_call};

// Set-up with the default settings.
#[unsafe(no_mangle)]
pub extern "C" fn post_set_up(
    rate: i32,
    subframes: i32,
    words: &mut [i32],
    halves: &mut [i16],
) -> i32
    ensures { record { answer = result; after = slices words.new halves.new [] [] [] [] }
        ≡ set_up_call rate subframes default_settings (slices words.old halves.old [] [] [] []) }
{
    post::post_set_up(rate, subframes, words, halves)
}

#[unsafe(no_mangle)]
pub extern "C" fn post_set_up_with(
    rate: i32,
    subframes: i32,
    squelch: i32,
    edition: i32,
    words: &mut [i32],
    halves: &mut [i16],
) -> i32
    ensures { record { answer = result; after = slices words.new halves.new [] [] [] [] }
        ≡ set_up_call rate subframes (record { squelch = squelch; edition = edition }) (slices words.old halves.old [] [] [] []) }
{
    post::post_set_up_with(rate, subframes, squelch, edition, words, halves)
}

#[unsafe(no_mangle)]
pub extern "C" fn post_frame(
    words: &mut [i32],
    halves: &mut [i16],
    frame: &mut [i32],
    coefs: &mut [i16],
    pulses: &[i16],
    output: &mut [i16],
) -> i32
    ensures { record { answer = result; after = slices words.new halves.new frame.new coefs.new pulses.now output.new }
        ≡ frame_call (slices words.old halves.old frame.old coefs.old pulses.now output.old) }
{
    post::post_frame(words, halves, frame, coefs, pulses, output)
}

#[unsafe(no_mangle)]
pub extern "C" fn post_played(rate: i32, subframes: i32, output: &[i16]) -> i32
    ensures { result ≡ pos (played_length (shape rate subframes) (length output.now)) }
{
    post::post_played(rate, subframes, output)
}

#[unsafe(no_mangle)]
pub extern "C" fn post_core(
    words: &mut [i32],
    halves: &mut [i16],
    frame: &mut [i32],
    coefs: &mut [i16],
    pulses: &[i16],
    output: &mut [i16],
) -> i32
    ensures { record { answer = result; after = slices words.new halves.new frame.new coefs.new pulses.now output.new }
        ≡ core_call (slices words.old halves.old frame.old coefs.old pulses.now output.old) }
{
    post::post_core(words, halves, frame, coefs, pulses, output)
}

#[unsafe(no_mangle)]
pub extern "C" fn post_plc_received(
    words: &mut [i32],
    halves: &mut [i16],
    frame: &[i32],
    coefs: &[i16],
) -> i32
    ensures { record { answer = result; after = slices words.new halves.new frame.now coefs.now [] [] }
        ≡ plc_received_call (slices words.old halves.old frame.now coefs.now [] []) }
{
    post::post_plc_received(words, halves, frame, coefs)
}

#[unsafe(no_mangle)]
pub extern "C" fn post_plc_lost(
    words: &mut [i32],
    halves: &mut [i16],
    frame: &mut [i32],
    output: &mut [i16],
) -> i32
    ensures { record { answer = result; after = slices words.new halves.new frame.new [] [] output.new }
        ≡ plc_lost_call (slices words.old halves.old frame.old [] [] output.old) }
{
    post::post_plc_lost(words, halves, frame, output)
}

#[unsafe(no_mangle)]
pub extern "C" fn post_glue(
    words: &mut [i32],
    halves: &mut [i16],
    buffer: &mut [i16],
    n: usize,
) -> i32
    ensures { record { answer = result; after = slices words.new halves.new [] [] [] buffer.new }
        ≡ glue_call n (slices words.old halves.old [] [] [] buffer.old) }
{
    post::post_glue(words, halves, buffer, n)
}

#[unsafe(no_mangle)]
pub extern "C" fn post_noise(
    words: &mut [i32],
    halves: &mut [i16],
    frame: &[i32],
    buffer: &mut [i16],
    n: usize,
) -> i32
    ensures { record { answer = result; after = slices words.new halves.new frame.now [] [] buffer.new }
        ≡ noise_call n (slices words.old halves.old frame.now [] [] buffer.old) }
{
    post::post_noise(words, halves, frame, buffer, n)
}
