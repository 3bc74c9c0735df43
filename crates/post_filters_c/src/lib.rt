// The functions of filters that a C program links: each is the function of post_filters with the same name.
// Only a static library exports, and no crate can depend on one, so that each function stands again with its clauses.
#![tactic(auto)]

ghost use Rattle.std.specs.Prelude.{◌≡◌};
ghost use Rattle.post_filters.specs.Calls.{stability_call, sentence_call, filter_call, cosine_call, rising_call};

#[unsafe(no_mangle)]
pub extern "C" fn post_stability(
    coefficients: &[i16],
    order: usize,
    edition: i32,
    answer: &mut [i32],
) -> i32
    ensures { record { answer = result; slice = answer.exit.now } ≡ stability_call coefficients.now order edition answer.entry.now }
{
    post_filters::post_stability(coefficients, order, edition, answer)
}

#[unsafe(no_mangle)]
pub extern "C" fn post_sentence(
    coefficients: &[i16],
    order: usize,
    edition: i32,
    text: &mut [u8],
) -> i32
    ensures { record { answer = result; slice = text.new } ≡ sentence_call coefficients.now order edition text.old }
{
    post_filters::post_sentence(coefficients, order, edition, text)
}

#[unsafe(no_mangle)]
pub extern "C" fn post_filter(
    coefficients: &mut [i16],
    lines: &[i16],
    order: usize,
    edition: i32,
) -> i32
    ensures { record { answer = result; slice = coefficients.new } ≡ filter_call coefficients.old lines.now order edition }
{
    post_filters::post_filter(coefficients, lines, order, edition)
}

#[unsafe(no_mangle)]
pub extern "C" fn post_cosine(place: usize, value: &mut [i32]) -> i32
    ensures { record { answer = result; slice = value.new } ≡ cosine_call place value.old }
{
    post_filters::post_cosine(place, value)
}

#[unsafe(no_mangle)]
pub extern "C" fn post_rising(lines: &[i16], order: usize, answer: &mut [i32]) -> i32
    ensures { record { answer = result; slice = answer.exit.now } ≡ rising_call lines.now order answer.entry.now }
{
    post_filters::post_rising(lines, order, answer)
}
