// The functions of filters that a Rust program links, and a C program by post_filters_c.
#![tactic(auto)]

ghost use Rattle.std.specs.Prelude.{◌≡◌, [], ◌∷◌, ltb, length};
ghost use Rattle.post_filters.specs.Calls.{called, stability_call, sentence_call, filter_call, cosine_call, rising_call};
ghost use Rattle.post_filters.specs.Claims.{RisingTold};

use announcement::{lsf_cos_at, rising_check};
use nlsf::silk_nlsf2a_under;
use refusal::{Refusal, code};
use sentence::sentence_of;
use stability::{answer_number, answer_value, silk_lpc_inverse_pred_gain_under};

// A slice that is too short is answered -1, a call that is refused the row's number.
// The match stands in three functions: one function of all would take what each writes as a closure, and its contract beside it.
pub fn post_stability(coefficients: &[i16], order: usize, edition: i32, answer: &mut [i32]) -> i32
    ensures { record { answer = result; slice = answer.exit.now } ≡ stability_call coefficients.now order edition answer.entry.now }
{
    if answer.len() < 2 {
        return -1;
    }
    match silk_lpc_inverse_pred_gain_under(coefficients, order, edition) {
        Ok(s) => {
            answer[0] = i32::from(answer_number(s));
            answer[1] = answer_value(s);
            0
        }
        Err(refusal) => code(Err(refusal)),
    }
}

pub fn post_sentence(coefficients: &[i16], order: usize, edition: i32, text: &mut [u8]) -> i32
    ensures { record { answer = result; slice = text.new } ≡ sentence_call coefficients.now order edition text.old }
{
    if text.len() < 64 {
        return -1;
    }
    match silk_lpc_inverse_pred_gain_under(coefficients, order, edition) {
        Ok(s) => {
            let sentence = sentence_of(s);
            text[..64].copy_from_slice(&sentence.letters);
            0
        }
        Err(refusal) => code(Err(refusal)),
    }
}

pub fn post_filter(coefficients: &mut [i16], lines: &[i16], order: usize, edition: i32) -> i32
    ensures { record { answer = result; slice = coefficients.new } ≡ filter_call coefficients.old lines.now order edition }
{
    code(silk_nlsf2a_under(coefficients, lines, order, edition))
}

// A call's one number, stored.
fn put_one(answer: Result<i32, Refusal>, to: &mut [i32]) -> i32
    ensures { record { answer = result; slice = to.new } ≡ called (ltb (length to.old) 1) (λ x. x ∷ []) answer to.old }
{
    if to.len() < 1 {
        return -1;
    }
    match answer {
        Ok(x) => {
            to[0] = x;
            0
        }
        Err(refusal) => code(Err(refusal)),
    }
}

pub fn post_cosine(place: usize, value: &mut [i32]) -> i32
    ensures { record { answer = result; slice = value.new } ≡ cosine_call place value.old }
{
    put_one(lsf_cos_at(place).map(i32::from), value)
}

pub fn post_rising(lines: &[i16], order: usize, answer: &mut [i32]) -> i32
    ensures { record { answer = result; slice = answer.exit.now } ≡ rising_call lines.now order answer.entry.now }
{
    put_one(rising_check(lines, order).map(i32::from), answer)
}

// post_rising writes 1 exactly if the lines rise, and then post_filter does not answer 9 for them.
#[tactic(auto, using(crate::proofs::Told::rising_told))]
pub fn rising_told()
    ensures { RisingTold }
{}
