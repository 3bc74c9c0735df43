// An answer of the stability test as a sentence.
// Inner: every function but sentence_of and no_two.
#![tactic(auto)]

ghost use Rattle.std.specs.Prelude.{◌≡◌, [], ◌∷◌, ◌+◌, ◌≤◌, ◌<◌, length};
ghost use Rattle.sentence.specs.Sentence.{decimal, signed, filled, sentence_of, with};
ghost use Rattle.sentence.specs.Apart.{NoTwo};

use stability::Unstable;

// A sentence of up to 64 letters, with zeros behind them: post_sentence lends 64 bytes for it, and there is no heap.
#[derive(Clone, Copy)]
pub struct Sentence {
    pub letters: [u8; 64],
    pub len: usize,
}

// Words, with zeros behind them.
fn filled(text: &str) -> Sentence
    requires { length text.now ≤ 64 }
    ensures { result ≡ filled text.now }
{
    let mut letters = [0; 64];
    let len = text.len();
    letters[..len].copy_from_slice(text.as_bytes());
    Sentence { letters, len }
}

// One letter more.
fn with_letter(mut s: Sentence, b: u8) -> Sentence
    requires { s.len < 64 }
    ensures { result ≡ with s (b ∷ []) }
{
    s.letters[s.len] = b;
    s.len += 1;
    s
}

// Digits by hand: `write!` promises them only where it succeeds, and a buffer of crate itoa would be the one crate from outside that a board links.
fn with_decimal(s: Sentence, n: u32) -> Sentence
    requires { s.len + length (decimal n) ≤ 64 }
    ensures { result ≡ with s (decimal n) }
{
    if n < 10 {
        return with_letter(s, b'0' + n as u8);
    }
    with_letter(with_decimal(s, n / 10), b'0' + (n % 10) as u8)
}

fn with_number(s: Sentence, v: i32) -> Sentence
    requires { s.len ≤ 40 }
    ensures { result ≡ with s (signed v) }
{
    let size = v.unsigned_abs();
    if v < 0 {
        return with_decimal(with_letter(s, b'-'), size);
    }
    with_decimal(s, size)
}

// No two answers share a sentence.
#[tactic(auto, using(crate::proofs::Apart::no_two))]
pub fn no_two()
    ensures { NoTwo }
{}

pub fn sentence_of(s: Result<i32, Unstable>) -> Sentence
    ensures { result ≡ sentence_of s }
{
    match s {
        Ok(gain) => with_number(filled("stable, inverse gain "), gain),
        Err(Unstable::Sum) => filled("unstable, sum too large"),
        Err(Unstable::Coefficient(k)) => {
            with_decimal(
                filled("unstable, coefficient too large at step "),
                u32::from(k),
            )
        }
        Err(Unstable::Gain(k)) => {
            with_decimal(filled("unstable, gain too small at step "), u32::from(k))
        }
        Err(Unstable::Overflow(k)) => {
            with_decimal(filled("unstable, overflow at step "), u32::from(k))
        }
    }
}
