// Why a call is turned down: document 01's rows 1 to 13, and document 02's rows 14 to 23.
// Inner: every function.
#![tactic(auto)]

ghost use Rattle.std.specs.Prelude.{◌≡◌, [], ◌∷◌, Some, pos, codes};
ghost use Rattle.refusal.specs.Refusals.{refusal_number, refusal_word, code_of};
ghost use Rattle.refusal.specs.First.{◌gives◌, first_of, earlier};

use std::fmt;

#[derive(Clone, Copy, Debug, PartialEq, Eq, PartialOrd, Ord)]
pub enum Refusal {
    Rate = 1,
    Size,
    History,
    RunFull,
    Signal,
    Gain,
    Lag,
    Taps,
    Line,
    Pulses,
    Speaker,
    Length,
    Order,
    Squelch,
    Weights,
    Channels,
    Place,
    Post,
    Waiting,
    Chain,
    Record,
    Edition,
    Limit,
}

impl Refusal {
    // `as u8` under a name, whose contract cites the definition: `code` and the programs that print a row go by it.
    pub fn number(self) -> u8
        ensures { result ≡ refusal_number self }
    {
        self as u8
    }

    // For a caller of the library that wants the text without a formatter: inside, `Display` alone calls it.
    pub fn word(self) -> &'static str
        ensures { result.now ≡ codes (refusal_word self) }
    {
        match self {
            Refusal::Rate => "rate",
            Refusal::Size => "size",
            Refusal::History => "history",
            Refusal::RunFull => "run full",
            Refusal::Signal => "signal",
            Refusal::Gain => "gain",
            Refusal::Lag => "lag",
            Refusal::Taps => "taps",
            Refusal::Line => "line",
            Refusal::Pulses => "pulses",
            Refusal::Speaker => "speaker",
            Refusal::Length => "length",
            Refusal::Order => "order",
            Refusal::Squelch => "squelch",
            Refusal::Weights => "weights",
            Refusal::Channels => "channels",
            Refusal::Place => "place",
            Refusal::Post => "post",
            Refusal::Waiting => "waiting",
            Refusal::Chain => "chain",
            Refusal::Record => "record",
            Refusal::Edition => "edition",
            Refusal::Limit => "limit",
        }
    }
}

impl fmt::Display for Refusal {
    ghost output = { λ r. Some (codes (refusal_word r)) };

    fn fmt<W: fmt::Write>(&self, f: &mut fmt::Formatter<W>) -> fmt::Result {
        f.write_str(self.word())
    }
}

// A judgement as an exported function answers it: 0 where nothing is refused. No From can be written for a Result, which is not of this crate.
pub fn code(judged: Result<(), Refusal>) -> i32
    ensures { result ≡ pos (code_of judged) }
{
    match judged {
        Ok(()) => 0,
        Err(refusal) => i32::from(refusal.number()),
    }
}

// One row.
#[tactic(auto, unfolding(crate::specs::First::first_of))]
pub fn refuse_if(applies: bool, refusal: Refusal) -> Result<(), Refusal>
    ensures { result ≡ first_of ((applies gives refusal) ∷ []) }
{
    if applies { Err(refusal) } else { Ok(()) }
}

// Of two judgements the one with the smaller number, and the other where one refuses nothing.
pub fn earlier(a: Result<(), Refusal>, b: Result<(), Refusal>) -> Result<(), Refusal>
    ensures { result ≡ earlier a b }
{
    match (a, b) {
        (Ok(()), _) => b,
        (_, Ok(())) => a,
        (Err(r), Err(t)) => Err(r.min(t)),
    }
}
