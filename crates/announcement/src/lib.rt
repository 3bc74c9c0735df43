// What the announcement writer asks of a line vector (document 02, Note 6): an entry of the cosine table, and whether the lines rise.
// Inner: apart and is_rising.
#![tactic(auto)]

ghost use Rattle.std.specs.Prelude.{◌≡◌, ◌≤◌, pos, nat_abs, ◌+ℤ◌, length};
ghost use Rattle.std.specs.Int.Signed.{le_z};
ghost use Rattle.announcement.specs.Cosine.{cosine_at};
ghost use Rattle.announcement.specs.Rising.{rising, rising_of};
ghost use Rattle.announcement.specs.Claims.{RisingExactly, RisingAccepted, AnyOrder};

use nlsf::lsf_cos;
use refusal::Refusal;
use shape::Order;
use word::add32;

// Entry `place` of the table: twice a cosine (Q12).
#[tactic(auto, unfolding(crate::specs::Cosine::cosine_at))]
pub fn lsf_cos_at(place: usize) -> Result<i16, Refusal>
    ensures { result ≡ cosine_at place }
{
    if place > 128 {
        return Err(Refusal::Place);
    }
    Ok(lsf_cos(place))
}

// A line lies at least 3 above what lies below it.
fn apart(below: i32, line: i32) -> bool
    requires { nat_abs below ≤ 32768 }
    ensures { result ≡ le_z (below +ℤ pos 3) line }
{
    add32(below, 3) <= line
}

// Not `all`: a turn also needs the line before, and `windows(2)` gives no pair for the first.
fn is_rising(nlsf: &[i16], d: usize) -> bool
    requires { d ≤ length nlsf.now }
    ensures { result ≡ rising nlsf.now d }
{
    let mut ok = true;
    let mut below = 0;
    for line in &nlsf[..d] {
        let line = i32::from(*line);
        ok = ok & apart(below, line);
        below = line;
    }
    ok & apart(below, 32768)
}

// Whether the first d lines rise.
#[tactic(auto, using(crate::proofs::Orders::no_order), unfolding(crate::specs::Rising::rising_of))]
pub fn rising_check(nlsf: &[i16], d: usize) -> Result<bool, Refusal>
    ensures { result ≡ rising_of nlsf.now d }
{
    if Order::of(d).is_none() | (nlsf.len() < d) {
        return Err(Refusal::Place);
    }
    Ok(is_rising(nlsf, d))
}

// The check answers yes exactly if the lines rise.
#[tactic(auto, using(crate::proofs::Rises::rising_exactly))]
pub fn rising_exactly()
    ensures { RisingExactly }
{}

// The filter from lines never refuses lines that rise by row 9.
#[tactic(auto, using(crate::proofs::Taken::rising_accepted))]
pub fn rising_accepted()
    ensures { RisingAccepted }
{}

// The filter from lines takes lines in any order.
#[tactic(auto, using(crate::proofs::Taken::any_order))]
pub fn any_order()
    ensures { AnyOrder }
{}
