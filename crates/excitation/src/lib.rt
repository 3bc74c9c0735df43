// A received frame's excitation (decode_core.rs).
// Inner: every function.
#![tactic(auto)]

ghost use Rattle.std.specs.Prelude.{◌≡◌, ◌≤◌, nat_abs, length};
ghost use Rattle.excitation.specs.Excitation.{offset_q14, level, excited, excitation};

use macros::silk_rand;
use word::{add32, neg32, shl32, sub32, wide16};

// The offsets and the adjustment of define.rs.
const OFFSET_UVL_Q10: i32 = 100;

const OFFSET_UVH_Q10: i32 = 240;

const OFFSET_VL_Q10: i32 = 32;

const OFFSET_VH_Q10: i32 = 100;

const QUANT_LEVEL_ADJUST_Q14: i32 = 1280;

#[tactic(auto, using(word::proofs::Order::is, word::proofs::Order::isnt), unfolding(crate::specs::Excitation::offset_q14))]
pub fn offset_q14(voiced: bool, quant_offset_type: i8) -> i32
    ensures { (result ≡ offset_q14 voiced quant_offset_type) × (nat_abs result ≤ 3840) }
{
    if voiced {
        if quant_offset_type == 0 {
            16 * OFFSET_VL_Q10
        } else {
            16 * OFFSET_VH_Q10
        }
    } else if quant_offset_type == 0 {
        16 * OFFSET_UVL_Q10
    } else {
        16 * OFFSET_UVH_Q10
    }
}

#[tactic(auto, using(crate::proofs::Samples::levels), unfolding(crate::specs::Excitation::level))]
fn level(p: i16) -> i32
    ensures { result ≡ level p }
{
    let q = shl32(wide16(p), 14);
    if p > 0 {
        sub32(q, QUANT_LEVEL_ADJUST_Q14)
    } else if p < 0 {
        add32(q, QUANT_LEVEL_ADJUST_Q14)
    } else {
        q
    }
}

// A pulse as a sample: a negative generator value negates.
#[tactic(auto, using(macros::proofs::Kept::words, crate::proofs::Samples::sample_word, crate::proofs::Samples::negated_word), unfolding(crate::specs::Excitation::excited))]
fn excited(offset: i32, g: i32, p: i16) -> i32
    requires { nat_abs offset ≤ 3840 }
    ensures { result ≡ excited offset g p }
{
    let e = add32(level(p), offset);
    if g < 0 { neg32(e) } else { e }
}

#[tactic(auto, using(macros::proofs::Kept::words))]
pub fn excite(exc: &mut [i32], pulses: &[i16], offset: i32, seed: i32)
    requires { (length exc.old ≤ length pulses.now) × (nat_abs offset ≤ 3840) }
    ensures { exc.new ≡ excitation offset pulses.now seed (length exc.old) }
{
    let mut g = seed;
    // Not a zip: after one over `iter_mut` only the length of exc is known.
    for (i, e) in exc.iter_mut().enumerate() {
        let p = pulses[i];
        let r = silk_rand(g);
        *e = excited(offset, r, p);
        g = add32(r, wide16(p));
    }
}
