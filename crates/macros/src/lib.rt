// Fixed-point arithmetic of macros.rs, and silk_smultt of cng.rs.
// Inner: every function.
#![tactic(auto)]

ghost use Rattle.std.specs.Prelude.{◌≡◌, ◌^◌, ◌≤◌, ◌/◌, ◌%◌, pos, nat_abs, ◌+ℤ◌, ◌-ℤ◌, ◌*ℤ◌};
ghost use Rattle.std.specs.Int.Signed.{quot_z};
ghost use Rattle.std.specs.Int.{w32};
ghost use Rattle.std.proofs.Common.{SFits};
ghost use Rattle.word.specs.Int.{wrap32, floor_div, mod_ℤ, min_ℤ, max_ℤ, sat16, sat32};
ghost use Rattle.macros.specs.Fixed.{smulww, smulwb, smulbb, smultt, smmul, smlaww, smlawb, add_lshift32, lshift_sat32, rand, rshift_round, rshift_round64, mul_q, clz32, frac_q7, clz_frac, sqrt_start, sqrt_approx};
ghost use Rattle.macros.specs.Quotient.{headroom, shift_up, shift_down, normal, first_inverse, second_inverse, inverse32_varq, normal_quotient, div32_varq};

use word::{
    abs32, add32, bits32, low_bit, low16, low32, mul16, mul32, neg32, sat32, shl32, shl64, shr32,
    shr64, sub32, sum64, wide, wide16,
};

#[tactic(auto, using(crate::proofs::Kept::words), unfolding(crate::specs::Fixed::smulww))]
pub fn silk_smulww(a: i32, b: i32) -> i32
    ensures { result ≡ smulww a b }
{
    low32(shr64(silk_smull(a, b), 16))
}

#[tactic(auto, using(crate::proofs::Kept::words), unfolding(crate::specs::Fixed::smulwb))]
pub fn silk_smulwb(a: i32, b: i32) -> i32
    ensures { result ≡ smulwb a b }
{
    low32(shr64(silk_smull(a, wide16(low16(b))), 16))
}

#[tactic(auto, using(crate::proofs::Kept::words), unfolding(crate::specs::Fixed::smulbb))]
pub fn silk_smulbb(a: i32, b: i32) -> i32
    ensures { result ≡ smulbb a b }
{
    mul16(low16(a), low16(b))
}

#[tactic(auto, using(crate::proofs::Kept::words), unfolding(crate::specs::Fixed::smultt))]
pub fn silk_smultt(a: i32, b: i32) -> i32
    ensures { result ≡ smultt a b }
{
    mul32(shr32(a, 16), shr32(b, 16))
}

// The Rust's name, by which its callers are ported, for one operation of the library; so silk_add_sat32, silk_add_sat16, silk_min_32 and silk_max_32.
pub fn silk_smull(a: i32, b: i32) -> i64
    ensures { result ≡ a *ℤ b }
{
    i64::from(a) * i64::from(b)
}

#[tactic(auto, using(crate::proofs::Kept::words), unfolding(crate::specs::Fixed::smmul))]
pub fn silk_smmul(a: i32, b: i32) -> i32
    ensures { result ≡ smmul a b }
{
    low32(shr64(silk_smull(a, b), 32))
}

#[tactic(auto, using(crate::proofs::Kept::words), unfolding(crate::specs::Fixed::smlaww))]
pub fn silk_smlaww(a: i32, b: i32, c: i32) -> i32
    ensures { result ≡ smlaww a b c }
{
    add32(a, silk_smulww(b, c))
}

#[tactic(auto, using(crate::proofs::Kept::words), unfolding(crate::specs::Fixed::smlawb))]
pub fn silk_smlawb(a: i32, b: i32, c: i32) -> i32
    ensures { result ≡ smlawb a b c }
{
    add32(a, silk_smulwb(b, c))
}

#[tactic(auto, using(crate::proofs::Kept::words), unfolding(crate::specs::Fixed::add_lshift32))]
pub fn silk_add_lshift32(a: i32, b: i32, shift: i32) -> i32
    ensures { result ≡ add_lshift32 a b shift }
{
    add32(a, shl32(b, shift))
}

#[tactic(auto, using(crate::proofs::Kept::words), unfolding(crate::specs::Fixed::lshift_sat32))]
pub fn silk_lshift_sat32(a: i32, shift: i32) -> i32
    ensures { result ≡ lshift_sat32 a shift }
{
    sat32(shl64(wide(a), shift))
}

#[tactic(auto, using(word::proofs::Words::kept, word::proofs::Names::sat32_is))]
pub fn silk_add_sat32(a: i32, b: i32) -> i32
    ensures { result ≡ sat32 (a +ℤ b) }
{
    a.saturating_add(b)
}

#[tactic(auto, using(word::proofs::Words::kept, word::proofs::Names::sat16_is))]
pub fn silk_add_sat16(a: i16, b: i16) -> i16
    ensures { result ≡ sat16 (a +ℤ b) }
{
    a.saturating_add(b)
}

#[tactic(auto, using(word::proofs::Words::kept, word::proofs::Names::min_is))]
pub fn silk_min_32(a: i32, b: i32) -> i32
    ensures { result ≡ min_ℤ a b }
{
    a.min(b)
}

#[tactic(auto, using(word::proofs::Words::kept, word::proofs::Names::max_is))]
pub fn silk_max_32(a: i32, b: i32) -> i32
    ensures { result ≡ max_ℤ a b }
{
    a.max(b)
}

pub fn silk_rand(seed: i32) -> i32
    ensures { result ≡ rand seed }
{
    add32(907633515, mul32(seed, 196314165))
}

// The sum with half of 2 ^ s, divided by 2 ^ s.
#[tactic(auto, using(crate::proofs::Kept::words))]
fn half_up(a: i32, s: i32) -> i32
    ensures { result ≡ wrap32 (floor_div (a +ℤ wrap32 (pos 1 *ℤ pos (2 ^ mod_ℤ (wrap32 (s -ℤ pos 1)) 32))) (2 ^ mod_ℤ s 64)) }
{
    low32(shr64(sum64(a, shl32(1, sub32(s, 1))), s))
}

// Two functions, since they part at large shifts: from 31 up this gives 0, and the next one shifts by the low bits of the amount.
#[tactic(auto, using(crate::proofs::Kept::shifts, crate::proofs::Rounding::round_is), unfolding(crate::specs::Fixed::rshift_round))]
pub fn silk_rshift_round(a: i32, shift: i32) -> i32
    ensures { result ≡ rshift_round a shift }
{
    if shift <= 0 {
        return shl32(a, neg32(shift));
    }
    if shift >= 31 {
        return 0;
    }
    half_up(a, shift)
}

#[tactic(auto, using(crate::proofs::Kept::shifts, crate::proofs::Rounding::round64_is), unfolding(crate::specs::Fixed::rshift_round64))]
pub fn silk_rshift_round64(a: i64, shift: i32) -> i64
    ensures { result ≡ rshift_round64 a shift }
{
    if shift <= 0 {
        return shl64(a, neg32(shift));
    }
    shr64(a, shift) + low_bit(shr64(a, sub32(shift, 1)))
}

// A product rounded by q places, the low 32 bits.
#[tactic(auto, using(crate::proofs::Kept::words), unfolding(crate::specs::Fixed::mul_q))]
pub fn mul_q(a: i32, b: i32, q: i32) -> i32
    ensures { result ≡ mul_q a b q }
{
    low32(silk_rshift_round64(silk_smull(a, b), q))
}

#[tactic(auto, using(crate::proofs::Kept::words), unfolding(crate::specs::Fixed::clz32))]
pub fn silk_clz32(a: i32) -> i32
    ensures { result ≡ pos (clz32 a) }
{
    bits32(a).leading_zeros() as i32
}

#[derive(Clone, Copy)]
pub struct ClzFrac {
    pub lz: i32,
    pub frac_q7: i32,
}

fn frac_q7(x: i32) -> i32
    ensures { result ≡ pos (frac_q7 x) }
{
    let b = bits32(x);
    let w = u64::from(b) << b.leading_zeros();
    (w / 16777216 % 128) as i32
}

#[tactic(auto, using(crate::proofs::Kept::words), unfolding(crate::specs::Fixed::clz_frac))]
pub fn silk_clz_frac(input: i32) -> ClzFrac
    ensures { result ≡ clz_frac input }
{
    let lz = silk_clz32(input);
    let frac_q7 = frac_q7(input);
    ClzFrac { lz, frac_q7 }
}

fn sqrt_start(lz: i32) -> i32
    requires { (lz ≡ pos (nat_abs lz)) × (nat_abs lz ≤ 32) }
    ensures { result ≡ sqrt_start (nat_abs lz) }
{
    let h = shr32(lz, 1);
    if bits32(lz) % 2 == 1 {
        shr32(32768, h)
    } else {
        shr32(46214, h)
    }
}

#[tactic(auto, using(crate::proofs::Kept::words), unfolding(crate::specs::Fixed::sqrt_approx))]
pub fn silk_sqrt_approx(x: i32) -> i32
    ensures { result ≡ sqrt_approx x }
{
    if x <= 0 {
        return 0;
    }
    let f = silk_clz_frac(x);
    let y = sqrt_start(f.lz);
    silk_smlawb(y, y, silk_smulbb(213, f.frac_q7))
}

// The divisor is not 0 and the quotient fits: the Rust stops at 0 and at the least number by -1.
#[tactic(auto, using(crate::proofs::Kept::words))]
pub fn silk_div32(a: i32, b: i32) -> i32
    requires { (b ≡ pos 0 → ⊥) × SFits w32 (quot_z a b) }
    ensures { result ≡ quot_z a b }
{
    a / b
}

#[tactic(auto, using(crate::proofs::Kept::heads), unfolding(crate::specs::Quotient::headroom))]
fn head_room(b: i32) -> i32
    ensures { result ≡ headroom b }
{
    sub32(silk_clz32(abs32(b)), 1)
}

#[tactic(auto, using(crate::proofs::Kept::shifts), unfolding(crate::specs::Quotient::shift_up))]
fn shift_up(b: i32, h: i32) -> i32
    ensures { result ≡ shift_up b h }
{
    if h < 0 {
        shr32(b, neg32(h))
    } else {
        shl32(b, h)
    }
}

#[tactic(auto, using(crate::proofs::Kept::shifts), unfolding(crate::specs::Quotient::shift_down, crate::specs::Fixed::lshift_sat32))]
fn shift_down(r: i32, s: i32) -> i32
    ensures { result ≡ shift_down r s }
{
    if s <= 0 {
        silk_lshift_sat32(r, neg32(s))
    } else if s < 32 {
        shr32(r, s)
    } else {
        0
    }
}

#[tactic(auto, using(crate::proofs::Kept::words), unfolding(crate::specs::Quotient::normal))]
fn normalised(b: i32) -> i32
    ensures { result ≡ normal b }
{
    shift_up(b, head_room(b))
}

#[tactic(auto, using(crate::proofs::Kept::words), unfolding(crate::specs::Quotient::first_inverse))]
fn first_inverse(n: i32) -> i32
    requires { floor_div n (2 ^ 16) ≡ pos 0 → ⊥ }
    ensures { result ≡ first_inverse n }
{
    silk_div32(536870911, shr32(n, 16))
}

#[tactic(auto, using(crate::proofs::Kept::words), unfolding(crate::specs::Quotient::second_inverse))]
fn second_inverse(n: i32, i: i32) -> i32
    ensures { result ≡ second_inverse n i }
{
    silk_smlaww(
        shl32(i, 16),
        shl32(sub32(536870912, silk_smulwb(n, i)), 3),
        i,
    )
}

#[tactic(auto, using(crate::proofs::Kept::words, crate::proofs::Normal::normal_big), unfolding(crate::specs::Quotient::inverse32_varq))]
pub fn silk_inverse32_varq(b32: i32, qres: i32) -> i32
    ensures { result ≡ inverse32_varq b32 qres }
{
    if b32 == 0 {
        return 2147483647;
    }
    let n = normalised(b32);
    shift_down(
        second_inverse(n, first_inverse(n)),
        sub32(sub32(61, head_room(b32)), qres),
    )
}

#[tactic(auto, using(crate::proofs::Kept::words), unfolding(crate::specs::Quotient::normal_quotient))]
fn normal_quotient(m: i32, n: i32, i: i32) -> i32
    ensures { result ≡ normal_quotient m n i }
{
    let first = silk_smulwb(m, i);
    silk_smlawb(first, sub32(m, shl32(silk_smmul(n, first), 3)), i)
}

// The divisor is not 0: there the Rust stops.
#[tactic(auto, using(crate::proofs::Kept::words, crate::proofs::Normal::normal_big), unfolding(crate::specs::Quotient::div32_varq))]
pub fn silk_div32_varq(a32: i32, b32: i32, qres: i32) -> i32
    requires { b32 ≡ pos 0 → ⊥ }
    ensures { result ≡ div32_varq a32 b32 qres }
{
    let n = normalised(b32);
    shift_down(
        normal_quotient(normalised(a32), n, first_inverse(n)),
        sub32(sub32(add32(29, head_room(a32)), head_room(b32)), qres),
    )
}
