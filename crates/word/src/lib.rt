// Signed words: exact sums and products in a wider word, the low bits of a wider number, shifts and order; and a slice mapped into another.
// Inner: every function. Where the library has a method, its clause goes by a width (`int_wrapping_add w32`), and these by the integer, as the definitions do.
// A shift takes the low bits of its amount, as a release build of Rust does.
#![tactic(auto)]

ghost use Rattle.std.specs.Prelude.{◌≡◌, ◌^◌, ◌<◌, pos, nat_abs, neg_ℤ, ◌+ℤ◌, ◌-ℤ◌, ◌*ℤ◌, ℤ, length};
ghost use Rattle.std.specs.List.{AllZip};
ghost use Rattle.word.specs.Int.{wrap16, wrap32, wrap64, floor_div, mod_ℤ, clamp, sat16, sat32};

// The same number, in 64 bits: `i64::from` by a name that tells the width, by which proofs cite the call.
pub fn wide(a: i32) -> i64
    ensures { result ≡ a }
{
    i64::from(a)
}

// The same number, in 32 bits, likewise.
pub fn wide16(a: i16) -> i32
    ensures { result ≡ a }
{
    i32::from(a)
}

// A number of up to 32 bits. Not `Into<i32>`, whose ghost member is a relation: definitions over such numbers need a function.
pub trait Number: Copy {
    ghost number: { Self → ℤ };

    fn number(self) -> i32
        ensures { result ≡ number self };
}

impl Number for i8 {
    ghost number = { λ x. x };

    fn number(self) -> i32 {
        i32::from(self)
    }
}

impl Number for i16 {
    ghost number = { λ x. x };

    fn number(self) -> i32 {
        wide16(self)
    }
}

impl Number for i32 {
    ghost number = { λ x. x };

    fn number(self) -> i32 {
        self
    }
}

// The low 32 bits, by two shifts, since an `as` must keep the number; and so the low 16. Two functions, as each shift below.
pub fn low32(x: i64) -> i32
    ensures { result ≡ wrap32 x }
{
    ((x << 32) >> 32) as i32
}

pub fn low16(x: i32) -> i16
    ensures { result ≡ wrap16 x }
{
    ((x << 16) >> 16) as i16
}

// The whole sum.
pub fn sum64(a: i32, b: i32) -> i64
    ensures { result ≡ a +ℤ b }
{
    i64::from(a) + i64::from(b)
}

// Divided by 2 ^ s, rounded down. Each shift stands at two widths: a trait for both would need ghost members for the width, more than the line that is saved.
pub fn shr64(x: i64, s: i32) -> i64
    ensures { result ≡ floor_div x (2 ^ mod_ℤ s 64) }
{
    x.wrapping_shr(s.cast_unsigned())
}

pub fn shr32(x: i32, s: i32) -> i32
    ensures { result ≡ floor_div x (2 ^ mod_ℤ s 32) }
{
    x.wrapping_shr(s.cast_unsigned())
}

// Times 2 ^ s, the low bits.
pub fn shl64(x: i64, s: i32) -> i64
    ensures { result ≡ wrap64 (x *ℤ pos (2 ^ mod_ℤ s 64)) }
{
    x.wrapping_shl(s.cast_unsigned())
}

pub fn shl32(x: i32, s: i32) -> i32
    ensures { result ≡ wrap32 (x *ℤ pos (2 ^ mod_ℤ s 32)) }
{
    x.wrapping_shl(s.cast_unsigned())
}

// The bits of a word, as an unsigned number.
pub fn bits32(a: i32) -> u32
    ensures { result ≡ mod_ℤ a (2 ^ 32) }
{
    a.cast_unsigned()
}

// The whole product of two short numbers.
pub fn mul16(a: i16, b: i16) -> i32
    ensures { result ≡ a *ℤ b }
{
    i32::from(a) * i32::from(b)
}

#[tactic(auto, using(crate::proofs::Words::kept, crate::proofs::Names::neg_is))]
pub fn neg32(a: i32) -> i32
    ensures { result ≡ wrap32 (neg_ℤ a) }
{
    a.wrapping_neg()
}

pub fn abs32(a: i32) -> i32
    ensures { result ≡ wrap32 (pos (nat_abs a)) }
{
    a.wrapping_abs()
}

#[tactic(auto, using(crate::proofs::Names::add_is))]
pub fn add32(a: i32, b: i32) -> i32
    ensures { result ≡ wrap32 (a +ℤ b) }
{
    a.wrapping_add(b)
}

#[tactic(auto, using(crate::proofs::Names::sub_is))]
pub fn sub32(a: i32, b: i32) -> i32
    ensures { result ≡ wrap32 (a -ℤ b) }
{
    a.wrapping_sub(b)
}

#[tactic(auto, using(crate::proofs::Names::mul_is))]
pub fn mul32(a: i32, b: i32) -> i32
    ensures { result ≡ wrap32 (a *ℤ b) }
{
    a.wrapping_mul(b)
}

// The lowest bit.
#[tactic(auto, using(crate::proofs::Words::low_word))]
pub fn low_bit(x: i64) -> i64
    ensures { result ≡ pos (mod_ℤ x 2) }
{
    x & 1
}

// The nearest number from low to high, of any two bounds: the library's `clamp` asks that they are in their order.
#[tactic(auto, unfolding(crate::specs::Int::clamp))]
pub fn limit32(a: i32, low: i32, high: i32) -> i32
    ensures { result ≡ clamp low high a }
{
    if a < low {
        low
    } else if a > high {
        high
    } else {
        a
    }
}

// The nearest number of 16 bits. Two functions, as each shift above.
pub fn sat16(a: i32) -> i16
    ensures { result ≡ sat16 a }
{
    a.clamp(-32768, 32767) as i16
}

// The nearest number of 32 bits.
pub fn sat32(x: i64) -> i32
    ensures { result ≡ sat32 x }
{
    x.clamp(-2147483648, 2147483647) as i32
}

// Each element of from, by f. By places, since after a zip over `iter_mut` the library tells only the length of to.
pub fn map_into<A: Copy, B: Copy, F: Fn(A) -> B>(from: &[A], to: &mut [B], f: F)
    requires callable { F.IsAlwaysCallable f }
    requires room { length to.old ≡ length from.now }
    ensures { AllZip (λ x y. F.post f x y) from.now to.new }
{
    for (i, x) in from.iter().enumerate() {
        to[i] = f(*x);
    }
}
