// Numbers as bytes, the lowest byte first.
// Inner: every function.
#![tactic(auto)]

ghost use Rattle.std.specs.Prelude.{◌≡◌, ◌+◌, ◌*◌, ◌≤◌, ◌<◌, ℕ, List, pos, length, drop, replicate, refl};
ghost use Rattle.std.specs.Int.{w8, w16, w32};
ghost use Rattle.word.specs.Int.{mod_ℤ};
ghost use Rattle.le.specs.Bytes.{bytes_of, unsigned_at, signed_at, words_by, packed_by, with_bytes, same};

// A number of so many bytes.
pub trait Word: Copy + Default {
    ghost SIZE: { ℕ };

    const SIZE: usize;

    // The number that stands from a place on, and the bytes of a number.
    ghost word_at: { List ℕ → ℕ → Self };

    ghost bytes: { Self → List ℕ };

    fn at(b: &[u8], at: usize) -> Self
        requires { at + SIZE ≤ length b.now }
        ensures { result ≡ word_at b.now at };

    fn put(self, to: &mut [u8], at: usize)
        requires { at + SIZE ≤ length to.old }
        ensures { to.new ≡ with_bytes to.old at (bytes self) };

    ghost sized: { (x : Self) → length (bytes x) ≡ SIZE };
}

// Each reads its bytes by place, as the laws of its bytes do (crates/le/proofs/Places.antt). layout's `part` takes an array from a slice, but layout is no library of this crate.
impl Word for i8 {
    ghost SIZE = { 1 };

    const SIZE: usize = 1;

    ghost word_at = { signed_at w8 };

    ghost bytes = { bytes_of 1 };

    fn at(b: &[u8], at: usize) -> i8 {
        i8::from_le_bytes([b[at]])
    }

    fn put(self, to: &mut [u8], at: usize) {
        put_bytes(to, at, &i8::to_le_bytes(self));
    }

    ghost sized = { λ _. refl };
}

impl Word for u16 {
    ghost SIZE = { 2 };

    const SIZE: usize = 2;

    ghost word_at = { unsigned_at 2 };

    ghost bytes = { λ x. bytes_of 2 (pos x) };

    fn at(b: &[u8], at: usize) -> u16 {
        u16::from_le_bytes([b[at], b[at + 1]])
    }

    fn put(self, to: &mut [u8], at: usize) {
        put_bytes(to, at, &u16::to_le_bytes(self));
    }

    ghost sized = { λ _. refl };
}

impl Word for i16 {
    ghost SIZE = { 2 };

    const SIZE: usize = 2;

    ghost word_at = { signed_at w16 };

    ghost bytes = { bytes_of 2 };

    fn at(b: &[u8], at: usize) -> i16 {
        i16::from_le_bytes([b[at], b[at + 1]])
    }

    fn put(self, to: &mut [u8], at: usize) {
        put_bytes(to, at, &i16::to_le_bytes(self));
    }

    ghost sized = { λ _. refl };
}

impl Word for u32 {
    ghost SIZE = { 4 };

    const SIZE: usize = 4;

    ghost word_at = { unsigned_at 4 };

    ghost bytes = { λ x. bytes_of 4 (pos x) };

    fn at(b: &[u8], at: usize) -> u32 {
        u32::from_le_bytes([b[at], b[at + 1], b[at + 2], b[at + 3]])
    }

    fn put(self, to: &mut [u8], at: usize) {
        put_bytes(to, at, &u32::to_le_bytes(self));
    }

    ghost sized = { λ _. refl };
}

impl Word for i32 {
    ghost SIZE = { 4 };

    const SIZE: usize = 4;

    ghost word_at = { signed_at w32 };

    ghost bytes = { bytes_of 4 };

    fn at(b: &[u8], at: usize) -> i32 {
        i32::from_le_bytes([b[at], b[at + 1], b[at + 2], b[at + 3]])
    }

    fn put(self, to: &mut [u8], at: usize) {
        put_bytes(to, at, &i32::to_le_bytes(self));
    }

    ghost sized = { λ _. refl };
}

// Numbers one behind the other, from place at on, as many as to has room for.
#[tactic(auto, using(crate::proofs::Packing::word_room))]
pub fn read_words<T: Word>(b: &[u8], at: usize, to: &mut [T])
    requires { at + T.SIZE * length to.old ≤ length b.now }
    ensures { to.new ≡ words_by T.word_at T.SIZE b.now at (length to.old) }
{
    for (i, x) in to.iter_mut().enumerate() {
        *x = T::at(b, at + T::SIZE * i);
    }
}

// N of them. Not by `array::from_fn`: its closure would state the room again, and no law of the library makes a `map` of what it promises.
pub fn words_at<T: Word, const N: usize>(b: &[u8], at: usize) -> [T; N]
    requires { at + T.SIZE * N ≤ length b.now }
    ensures { result ≡ words_by T.word_at T.SIZE b.now at N }
{
    let mut words = [T::default(); N];
    read_words(b, at, &mut words);
    words
}

// `as u8` takes only a number that fits, so that the mask stands here for both heads that are written.
pub fn low_byte(x: i32) -> u8
    ensures { result ≡ mod_ℤ x 256 }
{
    (x & 255) as u8
}

// All bytes, stored from place at on. sigproc's `copy_at` does this for any element, but lies above macros and shape, which bytes don't need.
#[tactic(auto, unfolding(crate::specs::Bytes::with_bytes))]
pub fn put_bytes(to: &mut [u8], at: usize, bytes: &[u8])
    requires { at + length bytes.now ≤ length to.old }
    ensures { to.new ≡ with_bytes to.old at bytes.now }
{
    to[at..at + bytes.len()].copy_from_slice(bytes);
}

// n zeros, likewise.
#[tactic(auto, unfolding(crate::specs::Bytes::with_bytes))]
pub fn put_zeros(to: &mut [u8], at: usize, n: usize)
    requires { at + n ≤ length to.old }
    ensures { to.new ≡ with_bytes to.old at (replicate n 0) }
{
    to[at..at + n].fill(0);
}

// All numbers, likewise.
#[tactic(auto, using(crate::proofs::Packing::word_room))]
pub fn put_words<T: Word>(to: &mut [u8], at: usize, numbers: &[T])
    requires { at + T.SIZE * length numbers.now ≤ length to.old }
    ensures { to.new ≡ with_bytes to.old at (packed_by T.bytes numbers.now) }
{
    for (i, x) in numbers.iter().enumerate() {
        x.put(to, at + T::SIZE * i);
    }
}

// The bytes of mark stand from place at on.
pub fn stands_at(b: &[u8], at: usize, mark: &[u8]) -> bool
    requires { at + length mark.now ≤ length b.now }
    ensures { result ≡ same (drop at b.now) mark.now (length mark.now) }
{
    b[at..].starts_with(mark)
}
