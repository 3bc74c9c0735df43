// A listener behind a two-state link: how many frames it hears, and how.
// Inner: every function.
#![tactic(auto)]

ghost use Rattle.std.specs.Prelude.{◌≡◌, cond, suc, ◌+◌, ◌≤◌, ◌<◌, length, take};
ghost use Rattle.generator.specs.Draws.{unsigned};
ghost use Rattle.listener.specs.Link.{leaving, turned};
ghost use Rattle.listener.specs.Heard.{silent, counts_of, rows_of};

use macros::silk_rand;
use word::bits32;

// After a frame the good state is left if the top 16 bits of a draw are below its number, and so is the bad one.
#[derive(Clone, Copy)]
pub struct Link {
    pub leave_good: u16,
    pub leave_bad: u16,
}

// How many frames a listener received, and how many of those that it lost were concealed and squelched.
#[derive(Clone, Copy)]
pub struct Counts {
    pub received: u32,
    pub concealed: u32,
    pub squelched: u32,
}

#[tactic(auto, unfolding(crate::specs::Link::leaving))]
fn leaving(k: Link, good: bool) -> u32
    ensures { result ≡ leaving k good }
{
    if good {
        u32::from(k.leave_good)
    } else {
        u32::from(k.leave_bad)
    }
}

// The state after a draw.
#[tactic(auto, using(macros::proofs::Kept::words), unfolding(crate::specs::Link::turned))]
fn turned(k: Link, x: i32, good: bool) -> bool
    ensures { result ≡ turned k (unsigned x) good }
{
    if bits32(x) / 65536 < leaving(k, good) {
        !good
    } else {
        good
    }
}

// The losses in a row after a frame.
fn row_after(good: bool, losses: u32) -> u32
    requires { losses < 4294967295 }
    ensures { result ≡ cond good 0 (suc losses) }
{
    if good { 0 } else { losses + 1 }
}

#[tactic(auto, unfolding(crate::specs::Heard::silent))]
fn silent(squelch: u32, losses: u32) -> bool
    requires { losses < 4294967295 }
    ensures { result ≡ silent squelch losses }
{
    squelch > 0 && squelch <= losses + 1
}

// One more, if a frame is heard so.
fn counted(count: u32, heard: bool) -> u32
    requires { count < 4294967295 }
    ensures { result ≡ count + cond heard 1 0 }
{
    count + u32::from(heard)
}

// How a listener with a seed hears frames, from set-up on.
pub fn followed(seed: i32, squelch: u32, k: Link, frames: u32) -> Counts
    ensures { result ≡ counts_of squelch k seed frames }
{
    let mut x = seed;
    let mut good = true;
    let mut losses: u32 = 0;
    let mut received: u32 = 0;
    let mut concealed: u32 = 0;
    let mut squelched: u32 = 0;
    // Rounds that read no number of their own.
    for _ in 0..frames {
        let quiet = silent(squelch, losses);
        received = counted(received, good);
        concealed = counted(concealed, !good && !quiet);
        squelched = counted(squelched, !good && quiet);
        losses = row_after(good, losses);
        x = silk_rand(x);
        good = turned(k, x, good);
    }
    Counts {
        received,
        concealed,
        squelched,
    }
}

pub fn sixteen(seeds: [i32; 16], squelch: u32, k: Link, frames: u32) -> [Counts; 16]
    ensures { result ≡ rows_of squelch k frames seeds }
{
    seeds.map(
        |x: i32| -> Counts
            ensures { result ≡ counts_of squelch k x frames }
        { followed(x, squelch, k, frames) },
    )
}

// Sixteen seeds that are lent.
pub fn seeds_of(lent: &[i32]) -> [i32; 16]
    requires { 16 ≤ length lent.now }
    ensures { result ≡ take 16 lent.now }
{
    let seeds: &[i32; 16] = lent[..16].try_into().unwrap();
    *seeds
}
