// The chain of a recording's records.
// Inner: every function.
#![tactic(auto)]

ghost use Rattle.std.specs.Prelude.{◌≡◌, true, ◌+◌, ◌*◌, ◌≤◌, ◌<◌, length};
ghost use Rattle.chain.specs.Chain.{is_whole, next_of, chain_of, route_of};
ghost use Rattle.chain.specs.Claims.{ChainMeans, FewFrames};

use le::Word;

// The records of a chain's frames, in order. No heap: an array of the most records that there are, and their count. The kit's ArrayVec is no Copy.
#[derive(Clone, Copy)]
pub struct Route {
    pub frames: usize,
    pub records: [u8; 60],
}

#[tactic(auto, unfolding(crate::specs::Chain::is_whole))]
pub fn is_whole(n: usize) -> bool
    ensures { result ≡ is_whole n }
{
    (n % 1024 == 0) & (0 < n / 1024) & (n / 1024 <= 60)
}

#[tactic(auto, unfolding(crate::specs::Chain::next_of))]
fn next_of(bytes: &[u8], i: usize) -> usize
    requires { (i < 60) × (1024 * i + 2 ≤ length bytes.now) }
    ensures { result ≡ next_of bytes.now i }
{
    usize::from(u16::at(bytes, 1024 * i))
}

// None where the chain is broken.
pub fn chain(bytes: &[u8]) -> Option<Route>
    requires { is_whole (length bytes.now) ≡ true }
    ensures { result ≡ route_of (chain_of bytes.now) }
{
    let n = bytes.len() / 1024;
    let mut records = [0; 60];
    let mut at = 0;
    // Each turn goes to the record that the turn before found, over no slice's elements: k counts the frames.
    for k in 0..n {
        let next = next_of(bytes, at);
        if next == 0 {
            return Some(Route { frames: k, records });
        }
        if k + 1 == n {
            return None;
        }
        if next >= n {
            return None;
        }
        if records[..k].contains(&(next as u8)) {
            return None;
        }
        records[k] = next as u8;
        at = next;
    }
    None
}

// The chain is broken exactly by a number past the end or met before, and reaches at most every record once.
#[tactic(auto, using(crate::proofs::Chains::chain_means, crate::proofs::Chains::few))]
pub fn chain_means()
    ensures { ChainMeans × FewFrames }
{}
