// Yard recordings: the reader. Frames stay in the bytes that are lent.
// Inner: every function but read.
#![tactic(auto)]

ghost use Rattle.std.specs.Prelude.{◌≡◌, Ok, map, not, ◌&&◌, [], ◌∷◌, ◌+◌, ◌*◌, ◌≤◌, length, drop};
ghost use Rattle.refusal.specs.First.{◌gives◌};
ghost use Rattle.shape.specs.Shape.{shape, is_rate, is_count};
ghost use Rattle.record.specs.Recorded.{recorded_in};
ghost use Rattle.recording.specs.Rows.{first_then};
ghost use Rattle.recording.specs.Frames.{zeros, is_head, is_frame, are_frames, recorded_at, frames_in, described, described_all, Inside};
ghost use Rattle.recording.specs.Reading.{read_of};

use chain::{chain, is_whole};
use judge::description;
use le::stands_at;
use record::{Record, SIZE};
use refusal::{Refusal, earlier, refuse_if};

// The mark of record 0, behind its next number.
pub const MARK: [u8; 4] = *b"YARD";

// The frames of a recording: all its bytes, and the frames' records in order.
#[derive(Clone, Copy)]
pub struct Frames<'a> {
    pub bytes: &'a [u8],
    pub records: &'a [u8],
    pub ghost inside: { Inside bytes.now records.now },
}

impl<'a> Frames<'a> {
    // The frame of record i.
    pub fn record(&self, i: u8) -> Record<'a>
        requires { 1024 * i + 1024 ≤ length self.now.bytes.now }
        ensures { result.bytes.now ≡ drop (1024 * i + 2) self.now.bytes.now }
    {
        let at = 1024 * usize::from(i) + 2;
        Record {
            bytes: &self.bytes[at..],
        }
    }
}

// What is read of a recording: the first `frames` records are those of its frames, in order. No heap: an array of the most records that there are.
// Not a field of chain's Route: readers would go one field deeper for each of its two, and `read` alone would be shorter.
#[derive(Clone, Copy)]
pub struct Recording {
    pub rate: i32,
    pub subframes: i32,
    pub frames: usize,
    pub records: [u8; 60],
}

impl Recording {
    // The frames in the bytes that it was read of.
    #[tactic(auto, using(crate::proofs::Accepted::few))]
    pub fn frames_in<'a>(&'a self, bytes: &'a [u8]) -> Frames<'a>
        requires { read_of bytes.now ≡ Ok self.now }
        ensures { (result.bytes.now ≡ bytes.now) × (map (recorded_at bytes.now) result.records.now ≡ frames_in bytes.now) × (length result.records.now ≡ self.now.frames) }
    {
        Frames {
            bytes,
            records: &self.records[..self.frames],
        }
    }
}

// A fold, of which the compiler makes a test of many bytes at a time; the library's `all`, which ends at the first other byte, tests one after the other.
fn zeros(bytes: &[u8], at: usize, n: usize) -> bool
    requires { at + n ≤ length bytes.now }
    ensures { result ≡ zeros bytes.now at n }
{
    bytes[at..at + n].iter().fold(true, |ok, b| ok & (*b == 0))
}

#[tactic(auto, unfolding(crate::specs::Frames::is_head))]
pub fn is_head(bytes: &[u8]) -> bool
    requires { 1024 ≤ length bytes.now }
    ensures { result ≡ is_head bytes.now }
{
    stands_at(bytes, 2, &MARK) & zeros(bytes, 8, 1016)
}

#[tactic(auto, unfolding(crate::specs::Frames::is_frame))]
fn is_frame(bytes: &[u8], i: u8) -> bool
    requires { 1024 * i + 1024 ≤ length bytes.now }
    ensures { result ≡ is_frame bytes.now i }
{
    let at = 1024 * usize::from(i) + 2;
    if bytes[at] == 1 {
        zeros(bytes, at + SIZE, 205)
    } else {
        zeros(bytes, at, 1022)
    }
}

fn are_frames(frames: &Frames) -> bool
    ensures { result ≡ are_frames frames.now.bytes.now frames.now.records.now }
{
    frames.records.iter().all(|i| is_frame(frames.bytes, *i))
}

// Rows 5 to 9 of a frame.
#[tactic(auto, unfolding(crate::specs::Frames::described, record::specs::Recorded::recorded_in))]
fn described(khz: i32, nb_subfr: i32, r: &Record) -> Result<(), Refusal>
    ensures { result ≡ described (shape khz nb_subfr) (recorded_in r.now.bytes.now) }
{
    if r.is_received() {
        return description(khz, nb_subfr, r.params(), &r.control(), &r.lines());
    }
    Ok(())
}

// The last of the records first. The library's `fold` would hold the same line in a closure, and the fact that each record lies within the bytes
// would be shown of each of its calls, with what it carries.
fn described_all(khz: i32, nb_subfr: i32, frames: &Frames) -> Result<(), Refusal>
    ensures { result ≡ described_all (shape khz nb_subfr) (map (recorded_at frames.now.bytes.now) frames.now.records.now) }
{
    let mut worst = Ok(());
    for i in frames.records.iter().rev() {
        worst = earlier(described(khz, nb_subfr, &frames.record(*i)), worst);
    }
    worst
}

// The rows behind the chain.
fn content(rate: i32, subframes: i32, frames: &Frames) -> Result<(), Refusal>
    ensures { result ≡ first_then ((not (is_head frames.now.bytes.now && are_frames frames.now.bytes.now frames.now.records.now) gives Refusal.Record) ∷ (not (is_rate rate) gives Refusal.Rate) ∷ (not (is_count subframes) gives Refusal.Size) ∷ [])
        (described_all (shape rate subframes) (map (recorded_at frames.now.bytes.now) frames.now.records.now)) }
{
    refuse_if(
        !(is_head(frames.bytes) & are_frames(frames)),
        Refusal::Record,
    )?;
    refuse_if(!shape::is_rate(rate), Refusal::Rate)?;
    refuse_if(!shape::is_count(subframes), Refusal::Size)?;
    described_all(rate, subframes, frames)
}

pub fn read(bytes: &[u8]) -> Result<Recording, Refusal>
    ensures { result ≡ read_of bytes.now }
{
    refuse_if(!is_whole(bytes.len()), Refusal::Record)?;
    let route = chain(bytes).ok_or(Refusal::Chain)?;
    let records = route.records;
    let frames = route.frames;
    let rate = i32::from(bytes[6]);
    let subframes = i32::from(bytes[7]);
    let along = Frames {
        bytes,
        records: &records[..frames],
    };
    content(rate, subframes, &along)?;
    Ok(Recording {
        rate,
        subframes,
        frames,
        records,
    })
}
