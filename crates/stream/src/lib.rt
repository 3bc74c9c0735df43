// Recorded streams and WAV files as bytes.
// Inner: every function.
#![tactic(auto)]

ghost use Rattle.std.specs.Prelude.{◌≡◌, ◌≢◌, ◌∷◌, ◌++◌, ◌+◌, ◌-◌, ◌*◌, ◌^◌, ◌≤◌, ◌<◌, pos, length, take, drop, replicate, IfOk, IfErr};
ghost use Rattle.std.specs.Int.{w16};
ghost use Rattle.std.specs.IoError.{error_kind};
ghost use Rattle.le.specs.Bytes.{bytes_of, packed};
ghost use Rattle.stream.specs.Wav.{wav_header};
ghost use Rattle.stream.specs.Header.{is_stream, samples_of, opened_of, Opened};
ghost use Rattle.stream.specs.Records.{sample_bytes, Taken};

use input::{fill, read_full};
use le::{Word, put_bytes, put_words, stands_at};
use std::fmt;
use std::io::{self, ErrorKind, Read};

// A frame's samples, two bytes each.
pub fn samples_bytes(samples: &[i16; 320]) -> [u8; 640]
    ensures { result ≡ packed w16 samples.now 320 }
{
    let mut b = [0; 640];
    put_words(&mut b, 0, samples);
    b
}

// A WAV file's start: one channel of 16-bit samples. The lengths and the rates are put in.
const START: [u8; 44] =
    *b"RIFF\0\0\0\0WAVEfmt \x10\0\0\0\x01\0\x01\0\0\0\0\0\0\0\0\0\x02\0\x10\0data\0\0\0\0";

// Of more than 32 bits the low four bytes stand, which `u32::put` would ask to fit.
fn put4(h: [u8; 44], at: usize, n: u64) -> [u8; 44]
    requires { at + 4 ≤ 44 }
    ensures { result ≡ take at h ++ bytes_of 4 (pos n) ++ drop (at + 4) h }
{
    let mut new = h;
    let bytes = n.to_le_bytes();
    put_bytes(&mut new, at, &bytes[..4]);
    new
}

#[tactic(auto, unfolding(crate::specs::Wav::wav_header))]
pub fn wav_header(hertz: u32, samples: u32) -> [u8; 44]
    ensures { result ≡ wav_header hertz samples }
{
    let bytes = 2 * u64::from(samples);
    let sized = put4(put4(START, 4, 36 + bytes), 40, bytes);
    put4(put4(sized, 24, u64::from(hertz)), 28, 2 * u64::from(hertz))
}

// What a stream's header says: kHz, subframes of a frame, records, and the samples that they play.
#[derive(Clone, Copy)]
pub struct Head {
    pub rate: u8,
    pub subframes: u8,
    pub records: u32,
    pub samples: u32,
}

// Why a file is not played: it is cut within the header, has another format, has no rate or count of subframes
// of the decoder, or is too long for a WAV file.
#[derive(Clone, Copy)]
pub enum Unplayed {
    Cut,
    Foreign,
    Rate(u8),
    Subframes(u8),
    Long,
}

// The same in a program's words; `done` is what it does with streams of the known rates and counts, as "played".
#[derive(Clone, Copy)]
pub struct Told {
    pub why: Unplayed,
    pub done: &'static str,
}

impl fmt::Display for Told {
    fn fmt<W: fmt::Write>(&self, f: &mut fmt::Formatter<W>) -> fmt::Result {
        let Told { why, done } = *self;
        match why {
            Unplayed::Cut => f.write_str("no stream: the file ends within its first 16 bytes"),
            Unplayed::Foreign => f.write_str("no stream: the file has another format"),
            Unplayed::Rate(rate) => {
                write!(
                    f,
                    "no stream: its rate is {rate} kHz; {done} are 8, 12 and 16"
                )
            }
            Unplayed::Subframes(n) => {
                write!(
                    f,
                    "no stream: its frames have {n} subframes; {done} are 2 and 4"
                )
            }
            Unplayed::Long => write!(
                f,
                "the stream has more samples than fit into a WAV file; {done} are shorter ones"
            ),
        }
    }
}

// Why a record isn't read: the file ends within it, or its kind is unknown.
#[derive(Clone, Copy)]
pub enum Unread {
    Cut(u32),
    Kind(u32, u8),
}

impl fmt::Display for Unread {
    fn fmt<W: fmt::Write>(&self, f: &mut fmt::Formatter<W>) -> fmt::Result {
        match self {
            Unread::Cut(i) => write!(f, "the file ends within record {i}"),
            Unread::Kind(i, kind) => write!(
                f,
                "record {i} has the kind {kind}; known are 0 (lost) and 1 (received)"
            ),
        }
    }
}

// A stream's first bytes.
pub const MARK: [u8; 8] = *b"SILKVEC1";

#[tactic(auto, unfolding(crate::specs::Header::is_stream))]
fn is_stream(header: &[u8; 16]) -> bool
    ensures { result ≡ is_stream header.now }
{
    stands_at(header, 0, &MARK) & (u16::at(header, 10) == 0)
}

fn samples_of(header: &[u8; 16]) -> u64
    ensures { (result ≡ samples_of header.now) × (result < 2 ^ 62) }
{
    let n = shape::frame_length(i32::from(header[8]), i32::from(header[9]));
    u64::from(u32::at(header, 12)) * (n as u64)
}

// The header of a file whose first bytes, got of them, were read.
pub fn read_header(header: &[u8; 16], got: usize) -> Result<Head, Unplayed>
    ensures { result ≡ opened_of header.now got }
{
    if got < 16 {
        return Err(Unplayed::Cut);
    }
    if !is_stream(header) {
        return Err(Unplayed::Foreign);
    }
    let rate = header[8];
    let subframes = header[9];
    if !shape::is_rate(i32::from(rate)) {
        return Err(Unplayed::Rate(rate));
    }
    if !shape::is_count(i32::from(subframes)) {
        return Err(Unplayed::Subframes(subframes));
    }
    let samples = samples_of(header);
    if 36 + 2 * samples >= 4294967296 {
        return Err(Unplayed::Long);
    }
    Ok(Head {
        rate,
        subframes,
        records: u32::at(header, 12),
        samples: samples as u32,
    })
}

// A record's first bytes, with zeros behind them: 817 in all, the SIZE of crate record, which this crate does not name.
fn padded(kind: u8, rest: &[u8]) -> [u8; 817]
    requires { length rest.now ≤ 816 }
    ensures { result ≡ kind ∷ rest.now ++ replicate (816 - length rest.now) 0 }
{
    let mut bytes = [0; 817];
    bytes[0] = kind;
    bytes[1..1 + rest.len()].copy_from_slice(rest);
    bytes
}

impl Head {
    // The header of the stream that an input begins with.
    pub fn read<R: Read>(input: &mut R) -> io::Result<Result<Head, Unplayed>>
        ensures bytes { IfOk result (λ h. Opened (R.remaining input.old) (R.remaining input.new) h) }
        ensures retried { IfErr result (λ e. error_kind e ≢ ErrorKind.Interrupted) }
    {
        let mut header = [0; 16];
        let got = read_full(input, &mut header)?;
        Ok(read_header(&header, got))
    }

    // The bytes of a frame's samples.
    pub fn sample_bytes(self) -> usize
        ensures { (result ≡ sample_bytes self) × (result ≤ 640) }
    {
        2 * shape::frame_length(i32::from(self.rate), i32::from(self.subframes))
    }

    // The bytes of record i but for the samples that end it, which are passed over; of a lost frame's, the kind alone.
    pub fn next_record<R: Read>(
        self,
        input: &mut R,
        i: u32,
    ) -> io::Result<Result<[u8; 817], Unread>>
        ensures bytes { IfOk result (λ r. Taken (R.remaining input.old) (R.remaining input.new) i (sample_bytes self) r) }
        ensures retried { IfErr result (λ e. error_kind e ≢ ErrorKind.Interrupted) }
    {
        let n = self.sample_bytes();
        let mut first = [0; 1];
        if !fill(input, &mut first)? {
            return Ok(Err(Unread::Cut(i)));
        }
        let kind = first[0];
        if kind > 1 {
            return Ok(Err(Unread::Kind(i, kind)));
        }
        let size = if kind == 1 { 176 + n } else { 0 };
        let mut rest = [0; 1456];
        if !fill(input, &mut rest[..size + n])? {
            return Ok(Err(Unread::Cut(i)));
        }
        Ok(Ok(padded(kind, &rest[..size])))
    }
}
