// Plays a yard recording: standard input has it, standard output gets its samples, 16 bits each, low byte first, standard error the report,
// whose last line counts the frames, or says why nothing is played.
#![tactic(auto)]

use input::read_full;
use le::put_words;
use playback::play;
use std::io::{self, Write};

// Samples and bytes of 60 records.
fn play_bytes(out: &mut impl Write, err: &mut impl Write, bytes: &[u8]) -> io::Result<()> {
    let mut samples = [0i16; 19200];
    let p = match play(bytes, &mut samples) {
        Ok(p) => p,
        Err(refusal) => {
            let number = refusal.number();
            return writeln!(err, "refused: {number} {refusal}");
        }
    };
    let mut raw = [0u8; 38400];
    put_words(&mut raw, 0, &samples);
    let size = 2 * p.samples;
    if out.write_all(&raw[..size]).is_err() {
        return writeln!(err, "the samples could not be written");
    }
    let received = p.received;
    let concealed = p.concealed;
    writeln!(err, "{received} received, {concealed} concealed")
}

// At most 65,536 bytes are read.
fn main(rt: HostRuntime) -> io::Result<()> {
    let mut bytes = [0u8; 65536];
    let n = read_full(&mut rt.stdin(), &mut bytes)?;
    play_bytes(&mut rt.stdout(), &mut rt.stderr(), &bytes[..n])
}
