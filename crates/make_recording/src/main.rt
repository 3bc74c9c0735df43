// Makes a yard recording of the first frames of a recorded stream, at most 59: standard input has the stream, standard output gets the recording,
// standard error the report, whose last line counts the frames, or says why there is no recording.
#![tactic(auto)]

use record::Record;
use recorder::{append, begin};
use std::io::{self, Read, Write};
use stream::{Head, Told};

fn record_stream(
    input: &mut impl Read,
    to: &mut impl Write,
    err: &mut impl Write,
    h: Head,
) -> io::Result<()> {
    let rate = i32::from(h.rate);
    let subframes = i32::from(h.subframes);
    let records = h.records;
    let frames = records.min(59);
    let mut out = [0u8; 65536];
    if let Err(refusal) = begin(&mut out, rate, subframes) {
        return writeln!(err, "no recording: {refusal}");
    }
    // The index is a record's number, which its message says: the records come out of the input.
    for i in 0..frames {
        let bytes = match h.next_record(input, i)? {
            Ok(bytes) => bytes,
            Err(unread) => return writeln!(err, "{unread}"),
        };
        let r = Record { bytes: &bytes };
        if let Err(refusal) = append(&mut out, i as usize, rate, subframes, &r) {
            let number = refusal.number();
            return writeln!(err, "frame {i} refused: {number} {refusal}");
        }
    }
    if to.write_all(&out[..1024 * (frames as usize + 1)]).is_err() {
        return writeln!(err, "the recording could not be written");
    }
    writeln!(err, "{frames} of {records} frames recorded")
}

fn main(rt: HostRuntime) -> io::Result<()> {
    let mut input = rt.stdin();
    let mut out = rt.stdout();
    let mut err = rt.stderr();
    match Head::read(&mut input)? {
        Ok(h) => record_stream(&mut input, &mut out, &mut err, h),
        Err(why) => {
            let told = Told {
                why,
                done: "recorded",
            };
            writeln!(err, "{told}")
        }
    }
}
