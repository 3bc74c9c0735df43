// Tells of each line of standard input, an edition and coefficients, whether the filter is stable under it, or why not.
#![tactic(auto)]

use coefficients::{Bad, Entry, blank, ended, fed};
use sentence::{Sentence, sentence_of};
use stability::silk_lpc_inverse_pred_gain_under;
use std::io::{self, Read, Write};

fn bad_line(out: &mut impl Write) -> io::Result<()> {
    out.write_all(
        b"bad line: it is to have an edition, 6716 or 8251, and one to sixteen whole numbers of sixteen bits\n",
    )
}

// The sentence of a whole line.
fn answered(line: Result<Entry, Bad>) -> Result<Sentence, Bad> {
    let last = ended(line?)?;
    let a = last.a;
    // All of a line's numbers but the edition are coefficients.
    let order = last.count.saturating_sub(1);
    silk_lpc_inverse_pred_gain_under(&a[1..], order, i32::from(a[0]))
        .map(sentence_of)
        .map_err(|_| Bad)
}

fn tell(out: &mut impl Write, line: Result<Entry, Bad>) -> io::Result<()> {
    match answered(line) {
        Ok(s) => {
            out.write_all(&s.letters[..s.len.min(64)])?;
            out.write_all(b"\n")
        }
        Err(Bad) => bad_line(out),
    }
}

// The line that is being read, if a byte of it was.
fn read_on(
    out: &mut impl Write,
    line: Option<Result<Entry, Bad>>,
    b: u8,
) -> io::Result<Option<Result<Entry, Bad>>> {
    let line = line.unwrap_or(Ok(blank()));
    if b == b'\n' {
        tell(out, line)?;
        return Ok(None);
    }
    Ok(Some(line.and_then(|e| fed(e, b))))
}

fn main(rt: HostRuntime) -> io::Result<()> {
    let mut input = rt.stdin();
    let mut out = rt.stdout();
    let mut text = [0u8; 4096];
    let mut line = None;
    // At most 1,000,000 parts of up to 4,096 bytes are read.
    for _ in 0..1000000u32 {
        let n = input.read(&mut text)?;
        if n == 0 {
            break;
        }
        for b in &text[..n] {
            line = read_on(&mut out, line, *b)?;
        }
    }
    if let Some(line) = line {
        tell(&mut out, line)?;
    }
    Ok(())
}
