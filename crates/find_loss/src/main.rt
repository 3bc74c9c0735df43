// Names the one frame that mattered: standard input has a line of limits and then a yard recording. Standard output gets a line for each limit: the first
// frame whose loss alone brings a sample beyond it in size, that there is none, or why this is refused.
#![tactic(auto)]

use input::read_full;
use single_loss::single_loss;
use std::io;

fn tell(rt: &impl Print, bytes: &[u8], limit: i32) -> io::Result<()> {
    match single_loss(bytes, limit) {
        Ok(Some(k)) => println!(rt; "frame {k}"),
        Ok(None) => println!(rt; "none"),
        Err(refusal) => {
            let number = refusal.number();
            println!(rt; "refused: {number} {refusal}")
        }
    }
}

// A word that is no number of 32 bits is no limit, as 0 is none.
fn limit_of(word: &[u8]) -> i32 {
    let Ok(text) = str::from_utf8(word) else {
        return 0;
    };
    text.parse().unwrap_or(0)
}

// At most 131,072 bytes are read, so that behind a line of some limits the longest recording has room, and a longer file is seen to be longer.
fn main(rt: HostRuntime) -> io::Result<()> {
    let mut text = [0u8; 131072];
    let n = read_full(&mut rt.stdin(), &mut text)?;
    let mut parts = text[..n].splitn(2, |b| *b == b'\n');
    let limits = parts.next().unwrap_or(&[]);
    let bytes = parts.next().unwrap_or(&[]);
    for word in limits.split(|b| *b == b' ') {
        if !word.is_empty() {
            tell(&rt, bytes, limit_of(word))?;
        }
    }
    Ok(())
}
