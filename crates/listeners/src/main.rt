// Runs trials: a line of standard input has the numbers of one and the seeds of its sixteen listeners, standard output gets a table of what they heard.
#![tactic(auto)]

use input::read_full;
use line::{Line, line_of};
use listener::{Counts, Link, seeds_of};
use std::io;
use trial::run;
use word::bits32;

fn usage(rt: &impl Print) -> io::Result<()> {
    println!(rt;
        "a trial is a line RATE SUBFRAMES SEED SQUELCH FRAMES LEAVE_GOOD LEAVE_BAD and sixteen listeners' seeds, LEAVE_ from 0 to 65535"
    )
}

// The sums of the counts, of frames received, concealed and squelched.
fn write_sums(rt: &impl Print, rows: &[Counts; 16]) -> io::Result<()> {
    let mut received = 0u64;
    let mut concealed = 0u64;
    let mut squelched = 0u64;
    for c in rows.iter() {
        received = received.saturating_add(u64::from(c.received));
        concealed = concealed.saturating_add(u64::from(c.concealed));
        squelched = squelched.saturating_add(u64::from(c.squelched));
    }
    println!(rt; "         all            {received:>12}{concealed:>12}{squelched:>12}")
}

fn write_table(rt: &impl Print, rows: &[Counts; 16], seeds: &[i32; 16]) -> io::Result<()> {
    println!(rt; "    listener        seed    received   concealed   squelched")?;
    for (i, c) in rows.iter().enumerate() {
        let Counts {
            received,
            concealed,
            squelched,
        } = *c;
        let seed = seeds[i];
        println!(rt; "{i:>12}{seed:>12}{received:>12}{concealed:>12}{squelched:>12}")?;
    }
    write_sums(rt, rows)
}

fn try_row(rt: &impl Print, row: &[i32; 64], link: Link) -> io::Result<()> {
    // Behind the seven numbers of a trial.
    let seeds = seeds_of(&row[7..23]);
    match run(row[0], row[1], row[2], row[3], bits32(row[4]), link, seeds) {
        Ok(rows) => write_table(rt, &rows, &seeds),
        Err(refusal) => {
            let number = refusal.number();
            println!(rt; "refused: {number} {refusal}")
        }
    }
}

// A line; an empty one is passed over.
fn tell(rt: &impl Print, l: Line) -> io::Result<()> {
    if l.count == 0 {
        return Ok(());
    }
    let row = l.row;
    match (l.count, u16::try_from(row[5]), u16::try_from(row[6])) {
        (23, Ok(leave_good), Ok(leave_bad)) => try_row(
            rt,
            &row,
            Link {
                leave_good,
                leave_bad,
            },
        ),
        _ => usage(rt),
    }
}

// At most 65,536 bytes are read.
fn main(rt: HostRuntime) -> io::Result<()> {
    let mut text = [0u8; 65536];
    let n = read_full(&mut rt.stdin(), &mut text)?;
    for bytes in text[..n].split_inclusive(|b| *b == b'\n') {
        tell(&rt, line_of(bytes))?;
    }
    Ok(())
}
