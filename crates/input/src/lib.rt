// Reading of input.
// Inner: every function.
#![tactic(auto)]

ghost use Rattle.std.specs.Prelude.{◌≢◌, IfOk, IfErr};
ghost use Rattle.std.specs.IoError.{error_kind};
ghost use Rattle.input.specs.Full.{Filled, Fills};

use std::io::{self, ErrorKind, Read};

// Fills the buffer as far as the input goes, and answers how many bytes it took. A read that a signal interrupts is made again.
pub fn read_full<R: Read>(input: &mut R, buffer: &mut [u8]) -> io::Result<usize>
    ensures bytes { IfOk result (λ n. Filled (R.remaining input.old) (R.remaining input.new) n buffer.new) }
    ensures retried { IfErr result (λ e. error_kind e ≢ ErrorKind.Interrupted) }
{
    let mut n = 0;
    // A reader may be interrupted without end, so that the loop has the library's bound.
    for _ in 0..u64::MAX {
        if n == buffer.len() {
            return Ok(n);
        }
        match input.read(&mut buffer[n..]) {
            Ok(0) => return Ok(n),
            Ok(k) => n += k,
            Err(e) if e.kind() == ErrorKind::Interrupted => {}
            Err(e) => return Err(e),
        }
    }
    Err(io::Error::from(ErrorKind::TimedOut))
}

// Whether the input had the bytes to fill the buffer; else it ended before.
pub fn fill<R: Read>(input: &mut R, buffer: &mut [u8]) -> io::Result<bool>
    ensures bytes { IfOk result (λ whole. Fills (R.remaining input.old) (R.remaining input.new) whole buffer.new) }
    ensures retried { IfErr result (λ e. error_kind e ≢ ErrorKind.Interrupted) }
{
    Ok(read_full(input, buffer)? == buffer.len())
}

#[cfg(test)]
mod tests {
    use super::*;

    // A reader of 2, 4 and 6, a byte at a time, that is interrupted before each.
    #[derive(Clone, Copy)]
    struct Interrupted {
        turns: u8,
    }

    impl Read for Interrupted {
        fn read(&mut self, buf: &mut [u8]) -> io::Result<usize> {
            self.turns = self.turns.saturating_add(1);
            if self.turns % 2 == 1 {
                return Err(io::Error::from(ErrorKind::Interrupted));
            }
            if self.turns > 6 || buf.is_empty() {
                return Ok(0);
            }
            buf[0] = self.turns;
            Ok(1)
        }
    }

    #[test]
    fn interrupted_reads_are_made_again(rt: HostRuntime) -> io::Result<()> {
        let mut buffer = [0; 5];
        let n = read_full(&mut Interrupted { turns: 0 }, &mut buffer)?;
        assert_eq!(rt; n, 3);
        assert_eq!(rt; buffer, [2, 4, 6, 0, 0]);
        assert!(rt; fill(&mut Interrupted { turns: 0 }, &mut buffer[..3])?);
        assert!(rt; !fill(&mut Interrupted { turns: 0 }, &mut buffer[..4])?);
        Ok(())
    }
}
