//! Checks the listing on standard input under the four levels, and prints one line.
#![tactic(auto)]

ghost use Rattle.std.specs.Prelude.{◌≡◌, ◌≤◌, length, take, IfOk, IfSome, vec_len};

use answers::line_of;
use checker::{answer_of, check_text};
use levels::FourLevels;
use std::alloc::Global;
use std::io;
use std::io::Read;

// One byte more than the longest listing: enough to see that a text is too long.
const ROOM: usize = 32769;

// Fills the buffer from the input, as far as it goes. Answers how many bytes came: where the input's
// bytes are known, the first of them.
// Kept: a loop, and not `read_to_end`. Each read asks for all the room that is left, since an input
// that comes in records loses what a read leaves of one; and a read that fails is not tried again.
fn fill<R: Read>(input: &mut R, buffer: &mut [u8]) -> io::Result<usize>
    ensures count { IfOk result (λ n. n ≤ length buffer.old) }
    ensures bytes { IfOk result (λ n. IfSome (R.remaining input.old) (λ bytes. take n buffer.new ≡ take (length buffer.old) bytes)) }
{
    let mut n = 0;
    while n < buffer.len() {
        let more = input.read(&mut buffer[n..])?;
        if more == 0 {
            break;
        }
        n += more;
    }
    Ok(n)
}

// The input as far as the room goes: where its bytes are known, the first of them.
fn read_input<R: Read + Drop>(heap: Global, mut input: R) -> io::Result<Vec<u8>>
    ensures bound { IfOk result (λ text. vec_len text ≤ 32769) }
    ensures bytes { IfOk result (λ text. IfSome (R.remaining input) (λ bytes. text.items ≡ take 32769 bytes)) }
{
    let mut text = vec![in heap; 0u8; ROOM]?;
    let n = fill(&mut input, text.as_mut_slice())?;
    text.truncate(n);
    Ok(text)
}

fn main(rt: HostRuntime) -> io::Result<()> {
    let text = read_input(rt.alloc(), rt.stdin())?;
    let verdict = check_text(&FourLevels, text.as_slice());
    let line = line_of(rt.alloc(), answer_of(verdict))?;
    print!(rt; "{line}")
}

#[cfg(test)]
mod tests {
    use super::read_input;
    use std::io;
    use std::io::{ErrorKind, Read};

    // A record, as a socket gives it: what a read leaves of it is lost.
    #[derive(Drop)]
    struct Record<'a> {
        bytes: &'a [u8],
    }

    impl Read for Record<'_> {
        fn read(&mut self, buf: &mut [u8]) -> io::Result<usize> {
            let n = self.bytes.len().min(buf.len());
            buf[..n].copy_from_slice(&self.bytes[..n]);
            self.bytes = &[];
            Ok(n)
        }
    }

    // An input whose first read a signal interrupts.
    #[derive(Drop)]
    struct Interrupted {
        reads: u32,
    }

    impl Read for Interrupted {
        fn read(&mut self, _buf: &mut [u8]) -> io::Result<usize> {
            self.reads = self.reads.saturating_add(1);
            if self.reads == 1 {
                return Err(ErrorKind::Interrupted.into());
            }
            Ok(0)
        }
    }

    #[test]
    fn record_is_read_whole(rt: HostRuntime) -> io::Result<()> {
        for (bytes, want) in [(0, 0), (1523, 1523), (32769, 32769), (40000, 32769)] {
            let record = vec![in rt.alloc(); b' '; bytes]?;
            let input = Record {
                bytes: record.as_slice(),
            };
            let text = read_input(rt.alloc(), input)?;
            assert_eq!(rt; text.len(), want, "of a record of {bytes}");
        }
        Ok(())
    }

    #[test]
    fn interrupted_read_is_not_tried_again(rt: HostRuntime) {
        let failed = read_input(rt.alloc(), Interrupted { reads: 0 }).is_err();
        assert!(rt; failed);
    }
}
