// Input into a lent buffer: a reader's first bytes, as many as the buffer has room for.
#![tactic(auto)]

ghost use Rattle.std.specs.Prelude.{◌<◌, OnOk, length, take};
ghost use Rattle.std.specs.Io.KnownBytes.{Consumes, IsAtEnd};
ghost use Rattle.reading.specs.Counts.{IsPrefixLen};

use std::io;
use std::io::Read;

// Reads until the buffer is full, the reader is at its end or a read fails. The answer is how many bytes now stand at the buffer's front, all
// that the reader gave, and how it ended: an error is that of the read that failed.
// A pair, since an error leaves what came before it standing: an error type with a count would be no plainer to callers that go on with the bytes.
pub fn fill<R: Read>(reader: &mut R, buffer: &mut [u8]) -> (usize, io::Result<()>)
    ensures front { IsPrefixLen result.0 buffer.new }
    ensures bytes { Consumes (R.remaining reader.old) (R.remaining reader.new) (take result.0 buffer.new) }
    ensures end { OnOk result.1 (result.0 < length buffer.new → IsAtEnd (R.remaining reader.new)) }
{
    let mut count = 0;
    // a read a turn, of as many bytes as it gives
    while count < buffer.len() {
        match reader.read(&mut buffer[count..]) {
            Ok(0) => return (count, Ok(())),
            Ok(n) => count += n,
            Err(e) => return (count, Err(e)),
        }
    }
    (count, Ok(()))
}

#[cfg(test)]
mod tests {
    use super::*;
    use std::io::ErrorKind;

    // A reader of a few bytes at a time, which fails in the end if it is to.
    #[derive(Drop)]
    struct Pieces<'a> {
        bytes: &'a [u8],
        size: usize,
        fails: bool,
    }

    impl Read for Pieces<'_> {
        fn read(&mut self, buffer: &mut [u8]) -> io::Result<usize> {
            if self.fails && self.bytes.is_empty() {
                return Err(io::Error::from(ErrorKind::Other));
            }
            let n = self.size.min(self.bytes.len()).min(buffer.len());
            buffer[..n].copy_from_slice(&self.bytes[..n]);
            self.bytes = &self.bytes[n..];
            Ok(n)
        }
    }

    fn digits_of(fails: bool) -> Pieces<'static> {
        Pieces {
            bytes: b"0123456789",
            size: 3,
            fails,
        }
    }

    #[test]
    fn stops_where_the_buffer_is_full(rt: HostRuntime) {
        let mut reader = digits_of(true);
        let mut buffer = [0u8; 8];
        let (count, ended) = fill(&mut reader, &mut buffer);
        assert!(rt; ended.is_ok());
        assert_eq!(rt; count, 8);
        assert_eq!(rt; &buffer[..], b"01234567".as_slice());
        assert_eq!(rt; reader.bytes, b"89".as_slice());
    }

    #[test]
    fn stops_at_the_end(rt: HostRuntime) {
        let mut buffer = [0u8; 16];
        let (count, ended) = fill(&mut digits_of(false), &mut buffer);
        assert!(rt; ended.is_ok());
        assert_eq!(rt; count, 10);
        assert_eq!(rt; &buffer[..10], b"0123456789".as_slice());
        assert_eq!(rt; &buffer[10..], [0u8; 6].as_slice());
    }

    #[test]
    fn keeps_what_came_before_a_failure(rt: HostRuntime) {
        let mut buffer = [0u8; 16];
        let (count, ended) = fill(&mut digits_of(true), &mut buffer);
        assert!(rt; ended.is_err());
        assert_eq!(rt; count, 10);
        assert_eq!(rt; &buffer[..10], b"0123456789".as_slice());
    }
}
