// Reading of a stream into a buffer that is lent. Assumes nothing of the stream.
#![tactic(auto)]

ghost use Rattle.std.specs.Prelude.{◌<◌, length, take, IfOk};
ghost use Rattle.std.specs.Io.{ReadsAtMost};
ghost use Rattle.std.specs.Io.KnownBytes.{Consumes, IsAtEnd};

use std::io;
use std::io::Read;

// Reads to the front of a buffer until it is full or the stream ends; how many bytes were read. Where a read fails, that is the answer.
pub fn read_full<R: Read>(input: &mut R, buf: &mut [u8]) -> io::Result<usize>
    ensures bound { ReadsAtMost result buf.new }
    ensures bytes { IfOk result (λ n. Consumes (R.remaining input.old) (R.remaining input.new) (take n buf.new)) }
    ensures end { IfOk result (λ n. n < length buf.new → IsAtEnd (R.remaining input.new)) }
{
    let mut done = 0;
    while done < buf.len() {
        let n = input.read(&mut buf[done..])?;
        if n == 0 {
            break;
        }
        done += n;
    }
    Ok(done)
}

#[cfg(test)]
mod tests {
    use super::*;
    use std::io::ErrorKind;
    use std::test::Fail;

    // A stream of so many bytes, one a read, and then an error.
    #[derive(Drop)]
    struct Broken(u8);

    impl Read for Broken {
        fn read(&mut self, buf: &mut [u8]) -> io::Result<usize> {
            if self.0 == 0 {
                return Err(io::Error::from(ErrorKind::BrokenPipe));
            }
            if buf.is_empty() {
                return Ok(0);
            }
            self.0 -= 1;
            buf[0] = b'x';
            Ok(1)
        }
    }

    #[test]
    fn reads_to_the_end(rt: HostRuntime) -> Result<(), Fail> {
        let mut input = b"ab".as_slice().chain(b"cd".as_slice());
        let mut buf = *b"......";
        assert_eq!(rt; read_full(&mut input, &mut buf)?, 4);
        assert_eq!(rt; buf.as_slice(), b"abcd..".as_slice());
        assert_eq!(rt; read_full(&mut input, &mut buf)?, 0);
        Ok(())
    }

    #[test]
    fn reads_no_more_than_has_room(rt: HostRuntime) -> Result<(), Fail> {
        let mut input = b"abcde".as_slice();
        let mut buf = *b"...";
        assert_eq!(rt; read_full(&mut input, &mut buf)?, 3);
        assert_eq!(rt; buf.as_slice(), b"abc".as_slice());
        assert_eq!(rt; read_full(&mut input, &mut buf)?, 2);
        assert_eq!(rt; buf.as_slice(), b"dec".as_slice());
        Ok(())
    }

    #[test]
    fn tells_of_an_error(rt: HostRuntime) -> Result<(), Fail> {
        let mut input = Broken(3);
        let mut buf = [0u8; 2];
        assert_eq!(rt; read_full(&mut input, &mut buf)?, 2);
        assert!(rt; read_full(&mut input, &mut buf).is_err());
        assert!(rt; read_full(&mut input, &mut buf).is_err());
        Ok(())
    }
}
