// The front of a file, for the programs that read no more of one.
#![tactic(auto)]

ghost use Rattle.std.specs.Prelude.{◌≡◌, ◌≤◌, length, take, IfOk, IfSome};

use std::fs::File;
use std::io;
use std::io::{ErrorKind, Read};

// Reads into a memory until the reader or the memory is at its end, and answers how many bytes it read. By hand: a rule of the project, no
// heap. The library's read_to_end takes a Vec, its read_exact refuses a shorter reader, and its copy into a slice does not say which bytes.
fn fill<R: Read>(reader: &mut R, bytes: &mut [u8]) -> io::Result<usize>
    ensures count { IfOk result (λ n. n ≤ length bytes.old) }
    ensures bytes { IfOk result (λ n. IfSome (R.remaining reader.old) (λ given. take n bytes.new ≡ take (length bytes.old) given)) }
{
    let mut n = 0;
    while n < bytes.len() {
        let more = reader.read(&mut bytes[n..])?;
        if more == 0 {
            break;
        }
        n += more;
    }
    Ok(n)
}

// The first bytes of a file, as many as the memory takes, at its front; a missing file counts as empty.
pub fn read_front<'a>(rt: &HostRuntime, path: &str, bytes: &'a mut [u8]) -> io::Result<&'a [u8]>
    ensures { IfOk result (λ front. length front.now ≤ length bytes.old) }
{
    let n = match File::open(rt, path) {
        Ok(mut file) => fill(&mut file, bytes)?,
        Err(e) if e.kind() == ErrorKind::NotFound => 0,
        Err(e) => return Err(e),
    };
    Ok(&bytes[..n])
}

#[cfg(test)]
mod tests {
    use super::*;
    use std::test::Fail;

    // A reader whose second read fails.
    #[derive(Drop)]
    struct Broken {
        begun: bool,
    }

    impl Read for Broken {
        fn read(&mut self, buf: &mut [u8]) -> io::Result<usize> {
            if self.begun {
                return Err(io::Error::from(ErrorKind::Other));
            }
            self.begun = true;
            Ok(buf.len().min(1))
        }
    }

    // As much as there is up to the limit, and no front of a reader that fails within it.
    #[test]
    fn of_readers(rt: HostRuntime) -> Result<(), Fail> {
        let given: &[u8] = &[1, 2, 3];
        let mut bytes = [9; 5];
        let mut reader = given;
        assert_eq!(rt; fill(&mut reader, &mut bytes[..2])?, 2);
        assert_eq!(rt; bytes, [1, 2, 9, 9, 9]);
        let mut reader = given;
        assert_eq!(rt; fill(&mut reader, &mut bytes)?, 3);
        assert_eq!(rt; bytes, [1, 2, 3, 9, 9]);
        assert!(rt; fill(&mut Broken { begun: false }, &mut bytes).is_err());
        Ok(())
    }

    // A file with no end, a missing one, and a folder, which can't be read.
    #[test]
    fn of_files(rt: HostRuntime) -> Result<(), Fail> {
        let mut bytes = [9; 3];
        assert_eq!(rt;
            read_front(&rt, "/dev/zero", &mut bytes)?,
            b"\0\0\0".as_slice()
        );
        assert!(rt; read_front(&rt, "no such file", &mut bytes)?.is_empty());
        assert!(rt; read_front(&rt, "/", &mut bytes).is_err());
        Ok(())
    }
}
