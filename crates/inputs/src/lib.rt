//! The files that a program reads.
#![tactic(auto)]

ghost use Rattle.std.specs.Prelude.{◌≤◌, IfOk, vec_len};

use faults::MOST_BYTES;
use std::fs::File;
use std::io;
use std::io::{ErrorKind, Read};

/// One byte more than a sheet or a tape may have: enough to see that a file is too long.
const MOST_BYTES_READ: usize = MOST_BYTES + 1;

/// The bytes of the file `name`, or none where there is no such file. Of a long file only the first
/// 60,001 bytes are read.
pub fn read_input(rt: &HostRuntime, name: &str) -> io::Result<Vec<u8>>
    ensures { IfOk result (λ bytes. vec_len bytes ≤ 60001) }
{
    let mut bytes = Vec::new(rt.alloc());
    match File::open(rt, name) {
        Ok(file) => {
            // A cast, since a `usize` becomes a `u64` by no `From`, and a constant needs no test.
            file.take(MOST_BYTES_READ as u64).read_to_end(&mut bytes)?;
            bytes.truncate(MOST_BYTES_READ);
            Ok(bytes)
        }
        Err(error) if error.kind() == ErrorKind::NotFound => Ok(bytes),
        Err(error) => Err(error),
    }
}

#[cfg(test)]
mod tests {
    use super::*;
    use std::test::Fail;

    #[test]
    fn a_missing_file_is_empty(rt: HostRuntime) -> Result<(), Fail> {
        let bytes = read_input(&rt, "no-such-file")?;
        assert_eq!(rt; bytes.len(), 0);
        Ok(())
    }
}
