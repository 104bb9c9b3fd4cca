// Reading.
ghost use Rattle.std.specs.Prelude.{◌+◌, ◌≤◌, IfOk, MatchOption, ⊤, length};
ghost use Rattle.io.specs.Counts.{IsPrefixLen};

use crate::out::{Stopped, fail};
use names::put::{put_byte, put_bytes};
use std::io::{Error, ErrorKind};
use std::rt::Files;
use std::{fs, io};

// Reads on behind the first bytes: how many bytes there are then. Where reading fails, standard error says why.
fn read_on<F: io::Read>(
    file: &mut F,
    path: &[u8],
    buffer: &mut [u8],
    from: usize,
) -> Result<usize, Stopped>
    requires { from ≤ length buffer.old }
    ensures { IfOk result (λ n. (from ≤ n) × (n ≤ length buffer.new)) }
{
    match file.read(&mut buffer[from..]) {
        Ok(n) => Ok(from + n),
        Err(e) => {
            fail(path, &e);
            Err(Stopped)
        }
    }
}

// Reads the file of this name that was opened, no further than the buffer, and answers how many bytes were read. One that could not be opened counts
// as empty; one that can't be read to its end has no such number, so that a part of it never passes for the whole.
pub fn read_open<F: io::Read + Drop>(
    file: Option<F>,
    path: &[u8],
    buffer: &mut [u8],
) -> Result<usize, Stopped>
    ensures { IfOk result (λ n. IsPrefixLen n buffer.new) }
{
    let Some(mut file) = file else {
        return Ok(0);
    };
    let mut n = 0;
    while n < buffer.len() {
        let end = read_on(&mut file, path, buffer, n)?;
        if end == n {
            break;
        }
        n = end;
    }
    Ok(n)
}

// A folder's name, a slash and a file's name, or the file's alone where the folder has none, which is the working directory; no bytes where they
// are too long.
pub fn put_file_name(name: &mut [u8; 4096], folder: &[u8], file: &[u8]) -> usize
    ensures { IsPrefixLen result name.new }
{
    if 4000 < folder.len() || 32 < file.len() {
        return 0;
    }
    if folder.len() == 0 {
        return put_bytes(name, 0, file);
    }
    let slash = put_bytes(name, 0, folder);
    let from = put_byte(name, slash, b'/');
    put_bytes(name, from, file)
}

// Reads a file by its name into the front of what is lent, no further than so many bytes: none where it does not open. Only a name that is UTF-8 text
// can be asked for: any other counts as that of a file that opens and cannot be read.
pub fn read_file(
    rt: &impl Files,
    path: &[u8],
    most: usize,
    buffer: &mut [u8],
) -> Result<Option<usize>, Stopped>
    requires { most ≤ length buffer.old }
    ensures { IfOk result (λ o. MatchOption o ⊤ (λ n. IsPrefixLen n buffer.new)) }
{
    let Ok(name) = str::from_utf8(path) else {
        fail(
            path,
            &Error::new(ErrorKind::InvalidFilename, "the name is not UTF-8 text"),
        );
        return Err(Stopped);
    };
    let Ok(file) = fs::open(rt, name) else {
        return Ok(None);
    };
    let n = read_open(Some(file), path, &mut buffer[..most])?;
    Ok(Some(n))
}
