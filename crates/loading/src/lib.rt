// The start of a file, for the printing programs.
#![tactic(auto)]

ghost use Rattle.io.specs.Counts.{IsPrefixLen};

use std::io::Read;
use std::rt::Files;
use std::{fs, str};

// Reads the start of a file into the buffer, as much as the buffer takes, and answers how many bytes. A file that can't be opened counts as
// empty.
pub fn load<R: Files>(rt: &R, name: &[u8], buf: &mut [u8]) -> usize
    ensures { IsPrefixLen result buf.new }
{
    let path = match str::from_utf8(name) {
        Ok(path) => path,
        Err(_) => return 0,
    };
    match fs::open(rt, path) {
        Ok(mut file) => read_full(&mut file, buf),
        Err(_) => 0,
    }
}

// Reads until the buffer is full, the file ends or a read fails, and answers how many bytes it put at the start of the buffer.
fn read_full<F: Read>(file: &mut F, buf: &mut [u8]) -> usize
    ensures { IsPrefixLen result buf.new }
{
    let mut done = 0;
    while done < buf.len() {
        match file.read(&mut buf[done..]) {
            Ok(0) => break,
            Ok(n) => done += n,
            Err(_) => break,
        }
    }
    done
}
