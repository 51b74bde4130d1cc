// Prints the report on the capture in the working folder: capture.hst and capture.mrk. An absent
// file counts as empty. Every byte that is printed is the lines crate's: this program reads, calls and
// writes what the call put into the buffer.
//
// A file that is there and cannot be read to its end is reported on standard error, and nothing is
// printed: what was read of it would be judged as if it were the whole.
#![tactic(auto)]

ghost use Rattle.std.specs.Prelude.{◌≤◌, length, IfOk};

use lines::put_report_on;
use std::fs;
use std::io::{self, ErrorKind, Read, Write};
use std::rt::Files;

// The most that is read: one byte more than a file may have. A file that is too long is refused for its
// length, however long it is.
const MOST: usize = 32769;

// Reads to the end of the file or of the buffer, whichever comes first, and answers how many bytes
// came.
// Kept as a loop: `read_to_end` fills a Vec, and no clause of it bounds the bytes that come, as this one has to.
fn fill(file: &mut impl Read, buffer: &mut [u8]) -> io::Result<usize>
    ensures { IfOk result (λ n. n ≤ length buffer.new) }
{
    let mut n = 0;
    while n < buffer.len() {
        let more = file.read(&mut buffer[n..])?;
        if more == 0 {
            break;
        }
        n += more;
    }
    Ok(n)
}

// Reads the file into the buffer and gives what came. An absent file has no bytes, and a longer one
// fills the buffer.
fn load<'a>(rt: &impl Files, path: &str, buffer: &'a mut [u8]) -> io::Result<&'a [u8]>
    ensures { IfOk result (λ bytes. length bytes.now ≤ length buffer.old) }
{
    match fs::open(rt, path) {
        Ok(mut file) => {
            let n = fill(&mut file, buffer)?;
            Ok(&buffer[..n])
        }
        Err(e) if e.kind() == ErrorKind::NotFound => Ok(&[]),
        Err(e) => Err(e),
    }
}

fn main(rt: HostRuntime) -> io::Result<()> {
    let mut history = [0; MOST];
    let mut marking = [0; MOST];
    let history = load(&rt, "capture.hst", &mut history)?;
    let marking = load(&rt, "capture.mrk", &mut marking)?;
    let mut text = [0; 343];
    let n = put_report_on(history, marking, &mut text);
    rt.stdout().write_all(&text[..n])
}
