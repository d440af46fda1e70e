// Files, each given by the position of its name among the arguments. They are looked at, and read whole.
//
// The bytes of a name are kept as they are given, for the messages and for the names of new files. The files themselves
// are reached by text, which is all that `std` takes: a name that is not UTF-8 is refused as the system refuses a
// malformed one.
#![tactic(auto)]

ghost use Rattle.std.specs.Prelude.{◌≡◌, IfOk, IsUtf8, MatchResult};
ghost use Rattle.std.specs.Io.{ReadsAtMost};
ghost use Rattle.io.specs.Counts.{IsPrefixLen};

use program_modes::Seen;
use std::env::FillError;
use std::fmt::InlineText;
use std::io::{Read, Write};
use std::rt::Env;
use std::{fs, io};

// "files of at most 65,536 bytes"
pub const MAX_FILE: usize = 65536;

// Room for a file, and for one byte more, which shows that a file is too long.
pub const ROOM: usize = 65537;

// Room for a path, without the 0 that ends it.
const PATH: usize = 4095;

// The numbers of the system's errors, whose texts the messages give: those of an `ErrorKind` are others.
const EINVAL: i32 = 22;

const ENAMETOOLONG: i32 = 36;

const EILSEQ: i32 = 84;

// A file as it was read: the number of its argument, how many bytes of it were read, at most one more than the limit, and
// what was seen of it before. The bytes are apart, in the caller's buffer, since a call changes them.
#[derive(Clone, Copy)]
pub struct File {
    pub at: usize,
    pub len: usize,
    pub seen: Seen,
}

// A failure of which standard error has been told.
#[derive(Clone, Copy)]
pub struct Told;

// Puts argument i at the start of `given`, and returns its length. Of one that is longer than `given`, which is an error,
// the first bytes are there.
pub fn argument(rt: HostRuntime, i: usize, given: &mut [u8]) -> io::Result<usize>
    ensures { ReadsAtMost result given.new }
{
    rt.arg(i, given).map_err(|error| {
        io::Error::from_raw_os_error(match error {
            FillError::TooLong => ENAMETOOLONG,
            FillError::NotPresent => EINVAL,
        })
    })
}

// Reads the file that argument i names, or says why it cannot. What is no plain file is not opened.
pub fn read(rt: HostRuntime, i: usize, buf: &mut [u8]) -> Result<File, Told>
    ensures { IfOk result (λ file. IsPrefixLen file.len buf.new) }
{
    let mut path = [0u8; PATH];
    let n = argument(rt, i, &mut path).map_err(|error| fail(rt, &path, error))?;
    let path = &path[..n];
    let seen = ask(rt, path).map_err(|error| fail(rt, path, error))?;
    if !seen.is_plain {
        return Err(say(rt, path, b": not a plain file\n"));
    }
    let len = read_plain(rt, path, buf).map_err(|error| fail(rt, path, error))?;
    Ok(File { at: i, len, seen })
}

// Says that the file that argument i names is longer than the program takes.
pub fn say_long(rt: HostRuntime, i: usize) {
    let mut path = [0u8; PATH];
    let n = argument(rt, i, &mut path).unwrap_or(0);
    say(
        rt,
        &path[..n],
        b": longer than 65,536 bytes, the most that this program takes\n",
    );
}

fn read_plain(rt: HostRuntime, path: &[u8], buf: &mut [u8]) -> io::Result<usize>
    ensures { ReadsAtMost result buf.new }
{
    let mut file = open_read(rt, path)?;
    read_all(&mut file, buf)
}

// Opens the file at a path for reading.
pub fn open_read(rt: HostRuntime, path: &[u8]) -> io::Result<fs::File> {
    fs::open(&rt, text(path)?)
}

// The path as text, by which `std` reaches a file, or an error where its bytes are none.
pub fn text(path: &[u8]) -> io::Result<&str>
    ensures { MatchResult result (λ text. text.now ≡ path.now) (λ _. ¬ (IsUtf8 path.now)) }
{
    str::from_utf8(path).map_err(|_| io::Error::from_raw_os_error(EILSEQ))
}

// What is seen of the file at a path, or why nothing is. Linux takes paths of at most 4,095 bytes.
fn ask(rt: HostRuntime, path: &[u8]) -> io::Result<Seen> {
    program_modes::ask(rt, text(path)?)
}

// What is seen of the file at a path, if anything is. Why nothing is seen does not matter.
// It is `look` of `program_modes` for a path as bytes.
pub fn look(rt: HostRuntime, path: &[u8]) -> Option<Seen> {
    ask(rt, path).ok()
}

// Reads until the file ends or buf is full. So an endless file counts as too long, and the program does not hang. The loop goes on by as
// many bytes as a read gave.
fn read_all(file: &mut fs::File, buf: &mut [u8]) -> io::Result<usize>
    ensures { ReadsAtMost result buf.new }
{
    let mut done: usize = 0;
    while done < buf.len() {
        let more = file.read(&mut buf[done..])?;
        if more == 0 {
            break;
        }
        done += more;
    }
    Ok(done)
}

// Says something of a file on standard error.
pub fn say(rt: HostRuntime, name: &[u8], what: &[u8]) -> Told {
    tell(rt, name);
    tell(rt, what);
    Told
}

// Writes bytes to standard error. Where that fails, there is nobody left to tell.
pub fn tell(rt: HostRuntime, bytes: &[u8]) {
    let mut stderr = rt.stderr();
    let _told = stderr.write_all(bytes);
}

// Says on standard error what failed, by a name, a colon and the system's text for the error.
pub fn fail(rt: HostRuntime, name: &[u8], error: io::Error) -> Told {
    let message: InlineText<256> = InlineText::of(error);
    let cause = cause(message.as_str());
    tell(rt, name);
    tell(rt, b": ");
    tell(rt, cause.as_bytes());
    tell(rt, b"\n");
    Told
}

// The message of an error without its number, which `std` puts behind the system's text.
fn cause(message: &str) -> &str {
    message
        .split_once(" (os error ")
        .map_or(message, |(cause, _)| cause)
}
