// One call over files.
//
//     aktinoph fit OBJECT ORDER IMAGE LEDGER
//     aktinoph take-back IMAGE LEDGER
//
// Number, place and reason go to standard output. If a file cannot be read, or the result cannot be kept, a message on standard
// error names the file, nothing goes to standard output, and no file is changed. If a file is longer than 65,536 bytes,
// `too long` goes to standard output, and a message names the file. If the answer of a done call cannot be written, a
// message says that the files are new. The exit status is always 0: Rattle has no other.
#![tactic(auto)]

ghost use Rattle.std.specs.Prelude.{◌<◌, ◌≤◌, All, MatchOption};

use program_files::{File, MAX_FILE, ROOM, Told, argument, fail, read};
use program_replace::replace_both;
use program_text::Command;
use std::env::FillError;
use std::io::Write;
use std::rt::Env;

// The code of a call that was done.
// The calls of `fitter` answer by a code, as the C interface does.
const DONE: u64 = 0;

fn main(rt: HostRuntime) {
    let mut word = [0u8; 9];
    let n = argument(rt, 1, &mut word).unwrap_or(0);
    let _told = match program_text::asked(&word[..n], argument_count(rt)) {
        Command::Fit => fit(rt),
        Command::TakeBack => take_back(rt),
        Command::Help => usage(rt, rt.stdout()),
        Command::Version => print(rt, b"aktinoph 0.1.0\n"),
        Command::Unknown => usage(rt, rt.stderr()),
    };
}

// The number of arguments. The program's own name counts as one.
fn argument_count(rt: HostRuntime) -> usize {
    (0..usize::MAX)
        .find(|i| !has_argument(rt, *i))
        .unwrap_or(usize::MAX)
}

// An argument that does not fit into the byte is there all the same.
fn has_argument(rt: HostRuntime, i: usize) -> bool {
    let mut byte = [0u8; 1];
    match rt.arg(i, &mut byte) {
        Ok(_) | Err(FillError::TooLong) => true,
        Err(FillError::NotPresent) => false,
    }
}

fn usage<W: Write + Drop>(rt: HostRuntime, mut to: W) -> Result<(), Told> {
    let line =
        b"usage: aktinoph fit OBJECT ORDER IMAGE LEDGER\n       aktinoph take-back IMAGE LEDGER\n       aktinoph --help\n       aktinoph --version\n";
    to.write_all(line)
        .map_err(|error| fail(rt, b"standard output", error))
}

// The ledger is replaced first. If the program is cut off between the two, the ledger still holds the image's old
// bytes.
fn fit(rt: HostRuntime) -> Result<(), Told> {
    let mut object = [0u8; ROOM];
    let a = read(rt, 2, &mut object)?;
    let mut order = [0u8; ROOM];
    let b = read(rt, 3, &mut order)?;
    let object = &object[..a.len];
    let order = &order[..b.len];
    over_files(
        rt,
        &[a, b],
        4,
        5,
        |image_file, image, ledger_file, ledger| {
            let code = fitter::aktinoph_fit(object, order, image, ledger);
            keep(rt, code, ledger_file, ledger, image_file, image)
        },
    )
}

// The image is replaced first. If the program is cut off between the two, the fit can be taken back once more.
fn take_back(rt: HostRuntime) -> Result<(), Told> {
    over_files(rt, &[], 2, 3, |image_file, image, ledger_file, ledger| {
        let code = fitter::aktinoph_take_back(image, ledger);
        keep(rt, code, image_file, image, ledger_file, ledger)
    })
}

// Makes a call over the files of image and ledger, which the arguments `image_at` and `ledger_at` name, if neither they nor
// the files that were read before are too long.
fn over_files<F>(
    rt: HostRuntime,
    before: &[File],
    image_at: usize,
    ledger_at: usize,
    call: F,
) -> Result<(), Told>
where
    F: FnOnce(File, &mut [u8], File, &mut [u8]) -> Result<(), Told>,
    requires { F.IsAlwaysCallable call }
{
    let mut image = [0u8; ROOM];
    let a = read(rt, image_at, &mut image)?;
    let mut ledger = [0u8; ROOM];
    let b = read(rt, ledger_at, &mut ledger)?;
    if let Some(long) = first_long(before).or(first_long(&[a, b])) {
        program_files::say_long(rt, long.at);
        return print(rt, b"too long\n");
    }
    call(a, &mut image[..a.len], b, &mut ledger[..b.len])
}

// "files of at most 65,536 bytes": the first one that is longer.
fn first_long(files: &[File]) -> Option<File>
    ensures { MatchOption result (All (λ file. file.len ≤ 65536) files.now) (λ file. 65536 < file.len) }
{
    files.iter().copied().find(|file| file.len > MAX_FILE)
}

// Replaces both files if the call was done, and then prints its answer.
fn keep(
    rt: HostRuntime,
    code: u64,
    first: File,
    new: &[u8],
    second: File,
    other: &[u8],
) -> Result<(), Told> {
    if code == DONE {
        replace_both(rt, first, new, second, other)?;
    }
    print(rt, program_text::line_of(code).as_bytes()).inspect_err(|_| {
        if code == DONE {
            program_files::tell(rt, b"the call is done, image and ledger are new\n");
        }
    })
}

fn print(rt: HostRuntime, line: &[u8]) -> Result<(), Told> {
    rt.stdout()
        .write_all(line)
        .map_err(|error| fail(rt, b"standard output", error))
}
