// Files that are replaced whole by rename, so that a failed write changes nothing.
#![tactic(auto)]

ghost use Rattle.std.specs.Prelude.{◌≤◌, length};
ghost use Rattle.io.specs.Counts.{IsPrefixLen};

use program_files::{File, ROOM, Told, argument, fail, look, open_read, read, say, text};
use program_modes::{Seen, is_same};
use program_text::{Text, beside};
use std::fmt::InlineText;
use std::fs::{OpenOptions, Permissions};
use std::io::{ErrorKind, Write};
use std::os::fd::AsRawFd;
use std::os::unix::fs::{OpenOptionsExt, PermissionsExt, fchown};
use std::random::RandomSource;
use std::{fs, io};

// The numbers of the system's errors. The last is that of a call that the file system does not support, beside EINVAL. An
// `ErrorKind` joins some of them with others, and its text is not the system's.
const EACCES: i32 = 13;

const EEXIST: i32 = 17;

const EINVAL: i32 = 22;

const EOPNOTSUPP: i32 = 95;

// Room for the path of a file that is replaced.
const PATH: usize = 4096;

// Room for the name of a new file: a path, a dot and six letters or digits.
const NAME: usize = 4103;

// A new file, and the path of the file that it is to replace.
#[derive(Drop)]
struct NewFile {
    name: Text<NAME>,
    path: Text<PATH>,
}

impl NewFile {
    fn name(&self) -> &[u8] {
        self.name.as_bytes()
    }

    fn path(&self) -> &[u8] {
        self.path.as_bytes()
    }
}

// A file that is to be replaced: its path, and what was seen of it.
#[derive(Drop)]
struct Target {
    path: Text<PATH>,
    seen: Seen,
}

// Replaces the first file, then the second. Both new files are written before either takes its name. One that has taken
// its name is no longer there to be removed.
pub fn replace_both(
    rt: HostRuntime,
    first: File,
    new: &[u8],
    second: File,
    other: &[u8],
) -> Result<(), Told> {
    let a = write_beside(rt, first.at, new)?;
    let b = write_beside(rt, second.at, other).inspect_err(|_| unlink(rt, a.name()))?;
    put_both(rt, first, &a, second, &b).inspect_err(|_| {
        unlink(rt, a.name());
        unlink(rt, b.name());
    })
}

// The rest of `replace_both`, once both new files are written. The old bytes are read once more, to be put back if
// something fails.
fn put_both(
    rt: HostRuntime,
    first: File,
    a: &NewFile,
    second: File,
    b: &NewFile,
) -> Result<(), Told> {
    let mut old = [0u8; ROOM];
    let n = read(rt, first.at, &mut old)?.len;
    let mut older = [0u8; ROOM];
    let k = read(rt, second.at, &mut older)?.len;
    may_rename(rt, first.seen, a.path(), second.seen, b.path())?;
    rename_both(rt, first.at, a, &old[..n], second.at, b, &older[..k])
}

// Just before the first rename: whether there are two files, and both paths are still those of the files that were read.
// If not, it says so.
fn may_rename(rt: HostRuntime, was: Seen, p: &[u8], were: Seen, q: &[u8]) -> Result<(), Told> {
    if p == q {
        return Err(say(rt, q, b": cannot be image and ledger at once\n"));
    }
    is_still(rt, p, was)?;
    is_still(rt, q, were)
}

fn is_still(rt: HostRuntime, path: &[u8], seen: Seen) -> Result<(), Told> {
    if look(rt, path).is_some_and(|now| is_same(now, seen)) {
        return Ok(());
    }
    Err(say(
        rt,
        path,
        b": changed by another process, nothing is replaced\n",
    ))
}

// Renames both new files. If that fails, the old bytes are put back, those of the second file first, so that a taking-back
// repairs whatever a cut leaves.
fn rename_both(
    rt: HostRuntime,
    first: usize,
    a: &NewFile,
    old: &[u8],
    second: usize,
    b: &NewFile,
    older: &[u8],
) -> Result<(), Told> {
    let Err(renamed) = rename_in_turn(rt, a, b) else {
        return Ok(());
    };
    if renamed == Renamed::Both && put_back(rt, second, older).is_err() {
        say(rt, a.path(), b": new, as is ");
        return Err(say(rt, b.path(), b"; they may not be on their device yet\n"));
    }
    if renamed != Renamed::Neither && put_back(rt, first, old).is_err() {
        say(rt, a.path(), b": new, and ");
        say(rt, b.path(), b" is old; a taking-back repairs this\n");
    }
    Err(Told)
}

// Which files have been renamed where something failed.
#[derive(Clone, Copy, PartialEq, Eq)]
enum Renamed {
    Neither,
    First,
    Both,
}

// Renames the first new file, then the second, or says why it cannot.
fn rename_in_turn(rt: HostRuntime, a: &NewFile, b: &NewFile) -> Result<(), Renamed> {
    take_name(rt, a).map_err(|_| Renamed::Neither)?;
    sync_folder(rt, a.path()).map_err(|_| Renamed::First)?;
    take_name(rt, b).map_err(|_| Renamed::First)?;
    sync_folder(rt, b.path()).map_err(|_| Renamed::Both)
}

// Puts old bytes back in the place of the file that argument i names, or says why it cannot.
fn put_back(rt: HostRuntime, i: usize, bytes: &[u8]) -> Result<(), Told> {
    let new = write_beside(rt, i, bytes)?;
    take_name(rt, &new).inspect_err(|_| unlink(rt, new.name()))?;
    let _synced = sync_folder(rt, new.path());
    Ok(())
}

// Gives a new file the name of the file that it is to replace, or says why it cannot.
fn take_name(rt: HostRuntime, new: &NewFile) -> Result<(), Told> {
    rename(rt, new).map_err(|error| fail(rt, new.path(), error))
}

fn rename(rt: HostRuntime, new: &NewFile) -> io::Result<()> {
    fs::rename(&rt, text(new.name())?, text(new.path())?)
}

// Removes a new file that is not needed. One that cannot be removed stays.
fn unlink(rt: HostRuntime, path: &[u8]) {
    if let Ok(path) = text(path) {
        let _removed = fs::remove_file(&rt, path);
    }
}

// Syncs the folder of a path to its device, so that the renames reach the device in their order, or says why it cannot. A
// folder that may not be read cannot be synced, which is no failure.
fn sync_folder(rt: HostRuntime, path: &[u8]) -> Result<(), Told> {
    match open_read(rt, &path[..folder(path)]) {
        Ok(folder) => sync(rt, &folder, path),
        Err(error) if error.raw_os_error() == Some(EACCES) => Ok(()),
        Err(error) => Err(fail(rt, path, error)),
    }
}

// Where a file system cannot sync a folder, that is no failure.
fn sync(rt: HostRuntime, folder: &fs::File, path: &[u8]) -> Result<(), Told> {
    match folder.sync_all() {
        Ok(()) => Ok(()),
        Err(error) => match error.raw_os_error() {
            Some(EINVAL | EOPNOTSUPP) => Ok(()),
            _ => Err(fail(rt, path, error)),
        },
    }
}

// The length of a path's folder: up to and including its last slash, or 0 if it has none.
fn folder(path: &[u8]) -> usize
    ensures { IsPrefixLen result path.now }
{
    path.iter()
        .rposition(|byte| *byte == b'/')
        .map_or(0, |slash| slash + 1)
}

// Writes a new file beside the one that argument i names, with its mode and these bytes, and syncs it to its device, or
// says why it cannot. Until the file has its mode, nobody else can open it.
fn write_beside(rt: HostRuntime, i: usize, bytes: &[u8]) -> Result<NewFile, Told> {
    let mut given = [0u8; PATH];
    let n = argument(rt, i, &mut given).unwrap_or(0);
    let given = &given[..n];
    let Target { path, seen } = find_target(rt, given)?;
    let (mut file, name) = create_beside(rt, path.as_bytes()).map_err(|error| fail(
        rt, given, error,
    ))?;
    store(&mut file, seen, bytes).map_err(|error| {
        let told = fail(rt, given, error);
        unlink(rt, name.as_bytes());
        told
    })?;
    Ok(NewFile { name, path })
}

// How many names are tried for a new file, as by the C library's `mkstemp`.
const ATTEMPTS: usize = 238328;

// Makes a file that only its owner may open, under a new name: the path, a dot and six letters or digits.
fn create_beside(rt: HostRuntime, path: &[u8]) -> io::Result<(fs::File, Text<NAME>)>
    requires { length path.now ≤ 4096 }
{
    for _ in 0..ATTEMPTS {
        let name = beside(path, tag(rt)?);
        match create_private(rt, name.as_bytes()) {
            Ok(file) => return Ok((file, name)),
            Err(error) if error.kind() == ErrorKind::AlreadyExists => {}
            Err(error) => return Err(error),
        }
    }
    Err(io::Error::from_raw_os_error(EEXIST))
}

// A file of this name that was not there, for its owner alone.
fn create_private(rt: HostRuntime, name: &[u8]) -> io::Result<fs::File> {
    let mut options = OpenOptions::new();
    options.write(true).create_new(true).mode(0o600);
    options.open(&rt, text(name)?)
}

// A dot, and six letters or digits that nobody can guess.
fn tag(rt: HostRuntime) -> io::Result<[u8; 7]> {
    let mut random = [0u8; 6];
    rt.fill_bytes(&mut random)?;
    let [a, b, c, d, e, f] = random.map(letter);
    Ok([b'.', a, b, c, d, e, f])
}

// One of the 62 letters and digits.
fn letter(byte: u8) -> u8 {
    match byte % 62 {
        k @ 0..=9 => b'0' + k,
        k @ 10..=35 => b'A' + (k - 10),
        k => b'a' + (k - 36),
    }
}

// Owner and group are kept if the system allows it, as it does for root.
fn store(file: &mut fs::File, seen: Seen, bytes: &[u8]) -> io::Result<()> {
    let _owned = fchown(&*file, Some(seen.owner), Some(seen.group));
    file.set_permissions(Permissions::from_mode(seen.bits))?;
    file.write_all(bytes)?;
    file.sync_all()
}

// The file that is to be replaced, or a message that names it `given`. A rename does not ask whether the file itself may
// be written, so that is asked here.
fn find_target(rt: HostRuntime, given: &[u8]) -> Result<Target, Told> {
    let file = open_read(rt, given).map_err(|error| fail(rt, given, error))?;
    let link = link_of(&file);
    let seen = program_modes::look(rt, link.as_str());
    let target = own_path(rt, link.as_str(), seen).map_err(|error| fail(rt, given, error))?;
    let Some(target) = target else {
        return Err(say(rt, given, b": not a plain file that can be replaced\n"));
    };
    open_write(rt, link.as_str()).map_err(|error| fail(rt, given, error))?;
    Ok(target)
}

// The path of an open plain file, as Linux gives it: absolute, and with every link followed. There may be no such path:
// the file may be gone, or it may not be a plain file. An error is one of `std` and not of the system: the path is not
// text, or there is no memory for it.
fn own_path(rt: HostRuntime, link: &str, seen: Option<Seen>) -> io::Result<Option<Target>> {
    match fs::read_link(&rt, link) {
        Ok(own) => Ok(target_at(rt, own.as_str().as_bytes(), seen)),
        Err(error) if error.raw_os_error().is_some() => Ok(None),
        Err(error) => Err(error),
    }
}

// The file at this path, if it is still the one that was seen.
fn target_at(rt: HostRuntime, own: &[u8], seen: Option<Seen>) -> Option<Target> {
    if own.len() > PATH {
        return None;
    }
    let mut path = Text::new();
    path.push(own);
    let now = look(rt, own)?;
    let seen = seen?;
    is_same(now, seen).then_some(Target { path, seen })
}

// Whether the user may write a plain file that is open, or the error of a user who may not. `std` has no call that only
// asks, so the file is opened for writing, and closed: that changes neither its bytes nor its times. It is reached by the
// link to what is open, so that no other file is opened. A program that is running cannot be opened for writing, but the
// system looks at the permission first, and a rename may replace it.
fn open_write(rt: HostRuntime, link: &str) -> io::Result<()> {
    match OpenOptions::new().write(true).open(&rt, link) {
        Ok(_) => Ok(()),
        Err(error) if error.kind() == ErrorKind::ExecutableFileBusy => Ok(()),
        Err(error) => Err(error),
    }
}

// The path by which Linux gives an open file.
fn link_of(file: &fs::File) -> InlineText<32> {
    let folder: InlineText<32> = InlineText::of("/proc/self/fd/");
    folder.and(file.as_raw_fd(), 12)
}
