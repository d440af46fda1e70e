// What a file is: whether it is a plain one, its permission bits, its owner and its group, and what tells it from every
// other file.
#![tactic(auto)]

ghost use Rattle.std.specs.Prelude.{◌≡◌, ◌↔◌, ◌<◌, IfOk, IfSome, IsTrue};
ghost use Rattle.std.specs.Fs.{file_type, IsFile};

use std::fs::Metadata;
use std::os::unix::fs::MetadataExt;
use std::{fs, io};

// A time as the system keeps it: seconds since 1970, and nanoseconds in that second.
#[derive(Clone, Copy, PartialEq, Eq)]
pub struct Time {
    pub seconds: i64,
    pub nanoseconds: i64,
}

// Device and number are of one file alone, and size and the two times change when it is written.
#[derive(Clone, Copy, PartialEq, Eq)]
pub struct State {
    pub device: u64,
    pub number: u64,
    pub size: u64,
    pub modified: Time,
    pub changed: Time,
}

// What was seen of a file. The permission bits are those of 0o7777.
// `is_plain` is a field, and no Option: a file that is not plain is told from one that cannot be seen.
#[derive(Clone, Copy)]
pub struct Seen {
    pub is_plain: bool,
    pub bits: u32,
    pub owner: u32,
    pub group: u32,
    pub state: State,
}

// Looks at the file at a path, or says why nothing can be seen of it. It is not opened: the open of a pipe waits for its
// other end, and that of a device may do anything.
pub fn ask(rt: HostRuntime, path: &str) -> io::Result<Seen>
    ensures { IfOk result (λ seen. seen.bits < 4096) }
{
    let metadata = fs::metadata(&rt, path)?;
    Ok(of_metadata(&metadata))
}

// The same as `ask`, where the reason does not matter. Of a file that is not there, nothing is seen.
pub fn look(rt: HostRuntime, path: &str) -> Option<Seen>
    ensures { IfSome result (λ seen. seen.bits < 4096) }
{
    ask(rt, path).ok()
}

fn of_metadata(metadata: &Metadata) -> Seen
    ensures bits { result.bits < 4096 }
    ensures plain { IsTrue result.is_plain ↔ IsFile (file_type metadata.now) }
{
    let modified = Time {
        seconds: metadata.mtime(),
        nanoseconds: metadata.mtime_nsec(),
    };
    let changed = Time {
        seconds: metadata.ctime(),
        nanoseconds: metadata.ctime_nsec(),
    };
    Seen {
        is_plain: metadata.is_file(),
        bits: metadata.mode() % 0o10000,
        owner: metadata.uid(),
        group: metadata.gid(),
        state: State {
            device: metadata.dev(),
            number: metadata.ino(),
            size: metadata.size(),
            modified,
            changed,
        },
    }
}

// Whether both are of one plain file that has not changed in between. The time at which it was read does not count.
pub fn is_same(a: Seen, b: Seen) -> bool
    ensures { IsTrue result ↔ IsTrue a.is_plain × IsTrue b.is_plain × (a.state ≡ b.state) }
{
    a.is_plain & b.is_plain & (a.state == b.state)
}
