//! The standard descriptors, and the status of a device that failed.

ghost use Rattle.hg_commands.specs.Commands.{IsDeviceStatus};

use std::fs::{File, Files};
use std::io;
use std::os::fd::AsRawFd;

/// How many standard descriptors there are.
const STANDARD: i32 = 3;

/// Takes the standard descriptors that are closed. A file of the program's would have their number, and get
/// what is written to standard output or standard error. A folder takes nothing.
pub fn take_closed<R: Files<File = File> + AllocGlobal>(rt: &R) -> io::Result<Vec<File>> {
    let mut taken = Vec::new(rt.alloc());
    for _ in 0..STANDARD {
        let folder = File::open(rt, "/")?;
        if folder.as_raw_fd() >= STANDARD {
            break;
        }
        taken.push(folder)?;
    }
    Ok(taken)
}

/// The status where a file or a socket could not be had.
pub fn device_status(error: &io::Error) -> u8
    ensures { IsDeviceStatus result }
{
    match error.kind() {
        io::ErrorKind::OutOfMemory => 4,
        _ => 3,
    }
}
