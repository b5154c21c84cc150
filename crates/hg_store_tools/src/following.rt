//! A store in its folder, or another file that grows, which is followed.

ghost use Rattle.std.specs.Prelude.{◌≤◌};
ghost use Rattle.hg_store.specs.Head.{IsHead};
ghost use Rattle.hg_store_tools.specs.Trails.{IsFollowed};
ghost use Rattle.hg_store_tools.specs.declared.follow.FollowEnd.{FollowEnd as AnyEnd};

use crate::bundles::Logging;
use crate::fault::{ArchiveFault, Fault, NamedFile};
use crate::folder::sending_fault;
use crate::follow::{FollowEnd, Pause, follow};
use crate::form::BundleForm;
use crate::host::{fault_of, placed_start, store_reader};
use crate::marks::StoreStart;
use crate::measured::Measured;
use crate::trail::{FileTrail, GrowingFile};
use hg_connection::Writer;
use libc::net::{POLLERR, POLLHUP, POLLNVAL, poll};
use libc::types::pollfd;
use std::alloc::Allocator;
use std::fs::{File, Files};
use std::io::{BufReader, ErrorKind, Seek, SeekFrom};
use std::os::unix::fs::MetadataExt;
use std::{fs, io};

/// For how many milliseconds a store is not looked at in which all pushes were found: so it is looked at five times a
/// second at most.
const PAUSE: i32 = 200;

/// What tells that the other end of a descriptor is gone.
const GONE: i16 = POLLERR | POLLHUP | POLLNVAL;

/// Writes the frames of the pushes of a store that is followed, from a place on and in that form: the frame of each is
/// written once it is durable. It begins at the front of the file, which has to have a head.
pub fn send_trail<F: GrowingFile + Drop, W: Writer, P: Pause, A: Allocator + Copy>(
    alloc: A,
    file: F,
    from: usize,
    form: BundleForm,
    writer: &mut W,
    pause: &mut P,
) -> FollowEnd
    ensures { IsFollowed form A from result (W.told writer.old).taken (W.told writer.new).taken }
{
    let (trail, begun) = match FileTrail::open(alloc, file) {
        Ok(opened) => opened,
        Err(fault) => return FollowEnd::Stopped(fault),
    };
    let log = Logging {
        alloc,
        limits: begun.head.limits,
        from,
        form,
    };
    let mut trail = trail;
    follow(&mut trail, &log, 0, writer, pause)
}

/// The same of a store from a mark on. No record before that is read.
pub fn send_trail_on<F: GrowingFile + Drop, W: Writer, P: Pause, A: Allocator + Copy>(
    alloc: A,
    start: &StoreStart,
    file: F,
    from: usize,
    form: BundleForm,
    writer: &mut W,
    pause: &mut P,
) -> FollowEnd
    requires head { IsHead start.now.head }
    requires mark { start.now.mark.place ≤ from }
    ensures { IsFollowed form A from result (W.told writer.old).taken (W.told writer.new).taken }
{
    let log = Logging {
        alloc,
        limits: start.head.limits,
        from,
        form,
    };
    let mut trail = FileTrail::on(alloc, file, start);
    follow(&mut trail, &log, start.mark.place, writer, pause)
}

impl<A: Allocator> GrowingFile for BufReader<Measured<File>, A> {
    fn byte_at(&self, place: u64) -> io::Result<Option<u8>> {
        self.get_ref().byte_at(place)
    }

    fn go_to(&mut self, place: u64) -> io::Result<()> {
        self.seek(SeekFrom::Start(place))?;
        Ok(())
    }

    fn sync(&mut self) -> io::Result<()> {
        self.get_ref().file().sync_data()
    }
}

/// Why the store of a folder is followed no more.
#[derive(Clone, Copy, Debug, PartialEq, Eq)]
pub enum FollowStop {
    /// Nobody reads what is written.
    ReaderGone,
    /// The file has its name no more: the store was ended before a place, written anew, or taken away.
    Replaced,
}

/// What is looked at while a store is followed: whether somebody reads what is written, and whether the file that is
/// read still has its name.
#[derive(Drop)]
struct Watch<'a, R: Files, A: Allocator> {
    files: &'a R,
    name: String<A>,
    /// The device of the file, and its number there.
    device: u64,
    number: u64,
    /// The descriptor of what is written to.
    output: i32,
    stop: FollowStop,
}

impl<R: Files<File = File>, A: Allocator> Watch<'_, R, A> {
    /// Whether another file has the name, or none.
    fn is_replaced(&self) -> bool {
        match fs::symlink_metadata(self.files, self.name.as_str()) {
            Ok(named) => named.dev() != self.device || named.ino() != self.number,
            Err(error) => error.kind() == ErrorKind::NotFound,
        }
    }
}

impl<R: Files<File = File>, A: Allocator> Pause for Watch<'_, R, A> {
    fn goes_on(&mut self, is_idle: bool) -> bool {
        let wait = if is_idle { PAUSE } else { 0 };
        if is_reader_gone(self.output, wait) {
            self.stop = FollowStop::ReaderGone;
            return false;
        }
        if self.is_replaced() {
            self.stop = FollowStop::Replaced;
            return false;
        }
        true
    }
}

/// Waits for so many milliseconds whether nobody reads any more what is written to a descriptor.
fn is_reader_gone(output: i32, wait: i32) -> bool {
    let mut asked = [pollfd {
        fd: output,
        events: 0,
        revents: 0,
    }];
    let _ready = poll(&mut asked, wait);
    asked[0].revents & GONE != 0
}

/// Follows the store in a folder, as [`send_trail`] does, also while another process holds it. It is looked at five
/// times a second. Nothing is changed but its index, and nothing is held. The descriptor is that of the writer: it ends once
/// nobody reads there.
pub fn follow_store<'a, R: Files<File = File>, A: Allocator + Copy, W: Writer>(
    files: &R,
    alloc: A,
    folder: &'a str,
    from: usize,
    form: BundleForm,
    output: i32,
    writer: &mut W,
) -> Result<FollowStop, ArchiveFault<'a>>
    ensures { (end : AnyEnd) × IsFollowed form A from end (W.told writer.old).taken (W.told writer.new).taken }
{
    let store = NamedFile::Store(folder);
    let file = match store_reader(files, alloc, folder) {
        Ok(file) => file,
        Err(fault) => return Err(ArchiveFault { file: store, fault }),
    };
    let mut watch = match watch_of(files, alloc, folder, output, file.get_ref().file()) {
        Ok(watch) => watch,
        Err(fault) => {
            drop(file);
            return Err(ArchiveFault { file: store, fault });
        }
    };
    let start = match placed_start(files, alloc, folder, file.get_ref().file(), from) {
        Ok(start) => start,
        Err(fault) => {
            drop(file);
            return Err(ArchiveFault { file: store, fault });
        }
    };
    match send_trail_on(alloc, &start, file, from, form, writer, &mut watch) {
        FollowEnd::Left => Ok(watch.stop),
        FollowEnd::Stopped(Fault::Unsent) if is_reader_gone(output, 0) => Ok(
            FollowStop::ReaderGone,
        ),
        FollowEnd::Stopped(fault) => Err(sending_fault(folder, fault)),
    }
}

/// What is looked at while that file is followed.
fn watch_of<'a, R: Files<File = File>, A: Allocator + Copy>(
    files: &'a R,
    alloc: A,
    folder: &str,
    output: i32,
    file: &File,
) -> Result<Watch<'a, R, A>, Fault> {
    let found = match file.metadata() {
        Ok(found) => found,
        Err(error) => return Err(fault_of(error)),
    };
    Ok(Watch {
        files,
        name: format!(in alloc; "{folder}/pushes")?,
        device: found.dev(),
        number: found.ino(),
        output,
        stop: FollowStop::ReaderGone,
    })
}
