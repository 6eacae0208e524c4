// Bytes to a file that is the old one or the whole new one, whatever happens between.
ghost use Rattle.std.specs.Prelude.{◌≡◌, IfOk, IsTrue, ◌↔◌};
ghost use Rattle.files.specs.Name.{IsOutput};

use crate::fault::Fault;
use crate::{fault, named};
use std::fs::File;
use std::io::{ErrorKind, Seek, SeekFrom, Write};
use std::{fs, io, process};

// The system's numbers for a call that the file has no meaning for, and for bytes that were lost.
const INVALID: i32 = 22;

const LOST: i32 = 5;

// No name that leads to a file has as many bytes.
const TOO_MANY: usize = 4096;

// Where the bytes went: to a file, or to a stream that gets them and nothing else.
#[derive(Clone, Copy, Debug, PartialEq, Eq)]
pub enum Wrote {
    File,
    Stream,
}

// What a name leads to.
#[derive(Clone, Copy, Debug, PartialEq, Eq)]
enum Target {
    Output,
    Stream,
    File,
}

// Whether a name is standard output's.
pub fn is_output(name: &[u8]) -> bool
    ensures { IsTrue result ↔ IsOutput name.now }
{
    matches!(name, b"-" | b"/dev/stdout")
}

// Whether a name is that of an open descriptor, which a new file must not replace.
fn is_descriptor(name: &[u8]) -> bool {
    matches!(name, b"/dev/stderr") || name.starts_with(b"/dev/fd/") || name.starts_with(b"/proc/")
}

// What has no flush at all and no bytes to lose is no file on a disk: a pipe, a terminal, a device.
fn kind_of(mut file: File) -> io::Result<Target> {
    match file.sync_all() {
        Err(e) if e.raw_os_error() == Some(INVALID) => {}
        done => return done.map(|()| Target::File),
    }
    match file.seek(SeekFrom::End(0)) {
        Ok(0) | Err(_) => Ok(Target::Stream),
        Ok(_) => Ok(Target::File),
    }
}

// Fills the new file, waits until it has reached the disk, and closes it.
fn fill(mut file: File, bytes: &[u8]) -> io::Result<()> {
    file.write_all(bytes)?;
    file.sync_all()
}

// Bytes on their way to the file or the stream of a name.
#[derive(Clone, Copy)]
struct Save<'a> {
    rt: &'a HostRuntime,
    name: &'a [u8],
    bytes: &'a [u8],
}

impl Save<'_> {
    fn fault(&self, error: io::Error) -> Fault {
        Fault::of_file(self.rt.alloc(), self.name, error)
    }

    // A file that exists is opened for writing and left alone, so that one which may not be written stands.
    fn opened_target(&self) -> io::Result<Target> {
        match named::open_update(self.rt, self.name) {
            Ok(file) => kind_of(file),
            Err(e) if e.kind() == ErrorKind::NotFound => Ok(Target::File),
            Err(e) => Err(e),
        }
    }

    // A pipe is asked for and not found by opening it: whoever reads it would take the close for its end.
    fn target(&self) -> io::Result<Target>
        ensures { IfOk result (λ to. to ≡ Target.File → ¬ IsOutput self.now.name.now) }
    {
        if is_output(self.name) {
            return Ok(Target::Output);
        }
        if is_descriptor(self.name) || named::is_pipe(self.rt, self.name).unwrap_or(false) {
            return Ok(Target::Stream);
        }
        self.opened_target()
    }

    // The name beside the file's: in its folder, with this process's number, by which the launcher knows it too.
    fn name_beside(&self) -> io::Result<Vec<u8>> {
        let folder = match self.name.iter().rposition(|b| *b == b'/') {
            Some(slash) => &self.name[..=slash],
            None => b"",
        };
        let mut beside = folder.to_vec(self.rt.alloc())?;
        write!(beside, ".chz-{}", process::id(self.rt.process()))?;
        Ok(beside)
    }

    // Fills the new file and gives it its name.
    fn place(&self, file: File, beside: &str) -> io::Result<()> {
        fill(file, self.bytes)?;
        // What closing a file has lost std does not say, so the size is asked for that it was left with.
        if fs::metadata(self.rt, beside)?.len() != self.bytes.len() as u64 {
            return Err(io::Error::from_raw_os_error(LOST));
        }
        fs::rename(self.rt, beside, named::path_of(self.name)?)
    }

    // A fault is told of the name that was meant, but for a file that is in the way.
    fn write_new(&self) -> Result<(), Fault> {
        let beside = self.name_beside().map_err(|e| self.fault(e))?;
        let beside = beside.as_slice();
        if beside.len() >= TOO_MANY {
            return Err(Fault::LongName);
        }
        let path = named::path_of(beside).map_err(|e| self.fault(e))?;
        let file = match named::create(self.rt, path) {
            Ok(file) => file,
            Err(e) if e.kind() == ErrorKind::AlreadyExists => {
                return Err(Fault::of_file(self.rt.alloc(), beside, e));
            }
            Err(e) => return Err(self.fault(e)),
        };
        self.place(file, path).map_err(|e| {
            let _ = fs::remove_file(self.rt, path);
            self.fault(e)
        })
    }

    // At the stream's end: what it has is kept.
    fn append(&self) -> io::Result<()> {
        named::open_append(self.rt, self.name)?.write_all(self.bytes)
    }

    fn write(&self) -> Result<Wrote, Fault>
        ensures { IfOk result (λ wrote. wrote ≡ Wrote.File → ¬ IsOutput self.now.name.now) }
    {
        let alloc = self.rt.alloc();
        match self.target().map_err(|e| self.fault(e))? {
            Target::Output => fault::write_output(alloc, &mut self.rt.stdout(), self.bytes)?,
            Target::Stream => self
                .append()
                .map_err(|e| Fault::of_stream(alloc, self.name, e))?,
            Target::File => {
                self.write_new()?;
                return Ok(Wrote::File);
            }
        }
        Ok(Wrote::Stream)
    }
}

// The bytes to the file or the stream of that name.
pub fn write_file(rt: &HostRuntime, name: &[u8], bytes: &[u8]) -> Result<Wrote, Fault>
    ensures { IfOk result (λ wrote. wrote ≡ Wrote.File → ¬ IsOutput name.now) }
{
    Save { rt, name, bytes }.write()
}
