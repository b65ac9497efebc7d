// The files of a folder, of which a few are kept open.
ghost use Rattle.std.specs.Prelude.{◌≡◌, ◌≤◌, ◌<◌, length, IfOk, IfSome, MatchResult, Ok, Err, vec_len};

use cl_base::Trouble;
use std::alloc::{AllocError, Global};
use std::fs::{Files, OpenFile, OpenOptions};
use std::io::{ErrorKind, Read, Seek, SeekFrom, Write};
use std::{fs, io};

/// How many files are kept open.
const MOST_OPEN: usize = 8;

/// The last place that a file of the system can have.
const LAST_PLACE: u64 = (1 << 63) - 1;

#[derive(Drop)]
struct Opened<F> {
    file: u32,
    handle: F,
}

/// A folder, and its files that are open.
#[derive(Drop)]
pub struct Handles<R: Files> {
    rt: R,
    /// The folder's path, with a slash at its end.
    path: String,
    folder: R::File,
    alloc: Global,
    /// The one opened first is the first.
    open: Vec<Opened<R::File>>,
    /// A file was made, or may have been before this disk was, since the folder was last synced.
    has_new_names: bool,
}

/// Every error of the system is a failure of the disk.
fn failed<T: Drop>(answer: io::Result<T>) -> Result<T, Trouble>
    ensures { MatchResult answer (λ v. result ≡ Ok v) (λ _. result ≡ Err Trouble.Failed) }
{
    match answer {
        Ok(value) => Ok(value),
        Err(_) => Err(Trouble::Failed),
    }
}

/// Reads until the buffer is full or the file ends.
fn fill<F: Read>(file: &mut F, buf: &mut [u8]) -> io::Result<usize>
    ensures { IfOk result (λ n. n ≤ length buf.old) }
{
    let mut n = 0;
    for _ in 0..u64::MAX {
        if n >= buf.len() {
            break;
        }
        let got = file.read(&mut buf[n..])?;
        if got == 0 {
            break;
        }
        n += got;
    }
    Ok(n)
}

impl<R: Files + Drop> Handles<R> {
    /// Makes the folder, with those above it, where it isn't there, and opens it.
    pub fn at(rt: R, alloc: Global, dir: String) -> Result<Handles<R>, Trouble> {
        let mut path = dir;
        let ending = if path.is_empty() {
            "./"
        } else if path.as_str().ends_with('/') {
            ""
        } else {
            "/"
        };
        if path.push_str(ending).is_err() {
            return Err(Trouble::NoMemory);
        }
        failed(fs::create_dir_all(&rt, path.as_str()))?;
        let folder = failed(fs::open(&rt, path.as_str()))?;
        Ok(Handles {
            rt,
            path,
            folder,
            alloc,
            open: Vec::new(alloc),
            has_new_names: true,
        })
    }

    /// The path of a file.
    pub fn name_of(&self, file: u32) -> Result<String, AllocError> {
        format!(in self.alloc; "{}f{}", self.path, file)
    }

    pub fn close_all(&mut self) {
        self.open.clear();
    }

    fn open_file(&self, name: &str, makes: bool) -> io::Result<R::File> {
        let mut how = OpenOptions::new();
        how.read(true);
        how.write(true);
        how.create(makes);
        how.open(&self.rt, name)
    }

    /// Opens a file that may not be there. It is made where a change wants it, and is None else.
    fn open_or_make(&mut self, name: &str, makes: bool) -> io::Result<Option<R::File>> {
        match self.open_file(name, false) {
            Ok(handle) => Ok(Some(handle)),
            Err(e) if e.kind() == ErrorKind::NotFound => {
                if !makes {
                    return Ok(None);
                }
                self.has_new_names = true;
                Ok(Some(self.open_file(name, true)?))
            }
            Err(e) => Err(e),
        }
    }

    /// The index of a file among those that are open.
    fn find(&mut self, file: u32, name: &str, makes: bool) -> Result<Option<usize>, Trouble>
        ensures { IfOk result (λ found. IfSome found (λ i. i < vec_len self.new.open)) }
    {
        if let Some(i) = self.open.iter().position(|o| o.file == file) {
            return Ok(Some(i));
        }
        if self.open.reserve(1).is_err() {
            return Err(Trouble::NoMemory);
        }
        let Some(handle) = failed(self.open_or_make(name, makes))? else {
            return Ok(None);
        };
        if self.open.len() >= MOST_OPEN {
            let _ = self.open.remove(0);
        }
        if self.open.push(Opened { file, handle }).is_err() {
            return Err(Trouble::NoMemory);
        }
        Ok(Some(self.open.len() - 1))
    }

    pub fn len(&mut self, file: u32, name: &str) -> Result<u64, Trouble> {
        let Some(i) = self.find(file, name, false)? else {
            return Ok(0);
        };
        let about = failed(self.open[i].handle.metadata())?;
        Ok(about.len())
    }

    pub fn read_at(
        &mut self,
        file: u32,
        name: &str,
        at: u64,
        buf: &mut [u8],
    ) -> Result<usize, Trouble>
        ensures { IfOk result (λ n. n ≤ length buf.old) }
    {
        let Some(i) = self.find(file, name, false)? else {
            return Ok(0);
        };
        if at > LAST_PLACE {
            return Ok(0);
        }
        let handle = &mut self.open[i].handle;
        failed(handle.seek(SeekFrom::Start(at)))?;
        failed(fill(handle, buf))
    }

    pub fn write_at(
        &mut self,
        file: u32,
        name: &str,
        at: u64,
        bytes: &[u8],
    ) -> Result<(), Trouble> {
        let Some(i) = self.find(file, name, true)? else {
            return Err(Trouble::Failed);
        };
        if at > LAST_PLACE {
            return Err(Trouble::Failed);
        }
        let handle = &mut self.open[i].handle;
        failed(handle.seek(SeekFrom::Start(at)))?;
        failed(handle.write_all(bytes))
    }

    pub fn cut(&mut self, file: u32, name: &str, len: u64) -> Result<(), Trouble> {
        let Some(i) = self.find(file, name, true)? else {
            return Err(Trouble::Failed);
        };
        failed(self.open[i].handle.set_len(len))
    }

    /// Syncs the file, and the folder where a name in it may be new.
    pub fn sync(&mut self, file: u32, name: &str) -> Result<(), Trouble> {
        let Some(i) = self.find(file, name, true)? else {
            return Err(Trouble::Failed);
        };
        failed(self.open[i].handle.sync_all())?;
        if self.has_new_names {
            failed(self.folder.sync_all())?;
            self.has_new_names = false;
        }
        Ok(())
    }
}
