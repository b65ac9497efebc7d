// Changes of the files.
ghost use Rattle.std.specs.Prelude.{◌≡◌, ◌≤◌, ◌<◌, ℕ, length, OnOk, OnErr};
ghost use Rattle.cl_base.specs.Disk.{ChangesFile, written_file, cut_file, synced_file, settled_file, left_by};
ghost use Rattle.cl_memdisk.specs.Changes.{torn_file};
ghost use Rattle.cl_memdisk.specs.Files.{data_at, file_at};

use crate::file::FileMem;
use cl_base::{Choice, NoMemory};
use std::alloc::Global;

/// Makes room for a file.
fn room(alloc: Global, files: &mut Vec<FileMem>, file: u32) -> Result<(), NoMemory>
    ensures same { (f : ℕ) → data_at files.new.items f ≡ data_at files.old.items f }
    ensures there { OnOk result (file < length files.new.items) }
{
    'grow: while files.len() <= file as usize {
        if files.push(FileMem::new(alloc)).is_err() {
            return Err(NoMemory);
        }
    }
    Ok(())
}

/// Writes to a file.
pub fn write_file(
    alloc: Global,
    files: &mut Vec<FileMem>,
    file: u32,
    at: usize,
    bytes: &[u8],
) -> Result<(), NoMemory>
    requires { at ≤ length (file_at files.old.items file).reads }
    ensures ok { OnOk result (ChangesFile file (file_at files.old.items) (file_at files.new.items) (written_file at bytes.now (file_at files.old.items file))) }
    ensures err { OnErr result ((f : ℕ) → data_at files.new.items f ≡ data_at files.old.items f) }
{
    room(alloc, files, file)?;
    let f = &mut files[file as usize];
    let Ok(()) = f.write(at, bytes) else {
        return Err(NoMemory);
    };
    Ok(())
}

/// Marks a range of a file as if written.
pub fn tear_file(
    alloc: Global,
    files: &mut Vec<FileMem>,
    file: u32,
    from: usize,
    end: usize,
) -> Result<(), NoMemory>
    requires starts { from ≤ length (file_at files.old.items file).reads }
    requires ends { from ≤ end }
    ensures ok { OnOk result (ChangesFile file (file_at files.old.items) (file_at files.new.items) (torn_file from end (file_at files.old.items file))) }
    ensures err { OnErr result ((f : ℕ) → data_at files.new.items f ≡ data_at files.old.items f) }
{
    room(alloc, files, file)?;
    let f = &mut files[file as usize];
    let Ok(()) = f.tear(from, end) else {
        return Err(NoMemory);
    };
    Ok(())
}

/// Cuts a file.
pub fn cut_one(
    alloc: Global,
    files: &mut Vec<FileMem>,
    file: u32,
    len: usize,
) -> Result<(), NoMemory>
    requires { len ≤ length (file_at files.old.items file).reads }
    ensures ok { OnOk result (ChangesFile file (file_at files.old.items) (file_at files.new.items) (cut_file len (file_at files.old.items file))) }
    ensures err { OnErr result ((f : ℕ) → data_at files.new.items f ≡ data_at files.old.items f) }
{
    room(alloc, files, file)?;
    let f = &mut files[file as usize];
    let Ok(()) = f.cut(len) else {
        return Err(NoMemory);
    };
    Ok(())
}

/// Has a file on the disk.
pub fn sync_file(alloc: Global, files: &mut Vec<FileMem>, file: u32) -> Result<(), NoMemory>
    ensures ok { OnOk result (ChangesFile file (file_at files.old.items) (file_at files.new.items) (synced_file (file_at files.old.items file))) }
    ensures err { OnErr result ((f : ℕ) → data_at files.new.items f ≡ data_at files.old.items f) }
{
    room(alloc, files, file)?;
    let f = &mut files[file as usize];
    f.sync();
    Ok(())
}

/// Makes each file what a crash by a choice leaves.
pub fn crash_all(files: &mut [FileMem], choice: Choice)
    ensures { (f : ℕ) → file_at files.new f ≡ settled_file (left_by choice (file_at files.old f)) }
{
    for f in files.iter_mut() {
        f.crash(choice);
    }
}

/// The bytes of a file.
pub fn read_of(files: &[FileMem], file: u32) -> &[u8]
    ensures { result.now ≡ (file_at files.now file).reads }
{
    if file as usize >= files.len() {
        return &[];
    }
    let f = &files[file as usize];
    &f.bytes
}
