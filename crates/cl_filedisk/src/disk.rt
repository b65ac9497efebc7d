// The disk.
ghost use Rattle.std.specs.Prelude.{◌≡◌, ◌≤◌, ℕ, [], false, true, Some, None, IfOk, IsTrue, length};
ghost use Rattle.cl_base.specs.Counts.{HasCause};
ghost use Rattle.cl_base.specs.Disk.{settled_file};
ghost use Rattle.cl_filedisk.specs.Guard.{IsFresh, refuses, LookGuarded, ChangeGuarded};

use crate::guard::Guard;
use crate::handles::Handles;
use cl_base::{Choice, Disk, Trouble};
use std::alloc::Global;
use std::fs::Files;

/// Numbered files in a folder of the system. It tells nothing of their contents: what a real file holds is trusted.
/// A file that isn't there has length 0, and the first change makes it.
///
/// Its fuse is a disk's: it refuses the changing calls past those that it lets pass, and then every call, until a
/// crash. A crash changes no file and clears the fuse.
#[derive(Drop)]
pub struct FileDisk<R: Files> {
    files: Handles<R>,
    guard: Guard,
}

impl<R: Files + Clone + Drop> FileDisk<R> {
    /// The disk in this folder, which is made where it isn't there. It answers Failed where the folder can't be had.
    pub fn at(rt: R, alloc: Global, dir: String) -> Result<FileDisk<R>, Trouble>
        ensures { IfOk result (λ d. IsFresh d.guard) }
    {
        let files = Handles::at(rt, alloc, dir)?;
        Ok(FileDisk {
            files,
            guard: Guard::new(),
        })
    }
}

impl<R: Files + Drop> FileDisk<R> {
    /// Counts a fault of a looking call.
    fn looked<T: Drop>(&mut self, answer: Result<T, Trouble>) -> Result<T, Trouble>
        requires { self.old.guard.burnt ≡ false }
        ensures same { result ≡ answer }
        ensures cause { HasCause self.old.guard.faults self.new.guard.faults result }
        ensures guard { LookGuarded self.old.guard self.new.guard result }
    {
        if let Err(Trouble::Failed) = &answer {
            self.guard.count_fault();
            self.files.close_all();
        }
        answer
    }

    /// Takes one off the fuse for a changing call, and counts its fault.
    fn changed(&mut self, answer: Result<(), Trouble>) -> Result<(), Trouble>
        requires { refuses self.old.guard ≡ false }
        ensures same { result ≡ answer }
        ensures cause { HasCause self.old.guard.faults self.new.guard.faults result }
        ensures guard { ChangeGuarded self.old.guard self.new.guard result }
    {
        match &answer {
            Ok(()) => self.guard.pass(),
            Err(Trouble::NoMemory) => {}
            Err(Trouble::Failed) => {
                self.guard.pass();
                self.guard.count_fault();
                self.files.close_all();
            }
        }
        answer
    }
}

impl<R: Files + Drop> Disk for FileDisk<R> {
    ghost use Rattle.cl_filedisk.specs.Untold.{untold};

    ghost tells = { λ _. false };

    ghost is_honest = { λ _. false };

    ghost state = { λ _. record { files = λ _. settled_file []; lets = None; burnt = false; own_faults = 0 } };

    ghost fault_count = { λ d. d.guard.faults };

    ghost moment = { λ _. 0 };

    ghost left_since = { λ _ _ _. Unit {0} };

    ghost honest_tells = { λ d h. h };

    ghost reads_is_image = { λ d f h. untold h };

    ghost synced_is_image = { λ d f h. untold h };

    ghost counts_now = { λ d t c h le image. untold h };

    ghost only_now = { λ d c h left. untold h };

    fn faults(&self) -> u64 {
        self.guard.faults
    }

    fn len(&mut self, file: u32) -> Result<u64, Trouble>
        ensures cause { HasCause self.old.guard.faults self.new.guard.faults result }
        ensures tells { false ≡ false }
        ensures honest { false ≡ false }
        ensures guard { LookGuarded self.old.guard self.new.guard result }
    {
        let Ok(name) = self.files.name_of(file) else {
            return Err(Trouble::NoMemory);
        };
        if self.guard.burnt {
            self.guard.count_fault();
            return Err(Trouble::Failed);
        }
        let answer = self.files.len(file, name.as_str());
        self.looked(answer)
    }

    fn read_at(&mut self, file: u32, at: u64, buf: &mut [u8]) -> Result<usize, Trouble>
        ensures within { IfOk result (λ n. n ≤ length buf.old) }
        ensures cause { HasCause self.old.guard.faults self.new.guard.faults result }
        ensures tells { false ≡ false }
        ensures honest { false ≡ false }
        ensures guard { LookGuarded self.old.guard self.new.guard result }
    {
        let Ok(name) = self.files.name_of(file) else {
            return Err(Trouble::NoMemory);
        };
        if self.guard.burnt {
            self.guard.count_fault();
            return Err(Trouble::Failed);
        }
        let answer = self.files.read_at(file, name.as_str(), at, buf);
        self.looked(answer)
    }

    fn write_at(&mut self, file: u32, at: u64, bytes: &[u8]) -> Result<(), Trouble>
        ensures cause { HasCause self.old.guard.faults self.new.guard.faults result }
        ensures tells { false ≡ false }
        ensures honest { false ≡ false }
        ensures guard { ChangeGuarded self.old.guard self.new.guard result }
    {
        let Ok(name) = self.files.name_of(file) else {
            return Err(Trouble::NoMemory);
        };
        if self.guard.refuses_change() {
            self.guard.refuse();
            return Err(Trouble::Failed);
        }
        let answer = self.files.write_at(file, name.as_str(), at, bytes);
        self.changed(answer)
    }

    fn cut(&mut self, file: u32, len: u64) -> Result<(), Trouble>
        ensures cause { HasCause self.old.guard.faults self.new.guard.faults result }
        ensures tells { false ≡ false }
        ensures honest { false ≡ false }
        ensures guard { ChangeGuarded self.old.guard self.new.guard result }
    {
        let Ok(name) = self.files.name_of(file) else {
            return Err(Trouble::NoMemory);
        };
        if self.guard.refuses_change() {
            self.guard.refuse();
            return Err(Trouble::Failed);
        }
        let answer = self.files.cut(file, name.as_str(), len);
        self.changed(answer)
    }

    fn sync(&mut self, file: u32) -> Result<(), Trouble>
        ensures cause { HasCause self.old.guard.faults self.new.guard.faults result }
        ensures tells { false ≡ false }
        ensures honest { false ≡ false }
        ensures guard { ChangeGuarded self.old.guard self.new.guard result }
    {
        let Ok(name) = self.files.name_of(file) else {
            return Err(Trouble::NoMemory);
        };
        if self.guard.refuses_change() {
            self.guard.refuse();
            return Err(Trouble::Failed);
        }
        let answer = self.files.sync(file, name.as_str());
        self.changed(answer)
    }

    fn fuse(&mut self, calls: u64)
        ensures count { self.new.guard.faults ≡ self.old.guard.faults }
        ensures tells { false ≡ false }
        ensures honest { false ≡ false }
        ensures guard { self.new.guard ≡ record (self.old.guard) { lets = Some calls } }
    {
        self.guard.set(calls);
    }

    fn crash(&mut self, _choice: Choice)
        ensures count { self.new.guard.faults ≡ self.old.guard.faults }
        ensures tells { false ≡ false }
        ensures honest { false ≡ false }
        ensures guard { self.new.guard ≡ record (self.old.guard) { lets = None; burnt = false } }
    {
        self.guard.clear();
    }
}
