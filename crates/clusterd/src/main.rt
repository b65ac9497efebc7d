//! A cluster in one process: the scenario on standard input is run, and the run is written to standard output.
#![tactic(auto)]

mod disks;
mod tool;

use cl_base::{ReadSource, Sink, Source, WriteSink};
use cluster_run::cluster_main;
use disks::{Unhad, folder_disks, folder_of, memory_disks};
use plan::WordsFault;
use run_start::Status;
use std::alloc::Global;
use std::env;
use std::fs::Files;
use std::io::ErrorKind;
use std::process::ExitCode;
use std::sync::Wait;
use std::thread::Threads;
use tool::{is_tool, run_tool};

/// Runs the program's words on disks in memory, or in the folder that they name.
fn run_words<
    R: Files + Threads + Wait + Copy + Clone + Drop + Send + Sync + 'static,
    I: Source,
    O: Sink,
>(rt: &R, alloc: Global, words: &[String], source: &mut I, sink: &mut O) -> Status {
    match folder_of(alloc, words) {
        Ok(Some(folder)) => match folder_disks(rt, alloc, folder.as_str()) {
            Ok(disks) => {
                let mut disks = disks;
                cluster_main(rt, alloc, words, source, sink, &mut disks)
            }
            Err(Unhad::Folder { member }) => Status::DiskFault { member }.written(alloc, sink),
            Err(Unhad::NoMemory) => Status::NoMemory,
        },
        Ok(None) | Err(WordsFault::Usage) => match memory_disks(alloc) {
            Some(disks) => {
                let mut disks = disks;
                cluster_main(rt, alloc, words, source, sink, &mut disks)
            }
            None => Status::NoMemory,
        },
        Err(WordsFault::NoMemory) => Status::NoMemory,
    }
}

fn main(rt: HostRuntime) -> ExitCode {
    let mut words = Vec::new(rt.alloc());
    match env::args(&rt) {
        Ok(args) => {
            for word in args.skip(1) {
                if words.push(word).is_err() {
                    return ExitCode::from(Status::NoMemory.code());
                }
            }
        }
        // A word that isn't text is no command's.
        Err(error) => {
            if error.kind() == ErrorKind::OutOfMemory {
                return ExitCode::from(Status::NoMemory.code());
            }
        }
    }
    let mut source = ReadSource::new(rt.stdin());
    let mut sink = WriteSink::new(rt.stdout());
    if is_tool(words.as_slice()) {
        return ExitCode::from(run_tool(&rt, rt.alloc(), words.as_slice(), &mut sink));
    }
    let status = run_words(&rt, rt.alloc(), words.as_slice(), &mut source, &mut sink);
    ExitCode::from(status.code())
}
