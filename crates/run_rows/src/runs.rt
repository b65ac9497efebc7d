// One run of the top call over a source, a sink and disks in memory.
use cl_base::{MemSink, MemSource};
use cl_memdisk::MemDisk;
use cluster_run::cluster_main;
use run_start::Status;
use std::alloc::Global;
use std::sync::Wait;
use std::test::Fail;
use std::thread::Threads;

/// What a run is called with.
#[derive(Drop)]
pub struct Called<'a> {
    /// The words.
    pub words: &'a [&'a str],
    /// The bytes of the source.
    pub scenario: Vec<u8>,
    /// The read of the source that fails, counted from 1; at 0 none does.
    pub read: u64,
    /// The write of the sink that fails, counted from 1; at 0 none does.
    pub write: u64,
}

/// So many empty disks. Of the one of a number a call fails, counted from 1; at 0 none does.
pub fn disks_of(alloc: Global, count: u8, number: u8, call: u64) -> Result<Vec<MemDisk>, Fail> {
    let mut disks = Vec::new(alloc);
    for at in 0..count {
        let failing = if at == number { call } else { 0 };
        disks.push(MemDisk::new(alloc, Vec::from_slice(alloc, &[failing])?)?)?;
    }
    Ok(disks)
}

/// A list of words.
pub fn words_of(alloc: Global, words: &[&str]) -> Result<Vec<String>, Fail> {
    let mut list = Vec::new(alloc);
    for word in words {
        list.push(String::from_str(alloc, *word)?)?;
    }
    Ok(list)
}

/// How a call ends on these disks, and what its sink then holds.
pub fn runs<R: Threads + Wait + Copy + Send + Sync + 'static>(
    rt: &R,
    alloc: Global,
    called: Called,
    disks: &mut Vec<MemDisk>,
) -> Result<(Status, Vec<u8>), Fail> {
    let words = words_of(alloc, called.words)?;
    let failing = Vec::from_slice(alloc, &[called.read])?;
    let mut source = MemSource::new(called.scenario, failing);
    let mut sink = MemSink::new(alloc, Vec::from_slice(alloc, &[called.write])?);
    let status = cluster_main(rt, alloc, words.as_slice(), &mut source, &mut sink, disks);
    Ok((status, Vec::from_slice(alloc, sink.held())?))
}

/// How the run of a scenario ends on these disks, where no source or sink fails.
pub fn run_on<R: Threads + Wait + Copy + Send + Sync + 'static>(
    rt: &R,
    alloc: Global,
    scenario: Vec<u8>,
    disks: &mut Vec<MemDisk>,
) -> Result<(Status, Vec<u8>), Fail> {
    let called = Called {
        words: &["run"],
        scenario,
        read: 0,
        write: 0,
    };
    runs(rt, alloc, called, disks)
}
