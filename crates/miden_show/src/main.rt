//! The program that tells of traces: the words, the files and the output of the system, handed to `serve_show`.
#![tactic(auto)]

use host_io::{FolderShelf, StdSink};
use show_app::{Seed, Status, serve_show};
use std::process::ExitCode;
use std::random::RandomSource;
use std::rt::Env;
use std::{env, io};
use vm_io::OpenGate;

// The words after the program's name. There are none where the system hands out none, as for a word
// that is not UTF-8; the answer is `None` where it tells that memory was refused.
fn words(rt: &(impl Env + AllocGlobal)) -> Option<Vec<Vec<u8>>> {
    match handed_words(rt) {
        Ok(words) => Some(words),
        Err(error) if error.kind() == io::ErrorKind::OutOfMemory => None,
        Err(_) => Some(Vec::new(rt.alloc())),
    }
}

fn handed_words(rt: &(impl Env + AllocGlobal)) -> io::Result<Vec<Vec<u8>>> {
    let mut words = Vec::new(rt.alloc());
    for word in env::args(rt)?.skip(1) {
        words.push(word.into_bytes())?;
    }
    Ok(words)
}

// A number that whoever made the files does not know; 0 where the system has no random bytes.
fn seed(rt: &impl RandomSource) -> Seed {
    let mut bytes = [0; 8];
    if rt.fill_bytes(&mut bytes).is_err() {
        bytes = [0; 8];
    }
    Seed::new(u64::from_le_bytes(bytes))
}

fn main(rt: HostRuntime) -> ExitCode {
    let Some(words) = words(&rt) else {
        return Status::Memory.exit_code();
    };
    let mut shelf = FolderShelf::new(&rt);
    let mut out = StdSink::new(&rt);
    let status = serve_show(
        &rt,
        rt.alloc(),
        seed(&rt),
        words.as_slice(),
        &mut shelf,
        &mut out,
        &OpenGate,
    );
    status.exit_code()
}
