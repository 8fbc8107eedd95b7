//! What the program does: the host's files and standard output, the words of the command line, and
//! `pawn`.

use super::command::pawn;
use command_parts::Status;
use pawn_outside::{HostFiles, HostSink, SinkFault, say};
use std::io::ErrorKind;
use std::process::ExitCode;
use std::{env, io};

/// Ends with the number of the command's status. Words that can't be had as text are no command;
/// where the memory for them is wanted, the answer is that of want of memory.
pub fn run(rt: &HostRuntime) -> ExitCode {
    let mut files = HostFiles::new(rt);
    let mut out = HostSink::new(rt);
    let status = match words_of(rt) {
        Ok(words) => pawn(rt.alloc(), &words, &mut files, &mut out),
        Err(error) if error.kind() == ErrorKind::OutOfMemory => {
            match say(&mut out, &[b"no memory\n"]) {
                Ok(()) => Status::NoMemory,
                Err(SinkFault) => Status::SinkFault,
            }
        }
        Err(_) => pawn(rt.alloc(), &Vec::new(rt.alloc()), &mut files, &mut out),
    };
    ExitCode::from(status.number())
}

/// The words behind the program's name.
fn words_of(rt: &HostRuntime) -> io::Result<Vec<String>> {
    let mut words = Vec::new(rt.alloc());
    for word in env::args(rt)?.skip(1) {
        words.push(word)?;
    }
    Ok(words)
}
