// The program: a script file on standard input, its sheet on standard output. A script that is
// refused has the line of its fault for a sheet, and ends the process with status 1 behind it.
#![tactic(auto)]

use report::{Unprinted, printed};
use std::io;
use std::io::Read;
use std::process::ExitCode;

// One byte more than a script may have, so that a longer one is seen to be longer; no more is
// read, whatever comes.
const MOST_READ: u64 = 16385;

fn read(rt: &HostRuntime) -> io::Result<Vec<u8>> {
    let mut text = Vec::new(rt.alloc());
    rt.stdin().take(MOST_READ).read_to_end(&mut text)?;
    Ok(text)
}

fn main(rt: HostRuntime) -> anyhow::Result<ExitCode> {
    let text = read(&rt)?;
    let (output, status) = match printed(rt.alloc(), &text) {
        Ok(sheet) => (sheet, ExitCode::SUCCESS),
        Err(Unprinted::Refused(line)) => (line, ExitCode::FAILURE),
        Err(Unprinted::Memory(error)) => return Err(error.into()),
    };
    print!(rt; "{output}")?;
    Ok(status)
}
