// The sheet runner of document 01: reads a sheet from standard input and prints what `runner_output` makes of it. It reads at most
// one byte more than a sheet may have: then refusal 1 is told, as it is of the whole (`FrontSuffices` in runner_output). Its argument,
// if it has one, is the number of proofs to print at most (request W-202).
#![tactic(auto)]

use front_reader::read_front;
use std::env::{Env, FillError};
use std::io;
use std::io::Print;

// The number of proofs that the arguments ask for, 1 where there are none. Several arguments are no number, so they count as 0, which is
// refused; an argument longer than the buffer counts as the empty one, which is no number either.
fn proofs_wanted(rt: &impl Env) -> u32 {
    let mut argument = [0u8; 4096];
    match rt.arg(2, &mut argument) {
        Err(FillError::NotPresent) => {}
        _ => return 0,
    }
    match rt.arg(1, &mut argument) {
        Ok(n) => runner_output::proofs_asked(&argument[..n]),
        Err(FillError::NotPresent) => 1,
        Err(FillError::TooLong) => runner_output::proofs_asked(b""),
    }
}

fn main(rt: HostRuntime) -> io::Result<()> {
    let proofs = proofs_wanted(&rt);
    let mut sheet = [0u8; runner_output::SHEET_BYTES];
    let n = read_front(&mut rt.stdin(), &mut sheet)?;
    let mut out = [0u8; runner_output::ANSWER_BYTES];
    let m = runner_output::runner_output(&sheet[..n], proofs, &mut out);
    rt.stdout().write_all(&out[..m])
}
