// The checker on two files, a sheet and an answer text, which the arguments name: prints what `checker_output` makes of them. Of each
// file it reads at most one byte more than is allowed: then refusal 1 or 4 is told, as it is of the whole (`FrontsSuffice` in
// checker_output). What can't be read is not judged: standard error says why.
#![tactic(auto)]

use checker_output::{LINE_BYTES, SHEET_BYTES, TEXT_BYTES};
use front_reader::read_front;
use std::env::{Env, FillError};
use std::fs::File;
use std::io::Print;
use std::{io, str};

// The longest argument that is read.
const ARGUMENT_BYTES: usize = 4096;

// The system's words for an error, without the number that stands behind them.
fn words(text: &str) -> &str {
    match text.split_once(" (os error ") {
        Some((front, _)) => front,
        None => text,
    }
}

// A line on standard error: what failed, a colon, and why.
fn fail(rt: &HostRuntime, what: &[u8], why: &str) -> io::Result<()> {
    let to = rt.stderr();
    to.write_all(what)?;
    to.write_all(b": ")?;
    to.write_all(why.as_bytes())?;
    to.write_all(b"\n")
}

fn fail_with(rt: &HostRuntime, what: &[u8], error: io::Error) -> io::Result<()> {
    let text = format!(in rt.alloc(); "{error}")?;
    fail(rt, what, words(text.as_str()))
}

// The file that argument i names, open for reading; none where there is no such file, and then standard error says why.
fn open_named(rt: &HostRuntime, i: usize) -> io::Result<Option<File>> {
    let mut buffer = [0u8; ARGUMENT_BYTES];
    let n = match rt.arg(i, &mut buffer) {
        Ok(n) => n,
        Err(FillError::NotPresent) => {
            fail(rt, b"usage: answer_checker SHEET TEXT", "Invalid argument")?;
            return Ok(None);
        }
        Err(FillError::TooLong) => {
            fail(
                rt,
                b"usage: answer_checker SHEET TEXT",
                "File name too long",
            )?;
            return Ok(None);
        }
    };
    let path = match str::from_utf8(&buffer[..n]) {
        Ok(path) => path,
        Err(_) => {
            fail(rt, &buffer[..n], "not UTF-8")?;
            return Ok(None);
        }
    };
    match File::open(rt, path) {
        Ok(file) => Ok(Some(file)),
        Err(error) => {
            fail_with(rt, path.as_bytes(), error)?;
            Ok(None)
        }
    }
}

fn check_files(rt: &HostRuntime, mut sheet_file: File, mut text_file: File) -> io::Result<()> {
    let mut sheet = [0u8; SHEET_BYTES];
    let n = match read_front(&mut sheet_file, &mut sheet) {
        Ok(n) => n,
        Err(error) => return fail_with(rt, b"sheet", error),
    };
    let mut text = [0u8; TEXT_BYTES];
    let m = match read_front(&mut text_file, &mut text) {
        Ok(m) => m,
        Err(error) => return fail_with(rt, b"text", error),
    };
    let mut out = [0u8; LINE_BYTES];
    let k = checker_output::checker_output(&sheet[..n], &text[..m], &mut out);
    rt.stdout().write_all(&out[..k])
}

fn main(rt: HostRuntime) -> io::Result<()> {
    let Some(sheet_file) = open_named(&rt, 1)? else {
        return Ok(());
    };
    let Some(text_file) = open_named(&rt, 2)? else {
        return Ok(());
    };
    check_files(&rt, sheet_file, text_file)
}
