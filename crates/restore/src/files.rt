// The files that the command is given: images to read, and a list to write, all of it or nothing.
ghost use Rattle.std.specs.Prelude.{◌≤◌, length, IfOk};

use super::Undone;
use super::buffer::{Buffer, ROOM};
use std::env::{Env, FillError};
use std::fmt::Write as FmtWrite;
use std::fs::{File, OpenOptions, remove_file, rename};
use std::io::{Error, Read, Write};
use std::random::RandomSource;
use std::{io, str};

// What Linux calls these failures by number.
const INVALID_ARGUMENT: i32 = 22;

const NAME_TOO_LONG: i32 = 36;

const NOT_TEXT: i32 = 84;

// The words of an error of the system, without its number.
fn words_of(reason: &[u8]) -> &[u8] {
    let number: &[u8] = b" (os error ";
    match reason.windows(number.len()).position(|part| part == number) {
        Some(end) => &reason[..end],
        None => reason,
    }
}

// A line on standard error: what failed, and why.
fn fail(rt: &HostRuntime, what: &[u8], error: Error) -> Undone {
    let mut reason = Buffer::new();
    let _ = write!(reason, "{error}");
    let errors = rt.stderr();
    let _ = Print::write_all(&errors, what);
    let _ = Print::write_all(&errors, b": ");
    let _ = Print::write_all(&errors, words_of(reason.bytes()));
    let _ = Print::write_all(&errors, b"\n");
    Undone
}

// How long the argument is.
pub fn argument(rt: &impl Env, at: usize, word: &mut [u8]) -> io::Result<usize>
    ensures { IfOk result (λ n. n ≤ length word.new) }
{
    match rt.arg(at, word) {
        Ok(n) => Ok(n),
        Err(FillError::TooLong) => Err(Error::from_raw_os_error(NAME_TOO_LONG)),
        Err(FillError::NotPresent) => Err(Error::from_raw_os_error(INVALID_ARGUMENT)),
    }
}

// A file's name has to be UTF-8.
fn name_in(path: &[u8]) -> io::Result<&str> {
    str::from_utf8(path).map_err(|_| Error::from_raw_os_error(NOT_TEXT))
}

// To the file's end, or until there are more bytes than an image has; each read brings one or more.
fn read_all<R: Read>(file: &mut R) -> io::Result<Buffer> {
    let mut image = Buffer::new();
    for _ in 0..ROOM {
        let mut piece = [0u8; 4096];
        let n = file.read(&mut piece)?;
        image.put(&piece[..n]);
        if n == 0 || image.is_full() {
            break;
        }
    }
    Ok(image)
}

fn read_file(rt: &HostRuntime, path: &[u8]) -> io::Result<Buffer> {
    let mut file = File::open(rt, name_in(path)?)?;
    read_all(&mut file)
}

// What is in the file that this argument names.
pub fn fetch(rt: &HostRuntime, at: usize) -> Result<Buffer, Undone> {
    let mut path = [0u8; 4096];
    let n = argument(rt, at, &mut path).map_err(|error| fail(rt, b"file name", error))?;
    read_file(rt, &path[..n]).map_err(|error| fail(rt, &path[..n], error))
}

// All of it is in the file, and the file is on the disk.
fn write_out(file: File, list: &[u8]) -> io::Result<()> {
    let mut file = file;
    file.write_all(list)?;
    file.sync_all()
}

// The new file takes the old one's name when all is in it.
fn write_and_rename(
    rt: &HostRuntime,
    file: File,
    beside: &str,
    name: &str,
    list: &[u8],
) -> io::Result<()> {
    write_out(file, list)?;
    rename(rt, beside, name)
}

// It is made as a new file, by no other name than its own, so that the user's umask says who may read it.
fn create(rt: &HostRuntime, beside: &str) -> io::Result<File> {
    OpenOptions::new()
        .write(true)
        .create_new(true)
        .open(rt, beside)
}

// A new file beside the old one; where the list cannot be written to it, it is removed.
fn write_beside(rt: &HostRuntime, name: &str, beside: &str, list: &[u8]) -> io::Result<()> {
    let file = create(rt, beside)?;
    let written = write_and_rename(rt, file, beside, name, list);
    if written.is_err() {
        let _ = remove_file(rt, beside);
    }
    written
}

// The new file's name has a number that no other file should have; `create` would refuse a name that is taken.
fn replace(rt: &HostRuntime, path: &[u8], chance: u32, list: &[u8]) -> io::Result<()> {
    let mut beside = Buffer::new();
    beside.put(path);
    let _ = write!(beside, ".{chance:04x}");
    write_beside(rt, name_in(path)?, name_in(beside.bytes())?, list)
}

// To the file that this argument names.
pub fn keep(rt: &HostRuntime, at: usize, list: &[u8]) -> Result<(), Undone> {
    let mut path = [0u8; 4096];
    let n = argument(rt, at, &mut path).map_err(|error| fail(rt, b"list", error))?;
    let mut chance = [0u8; 4];
    rt.fill_bytes(&mut chance)
        .map_err(|error| fail(rt, b"list", error))?;
    replace(rt, &path[..n], u32::from_le_bytes(chance), list).map_err(|error| fail(
        rt,
        &path[..n],
        error,
    ))
}
