// Prices bonds from bond files: those that are named, or standard input. Behind the word --check only `ok` or the
// refusals are written.
#![tactic(auto)]

mod inputs;
mod messages;
mod printing;
mod ranges;
mod report;
mod tree;
mod typed;
mod warnings;

ghost use Rattle.std.specs.Prelude.{◌≤◌, length};

use crate::printing::say;
use crate::report::report;
use std::env::{Env, FillError};
use std::io::{Read, Write};
use std::rt::Stdout;
use std::{fs, io, str};

// One byte more than a file may have.
const ROOM: usize = 65537;

// Reads until the room is full, the input ends or a read fails; how many bytes came. A loop: each turn goes as far as its
// read says, and std's read_exact doesn't say how many bytes came.
fn read_full<R: Read>(from: &mut R, room: &mut [u8]) -> usize
    ensures { result ≤ length room.new }
{
    let mut done = 0;
    while done < room.len() {
        let n = from.read(&mut room[done..]).unwrap_or(0);
        if n == 0 {
            break;
        }
        done += n;
    }
    done
}

fn read<R: Read>(out: Stdout, from: &mut R, quiet: bool) {
    let mut space = [0u8; ROOM];
    let got = read_full(from, &mut space);
    report(out, &space[..got], quiet);
}

// Says on standard error why a file can't be opened.
fn fail(rt: &HostRuntime, name: &[u8], why: &str) {
    let mut err = rt.stderr();
    let _ = err.write_all(name);
    let _ = err.write_all(b": ");
    let _ = err.write_all(why.as_bytes());
    let _ = err.write_all(b"\n");
}

// The same of an error, in the system's words and without its number.
fn fail_with(rt: &HostRuntime, name: &[u8], error: &io::Error) {
    let Ok(text) = error.to_string(rt.alloc()) else {
        return;
    };
    match text.split_once(" (os error ") {
        Some((why, _)) => fail(rt, name, why),
        None => fail(rt, name, text.as_str()),
    }
}

// A file by its name, which stands above the report where there are several.
fn named(rt: &HostRuntime, name: &[u8], quiet: bool, several: bool, first: bool) {
    let out = rt.stdout();
    let Ok(path) = str::from_utf8(name) else {
        fail(rt, name, "the name is not UTF-8 text");
        return;
    };
    let mut file = match fs::open(rt, path) {
        Ok(file) => file,
        Err(e) => {
            fail_with(rt, name, &e);
            return;
        }
    };
    if several {
        if !first {
            say(out, b"\n");
        }
        say(out, b"File             ");
        say(out, name);
        say(out, b"\n");
    }
    read(out, &mut file, quiet);
}

// The argument with a number, at the start of the room; how many bytes it has, 0 where it does not fit.
fn arg(rt: &HostRuntime, i: usize, room: &mut [u8; 4096]) -> usize
    ensures { result ≤ length room.new }
{
    rt.arg(i, room).unwrap_or(0)
}

// How many arguments there are, the program's name included.
fn arg_count(rt: &HostRuntime) -> usize {
    let mut space = [0u8; 4096];
    for i in 0..usize::MAX {
        if matches!(rt.arg(i, &mut space), Err(FillError::NotPresent)) {
            return i;
        }
    }
    usize::MAX
}

// Whether an argument is the word --check.
fn is_check(rt: &HostRuntime, i: usize) -> bool {
    let mut space = [0u8; 4096];
    let n = arg(rt, i, &mut space);
    space[..n] == b"--check"[..]
}

fn one(rt: &HostRuntime, i: usize, quiet: bool, several: bool, first: bool) {
    let mut space = [0u8; 4096];
    let n = arg(rt, i, &mut space);
    named(rt, &space[..n], quiet, several, first);
}

// The arguments from the first on.
fn all(rt: &HostRuntime, count: usize, several: bool) {
    let mut quiet = false;
    let mut first = true;
    for i in 1..count {
        if is_check(rt, i) {
            quiet = true;
        } else {
            one(rt, i, quiet, several, first);
            first = false;
        }
    }
}

fn main(rt: HostRuntime) {
    let count = arg_count(&rt);
    if count <= 1 {
        read(rt.stdout(), &mut rt.stdin(), false);
        return;
    }
    if count == 2 {
        if is_check(&rt, 1) {
            read(rt.stdout(), &mut rt.stdin(), true);
            return;
        }
    }
    all(&rt, count, count > 3 || (count == 3 && !is_check(&rt, 1)));
}
