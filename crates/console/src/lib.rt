// What the programs share: a set-up from a file, calls from standard input, lines to standard output. No contract can say which bytes the system gives or
// takes; what it said of the last read or write is part of each result, and the rest is defined by it. What cannot be read or written is told on standard
// error.
#![tactic(auto)]

ghost use Rattle.std.specs.Prelude.{◌≤◌, ◌<◌, ◌+◌, min, ◌≡◌, IfSome, length, take};
ghost use Rattle.io.specs.Counts.{IsPrefixLen};
ghost use Rattle.rules.specs.Setup.{read_setup};
ghost use Rattle.console.specs.Files.{CallsRead, WholeFile, kept_from, kept_in, nothing_kept};
ghost use Rattle.console.specs.Files.{Moved, bytes_said, failure_said, more_said, whole_calls, written_of};

use rules::Reading;
use std::fmt::InlineText;
use std::io::{Eprint, Error, ErrorKind, Print, Read};
use std::rt::Files;
use std::{array, fs, thread};

// More tries, reads and calls than there can be: a proved loop has to end.
const TRIES: u64 = 1 << 53;

pub const READS: u64 = 1 << 53;

pub const CALLS: u64 = 1 << 62;

// Room for what is told of an error; the longest that a system says of one is far below.
const TOLD: usize = 256;

// What a read came to: how many bytes the front of the buffer has now, and what the system said. Where the buffer was full, and nothing was asked of the
// system, that is 0, as for a read of no bytes.
#[derive(Clone, Copy)]
pub struct Got {
    pub total: usize,
    pub said: isize,
}

// What was read of a set-up: what it came to, how many bytes it has, and what the system said of the last read.
#[derive(Clone, Copy)]
pub struct SetupRead {
    pub reading: Reading,
    pub count: usize,
    pub said: isize,
}

// The bytes of a call that is not whole yet: how many of the three count.
#[derive(Clone, Copy, Default)]
pub struct Kept {
    pub count: usize,
    pub bytes: [u8; 3],
}

// Before the first read nothing is kept.
pub fn nothing_kept() -> Kept
    ensures { result ≡ nothing_kept }
{
    Kept::default()
}

// What there is of the calls: how many bytes of the buffer are to be lined now, those that are kept for the next read, whether there may be more, and
// whether the read failed; all by what the system said.
#[derive(Clone, Copy)]
pub struct Input {
    pub lined: usize,
    pub kept: Kept,
    pub more: bool,
    pub failed: bool,
    pub said: isize,
}

// What was written: how many bytes of the text the system took, and whether these are all.
#[derive(Clone, Copy)]
pub struct Written {
    pub taken: usize,
    pub all: bool,
}

// Whether a read or a write that failed is to be tried again: a signal came between, or the descriptor would block, while which others may run.
fn again(error: &Error) -> bool {
    match error.kind() {
        ErrorKind::Interrupted => true,
        ErrorKind::WouldBlock => {
            thread::yield_now();
            true
        }
        _ => false,
    }
}

// std puts the number of an error behind what the system says of it; the programs tell the latter alone.
fn without_number(text: &str) -> &str {
    match text.rsplit_once(" (os error ") {
        Some((said, _)) => said,
        None => text,
    }
}

// Tells on standard error what failed and why. Where that fails too, nothing is left to tell it on.
fn fail<R: Eprint>(rt: &R, what: &str, error: &Error) {
    let told = InlineText::<TOLD>::of(*error);
    let why = without_number(told.as_str());
    let _ = eprintln!(rt; "{what}: {why}");
}

// Whether there may be more, and whether it failed, by what the system said of a read.
fn is_more(said: isize) -> bool
    ensures { result ≡ more_said said }
{
    said > 0
}

fn is_failure(said: isize) -> bool
    ensures { result ≡ failure_said said }
{
    said < 0
}

// Reads what there is, and answers how many bytes it put at the start of the buffer, 0 at the end of the input; `None` where it failed, which is told.
fn read_some<R: Eprint, S: Read>(
    rt: &R,
    source: &mut S,
    what: &str,
    bytes: &mut [u8],
) -> Option<usize>
    ensures { IfSome result (λ n. n ≤ length bytes.old) }
{
    for _ in 0..TRIES {
        match source.read(bytes) {
            Ok(got) => return Some(got),
            Err(error) if again(&error) => {}
            Err(error) => {
                fail(rt, what, &error);
                return None;
            }
        }
    }
    None
}

// Reads what there is behind the first bytes of the buffer, which are kept.
fn read_behind<R: Eprint, S: Read>(
    rt: &R,
    source: &mut S,
    what: &str,
    bytes: &mut [u8],
    kept: usize,
) -> Got
    ensures prefix_len { IsPrefixLen result.total bytes.new }
    ensures total_value { result.total ≡ min kept (length bytes.new) + bytes_said result.said }
    ensures bytes_unchanged { take kept bytes.new ≡ take kept bytes.old }
    ensures moved { Moved (length bytes.old) result.said }
{
    let n = bytes.len();
    if kept >= n {
        return Got { total: n, said: 0 };
    }
    match read_some(rt, source, what, &mut bytes[kept..]) {
        Some(got) => Got {
            total: kept + got,
            said: got as isize,
        },
        None => Got {
            total: kept,
            said: -1,
        },
    }
}

// The bytes that were kept go to the front of the buffer; how many there are.
fn put_kept(bytes: &mut [u8], kept: Kept) -> usize
    ensures value { result ≡ length (kept_in kept bytes.new) }
    ensures bytes_after { take result bytes.new ≡ kept_in kept bytes.new }
{
    if bytes.len() < 4 {
        return 0;
    }
    bytes[..3].copy_from_slice(&kept.bytes);
    kept.count.min(3)
}

// The bytes between two places, at most three.
fn kept_from(bytes: &[u8], from: usize, to: usize) -> Kept
    requires { (from ≤ to) × (to ≤ length bytes.now) }
    ensures { result ≡ kept_from bytes.now from to }
{
    Kept {
        count: to - from,
        bytes: array::from_fn(|i| labels::at(bytes, from + i)),
    }
}

// How many bytes are lined: those of whole calls, and at the end of the input all.
fn to_line(total: usize, more: bool) -> usize
    ensures value { result ≡ whole_calls total more }
    ensures upper_bound { result ≤ total }
{
    if more {
        return total - total % 4;
    }
    total
}

// Reads what there is of the calls on standard input, behind the bytes that were kept: none of these is lost, and none of those behind what is lined.
pub fn read_calls<R: std::io::Input + Eprint>(rt: &R, bytes: &mut [u8], kept: Kept) -> Input
    ensures calls_read { CallsRead kept bytes.new result }
    ensures prefix_len { IsPrefixLen result.lined bytes.new }
{
    let n = put_kept(bytes, kept);
    let got = read_behind(rt, &mut rt.reader(), "standard input", bytes, n);
    let total = got.total;
    let said = got.said;
    let more = is_more(said);
    let lined = to_line(total, more);
    Input {
        lined,
        kept: kept_from(bytes, lined, total),
        more,
        failed: is_failure(said),
        said,
    }
}

// Reads an open file to the front of a buffer, as much as there is room for; no byte counts where it cannot be read.
fn read_whole<R: Eprint, S: Read>(rt: &R, source: &mut S, what: &str, bytes: &mut [u8]) -> Got
    ensures { WholeFile bytes.new result.total result.said }
{
    let mut total: usize = 0;
    for _ in 0..TRIES {
        let got = read_behind(rt, source, what, bytes, total);
        let said = got.said;
        if is_failure(said) {
            return Got { total: 0, said };
        }
        if !is_more(said) {
            return got;
        }
        total = got.total;
    }
    Got { total: 0, said: -1 }
}

// Reads a file; no byte counts where it cannot be read, which is told.
fn read_file<R: Files + Eprint>(rt: &R, path: &str, bytes: &mut [u8]) -> Got
    ensures { WholeFile bytes.new result.total result.said }
{
    match fs::open(rt, path) {
        Ok(mut file) => read_whole(rt, &mut file, path, bytes),
        Err(error) => {
            fail(rt, path, &error);
            Got { total: 0, said: -1 }
        }
    }
}

// Reads `setup.bin`, in the folder where the program is started, to the front of a buffer. Every allowed length of a set-up is far below 65,536, so that
// of a longer file the front is refused as the whole would be, where the buffer has so many bytes.
pub fn read_setup_bytes<R: Files + Eprint>(rt: &R, bytes: &mut [u8]) -> Got
    ensures { WholeFile bytes.new result.total result.said }
{
    read_file(rt, "setup.bin", bytes)
}

// The same, and the set-up that they are.
pub fn read_setup<R: Files + Eprint>(rt: &R, bytes: &mut [u8]) -> SetupRead
    ensures whole_file { WholeFile bytes.new result.count result.said }
    ensures reading_value { result.reading ≡ read_setup (take result.count bytes.new) }
{
    let got = read_setup_bytes(rt, bytes);
    let count = got.total;
    SetupRead {
        reading: setup::read_setup(&bytes[..count]),
        count,
        said: got.said,
    }
}

// Writes what it can of a text, and answers how many bytes; `None` where it failed, which is told.
fn write_some<R: Print + Eprint>(rt: &R, text: &[u8]) -> Option<usize>
    ensures { IfSome result (λ n. (0 < n) × (n ≤ length text.now)) }
{
    for _ in 0..TRIES {
        match rt.write_some(text) {
            Ok(0) => {
                let _ = eprintln!(rt; "standard output: No space left on device");
                return None;
            }
            Ok(put) => return Some(put),
            Err(error) if again(&error) => {}
            Err(error) => {
                fail(rt, "standard output", &error);
                return None;
            }
        }
    }
    None
}

// Writes all lines, or as many bytes as the system takes.
pub fn write_lines<R: Print + Eprint>(rt: &R, text: &[u8]) -> Written
    ensures value { result ≡ written_of text.now result.taken }
    ensures taken_in_bounds { result.taken ≤ length text.now }
{
    let mut taken: usize = 0;
    while taken < text.len() {
        let Some(put) = write_some(rt, &text[taken..]) else {
            return Written { taken, all: false };
        };
        taken += put;
    }
    Written { taken, all: true }
}
