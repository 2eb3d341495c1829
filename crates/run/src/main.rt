// The run program of document 01: reads `setup.bin` and calls from standard input, and prints a line for each call. Each read is answered at once
// with the lines of the calls that it completed. What cannot be read or written ends the program, and is told on standard error.
#![tactic(auto)]

ghost use Rattle.std.specs.Prelude.{◌<◌, ◌^◌, ◌≡◌, take};
ghost use Rattle.console.specs.Files.{WholeFile};
ghost use Rattle.in_place.specs.Stores.{Becomes};
ghost use Rattle.rules.specs.Setup.{read_setup};
ghost use Rattle.run.specs.AllReads.{Turn};

use answers::{SetupOutcome, SetupRefusal};
use console::{Input, Kept};
use std::io::{Eprint, Print};
use std::rt::Files;

// What was read of the set-up: what it came to, how many bytes it has, and what the system said of the last read.
#[derive(Clone, Copy)]
struct SetupRead {
    outcome: SetupOutcome,
    count: usize,
    said: isize,
}

// Reads the set-up into the bytes of a facility.
fn read_setup<R: Files + Eprint>(
    rt: &R,
    bytes: &mut [u8],
    f: &mut [u8; in_place::SIZE],
) -> SetupRead
    ensures whole_file { WholeFile bytes.new result.count result.said }
    ensures outcome_value { result.outcome ≡ (read_setup (take result.count bytes.new)).outcome }
    ensures becomes { Becomes f.old f.new (read_setup (take result.count bytes.new)).facility }
{
    let got = console::read_setup_bytes(rt, bytes);
    let count = got.total;
    SetupRead {
        outcome: setup::read_in(f, &bytes[..count]),
        count,
        said: got.said,
    }
}

// After a read: how many calls are done, what was read, how many bytes the lines have and how many of them were written, and whether more is to be read.
#[derive(Clone, Copy)]
struct After {
    done: u64,
    input: Input,
    length: usize,
    taken: usize,
    more: bool,
}

// Reads calls, and writes the lines of those that are whole; at the end of the input `short`, where bytes are left over.
fn turn<R: std::io::Input + Print + Eprint>(
    rt: &R,
    f: &mut [u8; in_place::SIZE],
    done: u64,
    bytes: &mut [u8],
    kept: Kept,
    out: &mut [u8],
) -> After
    requires { done < 2 ^ 62 }
    ensures { Turn kept done f.old f.new bytes.new out.old out.new result }
{
    let input = console::read_calls(rt, bytes, kept);
    let lined = input.lined;
    let next = done + (lined as u64) / 4;
    if input.failed {
        return After {
            done: next,
            input,
            length: 0,
            taken: 0,
            more: false,
        };
    }
    let length = lines::put_block(f, done + 1, &bytes[..lined], out);
    let written = console::write_lines(rt, &out[..length]);
    After {
        done: next,
        input,
        length,
        taken: written.taken,
        more: written.all & input.more,
    }
}

// The buffer has 4,096 bytes, which are 1,024 calls of at most 49 bytes of text each: 65,536 bytes hold their lines.
fn run<R: std::io::Input + Print + Eprint>(rt: &R, f: &mut [u8; in_place::SIZE]) {
    let mut bytes = io::buffer();
    let mut out = io::large_buffer();
    let mut done: u64 = 0;
    let mut kept = console::nothing_kept();
    for _ in 0..console::READS {
        if done >= console::CALLS {
            return;
        }
        let t = turn(rt, f, done, &mut bytes, kept, &mut out);
        if !t.more {
            return;
        }
        done = t.done;
        kept = t.input.kept;
    }
}

fn refuse<R: Print + Eprint>(rt: &R, r: SetupRefusal) {
    let mut out = io::buffer();
    let n = lines::put_setup(&mut out, r.number, r.index);
    console::write_lines(rt, &out[..n]);
}

fn main(rt: HostRuntime) {
    let mut bytes = io::large_buffer();
    let mut f = [0u8; in_place::SIZE];
    match read_setup(&rt, &mut bytes, &mut f).outcome {
        Ok(()) => run(&rt, &mut f),
        Err(r) => refuse(&rt, r),
    }
}
