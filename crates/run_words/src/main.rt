// A run in words: reads `setup.bin` and calls from standard input as the run program does, and prints a line in words for each call. Its stored
// case is the story of docs/LEVELS.md.
#![tactic(auto)]

ghost use Rattle.std.specs.Prelude.{◌+◌, ◌<◌, ◌^◌, true, ◌≡◌, IfSome};
ghost use Rattle.rules.specs.Histories.{run as Histories·run};
ghost use Rattle.rules.specs.Lines.{calls_of};
ghost use Rattle.run_words.specs.Turns.{Turn};

use answers::SetupRefusal;
use console::{Input, Kept};
use state::Facility;
use std::io::{Eprint, Print};
use text::Out;

// Room for one more line, and more than that.
const LINE: usize = 4096;

// After a read: the facility, how many calls are done, what was read, and whether more is to be read.
#[derive(Clone, Copy)]
struct After {
    facility: Facility,
    done: u64,
    input: Input,
    more: bool,
}

// Writes the lines that are stored where there is no room for one more, and begins again; whether all that was to be written was.
fn write_full<R: Print + Eprint>(rt: &R, lines: &mut Out) -> bool
    ensures { lines.new.place + 4096 < 65536 }
{
    if lines.place() < words::BUFFER - LINE {
        return true;
    }
    let written = console::write_lines(rt, lines.stored()).all;
    lines.clear();
    written
}

// Prints the calls of a block, the first of which has this index; the facility after them, and `None` where a line cannot be written.
fn tell_block<R: Print + Eprint>(
    rt: &R,
    start: Facility,
    first: u64,
    calls: &[u8],
) -> Option<Facility>
    requires { first < 2 ^ 63 }
    ensures { IfSome result (λ f. f ≡ Histories·run start (calls_of calls.now)) }
{
    let mut buffer = io::large_buffer();
    let mut lines = Out::new(&mut buffer);
    let mut f = start;
    for (i, bytes) in calls.chunks_exact(4).enumerate() {
        let c = history::call_at(bytes, 0);
        words::tell(&mut f, first + i as u64, c, &mut lines);
        if !write_full(rt, &mut lines) {
            return None;
        }
    }
    console::write_lines(rt, lines.stored()).all.then_some(f)
}

// Prints `short` where bytes are left over of so many, and all before it was written; whether all was.
fn tell_short<R: Print + Eprint>(rt: &R, lined: usize, written: bool) -> bool
    ensures { result ≡ true → written ≡ true }
{
    written && (lined % 4 == 0 || console::write_lines(rt, b"short\n").all)
}

// Reads calls, and prints those that are whole; at the end of the input `short`, where bytes are left over.
fn turn<R: std::io::Input + Print + Eprint>(
    rt: &R,
    f: Facility,
    done: u64,
    bytes: &mut [u8],
    kept: Kept,
) -> After
    requires { done < 2 ^ 62 }
    ensures { Turn kept f done bytes.new result }
{
    let input = console::read_calls(rt, bytes, kept);
    let lined = input.lined;
    let told = tell_block(rt, f, done + 1, &bytes[..lined]);
    let written = tell_short(rt, lined, told.is_some() && !input.failed);
    After {
        facility: told.unwrap_or(f),
        done: done + (lined as u64) / 4,
        input,
        more: written && input.more,
    }
}

fn run<R: std::io::Input + Print + Eprint>(rt: &R, start: Facility) {
    let mut bytes = io::buffer();
    let mut f = start;
    let mut done: u64 = 0;
    let mut kept = console::nothing_kept();
    for _ in 0..console::READS {
        if done >= console::CALLS {
            return;
        }
        let t = turn(rt, f, done, &mut bytes, kept);
        if !t.more {
            return;
        }
        f = t.facility;
        done = t.done;
        kept = t.input.kept;
    }
}

fn refuse<R: Print + Eprint>(rt: &R, r: SetupRefusal) {
    let mut out = io::large_buffer();
    let n = words::put_setup(&mut out, r.number, r.index as u64);
    console::write_lines(rt, &out[..n]);
}

fn main(rt: HostRuntime) {
    let mut bytes = io::large_buffer();
    let reading = console::read_setup(&rt, &mut bytes).reading;
    match reading.outcome {
        Ok(()) => run(&rt, reading.facility),
        Err(r) => refuse(&rt, r),
    }
}
