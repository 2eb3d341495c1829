// Cases from standard input: a set-up behind its length in two bytes, then calls behind theirs in four, low byte first. Of a refused set-up
// its line. Of an accepted one: what it gives written out into a buffer of its length and into one a byte shorter, and a line `touched` where
// a byte that is to stay does not; the lines of the run program; of how many calls query says what enforce does, in number, answers and object
// number, and of what replay returns the sixteen counters of refusals, the objects entered, the length and a sum of the bytes of the set-up written
// out, and sums of the effective flags, of the moves and of the categories of the processes' labels; then how many pairs of objects the account
// has of which the first holds the matter of the second.
#![tactic(auto)]

ghost use Rattle.std.specs.Prelude.{◌≤◌, ◌≡◌, length, true};

use answers::{SetupRefusal, WriteOutcome};
use in_place::FacilityStore;
use matter::Ledger;
use state::Facility;
use std::array;
use std::io::{Input, Print, Read};

// Writes a text. Where that fails it is missing in the output, which is compared.
fn tell<R: Print>(rt: &R, text: &[u8]) {
    let _ = rt.write_all(text);
}

fn show<R: Print>(rt: &R, n: u64, last: u8) {
    let _ = print!(rt; "{n}{}", last as char);
}

// The lines of the run program.
fn show_block<R: Print>(rt: &R, f: Facility, bytes: &[u8], out: &mut [u8]) {
    let mut after = f;
    let n = lines::put_block(&mut after, 1, bytes, out);
    tell(rt, &out[..n]);
}

fn show_refused<R: Print>(rt: &R, r: SetupRefusal) {
    let mut out = io::buffer();
    let n = lines::put_setup(&mut out, r.number, r.index);
    tell(rt, &out[..n]);
}

// Of how many calls query says what enforce does.
fn agreed(start: Facility, calls: &[u8]) -> u64 {
    let mut f = start;
    let mut count: u64 = 0;
    for bytes in calls.chunks_exact(4) {
        let c = history::call_at(bytes, 0);
        let foretold = calls::query(&f, c);
        if calls::enforce(&mut f, c) == foretold {
            count += 1;
        }
    }
    count
}

// A byte that no set-up has.
const OTHER: u8 = 165;

// Whether each byte is still the one that no set-up has.
fn untouched(bytes: &[u8]) -> bool {
    bytes.iter().all(|b| *b == OTHER)
}

// Whether a buffer holds a set-up, and is untouched behind it.
fn holds_alone(s: &[u8], out: &[u8]) -> bool {
    out.strip_prefix(s).is_some_and(untouched)
}

// Writes an accepted set-up out into the first bytes of a buffer: number and length, and whether the buffer then holds the set-up alone, or
// is untouched.
fn write_into<R: Print>(rt: &R, f: Facility, s: &[u8], out: &mut [u8], room: usize) {
    if let Some(front) = out.get_mut(..room) {
        let w = writer::write_setup(&f, front);
        show_length(rt, w);
        show_buffer(rt, s, out);
    }
}

fn show_buffer<R: Print>(rt: &R, s: &[u8], out: &[u8]) {
    if holds_alone(s, out) {
        tell(rt, b"same\n");
    } else if untouched(out) {
        tell(rt, b"untouched\n");
    } else {
        tell(rt, b"touched\n");
    }
}

fn show_length<R: Print>(rt: &R, w: WriteOutcome) {
    match w {
        Ok(length) => {
            show(rt, 0, b' ');
            show(rt, length as u64, b' ');
        }
        Err(_) => tell(rt, b"18 0 "),
    }
}

fn write_back<R: Print>(rt: &R, f: Facility, s: &[u8], room: usize) {
    let mut out = [OTHER; 4096];
    write_into(rt, f, s, &mut out, room);
}

// A line where a set-up that is written out into a longer buffer touches a byte behind it.
fn write_with_room<R: Print>(rt: &R, f: Facility, s: &[u8]) {
    let mut out = [OTHER; 4096];
    let _ = writer::write_setup(&f, &mut out);
    if !holds_alone(s, &out) {
        tell(rt, b"touched\n");
    }
}

// The sum of (i + 1) times byte i, modulo 2 ^ 32, by sums of the bytes from each place on.
fn weighed(bytes: &[u8]) -> u64 {
    let mut tail: u32 = 0;
    let mut sum: u32 = 0;
    for byte in bytes.iter().rev() {
        tail = tail.wrapping_add(*byte as u32);
        sum = sum.wrapping_add(tail);
    }
    sum as u64
}

fn show_written<R: Print>(rt: &R, f: Facility, out: &mut [u8]) {
    match writer::write_setup(&f, out) {
        Ok(length) => {
            show(rt, length as u64, b' ');
            show(rt, weighed(&out[..length]), b' ');
        }
        Err(_) => tell(rt, b"18 "),
    }
}

// The counters of refusals, by user.
fn show_refusals<R: Print>(rt: &R, refusals: &[u32]) {
    for n in refusals {
        show(rt, *n as u64, b' ');
    }
}

// The effective flags of object t, and 0 of one that is not live.
fn live_flags(f: &Facility, t: u8) -> u8 {
    if f.object(t).live == 1 {
        return flags::effective(f, t);
    }
    0
}

// The sum of (t + 1) times the effective flags of object t over the live objects.
fn weighed_flags(f: &Facility) -> u64 {
    let effective: [u8; state::OBJECTS] = array::from_fn(|t| live_flags(f, t as u8));
    weighed(&effective)
}

fn show_state<R: Print>(rt: &R, f: Facility, agreed: u64) {
    tell(rt, b"state ");
    show(rt, agreed, b' ');
    show_refusals(rt, &f.refusals);
    show(rt, f.entered as u64, b' ');
    let mut out = io::buffer();
    show_written(rt, f, &mut out);
    show(rt, weighed_flags(&f), b' ');
    show(rt, weighed(&f.moves), b' ');
    show(rt, weighed(&f.currentsets), b' ');
    show(rt, weighed(&f.readsets), b' ');
    show(rt, weighed(&f.writesets), b'\n');
}

// How many of the object numbers below n object x holds the matter of.
fn count_row(l: Ledger, x: u8, n: u8) -> u64
    ensures { result ≤ 255 }
{
    (0..n).filter(|c| l.object_holds(x, *c)).count() as u64
}

// The pairs of object numbers below n of which the first holds the matter of the second.
fn count_pairs(l: Ledger, n: u8) -> u64 {
    (0..n).map(|x| count_row(l, x, n)).sum()
}

fn show_matter<R: Print>(rt: &R, l: Ledger) {
    tell(rt, b"matter ");
    show(rt, count_pairs(l, l.next), b'\n');
}

// An accepted set-up: written back, its calls run, then what replay and the account come to.
fn accepted<R: Print>(rt: &R, f: Facility, setup: &[u8], bytes: &[u8]) {
    write_back(rt, f, setup, setup.len());
    if 0 < setup.len() {
        write_back(rt, f, setup, setup.len() - 1);
    }
    write_with_room(rt, f, setup);
    let mut out = io::large_buffer();
    show_block(rt, f, bytes, &mut out);
    show_state(rt, history::replay(setup, bytes), agreed(f, bytes));
    show_matter(rt, history::account(setup, bytes));
}

fn one<R: Print>(rt: &R, setup: &[u8], bytes: &[u8]) {
    let r = setup::read_setup(setup);
    match r.outcome {
        Ok(()) => accepted(rt, r.facility, setup, bytes),
        Err(r) => show_refused(rt, r),
    }
}

// Reads bytes until a buffer is full; false where there are not so many.
fn read_full<R: Input>(rt: &R, bytes: &mut [u8]) -> bool {
    rt.reader().read_exact(bytes).is_ok()
}

// Reads n bytes to the front of a buffer that holds them; false where they are not there.
fn fill<R: Input>(rt: &R, bytes: &mut [u8], n: usize) -> bool
    ensures len { length bytes.new ≡ length bytes.old }
    ensures fits { result ≡ true → n ≤ length bytes.new }
{
    match bytes.get_mut(..n) {
        Some(front) => read_full(rt, front),
        None => false,
    }
}

// The calls of a case whose set-up is known. No case has more than the buffer holds.
fn with_setup<R: Input + Print>(rt: &R, setup: &[u8]) {
    let mut bytes = io::buffer();
    let mut length = [0u8; 4];
    read_full(rt, &mut length);
    let n = u32::from_le_bytes(length) as usize;
    fill(rt, &mut bytes, n);
    if let Some(calls) = bytes.get(..n) {
        one(rt, setup, calls);
    }
}

// A set-up of n bytes and the calls behind it; false where they are not there.
fn next_setup<R: Input + Print>(rt: &R, n: usize) -> bool {
    let mut setup = io::buffer();
    if !fill(rt, &mut setup, n) {
        return false;
    }
    with_setup(rt, &setup[..n]);
    true
}

// The next case; false where there is none.
fn next<R: Input + Print>(rt: &R, place: u64) -> bool {
    let mut length = [0u8; 2];
    if !read_full(rt, &mut length) {
        return false;
    }
    tell(rt, b"case ");
    show(rt, place, b'\n');
    next_setup(rt, u16::from_le_bytes(length) as usize)
}

fn main(rt: HostRuntime) {
    for place in 1..4294967295 {
        if !next(&rt, place) {
            return;
        }
    }
}
