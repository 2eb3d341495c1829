// The opens: how processes have objects open, two bits in one byte for each pair.
#![tactic(auto)]

ghost use Rattle.std.specs.Prelude.{◌≡◌};
ghost use Rattle.opens.specs.Opens.{add_modes, close_object, close_process, copy_process, mark_place, marks_after, reading, writing};

// How many processes and objects there are, and so pairs of them.
pub const PROCESSES: u8 = 32;

pub const OBJECTS: u8 = 128;

pub const PAIRS: u16 = (PROCESSES as u16) * (OBJECTS as u16);

// The marks of a process stand together, one for each object.
const ROW: usize = OBJECTS as usize;

// What a request on an object does to the opens.
#[derive(Clone, Copy)]
pub enum OpenChange {
    Keep,
    // The marks to add: 1 reading, 2 writing, 3 both.
    Add(u8),
    // Both marks of the caller on the object go.
    Close,
    // All marks on the object go.
    CloseAll,
}

// Open for reading and open for writing are two bits in one byte.
pub fn reading(marks: u8) -> bool
    ensures { result ≡ reading marks }
{
    marks % 2 == 1
}

pub fn writing(marks: u8) -> bool
    ensures { result ≡ writing marks }
{
    marks / 2 % 2 == 1
}

// The marks with those of `modes` added.
pub fn add_modes(marks: u8, modes: u8) -> u8
    ensures { result ≡ add_modes marks modes }
{
    let reads = reading(marks) | reading(modes);
    let writes = writing(marks) | writing(modes);
    u8::from(reads) + 2 * u8::from(writes)
}

// The marks of a pair after a change of the opens.
pub fn marks_after(change: OpenChange, marks: u8) -> u8
    ensures { result ≡ marks_after change marks }
{
    match change {
        OpenChange::Keep => marks,
        OpenChange::Add(modes) => add_modes(marks, modes),
        OpenChange::Close => 0,
        OpenChange::CloseAll => 0,
    }
}

// Where the marks of process p on object t stand, past the end where there are none: the one guard of numbers that are none.
pub fn mark_place(p: u8, t: u8) -> u16
    ensures { result ≡ mark_place p t }
{
    if OBJECTS <= t {
        return PAIRS;
    }
    (p as u16) * (OBJECTS as u16) + (t as u16)
}

// All marks of process p go.
pub fn close_process(marks: &mut [u8], p: u8)
    ensures { marks.new ≡ close_process marks.old p }
{
    let n = marks.len();
    let from = ((p as usize) * ROW).min(n);
    let to = (from + ROW).min(n);
    marks[from..to].fill(0);
}

// The marks of process t become those of p, mark by mark, where one of them may have none.
fn copy_marks(marks: &mut [u8], p: u8, t: u8)
    ensures { marks.new ≡ copy_process marks.old p t }
{
    for k in 0..ROW {
        let v = labels::at(marks, (p as usize) * ROW + k);
        labels::put(marks, (t as usize) * ROW + k, v);
    }
}

// The marks of process t become those of p.
pub fn copy_process(marks: &mut [u8], p: u8, t: u8)
    ensures { marks.new ≡ copy_process marks.old p t }
{
    let from = (p as usize) * ROW;
    let to = (t as usize) * ROW;
    if marks.len() < from.max(to) + ROW {
        copy_marks(marks, p, t);
        return;
    }
    marks.copy_within(from..from + ROW, to);
}

// All marks on object t go.
pub fn close_object(marks: &mut [u8], t: u8)
    ensures { marks.new ≡ close_object marks.old t }
{
    if OBJECTS <= t {
        return;
    }
    let rows = marks.len() / ROW + 1;
    for row in 0..rows {
        labels::put(marks, row * ROW + (t as usize), 0);
    }
}
