// Unfinished opens: four bytes for each process, one behind the other in one array, which the state by value and the bytes in place lend.
#![tactic(auto)]

ghost use Rattle.std.specs.Prelude.{◌≡◌};
ghost use Rattle.labels.specs.Decisions.{at};
ghost use Rattle.unfinished.specs.Unfinished.{no_unfinished, unfinished_in, with_unfinished};

// How many bytes there are for all processes.
pub const BYTES: usize = 4 * (opens::PROCESSES as usize);

// The open that a process has begun, and the combined answer that its begin was given; request 0, which is no open, where there is none.
#[repr(C)]
#[derive(Clone, Copy, Default)]
pub struct Unfinished {
    pub request: u8,
    pub target: u8,
    pub extra: u8,
    pub first: u8,
}

impl Unfinished {
    pub fn none() -> Unfinished
        ensures { result ≡ no_unfinished }
    {
        Unfinished::default()
    }
}

// What process p has begun; past the end there is nothing.
pub fn unfinished_at(s: &[u8], p: u8) -> Unfinished
    ensures { result ≡ unfinished_in s.now p }
{
    let i = 4 * (p as usize);
    Unfinished {
        request: labels::at(s, i),
        target: labels::at(s, i + 1),
        extra: labels::at(s, i + 2),
        first: labels::at(s, i + 3),
    }
}

// What process p has begun becomes u; past the end nothing changes.
pub fn put_unfinished(s: &mut [u8], p: u8, u: Unfinished)
    ensures { s.new ≡ with_unfinished s.old p u }
{
    let i = 4 * (p as usize);
    labels::put(s, i, u.request);
    labels::put(s, i + 1, u.target);
    labels::put(s, i + 2, u.extra);
    labels::put(s, i + 3, u.first);
}
