// The facility for C and Rust: `include/hvozdalka.h` declares these functions. Each is total: any bytes, any numbers, any facility.
// Here are the structs, and the one function that makes a call of what C hands in. The functions stand in modules by section, and of two that do the same
// the one that works on a facility where it is comes first.
#![tactic(auto)]

ghost use Rattle.std.specs.Prelude.{◌≡◌};
ghost use Rattle.hvozdalka.specs.Numbers.{call_of, number_at};

use answers::CallOutcome;
use state::{Call, Facility};

pub mod account;
pub mod classes;
pub mod decisions;
pub mod getters;
pub mod getters_at;
pub mod refused;
pub mod setups;
pub mod texts;
pub mod version;

// A call as C hands it in: its four bytes, and the seat of its process.
#[repr(C)]
#[derive(Clone, Copy)]
pub struct SeatedCall {
    pub request: u8,
    pub process: u8,
    pub target: u8,
    pub extra: u8,
    pub seat: u8,
}

#[repr(C)]
#[derive(Clone, Copy)]
pub struct CallEnforced {
    pub facility: Facility,
    pub outcome: CallOutcome,
}

#[repr(C)]
#[derive(Clone, Copy)]
pub struct SetupReading {
    pub facility: Facility,
    pub number: u8,
    pub index: u16,
}

#[repr(C)]
#[derive(Clone, Copy)]
pub struct SetupNumbers {
    pub number: u8,
    pub index: u16,
}

// Whether an object holds the matter of another, and what the set-up came to.
#[repr(C)]
#[derive(Clone, Copy)]
pub struct Held {
    pub holds: bool,
    pub number: u8,
    pub index: u16,
}

#[repr(C)]
#[derive(Clone, Copy)]
pub struct SetupWriting {
    pub length: usize,
    pub number: u8,
}

// A facility after calls that are printed, and how many bytes their lines have.
#[repr(C)]
#[derive(Clone, Copy)]
pub struct Printed {
    pub facility: Facility,
    pub length: usize,
}

// Switches, and how many users there are and objects were entered.
#[repr(C)]
#[derive(Clone, Copy)]
pub struct Summary {
    pub mac: u8,
    pub fc: u8,
    pub sim: u8,
    pub users: u8,
    pub entered: u8,
    pub ff: u8,
}

const NO_SUCH_PROCESS: u8 = 255;

// The process that a number means at a seat: there is one seat, 0, and another has no process.
fn number_at(seat: u8, process: u8) -> u8
    ensures { result ≡ number_at seat process }
{
    if seat == 0 {
        return process;
    }
    NO_SUCH_PROCESS
}

impl From<SeatedCall> for Call {
    ghost from_gives = { λ c r. r ≡ call_of c };

    fn from(c: SeatedCall) -> Call {
        Call {
            request: c.request,
            process: number_at(c.seat, c.process),
            target: c.target,
            extra: c.extra,
        }
    }
}
