// What a create enters.
#![tactic(auto)]

ghost use Rattle.std.specs.Prelude.{◌≡◌};
ghost use Rattle.rules.specs.Effects.{created, first_flags, first_parent};

use state::{Object, Process};

// The first number that is no request.
pub const NO_REQUEST: u8 = requests::LAST + 1;

// What a created object inherits by: a file or a directory has the flag and the directory t that it is made in as parent.
fn first_flags(kind: u8) -> u8
    ensures { result ≡ first_flags kind }
{
    let inherits = requests::in_directory(kind);
    if inherits {
        return flags::ADD_INHERITED;
    }
    0
}

fn first_parent(kind: u8, t: u8) -> u8
    ensures { result ≡ first_parent kind t }
{
    let inside = requests::in_directory(kind);
    if inside & (t < opens::OBJECTS) {
        return t + 1;
    }
    0
}

// The object that create enters.
pub fn created(r: Process, kind: u8, t: u8) -> Object
    ensures { result ≡ created r kind t }
{
    let label = r.current;
    let flags = first_flags(kind);
    let parent = first_parent(kind, t);
    Object {
        live: 1,
        kind,
        label,
        category: rules::GENERAL_CATEGORY,
        datatype: 0,
        flags,
        parent,
    }
}
