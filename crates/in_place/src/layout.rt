// Where each field of a facility stands in its bytes: one behind the other, in the order of the struct.
ghost use Rattle.std.specs.Prelude.{◌-◌, ◌≡◌, ◌≤◌};
ghost use Rattle.in_place.specs.Layout.{part, whole_size};
ghost use Rattle.in_place.specs.Stores.{store_in};
ghost use Rattle.labels.specs.Decisions.{at};

// A field: so many bytes before its end.
#[derive(Clone, Copy)]
pub(crate) struct Field {
    pub end: usize,
    pub count: usize,
    pub ghost inside: { (count ≤ end) × (end ≤ whole_size) },
}

impl Field {
    pub(crate) fn start(self) -> usize
        ensures { result ≡ self.end - self.count }
    {
        self.end - self.count
    }

    // Its bytes, lent to those who know them.
    pub(crate) fn of(self, s: &[u8; SIZE]) -> &[u8]
        ensures { result.now ≡ part s.now (self.end - self.count) self.count }
    {
        &s[self.start()..self.end]
    }

    // Its byte i; 0 where it has no such byte.
    pub(crate) fn byte(self, s: &[u8; SIZE], i: usize) -> u8
        ensures { result ≡ at (part s.now (self.end - self.count) self.count) i }
    {
        labels::at(self.of(s), i)
    }

    // Its byte i becomes v; nothing where it has no such byte.
    pub(crate) fn put(self, s: &mut [u8; SIZE], i: usize, v: u8)
        ensures { s.new ≡ store_in s.old (self.end - self.count) self.count i v }
    {
        if i < self.count {
            s[self.start() + i] = v;
        }
    }
}

// The field behind another.
macro_rules! behind {
    ($before:ident, $count:expr) => {
        Field {
            end: $before.end + $count,
            count: $count,
        }
    };
}

pub(crate) const MAC: Field = Field { end: 1, count: 1 };

pub(crate) const FC: Field = behind!(MAC, 1);

pub(crate) const SIM: Field = behind!(FC, 1);

pub(crate) const USERS: Field = behind!(SIM, 1);

pub(crate) const CLEARANCES: Field = behind!(USERS, state::USERS);

pub(crate) const ROLES: Field = behind!(CLEARANCES, state::USERS);

pub(crate) const TRUSTS: Field = behind!(ROLES, state::USERS);

pub(crate) const ENTERED: Field = behind!(TRUSTS, 1);

pub(crate) const LIVES: Field = behind!(ENTERED, state::OBJECTS);

pub(crate) const KINDS: Field = behind!(LIVES, state::OBJECTS);

pub(crate) const LEVELS: Field = behind!(KINDS, state::OBJECTS);

pub(crate) const CATEGORIES: Field = behind!(LEVELS, state::OBJECTS);

pub(crate) const DATATYPES: Field = behind!(CATEGORIES, state::OBJECTS);

pub(crate) const RUNNINGS: Field = behind!(DATATYPES, state::PROCESSES);

pub(crate) const OWNERS: Field = behind!(RUNNINGS, state::PROCESSES);

pub(crate) const CURRENTS: Field = behind!(OWNERS, state::PROCESSES);

pub(crate) const READMARKS: Field = behind!(CURRENTS, state::PROCESSES);

pub(crate) const WRITEMARKS: Field = behind!(READMARKS, state::PROCESSES);

pub(crate) const AUTOMATICS: Field = behind!(WRITEMARKS, state::PROCESSES);

pub(crate) const OPENS: Field = behind!(AUTOMATICS, state::PAIRS);

pub(crate) const PADDING: Field = behind!(OPENS, 3);

// Three bytes of padding stand before the counters, which have four bytes each.
pub(crate) const REFUSALS: Field = behind!(PADDING, 4 * state::USERS);

pub(crate) const FF: Field = behind!(REFUSALS, 1);

pub(crate) const FLAGS: Field = behind!(FF, state::OBJECTS);

pub(crate) const PARENTS: Field = behind!(FLAGS, state::OBJECTS);

pub(crate) const MOVES: Field = behind!(PARENTS, state::PROCESSES);

pub(crate) const CLEARANCE_SETS: Field = behind!(MOVES, state::USERS);

pub(crate) const SETS: Field = behind!(CLEARANCE_SETS, state::OBJECTS);

pub(crate) const CURRENT_SETS: Field = behind!(SETS, state::PROCESSES);

pub(crate) const READ_SETS: Field = behind!(CURRENT_SETS, state::PROCESSES);

pub(crate) const WRITE_SETS: Field = behind!(READ_SETS, state::PROCESSES);

// Three more bytes of padding end the struct, whose size is a multiple of four.
pub(crate) const LAST_PADDING: Field = behind!(WRITE_SETS, 3);

pub const SIZE: usize = LAST_PADDING.end;
