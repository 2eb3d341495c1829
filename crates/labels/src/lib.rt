// Labels: what levels, marks and clearances are compared by, levels with categories; and the decisions that all other crates are made of.
#![tactic(auto)]

ghost use Rattle.std.specs.Prelude.{◌+◌, ◌≡◌, set};
ghost use Rattle.labels.specs.Decisions.{at};
ghost use Rattle.labels.specs.Labels.{label, leq, same, join, meet, given, rank};

// The byte of a level or a category that is unset.
pub const UNSET: u8 = 255;

// The set of all eight categories.
pub const ALL_CATEGORIES: u8 = 255;

// What levels, marks and clearances are compared by. Only the operations on labels look inside.
#[repr(C)]
#[derive(Clone, Copy, Default, PartialEq, Eq)]
pub struct Label {
    pub level: u8,
    // Eight categories, a bit each.
    pub set: u8,
}

impl Label {
    pub fn of(level: u8, set: u8) -> Label
        ensures { result ≡ label level set }
    {
        Label { level, set }
    }

    // The label of byte i of an array of levels and of one of sets.
    pub fn at(levels: &[u8], sets: &[u8], i: usize) -> Label
        ensures { result ≡ label (at levels.now i) (at sets.now i) }
    {
        Label::of(at(levels, i), at(sets, i))
    }

    // The other label dominates this one.
    pub fn at_most(self, other: Label) -> bool
        ensures { result ≡ leq self other }
    {
        (self.level <= other.level) & ((self.set | other.set) == other.set)
    }

    pub fn same(self, other: Label) -> bool
        ensures { result ≡ same self other }
    {
        self == other
    }

    // The least label above both.
    pub fn join(self, other: Label) -> Label
        ensures { result ≡ join self other }
    {
        let set = self.set | other.set;
        Label {
            level: self.level.max(other.level),
            set,
        }
    }

    // The greatest label below both.
    pub fn meet(self, other: Label) -> Label
        ensures { result ≡ meet self other }
    {
        let set = self.set & other.set;
        Label {
            level: self.level.min(other.level),
            set,
        }
    }

    // Whether an object's label is set.
    pub fn is_given(self) -> bool
        ensures { result ≡ given self }
    {
        self.level != UNSET
    }

    // How often at most the level of a process moves whose owner has this clearance: the level, the number of its categories, and 1.
    pub fn most_moves(self) -> u32
        ensures { result ≡ rank self + 1 }
    {
        u32::from(self.level) + self.set.count_ones() + 1
    }
}

// The element of an array, 0 outside it.
pub fn at(array: &[u8], i: usize) -> u8
    ensures { result ≡ at array.now i }
{
    array.get(i).copied().unwrap_or(0)
}

// Element i of an array becomes v; past its end nothing changes.
pub fn put<T: Copy>(array: &mut [T], i: usize, v: T)
    ensures { array.new ≡ set array.old i v }
{
    if i < array.len() {
        array[i] = v;
    }
}
