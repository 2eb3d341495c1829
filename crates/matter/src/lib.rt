// The account of matter: which object numbers each object and each process holds, kept as bits of words.
#![tactic(auto)]

ghost use Rattle.std.specs.Prelude.{min, ◌≡◌};
ghost use Rattle.matter.specs.LedgerSteps.{assigned_nothing_of, carried_of, copied_of, created_of, entered_of, held_by, is_member, members_in, merged_of};
ghost use Rattle.matter.specs.LedgerSteps.{no_members, put_members, object_gains_of, on_object_of, only_member, process_gains_of, received_of};
ghost use Rattle.matter.specs.LedgerSteps.{with_object, with_process};
ghost use Rattle.matter.specs.LedgerSteps.{selves, start_of, step_of};
ghost use Rattle.opens.specs.Opens.{most_objects};
ghost use Rattle.rules.specs.Matter.{gives, takes};

use labels::at;
use requests::{action_of, class_of, in_directory};
use rules::{Action, Class};
use state::{Call, OBJECTS};

// Object numbers in a word, and the words of a row for each object and each process.
const PER_WORD: u8 = 64;

const OBJECT_WORDS: usize = 2 * OBJECTS;

const PROCESS_WORDS: usize = 2 * state::PROCESSES;

// A set of object numbers: number c is bit c of `low` below 64, and bit c - 64 of `high` from there to 127.
#[derive(Clone, Copy, Default)]
pub struct Members {
    pub low: u64,
    pub high: u64,
}

// Row x of `objects` is the words 2x and 2x + 1, the set that object x holds; so with `processes`. `next` is the next object number.
#[repr(C)]
#[derive(Clone, Copy)]
pub struct Ledger {
    pub next: u8,
    pub kinds: [u8; OBJECTS],
    pub objects: [u64; OBJECT_WORDS],
    pub processes: [u64; PROCESS_WORDS],
}

impl Members {
    fn none() -> Members
        ensures { result ≡ no_members }
    {
        Members::default()
    }

    // The set of one object number, the empty one of a number that is none.
    fn only(c: u8) -> Members
        ensures { result ≡ only_member c }
    {
        if c < PER_WORD {
            return Members {
                low: 1 << c,
                high: 0,
            };
        }
        if c < opens::OBJECTS {
            return Members {
                low: 0,
                high: 1 << (c - PER_WORD),
            };
        }
        Members::none()
    }

    fn merged(self, other: Members) -> Members
        ensures { result ≡ merged_of self other }
    {
        Members {
            low: self.low | other.low,
            high: self.high | other.high,
        }
    }

    fn has(self, c: u8) -> bool
        ensures { result ≡ is_member self c }
    {
        if c < PER_WORD {
            return (self.low >> c) % 2 == 1;
        }
        if c < opens::OBJECTS {
            return (self.high >> (c - PER_WORD)) % 2 == 1;
        }
        false
    }
}

// The set in row r, the empty one outside the words.
fn row(words: &[u64], r: u8) -> Members
    ensures { result ≡ members_in words.now r }
{
    let i = 2 * (r as usize);
    Members {
        low: words.get(i).copied().unwrap_or(0),
        high: words.get(i + 1).copied().unwrap_or(0),
    }
}

// Row r becomes s; past the end nothing changes.
fn put_row(words: &mut [u64], r: u8, s: Members)
    ensures { words.new ≡ put_members words.old r s }
{
    let i = 2 * (r as usize);
    labels::put(words, i, s.low);
    labels::put(words, i + 1, s.high);
}

// Read of a file or channel, and every R but read-open.
fn takes(request: u8, k: Class) -> bool
    ensures { result ≡ takes request k }
{
    match k {
        Class::Reads => request != rules::READ_OPEN_REQUEST,
        Class::NoCondition => request == rules::READ_REQUEST,
        _ => false,
    }
}

// Write, and every W but write-open, delete and create.
fn gives(request: u8, k: Class) -> bool
    ensures { result ≡ gives request k }
{
    match k {
        Class::Writes => (request != rules::WRITE_OPEN_REQUEST)
            & ((request != rules::DELETE_REQUEST) & (request != rules::CREATE_REQUEST)),
        Class::NoCondition => request == rules::WRITE_REQUEST,
        _ => false,
    }
}

// The words of objects of which each below `entered` holds itself.
fn selves(entered: u8) -> [u64; OBJECT_WORDS]
    ensures { result ≡ selves (min entered most_objects) }
{
    let mut words: [u64; OBJECT_WORDS] = [0; OBJECT_WORDS];
    for t in 0..entered.min(opens::OBJECTS) {
        put_row(&mut words, t, Members::only(t));
    }
    words
}

// The ledger is handed in and back by value. A number that is none holds nothing and gains nothing.
impl Ledger {
    // The account of a set-up: each object below `entered` holds itself.
    pub fn start(entered: u8, kinds: [u8; OBJECTS]) -> Ledger
        ensures { result ≡ start_of entered kinds }
    {
        let objects = selves(entered);
        Ledger {
            next: entered,
            kinds,
            objects,
            processes: [0; PROCESS_WORDS],
        }
    }

    fn object_members(self, x: u8) -> Members
        ensures { result ≡ members_in self.objects x }
    {
        row(&self.objects, x)
    }

    fn process_members(self, p: u8) -> Members
        ensures { result ≡ members_in self.processes p }
    {
        row(&self.processes, p)
    }

    // Whether object x holds the matter of c.
    pub fn object_holds(self, x: u8, c: u8) -> bool
        ensures { result ≡ held_by self.objects x c }
    {
        self.object_members(x).has(c)
    }

    // Object x holds s from now on, and so with process p.
    fn with_object(mut self, x: u8, s: Members) -> Ledger
        ensures { result ≡ with_object self x s }
    {
        put_row(&mut self.objects, x, s);
        self
    }

    fn with_process(mut self, p: u8, s: Members) -> Ledger
        ensures { result ≡ with_process self p s }
    {
        put_row(&mut self.processes, p, s);
        self
    }

    // Process p gains what object t holds.
    fn process_gains(self, p: u8, t: u8) -> Ledger
        ensures { result ≡ process_gains_of self p t }
    {
        let s = self.process_members(p).merged(self.object_members(t));
        self.with_process(p, s)
    }

    // Object t gains what process p holds.
    fn object_gains(self, p: u8, t: u8) -> Ledger
        ensures { result ≡ object_gains_of self p t }
    {
        let s = self.object_members(t).merged(self.process_members(p));
        self.with_object(t, s)
    }

    // Send-signal: process t gains what process p holds.
    fn received(self, p: u8, t: u8) -> Ledger
        ensures { result ≡ received_of self p t }
    {
        let s = self.process_members(t).merged(self.process_members(p));
        self.with_process(t, s)
    }

    // Login: process p holds nothing.
    fn assigned_nothing(self, p: u8) -> Ledger
        ensures { result ≡ assigned_nothing_of self p }
    {
        self.with_process(p, Members::none())
    }

    // Clone: process t holds what p does.
    fn copied(self, p: u8, t: u8) -> Ledger
        ensures { result ≡ copied_of self p t }
    {
        if opens::PROCESSES <= p {
            return self;
        }
        let s = self.process_members(p);
        self.with_process(t, s)
    }

    // Create: the next object number, where there is one, has this kind and holds itself.
    fn entered(self, kind: u8) -> Ledger
        ensures { result ≡ entered_of self kind }
    {
        let n = self.next;
        let i = n as usize;
        if OBJECTS <= i {
            return self;
        }
        let mut l = self.with_object(n, Members::only(n));
        l.kinds[i] = kind;
        l.next = n + 1;
        l
    }

    // An accepted create.
    fn created(self, c: Call) -> Ledger
        ensures { result ≡ created_of self c }
    {
        if in_directory(c.extra) {
            return self.object_gains(c.process, c.target).entered(c.extra);
        }
        self.entered(c.extra)
    }

    // An accepted request on an object.
    fn on_object(self, c: Call) -> Ledger
        ensures { result ≡ on_object_of self c }
    {
        let t = c.target as usize;
        let k = class_of(c.request, at(&self.kinds, t));
        if takes(c.request, k) {
            return self.process_gains(c.process, c.target);
        }
        if gives(c.request, k) {
            return self.object_gains(c.process, c.target);
        }
        self
    }

    // An accepted call.
    fn carried(self, k: Action, c: Call) -> Ledger
        ensures { result ≡ carried_of k self c }
    {
        match k {
            Action::Login => self.assigned_nothing(c.process),
            Action::Clone => self.copied(c.process, c.target),
            Action::SendSignal => self.received(c.process, c.target),
            Action::SetLevel => self,
            Action::Terminate => self,
            Action::Create => self.created(c),
            Action::OnObject => self.on_object(c),
            Action::Unknown => self,
        }
    }

    // The account after a call, of which only the four bytes and whether it was accepted count.
    pub fn step(self, c: Call, accepted: bool) -> Ledger
        ensures { result ≡ step_of self c accepted }
    {
        if accepted {
            return self.carried(action_of(c.request), c);
        }
        self
    }
}
