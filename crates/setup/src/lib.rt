// Set-ups: reading one from bytes, into a facility wherever it is.
#![tactic(auto)]

ghost use Rattle.std.specs.Prelude.{◌≡◌, length, true};
ghost use Rattle.answers.specs.Outcomes.{asked_or, refusal_number};
ghost use Rattle.rules.specs.Kinds.{allowed_by, also_allowed, byte_allowed, kind_of, no_kind, objects_kind, switches_kind, users_kind};
ghost use Rattle.rules.specs.Setup.{allowed_length, enter_all, enter_record, first_record, object_entered, read_setup};
ghost use Rattle.rules.specs.Setup.{records_of, refused_setup, switches_entered, user_entered};
ghost use Rattle.setup.specs.Progress.{count_after, fits_after, none_before, number_after, parent_fits_in, progress_after};
ghost use Rattle.state.specs.State.{all_off, blank};

use answers::{Refusal, SetupOutcome, SetupRefusal};
use in_place::FacilityStore;
use labels::Label;
use rules::{Also, Byte, Kind, Reading, SetupRecord};
use state::{Facility, Object, Process, Switches, User};

// How many bytes a record has.
pub const RECORD: usize = 8;

// The record that bytes begin with; a byte past their end is 0.
pub fn record_of(s: &[u8]) -> SetupRecord
    ensures { result ≡ first_record s.now }
{
    SetupRecord {
        kind: labels::at(s, 0),
        one: labels::at(s, 1),
        two: labels::at(s, 2),
        three: labels::at(s, 3),
        four: labels::at(s, 4),
        five: labels::at(s, 5),
        six: labels::at(s, 6),
        seven: labels::at(s, 7),
    }
}

// The most bytes of a set-up.
const MOST_BYTES: usize = 1160;

// 14: is the length a positive multiple of 8, at most 1,160?
pub fn allowed_length(n: usize) -> bool
    ensures { result ≡ allowed_length n }
{
    (n % RECORD == 0) & ((0 < n) & (n <= MOST_BYTES))
}

// The table of kinds: 3 switches, 1 user, 2 object, and none.
fn switches_kind() -> Kind
    ensures { result ≡ switches_kind }
{
    Kind {
        place: 1,
        most: 1,
        one: Byte::Upto(1),
        two: Byte::Upto(1),
        three: Byte::Upto(1),
        four: Byte::Upto(1),
        five: Byte::Zero,
        six: Byte::Zero,
        seven: Byte::Zero,
        also: Also::Nothing,
    }
}

fn users_kind() -> Kind
    ensures { result ≡ users_kind }
{
    Kind {
        place: 2,
        most: state::USERS as u16,
        one: Byte::Upto(Process::TOP),
        two: Byte::Upto(2),
        three: Byte::Upto(1),
        four: Byte::Upto(labels::ALL_CATEGORIES),
        five: Byte::Zero,
        six: Byte::Zero,
        seven: Byte::Zero,
        also: Also::Nothing,
    }
}

// All flags of an object: 1 + 2 + 4 + 8 + 128.
const ALL_FLAGS: u8 = 143;

fn objects_kind() -> Kind
    ensures { result ≡ objects_kind }
{
    Kind {
        place: 3,
        most: opens::OBJECTS as u16,
        one: Byte::Upto(rules::LAST_KIND),
        two: Byte::OrUnset(Process::TOP),
        three: Byte::OrUnset(2),
        four: Byte::Upto(1),
        five: Byte::Bits(ALL_FLAGS),
        six: Byte::Upto(255),
        seven: Byte::Upto(labels::ALL_CATEGORIES),
        also: Also::SetNeedsLevel,
    }
}

fn no_kind() -> Kind
    ensures { result ≡ no_kind }
{
    Kind {
        place: 0,
        most: 0,
        one: Byte::Zero,
        two: Byte::Zero,
        three: Byte::Zero,
        four: Byte::Zero,
        five: Byte::Zero,
        six: Byte::Zero,
        seven: Byte::Zero,
        also: Also::Nothing,
    }
}

fn kind_of(k: u8) -> Kind
    ensures { result ≡ kind_of k }
{
    match k {
        rules::SWITCHES_RECORD => switches_kind(),
        rules::USER_RECORD => users_kind(),
        rules::OBJECT_RECORD => objects_kind(),
        _ => no_kind(),
    }
}

// What the reader keeps of the records before a record: the kind of the last one, 0 where there is none, and how many of that kind there are.
#[derive(Clone, Copy, Default)]
pub struct Progress {
    pub kind: u8,
    pub count: u16,
}

// Before the first record.
pub fn none_before() -> Progress
    ensures { result ≡ none_before }
{
    Progress::default()
}

// 15: does the place of a record's kind fit?
fn fits(before: Progress, place: u8) -> bool
    ensures { result ≡ fits_after before place }
{
    if before.kind == 0 {
        return place == 1;
    }
    let last = kind_of(before.kind);
    (2 <= place) & (last.place <= place)
}

// How many of a kind that fits are before it: none where the last one is of another.
fn count_of(before: Progress, kind: u8) -> u16
    ensures { result ≡ count_after before kind }
{
    if before.kind == kind {
        return before.count;
    }
    0
}

// 17: is every byte allowed? Each by itself, and all together.
fn byte_allowed(test: Byte, b: u8) -> bool
    ensures { result ≡ byte_allowed test b }
{
    match test {
        Byte::Zero => b == 0,
        Byte::Upto(n) => b <= n,
        Byte::OrUnset(n) => (b <= n) | (b == labels::UNSET),
        Byte::Bits(n) => (b & n) == b,
    }
}

fn also_allowed(also: Also, r: SetupRecord) -> bool
    ensures { result ≡ also_allowed also r }
{
    match also {
        Also::Nothing => true,
        Also::SetNeedsLevel => (r.two != labels::UNSET) | (r.seven == 0),
    }
}

fn allowed_by(d: Kind, r: SetupRecord) -> bool
    ensures { result ≡ allowed_by d r }
{
    let one = d.one;
    let two = d.two;
    let three = d.three;
    let four = d.four;
    let five = d.five;
    let six = d.six;
    let seven = d.seven;
    let also = d.also;
    byte_allowed(one, r.one)
        & (byte_allowed(two, r.two)
            & (byte_allowed(three, r.three)
                & (byte_allowed(four, r.four)
                    & (byte_allowed(five, r.five)
                        & (byte_allowed(six, r.six)
                            & (byte_allowed(seven, r.seven) & also_allowed(also, r)))))))
}

// 19: is the parent of an object none, or the number plus 1 of one of the objects entered that is a directory?
pub fn parent_fits<S: FacilityStore>(s: &S, r: SetupRecord) -> bool
    ensures { result ≡ parent_fits_in (S.facility s.now).kinds (S.facility s.now).entered r }
{
    if r.six == 0 {
        return true;
    }
    let t = r.six - 1;
    let directory = s.object(t).kind == rules::DIRECTORY_KIND;
    (r.kind != rules::OBJECT_RECORD) | ((t < s.entered()) & directory)
}

// The questions 15 to 17 and 19 of one record, where `fit` answers 19.
pub fn ask_record(before: Progress, fit: bool, r: SetupRecord) -> Result<(), Refusal>
    ensures { asked_or result 0 ≡ number_after before fit r }
{
    let d = kind_of(r.kind);
    answers::ask(fits(before, d.place), Refusal::Place)?;
    answers::ask(count_of(before, r.kind) < d.most, Refusal::TooMany)?;
    answers::ask(allowed_by(d, r), Refusal::Byte)?;
    answers::ask(fit, Refusal::Parent)
}

// What is kept with one record more; there are never more of a kind than the most.
pub fn progress_after(before: Progress, kind: u8) -> Progress
    ensures { result ≡ progress_after before kind }
{
    let d = kind_of(kind);
    let count = count_of(before, kind);
    if count < d.most {
        return Progress {
            kind,
            count: count + 1,
        };
    }
    Progress { kind, count }
}

// The switches, the user and the object that a record enters.
pub fn switches_entered(r: SetupRecord) -> Switches
    ensures { result ≡ switches_entered r }
{
    Switches {
        mac: r.one,
        fc: r.two,
        sim: r.three,
        ff: r.four,
    }
}

pub fn user_entered(r: SetupRecord) -> User
    ensures { result ≡ user_entered r }
{
    User {
        clearance: Label {
            level: r.one,
            set: r.four,
        },
        role: r.two,
        trusted: r.three,
    }
}

pub fn object_entered(r: SetupRecord) -> Object
    ensures { result ≡ object_entered r }
{
    Object {
        live: 1,
        kind: r.one,
        label: Label {
            level: r.two,
            set: r.seven,
        },
        category: r.three,
        datatype: r.four,
        flags: r.five,
        parent: r.six,
    }
}

// The facility with one record more.
fn enter_record<S: FacilityStore>(s: &mut S, r: SetupRecord)
    ensures { S.becomes s.old s.new (enter_record (S.facility s.old) r) }
{
    match r.kind {
        rules::SWITCHES_RECORD => s.blank(switches_entered(r)),
        rules::USER_RECORD => s.add_user(user_entered(r)),
        rules::OBJECT_RECORD => s.add_object(object_entered(r)),
        _ => {}
    }
}

// Of a refused set-up nothing stays.
fn refuse<S: FacilityStore>(s: &mut S, refusal: Refusal, index: u16) -> SetupOutcome
    ensures value { result ≡ (refused_setup (refusal_number refusal) index).outcome }
    ensures becomes { S.becomes s.old s.new (refused_setup (refusal_number refusal) index).facility }
{
    s.blank(Switches::off());
    Err(SetupRefusal {
        number: refusal.number(),
        index,
    })
}

// The records of a set-up, each asked in turn. The facility is not blanked before: the first record does it.
fn read_records<S: FacilityStore>(s: &mut S, bytes: &[u8]) -> SetupOutcome
    requires { allowed_length (length bytes.now) ≡ true }
    ensures value { result ≡ (read_setup bytes.now).outcome }
    ensures becomes { S.becomes s.old s.new (read_setup bytes.now).facility }
{
    let mut before = none_before();
    for (k, record) in bytes.chunks_exact(RECORD).enumerate() {
        let r = record_of(record);
        if let Err(refusal) = ask_record(before, parent_fits(s, r), r) {
            return refuse(s, refusal, k as u16);
        }
        enter_record(s, r);
        before = progress_after(before, r.kind);
    }
    Ok(())
}

// What a set-up's bytes, of any length, come to; the facility becomes the one that they give.
pub fn read_in<S: FacilityStore>(s: &mut S, bytes: &[u8]) -> SetupOutcome
    ensures value { result ≡ (read_setup bytes.now).outcome }
    ensures becomes { S.becomes s.old s.new (read_setup bytes.now).facility }
{
    if !allowed_length(bytes.len()) {
        return refuse(s, Refusal::Length, 0);
    }
    read_records(s, bytes)
}

// The facility and the outcome of a set-up's bytes, of any length.
pub fn read_setup(bytes: &[u8]) -> Reading
    ensures { result ≡ read_setup bytes.now }
{
    let mut facility = Facility::blank(Switches::off());
    let outcome = read_in(&mut facility, bytes);
    Reading { outcome, facility }
}
