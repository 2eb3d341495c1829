// What is read of a facility where it is, and not copied.
ghost use Rattle.std.specs.Prelude.{◌≡◌};
ghost use Rattle.hvozdalka.specs.Numbers.{open_marks, summary_of};
ghost use Rattle.in_place.specs.Layout.{facility_at};
ghost use Rattle.rules.specs.FileFlags.{effective, flag_source};
ghost use Rattle.rules.specs.Histories.{moves_bound};
ghost use Rattle.state.specs.State.{clearance_of, object_of, objects_in, process_of, refusals_of, user_of};

use crate::Summary;
use in_place::FacilityStore;
use state::{Object, Process, Switches, User};

// The marks of a process on an object, whatever other bits their byte has.
pub(crate) fn open_marks<S: FacilityStore>(s: &S, p: u8, t: u8) -> u8
    ensures { result ≡ open_marks (S.facility s.now) p t }
{
    opens::add_modes(s.opens(p, t), 0)
}

pub(crate) fn summary_of<S: FacilityStore>(s: &S) -> Summary
    ensures { result ≡ summary_of (S.facility s.now) }
{
    let Switches { mac, fc, sim, ff } = s.switches();
    Summary {
        mac,
        fc,
        sim,
        users: s.users(),
        entered: s.entered(),
        ff,
    }
}

// A user, a process and an object by their numbers; one that is none has all fields 0.
#[unsafe(no_mangle)]
pub extern "C" fn hv_user_at(f: &[u8; in_place::SIZE], u: u8) -> User
    ensures { result ≡ user_of (facility_at f.now) u }
{
    f.user(u)
}

#[unsafe(no_mangle)]
pub extern "C" fn hv_process_at(f: &[u8; in_place::SIZE], p: u8) -> Process
    ensures { result ≡ process_of (facility_at f.now) p }
{
    f.process(p)
}

#[unsafe(no_mangle)]
pub extern "C" fn hv_object_at(f: &[u8; in_place::SIZE], t: u8) -> Object
    ensures { result ≡ object_of (facility_at f.now) t }
{
    f.object(t)
}

// How process p has object t open: 1 for reading, 2 for writing, 3 for both; 0 for a number that is none.
#[unsafe(no_mangle)]
pub extern "C" fn hv_open_marks_at(f: &[u8; in_place::SIZE], p: u8, t: u8) -> u8
    ensures { result ≡ open_marks (facility_at f.now) p t }
{
    open_marks(f, p, t)
}

// The calls refused with 12 or 13 whose caller a user owned; 0 where there is no such user.
#[unsafe(no_mangle)]
pub extern "C" fn hv_refusals_at(f: &[u8; in_place::SIZE], u: u8) -> u32
    ensures { result ≡ refusals_of (facility_at f.now) u }
{
    f.refusals(u)
}

// How often at most the level of a user's process moves by itself; 1 where there is no such user.
#[unsafe(no_mangle)]
pub extern "C" fn hv_most_moves_at(f: &[u8; in_place::SIZE], u: u8) -> u32
    ensures { result ≡ moves_bound (clearance_of (facility_at f.now) u) }
{
    f.user(u).clearance.most_moves()
}

// The effective flags of an object, whether FF is on or off.
#[unsafe(no_mangle)]
pub extern "C" fn hv_effective_flags_at(f: &[u8; in_place::SIZE], t: u8) -> u8
    ensures { result ≡ effective (objects_in (facility_at f.now)) t }
{
    flags::effective(f, t)
}

// The object whose own flag it is that object t has among its effective ones; 255 where it has none of it.
#[unsafe(no_mangle)]
pub extern "C" fn hv_flag_source_at(f: &[u8; in_place::SIZE], t: u8, flag: u8) -> u8
    ensures { result ≡ flag_source (objects_in (facility_at f.now)) t flag }
{
    flags::source(f, t, flag)
}

// Switches and counts.
#[unsafe(no_mangle)]
pub extern "C" fn hv_summary_at(f: &[u8; in_place::SIZE]) -> Summary
    ensures { result ≡ summary_of (facility_at f.now) }
{
    summary_of(f)
}
