// What is read of a facility by value: what `getters_at` reads of one where it is.
ghost use Rattle.std.specs.Prelude.{◌≡◌};
ghost use Rattle.hvozdalka.specs.Numbers.{open_marks, summary_of};
ghost use Rattle.rules.specs.FileFlags.{effective, flag_source};
ghost use Rattle.rules.specs.Histories.{moves_bound};
ghost use Rattle.state.specs.State.{clearance_of, object_of, objects_in, process_of, refusals_of, user_of};

use crate::Summary;
use crate::getters_at::{open_marks, summary_of};
use in_place::FacilityStore;
use state::{Facility, Object, Process, User};

#[unsafe(no_mangle)]
pub extern "C" fn hv_user(f: Facility, u: u8) -> User
    ensures { result ≡ user_of f u }
{
    f.user(u)
}

#[unsafe(no_mangle)]
pub extern "C" fn hv_process(f: Facility, p: u8) -> Process
    ensures { result ≡ process_of f p }
{
    f.process(p)
}

#[unsafe(no_mangle)]
pub extern "C" fn hv_object(f: Facility, t: u8) -> Object
    ensures { result ≡ object_of f t }
{
    f.object(t)
}

#[unsafe(no_mangle)]
pub extern "C" fn hv_open_marks(f: Facility, p: u8, t: u8) -> u8
    ensures { result ≡ open_marks f p t }
{
    open_marks(&f, p, t)
}

#[unsafe(no_mangle)]
pub extern "C" fn hv_refusals(f: Facility, u: u8) -> u32
    ensures { result ≡ refusals_of f u }
{
    f.refusals(u)
}

#[unsafe(no_mangle)]
pub extern "C" fn hv_most_moves(f: Facility, u: u8) -> u32
    ensures { result ≡ moves_bound (clearance_of f u) }
{
    f.user(u).clearance.most_moves()
}

#[unsafe(no_mangle)]
pub extern "C" fn hv_effective_flags(f: Facility, t: u8) -> u8
    ensures { result ≡ effective (objects_in f) t }
{
    flags::effective(&f, t)
}

#[unsafe(no_mangle)]
pub extern "C" fn hv_flag_source(f: Facility, t: u8, flag: u8) -> u8
    ensures { result ≡ flag_source (objects_in f) t flag }
{
    flags::source(&f, t, flag)
}

#[unsafe(no_mangle)]
pub extern "C" fn hv_summary(f: Facility) -> Summary
    ensures { result ≡ summary_of f }
{
    summary_of(&f)
}
