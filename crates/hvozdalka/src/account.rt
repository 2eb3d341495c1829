// Lists of calls, and the account of matter.
ghost use Rattle.std.specs.Prelude.{◌≡◌};
ghost use Rattle.matter.specs.LedgerSteps.{held_by, start_of, step_of};
ghost use Rattle.hvozdalka.specs.Numbers.{call_of, held_numbers, replay_numbers};

use crate::setups::numbers_of;
use crate::{Held, SeatedCall, SetupNumbers, SetupReading};
use matter::Ledger;
use state::{Call, Facility};

// The facility of a set-up after calls of four bytes each, and what the set-up came to.
#[unsafe(no_mangle)]
pub extern "C" fn hv_replay(setup: &[u8], calls: &[u8]) -> SetupReading
    ensures { result ≡ replay_numbers setup.now calls.now }
{
    let SetupNumbers { number, index } = numbers_of(setup);
    SetupReading {
        facility: history::replay(setup, calls),
        number,
        index,
    }
}

// Whether object x holds the matter of object c after the calls, and what the set-up came to.
#[unsafe(no_mangle)]
pub extern "C" fn hv_holds(setup: &[u8], calls: &[u8], x: u8, c: u8) -> Held
    ensures { result ≡ held_numbers setup.now calls.now x c }
{
    let SetupNumbers { number, index } = numbers_of(setup);
    Held {
        holds: history::holds(setup, calls, x, c),
        number,
        index,
    }
}

// The account of matter, kept along: at the start of a facility, after a call that was accepted or not, and whether object x holds the matter of c.
#[unsafe(no_mangle)]
pub extern "C" fn hv_account_start(f: Facility) -> Ledger
    ensures { result ≡ start_of f.entered f.kinds }
{
    Ledger::start(f.entered, f.kinds)
}

#[unsafe(no_mangle)]
pub extern "C" fn hv_account_step(l: Ledger, c: SeatedCall, accepted: bool) -> Ledger
    ensures { result ≡ step_of l (call_of c) accepted }
{
    l.step(Call::from(c), accepted)
}

#[unsafe(no_mangle)]
pub extern "C" fn hv_account_holds(l: Ledger, x: u8, c: u8) -> bool
    ensures { result ≡ held_by l.objects x c }
{
    l.object_holds(x, c)
}
