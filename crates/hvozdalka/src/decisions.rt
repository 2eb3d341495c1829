// Query and enforce.
ghost use Rattle.std.specs.Prelude.{◌≡◌};
ghost use Rattle.hvozdalka.specs.Numbers.{call_of, enforced_numbers};
ghost use Rattle.answers.specs.Outcomes.{outcome_numbers};
ghost use Rattle.in_place.specs.Layout.{facility_at};
ghost use Rattle.in_place.specs.Stores.{Becomes};
ghost use Rattle.rules.specs.Calls.{after, enforce, query};

use crate::{CallEnforced, SeatedCall};
use answers::CallOutcome;
use rules::Enforced;
use state::{Call, Facility};

// What enforce would answer, of a facility that is read where it is.
#[unsafe(no_mangle)]
pub extern "C" fn hv_query_at(f: &[u8; in_place::SIZE], c: SeatedCall) -> CallOutcome
    ensures { result ≡ outcome_numbers (query (facility_at f.now) (call_of c)) }
{
    CallOutcome::from(calls::query(f, Call::from(c)))
}

// A call on a facility where it is: its bytes become those of the facility after the call, and the padding stays.
#[unsafe(no_mangle)]
pub extern "C" fn hv_enforce_at(f: &mut [u8; in_place::SIZE], c: SeatedCall) -> CallOutcome
    ensures value { result ≡ outcome_numbers (query (facility_at f.old) (call_of c)) }
    ensures becomes { Becomes f.old f.new (after (facility_at f.old) (call_of c)) }
{
    CallOutcome::from(calls::enforce(f, Call::from(c)))
}

// What enforce would answer.
#[unsafe(no_mangle)]
pub extern "C" fn hv_query(f: Facility, c: SeatedCall) -> CallOutcome
    ensures { result ≡ outcome_numbers (query f (call_of c)) }
{
    CallOutcome::from(calls::query(&f, Call::from(c)))
}

// The facility after a call, and what the call came to.
#[unsafe(no_mangle)]
pub extern "C" fn hv_enforce(f: Facility, c: SeatedCall) -> CallEnforced
    ensures { result ≡ enforced_numbers (enforce f (call_of c)) }
{
    let Enforced { facility, outcome } = calls::enforced(f, Call::from(c));
    CallEnforced {
        facility,
        outcome: CallOutcome::from(outcome),
    }
}
