// Replay, the account of matter after a list of calls, and what an object holds.
#![tactic(auto)]

ghost use Rattle.std.specs.Prelude.{◌≡◌};
ghost use Rattle.history.specs.CallBytes.{call_from};
ghost use Rattle.history.specs.Replayed.{replayed};
ghost use Rattle.matter.specs.AfterCalls.{ledger_of};
ghost use Rattle.rules.specs.Lines.{calls_of};
ghost use Rattle.rules.specs.Matter.{holds};

use matter::Ledger;
use state::{Call, Facility};

// How many bytes a call has.
pub const CALL: usize = 4;

// The call that begins at byte i; a byte past the end is 0.
pub fn call_at(calls: &[u8], i: usize) -> Call
    ensures { result ≡ call_from calls.now i }
{
    if calls.len() <= i {
        return Call {
            request: 0,
            process: 0,
            target: 0,
            extra: 0,
        };
    }
    Call {
        request: labels::at(calls, i),
        process: labels::at(calls, i + 1),
        target: labels::at(calls, i + 2),
        extra: labels::at(calls, i + 3),
    }
}

// The facility that the set-up's bytes give, after the calls, four bytes each.
pub fn replay(setup: &[u8], calls: &[u8]) -> Facility
    ensures { result ≡ replayed setup.now calls.now }
{
    let mut f = setup::read_setup(setup).facility;
    let whole = calls.len() / CALL;
    for k in 0..whole {
        calls::enforce(&mut f, call_at(calls, CALL * k));
    }
    f
}

// The account of matter after the calls.
pub fn account(setup: &[u8], calls: &[u8]) -> Ledger
    ensures { result ≡ ledger_of setup.now (calls_of calls.now) }
{
    let mut f = setup::read_setup(setup).facility;
    let mut l = Ledger::start(f.entered, f.kinds);
    for k in 0..calls.len() / CALL {
        let c = call_at(calls, CALL * k);
        let outcome = calls::enforce(&mut f, c);
        l = l.step(c, outcome.number() == 0);
    }
    l
}

// Whether object x holds the matter of c after the calls.
pub fn holds(setup: &[u8], calls: &[u8], x: u8, c: u8) -> bool
    ensures { result ≡ holds setup.now (calls_of calls.now) x c }
{
    account(setup, calls).object_holds(x, c)
}
