// Why a call is refused.
ghost use Rattle.std.specs.Prelude.{◌≡◌};
ghost use Rattle.hvozdalka.specs.Numbers.{call_of};
ghost use Rattle.in_place.specs.Layout.{facility_at};
ghost use Rattle.text.specs.Stored.{Put, Stored};
ghost use Rattle.names.specs.Reasons.{why_text};
ghost use Rattle.reasons.specs.Reasons.{failed_of};

use crate::SeatedCall;
use in_place::FacilityStore;
use reasons::Failed;
use state::{Call, Facility};
use text::Out;

// The conditions that failed, in words.
fn put_why<S: FacilityStore>(s: &S, c: Call, out: &mut Out)
    ensures { Put out.old (why_text (S.facility s.now) c) out.new }
{
    let w = reasons::failed_of(s, c);
    let source = flags::source(s, c.target, w.flag);
    names::put_failed(out, w, source);
}

// Which conditions failed where a call is refused with 12 or 13; none with any other number.
#[unsafe(no_mangle)]
pub extern "C" fn hv_why_at(f: &[u8; in_place::SIZE], c: SeatedCall) -> Failed
    ensures { result ≡ failed_of (facility_at f.now) (call_of c) }
{
    reasons::failed_of(f, Call::from(c))
}

// The same in words, each condition in brackets; how many bytes there are, cut off at the room.
#[unsafe(no_mangle)]
pub extern "C" fn hv_why_words_at(f: &[u8; in_place::SIZE], c: SeatedCall, out: &mut [u8]) -> usize
    ensures { Stored out.old 0 (why_text (facility_at f.now) (call_of c)) out.new result }
{
    let mut words = Out::new(out);
    put_why(f, Call::from(c), &mut words);
    words.place()
}

#[unsafe(no_mangle)]
pub extern "C" fn hv_why(f: Facility, c: SeatedCall) -> Failed
    ensures { result ≡ failed_of f (call_of c) }
{
    reasons::failed_of(&f, Call::from(c))
}

#[unsafe(no_mangle)]
pub extern "C" fn hv_why_words(f: Facility, c: SeatedCall, out: &mut [u8]) -> usize
    ensures { Stored out.old 0 (why_text f (call_of c)) out.new result }
{
    let mut words = Out::new(out);
    put_why(&f, Call::from(c), &mut words);
    words.place()
}
