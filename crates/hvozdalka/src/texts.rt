// Lines and words.
ghost use Rattle.std.specs.Prelude.{◌≡◌};
ghost use Rattle.hvozdalka.specs.Numbers.{call_of};
ghost use Rattle.in_place.specs.Layout.{facility_at};
ghost use Rattle.in_place.specs.Stores.{Becomes};
ghost use Rattle.lines.specs.Blocks.{block_text, facility_after};
ghost use Rattle.rules.specs.Calls.{after};
ghost use Rattle.text.specs.Stored.{Stored};
ghost use Rattle.names.specs.Words.{answer_word, category_word, data_type_word, flag_word, kind_word, label_word, number_word, request_word, role_word};
ghost use Rattle.words.specs.Sentences.{sentence, setup_sentence};
ghost use Rattle.words.specs.Short.{short_sentence};

use crate::{Printed, SeatedCall};
use labels::Label;
use state::{Call, Facility};
use text::Out;

// The lines of the run program for a block of calls, on a facility where it is: its bytes become those of the facility after the block, and the padding
// stays. How many bytes the lines have.
#[unsafe(no_mangle)]
pub extern "C" fn hv_put_block_at(
    f: &mut [u8; in_place::SIZE],
    first: u64,
    calls: &[u8],
    out: &mut [u8],
) -> usize
    ensures stored { Stored out.old 0 (block_text first (facility_at f.old) calls.now) out.new result }
    ensures becomes { Becomes f.old f.new (facility_after first (facility_at f.old) calls.now) }
{
    lines::put_block(f, first, calls, out)
}

// The same of a facility by value.
#[unsafe(no_mangle)]
pub extern "C" fn hv_put_block(f: Facility, first: u64, calls: &[u8], out: &mut [u8]) -> Printed
    ensures stored { Stored out.old 0 (block_text first f calls.now) out.new result.length }
    ensures facility_value { result.facility ≡ facility_after first f calls.now }
{
    let mut facility = f;
    let length = lines::put_block(&mut facility, first, calls, out);
    Printed { facility, length }
}

// Enforces a call on a facility where it is, and stores its line in words, the full one or the short one, at the start of the buffer: how many bytes the
// line has.
#[unsafe(no_mangle)]
pub extern "C" fn hv_put_words_at(
    f: &mut [u8; in_place::SIZE],
    index: u64,
    c: SeatedCall,
    out: &mut [u8; words::BUFFER],
) -> usize
    ensures stored { Stored out.old 0 (sentence index (facility_at f.old) (call_of c)) out.new result }
    ensures becomes { Becomes f.old f.new (after (facility_at f.old) (call_of c)) }
{
    let mut line = Out::new(out);
    words::tell(f, index, Call::from(c), &mut line);
    line.place()
}

#[unsafe(no_mangle)]
pub extern "C" fn hv_put_short_words_at(
    f: &mut [u8; in_place::SIZE],
    index: u64,
    c: SeatedCall,
    out: &mut [u8; words::BUFFER],
) -> usize
    ensures stored { Stored out.old 0 (short_sentence index (facility_at f.old) (call_of c)) out.new result }
    ensures becomes { Becomes f.old f.new (after (facility_at f.old) (call_of c)) }
{
    let mut line = Out::new(out);
    words::tell_short(f, index, Call::from(c), &mut line);
    line.place()
}

// The same of a facility by value: the facility after the call, and how many bytes the line has.
#[unsafe(no_mangle)]
pub extern "C" fn hv_put_words(
    f: Facility,
    index: u64,
    c: SeatedCall,
    out: &mut [u8; words::BUFFER],
) -> Printed
    ensures stored { Stored out.old 0 (sentence index f (call_of c)) out.new result.length }
    ensures facility_value { result.facility ≡ after f (call_of c) }
{
    let mut facility = f;
    let mut line = Out::new(out);
    words::tell(&mut facility, index, Call::from(c), &mut line);
    Printed {
        facility,
        length: line.place(),
    }
}

#[unsafe(no_mangle)]
pub extern "C" fn hv_put_short_words(
    f: Facility,
    index: u64,
    c: SeatedCall,
    out: &mut [u8; words::BUFFER],
) -> Printed
    ensures stored { Stored out.old 0 (short_sentence index f (call_of c)) out.new result.length }
    ensures facility_value { result.facility ≡ after f (call_of c) }
{
    let mut facility = f;
    let mut line = Out::new(out);
    words::tell_short(&mut facility, index, Call::from(c), &mut line);
    Printed {
        facility,
        length: line.place(),
    }
}

// A refused set-up in words.
#[unsafe(no_mangle)]
pub extern "C" fn hv_put_setup_words(number: u8, index: u16, out: &mut [u8; words::BUFFER]) -> usize
    ensures { Stored out.old 0 (setup_sentence number index) out.new result }
{
    words::put_setup(out, number, index as u64)
}

// The words for a request, a kind of object, an answer, a flag, a role, a category and a data type, and what a refusal number says; how many bytes there
// are, cut off at the room.
#[unsafe(no_mangle)]
pub extern "C" fn hv_request_words(request: u8, out: &mut [u8]) -> usize
    ensures { Stored out.old 0 (request_word request) out.new result }
{
    let mut words = Out::new(out);
    names::put_request(&mut words, request);
    words.place()
}

#[unsafe(no_mangle)]
pub extern "C" fn hv_kind_words(kind: u8, out: &mut [u8]) -> usize
    ensures { Stored out.old 0 (kind_word kind) out.new result }
{
    let mut words = Out::new(out);
    names::put_kind(&mut words, kind);
    words.place()
}

#[unsafe(no_mangle)]
pub extern "C" fn hv_answer_words(answer: u8, out: &mut [u8]) -> usize
    ensures { Stored out.old 0 (answer_word answer) out.new result }
{
    let mut words = Out::new(out);
    names::put_answer(&mut words, answer);
    words.place()
}

#[unsafe(no_mangle)]
pub extern "C" fn hv_flag_words(flag: u8, out: &mut [u8]) -> usize
    ensures { Stored out.old 0 (flag_word flag) out.new result }
{
    let mut words = Out::new(out);
    names::put_flag_word(&mut words, flag);
    words.place()
}

#[unsafe(no_mangle)]
pub extern "C" fn hv_role_words(role: u8, out: &mut [u8]) -> usize
    ensures { Stored out.old 0 (role_word role) out.new result }
{
    let mut words = Out::new(out);
    names::put_role(&mut words, role);
    words.place()
}

#[unsafe(no_mangle)]
pub extern "C" fn hv_category_words(category: u8, out: &mut [u8]) -> usize
    ensures { Stored out.old 0 (category_word category) out.new result }
{
    let mut words = Out::new(out);
    names::put_category(&mut words, category);
    words.place()
}

#[unsafe(no_mangle)]
pub extern "C" fn hv_data_type_words(datatype: u8, out: &mut [u8]) -> usize
    ensures { Stored out.old 0 (data_type_word datatype) out.new result }
{
    let mut words = Out::new(out);
    names::put_data_type(&mut words, datatype);
    words.place()
}

#[unsafe(no_mangle)]
pub extern "C" fn hv_number_words(number: u8, out: &mut [u8]) -> usize
    ensures { Stored out.old 0 (number_word number) out.new result }
{
    let mut words = Out::new(out);
    names::put_number(&mut words, number);
    words.place()
}

// A label in words: its level, or that it is unset, and the letters of its categories.
#[unsafe(no_mangle)]
pub extern "C" fn hv_label_words(label: Label, out: &mut [u8]) -> usize
    ensures { Stored out.old 0 (label_word label) out.new result }
{
    let mut words = Out::new(out);
    names::put_label(&mut words, label);
    words.place()
}
