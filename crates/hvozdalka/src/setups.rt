// Set-ups: read and written.
ghost use Rattle.std.specs.Prelude.{◌≡◌};
ghost use Rattle.hvozdalka.specs.Numbers.{reading_numbers, setup_numbers, writing_numbers};
ghost use Rattle.in_place.specs.Layout.{facility_at};
ghost use Rattle.in_place.specs.Stores.{Becomes};
ghost use Rattle.rules.specs.Setup.{read_setup, write_setup};

use crate::{SetupNumbers, SetupReading, SetupWriting};
use answers::{NoRoom, SetupOutcome, SetupRefusal, WriteOutcome};
use rules::Reading;
use state::Facility;

// Number and index of what a set-up came to.
impl From<SetupOutcome> for SetupNumbers {
    ghost from_gives = { λ o r. r ≡ setup_numbers o };

    fn from(o: SetupOutcome) -> SetupNumbers {
        match o {
            Ok(()) => SetupNumbers {
                number: 0,
                index: 0,
            },
            Err(SetupRefusal { number, index }) => SetupNumbers { number, index },
        }
    }
}

// What a set-up comes to.
pub(crate) fn numbers_of(bytes: &[u8]) -> SetupNumbers
    ensures { result ≡ setup_numbers (read_setup bytes.now).outcome }
{
    SetupNumbers::from(setup::read_setup(bytes).outcome)
}

// Number and length of what writing one came to.
impl From<WriteOutcome> for SetupWriting {
    ghost from_gives = { λ w r. r ≡ writing_numbers w };

    fn from(w: WriteOutcome) -> SetupWriting {
        match w {
            Ok(length) => SetupWriting { length, number: 0 },
            Err(NoRoom) => SetupWriting {
                length: 0,
                number: 18,
            },
        }
    }
}

// Reads a set-up into a facility where it is: its bytes become those of the fresh facility, or of one with all switches off where the set-up is refused,
// and the padding stays. Number 0, or the refusal number 14 to 17 or 19 with the index of the record.
#[unsafe(no_mangle)]
pub extern "C" fn hv_read_setup_at(bytes: &[u8], f: &mut [u8; in_place::SIZE]) -> SetupNumbers
    ensures value { result ≡ setup_numbers (read_setup bytes.now).outcome }
    ensures becomes { Becomes f.old f.new (read_setup bytes.now).facility }
{
    SetupNumbers::from(setup::read_in(f, bytes))
}

// Writes the set-up of a facility where it is into a lent buffer. Number 0 and the length, or 18 and 0 where the buffer is too short, and then it is
// untouched.
#[unsafe(no_mangle)]
pub extern "C" fn hv_write_setup_at(f: &[u8; in_place::SIZE], out: &mut [u8]) -> SetupWriting
    ensures value { result ≡ writing_numbers (write_setup (facility_at f.now) out.old).outcome }
    ensures out_after { out.new ≡ (write_setup (facility_at f.now) out.old).buffer }
{
    SetupWriting::from(writer::write_setup(f, out))
}

// The same, with the facility by value.
#[unsafe(no_mangle)]
pub extern "C" fn hv_read_setup(bytes: &[u8]) -> SetupReading
    ensures { result ≡ reading_numbers (read_setup bytes.now) }
{
    let Reading { outcome, facility } = setup::read_setup(bytes);
    let SetupNumbers { number, index } = SetupNumbers::from(outcome);
    SetupReading {
        facility,
        number,
        index,
    }
}

// The same of a facility by value.
#[unsafe(no_mangle)]
pub extern "C" fn hv_write_setup(f: Facility, out: &mut [u8]) -> SetupWriting
    ensures value { result ≡ writing_numbers (write_setup f out.old).outcome }
    ensures out_after { out.new ≡ (write_setup f out.old).buffer }
{
    SetupWriting::from(writer::write_setup(&f, out))
}
