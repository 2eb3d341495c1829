// What the library was built with.
ghost use Rattle.std.specs.Prelude.{◌≡◌};
ghost use Rattle.hvozdalka.specs.Numbers.{version};
ghost use Rattle.in_place.specs.Layout.{whole_size};

// The size of a facility and the version of these functions, so that who was compiled with another header finds out.
#[unsafe(no_mangle)]
pub extern "C" fn hv_facility_size() -> usize
    ensures { result ≡ whole_size }
{
    in_place::SIZE
}

const VERSION: u32 = 9;

#[unsafe(no_mangle)]
pub extern "C" fn hv_version() -> u32
    ensures { result ≡ version }
{
    VERSION
}
