// A facility, wherever it is: in a value, or in the bytes of a C struct, which are read and changed where they are.
#![tactic(auto)]

mod bytes;
mod layout;
mod store;
mod value;

pub use layout::SIZE;
pub use store::FacilityStore;
