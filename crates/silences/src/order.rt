// The order of records.
ghost use Rattle.std.specs.Prelude.{◌≡◌};
ghost use Rattle.silences.specs.Silences.{is_above};
ghost use Rattle.silences.specs.Addresses.{address_of, last_of};

use crate::addresses::Address;

// Whether a record is above the one before it. The first record has none before it, and is.
pub fn is_above(last: Option<Address>, address: Address) -> bool
    ensures { result ≡ is_above (last_of last) (address_of address) }
{
    match last {
        None => true,
        Some(before) => before < address,
    }
}
