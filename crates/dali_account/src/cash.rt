ghost use Rattle.std.specs.Prelude.{◌≡◌};
ghost use Rattle.dali_base.specs.Readers.{same_bytes};
ghost use Rattle.dali_account.specs.Book.{cash};

use dali_base::{Name, read_name};

/// The asset of cash.
const CASH: &[u8] = b"MXN";

/// The asset of cash.
pub fn cash_name() -> Name
    ensures { result ≡ cash }
{
    read_name(CASH).unwrap()
}

/// Whether the asset is cash.
pub fn is_cash(asset: Name) -> bool
    ensures { result ≡ same_bytes asset cash }
{
    asset.bytes() == CASH
}
