ghost use Rattle.std.specs.Prelude.{◌≡◌, ◌<◌, ◌++◌, ◌∷◌, OnOk, decimal, codes};
ghost use Rattle.dali_base.specs.Spelling.{two_digits};
ghost use Rattle.dali_gen.specs.Instructions.{account_name, code_name};

use dali_base::{OutOfMemory, Text};

/// Adds the account of this number, from 0.
pub(crate) fn add_account(text: &mut Text, account: u32) -> Result<(), OutOfMemory>
    requires { account < 99 }
    ensures { OnOk result (text.new ≡ text.old ++ account_name account) }
{
    text.push(b'A')?;
    add_two_digits(text, account + 1)
}

/// Adds the code of this number, from 0.
pub(crate) fn add_code(text: &mut Text, code: u32) -> Result<(), OutOfMemory>
    requires { code < 99 }
    ensures { OnOk result (text.new ≡ text.old ++ code_name code) }
{
    text.push(b'I')?;
    add_two_digits(text, code + 1)
}

/// Adds a number below 100 in two digits.
pub(crate) fn add_two_digits(text: &mut Text, n: u32) -> Result<(), OutOfMemory>
    requires { n < 100 }
    ensures { OnOk result (text.new ≡ text.old ++ two_digits n) }
{
    text.add(&[b'0' + (n / 10) as u8, b'0' + (n % 10) as u8])
}

/// Adds a comma and a field.
pub(crate) fn add_field(text: &mut Text, field: &[u8]) -> Result<(), OutOfMemory>
    ensures { OnOk result (text.new ≡ text.old ++ 44 ∷ field.now) }
{
    text.push(b',')?;
    text.add(field)
}

/// Adds a comma and a number.
pub(crate) fn add_number(text: &mut Text, n: u64) -> Result<(), OutOfMemory>
    ensures { OnOk result (text.new ≡ text.old ++ 44 ∷ decimal n) }
{
    text.push(b',')?;
    text.add_number(n)
}

/// Adds a comma and an account.
pub(crate) fn add_account_field(text: &mut Text, account: u32) -> Result<(), OutOfMemory>
    requires { account < 99 }
    ensures { OnOk result (text.new ≡ text.old ++ 44 ∷ account_name account) }
{
    text.push(b',')?;
    add_account(text, account)
}

/// Adds a comma and a code.
pub(crate) fn add_code_field(text: &mut Text, code: u32) -> Result<(), OutOfMemory>
    requires { code < 99 }
    ensures { OnOk result (text.new ≡ text.old ++ 44 ∷ code_name code) }
{
    text.push(b',')?;
    add_code(text, code)
}
