ghost use Rattle.std.specs.Prelude.{◌≡◌, ◌++◌, ◌∷◌, [], OnOk, decimal};

use dali_base::{OutOfMemory, Text};

/// Adds a comma and a field.
pub fn add_field(text: &mut Text, field: &[u8]) -> Result<(), OutOfMemory>
    ensures { OnOk result (text.new ≡ text.old ++ 44 ∷ field.now) }
{
    text.push(b',')?;
    text.add(field)
}

/// Adds a comma and a number.
pub fn add_number(text: &mut Text, n: u64) -> Result<(), OutOfMemory>
    ensures { OnOk result (text.new ≡ text.old ++ 44 ∷ decimal n) }
{
    text.push(b',')?;
    text.add_number(n)
}

/// Adds the LF of a line.
pub fn end(text: &mut Text) -> Result<(), OutOfMemory>
    ensures { OnOk result (text.new ≡ text.old ++ 10 ∷ []) }
{
    text.push(b'\n')
}
