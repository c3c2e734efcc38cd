ghost use Rattle.std.specs.Prelude.{◌≡◌, ◌≤◌, ◌*◌};
ghost use Rattle.dali_base.specs.Limits.{most_items, most_lines, most_budget};
ghost use Rattle.dali_record.specs.Longest.{longest};

/// The greatest length of the record of an accepted cycle, in bytes: of a line of so many bytes, a problem of so many
/// items and lines, and this budget of branchings. Takes no memory.
pub fn greatest_length(line: u32, items: u64, lines: u64, budget: u64) -> u64
    requires items { items ≤ 4 * most_items }
    requires lines { lines ≤ 4 * most_lines }
    requires budget { budget ≤ most_budget }
    ensures { result ≡ longest line items lines budget }
{
    let node = 7 + 5 * items + 10 * lines;
    u64::from(line) + 8 + 14 * items + (2 * budget + items) * node
}
