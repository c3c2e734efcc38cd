/// What a line lacks that has so much.
fn lack(has: i64) -> i64 {
    0i64.saturating_sub(has.min(0))
}

/// How much more a line lacks that has so much, where this is added.
pub(crate) fn rise(has: i64, by: i64) -> i64 {
    lack(has.saturating_add(by)).saturating_sub(lack(has))
}

/// The amount with its sign turned, where its item is inside: what the item's flip adds.
pub(crate) fn turned(inside: bool, amount: i64) -> i64 {
    if inside {
        0i64.saturating_sub(amount)
    } else {
        amount
    }
}

/// The price of a line times what it lacks more.
#[tactic(auto, using(std::proofs::lemmas::Int::ints))]
pub(crate) fn cost(price: &i64, more: &i64) -> i128 {
    i128::from(*price) * i128::from(*more)
}

/// What a value counts for, where each centavo counts for so much.
#[tactic(auto, using(std::proofs::lemmas::Int::ints))]
pub(crate) fn gain(worth: &i64, value: u64) -> i128 {
    i128::from(*worth) * i128::from(value)
}
