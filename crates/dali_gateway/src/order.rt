ghost use Rattle.std.specs.Prelude.{ℕ, List};
ghost use Rattle.dali_gateway.specs.Order.{KeepsOrder};

/// Does nothing. It stands for its clause: whatever the turns, the merge keeps the order of each inbox, as
/// `specs/Order.antt` defines it.
pub fn keep_order()
    ensures { (inboxes : List (List ℕ)) (turns : List ℕ) → KeepsOrder inboxes turns }
{}
