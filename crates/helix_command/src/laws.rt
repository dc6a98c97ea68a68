//! Laws over the definitions alone: each is the contract of a function that does nothing.

ghost use Rattle.std.specs.Prelude.{◌≡◌, ◌↔◌, ◌⊎◌, ◌<◌, ◌≤◌, ◌^◌, List, Some, decimal, ℕ};
ghost use Rattle.helix_command.specs.declared.fault.WordsFault.{WordsFault};
ghost use Rattle.helix_command.specs.declared.options.OptionName.{OptionName};
ghost use Rattle.helix_command.specs.declared.order.Order.{Order};
ghost use Rattle.helix_command.specs.Options.{option_named, word_of};
ghost use Rattle.helix_command.specs.Values.{number_within};
ghost use Rattle.helix_command.specs.Orders.{IsFault, IsOrder};

/// Words have at most one order.
pub fn one_order()
    ensures { (words : List (List ℕ)) (a b : Order) → IsOrder words a → IsOrder words b → a ≡ b }
{}

/// Words have at most one fault.
pub fn one_fault()
    ensures { (words : List (List ℕ)) (a b : WordsFault) → IsFault words a → IsFault words b → a ≡ b }
{}

/// Words have an order or a fault.
pub fn order_or_fault()
    ensures { (words : List (List ℕ)) → ((order : Order) × IsOrder words order)
        ⊎ ((fault : WordsFault) × IsFault words fault) }
{}

/// Words with an order have no fault.
pub fn order_without_fault()
    ensures { (words : List (List ℕ)) (order : Order) (fault : WordsFault) → IsOrder words order
        → ¬ IsFault words fault }
{}

/// Each option is the one that its word names.
pub fn options_by_words()
    ensures { (option : OptionName) → option_named (word_of option) ≡ Some option }
{}

/// A number that an option takes is written in decimal, and so is each from 1 to the greatest.
pub fn numbers_are_decimal()
    ensures { (most n : ℕ) (text : List ℕ) → most < 2 ^ 64
        → number_within most text ≡ Some n ↔ ((text ≡ decimal n) × (1 ≤ n) × (n ≤ most)) }
{}
