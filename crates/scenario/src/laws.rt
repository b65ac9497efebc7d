// What holds of reading and printing together.
ghost use Rattle.std.specs.Prelude.{◌≡◌, ℕ, ◌≤◌, List, Ok, None, true};
ghost use Rattle.scenario.specs.declared.order.Order.{Order};
ghost use Rattle.scenario.specs.Spelling.{spelled as line_spells};
ghost use Rattle.scenario.specs.Orders.{in_range, first_fault, orders_of, reading_of};
ghost use Rattle.scenario.specs.Numbered.{numbered};
ghost use Rattle.scenario.specs.Printing.{order_text, printed};

/// A line that spells an order with its numbers in their ranges is the line that is printed for it: nothing is spelled in
/// two ways.
pub fn each_order_has_one_spelling()
    ensures { (n m : ℕ) (line : List ℕ) (o : Order) → m ≤ 5 → line_spells n line ≡ Ok o → in_range m o ≡ true → order_text o ≡ line }
{}

/// The orders of a scenario, printed, are a scenario of the same orders, one on each line.
pub fn printing_is_read_again()
    ensures { (text : List ℕ) → first_fault text ≡ None → reading_of (printed (orders_of text)) ≡ record { orders = numbered 1 (orders_of text); fault = None } }
{}
