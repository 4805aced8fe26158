//! Laws of calls. A function that calls one of them may rest on what it says; the call itself does
//! nothing.

ghost use Rattle.std.specs.Prelude.{ℕ};
ghost use Rattle.trick_check_order.specs.Calls.{AreCallees, IsOrderOf, ReachesItself, order_of};
ghost use Rattle.trick_check_order.specs.Worked.{AreOrdersWorked};

/// In an order no method reaches itself.
pub fn order_law()
    ensures { (g : _) (order : _) → IsOrderOf g order → (k : ℕ) → ReachesItself g k → ⊥ }
{}

/// Where no method reaches itself, the one order is an order of all methods.
pub fn one_order_law()
    ensures { (g : _) → AreCallees g → ((k : ℕ) → ReachesItself g k → ⊥) → IsOrderOf g (order_of g) }
{}

/// The orders of worked calls.
pub fn worked_orders()
    ensures { AreOrdersWorked }
{}
