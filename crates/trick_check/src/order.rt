//! The methods of each class in the one order in which each stands after those that it calls.

ghost use Rattle.std.specs.Prelude.{◌≡◌, ℕ, ◌<◌, IfErr, IfOk, OnOk, length, Err};
ghost use Rattle.trick_check.specs.Parts.{AreOrders, HaveNoLoop, IsOneOrder, calls_at};
ghost use Rattle.trick_check.specs.Refused.{IsRefused, NamesAreRight};
ghost use Rattle.trick_lang.specs.Syntax.{class_parts_of, definitions_of};
ghost use Rattle.trick_check_names.specs.Calls.{class_calls};
ghost use Rattle.trick_check_names.specs.Tables.{tables_of};
ghost use Rattle.trick_check_order.specs.Calls.{AreCallees, IsFirst};
ghost use Rattle.trick_check_order.specs.declared.search.OrderFault.TheVariants.{Recursive};

use crate::CheckFault;
use crate::class::{method_name, parts_at};
use std::alloc::Global as Memory;
use trick_base::Items;
use trick_check_names::{Member, Names, Tables, calls_of_class};
use trick_check_order::{OrderFault, laws, order};
use trick_lang::syntax::{ClassPart, Definition};

// The order of the parts of a class that has these members, or the first that reaches itself.
fn order_of(
    alloc: Memory,
    parts: &[ClassPart],
    own: &Names<Member>,
) -> Result<Vec<usize>, OrderFault>
    requires there { AreCallees (class_calls (class_parts_of parts.now) own.now) }
    ensures ordered { IfOk result (λ order. IsOneOrder (class_calls (class_parts_of parts.now) own.now) order.items) }
    ensures recursive { (k : ℕ) → result ≡ Err (Recursive k) →
        IsFirst (class_calls (class_parts_of parts.now) own.now) k }
{
    match calls_of_class(alloc, parts, own) {
        Ok(calls) => order(alloc, calls.as_slice()),
        Err(_) => Err(OrderFault::OutOfMemory),
    }
}

// The order of the parts of the class of that number, or the first that reaches itself.
fn order_at(
    alloc: Memory,
    definitions: &[Definition],
    tables: &Tables,
    class: usize,
) -> Result<Vec<usize>, OrderFault>
    requires tables { tables.now ≡ tables_of (definitions_of definitions.now) }
    requires here { class < length definitions.now }
    ensures ordered { IfOk result (λ order. IsOneOrder (calls_at (definitions_of definitions.now) class) order.items) }
    ensures recursive { (k : ℕ) → result ≡ Err (Recursive k) →
        IsFirst (calls_at (definitions_of definitions.now) class) k }
{
    let groups = tables.groups.as_slice();
    order_of(alloc, parts_at(definitions, class), &groups[class])
}

// The order of the parts of the class of that number, where those before it have one.
fn class_order(
    alloc: Memory,
    definitions: &[Definition],
    tables: &Tables,
    class: usize,
) -> Result<Items<usize>, CheckFault>
    requires tables { tables.now ≡ tables_of (definitions_of definitions.now) }
    requires here { class < length definitions.now }
    requires right { NamesAreRight (definitions_of definitions.now) }
    requires before { HaveNoLoop (definitions_of definitions.now) class }
    ensures ordered { IfOk result (λ order. IsOneOrder (calls_at (definitions_of definitions.now) class) order) }
    ensures refused { IfErr result (λ fault. IsRefused (definitions_of definitions.now) fault) }
{
    match order_at(alloc, definitions, tables, class) {
        Ok(order) => Ok(Items::from_vec(order)),
        Err(OrderFault::Recursive(part)) => {
            let method = method_name(alloc, parts_at(definitions, class), part)?;
            Err(CheckFault::Recursive { method })
        }
        Err(OrderFault::OutOfMemory) => Err(CheckFault::OutOfMemory),
    }
}

/// For each definition the one order of its parts, by their numbers, in which each method stands after
/// those that it calls. Only the methods of a class call one another.
pub fn orders(
    alloc: Memory,
    definitions: &[Definition],
    tables: &Tables,
) -> Result<Vec<Items<usize>>, CheckFault>
    requires tables { tables.now ≡ tables_of (definitions_of definitions.now) }
    requires right { NamesAreRight (definitions_of definitions.now) }
    ensures many { IfOk result (λ orders. length orders.items ≡ length definitions.now) }
    ensures ordered { IfOk result (λ orders. AreOrders (definitions_of definitions.now) orders.items) }
    ensures free { OnOk result (HaveNoLoop (definitions_of definitions.now) (length (definitions_of definitions.now))) }
    ensures refused { IfErr result (λ fault. IsRefused (definitions_of definitions.now) fault) }
{
    laws::order_law();
    let mut orders = Vec::new(alloc);
    for class in 0..definitions.len() {
        let order = class_order(alloc, definitions, tables, class)?;
        orders.push(order)?;
    }
    Ok(orders)
}
