//! What a program asks of its blocks, class by class. A function that calls one of these laws may
//! rest on what it says; the call itself does nothing.

ghost use Rattle.std.specs.Prelude.{◌≡◌, [], ℕ, IsTrue, List, Some, is_some, slice_get};
ghost use Rattle.trick_check_blocks.specs.Bodies.{Body};
ghost use Rattle.trick_check_blocks.specs.Held.{bodies_of};
ghost use Rattle.trick_check_blocks.specs.Kept.{AreKept, BlocksHold, Grows, Keeps, MethodHolds, MethodKept, MethodsHold, is_one_of};
ghost use Rattle.trick_check_blocks.specs.Methods.{Progress, progress, with_parts};
ghost use Rattle.trick_check_blocks.specs.Room.{IsLaid};
ghost use Rattle.trick_check_blocks.specs.Worked.{AreResolved};
ghost use Rattle.trick_check_blocks.specs.declared.scope.ClassScope.{ClassScope};
ghost use Rattle.trick_lang.specs.SyntaxTree as tree;
ghost use Rattle.trick_lang.specs.declared.method.Method.{Method};
ghost use Rattle.trick_lang.specs.declared.tree.Block.{Block};
ghost use Rattle.trick_check_names.specs.Names.{meaning_of};

/// Before the first block all is kept.
pub fn start_law()
    ensures { (w : ClassScope) → w.methods ≡ [] → Keeps (progress w []) }
{}

/// It is kept where the next class begins.
pub fn class_law()
    ensures { (w : ClassScope) (class : ℕ) (bodies : List Body) → Keeps (progress w bodies)
        → Keeps (progress (record w { class = class; methods = [] }) bodies) }
{}

/// It is kept when the methods of a class are made, in any order of its parts.
pub fn methods_law()
    ensures { (order : List ℕ) (parts : List tree.Part) (p : Progress) → IsLaid p.scope → Keeps p
        → Keeps (with_parts order parts p) }
{}

/// Methods that are made stay as they are.
pub fn growth_law()
    ensures { (order : List ℕ) (parts : List tree.Part) (p : Progress) → Grows p (with_parts order parts p) }
{}

/// What is kept is what a program asks of its blocks.
pub fn blocks_law()
    ensures { (w : ClassScope) (blocks : List Block) → Keeps (progress w (bodies_of blocks))
        → BlocksHold w.layout.cells w.layout.sizes blocks }
{}

/// What is kept of a method is what a program asks of it.
pub fn method_law()
    ensures { (w : ClassScope) (blocks : List Block) (class block : ℕ)
        → MethodKept class w.slots (bodies_of blocks) block → MethodHolds w.slots blocks class block }
{}

/// Of methods that stay as they are the same is kept.
pub fn kept_law()
    ensures { (p q : Progress) (methods : List Method) → Grows p q → AreKept p methods → AreKept q methods }
{}

/// What is kept of all methods is what a program asks of them.
pub fn program_law()
    ensures { (w : ClassScope) (blocks : List Block) (methods : List Method)
        → AreKept (progress w (bodies_of blocks)) methods → MethodsHold w.slots blocks methods }
{}

/// After an order that has the number of its part, the name of a method stands for a block.
pub fn name_law()
    ensures { (order : List ℕ) (parts : List tree.Part) (p : Progress) (k : ℕ) (m : tree.Method)
        → slice_get parts k ≡ Some (tree.HasMethod m) → IsTrue (is_one_of order k)
        → IsTrue (is_some (meaning_of m.name (with_parts order parts p).scope.methods)) }
{}

/// The rules make of the worked bodies what docs/RULES.md says of them.
pub fn worked_bodies_are_resolved()
    ensures { AreResolved }
{}
