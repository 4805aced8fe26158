ghost use Rattle.std.specs.Prelude.{◌≡◌};
ghost use Rattle.trick_lang.specs.TreeOf.{term_of};

use std::marker::Model;
use trick_lang::Expr;

/// A resolved condition. Contracts see its tree.
#[derive(Drop)]
pub struct Condition {
    expr: Expr,
}

impl Model for Condition {
    ghost use Rattle.std.specs.Coded.{code_by, coded_list, codes};
    ghost use Rattle.std.specs.Prelude.{List, []};
    ghost use Rattle.trick_plan_draft.specs.Stored.{Mark, marks, unmarked, unmarked_marks};
    ghost use Rattle.trick_lang.specs.Tree.{Term};
    ghost use Rattle.trick_lang.specs.TreeOf.{term_of};

    ghost Value = { Term };

    ghost coded = { code_by (List Mark) (coded_list (Prim.hlevel codes)) (λ e. marks e []) unmarked unmarked_marks };

    ghost view = { λ condition. term_of condition.expr };
}

impl Condition {
    /// The condition of this tree.
    pub fn new(expr: Expr) -> Self
        ensures { result ≡ term_of expr }
    {
        Condition { expr }
    }

    /// The tree.
    pub fn into_expr(self) -> Expr
        ensures { term_of result ≡ self }
    {
        let Condition { expr } = self;
        expr
    }
}
