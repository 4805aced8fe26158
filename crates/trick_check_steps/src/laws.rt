//! A law of the definitions: a public function with an empty body, whose contract is the law.

ghost use Rattle.std.specs.Prelude.{◌≡◌};
ghost use Rattle.trick_base.specs.Capped.{capped};
ghost use Rattle.trick_lang.specs.Count.{block_steps};
ghost use Rattle.trick_check_steps.specs.Steps.{blocks_steps, count_at};

/// The counts are those of the blocks.
pub fn steps_law()
    ensures { (blocks : _) (k : _) → count_at (blocks_steps blocks) k ≡ capped (block_steps blocks k) }
{}
