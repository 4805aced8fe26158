//! What is proved of the grammars: each function is a promise, and does nothing.

ghost use Rattle.std.specs.Prelude.{◌≡◌, is_none};
ghost use Rattle.trick_sdef_grammar.specs.Named.{AreNamed};
ghost use Rattle.trick_sdef_grammar.specs.Readers.{HaveNoConflict};
ghost use Rattle.trick_grammar.specs.Conflicts.{first_conflict};
ghost use Rattle.trick_grammar.specs.Grammar.{is_predictive};
ghost use Rattle.trick_sdef_grammar.specs.BodyProductions.{BodiesHaveProductions};
ghost use Rattle.trick_sdef_grammar.specs.FileProductions.{FilesHaveProductions};
ghost use Rattle.trick_sdef_grammar.specs.Promises.{ConditionsTellLimits, FilesTellLimits, MethodsTellLimits};

/// The grammar has the texts of the productions, with their trees: parts of bodies and whole methods.
pub fn bodies_have_productions()
    ensures { BodiesHaveProductions }
{}

/// The same for simulation definitions: from enums to whole files.
pub fn files_have_productions()
    ensures { FilesHaveProductions }
{}

/// In a method a refusal for a limit is at a token with which a text goes on under larger limits, and
/// every other answer is the same there.
pub fn methods_tell_limits()
    ensures { MethodsTellLimits }
{}

/// The same for conditions.
pub fn conditions_tell_limits()
    ensures { ConditionsTellLimits }
{}

/// A refusal for a limit is at a token with which a simulation definition goes on under larger limits,
/// or at a thread or a phase that is not in the profile there either, and every other answer is the same
/// there.
pub fn files_tell_limits()
    ensures { FilesTellLimits }
{}

/// A grammar, which may pass the test of prediction or fail it.
pub trait Tested {
    ghost use Rattle.std.specs.Prelude.{ℕ};
    ghost use Rattle.trick_grammar.specs.Grammar.{Grammar};

    ghost ClassOf: { Type 0 };

    ghost TokenOf: { Type 0 };

    ghost Tree: { Type 0 };

    ghost number: { ClassOf → ℕ };

    ghost grammar: { Grammar ClassOf TokenOf Tree };
}

/// The next token decides each step of a grammar exactly where no conflict is named.
pub fn a_failed_test_names_a_conflict<G: Tested>()
    ensures { is_none (first_conflict G.number G.grammar) ≡ is_predictive G.number G.grammar }
{}

/// No conflict is in the grammars of methods, conditions and simulation definitions, whatever the text, the limit of
/// lists and the depth.
pub fn readers_have_no_conflict()
    ensures { HaveNoConflict }
{}

/// Parts of these grammars that are put together wrongly have the conflicts that are named.
pub fn worked_conflicts_are_named()
    ensures { AreNamed }
{}
