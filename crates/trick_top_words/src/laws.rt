//! What holds of all words. Each law is a function that does nothing: a caller knows the law after
//! the call.

ghost use Rattle.std.specs.Prelude.{◌≡◌, ℕ, List};
ghost use Rattle.trick_top_words.specs.Command.{Asks};
ghost use Rattle.trick_top_words.specs.declared.command.Command.{Command};

/// Words ask for one command at most.
pub fn one_command()
    ensures { (words : List (List ℕ)) (first second : Command) → Asks words first → Asks words second
        → first ≡ second }
{}
