//! Laws of commands. Each law is the contract of a function that does nothing.

ghost use Rattle.std.specs.Prelude.{ℕ, ◌≡◌, ◌≤◌, List, Some};
ghost use Rattle.program_rules.specs.Commands.Words.{command};
ghost use Rattle.command_words.specs.Command.{run_words};
ghost use Rattle.program_rules.specs.declared.command.Command.TheVariants.{Run, Storm};

/// A storm that words ask for has 1 to 256 rounds, and a seed that is not 0.
pub fn storms_are_small()
    ensures { (words : List (List ℕ)) (n seed : ℕ) → command words ≡ Some (Storm n seed) → (1 ≤ n) × (n ≤ 256) × (1 ≤ seed) }
{}

/// Only the one word `run` asks for a run on threads.
pub fn run_is_one_word()
    ensures { (words : List (List ℕ)) → command words ≡ Some Run → words ≡ run_words }
{}
