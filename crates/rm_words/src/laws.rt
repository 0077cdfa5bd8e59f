// Laws of the grammar of words.
ghost use Rattle.std.specs.Prelude.{◌≡◌, ℕ, List};
ghost use Rattle.rm_words.specs.Grammar.{Command as Meant, StandFor};

/// Words stand for one command at most.
pub fn one_command()
    ensures { (words : List (List ℕ)) (one other : Meant) → StandFor words one → StandFor words other → one ≡ other }
{}
