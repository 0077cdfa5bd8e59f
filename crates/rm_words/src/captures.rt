// The captures of a command.
ghost use Rattle.std.specs.Prelude.{◌≡◌, ◌≢◌, ◌≤◌, ℕ, List, [], Some, IsSome, MatchOption, length, drop};
ghost use Rattle.rm_words.specs.Grammar.{AreCaptures, named, setting, values_of};
ghost use Rattle.rm_words.specs.Parts.{pieces_from};
ghost use Rattle.rm_settings.specs.Interfaces.{IsLadder};
ghost use Rattle.rm_words.specs.Scan.{so_far};
ghost use Rattle.rm_words.specs.declared.parts.Expected.TheVariants.{Any};

use crate::names::OptionName;
use crate::scan::file_of;
use rm_edge::Words;

/// The captures of a command, one for each interface. No interface has one where the interface below it has none.
#[derive(Clone, Copy)]
pub struct Captures<'a> {
    /// That of interface 1.
    pub capture: &'a str,
    /// That of interface 2, if there is one.
    pub if2: Option<&'a str>,
    /// That of interface 3, if there is one.
    pub if3: Option<&'a str>,
    /// That of interface 4, if there is one.
    pub if4: Option<&'a str>,
    ghost ladder: { IsLadder if2 if3 if4 },
}

impl<'a> Captures<'a> {
    ghost use Rattle.rm_words.specs.Told.{captures_of};

    /// The captures whose first is that operand. None comes where the options for the others are wrong.
    pub(crate) fn read(words: &'a Words, capture: &'a str) -> Option<Captures<'a>>
        requires { 1 ≤ length words.now }
        ensures { MatchOption result ((captures : List (List ℕ)) → AreCaptures (pieces_from Any (drop 1 words.now)) capture.now captures → ⊥)
            (λ found. AreCaptures (pieces_from Any (drop 1 words.now)) capture.now (captures_of found)) }
    {
        let if2 = file_of(words, OptionName::If2)?;
        let if3 = name_above(words, OptionName::If3, if2)?;
        let if4 = name_above(words, OptionName::If4, if3)?;
        let captures = Captures {
            capture,
            if2,
            if3,
            if4,
        };
        Some(captures)
    }

    /// How many there are, 1 to 4.
    pub fn count(&self) -> u32
        ensures counted { result ≡ length (captures_of self.now) }
        ensures some { 1 ≤ result }
        ensures few { result ≤ 4 }
    {
        1 + count_of(self.if2) + count_of(self.if3) + count_of(self.if4)
    }
}

// The capture that an option sets, if it sets one. None comes also where the interface below has none.
fn name_above<'a>(
    words: &'a Words,
    option: OptionName,
    below: Option<&'a str>,
) -> Option<Option<&'a str>>
    requires { 1 ≤ length words.now }
    ensures { MatchOption result
        ((found : List (List ℕ)) → setting [] named (values_of option (pieces_from Any (drop 1 words.now))) ≡ Some found → (found ≢ [] → so_far below.entry ≢ []) → ⊥)
        (λ name. (setting [] named (values_of option (pieces_from Any (drop 1 words.now))) ≡ Some (so_far name)) × (IsSome name → IsSome below.entry)) }
{
    let name = file_of(words, option)?;
    if below.is_some() {
        return Some(name);
    }
    match name {
        None => Some(None),
        Some(_) => None,
    }
}

// How many names there are: one or none.
fn count_of(name: Option<&str>) -> u32
    ensures counted { result ≡ length (so_far name.entry) }
    ensures few { result ≤ 1 }
{
    match name {
        None => 0,
        Some(_) => 1,
    }
}
