// What a word is, by the words before it.
ghost use Rattle.std.specs.Prelude.{◌≡◌, [], ◌∷◌, MatchOption, position};
ghost use Rattle.rm_words.specs.Parts.{part_of, plain_part, named_part, next_of, is_equals, is_operand, values_in, may_stand, IsCut};

use crate::names::{CommandName, OptionName};

/// What stands next.
#[derive(Clone, Copy, Debug)]
pub enum Expected {
    /// An operand or an option.
    Any,
    /// The value of an option.
    Value(OptionName),
    /// An operand.
    Operand,
}

/// What a word is.
#[derive(Clone, Copy, Debug)]
pub enum Part {
    Operand,
    /// The two dashes behind which all words are operands.
    End,
    /// An option that has no value.
    Flag(OptionName),
    /// An option whose value is the next word.
    Name(OptionName),
    /// An option with its value, which begins at that octet.
    Joined(OptionName, usize),
    /// The value of an option.
    Value(OptionName),
    /// It begins with a dash, and is neither an option nor the value of one.
    Unknown,
}

impl Expected {
    /// What a word is where this stands next.
    pub fn part(self, word: &[u8]) -> Part
        ensures { result ≡ part_of self word.now }
    {
        match self {
            Expected::Any => plain_part(word),
            Expected::Value(option) if option.is_followed_by(word) => Part::Value(option),
            Expected::Value(_) => Part::Unknown,
            Expected::Operand => Part::Operand,
        }
    }

    /// What stands next behind a part.
    pub fn after(self, part: Part) -> Expected
        ensures { result ≡ next_of self part }
    {
        match part {
            Part::End => Expected::Operand,
            Part::Name(option) => Expected::Value(option),
            Part::Operand => self,
            _ => Expected::Any,
        }
    }
}

#[tactic(auto, unfolding(crate::specs::Parts::plain_part))]
fn plain_part(word: &[u8]) -> Part
    ensures { result ≡ plain_part word.now }
{
    match word {
        [b'-', b'-'] => Part::End,
        [b'-', b'-', text @ ..] => named_part(text),
        [b'-', _, ..] => Part::Unknown,
        _ => Part::Operand,
    }
}

// What stands behind two dashes: a name, or a name with a value.
#[tactic(auto, unfolding(crate::specs::Parts::named_part))]
fn named_part(text: &[u8]) -> Part
    ensures { result ≡ named_part text.now }
{
    match equals(text) {
        None => match OptionName::named(text) {
            Some(option) if option.takes_value() => Part::Name(option),
            Some(option) => Part::Flag(option),
            None => Part::Unknown,
        },
        Some(at) => match OptionName::named(&text[..at]) {
            Some(option) if option.takes_value() => Part::Joined(option, at + 3),
            _ => Part::Unknown,
        },
    }
}

fn equals(text: &[u8]) -> Option<usize>
    ensures { result ≡ position is_equals text.now }
{
    text.iter().position(|c| *c == b'=')
}

impl Part {
    /// Whether it is an operand.
    pub fn is_operand(self) -> bool
        ensures { result ≡ is_operand self }
    {
        matches!(self, Part::Operand)
    }

    /// Whether the command may have it.
    pub fn may_stand(self, command: CommandName) -> bool
        ensures { result ≡ may_stand command self }
    {
        match self {
            Part::Flag(option) | Part::Name(option) | Part::Joined(option, _) => {
                command.takes(option)
            }
            Part::Operand | Part::End | Part::Value(_) => true,
            Part::Unknown => false,
        }
    }

    /// The value that the word gives the option. An option without a value is given no octets.
    pub fn value_for<'a>(self, option: OptionName, word: &'a str) -> Option<&'a str>
        requires { IsCut self word.now }
        ensures { MatchOption result (values_in option self word.now ≡ []) (λ value. values_in option self word.now ≡ value.now ∷ []) }
    {
        let (given, value) = match self {
            Part::Flag(given) => (given, ""),
            Part::Joined(given, from) => (given, word.split_at(from).1),
            Part::Value(given) => (given, word),
            _ => return None,
        };
        if given.name() == option.name() {
            Some(value)
        } else {
            None
        }
    }
}
