// What stands behind the word of a command.
ghost use Rattle.std.specs.Prelude.{◌≡◌, ◌≤◌, [], length, drop, IfSome, MatchOption, slice_get, Some, None, false};
ghost use Rattle.rm_words.specs.Grammar.{operands, values_of, number_within, community_of, is_given, named, setting};
ghost use Rattle.rm_words.specs.Parts.{are_whole, pieces_from};
ghost use Rattle.rm_words.specs.Scan.{IsGiven, so_far};
ghost use Rattle.rm_words.specs.declared.parts.Expected.TheVariants.{Any};

use crate::names::{CommandName, OptionName};
use crate::parts::Expected;
use crate::values::{community, is_name, kept, number};
use rm_edge::Words;
use rm_settings::Community;

/// What an option is given.
pub enum Given<'a> {
    Nothing,
    Once(&'a str),
    Again,
}

/// Whether the command may have all words behind its own.
pub fn are_whole(command: CommandName, words: &Words) -> bool
    requires { 1 ≤ length words.now }
    ensures { result ≡ are_whole command Any (drop 1 words.now) }
{
    let mut expected = Expected::Any;
    for place in 1..words.len() {
        let part = expected.part(words.at(place).as_bytes());
        if !part.may_stand(command) {
            return false;
        }
        expected = expected.after(part);
    }
    !matches!(expected, Expected::Value(_))
}

/// The operand of a number, from 0.
pub fn operand(words: &Words, number: usize) -> Option<&str>
    requires { 1 ≤ length words.now }
    ensures { MatchOption result (slice_get (operands (pieces_from Any (drop 1 words.now))) number ≡ None)
        (λ text. slice_get (operands (pieces_from Any (drop 1 words.now))) number ≡ Some text.now) }
{
    let mut expected = Expected::Any;
    let mut left = number;
    for place in 1..words.len() {
        let word = words.at(place);
        let part = expected.part(word.as_bytes());
        if part.is_operand() {
            if left == 0 {
                return Some(word);
            }
            left -= 1;
        }
        expected = expected.after(part);
    }
    None
}

/// What an option is given.
pub fn value_of(words: &Words, option: OptionName) -> Given<'_>
    requires { 1 ≤ length words.now }
    ensures { IsGiven (values_of option (pieces_from Any (drop 1 words.now))) result }
{
    let mut expected = Expected::Any;
    let mut given = None;
    for place in 1..words.len() {
        let word = words.at(place);
        let part = expected.part(word.as_bytes());
        if let Some(value) = part.value_for(option, word) {
            if given.is_some() {
                return Given::Again;
            }
            given = Some(value);
        }
        expected = expected.after(part);
    }
    match given {
        None => Given::Nothing,
        Some(value) => Given::Once(value),
    }
}

/// The number that an option sets. The default is within the range.
pub fn number_of(
    words: &Words,
    option: OptionName,
    low: u32,
    high: u32,
    default: u32,
) -> Option<u32>
    requires words { 1 ≤ length words.now }
    requires low { low ≤ default }
    requires high { default ≤ high }
    ensures set { result ≡ setting default (number_within low high) (values_of option (pieces_from Any (drop 1 words.now))) }
    ensures within { IfSome result (λ n. (low ≤ n) × (n ≤ high)) }
{
    match value_of(words, option) {
        Given::Nothing => Some(default),
        Given::Once(value) => number(value.as_bytes(), low, high),
        Given::Again => None,
    }
}

/// The community that an option sets. The default has 1 to 64 octets.
pub fn community_of(words: &Words, option: OptionName, default: &[u8]) -> Option<Community>
    requires words { 1 ≤ length words.now }
    requires low { 1 ≤ length default.now }
    requires high { length default.now ≤ 64 }
    ensures set { MatchOption result (setting default.now community_of (values_of option (pieces_from Any (drop 1 words.now))) ≡ None)
        (λ set. setting default.now community_of (values_of option (pieces_from Any (drop 1 words.now))) ≡ Some set.items) }
    ensures within { IfSome result (λ set. (1 ≤ length set.items) × (length set.items ≤ 64)) }
{
    match value_of(words, option) {
        Given::Nothing => Some(kept(default)),
        Given::Once(value) => community(value.as_bytes()),
        Given::Again => None,
    }
}

/// Whether an option without a value is given. None comes where it is given twice.
pub fn is_given(words: &Words, option: OptionName) -> Option<bool>
    requires { 1 ≤ length words.now }
    ensures { result ≡ setting false is_given (values_of option (pieces_from Any (drop 1 words.now))) }
{
    match value_of(words, option) {
        Given::Nothing => Some(false),
        Given::Once(_) => Some(true),
        Given::Again => None,
    }
}

/// The name of a file that an option sets, if it sets one. None comes where it is given twice, or an empty name.
pub fn file_of(words: &Words, option: OptionName) -> Option<Option<&str>>
    requires { 1 ≤ length words.now }
    ensures { MatchOption result (setting [] named (values_of option (pieces_from Any (drop 1 words.now))) ≡ None)
        (λ name. setting [] named (values_of option (pieces_from Any (drop 1 words.now))) ≡ Some (so_far name)) }
{
    match value_of(words, option) {
        Given::Nothing => Some(None),
        Given::Once(name) => {
            if !is_name(name) {
                return None;
            }
            Some(Some(name))
        }
        Given::Again => None,
    }
}
