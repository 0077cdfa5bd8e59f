// Commands with their operands and options.
ghost use Rattle.std.specs.Prelude.{◌≡◌, ◌≤◌, length, drop, IfSome, MatchOption};
ghost use Rattle.rm_words.specs.Grammar.{AreOptions, Options, StandFor, lead_of, operands, port_of, setting, values_of};
ghost use Rattle.rm_words.specs.Grammar.{Command as Meant};
ghost use Rattle.rm_words.specs.Parts.{pieces_from};
ghost use Rattle.rm_words.specs.Told.{AreThreeTexts, AreTwoTexts, IsOneText, IsRead, command_of, options_of};
ghost use Rattle.rm_words.specs.declared.names.CommandName.TheVariants.{Decode, Load, Replay, Serve, Summary};
ghost use Rattle.rm_words.specs.declared.names.OptionName.TheVariants.{TrapPort};
ghost use Rattle.rm_words.specs.declared.parts.Expected.TheVariants.{Any};

use crate::captures::Captures;
use crate::names::{CommandName, OptionName};
use crate::options::RunOptions;
use crate::scan::{are_whole, community_of, is_given, number_of, operand};
use crate::values::{is_hex, is_name, number, port};
use rm_edge::Words;
use rm_settings::Settings;

/// A command, with its operands and options.
#[derive(Drop)]
pub enum Command<'a> {
    /// Replays captures against the datagrams of a request file.
    Replay {
        captures: Captures<'a>,
        requests: &'a str,
        options: RunOptions,
    },
    /// Answers as many datagrams as `count` says, 1 to 1,000,000, that come to a port of UDP, while the frames of captures pass.
    /// Notifications are sent to the port `trap_port`. A port is 1 to 65535.
    Serve {
        captures: Captures<'a>,
        port: u16,
        count: u32,
        trap_port: u16,
        options: RunOptions,
    },
    /// Sums up a capture, whose first frame stands at the moment `lead` in milliseconds. A frame of fewer than 60 octets counts as
    /// padded to 60, unless short ones are kept.
    Summary {
        capture: &'a str,
        lead: u32,
        keep_short: bool,
    },
    /// Shows the message that octets are. They are in hexadecimal digits, two for each, at most 131,070.
    Decode {
        hex: &'a str,
    },
    /// Gives as many frames to a probe as `count` says, 1 to 10,000,000. They are made from a number, the start, which is 0 to 2147483647. Of the
    /// options only the bounds of tables are ever other than where they aren't given.
    Load {
        start: u32,
        count: u32,
        options: RunOptions,
    },
}

/// The command that words stand for. None comes exactly where they stand for none.
///
/// The first word is that of the command. Options and operands follow in any order, the operands in that of the command. An
/// option stands once at most, as `--name value` or `--name=value`, and its name isn't shortened; `--keep-short` has no value.
/// Behind a word `--` all words are operands. Before it, a word that begins with a dash and has more characters is an option.
/// An operand isn't empty. Octets are an even number of hexadecimal digits, at most 131,070. A number is one to ten decimal digits
/// within its range, and a community 1 to 64 characters from `!` to `~` that don't begin with a dash. The captures of interfaces 2 to 4
/// aren't empty and, as words of their own, don't begin with a dash; each of their options stands only where those of the lower
/// interfaces do.
pub fn read_command(words: &Words) -> Option<Command<'_>>
    ensures { MatchOption result ((command : Meant) → StandFor words.now command → ⊥) (λ found. StandFor words.now (command_of found)) }
{
    if words.len() == 0 {
        return None;
    }
    let Some(name) = CommandName::named(words.at(0)) else {
        return None;
    };
    if !are_whole(name, words) {
        return None;
    }
    read_behind(name, words)
}

// The command of that name, of words that are whole.
fn read_behind(name: CommandName, words: &Words) -> Option<Command<'_>>
    requires { 1 ≤ length words.now }
    ensures { IsRead name (pieces_from Any (drop 1 words.now)) result }
{
    match name {
        CommandName::Replay => read_replay(words),
        CommandName::Serve => read_serve(words),
        CommandName::Summary => read_summary(words),
        CommandName::Decode => read_decode(words),
        CommandName::Load => read_load(words),
    }
}

// The command `replay` of words that are whole.
fn read_replay(words: &Words) -> Option<Command<'_>>
    requires { 1 ≤ length words.now }
    ensures { IsRead Replay (pieces_from Any (drop 1 words.now)) result }
{
    let (capture, requests) = two_operands(words)?;
    if !is_name(capture) || !is_name(requests) {
        return None;
    }
    let captures = Captures::read(words, capture)?;
    let options = run_options(words, captures.count())?;
    Some(Command::Replay {
        captures,
        requests,
        options,
    })
}

// The command `serve` of words that are whole.
fn read_serve(words: &Words) -> Option<Command<'_>>
    requires { 1 ≤ length words.now }
    ensures { IsRead Serve (pieces_from Any (drop 1 words.now)) result }
{
    let (capture, port_text, count_text) = three_operands(words)?;
    if !is_name(capture) {
        return None;
    }
    let captures = Captures::read(words, capture)?;
    let options = run_options(words, captures.count())?;
    Some(Command::Serve {
        captures,
        port: port(port_text.as_bytes())?,
        count: number(count_text.as_bytes(), 1, 1_000_000)?,
        trap_port: trap_port_of(words)?,
        options,
    })
}

// The command `summary` of words that are whole.
fn read_summary(words: &Words) -> Option<Command<'_>>
    requires { 1 ≤ length words.now }
    ensures { IsRead Summary (pieces_from Any (drop 1 words.now)) result }
{
    let capture = one_operand(words)?;
    if !is_name(capture) {
        return None;
    }
    Some(Command::Summary {
        capture,
        lead: lead_of(words)?,
        keep_short: is_given(words, OptionName::KeepShort)?,
    })
}

// The command `decode` of words that are whole.
fn read_decode(words: &Words) -> Option<Command<'_>>
    requires { 1 ≤ length words.now }
    ensures { IsRead Decode (pieces_from Any (drop 1 words.now)) result }
{
    let hex = one_operand(words)?;
    if !is_hex(hex.as_bytes()) {
        return None;
    }
    Some(Command::Decode { hex })
}

// The command `load` of words that are whole.
fn read_load(words: &Words) -> Option<Command<'_>>
    requires { 1 ≤ length words.now }
    ensures { IsRead Load (pieces_from Any (drop 1 words.now)) result }
{
    let (start_text, count_text) = two_operands(words)?;
    Some(Command::Load {
        start: number(start_text.as_bytes(), 0, 2_147_483_647)?,
        count: number(count_text.as_bytes(), 1, 10_000_000)?,
        options: run_options(words, 1)?,
    })
}

// The operand, where there is one alone.
fn one_operand(words: &Words) -> Option<&str>
    requires { 1 ≤ length words.now }
    ensures { IsOneText (operands (pieces_from Any (drop 1 words.now))) result }
{
    let text = operand(words, 0)?;
    if operand(words, 1).is_some() {
        return None;
    }
    Some(text)
}

// The operands, where there are two.
fn two_operands(words: &Words) -> Option<(&str, &str)>
    requires { 1 ≤ length words.now }
    ensures { AreTwoTexts (operands (pieces_from Any (drop 1 words.now))) result }
{
    let first = operand(words, 0)?;
    let second = operand(words, 1)?;
    if operand(words, 2).is_some() {
        return None;
    }
    Some((first, second))
}

// The operands, where there are three.
fn three_operands(words: &Words) -> Option<(&str, &str, &str)>
    requires { 1 ≤ length words.now }
    ensures { AreThreeTexts (operands (pieces_from Any (drop 1 words.now))) result }
{
    let first = operand(words, 0)?;
    let second = operand(words, 1)?;
    let third = operand(words, 2)?;
    if operand(words, 3).is_some() {
        return None;
    }
    Some((first, second, third))
}

// The moment of the first frame, in milliseconds.
fn lead_of(words: &Words) -> Option<u32>
    requires { 1 ≤ length words.now }
    ensures { result ≡ lead_of (pieces_from Any (drop 1 words.now)) }
{
    number_of(words, OptionName::Lead, 0, u32::MAX, 1000)
}

// The port that notifications are sent to.
fn trap_port_of(words: &Words) -> Option<u16>
    requires { 1 ≤ length words.now }
    ensures { result ≡ setting 162 port_of (values_of TrapPort (pieces_from Any (drop 1 words.now))) }
{
    let number = number_of(words, OptionName::TrapPort, 1, 65_535, 162)?;
    Some(number as u16)
}

// The options of a run with so many interfaces.
fn run_options(words: &Words, interfaces: u32) -> Option<RunOptions>
    requires words { 1 ≤ length words.now }
    requires some { 1 ≤ interfaces }
    requires few { interfaces ≤ 4 }
    ensures read { MatchOption result ((options : Options) → AreOptions (pieces_from Any (drop 1 words.now)) options → ⊥)
        (λ found. AreOptions (pieces_from Any (drop 1 words.now)) (options_of found)) }
    ensures set { IfSome result (λ found. found.settings.interfaces ≡ interfaces) }
{
    let settings = Settings {
        hosts: number_of(words, OptionName::Hosts, 2, 4096, 1024)?,
        pairs: number_of(words, OptionName::Pairs, 2, 4096, 1024)?,
        upper: number_of(words, OptionName::Upper, 2, 1024, 1024)?,
        keep_short: is_given(words, OptionName::KeepShort)?,
        interfaces,
        read: community_of(words, OptionName::Read, b"public")?,
        write: community_of(words, OptionName::Write, b"private")?,
    };
    let lead = lead_of(words)?;
    Some(RunOptions { settings, lead })
}
