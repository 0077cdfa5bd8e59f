// The names of commands and of options.
ghost use Rattle.std.specs.Prelude.{◌≡◌};
ghost use Rattle.rm_words.specs.Names.{word_of, name_of, command_named, option_named, takes, takes_value, is_dashed, follows};

/// The word that a command begins with.
#[derive(Clone, Copy, Debug, PartialEq, Eq)]
pub enum CommandName {
    Replay,
    Serve,
    Summary,
    Decode,
    Load,
}

/// An option of a command.
#[derive(Clone, Copy, Debug, PartialEq, Eq)]
pub enum OptionName {
    /// The most hosts of a table.
    Hosts,
    /// The most pairs of hosts of a table.
    Pairs,
    /// The most rows of a table of the upper layers.
    Upper,
    /// The moment of the first frame, in milliseconds.
    Lead,
    /// That a frame of fewer than 60 octets counts as it was captured. It has no value.
    KeepShort,
    /// The community that may read.
    Read,
    /// The community that may read and write.
    Write,
    /// The port that notifications are sent to.
    TrapPort,
    /// The capture of interface 2.
    If2,
    /// The capture of interface 3.
    If3,
    /// The capture of interface 4.
    If4,
}

/// All commands.
const COMMANDS: [CommandName; 5] = [
    CommandName::Replay,
    CommandName::Serve,
    CommandName::Summary,
    CommandName::Decode,
    CommandName::Load,
];

/// All options.
const OPTIONS: [OptionName; 11] = [
    OptionName::Hosts,
    OptionName::Pairs,
    OptionName::Upper,
    OptionName::Lead,
    OptionName::KeepShort,
    OptionName::Read,
    OptionName::Write,
    OptionName::TrapPort,
    OptionName::If2,
    OptionName::If3,
    OptionName::If4,
];

impl CommandName {
    /// The word.
    fn word(self) -> &'static str
        ensures { result.now ≡ word_of self }
    {
        match self {
            CommandName::Replay => "replay",
            CommandName::Serve => "serve",
            CommandName::Summary => "summary",
            CommandName::Decode => "decode",
            CommandName::Load => "load",
        }
    }

    /// The command of a word.
    #[tactic(auto, unfolding(crate::specs::Names::command_named))]
    pub fn named(word: &str) -> Option<CommandName>
        ensures { result ≡ command_named word.now }
    {
        COMMANDS
            .iter()
            .copied()
            .find(|command| command.word() == word)
    }

    /// Whether the command has the option.
    pub fn takes(self, option: OptionName) -> bool
        ensures { result ≡ takes self option }
    {
        match self {
            CommandName::Replay => !matches!(option, OptionName::TrapPort),
            CommandName::Serve => true,
            CommandName::Summary => matches!(option, OptionName::Lead | OptionName::KeepShort),
            CommandName::Decode => false,
            CommandName::Load => matches!(
                option,
                OptionName::Hosts | OptionName::Pairs | OptionName::Upper
            ),
        }
    }
}

impl OptionName {
    /// The name, which stands behind two dashes.
    pub fn name(self) -> &'static [u8]
        ensures { result.now ≡ name_of self }
    {
        match self {
            OptionName::Hosts => b"hosts",
            OptionName::Pairs => b"pairs",
            OptionName::Upper => b"upper",
            OptionName::Lead => b"lead",
            OptionName::KeepShort => b"keep-short",
            OptionName::Read => b"read",
            OptionName::Write => b"write",
            OptionName::TrapPort => b"trap-port",
            OptionName::If2 => b"if2",
            OptionName::If3 => b"if3",
            OptionName::If4 => b"if4",
        }
    }

    /// The option of a name.
    #[tactic(auto, unfolding(crate::specs::Names::option_named))]
    pub fn named(name: &[u8]) -> Option<OptionName>
        ensures { result ≡ option_named name.now }
    {
        OPTIONS.iter().copied().find(|option| option.name() == name)
    }

    /// Whether the option has a value.
    pub fn takes_value(self) -> bool
        ensures { result ≡ takes_value self }
    {
        !matches!(self, OptionName::KeepShort)
    }

    /// Whether a word may follow it as its value. Where the value is the name of a file, such a word doesn't begin with a dash.
    pub fn is_followed_by(self, word: &[u8]) -> bool
        ensures { result ≡ follows self word.now }
    {
        match self {
            OptionName::If2 | OptionName::If3 | OptionName::If4 => !is_dashed(word),
            _ => true,
        }
    }
}

fn is_dashed(word: &[u8]) -> bool
    ensures { result ≡ is_dashed word.now }
{
    match word {
        [first, ..] => *first == b'-',
        [] => false,
    }
}
