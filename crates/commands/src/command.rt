// Which command the words of a call name.
ghost use Rattle.std.specs.Prelude.{◌≡◌};
ghost use Rattle.std.specs.Str.{bytes_eq};
ghost use Rattle.commands.specs.Commands.{command_of};

/// What the tool is asked to do.
#[derive(Clone, Copy, PartialEq, Eq, Debug)]
pub enum Command {
    /// Show how filters are read.
    Read,
    /// Show a filter's written form.
    Write,
    /// Say whether two filters are one entry.
    Same,
    /// Answer the lines of the standard input.
    Lines,
    /// Answer the lines of a script of a page's calls.
    Page,
    /// Show the calls that build a filter's written form.
    Build,
    /// Say how the tool is called.
    Usage,
}

impl Command {
    /// The command that a word names, if this many words behind it suit the command; else the usage.
    pub fn named(word: &str, more: usize) -> Command
        ensures { result ≡ command_of word.now more }
    {
        match (word, more) {
            ("read", 1..) => Command::Read,
            ("write", 1) => Command::Write,
            ("same", 2) => Command::Same,
            ("lines", 0) => Command::Lines,
            ("page", 1) => Command::Page,
            ("build", 1) => Command::Build,
            _ => Command::Usage,
        }
    }
}
