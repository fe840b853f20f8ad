//! Which printer prints a script's table.

ghost use Rattle.std.specs.Prelude.{◌≡◌, map, string_bytes};
ghost use Rattle.pg_show.specs.Program.{mode_named, mode_of};

/// Which printer prints a script's table.
#[derive(Debug, Clone, Copy, PartialEq, Eq)]
pub enum Mode {
    /// The printer of compact tables.
    Compact,
    /// The printer that reads its rows once, one by one. It gets the number of rows.
    Iter,
    /// The printer that looks texts up.
    Peek,
    /// The builder of tables that are as wide and as high as their texts.
    Table,
}

impl Mode {
    /// The mode of this name, or `None` if there is none.
    pub fn from_name(name: &str) -> Option<Mode>
        ensures { result ≡ mode_named name.now }
    {
        match name {
            "compact" => Some(Mode::Compact),
            "iter" => Some(Mode::Iter),
            "peek" => Some(Mode::Peek),
            "table" => Some(Mode::Table),
            _ => None,
        }
    }

    /// The mode that the program's arguments name, or `None` unless they are exactly one name.
    pub fn from_words(words: &[String]) -> Option<Mode>
        ensures { result ≡ mode_of (map string_bytes words.now) }
    {
        match words {
            [word] => Mode::from_name(word.as_str()),
            _ => None,
        }
    }
}
