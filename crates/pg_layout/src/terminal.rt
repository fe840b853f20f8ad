//! Colours and styles of terminals, by name.

ghost use Rattle.std.specs.Prelude.{◌≡◌, ◌+◌, ◌≤◌, true, Some, None, IfOk, string_bytes};
ghost use Rattle.pg_layout.specs.Terminal.{tint_number, hue_parameters, hue_command, when, begin_text, end_text, color_texts, plain};

use crate::colors::ANSIBuf;
use std::alloc::{AllocError, Allocator};

/// The eight colours that each terminal has.
#[derive(Clone, Copy)]
pub enum Tint {
    Black,
    Red,
    Green,
    Yellow,
    Blue,
    Magenta,
    Cyan,
    White,
}

impl Tint {
    // Its number among the eight.
    fn number(self) -> usize
        ensures number { result ≡ tint_number self }
        ensures below { result ≤ 7 }
    {
        match self {
            Tint::Black => 0,
            Tint::Red => 1,
            Tint::Green => 2,
            Tint::Yellow => 3,
            Tint::Blue => 4,
            Tint::Magenta => 5,
            Tint::Cyan => 6,
            Tint::White => 7,
        }
    }
}

/// A colour as terminals know it.
#[derive(Clone, Copy)]
pub enum Hue {
    /// One of the eight.
    Normal(Tint),
    /// One of the eight, brighter.
    Bright(Tint),
    /// A colour of the palette of 256, by its number.
    Palette(u8),
    /// Any colour, by its red, green and blue parts.
    Rgb(u8, u8, u8),
}

/// How a terminal shows a text: its colour, its background and its style.
///
/// The prefix begins exactly these, and the suffix ends exactly these, so that what was set before
/// continues. At first nothing is set.
///
///     let warning = Color::red().bold().to_ansi(alloc)?;
#[derive(Clone, Copy)]
pub struct Color {
    text: Option<Hue>,
    behind: Option<Hue>,
    is_bold: bool,
    is_italic: bool,
    is_underlined: bool,
}

impl Color {
    /// No colour and no style.
    pub fn plain() -> Color
        ensures { result ≡ plain }
    {
        Color {
            text: None,
            behind: None,
            is_bold: false,
            is_italic: false,
            is_underlined: false,
        }
    }

    /// A text of this hue.
    pub fn of(hue: Hue) -> Color
        ensures { result ≡ record plain { text = Some hue } }
    {
        Color {
            text: Some(hue),
            ..Color::plain()
        }
    }

    /// A red text.
    pub fn red() -> Color
        ensures { result ≡ record plain { text = Some (Hue.Normal Tint.Red) } }
    {
        Color::of(Hue::Normal(Tint::Red))
    }

    /// A green text.
    pub fn green() -> Color
        ensures { result ≡ record plain { text = Some (Hue.Normal Tint.Green) } }
    {
        Color::of(Hue::Normal(Tint::Green))
    }

    /// A yellow text.
    pub fn yellow() -> Color
        ensures { result ≡ record plain { text = Some (Hue.Normal Tint.Yellow) } }
    {
        Color::of(Hue::Normal(Tint::Yellow))
    }

    /// A blue text.
    pub fn blue() -> Color
        ensures { result ≡ record plain { text = Some (Hue.Normal Tint.Blue) } }
    {
        Color::of(Hue::Normal(Tint::Blue))
    }

    /// A magenta text.
    pub fn magenta() -> Color
        ensures { result ≡ record plain { text = Some (Hue.Normal Tint.Magenta) } }
    {
        Color::of(Hue::Normal(Tint::Magenta))
    }

    /// A cyan text.
    pub fn cyan() -> Color
        ensures { result ≡ record plain { text = Some (Hue.Normal Tint.Cyan) } }
    {
        Color::of(Hue::Normal(Tint::Cyan))
    }

    /// Adds a background of this hue.
    pub fn on(self, hue: Hue) -> Color
        ensures { result ≡ record self { behind = Some hue } }
    {
        Color {
            behind: Some(hue),
            ..self
        }
    }

    /// Adds a red background.
    pub fn on_red(self) -> Color
        ensures { result ≡ record self { behind = Some (Hue.Normal Tint.Red) } }
    {
        self.on(Hue::Normal(Tint::Red))
    }

    /// Adds a green background.
    pub fn on_green(self) -> Color
        ensures { result ≡ record self { behind = Some (Hue.Normal Tint.Green) } }
    {
        self.on(Hue::Normal(Tint::Green))
    }

    /// Adds a yellow background.
    pub fn on_yellow(self) -> Color
        ensures { result ≡ record self { behind = Some (Hue.Normal Tint.Yellow) } }
    {
        self.on(Hue::Normal(Tint::Yellow))
    }

    /// Adds a blue background.
    pub fn on_blue(self) -> Color
        ensures { result ≡ record self { behind = Some (Hue.Normal Tint.Blue) } }
    {
        self.on(Hue::Normal(Tint::Blue))
    }

    /// Makes the text bold.
    pub fn bold(self) -> Color
        ensures { result ≡ record self { is_bold = true } }
    {
        Color {
            is_bold: true,
            ..self
        }
    }

    /// Makes the text italic.
    pub fn italic(self) -> Color
        ensures { result ≡ record self { is_italic = true } }
    {
        Color {
            is_italic: true,
            ..self
        }
    }

    /// Underlines the text.
    pub fn underlined(self) -> Color
        ensures { result ≡ record self { is_underlined = true } }
    {
        Color {
            is_underlined: true,
            ..self
        }
    }

    /// The prefix and the suffix: commands that begin the colour and the styles one after another,
    /// and those that end them in reverse. The only error is out of memory.
    pub fn to_ansi<A: Allocator + Copy>(self, alloc: A) -> Result<ANSIBuf<A>, AllocError>
        ensures { IfOk result (λ c. c ≡ color_texts self) }
    {
        let begin = self.begin_text(alloc)?;
        let end = self.end_text(alloc)?;
        ANSIBuf::new(alloc, begin.as_str(), end.as_str())
    }

    fn begin_text<A: Allocator + Copy>(self, alloc: A) -> Result<String<A>, AllocError>
        ensures { IfOk result (λ t. string_bytes t ≡ begin_text self) }
    {
        let bold = when(self.is_bold, "\u{1b}[1m");
        let italic = when(self.is_italic, "\u{1b}[3m");
        let underlined = when(self.is_underlined, "\u{1b}[4m");
        let text = hue_command(alloc, 30, self.text)?;
        let behind = hue_command(alloc, 40, self.behind)?;
        format!(in alloc; "{bold}{italic}{underlined}{text}{behind}")
    }

    fn end_text<A: Allocator + Copy>(self, alloc: A) -> Result<String<A>, AllocError>
        ensures { IfOk result (λ t. string_bytes t ≡ end_text self) }
    {
        let behind = when(self.behind.is_some(), "\u{1b}[49m");
        let text = when(self.text.is_some(), "\u{1b}[39m");
        let underlined = when(self.is_underlined, "\u{1b}[24m");
        let italic = when(self.is_italic, "\u{1b}[23m");
        let bold = when(self.is_bold, "\u{1b}[22m");
        format!(in alloc; "{behind}{text}{underlined}{italic}{bold}")
    }
}

fn when(test: bool, text: &str) -> &str
    ensures { result.now ≡ when test text.now }
{
    if test { text } else { "" }
}

// The command that begins a hue, if there is one; `first` is the number of black.
fn hue_command<A: Allocator + Copy>(
    alloc: A,
    first: usize,
    hue: Option<Hue>,
) -> Result<String<A>, AllocError>
    requires { first ≤ 40 }
    ensures { IfOk result (λ t. string_bytes t ≡ hue_command first hue) }
{
    let Some(hue) = hue else {
        return Ok(String::new(alloc));
    };
    let parameters = hue_parameters(alloc, first, hue)?;
    format!(in alloc; "\u{1b}[{parameters}m")
}

fn hue_parameters<A: Allocator + Copy>(
    alloc: A,
    first: usize,
    hue: Hue,
) -> Result<String<A>, AllocError>
    requires { first ≤ 40 }
    ensures { IfOk result (λ t. string_bytes t ≡ hue_parameters first hue) }
{
    match hue {
        Hue::Normal(tint) => {
            let number = first + tint.number();
            format!(in alloc; "{number}")
        }
        Hue::Bright(tint) => {
            let number = first + 60 + tint.number();
            format!(in alloc; "{number}")
        }
        Hue::Palette(number) => {
            let more = first + 8;
            format!(in alloc; "{more};5;{number}")
        }
        Hue::Rgb(red, green, blue) => {
            let more = first + 8;
            format!(in alloc; "{more};2;{red};{green};{blue}")
        }
    }
}
