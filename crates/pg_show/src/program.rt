//! The program: arguments and a script in, a table out.

ghost use Rattle.std.specs.Prelude.{◌≡◌, ◌≢◌, ◌^◌, ◌<◌, ◌≤◌, ◌⊎◌, ℕ, List, length, map, string_bytes, true, false, Some, None, Ok, Err, IfOk, IfSome, IsOk, OnOk};
ghost use Rattle.std.specs.Io.KnownBytes.{Appends, Consumes, Keeps};
ghost use Rattle.pg_layout.specs.Text.{Text};
ghost use Rattle.pg_show.specs.Program.{mode_of, Answers, answer_of_told, answer_of_script, answer_to, is_failure, line_of, status_after, status_of_answer, tells_failure};
ghost use Rattle.pg_script.specs.Script.{told_of_script};

use crate::fault::Fault;
use crate::mode::Mode;
use crate::show::print_script;
use pg_script::{Script, parse_script};
use std::alloc::Allocator;
use std::io::{Read, Write};

/// The most reads of a script. Each gives at least one byte, so a script of fewer bytes is read
/// whole.
const MOST_READS: u32 = 16_777_216;

/// How a run of the program ended.
#[derive(Debug, Clone, Copy)]
pub struct Ending {
    /// Why no table was printed, or `None` where one was.
    pub fault: Option<Fault>,
    /// Whether the fault's line was written; true without a fault, which has none.
    pub is_told: bool,
}

impl Ending {
    /// Reports a fault, and ends with it.
    pub fn with_fault<W: Write>(fault: Fault, err: &mut W) -> Ending
        ensures fault { result.fault ≡ Some fault }
        ensures told { result.is_told ≡ true → Appends (W.contents err.old) (W.contents err.new) (line_of fault) }
    {
        Ending {
            fault: Some(fault),
            is_told: fault.tell(err).is_ok(),
        }
    }

    /// The exit status: 0 if a table was printed.
    pub fn status(&self) -> u8
        ensures { result ≡ status_after self.now.fault }
    {
        match self.fault {
            Some(fault) => fault.status(),
            None => 0,
        }
    }
}

// All that the input gives, or `None` after too many reads. Memory is requested only after a byte
// was read.
fn read_whole<A: Allocator, R: Read>(alloc: A, input: &mut R) -> Result<Option<Vec<u8, A>>, Fault>
    ensures whole { IfOk result (λ read. IfSome read (λ bytes. IfSome (R.remaining input.old) (λ script. bytes.items ≡ script))) }
    ensures endless { result ≡ Ok None → IfSome (R.remaining input.old) (λ script. 2 ^ 24 ≤ length script) }
    ensures failed { (fault : _) → result ≡ Err fault → fault ≡ Fault.Read ⊎ fault ≡ Fault.Memory }
    ensures memory { result ≡ Err Fault.Memory → (lost : List ℕ) × Consumes (R.remaining input.old) (R.remaining input.new) lost × (0 < length lost) }
{
    let mut block = [0u8; 4096];
    let mut bytes = Vec::new(alloc);
    for _ in 0..MOST_READS {
        match input.read(&mut block) {
            Ok(0) => return Ok(Some(bytes)),
            Ok(count) => bytes.extend_from_slice(&block[..count])?,
            Err(_) => return Err(Fault::Read),
        }
    }
    Ok(None)
}

// The text of the script's table, and a line feed.
fn text_of_table<A: Allocator + Copy>(
    alloc: A,
    script: &Script<A>,
    mode: Mode,
) -> Result<String<A>, Fault>
    ensures { Answers (answer_of_told mode (told_of_script script.now)) result }
{
    let mut text = String::new(alloc);
    print_script(alloc, script, mode, &mut text)?;
    text.push('\n')?;
    Ok(text)
}

// The text of the table that these bytes describe, and a line feed.
fn text_of_script<A: Allocator + Copy>(
    alloc: A,
    bytes: &[u8],
    mode: Mode,
) -> Result<String<A>, Fault>
    ensures { Answers (answer_of_script mode bytes.now) result }
{
    let script = parse_script(alloc, bytes)?;
    let text = text_of_table(alloc, &script, mode);
    // The script's memory is freed before the text is written.
    drop(script);
    text
}

// The text of the table that the input describes, and a line feed. `Read` means that the input
// wasn't read to its end.
fn table_text<A: Allocator + Copy, R: Read>(
    alloc: A,
    mode: Mode,
    input: &mut R,
) -> Result<String<A>, Fault>
    ensures { result ≢ Err Fault.Read → IfSome (R.remaining input.old) (λ script. Answers (answer_of_script mode script) result) }
{
    let bytes = read_whole(alloc, input)?.ok_or(Fault::Read)?;
    text_of_script(alloc, &bytes, mode)
}

// Writes a text, all of it.
fn write_text<W: Write>(text: &str, out: &mut W) -> Result<(), Fault>
    ensures written { OnOk result (Appends (W.contents out.old) (W.contents out.new) text.now) }
    ensures failed { (fault : _) → result ≡ Err fault → fault ≡ Fault.Write }
{
    out.write_all(text.as_bytes()).map_err(|_| Fault::Write)?;
    out.flush().map_err(|_| Fault::Write)
}

// Writes the text of the table.
fn show<A: Allocator + Copy, R: Read, W: Write>(
    alloc: A,
    words: &[String],
    input: &mut R,
    out: &mut W,
) -> Result<(), Fault>
    ensures wrong_arguments { mode_of (map string_bytes words.now) ≡ None → (result ≡ Err Fault.Usage) × Keeps (R.remaining input.old) (R.remaining input.new) }
    ensures shown { OnOk result (IfSome (R.remaining input.old) (λ script. (text : Text) × (answer_to (map string_bytes words.now) script ≡ Ok text)
        × Appends (W.contents out.old) (W.contents out.new) text)) }
    ensures refused { (fault : _) → result ≡ Err fault → is_failure fault ≡ false → IfSome (R.remaining input.old) (λ script. answer_to (map string_bytes words.now) script ≡ Err fault) }
    ensures failed_write { result ≡ Err Fault.Write → IfSome (R.remaining input.old) (λ script. IsOk (answer_to (map string_bytes words.now) script)) }
    ensures unwritten { (fault : _) → result ≡ Err fault → fault ≢ Fault.Write → Keeps (W.contents out.old) (W.contents out.new) }
{
    let mode = Mode::from_words(words).ok_or(Fault::Usage)?;
    let text = table_text(alloc, mode, input)?;
    write_text(text.as_str(), out)
}

/// Runs the program: prints the table of a script, or reports why there is none.
///
/// `words` are the program's arguments. A script is read from `input`; the text of its table and a
/// line feed are written to `out`. Each fault is one line on `err`, and nothing is then written to
/// `out`, unless a write failed midway. Wrong arguments are reported before anything is read.
///
/// The exit status is that of the right result, unless memory, a read or a write failed. It is the
/// same if the fault's line couldn't be written.
pub fn run<A: Allocator + Copy, R: Read, W1: Write, W2: Write>(
    alloc: A,
    words: &[String],
    input: &mut R,
    out: &mut W1,
    err: &mut W2,
) -> Ending
    ensures wrong_arguments { mode_of (map string_bytes words.now) ≡ None → (result.fault ≡ Some Fault.Usage) × Keeps (R.remaining input.old) (R.remaining input.new) }
    ensures answered { tells_failure (status_after result.fault) ≡ false
        → IfSome (R.remaining input.old) (λ script. status_after result.fault ≡ status_of_answer (answer_to (map string_bytes words.now) script)) }
    ensures shown { result.fault ≡ None
        → IfSome (R.remaining input.old) (λ script. (text : Text) × (answer_to (map string_bytes words.now) script ≡ Ok text) × Appends (W1.contents out.old) (W1.contents out.new) text) }
    ensures refused { (fault : _) → result.fault ≡ Some fault → is_failure fault ≡ false → IfSome (R.remaining input.old) (λ script. answer_to (map string_bytes words.now) script ≡ Err fault) }
    ensures failed_write { result.fault ≡ Some Fault.Write → IfSome (R.remaining input.old) (λ script. IsOk (answer_to (map string_bytes words.now) script)) }
    ensures unwritten { (fault : _) → result.fault ≡ Some fault → fault ≢ Fault.Write → Keeps (W1.contents out.old) (W1.contents out.new) }
    ensures told { (fault : _) → result.fault ≡ Some fault → result.is_told ≡ true → Appends (W2.contents err.old) (W2.contents err.new) (line_of fault) }
    ensures nothing_to_tell { result.fault ≡ None → result.is_told ≡ true }
    ensures silent { result.fault ≡ None → Keeps (W2.contents err.old) (W2.contents err.new) }
{
    match show(alloc, words, input, out) {
        Ok(()) => Ending {
            fault: None,
            is_told: true,
        },
        Err(fault) => Ending::with_fault(fault, err),
    }
}
