//! The line that the program writes of a fault.
use crate::command_fault::CommandFault;
use crate::run_fault::RunFault;
use iso_plan::fault::PlanFault;
use iso_schedule::fault::ScheduleFault;
use iso_script::fault::ScriptFault;
use iso_settings::fault::SettingsFault;
use iso_summary::unseen::is_unseen;
use iso_tap::buffered::BufferedPrinter;
use iso_tap::sink::{Sink, SinkFailed};
use std::fmt;

/// What standard input is called.
pub(crate) const STDIN: &str = "stdin";

/// The line of a failed write or flush.
const WRITE_FAILED: &str = "jtap: write failed";

impl fmt::Display for CommandFault<'_> {
    fn fmt<W: fmt::Write>(&self, f: &mut fmt::Formatter<W>) -> fmt::Result {
        match self {
            CommandFault::Words(text) => write!(f, "{}", EscapedLines(text)),
            CommandFault::Unreadable(name) => {
                write!(f, "jtap: {}: cannot be read", Escaped(*name))
            }
            CommandFault::TooLarge(name) => write!(f, "jtap: {}: too large", Escaped(*name)),
            CommandFault::NotListed(file, index, _) => {
                let path = ListedPath {
                    file,
                    index: *index,
                };
                write!(f, "jtap: plan: NotSelected {}", Escaped(path))
            }
            CommandFault::Unwritable(name) => {
                write!(f, "jtap: {}: cannot be written", Escaped(*name))
            }
            CommandFault::Unwritten => f.write_str(WRITE_FAILED),
            CommandFault::Told(_) => Ok(()),
            CommandFault::Uncounted => f.write_str("jtap: processors: cannot be read"),
            CommandFault::Run(fault, word, _) => {
                let line = RunFaultLine { fault, word: *word };
                write!(f, "{line}")
            }
        }
    }
}

/// The line of a fault of a run. The word is the name of the script that the fault is of, where one
/// was named, or the path.
#[derive(Clone, Copy)]
struct RunFaultLine<'a> {
    fault: &'a RunFault,
    word: Option<&'a str>,
}

impl fmt::Display for RunFaultLine<'_> {
    fn fmt<W: fmt::Write>(&self, f: &mut fmt::Formatter<W>) -> fmt::Result {
        match self.fault {
            RunFault::Settings(fault) => write!(f, "jtap: settings: {}", Escaped(fault)),
            RunFault::World(fault) => write!(f, "jtap: world: {}", Escaped(fault)),
            RunFault::Script(_, ScriptFault { kind, line, column }) => {
                let name = Escaped(self.word.unwrap_or(STDIN));
                write!(f, "jtap: {name}:{line}:{column}: {kind}")
            }
            RunFault::Plan(fault @ PlanFault::NotSelected(_)) => {
                let path = Escaped(self.word.unwrap_or(""));
                write!(f, "jtap: plan: {fault} {path}")
            }
            RunFault::Plan(fault) => write!(f, "jtap: plan: {fault}"),
            RunFault::Schedule(ScheduleFault { kind, line }) => {
                write!(f, "jtap: schedule: line {line}: {kind}")
            }
            RunFault::Refused(index, why) => write!(f, "jtap: schedule: event {index}: {why}"),
            RunFault::Unfinished => f.write_str("jtap: schedule: unfinished"),
            RunFault::Start => f.write_str("jtap: cannot start a worker"),
            RunFault::Lost => f.write_str("jtap: lost receipt"),
            RunFault::Memory => f.write_str("jtap: out of memory"),
            RunFault::Write(_) => f.write_str(WRITE_FAILED),
        }
    }
}

/// The path with this number of those that a file lists, counted from 0. Where it isn't UTF-8,
/// U+FFFD stands.
#[derive(Clone, Copy)]
struct ListedPath<'a> {
    file: &'a [u8],
    index: usize,
}

impl fmt::Display for ListedPath<'_> {
    fn fmt<W: fmt::Write>(&self, f: &mut fmt::Formatter<W>) -> fmt::Result {
        let path = listed_at(self.file, self.index);
        for chunk in path.utf8_chunks() {
            f.write_str(chunk.valid())?;
            if !chunk.invalid().is_empty() {
                f.write_char(char::REPLACEMENT_CHARACTER)?;
            }
        }
        Ok(())
    }
}

/// The bytes of the path with this number of those that a file lists, none where it lists fewer.
pub(crate) fn listed_at(file: &[u8], index: usize) -> &[u8] {
    let mut left = index;
    for line in file.split(|byte| *byte == b'\n') {
        let path = line.strip_suffix(b"\r").unwrap_or(line);
        if path.is_empty() {
            continue;
        }
        if left == 0 {
            return path;
        }
        left -= 1;
    }
    &[]
}

/// What may hold any text, as a key or a file's name, with the characters that no reader sees as in
/// a TOML basic string (`\n`, `\u001B`): it stays in its line, it is read as it is spelled, and no
/// terminal obeys it.
#[derive(Clone, Copy)]
struct Escaped<T: fmt::Display>(T);

impl<T: fmt::Display> fmt::Display for Escaped<T> {
    fn fmt<W: fmt::Write>(&self, f: &mut fmt::Formatter<W>) -> fmt::Result {
        let mut writer = EscapingWriter { writer: f };
        fmt::Write::write_fmt(&mut writer, format_args!("{}", self.0))
    }
}

/// Writes on all characters that are seen, and of the others their escapes.
#[derive(Drop)]
struct EscapingWriter<'a, W: fmt::Write> {
    writer: &'a mut W,
}

impl<W: fmt::Write> fmt::Write for EscapingWriter<'_, W> {
    fn write_str(&mut self, text: &str) -> fmt::Result {
        for c in text.chars() {
            match c {
                '\n' => self.writer.write_str("\\n")?,
                '\r' => self.writer.write_str("\\r")?,
                '\t' => self.writer.write_str("\\t")?,
                _ if is_unseen(c) => escape(&mut *self.writer, c)?,
                _ => self.writer.write_char(c)?,
            }
        }
        Ok(())
    }
}

/// Writes a character by its number of four digits, or of eight where these are too few.
fn escape<W: fmt::Write>(writer: &mut W, c: char) -> fmt::Result {
    match u32::from(c) {
        number @ ..=0xFFFF => write!(writer, "\\u{number:04X}"),
        number => write!(writer, "\\U{number:08X}"),
    }
}

/// A text of several lines, whose other characters that no reader sees are escaped, without the
/// white space at its end.
#[derive(Clone, Copy)]
struct EscapedLines<'a>(&'a str);

impl fmt::Display for EscapedLines<'_> {
    fn fmt<W: fmt::Write>(&self, f: &mut fmt::Formatter<W>) -> fmt::Result {
        let mut lines = self.0.trim_end().split('\n');
        if let Some(first) = lines.next() {
            write!(f, "{}", Escaped(first))?;
        }
        for line in lines {
            write!(f, "\n{}", Escaped(line))?;
        }
        Ok(())
    }
}

/// Writes a fault's line, and what mends it, where that is told, as far as the sink takes them;
/// nothing of faults that were told before.
pub(crate) fn say<E: Sink>(errors: &mut E, fault: &CommandFault<'_>) {
    if let CommandFault::Told(_) = fault {
        return;
    }
    let mut writer = SinkWriter {
        printer: BufferedPrinter::new(errors),
    };
    let _ = write_fault(&mut writer, fault);
}

/// Writes a fault's line, and what mends it, where that is told.
fn write_fault<E: Sink>(writer: &mut SinkWriter<'_, E>, fault: &CommandFault<'_>) -> fmt::Result {
    fmt::Write::writeln(writer, fault)?;
    if let CommandFault::Run(_, _, Some(text)) | CommandFault::NotListed(_, _, Some(text)) = fault {
        written(writer.printer.bytes(text.bytes()))?;
    }
    written(writer.printer.flush())
}

/// Writes text to a sink, as far as the sink takes it.
#[derive(Drop)]
struct SinkWriter<'a, E: Sink> {
    printer: BufferedPrinter<'a, E>,
}

impl<E: Sink> fmt::Write for SinkWriter<'_, E> {
    fn write_str(&mut self, text: &str) -> fmt::Result {
        written(self.printer.bytes(text.as_bytes()))
    }
}

fn written(printed: Result<(), SinkFailed>) -> fmt::Result {
    match printed {
        Ok(()) => Ok(()),
        Err(_) => Err(fmt::Error),
    }
}
