//! The lines of a program on standard error, in the form that its operator keeps.
ghost use Rattle.std.specs.Prelude.{◌≡◌};
ghost use Rattle.mc_program.specs.Logs.{form_by, spelling_of};

use crate::operators::is_read;
use clap::ArgMatches;
use jiff::Timestamp;
use std::fmt::{Display, Formatter};
use std::rt::{Clock, Env};
use std::{fmt, io};

/// The option `--log`, by which the words say the form of a program's lines.
#[derive(Clone, Copy, Debug, PartialEq, Eq)]
pub enum LogOption {
    /// It is not given.
    Nothing,
    /// Lines for a file: `--log`.
    Text,
    /// Lines for a program that reads JSON: `--log=json`.
    Json,
}

impl LogOption {
    /// Returns the option of matches.
    pub fn of(matches: &ArgMatches<'_>) -> LogOption {
        match matches.get_str("log") {
            None => LogOption::Nothing,
            Some("json") => LogOption::Json,
            Some(_) => LogOption::Text,
        }
    }

    /// Returns whether it is given.
    pub fn is_any(self) -> bool {
        self != LogOption::Nothing
    }
}

/// Prints the option if it is not at its default, behind other settings.
impl Display for LogOption {
    fn fmt<W: fmt::Write>(&self, f: &mut Formatter<W>) -> fmt::Result {
        match self {
            LogOption::Nothing => Ok(()),
            LogOption::Text => f.write_str(" log"),
            LogOption::Json => f.write_str(" log json"),
        }
    }
}

/// The form of a program's lines.
#[derive(Clone, Copy, Debug, PartialEq, Eq)]
pub enum Form {
    /// `<program>: <text>`, and behind it ` (<n> suppressed)` if any such lines were.
    Plain,
    /// `<time> <program>: <text>`, with the time in UTC, and likewise ` (<n> suppressed)` behind it.
    Timed,
    /// `{"time":"<time>","program":"<program>","text":"<text>"}`, with `,"suppressed":<n>` before the brace if any such lines were.
    Json,
}

/// Returns the form that the option asks for. A terminal, and systemd's journal, show lines as they are printed: the journal has their
/// times.
pub fn form_by(option: LogOption, is_shown: bool) -> Form
    ensures { result ≡ form_by option is_shown }
{
    match option {
        LogOption::Text if !is_shown => Form::Timed,
        LogOption::Json => Form::Json,
        LogOption::Text | LogOption::Nothing => Form::Plain,
    }
}

/// A standard error with lines that are printed at most once a second: such a line says how many were suppressed since the last one.
pub trait EprintSeldom: Eprint {
    /// Writes a line, and how many such lines were suppressed since the last one. The line begins with the program's name, a colon and a
    /// space.
    fn eprintln_seldom<D: Display + Drop>(&self, line: D, suppressed: u64) -> io::Result<()>;
}

/// A runtime that gives each line on standard error a form. All else is as in the runtime within.
///
/// The caller begins each line with the program's name, a colon and a space.
#[derive(Clone, Copy, Debug, Drop)]
pub struct LoggingRuntime<R> {
    pub(crate) rt: R,
    program: &'static str,
    form: Form,
}

impl<R: Env + AllocGlobal> LoggingRuntime<R> {
    /// Makes a runtime whose lines have the form that a program's option asks for.
    pub fn new(rt: R, program: &'static str, option: LogOption) -> LoggingRuntime<R> {
        let form = form_by(option, is_read(&rt, false));
        LoggingRuntime { rt, program, form }
    }
}

impl<R: Eprint + Clock> Eprint for LoggingRuntime<R> {
    fn eprint<D: Display + Drop>(&self, value: D) -> io::Result<()> {
        self.rt.eprint(value)
    }

    fn eprintln<D: Display + Drop>(&self, value: D) -> io::Result<()> {
        if self.form == Form::Plain {
            return self.rt.eprintln(value);
        }
        self.eprintln_seldom(value, 0)
    }
}

impl<R: Eprint + Clock> EprintSeldom for LoggingRuntime<R> {
    fn eprintln_seldom<D: Display + Drop>(&self, line: D, suppressed: u64) -> io::Result<()> {
        let event = Event {
            form: self.form,
            time: self.time(),
            program: self.program,
            line,
            suppressed: Suppressed(suppressed),
        };
        self.rt.eprintln(event)
    }
}

impl<R: Clock> LoggingRuntime<R> {
    /// Returns the wall clock; the beginning of 1970 if it is before that, or cannot be read.
    fn time(&self) -> Timestamp {
        let since = self.rt.since_1970();
        let seconds = since.map_or(0, |since| since.as_secs());
        let signed = i64::try_from(seconds).unwrap_or(0);
        Timestamp::from_second(signed).unwrap_or(Timestamp::UNIX_EPOCH)
    }
}

/// How many lines were suppressed, as it is printed behind a line; for none nothing is printed.
#[derive(Clone, Copy, Debug)]
struct Suppressed(u64);

impl Display for Suppressed {
    fn fmt<W: fmt::Write>(&self, f: &mut Formatter<W>) -> fmt::Result {
        match self.0 {
            0 => Ok(()),
            count => write!(f, " ({count} suppressed)"),
        }
    }
}

/// A line with its time.
#[derive(Drop)]
struct Event<D> {
    form: Form,
    time: Timestamp,
    program: &'static str,
    /// The program's name, a colon, a space and the text.
    line: D,
    suppressed: Suppressed,
}

impl<D: Display + Drop> Event<D> {
    /// Writes it as an object of JSON.
    fn write_json<W: fmt::Write>(&self, f: &mut Formatter<W>) -> fmt::Result {
        let Event {
            time,
            program,
            line,
            ..
        } = self;
        write!(
            f,
            "{{\"time\":\"{time}\",\"program\":\"{program}\",\"text\":\""
        )?;
        let mut quoted = Quoted {
            out: f,
            passed: program.len().saturating_add(2),
        };
        fmt::Write::write(&mut quoted, line)?;
        match self.suppressed.0 {
            0 => f.write_str("\"}"),
            count => write!(f, "\",\"suppressed\":{count}}}"),
        }
    }
}

impl<D: Display + Drop> Display for Event<D> {
    fn fmt<W: fmt::Write>(&self, f: &mut Formatter<W>) -> fmt::Result {
        let (time, line, suppressed) = (&self.time, &self.line, &self.suppressed);
        match self.form {
            Form::Plain => write!(f, "{line}{suppressed}"),
            Form::Timed => write!(f, "{time} {line}{suppressed}"),
            Form::Json => self.write_json(f),
        }
    }
}

/// The spelling of a character in a JSON text.
#[derive(Clone, Copy, Debug, PartialEq, Eq)]
pub enum Spelling {
    /// As it is.
    Itself,
    /// Behind a backslash.
    Escaped,
    /// By its number, as `\u000a`.
    Number,
}

/// Returns the spelling of a character in a JSON text.
pub fn spelling_of(c: char) -> Spelling
    ensures { result ≡ spelling_of c }
{
    match c {
        '"' | '\\' => Spelling::Escaped,
        '\0'..='\u{1f}' => Spelling::Number,
        _ => Spelling::Itself,
    }
}

/// A writer of a text between the quotes of JSON, without its first characters. It takes no memory, since a line may say that there is
/// none.
#[derive(Drop)]
struct Quoted<'a, W> {
    out: &'a mut W,
    /// How many characters must still be passed over.
    passed: usize,
}

impl<W: fmt::Write> fmt::Write for Quoted<'_, W> {
    fn write_str(&mut self, text: &str) -> fmt::Result {
        for c in text.chars() {
            if self.passed > 0 {
                self.passed -= 1;
                continue;
            }
            match spelling_of(c) {
                Spelling::Itself => self.out.write_char(c)?,
                Spelling::Escaped => write!(self.out, "\\{c}")?,
                Spelling::Number => write!(self.out, "\\u{:04x}", u32::from(c))?,
            }
        }
        Ok(())
    }
}
