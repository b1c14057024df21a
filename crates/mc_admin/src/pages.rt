//! The text of statistics, settings and metrics.
ghost use Rattle.std.specs.Prelude.{◌≡◌, ◌++◌, [], codes, decimal, OnOk, if◌then◌else◌};
ghost use Rattle.mc_admin.specs.Names.{metric_name, kind_of};
ghost use Rattle.mc_admin.specs.Pages.{value_text, number_text, server_prefix, stat_line, figure_line, setting_line, stats_text, settings_text, heading_of, labels_text, sample_line, metric_lines, metrics_text};

use crate::figures::{Figure, Setting, Value};
use crate::names::Name;
use itoa::Buffer;
use std::alloc::AllocError;

/// The version that the command `version` answers: that of the protocol.
const VERSION: &[u8] = b"1.6.0";

/// Appends statistics to a text.
#[tactic(auto, using(crate::proofs::PageLemmas::lines_more))]
pub fn push_stats(figures: &[Figure<'_>], out: &mut Vec<u8>) -> Result<(), AllocError>
    ensures { OnOk result (out.new.items ≡ out.old.items ++ stats_text figures.now) }
{
    for figure in figures {
        push_figure_line(figure, out)?;
    }
    out.extend_from_slice(b"END\r\n")
}

/// Appends settings to a text.
#[tactic(auto, using(crate::proofs::PageLemmas::lines_more))]
pub fn push_settings(settings: &[Setting<'_>], out: &mut Vec<u8>) -> Result<(), AllocError>
    ensures { OnOk result (out.new.items ≡ out.old.items ++ settings_text settings.now) }
{
    for setting in settings {
        push_setting_line(setting, out)?;
    }
    out.extend_from_slice(b"END\r\n")
}

/// Appends metrics to a text.
#[tactic(auto, using(crate::proofs::PageLemmas::lines_more))]
pub fn push_metrics(figures: &[Figure<'_>], out: &mut Vec<u8>) -> Result<(), AllocError>
    ensures { OnOk result (out.new.items ≡ out.old.items ++ metrics_text figures.now) }
{
    for figure in figures {
        push_metric_lines(figure, out)?;
    }
    Ok(())
}

/// Appends the line of a figure among statistics.
fn push_figure_line(figure: &Figure<'_>, out: &mut Vec<u8>) -> Result<(), AllocError>
    ensures { OnOk result (out.new.items ≡ out.old.items ++ figure_line figure.now) }
{
    out.extend_from_slice(b"STAT ")?;
    push_server_prefix(figure.server, out)?;
    out.extend_from_slice(figure.name.stat())?;
    push_value(figure.value, out)
}

/// Appends the line of a setting.
fn push_setting_line(setting: &Setting<'_>, out: &mut Vec<u8>) -> Result<(), AllocError>
    ensures { OnOk result (out.new.items ≡ out.old.items ++ setting_line setting.now) }
{
    out.extend_from_slice(b"STAT ")?;
    out.extend_from_slice(setting.name)?;
    push_value(setting.value, out)
}

/// Appends the text in front of the name of a server's figure.
fn push_server_prefix(server: Option<&[u8]>, out: &mut Vec<u8>) -> Result<(), AllocError>
    ensures { OnOk result (out.new.items ≡ out.old.items ++ server_prefix server.entry) }
{
    let Some(address) = server else {
        return Ok(());
    };
    out.extend_from_slice(b"server:")?;
    out.extend_from_slice(address)?;
    out.extend_from_slice(b":")
}

/// Appends a space, a value among statistics, and the end of its line.
fn push_value(value: Value<'_>, out: &mut Vec<u8>) -> Result<(), AllocError>
    ensures { OnOk result (out.new.items ≡ out.old.items ++ (codes " " ++ value_text value.entry ++ codes "\r\n")) }
{
    out.extend_from_slice(b" ")?;
    match value {
        Value::Number(number) => push_number(number, out)?,
        Value::Version => out.extend_from_slice(VERSION)?,
        Value::Word(word) => out.extend_from_slice(word)?,
    }
    out.extend_from_slice(b"\r\n")
}

/// Appends a number in digits.
fn push_number(number: u64, out: &mut Vec<u8>) -> Result<(), AllocError>
    ensures { OnOk result (out.new.items ≡ out.old.items ++ decimal number) }
{
    let mut digits = Buffer::new();
    out.extend_from_slice(digits.format(number).as_bytes())
}

/// Appends the lines of a figure among metrics.
fn push_metric_lines(figure: &Figure<'_>, out: &mut Vec<u8>) -> Result<(), AllocError>
    ensures { OnOk result (out.new.items ≡ out.old.items ++ metric_lines figure.now) }
{
    if figure.first {
        push_heading(figure.name, out)?;
    }
    push_sample(figure, out)
}

/// Appends the lines about a metric in front of its first sample.
fn push_heading(name: Name, out: &mut Vec<u8>) -> Result<(), AllocError>
    ensures { OnOk result (out.new.items ≡ out.old.items ++ heading_of name) }
{
    out.extend_from_slice(b"# HELP ")?;
    out.extend_from_slice(name.metric())?;
    out.extend_from_slice(b" ")?;
    out.extend_from_slice(name.help())?;
    push_type(name, out)
}

/// Appends the line of a metric's type.
fn push_type(name: Name, out: &mut Vec<u8>) -> Result<(), AllocError>
    ensures { OnOk result (out.new.items
        ≡ out.old.items ++ (codes "\n# TYPE " ++ metric_name name ++ codes " " ++ kind_of name ++ codes "\n")) }
{
    out.extend_from_slice(b"\n# TYPE ")?;
    out.extend_from_slice(name.metric())?;
    out.extend_from_slice(b" ")?;
    out.extend_from_slice(name.kind())?;
    out.extend_from_slice(b"\n")
}

/// Appends a sample: its metric, its labels and its number.
fn push_sample(figure: &Figure<'_>, out: &mut Vec<u8>) -> Result<(), AllocError>
    ensures { OnOk result (out.new.items ≡ out.old.items ++ sample_line figure.now) }
{
    out.extend_from_slice(figure.name.metric())?;
    push_labels(figure.name, figure.server, out)?;
    out.extend_from_slice(b" ")?;
    match figure.value {
        Value::Number(number) => push_number(number, out)?,
        _ => out.extend_from_slice(b"1")?,
    }
    out.extend_from_slice(b"\n")
}

/// Appends the labels of a figure.
fn push_labels(name: Name, server: Option<&[u8]>, out: &mut Vec<u8>) -> Result<(), AllocError>
    ensures { OnOk result (out.new.items ≡ out.old.items ++ labels_text name server.entry) }
{
    let Some(address) = server else {
        return out.extend_from_slice(name.labels());
    };
    out.extend_from_slice(b"{server=\"")?;
    out.extend_from_slice(address)?;
    out.extend_from_slice(b"\"}")
}
