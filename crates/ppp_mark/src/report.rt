ghost use Rattle.std.specs.Prelude.{◌≡◌, true, None};
ghost use Rattle.std.specs.Bool.{OnFalse, OnTrue};
ghost use Rattle.ppp_mark.specs.Log.{AreMarks, marks_of};
ghost use Rattle.ppp_mark.specs.Report.{HasStatus, IsPut, end_text, mark_line, mark_lines, section_text, status_text, word_line};
ghost use Rattle.ppp_mark.specs.declared.report.LogName.TheVariants.{Unit as OfUnit};
ghost use Rattle.ppp_mark.specs.Table.{is_kind};
ghost use Rattle.ppp_outside.specs.Writing.{Breaks, Puts, Writes};

use crate::log::Log;
use crate::mark::Mark;
use crate::name::name;
use ppp_base::{LinkId, Unit};
use ppp_outside::{Sink, TextWriter, write_whole};

/// Whose log it is.
#[derive(Clone, Copy, Debug, PartialEq, Eq)]
pub enum LogName {
    /// A link's.
    Link(LinkId),
    /// A unit's.
    Unit(Unit),
}

/// A log with its owner, and of a link the status with which it has finished.
#[derive(Clone, Copy)]
pub struct NamedLog<'a> {
    pub name: LogName,
    pub log: &'a Log,
    /// Some exactly for links.
    pub status: Option<u8>,
}

/// How the writing of a piece of a report ended.
#[derive(Clone, Copy, Debug, PartialEq, Eq)]
pub enum ReportEnd {
    /// The whole of it was taken.
    Done,
    /// The sink failed, and a front of it was taken.
    Failed,
}

// Puts the line of a mark.
fn put_mark<O: Sink>(writer: &mut TextWriter, output: &mut O, mark: Mark)
    requires { is_kind mark.kind ≡ true }
    ensures { Puts writer.old writer.new (O.state output.old) (O.state output.new) (mark_line mark) }
{
    writer.put_number(output, mark.time);
    writer.put(output, b" ");
    writer.put(output, name(mark.kind));
    writer.put(output, b" ");
    writer.put_number(output, u64::from(mark.x));
    writer.put(output, b" ");
    writer.put_number(output, u64::from(mark.y));
    writer.put(output, b" ");
    writer.put_number(output, u64::from(mark.z));
    writer.put(output, b"\n");
}

// Puts the lines of marks.
fn put_marks<O: Sink>(writer: &mut TextWriter, output: &mut O, marks: &[Mark])
    requires { AreMarks marks.now }
    ensures { Puts writer.old writer.new (O.state output.old) (O.state output.new) (mark_lines marks.now) }
{
    writer.put(output, b"");
    for mark in marks {
        put_mark(writer, output, *mark);
    }
}

// Puts a word and a number as a line.
fn put_word<O: Sink>(writer: &mut TextWriter, output: &mut O, word: &[u8], number: u8)
    ensures { Puts writer.old writer.new (O.state output.old) (O.state output.new) (word_line word.now number) }
{
    writer.put(output, word);
    writer.put_number(output, u64::from(number));
    writer.put(output, b"\n");
}

// Puts the line of a status, if there is one.
fn put_status<O: Sink>(writer: &mut TextWriter, output: &mut O, status: Option<u8>)
    ensures { Puts writer.old writer.new (O.state output.old) (O.state output.new) (status_text status) }
{
    match status {
        None => writer.put(output, b""),
        Some(status) => put_word(writer, output, b"status ", status),
    }
}

// Puts a section.
fn put_section<O: Sink>(
    writer: &mut TextWriter,
    output: &mut O,
    name: LogName,
    marks: &[Mark],
    status: Option<u8>,
)
    requires { AreMarks marks.now }
    ensures { Puts writer.old writer.new (O.state output.old) (O.state output.new) (section_text name marks.now status) }
{
    match name {
        LogName::Link(link) => {
            put_word(writer, output, b"link ", link.number());
            put_marks(writer, output, marks);
            put_status(writer, output, status);
        }
        LogName::Unit(unit) => put_unit(writer, output, unit, marks),
    }
}

// Puts the section of a unit's log, if it has marks.
fn put_unit<O: Sink>(writer: &mut TextWriter, output: &mut O, unit: Unit, marks: &[Mark])
    requires { AreMarks marks.now }
    ensures { Puts writer.old writer.new (O.state output.old) (O.state output.new) (section_text (OfUnit unit) marks.now None) }
{
    match marks {
        [] => writer.put(output, b""),
        [_, ..] => {
            put_word(writer, output, b"unit ", unit.number());
            put_marks(writer, output, marks);
        }
    }
}

// Writes a section, and answers whether the whole of it was taken.
fn write_section<O: Sink>(output: &mut O, name: LogName, marks: &[Mark], status: Option<u8>) -> bool
    requires { AreMarks marks.now }
    ensures whole { OnTrue result (Writes (O.state output.old) (O.state output.new) (section_text name marks.now status)) }
    ensures part { OnFalse result (Breaks (O.state output.old) (O.state output.new) (section_text name marks.now status)) }
{
    let mut writer = TextWriter::new();
    put_section(&mut writer, output, name, marks, status);
    writer.finish(output)
}

/// Writes the section of a log: its owner, a line for each mark, and of a link its status. It takes no memory. After
/// `Failed` a front of it was written.
pub fn section_into<O: Sink>(log: &NamedLog, out: &mut O) -> ReportEnd
    requires { HasStatus log.now.name log.now.status }
    ensures { IsPut result (O.state out.old) (O.state out.new) (section_text log.now.name (marks_of log.now.log.now) log.now.status) }
{
    if write_section(out, log.name, log.log.marks(), log.status) {
        ReportEnd::Done
    } else {
        ReportEnd::Failed
    }
}

/// Writes the last line of a report. It takes no memory. After `Failed` a front of it was written.
pub fn end_into<O: Sink>(out: &mut O) -> ReportEnd
    ensures { IsPut result (O.state out.old) (O.state out.new) end_text }
{
    if write_whole(out, b"end\n") {
        ReportEnd::Done
    } else {
        ReportEnd::Failed
    }
}
