ghost use Rattle.std.specs.Prelude.{◌≡◌, ◌≤◌, true};
ghost use Rattle.ppp_mark.specs.Table.{is_kind};

use ppp_base::hex_digit;
use ppp_mark::lines::first_line;
use ppp_mark::name::name;
use ppp_mark::{LogName, Mark};
use ppp_outside::{Sink, TextWriter};
use ppp_table::Delivery;
use ppp_trace::{LineOctets, WorldStep, read_step};
use ppp_world::World;

// Puts octets as hexadecimal digits.
fn put_hex<O: Sink>(writer: &mut TextWriter, output: &mut O, octets: &[u8]) {
    for octet in octets {
        let digits = [hex_digit(*octet / 16), hex_digit(*octet % 16)];
        writer.put(output, digits.as_slice());
    }
}

// Puts whose mark it is.
fn put_owner<O: Sink>(writer: &mut TextWriter, output: &mut O, owner: LogName) {
    match owner {
        LogName::Link(link) => {
            writer.put(output, b" link ");
            writer.put_number(output, u64::from(link.number()));
        }
        LogName::Unit(unit) => {
            writer.put(output, b" unit ");
            writer.put_number(output, u64::from(unit.number()));
        }
    }
}

// Puts the line of a new mark.
fn put_mark<O: Sink>(writer: &mut TextWriter, output: &mut O, owner: LogName, mark: Mark)
    requires { is_kind mark.kind ≡ true }
{
    put_owner(writer, output, owner);
    writer.put(output, b" ");
    writer.put_number(output, mark.time);
    writer.put(output, b" ");
    writer.put(output, name(mark.kind));
    writer.put(output, b" ");
    writer.put_number(output, u64::from(mark.x));
    writer.put(output, b" ");
    writer.put_number(output, u64::from(mark.y));
    writer.put(output, b" ");
    writer.put_number(output, u64::from(mark.z));
    writer.put(output, b"\n");
}

// Puts the line of the octets that were written, if any were.
fn put_written<O: Sink>(
    writer: &mut TextWriter,
    output: &mut O,
    step: &WorldStep,
    written: &Option<LineOctets>,
) {
    if let (WorldStep::SentOk { link }, Some(octets)) = (step, written) {
        writer.put(output, b" link ");
        writer.put_number(output, u64::from(link.number()));
        writer.put(output, b" out ");
        put_hex(writer, output, octets.as_slice());
        writer.put(output, b"\n");
    }
}

// Puts the line of a datagram that was given.
fn put_given<O: Sink>(writer: &mut TextWriter, output: &mut O, delivery: &Delivery) {
    writer.put(output, b" unit ");
    writer.put_number(output, u64::from(delivery.unit.number()));
    writer.put(output, b" give");
    if !delivery.datagram.is_empty() {
        writer.put(output, b" ");
        put_hex(writer, output, delivery.datagram.as_slice());
    }
    writer.put(output, b"\n");
}

// Does a step, and puts its lines.
fn put_step<O: Sink>(
    writer: &mut TextWriter,
    output: &mut O,
    world: &mut World,
    number: u64,
    step: &WorldStep,
) {
    let out = world.step(step);
    writer.put_number(output, number);
    writer.put(output, if out.taken { b" taken\n" } else { b" stale\n" });
    put_marks(writer, output, world);
    put_written(writer, output, step, &out.written);
    put_all_given(writer, output, world);
}

// Puts the lines of the new marks.
fn put_marks<O: Sink>(writer: &mut TextWriter, output: &mut O, world: &mut World) {
    'marks: while let Some((owner, mark)) = world.take_mark() {
        put_mark(writer, output, owner, mark);
    }
}

// Puts the lines of the datagrams that were given.
fn put_all_given<O: Sink>(writer: &mut TextWriter, output: &mut O, world: &mut World) {
    'given: while let Some(delivery) = world.take_given() {
        put_given(writer, output, &delivery);
    }
}

/// Writes the text of a full trace with these lines of steps and so many links, and answers whether the whole of it was taken.
pub fn put_full<O: Sink>(output: &mut O, mut world: World, steps: &[u8], links: u8) -> bool
    requires { links ≤ 16 }
{
    let mut writer = TextWriter::new();
    let mut number = 0u64;
    let mut rest = steps;
    'steps: while !rest.is_empty() {
        let (line, others) = first_line(rest);
        number = number.saturating_add(1);
        if let Some(step) = read_step(line, links) {
            put_step(&mut writer, output, &mut world, number, &step);
        }
        rest = others;
    }
    writer.finish(output)
}
