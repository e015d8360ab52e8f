// Reads control records from lines `N HHHHHHHH`, the number of sub-channels and the four bytes in hexadecimal, with the
// resource as a third field or 0, and prints the fields of each or why it is refused. With no input it shows an example.
#![tactic(auto)]

ghost use Rattle.std.specs.Prelude.{◌≡◌, ℕ, ◌≤◌, IfOk, string_bytes};
ghost use Rattle.record.specs.Lines.{fields};

use anyhow::anyhow;
use console::four_bytes;
use format1::{Record, read};
use std::alloc::{AllocError, Global};
use std::io;
use std::process::ExitCode;
use std::str::FromStr;
use thiserror::Error;

// Shown where the input is empty.
const EXAMPLE: &str = "1 02000000\n5 038AB800\n5 03E00000\n20 F9A3FF80 9\n20 F9A3FF80 10\n";

// What a line asks for.
#[derive(Drop)]
struct Question {
    channels: u8,
    bytes: [u8; 4],
    resource: u8,
}

// Why a line cannot be read.
#[derive(Debug, Drop, Error)]
enum Fault {
    #[error("not two or three fields")]
    Fields,
    #[error("the number of sub-channels is not from 1 to 20")]
    Channels,
    #[error("the record is not eight hexadecimal digits")]
    Bytes,
    #[error("the resource is not a number from 0 to 255")]
    Resource,
}

// The number of sub-channels.
fn channels(text: &str) -> Result<u8, Fault>
    ensures { IfOk result (λ n. (1 ≤ n) × (n ≤ 20)) }
{
    match text.parse() {
        Ok(n @ 1..=20) => Ok(n),
        _ => Err(Fault::Channels),
    }
}

// The resource, which is 0 where it is left out.
fn resource(field: Option<&str>) -> Result<u8, Fault> {
    field.map_or(Ok(0), |text| text.parse().map_err(|_| Fault::Resource))
}

impl FromStr for Question {
    type Err = Fault;

    fn from_str(line: &str) -> Result<Question, Fault> {
        let mut fields = line.split_whitespace();
        let (Some(n), Some(record), third, None) = (
            fields.next(),
            fields.next(),
            fields.next(),
            fields.next(),
        ) else {
            return Err(Fault::Fields);
        };
        Ok(Question {
            channels: channels(n)?,
            bytes: four_bytes(record).ok_or(Fault::Bytes)?,
            resource: resource(third)?,
        })
    }
}

// The fields of a record, each after its name.
fn shown(heap: Global, heard: Record) -> Result<String, AllocError>
    ensures { IfOk result (λ s. string_bytes s ≡ fields heard) }
{
    let Record {
        priority,
        code,
        start,
        length,
        gap,
        mcs,
        again,
    } = heard;
    format!(in heap;
        "priority {priority} code {code} length {length} start {start} gap {gap} mcs {mcs} again {again}"
    )
}

fn answer_to(rt: &HostRuntime, q: Question) -> anyhow::Result<()> {
    match read(q.channels, q.resource, q.bytes) {
        Ok(record) => rt.println(shown(rt.alloc(), record)?)?,
        Err(refusal) => println!(rt; "refused {refusal}")?,
    }
    Ok(())
}

fn run(rt: &HostRuntime) -> anyhow::Result<()> {
    let input = io::read_to_string(rt.alloc(), rt.stdin())?;
    // Each program has such a choice of its own: a call with both texts would be as long.
    let text = if input.is_empty() {
        EXAMPLE
    } else {
        input.as_str()
    };
    for (i, line) in text.lines().enumerate() {
        if line.is_empty() || line.starts_with('#') {
            continue;
        }
        let number = i.saturating_add(1);
        let question = line
            .parse()
            .map_err(|fault| anyhow!("line {number}: {fault}"))?;
        answer_to(rt, question)?;
    }
    Ok(())
}

fn main(rt: HostRuntime) -> ExitCode {
    let Err(e) = run(&rt) else {
        return ExitCode::SUCCESS;
    };
    // Where even this cannot be written, the status still says that the input was not read.
    let _said = eprintln!(rt; "record: {e}");
    ExitCode::FAILURE
}
