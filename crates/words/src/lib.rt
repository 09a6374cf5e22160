// How a text line of the question program is read: its fields, the numbers in them, the record that they make.
// `record_of` holds for every list of bytes; the functions above it say their results by the definitions of `specs/`.
#![tactic(auto)]

ghost use Rattle.std.specs.Prelude.{◌≡◌, length, nat_abs, option_map, unwrap_or};
ghost use Rattle.words.specs.Fields.{fields, field};
ghost use Rattle.words.specs.Records.{line_named, coordinate, allowance, record_in, record_of};

use numerals::within;
use rules::Line;

// A text line, read.
#[derive(Clone, Copy)]
pub enum Record {
    Start(Line),
    Pt(i64, i64),
    Near {
        x: i64,
        y: i64,
        distance: i64,
        allowance: u32,
    },
    In {
        x: i64,
        y: i64,
        allowance: u32,
    },
    Meet(u32),
    Agree {
        distance: i64,
        allowance: u32,
    },
    // No `None` in its place: the desk answers it like the others, with its own refusal.
    NotUnderstood,
}

// The number of fields.
fn field_count(text: &[u8]) -> usize
    ensures { result ≡ length (fields text.now) }
{
    text.split(|b| *b == b'\t').count()
}

// Field k, empty where there is none.
fn field(text: &[u8], k: usize) -> &[u8]
    ensures { result.now ≡ field (fields text.now) k }
{
    text.split(|b| *b == b'\t').nth(k).unwrap_or(&[])
}

// A coordinate or a distance in field k.
fn coordinate(text: &[u8], k: usize) -> Option<i64>
    ensures { result ≡ coordinate (fields text.now) k }
{
    within(field(text, k), i64::from(i32::MIN), i64::from(i32::MAX))
}

fn allowance(text: &[u8], k: usize) -> Option<u32>
    ensures { result ≡ option_map nat_abs (allowance (fields text.now) k) }
{
    within(field(text, k), 0, i64::from(u32::MAX)).map(|z| z as u32)
}

// The line that the field after LINE names.
#[tactic(auto, using(crate::proofs::Words::words))]
fn line_named(f: &[u8]) -> Option<Line>
    ensures { unwrap_or (option_map Record.Start result) Record.NotUnderstood ≡ line_named f.now }
{
    match f {
        b"A" => Some(Line::LineA),
        b"B" => Some(Line::LineB),
        _ => None,
    }
}

// The record of a text line, by its count of fields and its word.
#[tactic(auto, using(crate::proofs::Words::records))]
fn record_in(count: usize, word: &[u8], text: &[u8]) -> Option<Record>
    ensures { unwrap_or result Record.NotUnderstood ≡ record_in count word.now (fields text.now) }
{
    let record = match (count, word) {
        (2, b"LINE") => Record::Start(line_named(field(text, 1))?),
        (3, b"PT") => Record::Pt(coordinate(text, 1)?, coordinate(text, 2)?),
        (5, b"NEAR") => Record::Near {
            x: coordinate(text, 1)?,
            y: coordinate(text, 2)?,
            distance: coordinate(text, 3)?,
            allowance: allowance(text, 4)?,
        },
        (4, b"IN") => Record::In {
            x: coordinate(text, 1)?,
            y: coordinate(text, 2)?,
            allowance: allowance(text, 3)?,
        },
        (2, b"MEET") => Record::Meet(allowance(text, 1)?),
        (3, b"AGREE") => Record::Agree {
            distance: coordinate(text, 1)?,
            allowance: allowance(text, 2)?,
        },
        _ => return None,
    };
    Some(record)
}

#[tactic(auto, unfolding(crate::specs::Records::record_of))]
pub fn record_of(text: &[u8]) -> Record
    ensures { result ≡ record_of text.now }
{
    if 80 < text.len() {
        return Record::NotUnderstood;
    }
    record_in(field_count(text), field(text, 0), text).unwrap_or(Record::NotUnderstood)
}
