// The proved library for C, Rust and whatever links them: slices as pointer and length, replies as one struct of plain
// numbers. No call requires anything of its numbers: whatever is passed is answered.
#![tactic(auto)]

ghost use Rattle.std.specs.Prelude.{◌≡◌};
ghost use Rattle.rules.specs.Build.{build_refusal, built_table};
ghost use Rattle.rules.specs.Old.{widen_refusal, widened};
ghost use Rattle.rules.specs.Check.{check_refusal};
ghost use Rattle.rules.specs.Reply.{checked_refusal};
ghost use Rattle.rules.specs.Questions.{near_reply, meet_reply, in_reply, agree_reply};
ghost use Rattle.kneukelboom_c.specs.Codes.{word_code, line_code, coded, coded_checked};

use rules::{Line, Point, Refusal, Reply, Word, refuses};

// What a call answers, in numbers: the word's code, the visits, the refusal number or 0, the line's code, and the
// place or 0.
#[repr(C)]
#[derive(Drop)]
pub struct KneukelboomReply {
    pub word: u32,
    pub visits: u32,
    pub number: u32,
    pub line: u32,
    pub place: u64,
}

// The C header fixes these codes, so each stands beside its name: a cast would tie the C interface to the enum's order.
fn line_code(line: Line) -> u32
    ensures { result ≡ line_code line }
{
    match line {
        Line::NoLine => 0,
        Line::LineA => 1,
        Line::LineB => 2,
    }
}

// Fixed by the C header too.
fn word_code(word: Word) -> u32
    ensures { result ≡ word_code word }
{
    match word {
        Word::YES => 1,
        Word::NO => 2,
        Word::INSIDE => 3,
        Word::OUTSIDE => 4,
        Word::ON => 5,
        Word::UNDECIDED => 6,
        Word::REFUSED => 7,
    }
}

impl From<Reply> for KneukelboomReply {
    ghost from_gives = { λ reply result. result ≡ coded reply };

    fn from(reply: Reply) -> KneukelboomReply {
        KneukelboomReply {
            word: word_code(reply.word),
            visits: reply.visits,
            number: reply.number,
            line: line_code(reply.line),
            place: reply.place as u64,
        }
    }
}

// What the checks of a build, of a widening or of a table came to, in numbers.
impl From<Result<(), Refusal>> for KneukelboomReply {
    ghost from_gives = { λ checked result. result ≡ coded_checked (checked_refusal checked) };

    fn from(checked: Result<(), Refusal>) -> KneukelboomReply {
        match checked {
            Ok(()) => KneukelboomReply {
                word: 0,
                visits: 0,
                number: 0,
                line: 0,
                place: 0,
            },
            Err(refusal) => refuses(refusal).into(),
        }
    }
}

#[unsafe(no_mangle)]
pub extern "C" fn kneukelboom_widen_v2(old: &[i32], new: &mut [i64]) -> KneukelboomReply
    ensures value { result ≡ coded_checked (widen_refusal old.now new.old) }
    ensures after { new.new ≡ widened old.now new.old }
{
    widen::widen(old, new).into()
}

#[unsafe(no_mangle)]
pub extern "C" fn kneukelboom_build_v2(points: &[i64], table: &mut [i64]) -> KneukelboomReply
    ensures value { result ≡ coded_checked (build_refusal points.now table.old) }
    ensures table_after { table.new ≡ built_table points.now table.old }
{
    build::build(points, table).into()
}

#[unsafe(no_mangle)]
pub extern "C" fn kneukelboom_check_v2(points: &[i64], table: &[i64]) -> KneukelboomReply
    ensures { result ≡ coded_checked (check_refusal points.now table.now) }
{
    checker::check(points, table).into()
}

#[unsafe(no_mangle)]
pub extern "C" fn kneukelboom_near_v2(
    points: &[i64],
    table: &[i64],
    x: i64,
    y: i64,
    distance: i64,
    allowance: u32,
) -> KneukelboomReply
    ensures { result ≡ coded (near_reply points.now table.now
        (record { x = x; y = y }) distance allowance) }
{
    near::near(points, table, Point { x, y }, distance, allowance).into()
}

#[unsafe(no_mangle)]
pub extern "C" fn kneukelboom_inside_v2(
    points: &[i64],
    table: &[i64],
    x: i64,
    y: i64,
    allowance: u32,
) -> KneukelboomReply
    ensures { result ≡ coded (in_reply points.now table.now
        (record { x = x; y = y }) allowance) }
{
    inside::inside(points, table, Point { x, y }, allowance).into()
}

#[unsafe(no_mangle)]
pub extern "C" fn kneukelboom_meet_v2(
    points_a: &[i64],
    table_a: &[i64],
    points_b: &[i64],
    table_b: &[i64],
    allowance: u32,
) -> KneukelboomReply
    ensures { result ≡ coded (meet_reply points_a.now table_a.now
        points_b.now table_b.now allowance) }
{
    meet::meet(points_a, table_a, points_b, table_b, allowance).into()
}

#[unsafe(no_mangle)]
pub extern "C" fn kneukelboom_agree_v2(
    points_a: &[i64],
    table_a: &[i64],
    points_b: &[i64],
    table_b: &[i64],
    distance: i64,
    allowance: u32,
) -> KneukelboomReply
    ensures { result ≡ coded (agree_reply points_a.now table_a.now
        points_b.now table_b.now distance allowance) }
{
    agree::agree(points_a, table_a, points_b, table_b, distance, allowance).into()
}
