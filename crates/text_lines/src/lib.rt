// The lines of the program's text: numbers in decimal and words, a step record in a diary line, a pair in a pair line, runs of both; and the endings: counted
// pair lines under a word, and the lines of each answer behind its diary.
#![tactic(auto)]

ghost use Rattle.std.specs.Prelude.{[], ◌∷◌, ◌++◌, ◌+◌, ◌*◌, ◌≤◌, ◌<◌, length, ◌≡◌};
ghost use Rattle.model.specs.Limits.{pair_width, plan_limit};
ghost use Rattle.model.specs.Printed.{fate_word, diary_line, digits, number, signed};
ghost use Rattle.diary.specs.FlatDiary.{record_width};
ghost use Rattle.text_lines.specs.Appended.{Appended};
ghost use Rattle.text_lines.specs.Texts.{texts};
ghost use Rattle.text_lines.specs.Lines.{fate_size, diary_line_size, pair_line_size, pair_text, diary_at, pair_at};
ghost use Rattle.text_lines.specs.Digits.{field_size};
ghost use Rattle.text_lines.specs.Endings.{counted_text, plan_text, rivalled_text, none_text, group_text, refused_text};
ghost use Rattle.text_lines.specs.Room.{Counted, NoneHeld, rivalled_size, ending_size, group_size, refused_size};
ghost use Rattle.text_lines.specs.Votes.{size_of, vote_size};

use answers::{Group, NoneKind};
use limits::{PAIR_WIDTH, RECORD_WIDTH};

pub fn put_byte(out: &mut [u8], at: usize, byte: u8) -> usize
    requires { at < length out.old }
    ensures { Appended out.old at (byte ∷ []) out.new result }
{
    out[at] = byte;
    at + 1
}

pub fn put_word(out: &mut [u8], at: usize, word: &[u8]) -> usize
    requires { at + length word.now ≤ length out.old }
    ensures { Appended out.old at word.now out.new result }
{
    let end = at + word.len();
    out[at..end].copy_from_slice(word);
    end
}

// a number in decimal, of at most so many digits
pub fn put_digits(out: &mut [u8], at: usize, places: usize, n: usize) -> usize
    requires { at + places ≤ length out.old }
    ensures { Appended out.old at (digits places n) out.new result }
{
    if places == 0 {
        return at;
    }
    if n < 10 {
        return put_byte(out, at, b'0' + (n as u8));
    }
    let next = put_digits(out, at, places - 1, n / 10);
    put_byte(out, next, b'0' + ((n % 10) as u8))
}

// a number and the byte behind it
pub fn put_field(out: &mut [u8], at: usize, n: usize, end: u8) -> usize
    requires { at + field_size ≤ length out.old }
    ensures { Appended out.old at (number n ++ end ∷ []) out.new result }
{
    let next = put_digits(out, at, 4, n);
    put_byte(out, next, end)
}

// how far a vote is from zero
fn size(vote: i16) -> usize
    ensures { result ≡ size_of vote }
{
    if vote < 0 {
        let below = -1 - vote;
        return below as usize + 1;
    }
    vote as usize
}

// a vote, with a minus sign below zero, and byte 10
pub fn put_vote(out: &mut [u8], at: usize, vote: i16) -> usize
    requires { at + vote_size ≤ length out.old }
    ensures { Appended out.old at (signed vote ++ 10 ∷ []) out.new result }
{
    let n = size(vote);
    if vote < 0 {
        let next = put_byte(out, at, b'-');
        return put_field(out, next, n, 10);
    }
    put_field(out, at, n, 10)
}

// the word of a fate and a space
fn put_fate(out: &mut [u8], at: usize, fate: u8) -> usize
    requires { at + fate_size ≤ length out.old }
    ensures { Appended out.old at (fate_word fate ++ 32 ∷ []) out.new result }
{
    if fate == 0 {
        return put_byte(out, at, b' ');
    }
    if fate == 1 {
        return put_word(out, at, b"fix ");
    }
    put_word(out, at, b"strike ")
}

// "carry the shift after the stand" (W-204): the numbers of a pair, as diary lines and pair lines have them, a space behind each but the last
fn put_pair(out: &mut [u8], at: usize, surveyor: u8, stand: u8, shift: u8, end: u8) -> usize
    requires { at + pair_line_size ≤ length out.old }
    ensures { Appended out.old at (pair_text surveyor stand shift end) out.new result }
{
    let next = put_field(out, at, surveyor as usize, b' ');
    let next = put_field(out, next, stand as usize, b' ');
    put_field(out, next, shift as usize, end)
}

// "Diary lines are fate, surveyor, stand, rule", and the shift after the stand (W-204)
fn put_record(
    out: &mut [u8],
    at: usize,
    fate: u8,
    surveyor: u8,
    stand: u8,
    shift: u8,
    rule: u8,
) -> usize
    requires { at + diary_line_size ≤ length out.old }
    ensures { Appended out.old at
        (diary_line (record { fate = fate; surveyor = surveyor; stand = stand; shift = shift; rule = rule })) out.new result }
{
    let next = put_fate(out, at, fate);
    let next = put_pair(out, next, surveyor, stand, shift, b' ');
    put_field(out, next, rule as usize, b'\n')
}

// the lines of a flat diary's first records
pub fn put_diary(out: &mut [u8], at: usize, flat: &[u8], n: usize) -> usize
    requires { (record_width * n ≤ length flat.now) × (at + diary_line_size * n ≤ length out.old) }
    ensures { Appended out.old at (texts (diary_at flat.now) n) out.new result }
{
    let mut next = at;
    for i in 0..n {
        let b = RECORD_WIDTH * i;
        next = put_record(
            out,
            next,
            flat[b],
            flat[b + 1],
            flat[b + 2],
            flat[b + 3],
            flat[b + 4],
        );
    }
    next
}

// "Pair lines are surveyor, stand", and the shift after the stand (W-204): the lines of the first pairs of some pair bytes
pub fn put_pairs(out: &mut [u8], at: usize, pairs: &[u8], n: usize) -> usize
    requires { (pair_width * n ≤ length pairs.now) × (at + pair_line_size * n ≤ length out.old) }
    ensures { Appended out.old at (texts (pair_at pairs.now) n) out.new result }
{
    let mut next = at;
    for i in 0..n {
        let p = pair_bytes::get(pairs, PAIR_WIDTH * i, true);
        next = put_pair(out, next, p.surveyor, p.stand, p.shift, b'\n');
    }
    next
}

// "K counts them": a word with a space behind it, the count, and so many pair lines
fn put_counted(out: &mut [u8], at: usize, word: &[u8], pairs: &[u8], n: usize) -> usize
    requires { (pair_width * n ≤ length pairs.now) × (at + length word.now + field_size + pair_line_size * n ≤ length out.old) }
    ensures { Appended out.old at (counted_text word.now pairs.now n) out.new result }
{
    let next = put_word(out, at, word);
    let next = put_field(out, next, n, b'\n');
    put_pairs(out, next, pairs, n)
}

// the pairs of plan bytes, behind their count
pub fn put_plan(out: &mut [u8], at: usize, word: &[u8], plan: &[u8]) -> usize
    requires { Counted plan.now × (at + length word.now + field_size + pair_line_size * plan_limit ≤ length out.old) }
    ensures { Appended out.old at (plan_text word.now plan.now) out.new result }
{
    let n = plan[0] as usize;
    put_counted(out, at, word, &plan[1..], n)
}

// "none rivalled V", "candidate K" and its pairs, "rival K" and its pairs
fn put_rivalled(out: &mut [u8], at: usize, vote: i16, plan: &[u8], rival: &[u8]) -> usize
    requires { Counted plan.now × Counted rival.now × (at + rivalled_size ≤ length out.old) }
    ensures { Appended out.old at (rivalled_text vote plan.now rival.now) out.new result }
{
    let next = put_word(out, at, b"none rivalled ");
    let next = put_vote(out, next, vote);
    let next = put_plan(out, next, b"candidate ", plan);
    put_plan(out, next, b"rival ", rival)
}

// the ending of an answer that is none
pub fn put_none(
    out: &mut [u8],
    at: usize,
    kind: NoneKind,
    left: &[u8],
    plan: &[u8],
    rival: &[u8],
) -> usize
    requires { NoneHeld kind left.now plan.now rival.now × (at + ending_size ≤ length out.old) }
    ensures { Appended out.old at (none_text kind left.now plan.now rival.now) out.new result }
{
    match kind {
        NoneKind::Left(n) => put_counted(out, at, b"none left ", left, n),
        NoneKind::Rivalled(vote) => put_rivalled(out, at, vote, plan, rival),
    }
}

// the word of a group and byte 10
fn put_group(out: &mut [u8], at: usize, group: Group) -> usize
    requires { at + group_size ≤ length out.old }
    ensures { Appended out.old at (group_text group) out.new result }
{
    match group {
        Group::Form => put_word(out, at, b"form\n"),
        Group::Content => put_word(out, at, b"content\n"),
        Group::Plan => put_word(out, at, b"plan\n"),
        Group::Desk => put_word(out, at, b"desk\n"),
    }
}

// "refused N GROUP"
pub fn put_refused(out: &mut [u8], at: usize, number: u8, group: Group) -> usize
    requires { at + refused_size ≤ length out.old }
    ensures { Appended out.old at (refused_text number group) out.new result }
{
    let next = put_word(out, at, b"refused ");
    let next = put_field(out, next, number as usize, b' ');
    put_group(out, next, group)
}
