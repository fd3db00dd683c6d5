// The lines that the programs print, as bytes. Document 01, "Two programs". Each ends with one newline.
ghost use Rattle.std.specs.Prelude.{◌+◌, ◌≤◌, ◌++◌, length};
ghost use Rattle.definitions.specs.Offset.{trop_of};
ghost use Rattle.definitions.specs.Verdict.{accepted, refused};
ghost use Rattle.definitions.specs.Programs.{text_least, span_decimal, class_words, refused_line, verdict_line};
ghost use Rattle.printing.specs.Text.{Putting, line_most};

use crate::text::{copy, put_decimal};
use records::limits::{INFEASIBLE, OFFSET, OPTIMAL, UNBOUNDED};
use records::refusal::Refusal;

// Room enough for every line.
pub const LINE_MOST: usize = 64;

// Puts a span, an offset number, in decimal, a negative one with a minus; a blank one has no digits.
fn put_span(line: &mut [u8], at: usize, span: u64) -> usize
    requires { at + 21 ≤ length line.old }
    ensures { Putting line.old at (span_decimal (trop_of span)) line.new result × (result ≤ at + 21) }
{
    if span == 0 {
        return at;
    }
    if OFFSET <= span {
        return put_decimal(line, at, span - OFFSET);
    }
    let next = copy(line, at, b"-");
    put_decimal(line, next, OFFSET - span)
}

// Puts `least ` and the span.
fn put_least(line: &mut [u8], at: usize, span: u64) -> usize
    requires { at + 27 ≤ length line.old }
    ensures { Putting line.old at (text_least ++ span_decimal (trop_of span)) line.new result × (result ≤ at + 27) }
{
    let next = copy(line, at, b"least ");
    put_span(line, next, span)
}

// Puts the class in words, then the span for least. A number that is no class has no words.
fn put_class(line: &mut [u8], at: usize, class: u64, span: u64) -> usize
    requires { at + 27 ≤ length line.old }
    ensures { Putting line.old at (class_words class (trop_of span)) line.new result × (result ≤ at + 27) }
{
    match class {
        OPTIMAL => put_least(line, at, span),
        UNBOUNDED => copy(line, at, b"bottomless"),
        INFEASIBLE => copy(line, at, b"none"),
        0 | 4.. => at,
    }
}

// Puts the line of an accepted answer. Public for `output::writer`.
pub fn accepted_line(line: &mut [u8], class: u64, span: u64) -> usize
    requires { line_most ≤ length line.old }
    ensures { Putting line.old 0 (verdict_line (accepted class (trop_of span))) line.new result × (result ≤ line_most) }
{
    let a = copy(line, 0, b"accepted ");
    let b = put_class(line, a, class, span);
    copy(line, b, b"\n")
}

// Puts the line of a refusal. Public for `output::writer`.
pub fn refused_line(line: &mut [u8], number: usize) -> usize
    requires { line_most ≤ length line.old }
    ensures { Putting line.old 0 (refused_line number) line.new result × (result ≤ line_most) }
{
    let a = copy(line, 0, b"refused ");
    let b = put_decimal(line, a, number as u64);
    copy(line, b, b"\n")
}

// Puts the line of a verdict that turns an answer away: a form that is right is told in words. Public for `output::writer`.
pub fn turned_away_line(line: &mut [u8], number: usize) -> usize
    requires { line_most ≤ length line.old }
    ensures { Putting line.old 0 (verdict_line (refused number)) line.new result × (result ≤ line_most) }
{
    if number == Refusal::NotCertified.number() {
        copy(line, 0, b"not certified\n")
    } else {
        refused_line(line, number)
    }
}
