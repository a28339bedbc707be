//! A line is read word by word, and its first fault found.

ghost use Rattle.std.specs.Prelude.{◌≡◌, ◌≢◌, ◌<◌, ◌≤◌, length, IfSome, MatchOption};
ghost use Rattle.sheet.specs.Commands.{Begins};
ghost use Rattle.sheet.specs.Lines.{arguments};
ghost use Rattle.sheet.specs.Readers.{seen_line, words_left};
ghost use Rattle.sheet.specs.Readings.{NumbersOf, Reads, command_of, noted};

use crate::command::{Command, Fault};
use crate::keyword::{Keyword, Stage};
use crate::lexer::Lexer;
use crate::line::Line;
use crate::refusal::SheetRefusal;
use crate::token::Token;
use network::Numbers;

// The most numbers that follow a keyword. An array of so many and no `Vec`: it is taken apart by place, and needs no memory.
const MOST_NUMBERS: usize = 7;

// The keyword that a line begins with, and the words after it.
fn open<'a>(line: Line<'a>) -> Option<(Keyword, Lexer<'a>)>
    ensures keyword { MatchOption result ((k : Keyword) → Begins (seen_line line.entry) k → ⊥) (λ p. Begins (seen_line line.entry) p.0) }
    ensures words { IfSome result (λ p. words_left p.1 ≡ arguments (seen_line line.entry)) }
{
    let mut words = Lexer::new(line.text);
    let keyword = Keyword::of(words.next()?.word().bytes)?;
    Some((keyword, words))
}

// What is known of words with one token more, at an index: their numbers, or the fault of the first that is none.
fn noted(
    known: Result<[u32; MOST_NUMBERS], Fault>,
    index: usize,
    token: Token,
) -> Result<[u32; MOST_NUMBERS], Fault>
    requires { index < 7 }
    ensures { result ≡ noted known index token.entry }
{
    let mut values = known?;
    match token {
        Token::Number(_, value) => values[index] = value,
        Token::Word(word) => return Err(word.fault(SheetRefusal::NotANumber)),
    }
    Ok(values)
}

// The numbers that words are, or the fault of the first that is none, if there are as many words as wanted; values
// past the words mean nothing. Each word is read once, and none past the first that is too many.
fn numbers(mut words: Lexer, wanted: usize) -> Option<Result<[u32; MOST_NUMBERS], Fault>>
    requires { wanted ≤ 7 }
    ensures counted { MatchOption result (length (words_left words.entry) ≢ wanted) (λ r. length (words_left words.entry) ≡ wanted) }
    ensures known { IfSome result (NumbersOf (words_left words.entry)) }
{
    let mut known = Ok([0; MOST_NUMBERS]);
    for index in 0..wanted {
        known = noted(known, index, words.next()?);
    }
    words.next().is_none().then_some(known)
}

// What a keyword and the numbers after it ask for.
fn command(keyword: Keyword, values: [u32; MOST_NUMBERS]) -> Command
    ensures { result ≡ command_of keyword values }
{
    match keyword {
        Keyword::Net => {
            let [nodes, speed, tick, forwarding, cycle, ..] = values;
            Command::Net(Numbers {
                nodes,
                speed,
                tick,
                forwarding,
                cycle,
            })
        }
        Keyword::Link => {
            let [from, to, ..] = values;
            Command::Link(from, to)
        }
        Keyword::Ready => Command::Ready,
        Keyword::Flow
        | Keyword::Drop
        | Keyword::Bar
        | Keyword::Lift
        | Keyword::Gates
        | Keyword::Faults => Command::Planner(keyword),
    }
}

// What a line asks for at a stage of its sheet, or the first of its faults.
pub(crate) fn read(line: Line, stage: Stage) -> Result<Command, Fault>
    ensures { Reads stage (seen_line line.entry) result }
{
    let (keyword, words) = open(line).ok_or(line.text.fault(SheetRefusal::UnknownWord))?;
    let known = numbers(words, keyword.arity()).ok_or(line.text.fault(SheetRefusal::WordCount))?;
    let values = known?;
    if !keyword.belongs(stage) {
        return Err(line.text.fault(SheetRefusal::OtherSide));
    }
    Ok(command(keyword, values))
}
