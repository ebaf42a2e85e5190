// nil [--as NAME] WORD [FILE ..]: prints what WORD says of a trace, saves the tables that it leaves, compares saved tables, or applies a list.
// All that it decides itself is what its words mean; the reading of traces and lists, the steps and the text are libraries.
// NAME stands before its complaints, for a script by which it was started.
#![tactic(auto)]

mod applying;
mod comparing;
mod files;
mod listing;
mod refusing;
mod saving;

use applying::apply_files;
use comparing::compare_files;
use files::{Console, LONGEST, length_of};
use listing::print_view;
use saving::save_trace;
use std::env::FillError;
use std::io;
use std::io::Write;
use std::rt::Env;
use text::views::View;

// What a word asks for.
#[derive(Clone, Copy)]
enum Asked {
    Print(View),
    Save,
    Compare,
    Apply,
    Help,
    Unknown,
}

// The table of words.
fn asked_by(word: &[u8]) -> Asked {
    match word {
        b"list" => Asked::Print(View::Lines),
        b"tables" => Asked::Print(View::AllTables),
        b"why" => Asked::Print(View::Wakings),
        b"account" => Asked::Print(View::Sums),
        b"save" => Asked::Save,
        b"compare" => Asked::Compare,
        b"apply" => Asked::Apply,
        b"--help" => Asked::Help,
        _ => Asked::Unknown,
    }
}

// How many files a word asks for: at least, and at most.
#[derive(Clone, Copy)]
struct Wanted {
    least: u8,
    most: u8,
}

// Help passes over one file. A word that is not in the table is refused with one word behind it or none; with more, the second behind it is.
fn wanted_by(asked: Asked) -> Wanted {
    match asked {
        Asked::Save => Wanted { least: 1, most: 2 },
        Asked::Compare => Wanted { least: 2, most: 2 },
        Asked::Apply => Wanted { least: 3, most: 3 },
        Asked::Print(_) | Asked::Help | Asked::Unknown => Wanted { least: 0, most: 1 },
    }
}

fn print_usage<W: Write>(to: &mut W) -> io::Result<()> {
    to.write_all(
        b"usage: nil [--as NAME] WORD [FILE ..]\n\
        Prints what WORD says of a trace, read from FILE or from standard input:\n  \
        list      a line for each step: record, code, running, woken, finished\n  \
        tables    these, and after each the answer and all tables\n  \
        why       a line for each waking: step, thread, cause, object, message\n  \
        account   what was posted, fetched, lost and added, and who has what\n\
        Or keeps tables:\n  \
        save SAVED [FILE]     those that the trace leaves, saved in a file\n  \
        compare OLD NEW       a line for each field that differs in two such files\n  \
        apply OLD LIST NEW    OLD with such lines applied, saved as NEW\n  \
        --help    this text\n\
        NAME stands before complaints, `nil` without it.\n",
    )
}

// A word that is not in the table, none, one too few, or one too many.
fn refuse(on: Console, why: &[u8], word: &[u8]) -> io::Result<()> {
    on.say(on.name)?;
    on.say(b": ")?;
    on.say(why)?;
    on.say(word)?;
    on.say(b"\n")?;
    let mut err = on.rt.stderr();
    print_usage(&mut err)
}

// What a word asks for, with the files from argument `first` on.
fn answer(on: Console, asked: Asked, first: u16, word: &[u8]) -> io::Result<()> {
    match asked {
        Asked::Print(view) => print_view(on, first as usize, view),
        Asked::Save => save_trace(on, first),
        Asked::Compare => compare_files(on, first),
        Asked::Apply => apply_files(on, first),
        Asked::Help => {
            let mut out = on.rt.stdout();
            print_usage(&mut out)
        }
        Asked::Unknown => refuse(on, b"wrong word: ", word),
    }
}

// Whether there is an argument i.
fn is_given(rt: &HostRuntime, i: usize) -> bool {
    let mut word = [0u8; LONGEST];
    !matches!(rt.arg(i, &mut word), Err(FillError::NotPresent))
}

// The words from argument `first` on, which is 1 or 3.
fn run(on: Console, first: u8) -> io::Result<()> {
    let mut word = [0u8; LONGEST];
    let n = length_of(on.rt, first as usize, &mut word);
    let asked = asked_by(&word[..n]);
    let wanted = wanted_by(asked);
    let files = first as usize + 1;
    let mut more = [0u8; LONGEST];
    match on.rt.arg(files + wanted.most as usize, &mut more) {
        Ok(k) => return refuse(on, b"wrong word: ", &more[..k]),
        Err(FillError::TooLong) => return refuse(on, b"wrong word: ", b""),
        Err(FillError::NotPresent) => {}
    }
    // the word is argument `first`, and its files follow
    if wanted.least == 0 || is_given(on.rt, first as usize + wanted.least as usize) {
        answer(on, asked, first as u16 + 1, &word[..n])
    } else {
        refuse(on, b"too few files for ", &word[..n])
    }
}

fn main(rt: HostRuntime) -> io::Result<()> {
    let mut word = [0u8; LONGEST];
    let n = length_of(&rt, 1, &mut word);
    if &word[..n] == b"--as".as_slice() {
        let k = length_of(&rt, 2, &mut word);
        run(
            Console {
                rt: &rt,
                name: &word[..k],
            },
            3,
        )
    } else {
        run(
            Console {
                rt: &rt,
                name: b"nil",
            },
            1,
        )
    }
}
