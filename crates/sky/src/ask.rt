// The words that the program is started with.
use crate::copy::Names;
use crate::desk::Desk;
use crate::stop::Refused;
use crate::system::System;
use crate::word::Word;
use crate::{brief, copy, help, info, kept, say, stops, system};
use steps::Reading;

// A line that says what was asked wrongly.
fn wrong(rt: &impl Print, what: &str, word: &[u8]) -> Refused {
    let _ = print!(rt; "sky: {what}");
    say::name(rt, word);
    let _ = println!(rt; "; './sky help' says what can be asked");
    Refused
}

// The word i; no bytes where it is missing or too long.
fn word(rt: &impl System, i: usize) -> Word {
    let mut word = Word::EMPTY;
    word.read(rt, i);
    word
}

// What the words before the names ask for, and the place of the first name.
#[derive(Clone, Copy)]
struct Options {
    reading: Reading,
    brief: bool,
    from: usize,
}

impl Options {
    // Reads the words before the names.
    fn read(rt: &impl System) -> Options {
        let mut options = Options {
            reading: Reading::Document,
            brief: false,
            from: 2,
        };
        for i in 2..system::arg_count(rt) {
            match word(rt, i).as_slice() {
                b"--crate" => options.reading = Reading::Crate,
                b"--brief" => options.brief = true,
                _ => return options,
            }
            options.from = i + 1;
        }
        options
    }
}

// Tells of the file of each word from one on, and answers how many are refused.
fn each_file<F: FnMut(&[u8]) -> Result<(), Refused>>(
    rt: &impl System,
    from: usize,
    mut tell: F,
) -> usize
    requires { F.IsAlwaysCallable tell }
{
    let mut refused = 0usize;
    let mut name = Word::EMPTY;
    for i in from..system::arg_count(rt) {
        let told = match name.read(rt, i) {
            Some(name) => tell(name),
            None => Err(wrong(rt, "a name is too long", b"")),
        };
        if told.is_err() {
            refused = refused.wrapping_add(1);
        }
    }
    refused
}

// What is refused where so many files are.
fn answer_of(refused: usize) -> Result<(), Refused> {
    if refused == 0 { Ok(()) } else { Err(Refused) }
}

// A table of the files from one word on.
fn table<R: System>(rt: &R, options: Options, desk: &mut Desk) -> Result<(), Refused> {
    brief::names(rt);
    let refused = each_file(
        rt,
        options.from,
        |name| brief::tell(rt, options.reading, name, desk),
    );
    let count = system::arg_count(rt).saturating_sub(options.from);
    brief::end(rt, count.saturating_sub(refused), refused);
    answer_of(refused)
}

// Says what each file holds.
fn info<R: System>(rt: &R, desk: &mut Desk) -> Result<(), Refused> {
    let options = Options::read(rt);
    if system::arg_count(rt) <= options.from {
        return Err(wrong(rt, "info wants a file", b""));
    }
    if options.brief {
        return table(rt, options, desk);
    }
    answer_of(each_file(
        rt,
        options.from,
        |name| info::tell(rt, options.reading, name, desk),
    ))
}

// Shows the light of each file.
fn stops<R: System>(rt: &R, desk: &mut Desk) -> Result<(), Refused> {
    let options = Options::read(rt);
    if options.brief {
        return Err(wrong(rt, "stops has no --brief", b""));
    }
    if system::arg_count(rt) <= options.from {
        return Err(wrong(rt, "stops wants a file", b""));
    }
    answer_of(each_file(
        rt,
        options.from,
        |name| stops::tell(rt, options.reading, name, desk),
    ))
}

// Copies as the words after the options say: IN, OUT, and the name under which OUT is written, which who starts the program has chosen.
fn copy<R: System>(rt: &R, desk: &mut Desk) -> Result<(), Refused> {
    let options = Options::read(rt);
    if options.brief {
        return Err(wrong(rt, "copy has no --brief", b""));
    }
    if system::arg_count(rt).saturating_sub(options.from) != 3 {
        return Err(wrong(
            rt,
            "copy wants IN and OUT, and perhaps --force and --crate",
            b"",
        ));
    }
    let name = word(rt, options.from);
    let out = word(rt, options.from + 1);
    let part = word(rt, options.from + 2);
    if name.is_empty() || out.is_empty() || part.is_empty() {
        return Err(wrong(rt, "a name is empty or too long", b""));
    }
    let names = Names {
        name: name.as_slice(),
        out: out.as_slice(),
        part: part.as_slice(),
    };
    copy::copy(rt, options.reading, names, desk)
}

// Says why OUT is left as it is, by the words of who looked: IN, OUT, why, and OUT's folder.
fn kept(rt: &impl System) -> Refused {
    let name = word(rt, 2);
    let out = word(rt, 3);
    let why = word(rt, 4);
    let folder = word(rt, 5);
    kept::tell(
        rt,
        name.as_slice(),
        out.as_slice(),
        why.as_slice(),
        folder.as_slice(),
    )
}

// Does what the words ask.
pub(crate) fn answer<R: System>(rt: &R, desk: &mut Desk) -> Result<(), Refused> {
    if system::arg_count(rt) < 2 {
        return Err(wrong(rt, "nothing is asked", b""));
    }
    let first = word(rt, 1);
    match first.as_slice() {
        b"info" => info(rt, desk),
        b"stops" => stops(rt, desk),
        b"copy" => copy(rt, desk),
        b"kept" => Err(kept(rt)),
        b"help" | b"--help" | b"-h" => {
            help::say(rt);
            Ok(())
        }
        other => Err(wrong(rt, "unknown word ", other)),
    }
}
