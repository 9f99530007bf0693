// The words of a command line of the program, explained.

use crate::known::nearest;
use std::alloc::{AllocError, Global};

/// An option of `sim`, and the greatest number that it may have. The least is 1.
struct Size(&'static str, u32);

const OPTIONS: [Size; 3] = [
    Size("--nodes", 15),
    Size("--shards", 15),
    Size("--slots", 1024),
];

const NAMES: [&str; 3] = ["--nodes", "--shards", "--slots"];

const FORMS: [&str; 2] = ["sim", "gen"];

/// Appends what the nearest known name is.
fn push_nearest(
    alloc: Global,
    out: &mut String,
    word: &str,
    names: &[&str],
) -> Result<(), AllocError> {
    match nearest(alloc, word, names)? {
        Some(name) => write!(out, "; the nearest is {name}\n"),
        None => {
            out.push_str("; there are")?;
            for name in names {
                write!(out, " {name}")?;
            }
            out.push_str("\n")
        }
    }
}

/// The greatest number of an option, if there is such an option.
fn most_of(name: &str) -> Option<u32> {
    OPTIONS
        .iter()
        .find(|option| option.0 == name)
        .map(|option| option.1)
}

/// Explains the value of an option, if it is out of range.
fn push_value(out: &mut String, name: &str, value: &str, most: u32) -> Result<(), AllocError> {
    match value.parse::<u32>() {
        Ok(number) if 1 <= number && number <= most => Ok(()),
        _ => write!(
            out,
            "word {name}: {value:?} is no whole number from 1 to {most}\n"
        ),
    }
}

/// What the next word is to be.
#[derive(Clone, Copy)]
enum Next<'a> {
    /// An option.
    Option,
    /// The value of this option, which is this number at most.
    Value(&'a str, u32),
    /// Maybe the value of an option that there is not.
    Unknown,
}

/// Whether a name is among others.
fn is_among(names: &[&str], name: &str) -> bool {
    names.iter().any(|other| *other == name)
}

/// Explains an option, which may have its value with it.
fn push_option<'a>(
    alloc: Global,
    out: &mut String,
    word: &'a str,
    met: &mut Vec<&'a str>,
) -> Result<Next<'a>, AllocError> {
    let (name, value) = match word.split_once('=') {
        Some((name, value)) => (name, Some(value)),
        None => (word, None),
    };
    let Some(most) = most_of(name) else {
        write!(out, "word {word}: there is no such option")?;
        push_nearest(alloc, out, name, &NAMES)?;
        return Ok(match value {
            Some(_) => Next::Option,
            None => Next::Unknown,
        });
    };
    if is_among(met.as_slice(), name) {
        write!(out, "word {name}: it stands there twice\n")?;
    }
    met.push(name)?;
    match value {
        Some(value) => {
            push_value(out, name, value, most)?;
            Ok(Next::Option)
        }
        None => Ok(Next::Value(name, most)),
    }
}

/// Explains the options of `sim`.
fn push_options(alloc: Global, out: &mut String, words: &[String]) -> Result<(), AllocError> {
    let mut met: Vec<&str> = Vec::new(alloc);
    let mut next = Next::Option;
    for word in words {
        let word = word.as_str();
        next = match next {
            Next::Value(name, most) => {
                push_value(out, name, word, most)?;
                Next::Option
            }
            Next::Unknown if !word.starts_with("--") => Next::Option,
            Next::Unknown | Next::Option => push_option(alloc, out, word, &mut met)?,
        };
    }
    match next {
        Next::Value(name, most) => {
            write!(
                out,
                "word {name}: a whole number from 1 to {most} is to follow it\n"
            )
        }
        Next::Option | Next::Unknown => Ok(()),
    }
}

/// Explains words that the program does not take.
pub fn push_words(alloc: Global, out: &mut String, words: &[String]) -> Result<(), AllocError> {
    let Some((form, rest)) = words.split_first() else {
        return out.push_str("there is no word; the first is sim or gen\n");
    };
    match form.as_str() {
        "sim" => push_options(alloc, out, rest),
        "gen" => match rest {
            [number] if number.as_str().parse::<u64>().is_ok() => Ok(()),
            _ => out.push_str(
                "word gen: one whole number from 0 to 18446744073709551615 is to follow it\n",
            ),
        },
        "run" => out.push_str("word run: the lab reads the scripts of sim alone\n"),
        word => {
            write!(out, "word {word}: it is none of the forms")?;
            push_nearest(alloc, out, word, &FORMS)
        }
    }
}
