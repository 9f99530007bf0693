//! The program `board_races`: data seats and a control seat race on a board of one node, as many rounds as its word says, on a board of
//! words without a lock and on a plain board behind its lock. Both are played through the traits by which workers ask a board.
//!
//! It prints whether each round ended as it must, and on standard error how many ended in which way.
#![tactic(auto)]

mod boards;
#[cfg(test)]
mod calls;
mod control;
mod data;
mod fates;
mod round;
mod start;
#[cfg(test)]
mod tests;

use boards::{race_on_a_lock, race_on_words};
use fates::Fates;
use std::alloc::{AllocError, Global};
use std::env;
use std::process::ExitCode;
use std::rt::Env;
use std::sync::Wait;
use std::thread::Threads;

/// The number that a text writes in decimal digits, without a sign or a leading zero.
fn number(text: &str) -> Option<u32> {
    if text.starts_with('+') || (text.len() > 1 && text.starts_with('0')) {
        return None;
    }
    text.parse::<u32>().ok()
}

/// The number of rounds, which is the one word after the program's name.
fn rounds<R: Env + AllocGlobal>(rt: &R) -> Option<u32> {
    let Ok(args) = env::args(rt) else {
        return None;
    };
    let mut args = args.skip(1);
    let word = args.next()?;
    if args.next().is_some() {
        return None;
    }
    number(word.as_str())
}

/// How the rounds went on each of the two boards.
#[derive(Drop)]
struct Races {
    on_words: Fates,
    on_a_lock: Fates,
}

/// Races the rounds one after the other, each on both boards.
fn race_all<R: Threads + Wait + Sync>(
    rt: &R,
    alloc: Global,
    rounds: u32,
) -> Result<Races, AllocError> {
    let mut races = Races {
        on_words: Fates::default(),
        on_a_lock: Fates::default(),
    };
    for round in 0..rounds {
        races.on_words.add(race_on_words(rt, alloc, round)?);
        races.on_a_lock.add(race_on_a_lock(rt, alloc, round)?);
    }
    Ok(races)
}

fn main(rt: HostRuntime) -> ExitCode {
    let Some(rounds) = rounds(&rt) else {
        let _ = eprintln!(rt; "usage: board_races ROUNDS");
        return ExitCode::from(2);
    };
    let Ok(
        Races {
            on_words,
            on_a_lock,
        },
    ) = race_all(&rt, rt.alloc(), rounds)
    else {
        let _ = eprintln!(rt; "board_races: out of memory");
        return ExitCode::from(4);
    };
    let _ = eprintln!(rt; "without a lock\n{on_words}\nbehind a lock\n{on_a_lock}");
    let (of_words, of_the_lock) = (on_words.wrong(), on_a_lock.wrong());
    let _ = println!(rt; "without a lock: {rounds} rounds, of which {of_words} were wrong");
    let _ = println!(rt; "behind a lock: {rounds} rounds, of which {of_the_lock} were wrong");
    ExitCode::from(if of_words == 0 && of_the_lock == 0 {
        0
    } else {
        1
    })
}
