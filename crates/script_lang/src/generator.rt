ghost use Rattle.std.specs.Prelude.{◌≡◌, ◌++◌, IfOk, OnOk, string_bytes};
ghost use Rattle.script_lang.specs.Generator.{next_number, document_lines, documents, search_line, reindex_line, shuffle_line, cancel_line, round_lines, rounds, first_lines, last_lines, generated};

use std::alloc::{AllocError, Global};

/// How many documents a generated input has.
const DOCUMENTS: u32 = 20_000;

/// How many rounds its script has.
const ROUNDS: u32 = 50;

/// How many bytes it has at most: 64 a document, and 1,024 a round.
const MAX_BYTES: usize = 1_331_200;

/// The lines between the documents and the rounds.
const FIRST_LINES: &str = r#"--
{"search":{"index":"g","body":{"query":{"term":{"g":3}},"size":0}}}
{"settle":true}
"#;

/// The last line of a round.
const CANCEL_LINE: &str = r#"{"cancel":{"actions":"*reindex*","wait_for_completion":true}}
"#;

/// The lines after the rounds.
const LAST_LINES: &str = r#"{"settle":true}
{"reindex":{"body":{"source":{"index":"g","query":{"term":{"g":3}}},"dest":{"index":"z"}}}}
{"settle":true}
{"list":{}}
{"summary":true}
"#;

/// The number after this one in a sequence that looks like chance.
pub fn next_number(number: u64) -> u64
    ensures { result ≡ next_number number }
{
    number
        .wrapping_mul(6_364_136_223_846_793_005)
        .wrapping_add(1_442_695_040_888_963_407)
}

/// The input that a number makes, for `sim` and three nodes or more.
///
/// It has 20,000 documents, and a script of 207 commands that searches, reindexes and cancels while messages and steps come by
/// chance. The same number makes the same input.
pub fn generate(alloc: Global, number: u64) -> Result<Vec<u8>, AllocError>
    ensures { IfOk result (λ bytes. bytes.items ≡ generated number) }
{
    let mut out = String::with_capacity(alloc, MAX_BYTES)?;
    write_documents(number, DOCUMENTS, &mut out)?;
    write_first(&mut out)?;
    write_rounds(number, ROUNDS, &mut out)?;
    write_last(&mut out)?;
    Ok(out.into_bytes())
}

/// Appends so many documents.
fn write_documents(number: u64, count: u32, out: &mut String) -> Result<(), AllocError>
    ensures { OnOk result (string_bytes out.new ≡ string_bytes out.old ++ documents number count) }
{
    let mut chance = number;
    for id in 0..count {
        chance = next_number(chance);
        write_document(id, chance, out)?;
    }
    Ok(())
}

/// Appends the two lines of a document.
#[tactic(auto, unfolding(crate::specs::Generator::document_lines))]
fn write_document(id: u32, chance: u64, out: &mut String) -> Result<(), AllocError>
    ensures { OnOk result (string_bytes out.new ≡ string_bytes out.old ++ document_lines id chance) }
{
    let group = id % 10;
    let rank = chance >> 44;
    write!(
        out,
        r#"{{"index":{{"_index":"g","_id":"{id}"}}}}
{{"g":{group},"r":{rank}}}
"#
    )
}

/// Appends the lines before the rounds.
#[tactic(auto, unfolding(crate::specs::Generator::first_lines))]
fn write_first(out: &mut String) -> Result<(), AllocError>
    ensures { OnOk result (string_bytes out.new ≡ string_bytes out.old ++ first_lines) }
{
    out.push_str(FIRST_LINES)
}

/// Appends so many rounds.
fn write_rounds(number: u64, count: u32, out: &mut String) -> Result<(), AllocError>
    ensures { OnOk result (string_bytes out.new ≡ string_bytes out.old ++ rounds number count) }
{
    for before in 0..count {
        write_round(number, u64::from(before) + 1, out)?;
    }
    Ok(())
}

/// Appends the four lines of a round.
#[tactic(auto, unfolding(crate::specs::Generator::round_lines))]
fn write_round(number: u64, round: u64, out: &mut String) -> Result<(), AllocError>
    ensures { OnOk result (string_bytes out.new ≡ string_bytes out.old ++ round_lines number round) }
{
    write_search(1 + round % 3, out)?;
    write_reindex(round % 10, out)?;
    write_shuffle(number.wrapping_add(round), out)?;
    write_cancel(out)
}

/// Appends a search by rank on a node.
#[tactic(auto, unfolding(crate::specs::Generator::search_line))]
fn write_search(node: u64, out: &mut String) -> Result<(), AllocError>
    ensures { OnOk result (string_bytes out.new ≡ string_bytes out.old ++ search_line node) }
{
    writeln!(
        out,
        r#"{{"search":{{"index":"g","node":"n{node}","body":{{"sort":["r"],"size":5}}}}}}"#
    )
}

/// Appends a reindex of a group, in two slices.
#[tactic(auto, unfolding(crate::specs::Generator::reindex_line))]
fn write_reindex(group: u64, out: &mut String) -> Result<(), AllocError>
    ensures { OnOk result (string_bytes out.new ≡ string_bytes out.old ++ reindex_line group) }
{
    writeln!(
        out,
        r#"{{"reindex":{{"body":{{"source":{{"index":"g","query":{{"term":{{"g":{group}}}}}}},"dest":{{"index":"h"}}}},"slices":2}}}}"#
    )
}

/// Appends 40 moves by chance.
#[tactic(auto, unfolding(crate::specs::Generator::shuffle_line))]
fn write_shuffle(seed: u64, out: &mut String) -> Result<(), AllocError>
    ensures { OnOk result (string_bytes out.new ≡ string_bytes out.old ++ shuffle_line seed) }
{
    writeln!(out, r#"{{"shuffle":{{"seed":{seed},"moves":40}}}}"#)
}

/// Appends a cancel of every reindex.
#[tactic(auto, unfolding(crate::specs::Generator::cancel_line))]
fn write_cancel(out: &mut String) -> Result<(), AllocError>
    ensures { OnOk result (string_bytes out.new ≡ string_bytes out.old ++ cancel_line) }
{
    out.push_str(CANCEL_LINE)
}

/// Appends the lines after the rounds.
#[tactic(auto, unfolding(crate::specs::Generator::last_lines))]
fn write_last(out: &mut String) -> Result<(), AllocError>
    ensures { OnOk result (string_bytes out.new ≡ string_bytes out.old ++ last_lines) }
{
    out.push_str(LAST_LINES)
}
