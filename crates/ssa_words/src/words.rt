//! Reads the words behind the program's own name.
ghost use Rattle.std.specs.Prelude.{◌≡◌, ◌≤◌, ◌∷◌, [], MatchResult, Some, codes, is_some, map, true};
ghost use Rattle.clap.specs.Words.{first_of, found_of, rows_of, subcommand_rows_of};
ghost use Rattle.ssa_words.specs.Calls.{HasDepthAtMost, HasStatusAtMost, IsCall, IsCallOf, IsDepth, IsMatched, IsThrough, IsUsage, IsWhole, IsWholeMatch, has_texts, was_given};
ghost use Rattle.ssa_words.specs.Table.{IsStatus};

use crate::call::Call;
use crate::table::program;
use crate::usage::Usage;
use clap::ArgMatches;
use clap::parser::ValueSource;
use ssa_reverse::depth::Depth;
use std::alloc::Global;
use std::convert::AsStr;

/// Reads the words behind the program's own name. The texts of the call are lent from them.
pub fn read_words<'a, S: AsStr>(alloc: Global, words: &'a [S]) -> Result<Call<'a>, Usage>
    ensures { MatchResult result (IsCall (map S.text words.entry.now))
        (IsUsage (map S.text words.entry.now)) }
{
    match program(alloc, subresources())?.try_get_matches_from(words) {
        Ok(matches) => Ok(call(&matches)),
        Err(fault) => Err(Usage::of(alloc, fault)),
    }
}

// The subresources that a command may act through: there is one.
fn subresources<'a>() -> &'a [&'a str]
    ensures { IsStatus result }
{
    &["status"]
}

// The call that was matched.
fn call<'a>(matches: &ArgMatches<'a>) -> Call<'a>
    requires { IsWholeMatch (subcommand_rows_of matches.now) }
    ensures { IsMatched (subcommand_rows_of matches.now) result }
{
    let (name, found) = matches.subcommand().unwrap();
    call_of(name, found)
}

fn call_of<'a>(name: &str, found: &ArgMatches<'a>) -> Call<'a>
    requires { IsWhole name.now (rows_of (found_of found.now)) }
    ensures { IsCallOf name.now (rows_of (found_of found.now)) result }
{
    match name {
        "init" => init(found),
        "apply" => apply(found),
        "update" => update(found),
        "strip" => Call::Strip {
            bench: bench(found),
        },
        "undo" => Call::Undo {
            bench: bench(found),
        },
        "redo" => Call::Redo {
            bench: bench(found),
        },
        "show" => show(found),
        "owners" => owners(found),
        "log" => Call::Log {
            bench: bench(found),
        },
        "session" => Call::Session {
            bench: bench(found),
        },
        _ => unreachable!("the word is one of the table"),
    }
}

// The text that was matched for an argument.
fn text<'a>(found: &ArgMatches<'a>, id: &str) -> &'a str
    requires { is_some (first_of id.now (rows_of (found_of found.now))) ≡ true }
    ensures { first_of id.now (rows_of (found_of found.now)) ≡ Some result.now }
{
    found.get_str(id).unwrap()
}

fn bench<'a>(found: &ArgMatches<'a>) -> &'a str
    requires { has_texts (rows_of (found_of found.now)) (codes "BENCH" ∷ []) ≡ true }
    ensures { first_of (codes "BENCH") (rows_of (found_of found.now)) ≡ Some result.now }
{
    text(found, "BENCH")
}

// Whether the words have the flag.
fn is_given(found: &ArgMatches<'_>, name: &str) -> bool
    ensures { result ≡ was_given name.now (rows_of (found_of found.now)) }
{
    match found.value_source(name) {
        Some(ValueSource::CommandLine) => true,
        Some(ValueSource::DefaultValue) => false,
        None => false,
    }
}

// Whether the command acts through `status`, the one subresource that is matched.
fn is_through_status(found: &ArgMatches<'_>) -> bool
    requires { HasStatusAtMost (rows_of (found_of found.now)) }
    ensures { IsThrough (rows_of (found_of found.now)) result }
{
    found.get_str("subresource").is_some()
}

fn init<'a>(found: &ArgMatches<'a>) -> Call<'a>
    requires texts { has_texts (rows_of (found_of found.now))
        (codes "SCHEMA" ∷ codes "OBJECT" ∷ codes "BENCH" ∷ codes "depth" ∷ []) ≡ true }
    requires depth { HasDepthAtMost (rows_of (found_of found.now)) }
    ensures { IsCallOf (codes "init") (rows_of (found_of found.now)) result }
{
    Call::Init {
        schema: text(found, "SCHEMA"),
        object: text(found, "OBJECT"),
        bench: text(found, "BENCH"),
        depth: depth(found),
    }
}

// The number of the depth that was matched, by the words or by its default.
fn depth_number(found: &ArgMatches<'_>) -> u16
    requires texts { has_texts (rows_of (found_of found.now)) (codes "depth" ∷ []) ≡ true }
    requires depth { HasDepthAtMost (rows_of (found_of found.now)) }
    ensures value { IsDepth (rows_of (found_of found.now)) result }
    ensures least { 1 ≤ result }
    ensures most { result ≤ 1000 }
{
    match text(found, "depth").parse::<u16>() {
        Ok(number) => number,
        Err(_) => unreachable!("a number from 1 to 1,000 is matched"),
    }
}

fn depth(found: &ArgMatches<'_>) -> Depth
    requires texts { has_texts (rows_of (found_of found.now)) (codes "depth" ∷ []) ≡ true }
    requires depth { HasDepthAtMost (rows_of (found_of found.now)) }
    ensures { IsDepth (rows_of (found_of found.now)) result }
{
    match Depth::new(depth_number(found)) {
        Some(depth) => depth,
        None => unreachable!("the number is from 1 to 1,000"),
    }
}

fn apply<'a>(found: &ArgMatches<'a>) -> Call<'a>
    requires texts { has_texts (rows_of (found_of found.now))
        (codes "BENCH" ∷ codes "FILE" ∷ codes "at" ∷ codes "field-manager" ∷ []) ≡ true }
    requires status { HasStatusAtMost (rows_of (found_of found.now)) }
    ensures { IsCallOf (codes "apply") (rows_of (found_of found.now)) result }
{
    Call::Apply {
        bench: text(found, "BENCH"),
        file: text(found, "FILE"),
        at: text(found, "at"),
        manager: text(found, "field-manager"),
        status: is_through_status(found),
        force: is_given(found, "force-conflicts"),
    }
}

fn update<'a>(found: &ArgMatches<'a>) -> Call<'a>
    requires texts { has_texts (rows_of (found_of found.now))
        (codes "BENCH" ∷ codes "FILE" ∷ codes "at" ∷ codes "field-manager" ∷ []) ≡ true }
    requires status { HasStatusAtMost (rows_of (found_of found.now)) }
    ensures { IsCallOf (codes "update") (rows_of (found_of found.now)) result }
{
    Call::Update {
        bench: text(found, "BENCH"),
        file: text(found, "FILE"),
        at: text(found, "at"),
        manager: text(found, "field-manager"),
        status: is_through_status(found),
    }
}

fn show<'a>(found: &ArgMatches<'a>) -> Call<'a>
    requires { has_texts (rows_of (found_of found.now)) (codes "BENCH" ∷ []) ≡ true }
    ensures { IsCallOf (codes "show") (rows_of (found_of found.now)) result }
{
    Call::Show {
        bench: text(found, "BENCH"),
        managed: is_given(found, "show-managed-fields"),
    }
}

fn owners<'a>(found: &ArgMatches<'a>) -> Call<'a>
    requires { has_texts (rows_of (found_of found.now))
        (codes "BENCH" ∷ codes "PATH" ∷ []) ≡ true }
    ensures { IsCallOf (codes "owners") (rows_of (found_of found.now)) result }
{
    Call::Owners {
        bench: text(found, "BENCH"),
        path: text(found, "PATH"),
    }
}
