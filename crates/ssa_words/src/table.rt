//! The table of words, from which the program's command is built.
ghost use Rattle.std.specs.Prelude.{[], ◌++◌, IfOk};
ghost use Rattle.clap.specs.Words.{App, with_subcommand};
ghost use Rattle.ssa_words.specs.Table as spec;

use clap::builder::ValueParser;
use clap::{Arg, ArgAction, Command, value_parser};
use std::alloc::{AllocError, Global};

// A word that has to stand at its place.
fn place<'a>(alloc: Global, id: &'a str, help: &'a str) -> Arg<'a>
    ensures { spec.IsArg (spec.place id.entry.now) result }
{
    Arg::new(alloc, id).required(true).help(help)
}

fn bench<'a>(alloc: Global) -> Arg<'a>
    ensures { spec.IsArg spec.bench result }
{
    place(alloc, "BENCH", "The file of the bench")
}

fn file<'a>(alloc: Global) -> Arg<'a>
    ensures { spec.IsArg spec.file result }
{
    place(alloc, "FILE", "The file of the object in JSON")
}

fn at<'a>(alloc: Global) -> Arg<'a>
    ensures { spec.IsArg spec.at result }
{
    Arg::new(alloc, "at")
        .long("at")
        .value_name("MOMENT")
        .required(true)
        .help("The time of the command, as 2026-01-02T03:04:05Z")
}

fn field_manager<'a>(alloc: Global) -> Arg<'a>
    ensures { spec.IsArg spec.field_manager result }
{
    Arg::new(alloc, "field-manager")
        .long("field-manager")
        .value_name("NAME")
        .default_value("kubectl")
        .help("The manager that gives the command")
}

// The subresource that the command acts through, by one of these names.
fn subresource<'a>(alloc: Global, names: &'a [&'a str]) -> Arg<'a>
    ensures { spec.IsArg (spec.subresource names.entry) result }
{
    Arg::new(alloc, "subresource")
        .long("subresource")
        .value_name("NAME")
        .value_parser(ValueParser::Names(names))
        .help("The subresource that the command acts through")
}

// How many commands the bench keeps to be undone.
fn depth<'a>(alloc: Global) -> Arg<'a>
    ensures { spec.IsArg spec.depth result }
{
    Arg::new(alloc, "depth")
        .long("depth")
        .value_name("N")
        .value_parser(value_parser!(u16).range(1..=1_000))
        .default_value("1000")
        .help("How many commands can be undone, from 1 to 1000")
}

// `--name`, given or not.
fn flag<'a>(alloc: Global, name: &'a str, help: &'a str) -> Arg<'a>
    ensures { spec.IsArg (spec.flag name.entry.now) result }
{
    Arg::new(alloc, name)
        .long(name)
        .action(ArgAction::SetTrue)
        .help(help)
}

fn init<'a>(alloc: Global) -> Result<Command<'a>, AllocError>
    ensures { IfOk result (spec.IsCommand spec.init) }
{
    Command::new(alloc, "init")
        .about("Makes a bench of a schema and an object")
        .arg(place(alloc, "SCHEMA", "The file of the schema in JSON"))?
        .arg(place(alloc, "OBJECT", "The file of the object in JSON"))?
        .arg(bench(alloc))?
        .arg(depth(alloc))
}

// A word with a bench, a file and a moment.
fn timed<'a>(alloc: Global, name: &'a str, about: &'a str) -> Result<Command<'a>, AllocError>
    ensures { IfOk result (spec.IsCommand (spec.timed name.entry.now [])) }
{
    Command::new(alloc, name)
        .about(about)
        .arg(bench(alloc))?
        .arg(file(alloc))?
        .arg(at(alloc))
}

// The same with a manager and a subresource.
fn writing<'a>(
    alloc: Global,
    subresources: &'a [&'a str],
    name: &'a str,
    about: &'a str,
) -> Result<Command<'a>, AllocError>
    ensures { IfOk result (spec.IsCommand (spec.writing subresources.entry name.entry.now [])) }
{
    timed(alloc, name, about)?
        .arg(field_manager(alloc))?
        .arg(subresource(alloc, subresources))
}

fn apply<'a>(alloc: Global, subresources: &'a [&'a str]) -> Result<Command<'a>, AllocError>
    ensures { IfOk result (spec.IsCommand (spec.apply subresources.entry)) }
{
    let about = "Applies the object of a file";
    writing(alloc, subresources, "apply", about)?.arg(flag(
        alloc,
        "force-conflicts",
        "Takes over what other managers own",
    ))
}

fn update<'a>(alloc: Global, subresources: &'a [&'a str]) -> Result<Command<'a>, AllocError>
    ensures { IfOk result (spec.IsCommand (spec.update subresources.entry)) }
{
    let about = "Updates the object to that of a file";
    writing(alloc, subresources, "update", about)
}

fn show<'a>(alloc: Global) -> Result<Command<'a>, AllocError>
    ensures { IfOk result (spec.IsCommand spec.show) }
{
    Command::new(alloc, "show")
        .about("Shows the object")
        .arg(bench(alloc))?
        .arg(flag(alloc, "show-managed-fields", "Shows the managed fields too"))
}

fn owners<'a>(alloc: Global) -> Result<Command<'a>, AllocError>
    ensures { IfOk result (spec.IsCommand spec.owners) }
{
    Command::new(alloc, "owners")
        .about("Tells the owners of a path")
        .arg(bench(alloc))?
        .arg(place(
            alloc,
            "PATH",
            "The path: a JSON list of the texts of its elements",
        ))
}

// A word with a bench alone.
fn of_bench<'a>(alloc: Global, name: &'a str, about: &'a str) -> Result<Command<'a>, AllocError>
    ensures { IfOk result (spec.IsCommand (spec.of_bench name.entry.now)) }
{
    Command::new(alloc, name).about(about).arg(bench(alloc))
}

// The program without its words.
fn bare<'a>(alloc: Global) -> Result<Command<'a>, AllocError>
    ensures { IfOk result (spec.IsCommand spec.bare) }
{
    Command::new(alloc, "ssabench")
        .about("A workbench for server-side apply")
        .version("1.0.0")
        .no_binary_name(true)
        .subcommand_required(true)
        .disable_help_subcommand(true)
        .bin_name("ssabench")
}

// The program with a word more, where memory gave both.
fn with_word<'a>(
    program: Result<Command<'a>, AllocError>,
    word: Result<Command<'a>, AllocError>,
) -> Result<Command<'a>, AllocError>
    ensures { (a b : App) → IfOk program.entry (spec.IsCommand a) → IfOk word.entry (spec.IsCommand b)
        → IfOk result (spec.IsCommand (with_subcommand a b.top)) }
{
    let program = program?;
    program.subcommand(word?)
}

fn writes<'a>(alloc: Global, subresources: &'a [&'a str]) -> Result<Command<'a>, AllocError>
    ensures { IfOk result (spec.IsCommand (spec.with_words (spec.writes subresources.entry))) }
{
    let with_init = with_word(bare(alloc), init(alloc));
    let with_apply = with_word(with_init, apply(alloc, subresources));
    with_word(with_apply, update(alloc, subresources))
}

fn moves<'a>(alloc: Global, subresources: &'a [&'a str]) -> Result<Command<'a>, AllocError>
    ensures { IfOk result (spec.IsCommand
        (spec.with_words (spec.writes subresources.entry ++ spec.moves))) }
{
    let strip = of_bench(alloc, "strip", "Strips the object of its managers");
    let undo = of_bench(alloc, "undo", "Takes the last command back");
    let redo = of_bench(alloc, "redo", "Carries out again what was taken back");
    let with_strip = with_word(writes(alloc, subresources), strip);
    let with_undo = with_word(with_strip, undo);
    with_word(with_undo, redo)
}

/// The program with all its words, where the subresources have these names.
pub(crate) fn program<'a>(
    alloc: Global,
    subresources: &'a [&'a str],
) -> Result<Command<'a>, AllocError>
    ensures { IfOk result (spec.IsCommand (spec.table subresources.entry)) }
{
    let log = of_bench(alloc, "log", "Tells the commands of the history");
    let session = of_bench(
        alloc,
        "session",
        "Holds a session over standard input and output",
    );
    let with_show = with_word(moves(alloc, subresources), show(alloc));
    let with_owners = with_word(with_show, owners(alloc));
    let with_log = with_word(with_owners, log);
    with_word(with_log, session)
}
