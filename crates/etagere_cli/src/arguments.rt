//! The arguments that the program knows, and what its help says of them.

use clap::{Arg, ArgAction, Command};
use std::alloc::{AllocError, Global};

/// A subcommand, as its help tells of it.
#[derive(Clone, Copy)]
struct Entry {
    name: &'static str,
    about: &'static str,
    after: &'static str,
    arguments: &'static [Argument],
}

/// An argument of a subcommand.
#[derive(Clone, Copy)]
struct Argument {
    name: &'static str,
    kind: Kind,
    help: &'static str,
}

/// How an argument is given.
#[derive(Clone, Copy)]
enum Kind {
    /// By its position among the words.
    Word,
    /// By its position among the words, and it has to be there.
    Needed,
    /// By its name behind `--`, without a value.
    Flag,
    /// By its name behind `--`, with a value that is called this.
    Option(&'static str),
    /// By its name behind `--` or this letter behind `-`, with a value that is called this.
    Lettered(char, &'static str),
}

const JSON: Argument = Argument {
    name: "json",
    kind: Kind::Flag,
    help: "Writes JSON for programs in place of text for people",
};

const OUTPUT: Argument = Argument {
    name: "output",
    kind: Kind::Lettered('o', "OUT"),
    help: "Writes to this file, which has all of it or stays as it was; standard output if it isn't given",
};

const EITHER: Argument = Argument {
    name: "FILE",
    kind: Kind::Word,
    help: "A script, or the JSON text of a snapshot; standard input if it isn't given",
};

const SCRIPT: Argument = Argument {
    name: "FILE",
    kind: Kind::Word,
    help: "A script; standard input if it isn't given",
};

const ENTRIES: [Entry; 6] = [
    Entry {
        name: "explain",
        about: "Says why commands were refused, a line is bad, or a snapshot is broken",
        after: "Example: ./etagere explain examples/readme.atlas",
        arguments: &[OUTPUT, EITHER],
    },
    Entry {
        name: "stats",
        about: "Counts what a script asks for, and says how full it leaves the atlas",
        after: "Example: ./etagere stats --json examples/readme.atlas",
        arguments: &[
            JSON,
            Argument {
                name: "plot",
                kind: Kind::Flag,
                help: "Draws fill, live and refusals over the commands of a script, as SVG",
            },
            OUTPUT,
            EITHER,
        ],
    },
    Entry {
        name: "save",
        about: "Writes the snapshot of the atlas that a script leaves, as JSON",
        after: "Example: ./etagere save -o saved.json examples/readme.atlas",
        arguments: &[OUTPUT, SCRIPT],
    },
    Entry {
        name: "resume",
        about: "Goes on from a snapshot: runs commands, and writes their replies",
        after: "What is live in the snapshot has the positions from 0 on, by rising index; the commands have \
            those behind them.\n\nExample: ./etagere resume saved.json more.commands",
        arguments: &[
            Argument {
                name: "live",
                kind: Kind::Flag,
                help: "First lists what the snapshot has live, a line for each position",
            },
            OUTPUT,
            Argument {
                name: "SNAPSHOT",
                kind: Kind::Needed,
                help: "The JSON text of a snapshot of a shelf atlas",
            },
            Argument {
                name: "FILE",
                kind: Kind::Word,
                help: "Commands, a line for each, without a header; standard input if it isn't given",
            },
        ],
    },
    Entry {
        name: "pack",
        about: "Finds places for a list of sizes, on as many pages as it takes",
        after: "A line of the list is W H, W,H or NAME,W,H; one of the answer is PAGE X Y W H NAME.\n\n\
            Example: ./etagere pack 512 512 sprites.csv",
        arguments: &[
            JSON,
            Argument {
                name: "pages",
                kind: Kind::Option("N"),
                help: "Opens at most so many pages; else as many as it takes",
            },
            OUTPUT,
            Argument {
                name: "W",
                kind: Kind::Needed,
                help: "The width of a page, in pixels",
            },
            Argument {
                name: "H",
                kind: Kind::Needed,
                help: "The height of a page, in pixels",
            },
            Argument {
                name: "FILE",
                kind: Kind::Word,
                help: "The list; standard input if it isn't given",
            },
        ],
    },
    Entry {
        name: "watch",
        about: "Writes a page for a browser, which shows the atlas after each command of a script",
        after: "The page needs no network. The keys of the slider step, and #step=N behind its address opens a step.\n\n\
            Example: ./etagere watch -o page.html examples/glyph_page.atlas",
        arguments: &[OUTPUT, SCRIPT],
    },
];

/// The whole program.
pub fn program<'a>(alloc: Global) -> Result<Command<'a>, AllocError> {
    let subcommands = subcommands(alloc)?;
    Command::new(alloc, "etagere")
        .about("Looks into traffic that was recorded as a script, or at a saved atlas")
        .subcommands(subcommands)
}

fn subcommands<'a>(alloc: Global) -> Result<Vec<Command<'a>>, AllocError> {
    let mut subcommands = Vec::new(alloc);
    for entry in &ENTRIES {
        push_subcommand(alloc, &mut subcommands, entry)?;
    }
    Ok(subcommands)
}

fn push_subcommand<'a>(
    alloc: Global,
    subcommands: &mut Vec<Command<'a>>,
    entry: &Entry,
) -> Result<(), AllocError> {
    let subcommand = subcommand(alloc, entry)?;
    subcommands.push(subcommand)?;
    Ok(())
}

fn subcommand<'a>(alloc: Global, entry: &Entry) -> Result<Command<'a>, AllocError> {
    let mut command = described(alloc, entry);
    for argument in entry.arguments {
        command = with_argument(alloc, command, argument)?;
    }
    Ok(command)
}

/// A subcommand without arguments.
fn described<'a>(alloc: Global, entry: &Entry) -> Command<'a> {
    Command::new(alloc, entry.name)
        .about(entry.about)
        .after_help(entry.after)
}

fn with_argument<'a>(
    alloc: Global,
    command: Command<'a>,
    argument: &Argument,
) -> Result<Command<'a>, AllocError> {
    let arg = given(alloc, argument);
    command.arg(arg)
}

fn given<'a>(alloc: Global, argument: &Argument) -> Arg<'a> {
    let arg = new_arg(alloc, argument);
    match argument.kind {
        Kind::Word => arg,
        Kind::Needed => arg.required(true),
        Kind::Flag => arg.long(argument.name),
        Kind::Option(value) => valued(arg, argument.name, value),
        Kind::Lettered(letter, value) => valued(arg, argument.name, value).short(letter),
    }
}

/// An argument that is given by its position.
fn new_arg<'a>(alloc: Global, argument: &Argument) -> Arg<'a> {
    Arg::new(alloc, argument.name)
        .help(argument.help)
        .action(action_of(argument.kind))
}

fn action_of(kind: Kind) -> ArgAction {
    match kind {
        Kind::Flag => ArgAction::SetTrue,
        _ => ArgAction::Set,
    }
}

/// The argument, given by a name, with a value that is called this.
fn valued<'a>(arg: Arg<'a>, name: &'static str, value: &'static str) -> Arg<'a> {
    arg.long(name).value_name(value)
}
