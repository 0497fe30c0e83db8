//! Reads a table of plans, of modules and of types with what is asked of each, and prints the same table with what came of it, for a
//! comparison with values that were worked out apart from the program.
//!
//! A line `block NAME HEAD` begins a block, whose lines below it speak of what its head is: a plan; the bytes of a module (`modules` of
//! `line_tests`, as all that is named below and is not here); or, behind `types`, the types that a plan has or words make (`made`); or, behind
//! `source`, types that are converted (`conversions`). Where it is `tests`, the lines are names of tests of the libraries (`type_tests`,
//! `host_tests`). Each of them is answered by one line: the name, the number of the line in its block, and what came, or why the head makes
//! no types. A line that begins with `#` is copied. Parts of a line are parted by ` | `.
//!
//! Of a plan:
//!
//!     run STATE | FUNC STEPS | ARGS | ANSWERS     a run of the plan's module on the machine: `runs`
//!     end EDITS                                   how the command ends for the plan with these edits: `module`, or its status and what it tells
//!     page EDITS                                  its status, what it prints and what it tells then; `$` stands for a newline
//!     imports EDITS                               the lines that it prints behind the module with `--imports`
//!     prefixes EDITS                              the same as of `page` for each proper prefix, where it is another than for the one before
//!     ask PIECE READ WRITE TELL | WORDS | EDITS   the same as of `page` with these words and streams: `command`
//!     bytes SPACES HEX | WORDS                    the same as of `page` for so many spaces and these bytes behind them, with these words, if any
//!     fuse EDITS                                  what is made of it where it is not checked before: `plans`
//!     generates N, entries N                      whether it is the plan of N adapters that is generated, and what that has: `plans`
//!     fuel N ..                                   what the module is like that it prints with `--fuel N`, and runs of it: `fueled`
//!     shows ..                                    what the module is like, where the table does not have all its bytes: `shown`
//!     check WHAT | BYTES                          what the command says of these bytes, in parts of hex, with `--check`: `ok` and how many
//!                                                 functions the module defines, or the cause for which it is no adapter module
//!
//! Of a module by its bytes: `run`, `spells`, `call` and `tree`, as `modules` tells.
//!
//! Of types, where a type K is a word of plans, or the place of an entry, and a function F is a place:
//!
//!     layout K                     size, alignment in memories of 32 bits and of 64 bits, flat count, core types in both
//!     known K                      its kind and index, how deep it nests, whether it holds a pointer with a length, and a borrow
//!     inside K                     how the entries of a map lie, or the cases of a type of cases
//!     place K | NAME               where a field of a record stands
//!     same K K, one F F            whether two types, or two functions, have one index
//!     tables                       how many tables of handles there are
//!     core K                       the index of a core type, how many there are, and the number of its parameters
//!     flatten K.. | WIDTH MOST     the core types that stand for types, if there may be so many
//!     signature F | SIDE           the core signature of a side, or of a function between two: `funcs`
//!     agree K K                    whether a source type agrees with a destination type
//!     agree-all K.. | K..          the same by place
//!     load K | SIDE BYTES ADDRESS  the value that stands in a memory: `values`
//!     lift K | SIDE BYTES CORE..   the value that core values stand for
//!     carry K K K | NUMBERS SIDE BYTES CORE..   what the value of a type becomes between a source type and a destination type
//!     adapt STEP ; STEP ..         what a module over the types says to adapters, one after another: `adapted`
//!     read K.. | JSON              the values that a JSON list has for these types, or its first fault: `json_values`
//!     json K.. | JSON              the JSON that is printed of them
//!     laid KIND MEMBER..           a layout made of layouts: `layouts`
//!     next MEMBER OFFSET           where a field stands behind an offset, and where it ends
#![tactic(auto)]

mod adapted;
mod blocks;
mod command;
mod fueled;
mod plans;
mod printed;
mod shown;

use blocks::add_blocks;
use std::io;

fn main(rt: HostRuntime) -> io::Result<()> {
    let text = io::read_to_string(rt.alloc(), rt.stdin())?;
    let mut page = String::new(rt.alloc());
    add_blocks(&mut page, rt.alloc(), text.as_str())?;
    print!(rt; "{page}")
}
