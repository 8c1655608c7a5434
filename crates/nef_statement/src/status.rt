//! How a run ends, and the laws of all runs.

ghost use Rattle.nef_statement.specs.Examples.{DenotedExample, ToldExample};
ghost use Rattle.nef_statement.specs.Meanings.{EachMeans, NodesDenote};
ghost use Rattle.nef_statement.specs.Same.{OneOutput, FirstLinesSay, OneMeaning, AsMeant, SameOutput, SameStatus};
ghost use Rattle.nef_statement.specs.Statement.{Statement};
ghost use Rattle.nef_statement.specs.Texts.{IsText};

use nef_io::{Failed, ReadAll};
use nef_script::{ScriptFault, ScriptKind};
use std::alloc::AllocError;

/// How a run ended, and what it wrote.
#[derive(Debug, Clone, Copy)]
pub enum Status {
    /// The whole output of the script.
    Done,
    /// The line of the script's refusal. Lines are numbered from 1; the whole script is line 0.
    Refused { line: u64, kind: ScriptKind },
    /// The line of words that are refused.
    Words,
    /// Nothing. A read failed.
    ReadFault,
    /// Some front of what the words and the script define. A write failed.
    WriteFault,
    /// Some front of what the words and the script define. Memory was wanted and not found.
    OutOfMemory,
}

impl From<ReadAll> for Status {
    ghost use Rattle.std.specs.Prelude.{◌≡◌};
    ghost use Rattle.nef_statement.specs.Status.{unread};

    ghost from_gives = { λ fault r. r ≡ unread fault };

    fn from(fault: ReadAll) -> Self {
        match fault {
            ReadAll::ReadFault => Status::ReadFault,
            ReadAll::TooLong => Status::Refused {
                line: 0,
                kind: ScriptKind::ScriptTooLong,
            },
            ReadAll::OutOfMemory => Status::OutOfMemory,
        }
    }
}

impl From<ScriptFault> for Status {
    ghost use Rattle.std.specs.Prelude.{◌≡◌};
    ghost use Rattle.nef_statement.specs.Status.{unaccepted};

    ghost from_gives = { λ fault r. r ≡ unaccepted fault };

    fn from(fault: ScriptFault) -> Self {
        match fault {
            ScriptFault::Refused { line, kind } => Status::Refused { line, kind },
            ScriptFault::OutOfMemory => Status::OutOfMemory,
        }
    }
}

impl From<Failed> for Status {
    ghost use Rattle.std.specs.Prelude.{◌≡◌};
    ghost use Rattle.nef_statement.specs.declared.status.Status.{Status};

    ghost from_gives = { λ e r. r ≡ Status.WriteFault };

    fn from(_error: Failed) -> Self {
        Status::WriteFault
    }
}

impl From<AllocError> for Status {
    ghost use Rattle.std.specs.Prelude.{◌≡◌};
    ghost use Rattle.nef_statement.specs.declared.status.Status.{Status};

    ghost from_gives = { λ e r. r ≡ Status.OutOfMemory };

    fn from(_error: AllocError) -> Self {
        Status::OutOfMemory
    }
}

/// Two texts are equal exactly where their sets are one, and a text tells its set. An accepted script has one output;
/// lines say one output at most, and the first of them a front of it. Words and bytes mean one status and one output; a
/// run whose source tells its bytes writes a front of this output, and ends with this status where no count of faults
/// rises and memory isn't wanted. So runs that are asked for the same write fronts of one output, however they end, and
/// runs that end by themselves write all of it and end alike. Each accepted script has a meaning, in nodes and
/// commands; the nodes of each meaning of lines have the sets that the lines give the names.
pub fn statement_laws()
    ensures states { Statement IsText }
    ensures one_output { OneOutput IsText }
    ensures first_lines { FirstLinesSay IsText }
    ensures one_meaning { OneMeaning IsText }
    ensures as_meant { AsMeant IsText }
    ensures same_output { SameOutput IsText }
    ensures same_status { SameStatus IsText }
    ensures means { EachMeans }
    ensures denotes { NodesDenote }
{}

/// The definitions at worked examples.
pub fn statement_examples()
    ensures denoted { DenotedExample }
    ensures told { ToldExample }
{}
