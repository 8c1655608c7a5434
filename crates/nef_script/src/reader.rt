//! Reads a script line by line, and states laws of all scripts.

ghost use Rattle.std.specs.Prelude.{◌≡◌, ◌*◌, ◌≤◌, ◌∷◌, ◌++◌};
ghost use Rattle.nef_script.specs.Prelude.{ℕ, length, IfOk, OnOk, Some, None, [], All, position, bytes_eq, lines_of, FirstRefusal, IsAccepted, line_refusal, MeansScript, SpeaksOfFirst, bases_of, TurnsRight, AreBoundBefore, IsStatement, IsSoundState, AddsLine, AddsWords, state, ScriptKind as Kind, Verb as Said, CommandsFound, OneRefusal, NeverBoth, AcceptedOrRefused, UnknownCommandExample, WordCountExample, BadNameExample, NameTakenExample, UnknownNameExample, OwnNameExample, NotANumberExample, ZeroNormalExample, BadModeExample, OutOfRangeExample, BadWeightExample, ZeroDirectionExample, LongDirectionExample, FarPointExample, FirstLineExample, AcceptedExample};

use crate::script::{Command, Name, Names, Script, ScriptFault, ScriptKind};
use crate::statement::{Statement, read_statement};
use nef_expr::TurnedNodes;
use nef_geo::List;
use nef_lex::{Line, lines, words};
use std::alloc::{AllocError, Global};

// How many bytes a script has at most.
const SCRIPT_LIMIT: usize = 1_048_576;

/// What the lines so far bound, and what these lines mean.
#[derive(Drop)]
struct Reader<'a> {
    names: Names<'a>,
    /// The node of each name, in the order of the names.
    bound: Vec<usize>,
    sets: TurnedNodes,
    commands: List<Command>,
}

impl<'a> Reader<'a> {
    fn read_line(&mut self, alloc: Global, line: Line<'a>) -> Result<(), ScriptFault>
        requires sound { IsSoundState (state self.old.names self.old.bound.items self.old.sets self.old.commands) }
        ensures adds { IfOk result (λ _. AddsLine line.entry.number line.entry.text.now (state self.old.names self.old.bound.items self.old.sets self.old.commands) (state self.new.names self.new.bound.items self.new.sets self.new.commands)) }
        ensures refused { (n : ℕ) (kind : Kind) → result ≡ Err (ScriptFault.Refused n kind) → (n ≡ line.entry.number) × (line_refusal self.old.names line.entry.text.now ≡ Some kind) }
    {
        let words = words(alloc, line.text)?;
        match read_statement(line.number, line.text, &words, &self.names, &self.bound) {
            Err(kind) => Err(ScriptFault::Refused {
                line: line.number,
                kind,
            }),
            Ok(None) => Ok(()),
            Ok(Some(statement)) => Ok(self.add(alloc, line.number, statement)?),
        }
    }

    // Adds what a line says to what the lines before it say.
    fn add(&mut self, alloc: Global, line: u64, statement: Statement<'a>) -> Result<(), AllocError>
        requires sound { IsSoundState (state self.old.names self.old.bound.items self.old.sets self.old.commands) }
        requires says { (v : Said) × (args : List (List ℕ)) × IsStatement self.old.names self.old.bound.items line v args statement }
        ensures adds { IfOk result (λ _. (v : Said) (args : List (List ℕ)) → IsStatement self.old.names self.old.bound.items line v args statement.entry → AddsWords line v args (state self.old.names self.old.bound.items self.old.sets self.old.commands) (state self.new.names self.new.bound.items self.new.sets self.new.commands)) }
    {
        match statement {
            Statement::Bind { name, node } => {
                let node = self.sets.push(node)?;
                self.bind(name, node, Command::Bind { line, node })
            }
            Statement::Turn { name, from, turn } => {
                let node = self.sets.turn(alloc, from, usize::from(turn))?;
                let command = Command::Turn {
                    line,
                    node,
                    from,
                    turn,
                };
                self.bind(name, node, command)
            }
            Statement::Ask(question) => self.commands.push(question),
            Statement::Print { node, name } => {
                let name = Name::new(alloc, name)?;
                self.commands.push(Command::Print { line, node, name })
            }
        }
    }

    // Binds a new name to a node, and adds the command of the line.
    fn bind(&mut self, name: &'a [u8], node: usize, command: Command) -> Result<(), AllocError>
        requires new { position (bytes_eq name.now) self.old.names ≡ None }
        ensures names { OnOk result (self.new.names ≡ self.old.names ++ name.now ∷ []) }
        ensures bound { OnOk result (self.new.bound.items ≡ self.old.bound.items ++ node ∷ []) }
        ensures sets { self.new.sets ≡ self.old.sets }
        ensures commands { OnOk result (self.new.commands ≡ self.old.commands ++ command ∷ []) }
    {
        self.names.push(name)?;
        self.bound.push(node)?;
        self.commands.push(command)
    }
}

/// The script that the bytes spell. Its commands name nodes of the script, each of which an earlier command binds, and
/// its rays keep their limits. The node of a line that turns is the turned image of the node that it is turned from,
/// and there are at most 48 nodes for each line that binds a name and turns nothing.
///
/// `Refused` says where the script is refused first, and for what: a script that is too long at line 0, and otherwise
/// the first line for which some test holds, with the first such test in the order of `ScriptKind`. `OutOfMemory` says
/// that memory was wanted and not found.
pub fn parse(alloc: Global, bytes: &[u8]) -> Result<Script, ScriptFault>
    ensures script { IfOk result (λ s. IsAccepted bytes.now × MeansScript bytes.now s.nodes s.commands) }
    ensures in_range { IfOk result (λ s. All (SpeaksOfFirst (length s.nodes)) s.commands) }
    ensures turned { IfOk result (λ s. All (TurnsRight s.nodes) s.commands) }
    ensures bound_before { IfOk result (λ s. AreBoundBefore s.nodes s.commands) }
    ensures few { IfOk result (λ s. length s.nodes ≤ 48 * bases_of (lines_of bytes.now)) }
    ensures refused { (line : ℕ) (kind : Kind) → result ≡ Err (ScriptFault.Refused line kind) → FirstRefusal bytes.now line kind }
{
    if bytes.len() > SCRIPT_LIMIT {
        return Err(ScriptFault::Refused {
            line: 0,
            kind: ScriptKind::ScriptTooLong,
        });
    }
    let mut reader = Reader {
        names: Names::new(alloc),
        bound: Vec::new(alloc),
        sets: TurnedNodes::new(alloc),
        commands: List::new(alloc),
    };
    for line in lines(bytes) {
        reader.read_line(alloc, line)?;
    }
    let Reader {
        names: _names,
        bound: _bound,
        sets,
        commands,
    } = reader;
    Ok(Script {
        nodes: sets.into_nodes(),
        commands,
    })
}

/// A script is accepted, or refused first at one line for one kind, and never both. Each command is read from its word.
pub fn refusal_laws()
    ensures one { OneRefusal }
    ensures never_both { NeverBoth }
    ensures decided { AcceptedOrRefused }
    ensures commands { CommandsFound }
{}

/// Short scripts, with the line at which each is refused first, and the kind of the refusal.
pub fn refusal_examples()
    ensures unknown_command { UnknownCommandExample }
    ensures word_count { WordCountExample }
    ensures bad_name { BadNameExample }
    ensures name_taken { NameTakenExample }
    ensures unknown_name { UnknownNameExample }
    ensures own_name { OwnNameExample }
    ensures not_a_number { NotANumberExample }
    ensures zero_normal { ZeroNormalExample }
    ensures bad_mode { BadModeExample }
    ensures out_of_range { OutOfRangeExample }
    ensures bad_weight { BadWeightExample }
    ensures zero_direction { ZeroDirectionExample }
    ensures long_direction { LongDirectionExample }
    ensures far_point { FarPointExample }
    ensures first_line { FirstLineExample }
    ensures accepted { AcceptedExample }
{}
