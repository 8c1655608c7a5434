//! The script as it is worked, why there is no script, and the names that lines have bound.

ghost use Rattle.std.specs.Prelude.{◌≡◌, ◌∷◌, ◌++◌};
ghost use Rattle.nef_geo.specs.Prelude.{IfOk, [], length, None, OnOk, position, bytes_eq};

use nef_expr::Nodes;
use nef_geo::{Dir, List, Point};
use std::alloc::{AllocError, Global};
use std::collections::BTreeMap;
use std::fmt;
use std::marker::Model;

/// What a script is refused for, in the order of the tests on one line; `ScriptTooLong` is tested before all of them.
#[derive(Debug, Clone, Copy, PartialEq, Eq)]
pub enum ScriptKind {
    LineTooLong,
    BadByte,
    UnknownCommand,
    WordCount,
    BadName,
    NameTaken,
    UnknownName,
    NotANumber,
    OutOfRange,
    ZeroNormal,
    BadMode,
    BadWeight,
    ZeroDirection,
    TooManyNames,
    ScriptTooLong,
}

/// Why there is no script: it is refused at a line (numbered from 1; 0 for the whole script), or memory ran out.
#[derive(Debug, Clone, Copy, PartialEq, Eq)]
pub enum ScriptFault {
    Refused { line: u64, kind: ScriptKind },
    OutOfMemory,
}

impl From<AllocError> for ScriptFault {
    ghost use Rattle.nef_script.specs.declared.script.ScriptFault.TheVariants.{OutOfMemory};

    ghost from_gives = { λ _ fault. fault ≡ OutOfMemory };

    fn from(_: AllocError) -> ScriptFault {
        ScriptFault::OutOfMemory
    }
}

impl ScriptKind {
    ghost use Rattle.nef_script.specs.Texts.{kind_text};

    /// The text of the refusal.
    pub fn text(self) -> &'static str
        ensures text { result.now ≡ kind_text self }
    {
        match self {
            ScriptKind::LineTooLong => "line too long",
            ScriptKind::BadByte => "bad byte",
            ScriptKind::UnknownCommand => "unknown command",
            ScriptKind::WordCount => "wrong number of words",
            ScriptKind::BadName => "bad name",
            ScriptKind::NameTaken => "name taken",
            ScriptKind::UnknownName => "unknown name",
            ScriptKind::NotANumber => "not a number",
            ScriptKind::OutOfRange => "coefficient out of range",
            ScriptKind::ZeroNormal => "zero normal",
            ScriptKind::BadMode => "mode is not open or closed",
            ScriptKind::BadWeight => "weight out of range",
            ScriptKind::ZeroDirection => "zero direction",
            ScriptKind::TooManyNames => "too many names",
            ScriptKind::ScriptTooLong => "script too long",
        }
    }
}

impl fmt::Display for ScriptKind {
    ghost use Rattle.std.specs.Prelude.{Some};
    ghost use Rattle.nef_script.specs.Texts.{kind_text};

    ghost output = { λ kind. Some (kind_text kind) };

    fn fmt<W: fmt::Write>(&self, f: &mut fmt::Formatter<W>) -> fmt::Result {
        f.write_str(self.text())
    }
}

/// The name of a set, as its bytes.
#[derive(Drop)]
pub struct Name {
    bytes: Vec<u8>,
}

impl Model for Name {
    ghost use Rattle.std.specs.Prelude.{List as Seq, ℕ};

    ghost Value = { Seq ℕ };

    ghost view = { λ n. n.bytes.items };
}

impl Name {
    pub(crate) fn new(alloc: Global, bytes: &[u8]) -> Result<Name, AllocError>
        ensures name { IfOk result (λ n. n ≡ bytes.now) }
    {
        Ok(Name {
            bytes: Vec::from_slice(alloc, bytes)?,
        })
    }

    /// The bytes of the name.
    pub fn as_bytes(&self) -> &[u8]
        ensures bytes { result.now ≡ self.now }
    {
        self.bytes.as_slice()
    }
}

/// What a line asks for. Lines are numbered from 1, and sets are named by their nodes.
#[derive(Drop)]
pub enum Command {
    /// A name is bound to the node.
    Bind {
        line: u64,
        node: usize,
    },
    /// A name is bound to the node, which is the image of the node `from` under the turn `turn`, from 0 to 47.
    Turn {
        line: u64,
        node: usize,
        from: usize,
        turn: u8,
    },
    /// Where the point lies is asked.
    Has {
        line: u64,
        node: usize,
        point: Point,
    },
    /// Whether a way within one part of the set joins the two points is asked.
    Joined {
        line: u64,
        node: usize,
        first: Point,
        second: Point,
    },
    /// Where the label first changes along the ray from the point is asked. The first three numbers of the point are at
    /// most `2^21` in size, its w is at most `2^10`, and the entries of the direction are at most `2^10` in size.
    Ray {
        line: u64,
        node: usize,
        point: Point,
        dir: Dir,
    },
    /// Whether the two sets are the same is asked.
    Same {
        line: u64,
        left: usize,
        right: usize,
    },
    /// The numbers of the set's vertices, edges, facets and volumes are asked.
    Count {
        line: u64,
        node: usize,
    },
    /// The set's text is asked, under its name.
    Print {
        line: u64,
        node: usize,
        name: Name,
    },
}

/// The nodes that the lines make, and the commands, one for each line with words.
#[derive(Drop)]
pub struct Script {
    /// The nodes of the lines that bind names, each after its operands: one for each line that doesn't turn, and for
    /// lines that turn the copies that aren't there yet.
    pub nodes: Nodes,
    pub(crate) commands: List<Command>,
}

impl Script {
    /// The command of each line with words, in order.
    pub fn commands(&self) -> &[Command]
        ensures commands { result.now ≡ self.now.commands }
    {
        self.commands.as_slice()
    }
}

/// The names that are bound, in order. A name's number, counted from 0, is that of its node among the bound nodes.
#[derive(Drop)]
pub(crate) struct Names<'a> {
    order: Vec<&'a [u8]>,
    places: BTreeMap<&'a [u8], usize>,
}

impl<'a> Model for Names<'a> {
    ghost use Rattle.std.specs.Prelude.{List as Seq, ℕ};
    ghost use Rattle.nef_script.specs.Names.{pointed, HasNumbers};

    ghost Value = { Seq (Seq ℕ) };

    ghost view = { λ n. pointed n.order.items };

    ghost invariant = { λ n. HasNumbers n.places (pointed n.order.items) };
}

impl<'a> Names<'a> {
    pub(crate) fn new(alloc: Global) -> Names<'a>
        ensures empty { result ≡ [] }
    {
        Names {
            order: Vec::new(alloc),
            places: BTreeMap::new(alloc),
        }
    }

    pub(crate) fn len(&self) -> usize
        ensures len { result ≡ length self.now }
    {
        self.order.len()
    }

    /// The number of the name, if the name is bound.
    pub(crate) fn find(&self, name: &[u8]) -> Option<usize>
        ensures place { result ≡ position (bytes_eq name.now) self.now }
    {
        self.places.get(name).copied()
    }

    /// Binds a new name.
    pub(crate) fn push(&mut self, name: &'a [u8]) -> Result<(), AllocError>
        requires new { position (bytes_eq name.now) self.old ≡ None }
        ensures ok { OnOk result (self.new ≡ self.old ++ name.now ∷ []) }
    {
        self.order.reserve(1)?;
        self.places.insert(name, self.order.len())?;
        self.order.push_reserved(name);
        Ok(())
    }
}
