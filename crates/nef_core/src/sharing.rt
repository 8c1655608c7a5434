//! Tasks that are worked side by side: two, or four.
ghost use Rattle.std.specs.Prelude.{Ok, IfOk};

use crate::OutOfMemory;
use std::thread;
use std::thread::Threads;

/// Works both tasks, the first one in a thread of its own where one can be made, and returns what both give.
///
/// `OutOfMemory` says that one of them wanted memory and found none.
pub fn both<
    R: Threads,
    A: Send + Drop,
    B: Drop,
    F: FnOnce() -> Result<A, OutOfMemory> + Send,
    G: FnOnce() -> Result<B, OutOfMemory>,
>(rt: &R, first: F, second: G) -> Result<(A, B), OutOfMemory>
    requires first { F.pre first }
    requires second { G.pre second }
    ensures first { IfOk result (λ p. F.post first (Ok p.0)) }
    ensures second { IfOk result (λ p. G.post second (Ok p.1)) }
{
    let (first, second) = thread::join(rt, first, second);
    Ok((first?, second?))
}

/// Works four tasks, each but the last in a thread of its own where one can be made, and returns what all give.
///
/// `OutOfMemory` says that one of them wanted memory and found none.
pub fn all_four<
    R: Threads,
    A: Send + Drop,
    B: Send + Drop,
    C: Send + Drop,
    D: Drop,
    F: FnOnce() -> Result<A, OutOfMemory> + Send,
    G: FnOnce() -> Result<B, OutOfMemory> + Send,
    H: FnOnce() -> Result<C, OutOfMemory> + Send,
    K: FnOnce() -> Result<D, OutOfMemory>,
>(rt: &R, first: F, second: G, third: H, fourth: K) -> Result<(A, B, C, D), OutOfMemory>
    requires first { F.pre first }
    requires second { G.pre second }
    requires third { H.pre third }
    requires fourth { K.pre fourth }
    ensures first { IfOk result (λ p. F.post first (Ok p.0)) }
    ensures second { IfOk result (λ p. G.post second (Ok p.1)) }
    ensures third { IfOk result (λ p. H.post third (Ok p.2)) }
    ensures fourth { IfOk result (λ p. K.post fourth (Ok p.3)) }
{
    // The calling thread starts all others, since one that a new thread starts begins on the processor of its maker.
    let others = move || -> Result<(B, (C, D)), OutOfMemory>
        requires { G.pre second × H.pre third × K.pre fourth }
        ensures second { IfOk result (λ p. G.post second (Ok p.0)) }
        ensures third { IfOk result (λ p. H.post third (Ok p.1.0)) }
        ensures fourth { IfOk result (λ p. K.post fourth (Ok p.1.1)) }
    {
        let last_two = move || -> Result<(C, D), OutOfMemory>
            requires { H.pre third × K.pre fourth }
            ensures third { IfOk result (λ p. H.post third (Ok p.0)) }
            ensures fourth { IfOk result (λ p. K.post fourth (Ok p.1)) }
        { both(rt, third, fourth) };
        both(rt, second, last_two)
    };
    let (a, (b, (c, d))) = both(rt, first, others)?;
    Ok((a, b, c, d))
}
