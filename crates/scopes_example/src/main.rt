//! A symbol table of nested scopes: for each scope a map from names, which are numbers, to their meanings, all in one forest, whose nodes are
//! taken ahead.
#![tactic(auto)]

mod symbols;

ghost use Rattle.std.specs.Prelude.{length, ◌<◌};

use crate::symbols::Symbols;
use bforest_indexed::OutOfMemory;
use std::io;

/// What a name means in a scope, in an inner one, and in the first one again.
type Meanings = (Option<u32>, Option<u32>, Option<u32>);

// What a name means in a scope, in an inner one that defines it again, and in the first one again. Nothing, where there may be no such
// scope.
fn meanings(symbols: &mut Symbols, name: u32) -> Result<Meanings, OutOfMemory> {
    if !symbols.may_enter() {
        return Ok((None, None, None));
    }
    symbols.enter();
    let told = meanings_inside(symbols, name);
    symbols.leave();
    told
}

fn meanings_inside(symbols: &mut Symbols, name: u32) -> Result<Meanings, OutOfMemory>
    requires inside { 0 < length symbols.old.scopes }
    ensures inside { 0 < length symbols.new.scopes }
{
    symbols.define_all(&[(1, 10), (2, 20)])?;
    let outside = symbols.lookup(name);
    let mut inside = None;
    if symbols.may_enter() {
        inside = symbols.meaning_within(&[(2, 21), (3, 31)], name)?;
    }
    Ok((outside, inside, symbols.lookup(name)))
}

fn main(rt: HostRuntime) -> io::Result<()> {
    let Ok(mut symbols) = Symbols::new(rt.alloc(), 8, 100) else {
        return println!(rt; "no memory");
    };
    let (scopes, names) = symbols.room();
    println!(rt; "room for {} scopes of {} names", scopes, names)?;
    for name in 1..4 {
        let Ok((outside, inside, again)) = meanings(&mut symbols, name) else {
            return println!(rt; "no memory");
        };
        println!(rt;
            "{}: outside {:?}, inside {:?}, again {:?}",
            name, outside, inside, again
        )?;
    }
    Ok(())
}
