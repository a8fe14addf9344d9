// The worked cases: one theorem proves them all of the definitions. The calls among them are made here too, with more beside, and what the library
// answers is printed.

#![tactic(auto)]

mod coding;
mod files;
mod printed;
mod printing;
mod strength;
mod weights;

ghost use Rattle.std.specs.Prelude.{◌≡◌, length};
ghost use Rattle.cases.specs.Table.{table, TableHolds};

use std::io;

// How many worked cases there are, each of which holds of the definitions.
pub fn worked_cases() -> usize
    ensures count { result ≡ length table }
    ensures hold { TableHolds }
{
    40
}

fn main(rt: HostRuntime) -> io::Result<()> {
    let n = worked_cases();
    println!(rt;
        "{n} worked cases hold of the definitions. The library's answers, to the calls among them and to others:"
    )?;
    coding::dimensions(&rt)?;
    coding::encodings(&rt)?;
    coding::readings(&rt)?;
    weights::pixels(&rt)?;
    weights::lists(&rt)?;
    weights::costs(&rt)?;
    files::files(&rt)?;
    files::unpackings(&rt)?;
    printed::lines(&rt)
}
