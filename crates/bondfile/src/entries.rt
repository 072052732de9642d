// The kind of an entry, and its numbers.
ghost use Rattle.std.specs.Prelude.{◌≡◌, ◌<◌, Ok};
ghost use Rattle.bondfile.specs.Entries.{number_of, kind_of, first_whole, second_whole, flow_kind, first_number, second_number};

use bondline::{Entry, Fault, Kind};

// The number of a refused line's kind.
const REFUSED: usize = 12;

// The number of a kind.
pub fn number_of(kind: Kind) -> usize
    ensures number { result ≡ number_of kind }
    ensures within { result < 12 }
{
    kind as usize
}

// The number of the kind of what a line says.
pub fn kind_number(said: Result<Entry, Fault>) -> usize
    ensures { result ≡ kind_of said }
{
    match said {
        Ok(entry) => number_of(kind_of(entry)),
        Err(_) => REFUSED,
    }
}

pub fn kind_of(e: Entry) -> Kind
    ensures { number_of result ≡ kind_of (Ok e) }
{
    match e {
        Entry::Blank => Kind::Blank,
        Entry::Settlement(_) => Kind::Settlement,
        Entry::Units(_) => Kind::Units,
        Entry::Steps(_, _) => Kind::Steps,
        Entry::Alpha(_) => Kind::Alpha,
        Entry::Spread(_) => Kind::Spread,
        Entry::Cashflow(_, _, _) => Kind::Cashflow,
        Entry::Call(_, _, _) => Kind::Call,
        Entry::Sigma(_, _) => Kind::Sigma,
        Entry::Pillar(_, _) => Kind::Pillar,
        Entry::Yield(_, _, _) => Kind::Yield,
        Entry::Quote(_) => Kind::Quote,
    }
}

// The first whole number of what a line says, 0 where it has none.
pub fn first_whole(said: Result<Entry, Fault>) -> u32
    ensures { result ≡ first_whole said }
{
    match said {
        Ok(
            Entry::Settlement(n)
            | Entry::Steps(n, _)
            | Entry::Cashflow(n, _, _)
            | Entry::Call(n, _, _)
            | Entry::Pillar(n, _)
            | Entry::Yield(_, n, _),
        ) => n,
        _ => 0,
    }
}

// The second whole number.
pub fn second_whole(said: Result<Entry, Fault>) -> u32
    ensures { result ≡ second_whole said }
{
    match said {
        Ok(Entry::Steps(_, n)) => n,
        Ok(Entry::Call(_, n, _)) => n,
        Ok(Entry::Yield(_, _, n)) => n,
        _ => 0,
    }
}

// A cashflow's kind.
pub fn flow_kind(said: Result<Entry, Fault>) -> u8
    ensures { result ≡ flow_kind said }
{
    match said {
        Ok(Entry::Cashflow(_, kind, _)) => kind,
        _ => 0,
    }
}

// The first number.
pub fn first_number(said: Result<Entry, Fault>) -> f64
    ensures { result ≡ first_number said }
{
    match said {
        Ok(
            Entry::Units(x)
            | Entry::Alpha(x)
            | Entry::Spread(x)
            | Entry::Cashflow(_, _, x)
            | Entry::Call(_, _, x)
            | Entry::Sigma(x, _)
            | Entry::Pillar(_, x)
            | Entry::Yield(x, _, _)
            | Entry::Quote(x),
        ) => x,
        _ => 0.0,
    }
}

// The second number.
pub fn second_number(said: Result<Entry, Fault>) -> f64
    ensures { result ≡ second_number said }
{
    match said {
        Ok(Entry::Sigma(_, y)) => y,
        _ => 0.0,
    }
}
