// What ends a run before its end: the first thing that is not as it has to be.
use refusal::Refusal;
use std::fmt;

#[derive(Clone, Copy, Debug)]
pub enum Difference {
    // The order by degree was refused, for which nothing in a sound block asks.
    Order {
        n: usize,
        refusal: Refusal,
    },
    // A build did not give what the row rule over the searches asks for.
    Build {
        n: usize,
        k: usize,
        built: Result<usize, Refusal>,
        due: Result<usize, Refusal>,
    },
    // An answer is not what was searched.
    Pair {
        n: usize,
        k: usize,
        s: usize,
        t: usize,
        said: Result<Option<usize>, Refusal>,
        searched: Option<usize>,
    },
}

// Whether a run came to its end; a difference is printed.
pub fn report(rt: &impl Print, outcome: Result<(), Difference>) -> bool {
    if let Err(difference) = outcome {
        let _ = println!(rt; "{difference}");
        return false;
    }
    true
}

// The entries of a build, or its refusal.
#[derive(Drop)]
struct Built(Result<usize, Refusal>);

impl fmt::Display for Built {
    fn fmt<W: fmt::Write>(&self, f: &mut fmt::Formatter<W>) -> fmt::Result {
        match self.0 {
            Ok(entries) => write!(f, "entries {entries}"),
            Err(refusal) => write!(f, "{refusal}"),
        }
    }
}

// A number of joins, or none.
#[derive(Drop)]
struct Joins(Option<usize>);

impl fmt::Display for Joins {
    fn fmt<W: fmt::Write>(&self, f: &mut fmt::Formatter<W>) -> fmt::Result {
        match self.0 {
            Some(joins) => write!(f, "{joins}"),
            None => write!(f, "none"),
        }
    }
}

// What an index said.
#[derive(Drop)]
struct Said(Result<Option<usize>, Refusal>);

impl fmt::Display for Said {
    fn fmt<W: fmt::Write>(&self, f: &mut fmt::Formatter<W>) -> fmt::Result {
        match self.0 {
            Ok(joins) => Joins(joins).fmt(f),
            Err(refusal) => write!(f, "refused {}", refusal.number()),
        }
    }
}

impl fmt::Display for Difference {
    fn fmt<W: fmt::Write>(&self, f: &mut fmt::Formatter<W>) -> fmt::Result {
        match *self {
            Difference::Order { n, refusal } => {
                let number = refusal.number();
                let place = refusal.place;
                write!(f, "refused: n {n} k 0 number {number} place {place}")
            }
            Difference::Build { n, k, built, due } => {
                let built = Built(built);
                let due = Built(due);
                write!(f, "differs: n {n} k {k} build {built} rule {due}")
            }
            Difference::Pair {
                n,
                k,
                s,
                t,
                said,
                searched,
            } => {
                let said = Said(said);
                let searched = Joins(searched);
                write!(
                    f,
                    "differs: n {n} k {k} s {s} t {t} index {said} search {searched}"
                )
            }
        }
    }
}
