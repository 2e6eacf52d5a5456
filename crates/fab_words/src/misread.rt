//! What is wrong with the words of a line.
ghost use Rattle.std.specs.Prelude.{◌≡◌};
ghost use Rattle.fab_words.specs.Misreads.{first_misread, ◌&◌};

/// What is wrong with a word, or with the words of a line. The earlier one goes before the later one.
#[derive(Clone, Copy, Drop)]
pub enum Misread {
    /// A word is missing, is one too many, or has the wrong form.
    Words,
    /// A word in a number's place is no number.
    Number,
    /// A number is beyond its limit.
    Limit,
}

/// What words say, or what is wrong with them.
pub type Read<T> = Result<T, Misread>;

impl Misread {
    fn first(self, other: Misread) -> Misread
        ensures { result ≡ first_misread self other }
    {
        match (self, other) {
            (Misread::Words, _) | (_, Misread::Words) => Misread::Words,
            (Misread::Number, _) | (_, Misread::Number) => Misread::Number,
            (Misread::Limit, Misread::Limit) => Misread::Limit,
        }
    }
}

/// What both say, or the misread that goes first.
pub fn both<A: Drop, B: Drop>(a: Read<A>, b: Read<B>) -> Read<(A, B)>
    ensures { result ≡ (a & b) }
{
    match (a, b) {
        (Ok(a), Ok(b)) => Ok((a, b)),
        (Err(misread), Err(other)) => Err(misread.first(other)),
        (Err(misread), Ok(_)) | (Ok(_), Err(misread)) => Err(misread),
    }
}
