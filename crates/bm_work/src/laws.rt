//! Laws over the definitions alone.

ghost use Rattle.bm_work.specs.TextLaws.{TextsAreTheBytes, TextsEndWhereTheyMust, PiecesPlayNoPart};
ghost use Rattle.bm_work.specs.StreamLaws.{StreamsJoin, SaidGrows};

/// No byte of a pipe is lost or doubled. Each text ends at a line end or with its longest length,
/// and nowhere before. How a pipe's bytes were cut into pieces plays no part.
pub fn texts_are_the_bytes()
    ensures whole { TextsAreTheBytes }
    ensures ends { TextsEndWhereTheyMust }
    ensures pieces { PiecesPlayNoPart }
{}

/// The requests that a worker sends in a session, call after call, are one stream with the numbers
/// 0, 1, 2 and so on. What it said of a command is the lines of all its texts, in order.
pub fn streams_join()
    ensures stream { StreamsJoin }
    ensures said { SaidGrows }
{}
