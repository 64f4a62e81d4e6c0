//! What holds of all bodies that are told piece by piece, as contracts.
ghost use Rattle.bm_web_server.specs.Laws.{PiecesAreTheText};

/// Pieces that tell a text to its end are the text, joined.
pub fn pieces_are_the_text()
    ensures { PiecesAreTheText }
{}
