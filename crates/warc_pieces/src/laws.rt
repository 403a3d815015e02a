//! Laws over pieces: each function does nothing, and its contract is the law.
ghost use Rattle.warc_pieces.specs.Laws.{ArchiveIsOnePiece, ArchivePutBefore, FrontIsFirstPiece, PiecesAreApart};
ghost use Rattle.warc_pieces.specs.Laws.{PiecesAreUnique, PiecesExist, PiecesFollow, PiecesHaveBytes, PiecesSum};
ghost use Rattle.warc_pieces.specs.Laws.{SalvagedIsAnArchive};

/// Bytes have at most one list of pieces.
pub fn pieces_are_unique()
    ensures { PiecesAreUnique }
{}

/// All bytes have pieces.
pub fn pieces_exist()
    ensures { PiecesExist }
{}

/// The pieces of bytes are all of the first 2^48 of them: none is missing, none is in two pieces, no piece is empty,
/// and runs of good records and damage come in turn.
pub fn pieces_cover()
    ensures sum { PiecesSum }
    ensures follow { PiecesFollow }
    ensures some { PiecesHaveBytes }
    ensures apart { PiecesAreApart }
{}

/// An archive is one piece, or none if it has no record.
pub fn an_archive_is_one_piece()
    ensures { ArchiveIsOnePiece }
{}

/// The longest list of good records that bytes begin with is the first piece, if that is one of records, and else it is
/// empty.
pub fn the_front_is_the_first_piece()
    ensures { FrontIsFirstPiece }
{}

/// The bytes of all pieces of records, joined, are an archive of exactly these records, in order.
pub fn good_records_of_pieces()
    ensures { SalvagedIsAnArchive }
{}

/// For an archive and bytes that together have at most 2^48 bytes, the pieces of the one put before the other are those
/// of the archive and those of the bytes, counted from the beginning of the archive; two runs that meet are one piece.
pub fn archives_put_before()
    ensures { ArchivePutBefore }
{}
