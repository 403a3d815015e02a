//! Laws over the definitions: each function does nothing, and its contract is the law.
ghost use Rattle.warc.specs.ClosedLaws.{AnswersAreKept, BodiesAreKept, LinesAreKept, NeededAreClosed};
ghost use Rattle.warc.specs.ClosedLaws.{OthersAreClosed, OutcomesAreKept, StoredBodiesAreKept};
ghost use Rattle.warc.specs.Laws.{ArchivesSpell, FaultsAreStable, FullDatesAreInstants, NoFaultWhereSpelled, OneFault};
ghost use Rattle.warc.specs.Laws.{ConversionKeepsAnswers, MigrationKeepsAnswers, MigrationKeepsReplays, OutputsAreCounted, SomeFaultElse};
ghost use Rattle.warc.specs.Laws.{RecordsAreSpelled, RecordsAreTheSame, RefusedForFault};
ghost use Rattle.warc_rewrite.specs.SelectionLaws.{AllGiveTheArchive, SelectionIsAnArchive, SelectionIsOfTheSelected};
ghost use Rattle.warc.specs.Laws.{OthersAreTheRest};
ghost use Rattle.warc.specs.Laws.{WrittenOpensAsSame, WrittenSpells};

pub use warc_checking::laws::findings_are_counted;
use warc_frame::laws::spelling_is_unambiguous;
use warc_index::laws::{chain_loops, latest_is_last};
use warc_record::laws::{bare_texts_of_values, findings_are_few, findings_are_short};
use warc_write::laws::{converted_says_the_same, converted_stays_good, rendered_opens_as_same};

/// An archive spells good records, in their order, and has a row for each.
pub fn an_archive_spells_its_records()
    ensures { ArchivesSpell }
{}

/// The records that a listing speaks of are those that its bytes spell, and two listings of the same bytes speak of the
/// same records. So what holds of an archive's records before a refused growth holds of them after it.
pub fn records_are_spelled()
    ensures spelled { RecordsAreSpelled }
    ensures same { RecordsAreTheSame }
{
    spelling_is_unambiguous();
}

/// A source in memory, which never fails, is refused for the first fault of its bytes, or because an allocation failed.
pub fn memory_is_refused_for_faults()
    ensures { RefusedForFault }
{}

/// Bytes of at most 2^48 have no fault exactly if they spell good records.
pub fn no_fault_where_spelled()
    ensures not_both { NoFaultWhereSpelled }
    ensures one_of_them { SomeFaultElse }
{}

/// Each fault but truncation stays when bytes are appended.
pub fn faults_are_stable()
    ensures { FaultsAreStable }
{}

/// Bytes have at most one first fault.
pub fn first_fault_is_unique()
    ensures { OneFault }
{}

/// What is written of an archive has fewer bytes than 2^64, so that a fault says exactly how many went out.
pub fn outputs_are_counted()
    ensures { OutputsAreCounted }
{
    bare_texts_of_values();
    findings_are_few();
    findings_are_short();
    converted_stays_good();
}

/// What is written of good records in a form spells the records in that form, and an archive of it has no others.
pub fn written_opens_as_same()
    ensures spells { WrittenSpells }
    ensures same { WrittenOpensAsSame }
{
    rendered_opens_as_same();
    converted_stays_good();
}

/// Converting good records changes no answer: neither bodies, positions, statuses, marks and lengths, nor reasons.
pub fn conversion_keeps_answers()
    ensures { ConversionKeepsAnswers }
{
    converted_says_the_same();
}

/// An archive of what is written of good records as records of WARC 1.1 answers as they do: for each URI and moment it
/// gives the same body, positions, status, mark and length, or the same reason.
pub fn migration_keeps_answers()
    ensures answers { MigrationKeepsAnswers }
    ensures replays { MigrationKeepsReplays }
{
    written_opens_as_same();
    conversion_keeps_answers();
}

/// What `select` writes of an archive is an archive, whose records are those at the positions, in their order.
pub fn selection_is_an_archive()
    ensures archive { SelectionIsAnArchive }
    ensures records { SelectionIsOfTheSelected }
{
    spelling_is_unambiguous();
}

/// What `select` writes of all records is the archive, byte for byte.
pub fn all_give_the_archive()
    ensures { AllGiveTheArchive }
{}

/// The records at positions and those at all others are all records, each once: so what `select` writes of the ones and
/// of the others has each record once between them.
pub fn others_are_the_rest()
    ensures { OthersAreTheRest }
{}

/// In a selection of records that need no other each gives what it gives in the whole archive, positions aside: its
/// outcome, its body or the reason why it has none, what is stored of its origin, and its line of `captures`.
pub fn closed_selections_keep_answers()
    ensures outcomes { OutcomesAreKept }
    ensures answers { AnswersAreKept }
    ensures bodies { BodiesAreKept }
    ensures stored { StoredBodiesAreKept }
    ensures lines { LinesAreKept }
{
    latest_is_last();
    chain_loops();
    selection_is_an_archive();
}

/// Records that are selected with all that they need are such a selection, and so are all records that need none of
/// some.
pub fn closed_selections_are_closed()
    ensures needed { NeededAreClosed }
    ensures others { OthersAreClosed }
{}

/// The date that `captures` writes in full is of the same instant as the one that the record states.
#[tactic(auto, using(crate::proofs::DateLemmas::full_instant))]
pub fn full_dates_are_instants()
    ensures { FullDatesAreInstants }
{}
