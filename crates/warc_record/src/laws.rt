//! Laws over the definitions: functions that do nothing, each with a law as its contract.

ghost use Rattle.warc_record.specs.Ids.{BareTextsAreBare, BareTextsAreNoLonger, BareTextsAreValues, KeysAreEqualForSameIds, KeysAreNoLonger};
ghost use Rattle.warc_record.specs.Good.{GoodHeadsHaveNoFault, GoodHeadsRead};
ghost use Rattle.warc_record.specs.FindingLaws.{FindingsAreFew, FindingsAreShort, ListedWhereTheyHold, NumbersNeverFall};

/// The bare text of a value is a value, its own bare text, and no longer.
pub fn bare_texts_of_values()
    ensures values { BareTextsAreValues }
    ensures bare { BareTextsAreBare }
    ensures shorter { BareTextsAreNoLonger }
{}

/// Two keys are equal exactly if the ids are the same.
pub fn keys_are_equal_for_same_ids()
    ensures { KeysAreEqualForSameIds }
{}

/// A key holds no more bytes than the text that it was read from.
pub fn keys_are_no_longer()
    ensures { KeysAreNoLonger }
{}

/// A head is good exactly if no fault is found in it.
pub fn good_heads_have_no_fault()
    ensures { GoodHeadsHaveNoFault }
{}

/// The head of a good record says a type, an id and a date.
pub fn good_heads_read()
    ensures { GoodHeadsRead }
{}

/// A finding is listed exactly if the sentence of its number holds of the record.
pub fn listed_where_they_hold()
    ensures { ListedWhereTheyHold }
{}

/// A record has at most 58 findings and one for each of its fields.
pub fn findings_are_few()
    ensures { FindingsAreFew }
{}

/// The findings of a record have at most 1,000 bytes more than its fields.
pub fn findings_are_short()
    ensures { FindingsAreShort }
{}

/// The numbers of a record's findings never fall.
pub fn numbers_never_fall()
    ensures { NumbersNeverFall }
{}
