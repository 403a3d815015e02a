//! Laws over the definitions: each function does nothing, and its contract is the law.
ghost use Rattle.std.specs.Prelude.{◌≡◌, ◌≢◌, ◌⊎◌, ℕ, ◌+◌, ◌≤◌, List, [], ◌++◌, Option, None, Some, Ok, Err, length, take, ◌^◌, ◌<◌};
ghost use Rattle.warc_frame.specs.declared.fault.Fault.{Fault};
ghost use Rattle.warc_frame.specs.declared.fault.FaultKind.{FaultKind};
ghost use Rattle.warc_frame.specs.declared.fault.FaultKind.TheVariants.{Truncated, Memory};
ghost use Rattle.warc_frame.specs.Record.{Record, IsFramed, max_archive};
ghost use Rattle.warc_frame.specs.FieldNames.{AreFieldNames};
ghost use Rattle.warc_frame.specs.Spelling.{Spells, SpellsAll, canonical};
ghost use Rattle.warc_frame.specs.Reading.{Judgement, Head, head_of, headed, record_of};
ghost use Rattle.warc_frame.specs.Faults.{AllAccepted, ReadsAs, IsFaultAfter, IsFirstFault, IsFrameFault};
ghost use Rattle.warc_frame.specs.Reported.{Unclosed, Reported, Lies, IsExact, Refutes, Refuses, AcceptsReported};
ghost use Rattle.std.specs.Io.KnownBytes.{append_known};
ghost use Rattle.warc_frame.specs.Device.{Staged};
ghost use Rattle.warc_frame.specs.Send.{WentOut, IsStaged};

/// No text that spells a record begins with another one that does, and a text spells at most one list of records.
pub fn spelling_is_unambiguous()
    ensures record { (r s : Record) (text more : List ℕ) → Spells r text → Spells s (text ++ more)
        → (more ≡ []) × (r ≡ s) }
    ensures list { (rs ss : List Record) (text : List ℕ) → SpellsAll rs text → SpellsAll ss text → rs ≡ ss }
{}

/// The canonical text of a record spells it.
#[tactic(auto, using(crate::proofs::LawLemmas::canonical_text_spells))]
pub fn canonical_text_spells()
    ensures { (r : Record) → IsFramed r → Spells r (canonical r) }
{}

/// What spells a record is read as that record, if anything follows or not, and what is read is spelled.
pub fn reading_is_spelling()
    ensures read { (judge : Judgement) (r : Record) (text more : List ℕ) → Spells r text → judge r.fields ≡ None
        → record_of judge (text ++ more) ≡ Ok (r, length text) }
    ensures spelled { (judge : Judgement) (text : List ℕ) (r : Record) (n : ℕ) → record_of judge text ≡ Ok (r, n)
        → (n ≤ length text) × Spells r (take n text) × (judge r.fields ≡ None) }
{}

/// A text begins with at most one text that spells a given list of records.
pub fn fronts_are_same()
    ensures { (rs : List Record) (front other rest more : List ℕ) → SpellsAll rs front → SpellsAll rs other
        → front ++ rest ≡ other ++ more → front ≡ other }
{}

/// A head that is read stays read when bytes are appended.
pub fn heads_are_stable()
    ensures { (judge : Judgement) (text more : List ℕ) (head : Head) → head_of judge text ≡ Ok head
        → head_of judge (text ++ more) ≡ Ok head }
{}

/// The first n bytes of a text that spells a record are read as its head, if the block and two CRLFs follow them.
pub fn head_of_spelled()
    ensures { (judge : Judgement) (r : Record) (text : List ℕ) (n : ℕ) → Spells r text → judge r.fields ≡ None
        → n + length r.block + 4 ≡ length text → head_of judge (take n text) ≡ Ok (headed r n) }
{}

/// A text that begins at offset q and ends by offset 2^48 has no first fault exactly if it spells a list of records,
/// all of them accepted.
pub fn no_fault_where_spelled()
    ensures not_both { (judge : Judgement) (q : ℕ) (text : List ℕ) (records : List Record) (fault : Fault)
        → q + length text ≤ max_archive → SpellsAll records text → AllAccepted judge records
        → IsFirstFault judge q text fault → ⊥ }
    ensures one_of_them { (judge : Judgement) (q : ℕ) (text : List ℕ) → q + length text ≤ max_archive
        → ((records : List Record) × SpellsAll records text × AllAccepted judge records)
        ⊎ ((fault : Fault) × IsFirstFault judge q text fault) }
{}

/// Every fault but truncation stays when bytes are appended.
pub fn faults_are_stable()
    ensures text { (judge : Judgement) (q : ℕ) (text more : List ℕ) (fault : Fault) → IsFirstFault judge q text fault
        → fault.kind ≢ Truncated → IsFirstFault judge q (text ++ more) fault }
    ensures record { (judge : Judgement) (text more : List ℕ) (fault : Fault) → record_of judge text ≡ Err fault
        → fault.kind ≢ Truncated → record_of judge (text ++ more) ≡ Err fault }
{}

/// A text has at most one first fault.
pub fn first_fault_is_unique()
    ensures { (judge : Judgement) (q : ℕ) (text : List ℕ) (one other : Fault) → IsFirstFault judge q text one
        → IsFirstFault judge q text other → one ≡ other }
{}

/// Each text is read as one list of records and one fault after them, or none.
pub fn reading_is_unique()
    ensures some { (judge : Judgement) (q : ℕ) (text : List ℕ)
        → (records : List Record) × (found : Option Fault) × ReadsAs judge q text records found }
    ensures one { (judge : Judgement) (q : ℕ) (text : List ℕ) (rs ss : List Record) (one other : Option Fault)
        → ReadsAs judge q text rs one → ReadsAs judge q text ss other → (rs ≡ ss) × (one ≡ other) }
{}

/// What a step that fails says of the text, if memory didn't run out: the text is refuted, by a fault that stays.
pub fn refusals_refute()
    ensures { (at : ℕ) (text : List ℕ) (reported : Reported) (f : Fault) → Refuses at text reported f → f.kind ≢ Memory
        → Refutes at text reported f }
{}

/// The first fault for a reader that gets a text's records by framing alone, and judges the fields of each head that is
/// reported. While it accepts them, the fault is that of framing; the first that it refuses is the fault, at the first
/// byte of its record.
pub fn first_fault_of_judged_heads()
    ensures refuted { (judge : Judgement) (at : ℕ) (text : List ℕ) (reported : Reported) (f : Fault)
        → Refutes at text reported f → AcceptsReported judge reported → IsFirstFault judge at text f }
    ensures cut { (judge : Judgement) (at : ℕ) (text : List ℕ) (reported : Reported) (f : Fault) → Lies text reported
        → AcceptsReported judge reported → at + length text ≤ max_archive → IsFrameFault at text f
        → IsFirstFault judge at text f }
    ensures head { (judge : Judgement) (at : ℕ) (text : List ℕ) (reported : Reported) (u : Unclosed) (kind : FaultKind)
        → IsExact text reported → reported.unclosed ≡ Some u → AllAccepted judge reported.records
        → judge u.fields ≡ Some kind → at + length text ≤ max_archive
        → IsFaultAfter judge at text reported.records kind }
{}

/// What went out of an output went out of each longer one.
pub fn went_out_of_longer()
    ensures { (start now : Option (List ℕ)) (output more : List ℕ) (sent : ℕ) →
        WentOut start output now sent → WentOut start (output ++ more) now sent }
{}

/// The bytes that a buffer has passed on went out.
pub fn staged_went_out()
    ensures { (start now : Option (List ℕ)) (output : List ℕ) (buffer : Staged) →
        IsStaged start output now buffer → WentOut start output now buffer.sent }
{}

/// The number of bytes that went out is exact where the output has fewer than 2^64.
pub fn sent_is_exact()
    ensures { (start now : Option (List ℕ)) (output : List ℕ) (sent : ℕ) →
        WentOut start output now sent → length output < 2 ^ 64 →
        (sent ≤ length output) × (now ≡ append_known start (take sent output)) }
{}

/// The fields of the standard are told apart by their names and by their places.
#[tactic(auto, using(crate::proofs::FieldNameLemmas::names_are))]
pub fn are_field_names()
    ensures { AreFieldNames }
{}
