//! Laws of fields: each function does nothing, and its contract is the law.
ghost use Rattle.std.specs.Prelude.{◌≡◌, ◌↔◌, ℕ, ◌+◌, ◌<◌, ◌&&◌, nat_lt, true, false, List, Some, Ok, Err, ◌++◌, length, sum_by};
ghost use Rattle.std.specs.List.{list_all};
ghost use Rattle.warc_field.specs.Text.{AreFields, is_value, is_value_byte, trimmed};
ghost use Rattle.warc_field.specs.Lines.{crlf, empty_at};
ghost use Rattle.warc_field.specs.Area.{IsFirstBadLine, Pair, MeansValue, SpellsFields, area_of, canonical_fields, value_of};

/// The relation and the function that say what a rest means agree.
pub fn meaning_is_computed()
    ensures { (rest value : List ℕ) → MeansValue rest value ↔ (value_of rest ≡ Some value) }
{}

/// What a rest means is a value.
#[tactic(auto, using(crate::proofs::LawLemmas::meaning_is_value))]
pub fn meaning_is_value()
    ensures { (rest value : List ℕ) → MeansValue rest value → is_value value ≡ true }
{}

/// A text without control characters but tabs, as a part of a value is, is a value once it is cut at both ends.
#[tactic(auto, using(crate::proofs::LawLemmas::trimmed_part_is_value))]
pub fn trimmed_part_is_value()
    ensures { (text : List ℕ) → list_all is_value_byte text ≡ true → is_value (trimmed text) ≡ true }
{}

/// A text of visible ASCII characters is a value.
pub fn visible_text_is_value()
    ensures { (text : List ℕ) → list_all (λ b. nat_lt 32 b && nat_lt b 127) text ≡ true → is_value text ≡ true }
{}

/// A list spells an area exactly if reading the area gives that list.
#[tactic(auto, using(crate::proofs::LawLemmas::spelling_is_read))]
pub fn spelling_is_read()
    ensures { (fields : List Pair) (area : List ℕ) → SpellsFields fields area ↔ (area_of area ≡ Ok fields) }
{}

/// Reading an area fails exactly at its first line that is no field or isn't ended.
pub fn first_bad_line_is_read()
    ensures { (area : List ℕ) (at : ℕ) → IsFirstBadLine area at ↔ (area_of area ≡ Err at) }
{}

/// At most one list of fields spells an area.
#[tactic(auto, using(crate::proofs::LawLemmas::spelling_is_unambiguous))]
pub fn spelling_is_unambiguous()
    ensures { (a b : List Pair) (area : List ℕ) → SpellsFields a area → SpellsFields b area → a ≡ b }
{}

/// The fields that spell an area are names and values.
#[tactic(auto, using(crate::proofs::LawLemmas::spelled_are_fields))]
pub fn spelled_are_fields()
    ensures { (fields : List Pair) (area : List ℕ) → SpellsFields fields area → AreFields fields }
{}

/// The canonical lines of fields spell them.
#[tactic(auto, using(crate::proofs::LawLemmas::canonical_text_spells))]
pub fn canonical_text_spells()
    ensures { (fields : List Pair) → AreFields fields → SpellsFields fields (canonical_fields fields) }
{}

/// The canonical lines of fields are read as the same list.
#[tactic(auto, using(crate::proofs::CanonLemmas::canonical_reads))]
pub fn canonical_text_is_read()
    ensures { (fields : List Pair) → AreFields fields → area_of (canonical_fields fields) ≡ Ok fields }
{}

/// After a CRLF, as the version line ends with, the first empty line is the one after the area.
pub fn empty_line_ends_area()
    ensures there { (fields : List Pair) (area more : List ℕ) → SpellsFields fields area
        → empty_at (crlf ++ (area ++ (crlf ++ more))) (length area) ≡ true }
    ensures first { (fields : List Pair) (area more : List ℕ) → SpellsFields fields area
        → (k : ℕ) → k < length area → empty_at (crlf ++ (area ++ (crlf ++ more))) k ≡ false }
{}

/// The canonical line of a field takes four bytes besides its name and value.
#[tactic(auto, using(crate::proofs::LawLemmas::canonical_text_length))]
pub fn canonical_text_length()
    ensures { (fields : List Pair)
        → length (canonical_fields fields) ≡ sum_by (λ (field : Pair). length field.0 + length field.1 + 4) fields }
{}
