//! What holds of lines of JSON.
ghost use Rattle.std.specs.Prelude.{◌≡◌, ℕ, List, Some};
ghost use Rattle.std.specs.List.{All};
ghost use Rattle.json.specs.Json.{document, object};
ghost use Rattle.json.specs.Print.{print};
ghost use Rattle.json.specs.Tree.{json_tokens};
ghost use Rattle.warc_json.specs.Objects.{SeenValue, IsWord, json_members};

/// A reader of JSON finds the members that were written, in their order.
#[tactic(auto, using(crate::proofs::LawLemmas::reads_back))]
pub fn objects_read_back()
    ensures { (ms : List (List ℕ × SeenValue)) → All (λ m. IsWord m.1) ms →
        document (print (json_tokens (object (json_members ms)))) ≡ Some (object (json_members ms)) }
{}
