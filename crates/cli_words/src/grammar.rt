//! What the definitions make sure of.

ghost use Rattle.std.specs.Prelude.{◌≡◌, ℕ, List};
ghost use Rattle.cli_words.specs.Command.{Command, IsSpelled, Assembly, IsAsmAsked};
ghost use Rattle.cli_words.specs.FirstWrong.{IsAccepted, IsFirstWrong};

/// The laws of the grammar: words spell one `solo` at most, and ask for one `asm` at most, and never both; they have one
/// first wrong word at most, and none where they are accepted. It does nothing, and costs nothing.
pub fn laws()
    ensures one_command { (words : List (List ℕ)) (one other : Command) → IsSpelled words one → IsSpelled words other → one ≡ other }
    ensures one_assembly { (words : List (List ℕ)) (one other : Assembly) → IsAsmAsked words one → IsAsmAsked words other → one ≡ other }
    ensures never_both { (words : List (List ℕ)) (command : Command) (assembly : Assembly) → IsSpelled words command → IsAsmAsked words assembly → ⊥ }
    ensures one_wrong { (words : List (List ℕ)) (one other : ℕ) → IsFirstWrong words one → IsFirstWrong words other → one ≡ other }
    ensures apart { (words : List (List ℕ)) (index : ℕ) → IsFirstWrong words index → IsAccepted words → ⊥ }
{}
