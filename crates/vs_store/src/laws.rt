//! What the words for a set's file mean together.

ghost use Rattle.std.specs.Prelude.{◌≡◌, List, ℕ, Ok, Err};
ghost use Rattle.vs_frame.specs.declared.head.Head.{Head};
ghost use Rattle.vs_store.specs.Meaning.{AreBytes, Means, IsLeastWrong};
ghost use Rattle.vs_store.specs.Standing.{Standing, state_of, of_set, opened};
ghost use Rattle.vs_store.specs.declared.fault.StoreFault.TheVariants.{NotAJournal};

/// What a file stands for: `state_of` gives the journal and the state exactly where the file is a
/// journal whose bodies are the spellings of changes that fit one after the other, and the state is
/// their fold. Else it gives the least place at which the file is wrong. `opened` gives that as the
/// answer of opening. It does nothing.
pub fn meaning_laws()
    ensures stands { (file : List ℕ) (s : Standing) → Means file s → state_of file ≡ Ok s }
    ensures means { (file : List ℕ) (s : Standing) → AreBytes file → state_of file ≡ Ok s
        → Means file s }
    ensures wrong { (file : List ℕ) (place : ℕ) → AreBytes file → IsLeastWrong file place
        → state_of file ≡ Err place }
    ensures is_wrong { (file : List ℕ) (place : ℕ) → AreBytes file → state_of file ≡ Err place
        → IsLeastWrong file place }
    ensures opened { (head : Head) (file : List ℕ) (s : Standing) → AreBytes file → Means file s
        → of_set head s.journal.head ≡ Ok tt → opened head file ≡ Ok s }
    ensures is_opened { (head : Head) (file : List ℕ) (s : Standing) → AreBytes file
        → opened head file ≡ Ok s → Means file s × (of_set head s.journal.head ≡ Ok tt) }
    ensures refused { (head : Head) (file : List ℕ) (place : ℕ) → AreBytes file
        → IsLeastWrong file place → opened head file ≡ Err (NotAJournal place) }
    ensures is_refused { (head : Head) (file : List ℕ) (place : ℕ) → AreBytes file
        → opened head file ≡ Err (NotAJournal place) → IsLeastWrong file place }
{}
