//! What the definition of a transcript leaves open. The laws are the contracts of functions that do nothing.

ghost use Rattle.std.specs.Prelude.{◌≡◌, ℕ, List, None};
ghost use Rattle.gl_logic.specs.Every.{Every};
ghost use Rattle.gl_logic.specs.Exp.{Exp};
ghost use Rattle.gl_logic.specs.WorldSeen.{WorldSeen};
ghost use Rattle.gl_base.specs.declared.status.Status.{Status as StatusSeen};
ghost use Rattle.sexp_reader.specs.declared.list.Form.{Form as FormSeen};
ghost use Rattle.sexp_reader.specs.declared.ends.End.{End as EndSeen};
ghost use Rattle.book_shelf.specs.declared.finish.Finish.{Finish as FinishSeen};
ghost use Rattle.book_shelf.specs.declared.item.Item.{Item as ItemSeen};
ghost use Rattle.book_shelf.specs.Included.{included};
ghost use Rattle.event_world.specs.NextState.{BookState};
ghost use Rattle.gl_decide.specs.Bounds.{Bounds};
ghost use Rattle.gl_decide.specs.Stalls.{StallSeen};
ghost use Rattle.gl_book.specs.Answers.{IsProperTruth, IsProperValue, IsTooLarge};
ghost use Rattle.gl_book.specs.Completeness.{AreRefusedAlike, IsFound, StaysWithin};
ghost use Rattle.gl_book.specs.Entry.{Entry};
ghost use Rattle.gl_book.specs.Transcript.{ComesOf, ComesOfBook, IsTranscript, IsBookTranscript};
ghost use Rattle.book_state.specs.Reading.{IsReadBy};
ghost use Rattle.gl_book.specs.Walk.{Walk};
ghost use Rattle.gl_book.specs.declared.answer.Answer.{Answer as AnswerSeen};

/// Whether a book is refused, at which place and with which code, is decided by its texts up to the first constant without a
/// value, whatever the limits: what comes of one text, each time by a table of texts and by limits of its own, is refused alike
/// up to there, and so are two transcripts of it. What comes of one book of a shelf, or of one list from one state on, is
/// refused alike by one table and by the limits of two runs.
pub fn one_refusal()
    ensures text { (names others : List (List ℕ)) (bounds limits : Bounds) (bytes : List ℕ) (xs ys : List Entry)
        → ComesOf names bounds bytes xs → ComesOf others limits bytes ys → AreRefusedAlike xs ys }
    ensures transcripts { (bounds limits : Bounds) (bytes : List ℕ) (lines others : List (List ℕ)) (stalls more : List StallSeen) (s t : StatusSeen)
        → (one : IsTranscript bounds bytes lines stalls s) (other : IsTranscript limits bytes others more t) → AreRefusedAlike one.1 other.1 }
    ensures book { (names : List (List ℕ)) (bounds limits : Bounds) (shelf : List ℕ → List ℕ) (name : List ℕ) (xs ys : List Entry)
        → ComesOfBook names bounds shelf name xs → ComesOfBook names limits shelf name ys → AreRefusedAlike xs ys }
    ensures walk { (names : List (List ℕ)) (bounds limits : Bounds) (state : BookState) (items : List ItemSeen) (end : FinishSeen) (xs ys : List Entry)
        → Walk names bounds state items end xs → Walk names limits state items end ys → AreRefusedAlike xs ys }
{}

/// A transcript of a book whose text includes no other is one of the text, whatever else the shelf has.
pub fn alone_has_its_text()
    ensures { (bounds : Bounds) (shelf : List ℕ → List ℕ) (name : List ℕ) (lines : List (List ℕ)) (stalls : List StallSeen) (s : StatusSeen)
        → ((names : List (List ℕ)) (forms : List FormSeen) (end : EndSeen)
        → IsReadBy names (shelf name) forms end → Every (λ form. included names form.tree ≡ None) forms)
        → IsBookTranscript bounds shelf name lines stalls s → IsTranscript bounds (shelf name) lines stalls s }
{}

/// A term without variables that stays within 128 bits, the steps and the cells gets its value, unless memory is refused:
/// to print it, where it is not too large, and to tell whether it is NIL.
pub fn values_are_found()
    ensures value { (w : WorldSeen) (bounds : Bounds) (memoized : List ℕ) (t : Exp) (a : AnswerSeen)
        → StaysWithin w bounds memoized t → ¬ IsTooLarge w t → IsProperValue bounds w memoized t a → IsFound a }
    ensures truth { (w : WorldSeen) (bounds : Bounds) (memoized : List ℕ) (t : Exp) (a : AnswerSeen)
        → StaysWithin w bounds memoized t → IsProperTruth bounds w memoized t a → IsFound a }
{}
