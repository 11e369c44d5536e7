ghost use Rattle.std.specs.Prelude.{List};
ghost use Rattle.rma_layout.specs.Shape.{Shape};
ghost use Rattle.window_rule.specs.View.{View};
ghost use Rattle.window_rule.specs.Words.{Words};
ghost use Rattle.window_rule.specs.Lawful.{IsLawful};
ghost use Rattle.window_rule.specs.Laws.{MarkExcludes, WriterExcludes, HasHistory, ContentIsOfHistory, KnownIsTrue, BlockHasOneHolder};

use object_words::Law;

/// Who has an object marked has it alone, but for shares that are about to be taken back.
pub fn marks_exclude<L: Law>()
    ensures { (shape : Shape) (words : Words) (views : List (View L.Note)) → IsLawful L.fits shape words views →
        MarkExcludes views shape }
{}

/// While a rank is in the gate as a writer, no other looks at the whole window.
pub fn writers_exclude<L: Law>()
    ensures { (shape : Shape) (words : Words) (views : List (View L.Note)) → IsLawful L.fits shape words views →
        WriterExcludes views }
{}

/// The history that the ranks have seen is legal, and the commit word counts its entries.
pub fn history_is_legal<L: Law>()
    ensures { (shape : Shape) (words : Words) (views : List (View L.Note)) (lawful : IsLawful L.fits shape words views) →
        HasHistory L.fits shape words views lawful }
{}

/// Each object that nobody has detached has the words that the history gives it.
pub fn content_is_of_history<L: Law>()
    ensures { (shape : Shape) (words : Words) (views : List (View L.Note)) (lawful : IsLawful L.fits shape words views) →
        ContentIsOfHistory L.fits shape words views lawful }
{}

/// What a rank knows of an object is what the words of the window keep of it, and what the history gives it.
pub fn known_is_true<L: Law>()
    ensures { (shape : Shape) (words : Words) (views : List (View L.Note)) (lawful : IsLawful L.fits shape words views) →
        KnownIsTrue L.fits shape words views lawful }
{}

/// Each block is in one free list, with one rank as its own or with one object.
pub fn block_has_one_holder<L: Law>()
    ensures { (shape : Shape) (words : Words) (views : List (View L.Note)) (lawful : IsLawful L.fits shape words views) →
        BlockHasOneHolder L.fits shape words views lawful }
{}
