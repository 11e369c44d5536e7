ghost use Rattle.std.specs.Prelude.{◌≡◌, ◌≢◌, MatchOption};
ghost use Rattle.gdi_kinds.specs.declared.value.Kind.{Kind as AKind};
ghost use Rattle.gdi_kinds.specs.declared.call.Dir.{Dir as ADir};
ghost use Rattle.gdi_kinds.specs.declared.constraint.Op.{Op as AnOp};
ghost use Rattle.text_words.specs.Spelling.{kind_text, dir_text, op_text};

use crate::fields::Field;
use crate::number::number_of;
use crate::value_reader::value_of;
use crate::wrong::Wrong;
use gdi_kinds::{Dir, Kind, Name, Op, Value};
use std::alloc::Global;

impl Field for u64 {
    ghost use Rattle.text_words.specs.Forms.{an_id};
    ghost use Rattle.text_words.specs.Spelling.{number};

    ghost sort = { an_id };

    ghost part = { λ n. number n };

    fn may_stand(word: &[u8]) -> bool {
        !word.is_empty()
    }

    fn read(_alloc: Global, word: &[u8]) -> Result<u64, Wrong> {
        number_of(word).ok_or(Wrong::Number)
    }
}

impl Field for Name {
    ghost use Rattle.text_words.specs.Forms.{a_name};
    ghost use Rattle.text_words.specs.Spelling.{name};

    ghost sort = { a_name };

    ghost part = { λ n. name n };

    fn may_stand(word: &[u8]) -> bool {
        !word.is_empty()
    }

    fn read(_alloc: Global, word: &[u8]) -> Result<Name, Wrong> {
        Name::of(word).ok_or(Wrong::Name)
    }
}

impl Field for Value {
    ghost use Rattle.text_words.specs.Forms.{a_value};
    ghost use Rattle.text_words.specs.Spelling.{constant};

    ghost sort = { a_value };

    ghost part = { λ v. constant v };

    fn may_stand(word: &[u8]) -> bool {
        !word.is_empty()
    }

    fn read(alloc: Global, word: &[u8]) -> Result<Value, Wrong> {
        value_of(alloc, word)
    }
}

// A label, or every vertex.
impl Field for Option<Name> {
    ghost use Rattle.text_words.specs.Forms.{a_scope};
    ghost use Rattle.text_words.specs.Spelling.{scope_part};

    ghost sort = { a_scope };

    ghost part = { λ label. scope_part label };

    fn may_stand(word: &[u8]) -> bool {
        !word.is_empty()
    }

    fn read(_alloc: Global, word: &[u8]) -> Result<Option<Name>, Wrong> {
        if matches!(word, b"*") {
            return Ok(None);
        }
        match Name::of(word) {
            Some(label) => Ok(Some(label)),
            None => Err(Wrong::Name),
        }
    }
}

impl Field for Kind {
    ghost use Rattle.text_words.specs.Forms.{a_kind};
    ghost use Rattle.text_words.specs.Spelling.{word, kind_text};

    ghost sort = { a_kind };

    ghost part = { λ kind. word (kind_text kind) };

    fn may_stand(word: &[u8]) -> bool {
        kind_of(word).is_some()
    }

    fn read(_alloc: Global, word: &[u8]) -> Result<Kind, Wrong> {
        kind_of(word).ok_or(Wrong::Form)
    }
}

impl Field for Dir {
    ghost use Rattle.text_words.specs.Forms.{a_dir};
    ghost use Rattle.text_words.specs.Spelling.{word, dir_text};

    ghost sort = { a_dir };

    ghost part = { λ dir. word (dir_text dir) };

    fn may_stand(word: &[u8]) -> bool {
        dir_of(word).is_some()
    }

    fn read(_alloc: Global, word: &[u8]) -> Result<Dir, Wrong> {
        dir_of(word).ok_or(Wrong::Form)
    }
}

/// The kind that a word is.
pub fn kind_of(word: &[u8]) -> Option<Kind>
    ensures { MatchOption result ((k : AKind) → word.now ≢ kind_text k) (λ k. word.now ≡ kind_text k) }
{
    match word {
        b"int" => Some(Kind::Int),
        b"bool" => Some(Kind::Bool),
        b"text" => Some(Kind::Text),
        _ => None,
    }
}

/// The direction that a word is.
pub fn dir_of(word: &[u8]) -> Option<Dir>
    ensures { MatchOption result ((d : ADir) → word.now ≢ dir_text d) (λ d. word.now ≡ dir_text d) }
{
    match word {
        b"out" => Some(Dir::Outward),
        b"in" => Some(Dir::Inward),
        b"und" => Some(Dir::Undirected),
        b"any" => Some(Dir::Either),
        _ => None,
    }
}

/// The comparison that a word is.
pub fn op_of(word: &[u8]) -> Option<Op>
    ensures { MatchOption result ((o : AnOp) → word.now ≢ op_text o) (λ o. word.now ≡ op_text o) }
{
    match word {
        b"=" => Some(Op::Eq),
        b"<>" => Some(Op::Ne),
        b"<" => Some(Op::Lt),
        b"<=" => Some(Op::Le),
        b">" => Some(Op::Gt),
        b">=" => Some(Op::Ge),
        _ => None,
    }
}
