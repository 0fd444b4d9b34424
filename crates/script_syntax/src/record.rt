//! A record, as a script names it.
ghost use Rattle.std.specs.Prelude.{IfSome, IfNone};
ghost use Rattle.map_join.specs.declared.records.Record.{Record};
ghost use Rattle.script_syntax.specs.Parts.{text_of};
ghost use Rattle.script_syntax.specs.Words.{words_left};
ghost use Rattle.script_syntax.specs.Spelling.{IsRecordWord, RecordAlone};

use crate::words::last_word;
use hex::decode_to_slice;
use map_join::Record;

/// The bytes of a record.
const RECORD_LEN: usize = 12;

// The record that the word spells, if it spells one.
fn record_of(word: &[u8]) -> Option<Record>
    ensures some { IfSome result (λ r. IsRecordWord r word.now) }
    ensures none { IfNone result ((r : Record) → IsRecordWord r word.now → ⊥) }
{
    let mut bytes = [0; RECORD_LEN];
    match decode_to_slice(word, &mut bytes) {
        Ok(()) => {}
        Err(_) => return None,
    }
    match Record::of_bytes(&bytes) {
        Ok(record) => Some(record),
        Err(_) => None,
    }
}

/// The record that the remaining text spells, if it is exactly one word.
pub fn last_record(text: Option<&[u8]>) -> Option<Record>
    ensures some { IfSome result (λ r. RecordAlone r (words_left (text_of text.entry))) }
    ensures none { IfNone result ((r : Record) → RecordAlone r (words_left (text_of text.entry)) → ⊥) }
{
    let Some(word) = last_word(text) else {
        return None
    };
    record_of(word)
}
